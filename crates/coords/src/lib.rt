// coords.rs: a place (`Point`) and a displacement (`Vector`), three f32 each, in the written order of operations.
// `specs/Coords.antt` says what each function and each operator answers.
#![tactic(auto)]

ghost use Rattle.std.specs.Prelude.{◌≡◌};
ghost use Rattle.coords.specs.Coords.{sub_of, add_of, plus_of, minus_of, mul_of, dot_of, cross_of, length_squared, length_of};
ghost use Rattle.coords.specs.Coords.{distance_to, distance_squared_to, normalize_or, zero_vector, lerp_point, lerp_vector, finite_point};

use std::ops::{Add, Mul, Sub};

// A place in the world: right-handed, Z-up, metres.
#[repr(C)]
#[derive(Clone, Copy, Default)]
pub struct Point {
    pub x: f32,
    pub y: f32,
    pub z: f32,
}

// A displacement between places, or a direction.
#[repr(C)]
#[derive(Clone, Copy, Default)]
pub struct Vector {
    pub x: f32,
    pub y: f32,
    pub z: f32,
}

impl Point {
    // Whether every coordinate is finite.
    pub fn is_finite(self) -> bool
        ensures { result ≡ finite_point self }
    {
        float::is_finite(self.x) && float::is_finite(self.y) && float::is_finite(self.z)
    }

    // Straight-line distance to `other`.
    pub fn distance_to(self, other: Point) -> f32
        ensures { result ≡ distance_to self other }
    {
        (other - self).length()
    }

    // Squared straight-line distance to `other`.
    pub fn distance_squared_to(self, other: Point) -> f32
        ensures { result ≡ distance_squared_to self other }
    {
        (other - self).length_squared()
    }

    // The place `t` of the way from here to `other`. `t` is not clamped.
    pub fn lerp(self, other: Point, t: f32) -> Point
        ensures { result ≡ lerp_point self other t }
    {
        self + (other - self) * t
    }
}

impl Vector {
    // No displacement.
    pub const ZERO: Vector = Vector {
        x: 0.0,
        y: 0.0,
        z: 0.0,
    };

    // Dot product.
    pub fn dot(self, other: Vector) -> f32
        ensures { result ≡ dot_of self other }
    {
        self.x * other.x + self.y * other.y + self.z * other.z
    }

    // Cross product, right-handed.
    #[tactic(auto, unfolding(crate::specs::Coords::cross_of))]
    pub fn cross(self, other: Vector) -> Vector
        ensures { result ≡ cross_of self other }
    {
        Vector {
            x: self.y * other.z - self.z * other.y,
            y: self.z * other.x - self.x * other.z,
            z: self.x * other.y - self.y * other.x,
        }
    }

    // Squared length.
    pub fn length_squared(self) -> f32
        ensures { result ≡ length_squared self }
    {
        self.dot(self)
    }

    // Length, correctly rounded from the squared length.
    #[tactic(auto, unfolding(crate::specs::Coords::length_of))]
    pub fn length(self) -> f32
        ensures { result ≡ length_of self }
    {
        float::sqrt(self.length_squared())
    }

    // This direction at unit length, or `fallback` where the length is zero or not finite.
    #[tactic(auto, unfolding(crate::specs::Coords::normalize_or))]
    pub fn normalize_or(self, fallback: Vector) -> Vector
        ensures { result ≡ normalize_or self fallback }
    {
        let len = self.length();
        if float::is_finite(len) && len > 0.0 {
            return self * (1.0 / len);
        }
        fallback
    }

    // This direction at unit length, or no displacement where it has none.
    pub fn normalize_or_zero(self) -> Vector
        ensures { result ≡ normalize_or self zero_vector }
    {
        self.normalize_or(Vector::ZERO)
    }

    // The displacement `t` of the way from here to `other`. `t` is not clamped.
    // One body for this and `Point::lerp` would take a trait with the laws of `-` and `+` at both types: no plainer than the line.
    pub fn lerp(self, other: Vector, t: f32) -> Vector
        ensures { result ≡ lerp_vector self other t }
    {
        self + (other - self) * t
    }
}

// Each operator goes by component: only a macro could write the five alike, and an impl stands in no macro here.

// The displacement from `other` to here.
impl Sub for Point {
    type Output = Vector;

    ghost sub_gives = { λ p q v. v ≡ sub_of p q };

    fn sub(self, other: Point) -> Vector {
        Vector {
            x: self.x - other.x,
            y: self.y - other.y,
            z: self.z - other.z,
        }
    }
}

// The place `v` away.
impl Add<Vector> for Point {
    type Output = Point;

    ghost add_gives = { λ p v q. q ≡ add_of p v };

    fn add(self, v: Vector) -> Point {
        Point {
            x: self.x + v.x,
            y: self.y + v.y,
            z: self.z + v.z,
        }
    }
}

impl Add for Vector {
    type Output = Vector;

    ghost add_gives = { λ u v w. w ≡ plus_of u v };

    fn add(self, v: Vector) -> Vector {
        Vector {
            x: self.x + v.x,
            y: self.y + v.y,
            z: self.z + v.z,
        }
    }
}

impl Sub for Vector {
    type Output = Vector;

    ghost sub_gives = { λ u v w. w ≡ minus_of u v };

    fn sub(self, v: Vector) -> Vector {
        Vector {
            x: self.x - v.x,
            y: self.y - v.y,
            z: self.z - v.z,
        }
    }
}

impl Mul<f32> for Vector {
    type Output = Vector;

    ghost mul_gives = { λ v k w. w ≡ mul_of v k };

    fn mul(self, k: f32) -> Vector {
        Vector {
            x: self.x * k,
            y: self.y * k,
            z: self.z * k,
        }
    }
}
