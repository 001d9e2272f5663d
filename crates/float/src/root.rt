// The square root (IEEE 754-2019, 5.4.1) by whole-number arithmetic on the bits.
ghost use Rattle.std.specs.Prelude.{◌≡◌, ◌+◌, ◌-◌, ◌*◌, ◌/◌, ◌^◌, ◌<◌, ◌≤◌, from_bits};
ghost use Rattle.std.specs.Float.{binary32};
ghost use Rattle.float.specs.Root.{sqrt_of};
ghost use Rattle.float.specs.Steps.{Wide, Whole, Nearest, Newton, NormalRange, Square};
ghost use Rattle.exact.specs.Patterns.{units_of};

// √t to about one in a hundred, by a straight line for each parity of its exponent.
fn guess(t: u64) -> u64
    requires { t < 4294967296 }
    ensures { (16384 ≤ result) × (result < 131072) }
{
    let h = t / 65536;
    if t < 2147483648 {
        return h * 13 / 16 + 19780;
    }
    h * 19 / 32 + 27160
}

// One of Newton's steps toward √n. It ends at the whole part or above, wherever it starts.
#[tactic(auto, using(crate::proofs::Squares::newton_above))]
fn newton(n: u64, g: u64) -> u64
    requires nonzero { 0 < g }
    requires small_guess { g < 4294967296 }
    requires small_n { n < 281474976710656 }
    ensures { Newton n g result }
{
    (g + n / g) / 2
}

// The whole part of √n. The second step ends there or above; the loop steps back while the square is too large,
// at most once as far as runs show, and no range says how often.
fn whole_root(n: u64) -> u64
    requires { Wide n }
    ensures { Whole n result }
{
    let t = n / 65536;
    let g = newton(t, guess(t));
    let mut r = newton(n, g * 256);
    while n < r * r {
        r = r - 1;
    }
    r
}

// √n to the nearest whole number. No root of a whole number is a half, so there is no tie.
fn nearest_root(n: u64) -> u64
    requires { Wide n }
    ensures { Nearest n result }
{
    let q = whole_root(n);
    if n - q * q <= q { q } else { q + 1 }
}

// The number digits * 2 ^ power, with 24 binary digits in front.
#[derive(Clone, Copy)]
struct Normal {
    digits: u32,
    power: u32,
    ghost range: { NormalRange digits power },
}

impl Normal {
    // The number without the even power of two that leaves 47 or 48 digits.
    fn square(self) -> u64
        ensures { Square (self.digits * 2 ^ self.power) result ((self.power - 23) / 2) }
    {
        if self.power % 2 == 0 {
            self.digits as u64 * 16777216
        } else {
            self.digits as u64 * 8388608
        }
    }
}

// t * 2 ^ 149.
#[tactic(auto, using(crate::proofs::Scaling::zeros_least, crate::proofs::Scaling::scaled_same))]
fn scale(t: u32) -> Normal
    requires nonzero { 0 < t }
    requires subnormal { t < 8388608 }
    ensures { result.digits * 2 ^ result.power ≡ t * 2 ^ 149 }
{
    let j = u32::leading_zeros(t) - 8;
    Normal {
        digits: t << j,
        power: 149 - j,
    }
}

// The square of the root in units of 2 ^ -149: the value's own count of units, times 2 ^ 149.
fn parts(b: u32) -> Normal
    requires nonzero { 0 < b }
    requires finite { b < 2139095040 }
    ensures { result.digits * 2 ^ result.power ≡ units_of binary32 b * 2 ^ 149 }
{
    if b < 8388608 {
        return scale(b);
    }
    Normal {
        digits: b % 8388608 + 8388608,
        power: b / 8388608 + 148,
    }
}

// The pattern of the root of a finite value above zero, from that value's pattern.
fn root_bits(b: u32) -> u32
    requires nonzero { 0 < b }
    requires finite { b < 2139095040 }
    ensures { (result < 2139095040) × (from_bits binary32 result ≡ sqrt_of (from_bits binary32 b)) }
{
    let p = parts(b);
    let r = nearest_root(p.square());
    (p.power - 23) / 2 * 8388608 + r as u32
}

// A NaN has a NaN, the infinity itself, a zero itself, a number below zero a NaN.
pub fn sqrt(x: f32) -> f32
    ensures { result ≡ sqrt_of x }
{
    if x != x {
        return x;
    }
    let b = f32::to_bits(x);
    if b == 0x7f80_0000 {
        return x;
    }
    if b % 0x8000_0000 == 0 {
        return x;
    }
    if 0x8000_0000 < b {
        return 0.0 / 0.0;
    }
    f32::from_bits(root_bits(b))
}
