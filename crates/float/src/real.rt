// The trait of f32 and f64, by which a function is one for both: what is done apart for each type.
ghost use Rattle.std.specs.Prelude.{◌≡◌, ℕ, false, refl, Float, from_bits, to_bits};
ghost use Rattle.std.specs.Float.{Format, inf, binary32, binary64};
ghost use Rattle.std.specs.Float.Ieee.{eq, lt};
ghost use Rattle.float.specs.Choose.{zero};
ghost use Rattle.float.specs.Sign.{abs_of, is_negative};

pub trait Real: Copy {
    // u32 or u64.
    type Bits;

    // The type's format, a value as a float of it, and its bits as a number.
    ghost format: { Format };

    ghost float: { Self → Float };

    ghost pattern: { Self.Bits → ℕ };

    const ZERO: Self;

    ghost ZERO: { Self };

    const INFINITY: Self;

    ghost INFINITY: { Self };

    // The machine's `==` and `<`. The `<` of `PartialOrd` goes through `partial_cmp`: `is_finite` of an f32 took 13 instructions by it, and takes 9.
    fn is_equal(self, y: Self) -> bool
        ensures { result ≡ eq (float self) (float y) };

    fn is_less(self, y: Self) -> bool
        ensures { result ≡ lt (float self) (float y) };

    fn from_bits(b: Self::Bits) -> Self
        ensures { float result ≡ from_bits format (pattern b) };

    fn to_bits(self) -> Self::Bits
        ensures { pattern result ≡ to_bits format (float self) };

    fn is_sign_negative(self) -> bool
        ensures { result ≡ is_negative (float self) };

    fn abs(self) -> Self
        ensures { float result ≡ abs_of (float self) };

    ghost zero_law: { float ZERO ≡ zero };

    ghost infinity_law: { float INFINITY ≡ inf false };
}

// From `from_bits` to `abs` the two impls differ in constants alone. Bodies for both would compare and reduce `Bits` of two widths, by a trait of
// its own with laws: no plainer.
impl Real for f32 {
    type Bits = u32;

    ghost format = { binary32 };

    ghost float = { λ x. x };

    ghost pattern = { λ b. b };

    const ZERO: f32 = 0.0;

    ghost ZERO = { zero };

    const INFINITY: f32 = 1.0 / 0.0;

    ghost INFINITY = { inf false };

    fn is_equal(self, y: f32) -> bool {
        self == y
    }

    fn is_less(self, y: f32) -> bool {
        self < y
    }

    #[tactic(auto, using(crate::proofs::Nans::zero_over_zero, crate::proofs::Nans::nan_above, crate::proofs::Nans::no_nan_below))]
    fn from_bits(b: u32) -> f32 {
        if 0x7f80_0000 < b % 0x8000_0000 {
            return 0.0 / 0.0;
        }
        f32::from_bits(b)
    }

    #[tactic(auto, using(crate::proofs::Nans::nan_by, crate::proofs::Nans::no_nan, crate::proofs::Nans::nan_bits_law))]
    fn to_bits(self) -> u32 {
        if self != self {
            return 0x7fc0_0000;
        }
        f32::to_bits(self)
    }

    #[tactic(auto, using(crate::proofs::Nans::no_nan, crate::proofs::Signs::nan_sign, crate::proofs::Signs::sign_bit))]
    fn is_sign_negative(self) -> bool {
        if self != self {
            return false;
        }
        0x8000_0000 <= f32::to_bits(self)
    }

    #[tactic(auto, using(crate::proofs::Nans::no_nan, crate::proofs::Signs::abs_of_bits, crate::proofs::Signs::abs_no_nan_bits))]
    fn abs(self) -> f32 {
        if self != self {
            return self;
        }
        f32::from_bits(f32::to_bits(self) % 0x8000_0000)
    }

    ghost zero_law = { refl };

    ghost infinity_law = { refl };
}

impl Real for f64 {
    type Bits = u64;

    ghost format = { binary64 };

    ghost float = { λ x. x };

    ghost pattern = { λ b. b };

    const ZERO: f64 = 0.0;

    ghost ZERO = { zero };

    const INFINITY: f64 = 1.0 / 0.0;

    ghost INFINITY = { inf false };

    fn is_equal(self, y: f64) -> bool {
        self == y
    }

    fn is_less(self, y: f64) -> bool {
        self < y
    }

    #[tactic(auto, using(crate::proofs::Nans::zero_over_zero, crate::proofs::Nans::nan_above, crate::proofs::Nans::no_nan_below))]
    fn from_bits(b: u64) -> f64 {
        if 0x7ff0_0000_0000_0000 < b % 0x8000_0000_0000_0000 {
            return 0.0 / 0.0;
        }
        f64::from_bits(b)
    }

    #[tactic(auto, using(crate::proofs::Nans::nan_by, crate::proofs::Nans::no_nan, crate::proofs::Nans::nan_bits_law))]
    fn to_bits(self) -> u64 {
        if self != self {
            return 0x7ff8_0000_0000_0000;
        }
        f64::to_bits(self)
    }

    #[tactic(auto, using(crate::proofs::Nans::no_nan, crate::proofs::Signs::nan_sign, crate::proofs::Signs::sign_bit))]
    fn is_sign_negative(self) -> bool {
        if self != self {
            return false;
        }
        0x8000_0000_0000_0000 <= f64::to_bits(self)
    }

    #[tactic(auto, using(crate::proofs::Nans::no_nan, crate::proofs::Signs::abs_of_bits, crate::proofs::Signs::abs_no_nan_bits))]
    fn abs(self) -> f64 {
        if self != self {
            return self;
        }
        f64::from_bits(f64::to_bits(self) % 0x8000_0000_0000_0000)
    }

    ghost zero_law = { refl };

    ghost infinity_law = { refl };
}
