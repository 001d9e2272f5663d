// The functions of `float` for Rust or C to link, each with its contract. C has a name for each type: the suffix 64 is for an f64.
#![tactic(auto)]

ghost use Rattle.std.specs.Prelude.{◌≡◌, pos};
ghost use Rattle.std.specs.Float.{binary32, binary64};
ghost use Rattle.std.specs.Float.Ieee.{is_nan, of_bits, to_bits, of_int, to_unsigned, to_signed};
ghost use Rattle.std.specs.Float.Ieee.Scale.{finite};
ghost use Rattle.float.specs.Choose.{min_of, max_of, clamp_of, total_of};
ghost use Rattle.float.specs.Narrow.{narrow_of};
ghost use Rattle.float.specs.Root.{sqrt_of};
ghost use Rattle.float.specs.Sign.{abs_of, is_negative, signum_of};
ghost use Rattle.float.specs.Whole.{floor_of, ceil_of, round_of};
ghost use Rattle.float_c.specs.Number.{number_of};

#[unsafe(no_mangle)]
pub extern "C" fn kartsodi_floor(x: f32) -> f32
    ensures { result ≡ floor_of x }
{
    float::floor(x)
}

#[unsafe(no_mangle)]
pub extern "C" fn kartsodi_ceil(x: f32) -> f32
    ensures { result ≡ ceil_of x }
{
    float::ceil(x)
}

#[unsafe(no_mangle)]
pub extern "C" fn kartsodi_round64(x: f64) -> f64
    ensures { result ≡ round_of x }
{
    float::round(x)
}

#[unsafe(no_mangle)]
pub extern "C" fn kartsodi_sqrt(x: f32) -> f32
    ensures { result ≡ sqrt_of x }
{
    float::sqrt(x)
}

#[unsafe(no_mangle)]
pub extern "C" fn kartsodi_abs(x: f32) -> f32
    ensures { result ≡ abs_of x }
{
    float::abs(x)
}

#[unsafe(no_mangle)]
pub extern "C" fn kartsodi_abs64(x: f64) -> f64
    ensures { result ≡ abs_of x }
{
    float::abs(x)
}

#[unsafe(no_mangle)]
pub extern "C" fn kartsodi_signum(x: f32) -> f32
    ensures { result ≡ signum_of x }
{
    float::signum(x)
}

#[unsafe(no_mangle)]
pub extern "C" fn kartsodi_is_sign_negative(x: f32) -> bool
    ensures { result ≡ is_negative x }
{
    float::is_sign_negative(x)
}

#[unsafe(no_mangle)]
pub extern "C" fn kartsodi_is_sign_negative64(x: f64) -> bool
    ensures { result ≡ is_negative x }
{
    float::is_sign_negative(x)
}

#[unsafe(no_mangle)]
pub extern "C" fn kartsodi_is_nan(x: f32) -> bool
    ensures { result ≡ is_nan x }
{
    float::is_nan(x)
}

#[unsafe(no_mangle)]
pub extern "C" fn kartsodi_is_nan64(x: f64) -> bool
    ensures { result ≡ is_nan x }
{
    float::is_nan(x)
}

#[unsafe(no_mangle)]
pub extern "C" fn kartsodi_is_finite(x: f32) -> bool
    ensures { result ≡ finite x }
{
    float::is_finite(x)
}

#[unsafe(no_mangle)]
pub extern "C" fn kartsodi_is_finite64(x: f64) -> bool
    ensures { result ≡ finite x }
{
    float::is_finite(x)
}

#[unsafe(no_mangle)]
pub extern "C" fn kartsodi_min(x: f32, y: f32) -> f32
    ensures { result ≡ min_of x y }
{
    float::min(x, y)
}

#[unsafe(no_mangle)]
pub extern "C" fn kartsodi_min64(x: f64, y: f64) -> f64
    ensures { result ≡ min_of x y }
{
    float::min(x, y)
}

#[unsafe(no_mangle)]
pub extern "C" fn kartsodi_max(x: f32, y: f32) -> f32
    ensures { result ≡ max_of x y }
{
    float::max(x, y)
}

#[unsafe(no_mangle)]
pub extern "C" fn kartsodi_clamp(x: f32, lo: f32, hi: f32) -> f32
    ensures { result ≡ clamp_of x lo hi }
{
    float::clamp(x, lo, hi)
}

#[unsafe(no_mangle)]
pub extern "C" fn kartsodi_clamp64(x: f64, lo: f64, hi: f64) -> f64
    ensures { result ≡ clamp_of x lo hi }
{
    float::clamp(x, lo, hi)
}

#[unsafe(no_mangle)]
pub extern "C" fn kartsodi_f32_to_f64(x: f32) -> f64
    ensures { result ≡ x }
{
    float::f32_to_f64(x)
}

#[unsafe(no_mangle)]
pub extern "C" fn kartsodi_nearest_f64_to_f32(x: f64) -> f32
    ensures { result ≡ narrow_of x }
{
    float::nearest_f64_to_f32(x)
}

#[unsafe(no_mangle)]
pub extern "C" fn kartsodi_nearest_usize_to_f32(n: usize) -> f32
    ensures { result ≡ of_int binary32 (pos n) }
{
    float::nearest_usize_to_f32(n)
}

#[unsafe(no_mangle)]
pub extern "C" fn kartsodi_saturating_f32_to_usize(x: f32) -> usize
    ensures { result ≡ to_unsigned 64 x }
{
    float::saturating_f32_to_usize(x)
}

#[unsafe(no_mangle)]
pub extern "C" fn kartsodi_saturating_f64_to_i64(x: f64) -> i64
    ensures { result ≡ to_signed 63 x }
{
    float::saturating_f64_to_i64(x)
}

#[unsafe(no_mangle)]
pub extern "C" fn kartsodi_from_bits(b: u32) -> f32
    ensures { result ≡ of_bits binary32 b }
{
    float::from_bits(b)
}

#[unsafe(no_mangle)]
pub extern "C" fn kartsodi_from_bits64(b: u64) -> f64
    ensures { result ≡ of_bits binary64 b }
{
    float::from_bits(b)
}

#[unsafe(no_mangle)]
pub extern "C" fn kartsodi_to_bits(x: f32) -> u32
    ensures { result ≡ to_bits binary32 x }
{
    float::to_bits(x)
}

#[unsafe(no_mangle)]
pub extern "C" fn kartsodi_to_bits64(x: f64) -> u64
    ensures { result ≡ to_bits binary64 x }
{
    float::to_bits(x)
}

// -1 for less, 0 for equal, 1 for greater.
#[unsafe(no_mangle)]
pub extern "C" fn kartsodi_total_cmp(x: f32, y: f32) -> i32
    ensures { result ≡ number_of (total_of x y) }
{
    float::total_cmp(x, y) as i32
}
