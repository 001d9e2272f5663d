// The number functions of Rust's `f32` and `f64` that Rattle has not, under Rust's names, and generic where both types are asked
// for one. Each has an answer for every input, and its contract says which: the definitions stand in specs/ or are the kit's
// (`lib.Ieee`), and the crate `float_laws` proves what they mean. `T.float` is a value's float, at f32 and at f64 the value itself.
#![tactic(auto)]

mod bits;
mod casts;
mod choose;
mod real;
mod root;
mod sign;
mod whole;

pub use bits::{from_bits, is_finite, is_nan, to_bits};
pub use casts::{
    f32_to_f64, nearest_f64_to_f32, nearest_usize_to_f32, saturating_f32_to_usize,
    saturating_f64_to_i64,
};
pub use choose::{clamp, max, min, total_cmp};
pub use real::Real;
pub use root::sqrt;
pub use sign::{abs, is_sign_negative, signum};
pub use whole::{ceil, floor, round};
