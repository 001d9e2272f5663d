// Little-endian fields of a slice of bytes. Each sum is the definition's own: from_le_bytes would first want the bytes put into an array.
// Each width takes the two halves from the width before: one function over the width would be a loop over bytes.
#![tactic(auto)]

ghost use Rattle.std.specs.Prelude.{◌≡◌, ◌+◌, ◌≤◌, ◌<◌, length};
ghost use Rattle.fields.specs.Fields.{u8_at, u16_at, u32_at, u64_at, f32_at, f64_at};

pub fn u8_at(s: &[u8], at: usize) -> usize
    requires { at < length s.now }
    ensures { (result ≡ u8_at s.now at) × (result < 256) }
{
    s[at] as usize
}

pub fn u16_at(s: &[u8], at: usize) -> usize
    requires { at + 2 ≤ length s.now }
    ensures { (result ≡ u16_at s.now at) × (result < 65536) }
{
    u8_at(s, at) + u8_at(s, at + 1) * 256
}

#[tactic(auto, unfolding(crate::specs::Fields::u32_at))]
pub fn u32_at(s: &[u8], at: usize) -> usize
    requires { at + 4 ≤ length s.now }
    ensures { (result ≡ u32_at s.now at) × (result < 4294967296) }
{
    u16_at(s, at) + u16_at(s, at + 2) * 65536
}

#[tactic(auto, unfolding(crate::specs::Fields::u64_at))]
pub fn u64_at(s: &[u8], at: usize) -> u64
    requires { at + 8 ≤ length s.now }
    ensures { result ≡ u64_at s.now at }
{
    (u32_at(s, at) as u64) + (u32_at(s, at + 4) as u64) * 4294967296
}

// The float of any bits; a NaN has no payload.
pub fn f32_at(s: &[u8], at: usize) -> f32
    requires { at + 4 ≤ length s.now }
    ensures { result ≡ f32_at s.now at }
{
    float::from_bits(u32_at(s, at) as u32)
}

pub fn f64_at(s: &[u8], at: usize) -> f64
    requires { at + 8 ≤ length s.now }
    ensures { result ≡ f64_at s.now at }
{
    float::from_bits(u64_at(s, at))
}
