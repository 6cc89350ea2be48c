//! Numbers in the section's bytes.

ghost use Rattle.std.specs.Prelude.{◌≡◌, ◌≤◌, ◌<◌, ◌+◌, ◌/◌, ◌%◌, ◌^◌, length};
ghost use Rattle.framehop_compact_tables.specs.Bytes.{u16_at, u32_at, is_within};

// The number of 16 bits in the two bytes at an offset, lowest byte first.
#[tactic(auto, unfolding(crate::specs::Bytes::u16_at))]
pub(crate) fn u16_at(bytes: &[u8], at: usize) -> u16
    requires { at + 2 ≤ length bytes.now }
    ensures { result ≡ u16_at bytes.now at }
{
    u16::from(bytes[at]) + 256 * u16::from(bytes[at + 1])
}

/// The number of 32 bits in the four bytes at an offset, lowest byte first.
#[tactic(auto, unfolding(crate::specs::Bytes::u32_at))]
pub fn u32_at(bytes: &[u8], at: usize) -> u32
    requires { at + 4 ≤ length bytes.now }
    ensures { result ≡ u32_at bytes.now at }
{
    u32::from(bytes[at])
        + 256 * u32::from(bytes[at + 1])
        + 65536 * u32::from(bytes[at + 2])
        + 16777216 * u32::from(bytes[at + 3])
}

// The number of 32 bits at an offset that is a sum of two.
#[inline(always)]
pub(crate) fn u32_after(bytes: &[u8], at: usize, more: usize) -> u32
    requires { at + more + 4 ≤ length bytes.now }
    ensures { result ≡ u32_at bytes.now (at + more) }
{
    u32_at(&bytes[at..], more)
}

// The number of 32 bits at an offset that is a sum of two. Its high 24 bits are the low ones of the number a byte further on.
#[inline(always)]
#[tactic(auto, unfolding(crate::specs::Bytes::u32_at))]
pub(crate) fn u32_below(bytes: &[u8], at: usize, more: usize) -> u32
    requires { at + more + 4 ≤ length bytes.now }
    ensures { result / 256 ≡ u32_at bytes.now (at + more + 1) % 0x1000000 }
{
    let rest = &bytes[at..];
    u32::from(rest[more])
        + 256 * u32::from(rest[more + 1])
        + 65536 * u32::from(rest[more + 2])
        + 16777216 * u32::from(rest[more + 3])
}

// Whether a stretch is whole in the bytes.
pub(crate) fn is_within(bytes: &[u8], offset: usize, size: usize) -> bool
    requires { offset + size < 2 ^ 64 }
    ensures { result ≡ is_within bytes.now offset size }
{
    offset + size <= bytes.len()
}
