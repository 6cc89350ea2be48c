//! Bytes of code.
ghost use Rattle.std.specs.Prelude.{◌≡◌, ◌≤◌, take, length, slice_index};

/// The most bytes that an instruction has.
pub(crate) const MOST: usize = 15;

/// The byte at a place, 0 past the end.
#[inline(always)]
pub(crate) fn byte_at(code: &[u8], at: usize) -> u8
    ensures { result ≡ slice_index code.now at }
{
    if at < code.len() { code[at] } else { 0 }
}

/// As many bytes as an instruction can have, or all.
pub(crate) fn first_bytes(code: &[u8]) -> &[u8]
    ensures is { result.now ≡ take 15 code.now }
    ensures few { length result.now ≤ 15 }
    ensures within { length result.now ≤ length code.now }
{
    if code.len() < MOST {
        code
    } else {
        &code[..MOST]
    }
}
