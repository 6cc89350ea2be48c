//! Reading of unwind infos.

ghost use Rattle.std.specs.Prelude.{◌≡◌, ◌≤◌, ◌↔◌, ◌&&◌, None, IsTrue, IsSome, IfSome, length, is_some};
ghost use Rattle.std.specs.Option.{option_map};
ghost use Rattle.framehop_pe_codes.specs.Codes.{codes_of};
ghost use Rattle.framehop_pe_codes.specs.Infos.{header_of, info_of, frame_register_of};
ghost use Rattle.framehop_pe_codes.specs.InfoViews.{header_seen, IsInfo};

use crate::code::{bytes_after, read_code, register_numbered, u32_at};
use framehop_registers::x86_64::Reg;

/// An unwind info of version 1 (Microsoft, "x64 exception handling", struct UNWIND_INFO).
#[derive(Clone, Copy, Debug)]
pub struct UnwindInfo<'a> {
    /// The frame register, if the function has one.
    pub frame_register: Option<Reg>,
    /// How far the frame register is above the stack pointer that the prolog leaves, in bytes.
    pub frame_offset: u8,
    /// The bytes of the codes.
    pub codes: &'a [u8],
    /// The address of the next info of the chain (RVA).
    pub chained: Option<u32>,
}

// The frame register that a byte names in its low four bits.
fn frame_register_of(byte: u8) -> Option<Reg>
    ensures { result ≡ frame_register_of byte }
{
    let number = byte % 16;
    if number == 0 {
        None
    } else {
        Some(register_numbered(number))
    }
}

// The header that some bytes begin with, and the bytes of the codes, which may be none.
#[tactic(auto, unfolding(crate::specs::Infos::header_of))]
#[inline(always)]
fn read_header(bytes: &[u8]) -> Option<UnwindInfo<'_>>
    ensures header { option_map header_seen result ≡ header_of bytes.now }
    ensures few { IfSome result (λ info. length info.codes.now ≤ 510) }
{
    if bytes.len() < 4 {
        return None;
    }
    let count = usize::from(bytes[2]);
    if bytes.len() < 4 + 2 * count {
        return None;
    }
    if bytes[0] % 8 != 1 {
        return None;
    }
    let mut chained = None;
    if bytes[0] / 32 % 2 == 1 {
        let row = 4 + 2 * (count + count % 2);
        if bytes.len() < row + 12 {
            return None;
        }
        chained = Some(u32_at(bytes, row + 8));
    }
    let after = &bytes[4..];
    Some(UnwindInfo {
        frame_register: frame_register_of(bytes[3]),
        frame_offset: 16 * (bytes[3] / 16),
        codes: &after[..2 * count],
        chained,
    })
}

// Whether some bytes are codes.
fn are_codes(is_framed: bool, bytes: &[u8]) -> bool
    ensures { IsTrue result ↔ IsSome (codes_of is_framed bytes.now) }
{
    let mut rest = bytes;
    'codes: while !rest.is_empty() {
        let Some((_code, size)) = read_code(is_framed, rest) else {
            return false;
        };
        rest = bytes_after(rest, size);
    }
    true
}

/// The info that some bytes begin with, if its codes can be read too. `is_first_framed` says that the first info of its
/// chain names a frame register; for the first one itself it is true.
#[inline(always)]
pub fn read_info(is_first_framed: bool, bytes: &[u8]) -> Option<UnwindInfo<'_>>
    ensures none { result ≡ None → info_of is_first_framed bytes.now ≡ None }
    ensures info { IfSome result (λ info. IsInfo is_first_framed info bytes.now) }
    ensures few { IfSome result (λ info. length info.codes.now ≤ 510) }
{
    let info = read_header(bytes)?;
    if are_codes(is_framed(is_first_framed, &info), info.codes) {
        Some(info)
    } else {
        None
    }
}

// Whether codes of an info may set a frame.
pub(crate) fn is_framed(is_first_framed: bool, info: &UnwindInfo<'_>) -> bool
    ensures { result ≡ (is_first_framed && is_some info.now.frame_register) }
{
    is_first_framed && info.frame_register.is_some()
}
