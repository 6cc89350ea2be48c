//! The ModRM and SIB bytes (Intel SDM, volume 2, 2.1.3 and 2.1.5).
ghost use Rattle.std.specs.Prelude.{◌≡◌, ◌<◌, ◌≤◌};
ghost use Rattle.framehop_x86_instructions.specs.ModRm.{AreFields, modrm_of, has_sib, sib_base, displacement_size, addressing_size};

use crate::bytes::byte_at;

/// The fields of a ModRM byte.
#[derive(Clone, Copy, Debug, PartialEq, Eq)]
pub struct ModRm {
    /// bits 6 and 7, 3 for a register
    pub mode: u8,
    /// bits 3 to 5
    pub reg: u8,
    /// bits 0 to 2
    pub rm: u8,
}

impl ModRm {
    pub fn of(byte: u8) -> ModRm
        ensures is { result ≡ modrm_of byte }
        ensures fields { AreFields result }
    {
        ModRm {
            mode: byte >> 6,
            reg: (byte >> 3) % 8,
            rm: byte % 8,
        }
    }

    /// Whether a SIB byte comes next.
    pub fn has_sib(self) -> bool
        ensures { result ≡ has_sib self }
    {
        self.mode != 3 && self.rm == 4
    }

    // The base in the SIB byte at a place, or the field rm where there is none.
    fn base(self, code: &[u8], at: usize) -> u8
        ensures { result ≡ sib_base self code.now at }
    {
        if self.has_sib() {
            byte_at(code, at) % 8
        } else {
            self.rm
        }
    }

    // How many bytes the displacement has, where a base is given.
    fn displacement_size(self, base: u8) -> usize
        ensures is { result ≡ displacement_size self.mode base }
        ensures few { result ≤ 4 }
    {
        match self.mode {
            0 if base == 5 => 4,
            1 => 1,
            2 => 4,
            _ => 0,
        }
    }
}

/// How many bytes a ModRM byte has with its SIB byte, if there is one at a place, and its displacement.
pub(crate) fn addressing_size(modrm: ModRm, code: &[u8], at: usize) -> usize
    ensures is { result ≡ addressing_size modrm code.now at }
    ensures few { result ≤ 6 }
{
    let sib = if modrm.has_sib() { 1 } else { 0 };
    1 + sib + modrm.displacement_size(modrm.base(code, at))
}
