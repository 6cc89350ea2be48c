//! The registers that a step of a walk carries, and the mask of code addresses.

ghost use Rattle.std.specs.Prelude.{◌≡◌, ◌+◌, ℕ};
ghost use Rattle.framehop_registers.specs.RegistersAarch64.{low_bits, IsHighestBit, no_strip, stripped_address, mask_of, lr_of, sp_of, fp_of, with_lr, with_sp, with_fp, new_registers};

use crate::display_utils::HexNum;
use std::fmt;
use std::fmt::Debug;

/// The bits of a code address that are not its pointer authentication code.
///
/// Where pointers are authenticated (Armv8.3-A), a return address on the stack or in LR has a code
/// in its high bits, which is no part of the address.
#[derive(Clone, Copy, Debug, PartialEq, Eq, PartialOrd, Ord, Hash)]
pub struct PtrAuthMask(pub u64);

impl PtrAuthMask {
    /// All 64 bits belong to the address, and nothing is stripped.
    pub fn new_no_strip() -> Self
        ensures { result ≡ no_strip }
    {
        PtrAuthMask(u64::MAX)
    }

    /// The lowest 40 bits belong to the address, as on macOS, where the code has 24 bits.
    pub fn new_24_40() -> Self
        ensures { result.0 ≡ low_bits 40 }
    {
        PtrAuthMask(u64::MAX >> 24)
    }

    /// The bits up to the highest one of the highest code address that is known. Nothing is
    /// stripped if that address is 0.
    pub fn from_max_known_address(address: u64) -> Self
        ensures ones { (place : ℕ) → IsHighestBit address place
            → result.0 ≡ low_bits (place + 1) }
        ensures zero { address ≡ 0 → result ≡ no_strip }
    {
        if address == 0 {
            return PtrAuthMask::new_no_strip();
        }
        PtrAuthMask(u64::MAX >> address.leading_zeros())
    }

    /// A code address without its authentication code.
    pub fn strip_ptr_auth(&self, ptr: u64) -> u64
        ensures { result ≡ stripped_address self.now ptr }
    {
        ptr & self.0
    }
}

/// The link register x30, the stack pointer and the frame pointer x29 of a frame, with the mask of
/// code addresses.
#[derive(Clone, Copy, PartialEq, Eq)]
pub struct UnwindRegsAarch64 {
    lr_mask: PtrAuthMask,
    lr: u64,
    sp: u64,
    fp: u64,
}

impl UnwindRegsAarch64 {
    /// The registers with these values and the mask that strips nothing.
    pub fn new(lr: u64, sp: u64, fp: u64) -> Self
        ensures { result ≡ new_registers no_strip lr sp fp }
    {
        UnwindRegsAarch64 {
            lr_mask: PtrAuthMask::new_no_strip(),
            lr,
            sp,
            fp,
        }
    }

    /// The registers with this mask and these values, the link register stripped by the mask.
    pub fn new_with_ptr_auth_mask(
        code_ptr_auth_mask: PtrAuthMask,
        lr: u64,
        sp: u64,
        fp: u64,
    ) -> Self
        ensures { let lr = stripped_address code_ptr_auth_mask lr in
            result ≡ new_registers code_ptr_auth_mask lr sp fp }
    {
        UnwindRegsAarch64 {
            lr_mask: code_ptr_auth_mask,
            lr: code_ptr_auth_mask.strip_ptr_auth(lr),
            sp,
            fp,
        }
    }

    /// The mask of code addresses.
    pub fn lr_mask(&self) -> PtrAuthMask
        ensures { result ≡ mask_of self.now }
    {
        self.lr_mask
    }

    /// The stack pointer.
    pub fn sp(&self) -> u64
        ensures { result ≡ sp_of self.now }
    {
        self.sp
    }

    /// Gives the stack pointer another value.
    pub fn set_sp(&mut self, sp: u64)
        ensures { self.new ≡ with_sp self.old sp }
    {
        self.sp = sp;
    }

    /// The frame pointer, x29.
    pub fn fp(&self) -> u64
        ensures { result ≡ fp_of self.now }
    {
        self.fp
    }

    /// Gives the frame pointer another value.
    pub fn set_fp(&mut self, fp: u64)
        ensures { self.new ≡ with_fp self.old fp }
    {
        self.fp = fp;
    }

    /// The link register, x30.
    pub fn lr(&self) -> u64
        ensures { result ≡ lr_of self.now }
    {
        self.lr
    }

    /// Gives the link register another value, stripped by the mask.
    pub fn set_lr(&mut self, lr: u64)
        ensures { self.new ≡ with_lr self.old lr }
    {
        self.lr = self.lr_mask.strip_ptr_auth(lr);
    }
}

impl Debug for UnwindRegsAarch64 {
    fn fmt<W: fmt::Write>(&self, f: &mut fmt::Formatter<W>) -> fmt::Result {
        f.debug_struct("UnwindRegsAarch64")
            .field("lr", &HexNum(self.lr()))
            .field("sp", &HexNum(self.sp()))
            .field("fp", &HexNum(self.fp()))
            .finish()
    }
}
