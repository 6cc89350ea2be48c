//! The registers of a frame, as far as they are known.

ghost use Rattle.std.specs.Prelude.{◌≡◌, ◌≢◌, ◌<◌, ℕ, None, Some};
ghost use Rattle.framehop_registers.specs.Registers.{ip_of, sp_of, bp_of};
ghost use Rattle.framehop_registers.specs.RegistersAarch64.{mask_of, lr_of, sp_of as aarch64_sp_of, fp_of};
ghost use Rattle.framehop_expressions.specs.Architectures.{register_count};
ghost use Rattle.framehop_expressions.specs.Registers.{known, register_in};
ghost use Rattle.framehop_expressions.specs.declared.architecture.Architecture.TheVariants.{Aarch64, X86_64 as amd64};

use crate::architecture::Architecture;
use dwarf_constants::{AArch64, Register, X86_64};
use framehop_registers::aarch64::{PtrAuthMask, UnwindRegsAarch64};
use framehop_registers::x86_64::UnwindRegsX86_64;

/// One more than the highest number of a register that any architecture has.
const MOST: usize = 35;

/// The registers of a frame by their DWARF numbers, each known or unknown, and the bits of a code address that aren't its
/// authentication code.
#[derive(Debug, Clone, Copy, PartialEq, Eq)]
pub struct KnownRegisters {
    architecture: Architecture,
    mask: PtrAuthMask,
    values: [Option<u64>; MOST],
}

impl KnownRegisters {
    /// Registers none of which is known.
    pub fn unknown(architecture: Architecture, mask: PtrAuthMask) -> KnownRegisters
        ensures architecture { result.architecture ≡ architecture }
        ensures mask { result.mask ≡ mask }
        ensures none { (number : ℕ) → known result number ≡ None }
    {
        KnownRegisters {
            architecture,
            mask,
            values: [None; MOST],
        }
    }

    /// The registers with these values, by their numbers. Those that the architecture doesn't have stay unknown.
    pub fn from_values(
        architecture: Architecture,
        mask: PtrAuthMask,
        values: [Option<u64>; MOST],
    ) -> KnownRegisters
        ensures architecture { result.architecture ≡ architecture }
        ensures mask { result.mask ≡ mask }
        ensures values { (number : ℕ)
            → known result number ≡ register_in architecture values number }
    {
        KnownRegisters {
            architecture,
            mask,
            values,
        }
    }

    /// The instruction pointer, RSP and RBP of a frame.
    pub fn from_x86_64(regs: &UnwindRegsX86_64) -> KnownRegisters
        ensures architecture { result.architecture ≡ amd64 }
        ensures ip { known result 16 ≡ Some (ip_of regs.now) }
        ensures sp { known result 7 ≡ Some (sp_of regs.now) }
        ensures bp { known result 6 ≡ Some (bp_of regs.now) }
    {
        let mut registers = KnownRegisters::unknown(
            Architecture::X86_64,
            PtrAuthMask::new_no_strip(),
        );
        registers.set(X86_64::RA, Some(regs.ip()));
        registers.set(X86_64::RSP, Some(regs.sp()));
        registers.set(X86_64::RBP, Some(regs.bp()));
        registers
    }

    /// The link register, SP and x29 of a frame, and the mask of code addresses.
    pub fn from_aarch64(regs: &UnwindRegsAarch64) -> KnownRegisters
        ensures architecture { result.architecture ≡ Aarch64 }
        ensures mask { result.mask ≡ mask_of regs.now }
        ensures lr { known result 30 ≡ Some (lr_of regs.now) }
        ensures sp { known result 31 ≡ Some (aarch64_sp_of regs.now) }
        ensures fp { known result 29 ≡ Some (fp_of regs.now) }
    {
        let mut registers = KnownRegisters::unknown(Architecture::Aarch64, regs.lr_mask());
        registers.set(AArch64::X30, Some(regs.lr()));
        registers.set(AArch64::SP, Some(regs.sp()));
        registers.set(AArch64::X29, Some(regs.fp()));
        registers
    }

    /// The architecture.
    pub fn architecture(&self) -> Architecture
        ensures { result ≡ self.now.architecture }
    {
        self.architecture
    }

    /// The bits of a code address that aren't its authentication code.
    pub fn mask(&self) -> PtrAuthMask
        ensures { result ≡ self.now.mask }
    {
        self.mask
    }

    /// The value of a register, if it is known.
    pub fn get(&self, register: Register) -> Option<u64>
        ensures { result ≡ known self.now register.0 }
    {
        if register.0 < self.architecture.register_count() {
            self.values[usize::from(register.0)]
        } else {
            None
        }
    }

    /// Makes a register known or unknown. A register that the architecture doesn't have stays unknown.
    pub fn set(&mut self, register: Register, value: Option<u64>)
        ensures architecture { self.new.architecture ≡ self.old.architecture }
        ensures mask { self.new.mask ≡ self.old.mask }
        ensures set { register.0 < register_count self.old.architecture
            → known self.new register.0 ≡ value }
        ensures others { (number : ℕ) → number ≢ register.0
            → known self.new number ≡ known self.old number }
    {
        if register.0 < self.architecture.register_count() {
            self.values[usize::from(register.0)] = value;
        }
    }
}
