//! The architectures of documents.

ghost use Rattle.std.specs.Prelude.{◌≡◌, Some, IfOk, string_bytes};
ghost use Rattle.unwind_run_program.specs.Registers.{RegisterForms};

use framehop::Unwinding;
use framehop_rules::aarch64::{ArchAarch64, PtrAuthMask, UnwindRegsAarch64};
use framehop_rules::x86_64::{ArchX86_64, UnwindRegsX86_64};
use framehop_whole_modules::CarriesRegisters;
use std::alloc::{AllocError, Global};
use std::fmt;
use unwind_run_document::StatedRegisters;

/// An architecture, by how documents state its registers and how these are written.
pub(crate) trait DocumentArch: Unwinding + CarriesRegisters {
    ghost forms: { RegisterForms Self.UnwindRegs };

    /// The registers that are stated.
    fn stated_registers(stated: StatedRegisters) -> Self::UnwindRegs
        ensures { result ≡ forms.stated stated };

    /// The text of registers, each after its name.
    fn registers_text(alloc: Global, registers: Self::UnwindRegs) -> Result<String, AllocError>
        ensures { IfOk result (λ text. string_bytes text ≡ forms.text registers) };
}

/// Shows the registers of x86_64.
#[derive(Clone, Copy)]
struct TextX86_64(UnwindRegsX86_64);

impl fmt::Display for TextX86_64 {
    ghost use Rattle.unwind_run_program.specs.Registers.{text_x86_64};

    ghost output = { λ text. Some (text_x86_64 text.0) };

    fn fmt<W: fmt::Write>(&self, f: &mut fmt::Formatter<W>) -> fmt::Result {
        let ip = self.0.ip();
        let sp = self.0.sp();
        let bp = self.0.bp();
        write!(f, " ip 0x{ip:x} sp 0x{sp:x} bp 0x{bp:x}")
    }
}

/// Shows the registers of aarch64.
#[derive(Clone, Copy)]
struct TextAarch64(UnwindRegsAarch64);

impl fmt::Display for TextAarch64 {
    ghost use Rattle.unwind_run_program.specs.Registers.{text_aarch64};

    ghost output = { λ text. Some (text_aarch64 text.0) };

    fn fmt<W: fmt::Write>(&self, f: &mut fmt::Formatter<W>) -> fmt::Result {
        let lr = self.0.lr();
        let sp = self.0.sp();
        let fp = self.0.fp();
        write!(f, " lr 0x{lr:x} sp 0x{sp:x} fp 0x{fp:x}")
    }
}

impl DocumentArch for ArchX86_64 {
    ghost use Rattle.unwind_run_program.specs.Registers.{forms_x86_64};

    ghost forms = { forms_x86_64 };

    fn stated_registers(stated: StatedRegisters) -> UnwindRegsX86_64 {
        UnwindRegsX86_64::new(stated.code, stated.sp, stated.fp)
    }

    fn registers_text(alloc: Global, registers: UnwindRegsX86_64) -> Result<String, AllocError> {
        format!(in alloc; "{}", TextX86_64(registers))
    }
}

impl DocumentArch for ArchAarch64 {
    ghost use Rattle.unwind_run_program.specs.Registers.{forms_aarch64};

    ghost forms = { forms_aarch64 };

    fn stated_registers(stated: StatedRegisters) -> UnwindRegsAarch64 {
        let mask = PtrAuthMask(stated.mask);
        UnwindRegsAarch64::new_with_ptr_auth_mask(mask, stated.code, stated.sp, stated.fp)
    }

    fn registers_text(alloc: Global, registers: UnwindRegsAarch64) -> Result<String, AllocError> {
        format!(in alloc; "{}", TextAarch64(registers))
    }
}
