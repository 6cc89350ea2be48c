//! The instructions of entries, and the row of an FDE for an address.

ghost use Rattle.std.specs.Prelude.{◌≡◌, ◌≢◌, IfErr};
ghost use Rattle.dwarf_constants.specs.declared.error.Error.TheVariants.{OutOfMemory};
ghost use Rattle.dwarf_frame_instructions.specs.Instructions.{instructions_of};
ghost use Rattle.dwarf_frame_instructions.specs.ProgramRows.{IsRowFor, program_of};
ghost use Rattle.dwarf_frame_entries.specs.EntryPrograms.{cie_instructions, conventions_in, factors_of, fde_instructions, fde_program, fde_row};
ghost use Rattle.dwarf_frame_entries.specs.EntryViews.{cie_view};

use crate::cie::CommonInformationEntry;
use crate::fde::FrameDescriptionEntry;
use crate::section::UnwindSection;
use dwarf_constants::Result;
use dwarf_frame_instructions::{CallFrameInstructionIter, Factors, FrameProgram, row_for_address};
use dwarf_frame_rows::{
    _UnwindSectionPrivate, BaseAddresses, PointerEncodingParameters, UnwindContext,
    UnwindContextStorage, UnwindTableRow,
};
use dwarf_readers::Reader;

impl<R: Reader> CommonInformationEntry<R> {
    /// The entry's instructions, which are executed before those of each of its FDEs. `section` has
    /// to be the one in which the entry was read.
    pub fn instructions<'a, Section: UnwindSection<R>>(
        &self,
        section: &'a Section,
        bases: &'a BaseAddresses,
    ) -> CallFrameInstructionIter<'a, R>
    where
        R: 'a,
        ensures { result ≡ cie_instructions (Section.frame section.now bases.now)
            (Section.extensions section.now) (cie_view R.stretch R.Offset.value self.now) }
    {
        self.instructions_in(self.instructions, None, section, bases)
    }

    // Instructions of this entry or of one of its FDEs. `func_base` is the start of the FDE's
    // function.
    fn instructions_in<'a, Section: UnwindSection<R>>(
        &self,
        input: R,
        func_base: Option<u64>,
        section: &'a Section,
        bases: &'a BaseAddresses,
    ) -> CallFrameInstructionIter<'a, R>
    where
        R: 'a,
        ensures { result ≡ instructions_of (conventions_in (Section.frame section.now bases.now)
            (Section.extensions section.now) (cie_view R.stretch R.Offset.value self.now) func_base)
            (R.stretch input) }
    {
        let parameters = PointerEncodingParameters {
            bases: &bases.eh_frame,
            func_base,
            address_size: self.address_size,
            section: section.section(),
        };
        CallFrameInstructionIter::new(
            input,
            self.fde_address_encoding(),
            parameters,
            section.vendor(),
        )
    }

    /// What the operands of the entry's instructions are multiplied by, and the size of an address.
    pub fn factors(&self) -> Factors
        ensures { result ≡ factors_of (cie_view R.stretch R.Offset.value self.now) }
    {
        Factors {
            code_alignment_factor: self.code_alignment_factor,
            data_alignment_factor: self.data_alignment_factor,
            address_size: self.address_size,
        }
    }
}

impl<R: Reader> FrameDescriptionEntry<R> {
    /// The entry's own instructions, which are executed after those of its CIE. `section` has to be
    /// the one in which the entry was read.
    pub fn instructions<'a, Section: UnwindSection<R>>(
        &self,
        section: &'a Section,
        bases: &'a BaseAddresses,
    ) -> CallFrameInstructionIter<'a, R>
    where
        R: 'a,
        ensures { result ≡ fde_instructions (Section.frame section.now bases.now)
            (Section.extensions section.now) self.now }
    {
        self.cie.instructions_in(
            self.instructions,
            Some(self.initial_address),
            section,
            bases,
        )
    }

    /// The row for an address: the first of the entry's rows that contains it. Fails with the error
    /// of an instruction before that row's end, with `NoUnwindInfoForAddress` if no row contains
    /// the address, and with `OutOfMemory` if the storage allocates. What the context held before
    /// doesn't matter. `section` has to be the one in which the entry was read.
    pub fn unwind_info_for_address<
        'ctx,
        Section: UnwindSection<R>,
        S: UnwindContextStorage<R::Offset>,
    >(
        &self,
        section: &Section,
        bases: &BaseAddresses,
        ctx: &'ctx mut UnwindContext<R::Offset, S>,
        address: u64,
    ) -> Result<&'ctx UnwindTableRow<R::Offset, S::Rules>>
        ensures row { IsRowFor R.Offset.value S.never_allocates
            (fde_row S.limits (Section.frame section.now bases.now)
            (Section.extensions section.now) self.now address) result }
        ensures memory { S.never_allocates → IfErr result (λ e. e ≢ OutOfMemory) }
    {
        row_for_address(ctx, self.program(section, bases), address)
    }

    /// The entry's program: the instructions of its CIE, then its own, and the addresses that they are for. `section` has to be
    /// the one in which the entry was read.
    #[inline(always)]
    pub fn program<'a, Section: UnwindSection<R>>(
        &self,
        section: &'a Section,
        bases: &'a BaseAddresses,
    ) -> FrameProgram<'a, R>
    where
        R: 'a,
        ensures { program_of result ≡ fde_program (Section.frame section.now bases.now)
            (Section.extensions section.now) self.now }
    {
        FrameProgram {
            factors: self.cie.factors(),
            initial_address: self.initial_address,
            end_address: self.end_address(),
            initial_instructions: self.cie.instructions(section, bases),
            instructions: self.instructions(section, bases),
        }
    }
}
