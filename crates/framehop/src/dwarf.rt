//! Unwinding by call frames.

ghost use Rattle.std.specs.Prelude.{◌≡◌, Err, option_map};
ghost use Rattle.framehop_rules.specs.UnwindResults.{HasValidRule};
ghost use Rattle.framehop_rows.specs.Memory.{TakesMemory};
ghost use Rattle.framehop.specs.Coverage.{by_fde, by_known};
ghost use Rattle.framehop.specs.DwarfViews.{AnswersCoverage, AnswersFde, AnswersScan, did};
ghost use Rattle.framehop_index.specs.Lookups.{found_by_header, parsed_header};
ghost use Rattle.framehop_index.specs.SectionTypes.{frame_section_lent};
ghost use Rattle.framehop_errors.specs.declared.dwarf.DwarfUnwinderError.TheVariants.{OutOfMemory};

use dwarf_call_frames::ParsedEhFrameHdr;
use dwarf_expressions::EvaluationStorage;
use dwarf_frame_entries::{
    BaseAddresses, DebugFrame, EhFrame, FrameDescriptionEntry, UnwindContext, UnwindSection,
};
use dwarf_frame_parts::{Columns, MAX_ROWS, MAX_RULES, PartsAt, parts_for_address};
use dwarf_frame_rows::UnwindContextStorage;
use dwarf_read_core::{EndianSlice, LittleEndian, Reader};
use framehop_errors::DwarfUnwinderError;
use framehop_index::{
    LentFde, UnwindSectionType, lent_fde_around, lent_fde_at, lookup_address, offset_by_header,
    parsed_header,
};
use framehop_rows::DwarfUnwinding;
use framehop_rules::UnwindResult;
use std::alloc::Global;
use std::marker::PhantomData;

// The step by an FDE from a frame at an address of its code: that of its row for the address, or the rule
// for code that no row covers if it has none. The context makes the row only if its parts aren't known without one.
#[inline(always)]
fn unwind_frame_by_fde<
    A: DwarfUnwinding,
    ES: EvaluationStorage,
    UCS: UnwindContextStorage<usize>,
    R: Reader<Offset = usize>,
    Section: UnwindSection<R>,
    F: FnMut(u64) -> Result<u64, ()>,
>(
    alloc: Global,
    section: &Section,
    bases: &BaseAddresses,
    context: &mut UnwindContext<usize, UCS>,
    fde: &FrameDescriptionEntry<R>,
    address: u64,
    regs: &mut A::UnwindRegs,
    is_first_frame: bool,
    read_stack: &mut F,
) -> Result<UnwindResult<A::UnwindRule>, DwarfUnwinderError>
    requires rows { UCS.never_allocates }
    requires callable { F.IsAlwaysCallable read_stack.old }
    ensures callable { F.IsAlwaysCallable read_stack.new }
    ensures answers { AnswersCoverage F.step read_stack.old read_stack.new regs.old regs.new result
        A.rows A.MeetsExpression is_first_frame ES.Stack.capacity (by_fde UCS.limits
        (Section.extensions section.now) (Section.frame section.now bases.now) address fde.now) }
    ensures valid { HasValidRule A.UnwindRule.is_valid result }
    ensures memory { result ≡ Err OutOfMemory
        → TakesMemory ES.Stack.is_made_in_place ES.Stack.capacity }
{
    let encoding = fde.cie().encoding();
    if context.can_have(MAX_RULES, MAX_ROWS) {
        let columns = Columns {
            fp: A::frame_pointer(),
            ra: A::return_address(),
        };
        match parts_for_address(columns, fde.program(section, bases), address) {
            PartsAt::Found(parts) => {
                return A::unwind_frame_by_parts::<ES, R, Section, F>(
                    alloc,
                    section,
                    &parts,
                    encoding,
                    regs,
                    is_first_frame,
                    read_stack,
                );
            }
            PartsAt::Uncovered => return Ok(UnwindResult::ExecRule(A::rule_if_uncovered_by_fde())),
            PartsAt::GivesUp => {}
        }
    }
    let row = match fde.unwind_info_for_address(section, bases, context, address) {
        Ok(row) => row,
        Err(_) => return Ok(UnwindResult::ExecRule(A::rule_if_uncovered_by_fde())),
    };
    A::unwind_frame::<ES, R, Section, _, F>(
        alloc,
        section,
        row,
        encoding,
        regs,
        is_first_frame,
        read_stack,
    )
}

// The step by what is known of the FDE for an address of a section, from a frame there: by the FDE, or by the rule for code that no row
// covers if it is known that there is none.
#[inline(always)]
pub(crate) fn unwind_frame_by_known_fde<
    A: DwarfUnwinding,
    ES: EvaluationStorage,
    UCS: UnwindContextStorage<usize>,
    F: FnMut(u64) -> Result<u64, ()>,
>(
    alloc: Global,
    section: &UnwindSectionType<&[u8]>,
    bases: &BaseAddresses,
    context: &mut UnwindContext<usize, UCS>,
    known: &Option<LentFde<'_>>,
    address: u64,
    regs: &mut A::UnwindRegs,
    is_first_frame: bool,
    read_stack: &mut F,
) -> Result<UnwindResult<A::UnwindRule>, DwarfUnwinderError>
    requires rows { UCS.never_allocates }
    requires callable { F.IsAlwaysCallable read_stack.old }
    ensures callable { F.IsAlwaysCallable read_stack.new }
    ensures answers { AnswersCoverage F.step read_stack.old read_stack.new regs.old regs.new result
        A.rows A.MeetsExpression is_first_frame ES.Stack.capacity (by_known UCS.limits
        A.rows.vendor (frame_section_lent bases.entry section.now) address known.now) }
    ensures valid { HasValidRule A.UnwindRule.is_valid result }
    ensures memory { result ≡ Err OutOfMemory
        → TakesMemory ES.Stack.is_made_in_place ES.Stack.capacity }
{
    let Some(fde) = known else {
        return Ok(UnwindResult::ExecRule(A::rule_if_uncovered_by_fde()));
    };
    match *section {
        UnwindSectionType::EhFrame(bytes) => {
            let mut section = EhFrame::new(bytes, LittleEndian);
            section.set_vendor(A::vendor());
            unwind_frame_by_fde::<A, ES, UCS, EndianSlice<'_, LittleEndian>, _, F>(
                alloc,
                &section,
                bases,
                context,
                fde,
                address,
                regs,
                is_first_frame,
                read_stack,
            )
        }
        UnwindSectionType::DebugFrame(bytes) => {
            let mut section = DebugFrame::new(bytes, LittleEndian);
            section.set_vendor(A::vendor());
            unwind_frame_by_fde::<A, ES, UCS, EndianSlice<'_, LittleEndian>, _, F>(
                alloc,
                &section,
                bases,
                context,
                fde,
                address,
                regs,
                is_first_frame,
                read_stack,
            )
        }
    }
}

/// Unwinds by the call frames of a module: by the FDE at an offset, which a header, an index or compact
/// unwind info gives, or by reading the section. The storage `UCS` has room for rows from its making on: a step
/// allocates none.
#[derive(Drop)]
pub struct DwarfUnwinder<'a, A, UCS: UnwindContextStorage<usize>> {
    section: UnwindSectionType<&'a [u8]>,
    eh_frame_hdr: Option<ParsedEhFrameHdr<EndianSlice<'a, LittleEndian>>>,
    unwind_context: &'a mut UnwindContext<usize, UCS>,
    bases: &'a BaseAddresses,
    base_svma: u64,
    arch: PhantomData<A>,
}

impl<'a, A: DwarfUnwinding, UCS: UnwindContextStorage<usize>> DwarfUnwinder<'a, A, UCS> {
    /// Unwinds by a section, whose numbers are little-endian and whose addresses have 8 bytes unless a CIE
    /// says another size. `eh_frame_hdr` has the bytes of the section's header; one that doesn't parse has
    /// no table. Relative addresses are relative to `base_svma`, an address of the file.
    #[inline(always)]
    pub fn new(
        section: UnwindSectionType<&'a [u8]>,
        eh_frame_hdr: Option<&'a [u8]>,
        unwind_context: &'a mut UnwindContext<usize, UCS>,
        bases: &'a BaseAddresses,
        base_svma: u64,
    ) -> Self
        ensures section { result.section ≡ section.entry }
        ensures header { result.eh_frame_hdr
            ≡ parsed_header bases.now (option_map (λ b. b.now) eh_frame_hdr.entry) }
        ensures bases { result.bases ≡ bases.entry }
        ensures base { result.base_svma ≡ base_svma }
    {
        let eh_frame_hdr = match eh_frame_hdr {
            Some(bytes) => parsed_header(bytes, bases),
            None => None,
        };
        DwarfUnwinder {
            section,
            eh_frame_hdr,
            unwind_context,
            bases,
            base_svma,
            arch: PhantomData,
        }
    }

    /// The offset of the FDE that the table of the header names for a relative address, if it has 32 bits:
    /// an FDE for the address, if one contains it. `None` if there is no table, it has no row, the row
    /// can't be read, or the address doesn't fit 64 bits.
    pub fn get_fde_offset_for_relative_address(&self, relative_address: u32) -> Option<u32>
        ensures { result ≡ found_by_header self.now.bases.now self.now.eh_frame_hdr
            self.now.base_svma relative_address }
    {
        offset_by_header(
            &self.eh_frame_hdr,
            self.bases,
            self.base_svma,
            relative_address,
        )
    }

    /// The step from a frame at a relative address by the FDE at an offset of the section: that of its row
    /// for the address, or the rule for code that no row covers if it has none. Fails with
    /// `FdeFromOffsetFailed` if the FDE can't be read, with `LookupAddressOverflow` if the address doesn't
    /// fit 64 bits, and as [`DwarfUnwinding::unwind_frame`] does; the registers are as they were then.
    pub fn unwind_frame_with_fde<ES: EvaluationStorage, F: FnMut(u64) -> Result<u64, ()>>(
        &mut self,
        alloc: Global,
        regs: &mut A::UnwindRegs,
        is_first_frame: bool,
        relative_address: u32,
        fde_offset: u32,
        read_stack: &mut F,
    ) -> Result<UnwindResult<A::UnwindRule>, DwarfUnwinderError>
        requires rows { UCS.never_allocates }
        requires callable { F.IsAlwaysCallable read_stack.old }
        ensures callable { F.IsAlwaysCallable read_stack.new }
        ensures answers { AnswersFde
            (did F.step read_stack.old read_stack.new regs.old regs.new result)
            A.rows A.MeetsExpression UCS.limits ES.Stack.capacity self.old is_first_frame
            relative_address fde_offset }
        ensures valid { HasValidRule A.UnwindRule.is_valid result }
        ensures memory { result ≡ Err OutOfMemory
            → TakesMemory ES.Stack.is_made_in_place ES.Stack.capacity }
    {
        let address = lookup_address(self.base_svma, relative_address)?;
        match lent_fde_at(&self.section, self.bases, fde_offset) {
            Ok(fde) => unwind_frame_by_known_fde::<A, ES, UCS, F>(
                alloc,
                &self.section,
                self.bases,
                &mut *self.unwind_context,
                &Some(fde),
                address,
                regs,
                is_first_frame,
                read_stack,
            ),
            Err(error) => Err(DwarfUnwinderError::FdeFromOffsetFailed(error)),
        }
    }

    /// The step from a frame at a relative address by the first FDE of the section that can be read and
    /// contains it: as `unwind_frame_with_fde` with that FDE's offset; or the rule for code that no row
    /// covers, if there is none. Fails with `FdeFromOffsetFailed` if there is none and an error ends the
    /// section's list of entries, or if the FDE's offset doesn't fit 32 bits.
    pub fn unwind_frame_by_scan<ES: EvaluationStorage, F: FnMut(u64) -> Result<u64, ()>>(
        &mut self,
        alloc: Global,
        regs: &mut A::UnwindRegs,
        is_first_frame: bool,
        relative_address: u32,
        read_stack: &mut F,
    ) -> Result<UnwindResult<A::UnwindRule>, DwarfUnwinderError>
        requires rows { UCS.never_allocates }
        requires callable { F.IsAlwaysCallable read_stack.old }
        ensures callable { F.IsAlwaysCallable read_stack.new }
        ensures answers { AnswersScan
            (did F.step read_stack.old read_stack.new regs.old regs.new result)
            A.rows A.MeetsExpression UCS.limits ES.Stack.capacity self.old is_first_frame
            relative_address }
        ensures valid { HasValidRule A.UnwindRule.is_valid result }
        ensures memory { result ≡ Err OutOfMemory
            → TakesMemory ES.Stack.is_made_in_place ES.Stack.capacity }
    {
        let address = lookup_address(self.base_svma, relative_address)?;
        match lent_fde_around(&self.section, self.bases, address) {
            Ok(known) => unwind_frame_by_known_fde::<A, ES, UCS, F>(
                alloc,
                &self.section,
                self.bases,
                &mut *self.unwind_context,
                &known,
                address,
                regs,
                is_first_frame,
                read_stack,
            ),
            Err(error) => Err(DwarfUnwinderError::FdeFromOffsetFailed(error)),
        }
    }
}
