//! What the FDEs of an index say of relative addresses.

ghost use Rattle.std.specs.Prelude.{◌≡◌, ◌≤◌, ◌^◌, IfOk, IfSome};
ghost use Rattle.dwarf_endianity.specs.Answers.{Gives};
ghost use Rattle.dwarf_frame_instructions.specs.ProgramRows.{program_of};
ghost use Rattle.dwarf_frame_entries.specs.Entries.{fde_from_offset};
ghost use Rattle.dwarf_frame_entries.specs.EntryPrograms.{fde_rows};
ghost use Rattle.dwarf_frame_entries.specs.SectionWithin.{fde_there};
ghost use Rattle.framehop_index.specs.CfiIndexView.{IsIndexOf};
ghost use Rattle.framehop_ranges.specs.Ranges.{Sound};
ghost use Rattle.dwarf_cie_rows.specs.OwnRows.{HasCieThere, HasRoomFor};
ghost use Rattle.framehop_tables.specs.ByParts.{FitsFde, Holds};
ghost use Rattle.framehop_tables.specs.Covered.{row_rules, tabulated};
ghost use Rattle.framehop_tables.specs.Tabulations.{AddsEntry, AddsProgram, AddsRest, AddsRows, AreOf, CanAdd, end_of, start_at};

use crate::covered::Covered;
use crate::entry::{Entry, extend, nothing_up_to};
use crate::parts_rows::{add_rows_by_parts, columns_of, has_room};
use crate::rows::add_rows;
use crate::same_rule::SameRule;
use crate::spans::Span;
use dwarf_cie_rows::{KnownRows, OwnRow, own_row};
use dwarf_frame_entries::{
    BaseAddresses, FrameDescriptionEntry, KnownCies, UnwindContext, UnwindContextStorage,
    UnwindSection,
};
use dwarf_frame_instructions::{FrameProgram, ProgramRows};
use dwarf_frame_parts::LeftByCie;
use dwarf_readers::{Reader, ReaderOffset};
use framehop_index::{DwarfCfiIndex, IndexedFde};
use framehop_ranges::Ranges;
use framehop_rows::RowRules;
use std::alloc::{AllocError, Global};

// Adds the rows of a program up to the limit of a span, if it is known what its CIE's own instructions leave. Returns whether all are added;
// if not, some may be.
#[inline(always)]
fn add_by_parts<A: RowRules, R: Reader, S: UnwindContextStorage<R::Offset>>(
    ranges: &mut Ranges<Entry<A::UnwindRule>>,
    program: FrameProgram<'_, R>,
    left: Option<LeftByCie>,
    span: Span,
) -> Result<bool, AllocError>
where
    A::UnwindRule: SameRule,
    requires span { CanAdd ranges.old span }
    requires left { IfSome left (HasRoomFor (record { fp = A.fp; ra = A.ra }) S.limits
        (program_of program)) }
    ensures { IfOk result (AddsProgram (row_rules A.rows A.rule_of) span S.limits
        (program_of program.entry) ranges.old ranges.new) }
{
    match left {
        Some(left) => add_rows_by_parts::<A, R, S>(ranges, program, left, span),
        None => Ok(false),
    }
}

// Adds the rows of a program up to the limit of a span, by a context. Some of them may be there already.
fn add_by_context<A: RowRules, R: Reader, S: UnwindContextStorage<R::Offset>>(
    ranges: &mut Ranges<Entry<A::UnwindRule>>,
    context: &mut UnwindContext<R::Offset, S>,
    program: FrameProgram<'_, R>,
    span: Span,
) -> Result<(), AllocError>
where
    A::UnwindRule: SameRule,
    requires fixed { S.never_allocates }
    requires span { CanAdd ranges.old span }
    ensures { IfOk result (λ _. AddsRest (row_rules A.rows A.rule_of) span S.limits
        (program_of program.entry) ranges.old ranges.new) }
{
    match ProgramRows::new(context, program) {
        Ok(mut rows) => add_rows::<A, R, S>(ranges, &mut rows, span),
        Err(_) => {
            let uncovered = Covered::Says(A::rule_if_uncovered_by_fde());
            extend(ranges, span.limit, uncovered)
        }
    }
}

// Adds what an FDE with rows says up to the limit of a span, by a context if it isn't known without one. `left` is what the own instructions
// of its CIE leave, if that is known.
fn add_with_left<
    A: RowRules,
    R: Reader,
    Section: UnwindSection<R>,
    S: UnwindContextStorage<R::Offset>,
>(
    ranges: &mut Ranges<Entry<A::UnwindRule>>,
    section: &Section,
    bases: &BaseAddresses,
    context: &mut UnwindContext<R::Offset, S>,
    fde: &FrameDescriptionEntry<R>,
    left: Option<LeftByCie>,
    span: Span,
) -> Result<(), AllocError>
where
    A::UnwindRule: SameRule,
    requires fixed { S.never_allocates }
    requires span { CanAdd ranges.old span }
    requires left { IfSome left (FitsFde A.fp A.ra S.limits
        (Section.frame section.now bases.now) (Section.extensions section.now) fde.now) }
    ensures { let frame = Section.frame section.now bases.now in
        let rows = fde_rows S.limits frame (Section.extensions section.now) fde.now in
        IfOk result (λ _. AddsRows (row_rules A.rows A.rule_of) span rows ranges.old ranges.new) }
{
    if add_by_parts::<A, R, S>(&mut *ranges, fde.program(section, bases), left, span)? {
        return Ok(());
    }
    add_by_context::<A, R, S>(ranges, context, fde.program(section, bases), span)
}

// Adds what an FDE says up to the limit of a span: nothing but that its code is uncovered, if the own instructions of its CIE fail.
fn add_fde<A: RowRules, R: Reader, Section: UnwindSection<R>, S: UnwindContextStorage<R::Offset>>(
    ranges: &mut Ranges<Entry<A::UnwindRule>>,
    section: &Section,
    bases: &BaseAddresses,
    context: &mut UnwindContext<R::Offset, S>,
    fde: &FrameDescriptionEntry<R>,
    known: &mut KnownRows,
    span: Span,
) -> Result<(), AllocError>
where
    A::UnwindRule: SameRule,
    requires fixed { S.never_allocates }
    requires span { CanAdd ranges.old span }
    requires there { HasCieThere (Section.frame section.now bases.now) fde.now }
    requires known { Holds A.fp A.ra S.limits (Section.frame section.now bases.now)
        (Section.extensions section.now) known.old }
    ensures known { Holds A.fp A.ra S.limits (Section.frame section.now bases.now)
        (Section.extensions section.now) known.new }
    ensures adds { let frame = Section.frame section.now bases.now in
        let rows = fde_rows S.limits frame (Section.extensions section.now) fde.now in
        IfOk result (λ _. AddsRows (row_rules A.rows A.rule_of) span rows ranges.old ranges.new) }
{
    let columns = columns_of::<A>();
    let own = own_row::<R, Section, S>(columns, section, bases, &mut *context, fde, known);
    if let OwnRow::Fails = own {
        let uncovered = Covered::Says(A::rule_if_uncovered_by_fde());
        return extend(ranges, span.limit, uncovered);
    }
    add_with_left::<A, R, Section, S>(ranges, section, bases, context, fde, own.left(), span)
}

// The FDE at an offset with its CIE, which is read only if none before it was read there.
#[inline(always)]
fn fde_at<R: Reader, Section: UnwindSection<R>>(
    cies: &mut KnownCies<'_, Section, R>,
    offset: u32,
) -> dwarf_constants::Result<FrameDescriptionEntry<R>>
    ensures fde { Gives (λ fde. fde) result (fde_there R.Offset.limit Section.kind cies.old offset) }
    ensures same { cies.new ≡ cies.old }
{
    cies.fde_from_offset(Section::Offset::from(R::Offset::from_u32(offset)))
}

// Adds what was read at the offset of a span: what an FDE says there, or nothing if none could be read.
fn add_entry<A: RowRules, R: Reader, Section: UnwindSection<R>, S: UnwindContextStorage<R::Offset>>(
    ranges: &mut Ranges<Entry<A::UnwindRule>>,
    section: &Section,
    bases: &BaseAddresses,
    context: &mut UnwindContext<R::Offset, S>,
    read: dwarf_constants::Result<FrameDescriptionEntry<R>>,
    known: &mut KnownRows,
    span: Span,
) -> Result<(), AllocError>
where
    A::UnwindRule: SameRule,
    requires fixed { S.never_allocates }
    requires span { CanAdd ranges.old span }
    requires read { Gives (λ fde. fde) read (fde_from_offset (Section.frame section.now bases.now) span.offset) }
    requires known { Holds A.fp A.ra S.limits (Section.frame section.now bases.now)
        (Section.extensions section.now) known.old }
    ensures known { Holds A.fp A.ra S.limits (Section.frame section.now bases.now)
        (Section.extensions section.now) known.new }
    ensures adds { let frame = Section.frame section.now bases.now in
        let t = tabulated A.rows A.rule_of S.limits (Section.extensions section.now) span.base_svma in
        IfOk result (λ _. AddsEntry (t frame) span (fde_from_offset frame span.offset) ranges.old ranges.new) }
{
    match read {
        Ok(fde) => add_fde::<A, R, Section, S>(ranges, section, bases, context, &fde, known, span),
        Err(_) => extend::<A::UnwindRule>(ranges, span.limit, Covered::Nothing),
    }
}

// The relative addresses up to here have 64 bits.
fn end_of(base_svma: u64) -> u64
    ensures { result ≡ end_of base_svma }
{
    (u64::MAX - base_svma).min((1 << 32) - 1) + 1
}

// Where the FDE at a place of an index starts; after the last the addresses end.
fn start_at(end: u64, fdes: &[IndexedFde], place: usize) -> u64
    ensures start { result ≡ start_at end fdes.now place }
    ensures fits { result ≤ end }
{
    match fdes.get(place) {
        Some(fde) => u64::from(fde.start).min(end),
        None => end,
    }
}

// What the FDEs of an index say of each relative address.
pub(crate) fn ranges_of<
    A: RowRules,
    R: Reader,
    Section: UnwindSection<R>,
    S: UnwindContextStorage<R::Offset>,
>(
    alloc: Global,
    section: &Section,
    bases: &BaseAddresses,
    context: &mut UnwindContext<R::Offset, S>,
    index: &DwarfCfiIndex,
    base_svma: u64,
) -> Result<Ranges<Entry<A::UnwindRule>>, AllocError>
where
    A::UnwindRule: SameRule,
    requires fixed { S.never_allocates }
    requires index { IsIndexOf index.now base_svma (Section.frame section.now bases.now) }
    ensures { let t = tabulated A.rows A.rule_of S.limits (Section.extensions section.now) base_svma in
        IfOk result (AreOf (t (Section.frame section.now bases.now)) index.now.fdes.items) }
{
    let end = end_of(base_svma);
    let fdes = index.fdes();
    let mut ranges = nothing_up_to::<A::UnwindRule>(alloc, start_at(end, fdes, 0));
    let mut cies = KnownCies::new(alloc, section, bases);
    let mut known = KnownRows::new(alloc, has_room::<R::Offset, S>(alloc)?);
    for place in 0..fdes.len() {
        let span = Span {
            base_svma,
            offset: fdes[place].offset,
            limit: start_at(end, fdes, place + 1),
        };
        add_entry::<A, R, Section, S>(
            &mut ranges,
            section,
            bases,
            &mut *context,
            fde_at(&mut cies, span.offset),
            &mut known,
            span,
        )?;
    }
    extend::<A::UnwindRule>(&mut ranges, 1 << 32, Covered::Nothing)?;
    Ok(ranges)
}
