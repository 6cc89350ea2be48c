//! What the own instructions of a CIE leave, which is found once and kept for all FDEs that name the CIE.

ghost use Rattle.std.specs.Prelude.{◌≡◌, None, IfSome, IsTrue};
ghost use Rattle.std.specs.BTreeMap.{IsEmpty};
ghost use Rattle.dwarf_frame_instructions.specs.ProgramRows.{program_of};
ghost use Rattle.dwarf_frame_parts.specs.PartsStates.{HasRoomForParts};
ghost use Rattle.dwarf_cie_rows.specs.OwnRows.{AreLeftIn, HasCieThere, HoldsBy, IsOwnOf, left_in};

use dwarf_frame_entries::{
    BaseAddresses, FrameDescriptionEntry, UnwindContext, UnwindContextStorage, UnwindSection,
};
use dwarf_frame_instructions::{FrameProgram, ProgramRows};
use dwarf_frame_parts::{Columns, LeftByCie};
use dwarf_readers::{Reader, ReaderOffset};
use std::alloc::Global;
use std::collections::BTreeMap;

/// What is known of the own instructions of a CIE.
#[derive(Clone, Copy)]
pub enum OwnRow {
    /// They leave this, and a context has room for all rows that are made after it without one.
    Left(LeftByCie),
    /// They fail, and so the FDEs have no rows.
    Fails,
    /// What they leave isn't known without a context.
    InContext,
}

impl OwnRow {
    /// What they leave, if it is known without a context.
    #[inline(always)]
    pub fn left(self) -> Option<LeftByCie>
        ensures { result ≡ left_in self }
    {
        match self {
            OwnRow::Left(left) => Some(left),
            OwnRow::Fails | OwnRow::InContext => None,
        }
    }
}

/// What is known of the CIE at an offset in its section, in bytes.
#[derive(Clone, Copy)]
pub struct OwnRowAt {
    /// The offset.
    pub offset: u64,
    /// What is known.
    pub own: OwnRow,
}

/// What is known of each CIE that an FDE named. Without memory to keep it, its instructions are executed again.
#[derive(Drop)]
pub struct KnownRows {
    /// A context has room for all rows that are made without one.
    pub has_room: bool,
    /// What was asked for last: most FDEs name the CIE of the one before.
    pub last: Option<OwnRowAt>,
    /// What is known by the offset of the CIE.
    pub all: BTreeMap<u64, OwnRow>,
}

impl KnownRows {
    /// Before any CIE.
    pub fn new(alloc: Global, has_room: bool) -> Self
        ensures room { result.has_room ≡ has_room }
        ensures last { result.last ≡ None }
        ensures all { IsEmpty result.all }
    {
        KnownRows {
            has_room,
            last: None,
            all: BTreeMap::new(alloc),
        }
    }
}

// What the CIE's own instructions of a program leave, if that is known without a context.
#[inline(always)]
fn left_by_program<R: Reader>(columns: Columns, program: FrameProgram<'_, R>) -> Option<LeftByCie>
    ensures { IfSome result (AreLeftIn columns (program_of program.entry)) }
{
    let factors = program.factors;
    dwarf_frame_parts::left_by_cie(columns, &factors, program.initial_instructions)
}

// What is known of the own instructions of an FDE's CIE, by executing them.
fn own_row_of<R: Reader, Section: UnwindSection<R>, S: UnwindContextStorage<R::Offset>>(
    columns: Columns,
    has_room: bool,
    section: &Section,
    bases: &BaseAddresses,
    context: &mut UnwindContext<R::Offset, S>,
    fde: &FrameDescriptionEntry<R>,
) -> OwnRow
    requires fixed { S.never_allocates }
    requires room { IsTrue has_room → HasRoomForParts S.limits }
    ensures { IsOwnOf columns S.limits (Section.frame section.now bases.now)
        (Section.extensions section.now) fde.now result }
{
    if has_room {
        if let Some(left) = left_by_program(columns, fde.program(section, bases)) {
            return OwnRow::Left(left);
        }
    }
    match ProgramRows::new(context, fde.program(section, bases)) {
        Ok(_) => OwnRow::InContext,
        Err(_) => OwnRow::Fails,
    }
}

// What is known of the own instructions of an FDE's CIE, which are executed if no FDE before it named that CIE.
fn kept_own_row<R: Reader, Section: UnwindSection<R>, S: UnwindContextStorage<R::Offset>>(
    columns: Columns,
    section: &Section,
    bases: &BaseAddresses,
    context: &mut UnwindContext<R::Offset, S>,
    fde: &FrameDescriptionEntry<R>,
    known: &mut KnownRows,
) -> OwnRow
    requires fixed { S.never_allocates }
    requires there { HasCieThere (Section.frame section.now bases.now) fde.now }
    requires known { HoldsBy columns S.limits (Section.frame section.now bases.now)
        (Section.extensions section.now) known.old }
    ensures known { HoldsBy columns S.limits (Section.frame section.now bases.now)
        (Section.extensions section.now) known.new }
    ensures own { IsOwnOf columns S.limits (Section.frame section.now bases.now)
        (Section.extensions section.now) fde.now result }
{
    let offset = fde.cie().offset().into_u64();
    if let Some(own) = known.all.get(&offset) {
        return *own;
    }
    let has_room = known.has_room;
    let own = own_row_of::<R, Section, S>(columns, has_room, section, bases, context, fde);
    // Without memory it is found again.
    let _ = known.all.insert(offset, own);
    own
}

// The same of a CIE that is asked for last from then on. It isn't inlined, since few FDEs need it.
#[inline(never)]
fn other_own_row<R: Reader, Section: UnwindSection<R>, S: UnwindContextStorage<R::Offset>>(
    columns: Columns,
    section: &Section,
    bases: &BaseAddresses,
    context: &mut UnwindContext<R::Offset, S>,
    fde: &FrameDescriptionEntry<R>,
    known: &mut KnownRows,
) -> OwnRow
    requires fixed { S.never_allocates }
    requires there { HasCieThere (Section.frame section.now bases.now) fde.now }
    requires known { HoldsBy columns S.limits (Section.frame section.now bases.now)
        (Section.extensions section.now) known.old }
    ensures known { HoldsBy columns S.limits (Section.frame section.now bases.now)
        (Section.extensions section.now) known.new }
    ensures own { IsOwnOf columns S.limits (Section.frame section.now bases.now)
        (Section.extensions section.now) fde.now result }
{
    let own = kept_own_row::<R, Section, S>(columns, section, bases, context, fde, known);
    let offset = fde.cie().offset().into_u64();
    known.last = Some(OwnRowAt { offset, own });
    own
}

/// What is known of the own instructions of an FDE's CIE. They are executed only if no FDE before it named that CIE.
#[inline(always)]
pub fn own_row<R: Reader, Section: UnwindSection<R>, S: UnwindContextStorage<R::Offset>>(
    columns: Columns,
    section: &Section,
    bases: &BaseAddresses,
    context: &mut UnwindContext<R::Offset, S>,
    fde: &FrameDescriptionEntry<R>,
    known: &mut KnownRows,
) -> OwnRow
    requires fixed { S.never_allocates }
    requires there { HasCieThere (Section.frame section.now bases.now) fde.now }
    requires known { HoldsBy columns S.limits (Section.frame section.now bases.now)
        (Section.extensions section.now) known.old }
    ensures known { HoldsBy columns S.limits (Section.frame section.now bases.now)
        (Section.extensions section.now) known.new }
    ensures own { IsOwnOf columns S.limits (Section.frame section.now bases.now)
        (Section.extensions section.now) fde.now result }
{
    if let Some(last) = known.last
        && last.offset == fde.cie().offset().into_u64()
    {
        return last.own;
    }
    other_own_row::<R, Section, S>(columns, section, bases, context, fde, known)
}
