//! The rows of an FDE, one after the other.

ghost use Rattle.std.specs.Prelude.{◌≡◌, ◌≢◌, IfErr, option_map};
ghost use Rattle.dwarf_constants.specs.declared.error.Error.TheVariants.{OutOfMemory};
ghost use Rattle.dwarf_frame_instructions.specs.Execution.{row_in};
ghost use Rattle.dwarf_frame_entries.specs.EntryPrograms.{fde_program};
ghost use Rattle.dwarf_frame_entries.specs.UnwindTables.{GivesTableRow, MakesTable, NextLeaves, table_row};

use crate::fde::FrameDescriptionEntry;
use crate::section::UnwindSection;
use dwarf_constants::Result;
use dwarf_frame_instructions::ProgramRows;
use dwarf_frame_rows::{BaseAddresses, UnwindContext, UnwindContextStorage, UnwindTableRow};
use dwarf_readers::Reader;

/// The rows of an FDE that are left (DWARF 5, 6.4.1). After an error none are.
#[derive(Drop)]
pub struct UnwindTable<'a, 'ctx, R: Reader, S: UnwindContextStorage<R::Offset>> {
    rows: ProgramRows<'a, 'ctx, R, S>,
}

impl<'a, 'ctx, R: Reader, S: UnwindContextStorage<R::Offset>> UnwindTable<'a, 'ctx, R, S> {
    ghost use Rattle.std.specs.Borrow.{sem};
    ghost use Rattle.dwarf_frame_entries.specs.UnwindTableLends.{LendsRow};

    /// The rows of an FDE; `section` has to be the one in which it was read. What the context held
    /// before doesn't matter. Fails with the error of one of the CIE's instructions, with
    /// `StackFull` if the storage has no room for the rules that they leave, and with `OutOfMemory`
    /// if it allocates.
    pub fn new<Section: UnwindSection<R>>(
        section: &'a Section,
        bases: &'a BaseAddresses,
        ctx: &'ctx mut UnwindContext<R::Offset, S>,
        fde: &FrameDescriptionEntry<R>,
    ) -> Result<UnwindTable<'a, 'ctx, R, S>>
    where
        R: 'a,
        ensures { MakesTable R.stretch R.Offset.limit R.Offset.value S.Stack.items S.limits
            S.never_allocates result
            (fde_program (Section.frame section.now bases.now) (Section.extensions section.now) fde.now) }
    {
        let rows = ProgramRows::new(ctx, fde.program(section, bases))?;
        Ok(UnwindTable { rows })
    }

    /// The next row, or `None` after the last. Fails with the error of an instruction, and with
    /// `OutOfMemory` only if the storage allocates; after that no row is left.
    pub fn next_row(&mut self) -> Result<Option<&UnwindTableRow<R::Offset, S::Rules>>>
        ensures* leaves { sem 𝓛 (LendsRow R.row S.row R.Endian.row R.Offset.row S.Rules.row
            S.Stack.row S.Rules.ArrayLike self.entry (NextLeaves R.stretch R.Offset.limit
            R.Offset.value S.Stack.items S.limits self.old result)) }
        ensures row { GivesTableRow R.stretch R.Offset.limit R.Offset.value S.Stack.items S.limits
            S.never_allocates self.old result }
        ensures memory { S.never_allocates → IfErr result (λ e. e ≢ OutOfMemory) }
    {
        self.rows.advance()?;
        Ok(self.rows.current_row())
    }

    /// The row that the last call of `next_row` gave, if it gave one.
    pub fn into_current_row(self) -> Option<&'ctx UnwindTableRow<R::Offset, S::Rules>>
        ensures { option_map (λ row. row_in R.Offset.value row.now) result
            ≡ table_row R.Offset.value S.Stack.items self.entry }
    {
        self.rows.into_current_row()
    }
}

impl<R: Reader> FrameDescriptionEntry<R> {
    /// The entry's rows, as [`UnwindTable::new`] makes them. `section` has to be the one in which
    /// the entry was read.
    pub fn rows<'a, 'ctx, Section: UnwindSection<R>, S: UnwindContextStorage<R::Offset>>(
        &self,
        section: &'a Section,
        bases: &'a BaseAddresses,
        ctx: &'ctx mut UnwindContext<R::Offset, S>,
    ) -> Result<UnwindTable<'a, 'ctx, R, S>>
    where
        R: 'a,
        ensures { MakesTable R.stretch R.Offset.limit R.Offset.value S.Stack.items S.limits
            S.never_allocates result
            (fde_program (Section.frame section.now bases.now) (Section.extensions section.now) self.now) }
    {
        UnwindTable::new(section, bases, ctx, self)
    }
}
