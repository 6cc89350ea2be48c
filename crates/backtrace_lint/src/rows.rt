//! Findings in the rows of a section's FDEs.

ghost use Rattle.std.specs.Prelude.{◌≡◌, ◌++◌, IfOk, OnOk};
ghost use Rattle.dwarf_frame_instructions.specs.Execution.{row_in};
ghost use Rattle.backtrace_lint.specs.RowFindings.{failed_at, unsaid_start};
ghost use Rattle.backtrace_lint.specs.RowViews.{Adds, AddsFde, AddsOf, AddsPart, FindsRows, with_failed};

use crate::row_lines::FailedFde;
use dwarf_constants::Error;
use dwarf_frame_entries::{
    BaseAddresses, Entry, FrameDescriptionEntry, KnownCies, PartialFrameDescriptionEntry,
    UnwindContext, UnwindContextStorage, UnwindSection,
};
use dwarf_frame_instructions::ProgramRows;
use dwarf_frame_rows::{RegisterRule, RuledRegister, UnwindTableRow};
use dwarf_readers::{Reader, ReaderOffset};
use dwarf_storage::ArrayLike;
use framehop_rows::RowRules;
use std::alloc::{AllocError, Global};

/// What is found in the rows of a section's FDEs.
#[derive(Drop)]
pub(crate) struct RowFindings {
    /// Where each row starts that no unwind rule says exactly.
    pub(crate) unsaid: Vec<u64>,
    /// The FDEs whose rows end with an error.
    pub(crate) failed: Vec<FailedFde>,
}

// Where a row starts, if no rule says it.
fn unsaid_start<
    A: RowRules,
    T: ReaderOffset,
    Rules: ArrayLike<Item = RuledRegister<RegisterRule<T>>>,
>(row: &UnwindTableRow<T, Rules>) -> Option<u64>
    ensures { result ≡ unsaid_start A.rule_of (row_in T.value row.now) }
{
    match A::rule_for_row(row) {
        Some(_) => None,
        None => Some(row.start_address()),
    }
}

// Adds where the rows start that no rule says, and returns the error that ends the rows, if one does.
fn add_rows<A: RowRules, R: Reader, S: UnwindContextStorage<R::Offset>>(
    found: &mut Vec<u64>,
    rows: &mut ProgramRows<'_, '_, R, S>,
) -> Result<Option<Error>, AllocError>
    requires { S.never_allocates }
    ensures { IfOk result (Adds R.stretch R.Offset.limit R.Offset.value S.Stack.items S.limits
        A.rule_of rows.old found.old found.new) }
{
    'rows: loop {
        if let Err(error) = rows.advance() {
            return Ok(Some(error));
        }
        let Some(row) = rows.current_row() else {
            return Ok(None);
        };
        if let Some(start) = unsaid_start::<A, R::Offset, S::Rules>(row) {
            found.push(start)?;
        }
    }
}

// Adds where the rows of an FDE start that no rule says, and returns the error that ends them, if one does.
fn add_rows_of<
    A: RowRules,
    R: Reader,
    Section: UnwindSection<R>,
    S: UnwindContextStorage<R::Offset>,
>(
    found: &mut Vec<u64>,
    section: &Section,
    bases: &BaseAddresses,
    context: &mut UnwindContext<R::Offset, S>,
    fde: &FrameDescriptionEntry<R>,
) -> Result<Option<Error>, AllocError>
    requires fixed { S.never_allocates }
    requires vendor { Section.extensions section.now ≡ A.rows.vendor }
    ensures { IfOk result (AddsOf S.limits A.rows.vendor A.rule_of
        (Section.frame section.now bases.now) fde.now found.old found.new) }
{
    match ProgramRows::new(context, fde.program(section, bases)) {
        Ok(mut rows) => add_rows::<A, R, S>(found, &mut rows),
        Err(error) => Ok(Some(error)),
    }
}

// An FDE at an offset, if an error ends its rows.
fn failed_at(offset: u64, refusal: Option<Error>) -> Option<FailedFde>
    ensures { result ≡ failed_at offset refusal }
{
    match refusal {
        Some(error) => Some(FailedFde { offset, error }),
        None => None,
    }
}

// Adds an FDE, if there is one.
fn add_failed(fdes: &mut Vec<FailedFde>, failed: Option<FailedFde>) -> Result<(), AllocError>
    ensures { OnOk result (fdes.new.items ≡ with_failed fdes.old.items failed) }
{
    if let Some(fde) = failed {
        fdes.push(fde)?;
    }
    Ok(())
}

// Adds what is found of an FDE.
fn add_fde<A: RowRules, R: Reader, Section: UnwindSection<R>, S: UnwindContextStorage<R::Offset>>(
    found: &mut RowFindings,
    section: &Section,
    bases: &BaseAddresses,
    context: &mut UnwindContext<R::Offset, S>,
    fde: &FrameDescriptionEntry<R>,
) -> Result<(), AllocError>
    requires fixed { S.never_allocates }
    requires vendor { Section.extensions section.now ≡ A.rows.vendor }
    ensures { OnOk result (AddsFde S.limits A.rows.vendor A.rule_of
        (Section.frame section.now bases.now) fde.now found.old found.new) }
{
    let refusal = add_rows_of::<A, R, Section, S>(&mut found.unsaid, section, bases, context, fde)?;
    add_failed(
        &mut found.failed,
        failed_at(fde.offset().into_u64(), refusal),
    )
}

// Adds what is found of an entry that is an FDE, if it can be read. Its CIE is read only if no FDE before it names that.
fn add_part<A: RowRules, R: Reader, Section: UnwindSection<R>, S: UnwindContextStorage<R::Offset>>(
    found: &mut RowFindings,
    section: &Section,
    bases: &BaseAddresses,
    context: &mut UnwindContext<R::Offset, S>,
    cies: &mut KnownCies<'_, Section, R>,
    part: &PartialFrameDescriptionEntry<'_, Section, R>,
) -> Result<(), AllocError>
    requires fixed { S.never_allocates }
    requires vendor { Section.extensions section.now ≡ A.rows.vendor }
    requires there { part.now.within ≡ cies.old }
    ensures same { cies.new ≡ cies.old }
    ensures adds { OnOk result (AddsPart S.limits A.rows A.rule_of
        (Section.frame section.now bases.now) part.now found.old found.new) }
{
    match cies.fde(part) {
        Ok(fde) => add_fde::<A, R, Section, S>(found, section, bases, context, &fde),
        Err(_) => Ok(()),
    }
}

/// What is found in the rows of a section's FDEs.
pub(crate) fn row_findings<
    A: RowRules,
    R: Reader,
    Section: UnwindSection<R>,
    S: UnwindContextStorage<R::Offset>,
>(
    alloc: Global,
    section: &Section,
    bases: &BaseAddresses,
    context: &mut UnwindContext<R::Offset, S>,
) -> Result<RowFindings, AllocError>
    requires fixed { S.never_allocates }
    requires vendor { Section.extensions section.now ≡ A.rows.vendor }
    ensures { IfOk result (FindsRows S.limits A.rows.vendor A.rule_of
        (Section.frame section.now bases.now)) }
{
    let mut found = RowFindings {
        unsaid: Vec::new(alloc),
        failed: Vec::new(alloc),
    };
    let mut cies = KnownCies::new(alloc, section, bases);
    let mut entries = section.entries(bases);
    'entries: loop {
        match entries.next() {
            Ok(Some(Entry::Cie(_))) => {}
            Ok(Some(Entry::Fde(part))) => {
                add_part::<A, R, Section, S>(
                    &mut found,
                    section,
                    bases,
                    &mut *context,
                    &mut cies,
                    &part,
                )?;
            }
            Ok(None) => return Ok(found),
            Err(_) => return Ok(found),
        }
    }
}
