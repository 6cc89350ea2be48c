//! Findings in the rows of a file's section, by its machine.

ghost use Rattle.std.specs.Prelude.{IfOk};
ghost use Rattle.backtrace_lint.specs.FileRows.{row_limits};
ghost use Rattle.backtrace_lint.specs.LintText.{frames_of};
ghost use Rattle.backtrace_lint.specs.RowViews.{AreOn, FindsRows};
ghost use Rattle.frame_table_files.specs.SectionViews.{section_seen};

use crate::rows::{RowFindings, row_findings};
use dwarf_frame_entries::{DebugFrame, EhFrame, UnwindContext};
use dwarf_frame_rows::{StoreOnHeap, store_on_heap_has_room};
use dwarf_readers::{EndianSlice, LittleEndian};
use frame_table_files::{FileSection, Machine, SectionName};
use framehop_rows::RowRules;
use framehop_rules::aarch64::ArchAarch64;
use framehop_rules::x86_64::ArchX86_64;
use std::alloc::{AllocError, Global};

// What is found in the rows of a section, on an architecture.
fn rows_by_arch<A: RowRules>(
    alloc: Global,
    section: &FileSection<'_>,
) -> Result<RowFindings, AllocError>
    ensures { IfOk result (FindsRows row_limits A.rows.vendor A.rule_of (frames_of (section_seen section.now))) }
{
    store_on_heap_has_room::<usize>();
    let mut context: UnwindContext<usize, StoreOnHeap> = UnwindContext::new(alloc)?;
    match section.name {
        SectionName::EhFrame => {
            let mut frames = EhFrame::new(section.bytes, LittleEndian);
            frames.set_vendor(A::vendor());
            row_findings::<A, EndianSlice<'_, LittleEndian>, _, StoreOnHeap>(
                alloc,
                &frames,
                &section.bases,
                &mut context,
            )
        }
        SectionName::DebugFrame => {
            let mut frames = DebugFrame::new(section.bytes, LittleEndian);
            frames.set_vendor(A::vendor());
            row_findings::<A, EndianSlice<'_, LittleEndian>, _, StoreOnHeap>(
                alloc,
                &frames,
                &section.bases,
                &mut context,
            )
        }
    }
}

/// What is found in the rows of a file's section.
pub(crate) fn rows_of_section(
    alloc: Global,
    section: &FileSection<'_>,
) -> Result<RowFindings, AllocError>
    ensures { IfOk result (AreOn section.now.machine (frames_of (section_seen section.now))) }
{
    match section.machine {
        Machine::X86_64 => rows_by_arch::<ArchX86_64>(alloc, section),
        Machine::Aarch64 => rows_by_arch::<ArchAarch64>(alloc, section),
    }
}
