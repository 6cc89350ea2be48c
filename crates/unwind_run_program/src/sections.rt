//! The sections of a load, as a module is made of them.

ghost use Rattle.std.specs.Prelude.{◌≡◌, ◌<◌, None, IsSome, IfSome, IfNone, length};
ghost use Rattle.std.specs.List.{slice_index_or};
ghost use Rattle.unwind_run_document.specs.CommandViews.{section_view, sections_view};
ghost use Rattle.unwind_run_program.specs.SectionViews.{HasFirstData};
ghost use Rattle.unwind_run_program.specs.Sections.{first_data_named, lookup_of, options_on, rows_of, stated_range_named, tables_on};
ghost use Rattle.unwind_run_document.specs.declared.command.StatedSection.{StatedSection as Stated};

use crate::arch::DocumentArch;
use crate::perform::DocumentModules;
use framehop::{
    AllocationPolicy, FdeLookup, LoadOptions, ModuleUnwindData, Rows, TableArch, Tabulating,
};
use framehop_modules::ModuleSectionInfo;
use framehop_whole_modules::{ByWholeRows, WholeRegs};
use std::alloc::{AllocError, Global};
use std::ops::Range;
use unwind_run_document::{
    StatedLookup, StatedOptions, StatedRegisters, StatedRows, StatedSection,
};

/// The sections and segments of a load, whose stated addresses are relative to an address.
#[derive(Debug, Drop)]
pub(crate) struct StatedSections {
    base_svma: u64,
    sections: Vec<StatedSection>,
    segments: Vec<StatedSection>,
}

impl StatedSections {
    ghost use Rattle.unwind_run_program.specs.SectionViews.{stated};
    ghost use Rattle.unwind_run_program.specs.Sections.{sections_stated};

    /// Sections and segments whose stated addresses are relative to `base_svma`.
    pub(crate) fn new(
        base_svma: u64,
        sections: Vec<StatedSection>,
        segments: Vec<StatedSection>,
    ) -> Self
        ensures { stated result
            ≡ sections_stated base_svma (sections_view sections.items) (sections_view segments.items) }
    {
        StatedSections {
            base_svma,
            sections,
            segments,
        }
    }
}

// The index of the first section that has this name and data.
fn place_of(sections: &[StatedSection], name: &[u8]) -> Option<usize>
    ensures within { IfSome result (λ i. i < length sections.now) }
    ensures named { IfSome result (λ i. (d : Stated)
        → (section_view (slice_index_or sections.now i d)).name ≡ name.now) }
    ensures data_ { IfSome result (λ i. HasFirstData name.now sections.now i) }
    ensures has_data { IfSome result (λ _.
        IsSome (first_data_named name.now (sections_view sections.now))) }
    ensures none { IfNone result (first_data_named name.now (sections_view sections.now) ≡ None) }
{
    for (i, section) in sections.iter().enumerate() {
        if section.name.as_bytes() == name && section.bytes.is_some() {
            return Some(i);
        }
    }
    None
}

// The range of the first section that has this name and a range.
fn range_of(sections: &[StatedSection], name: &[u8]) -> Option<Range<u64>>
    ensures { result ≡ stated_range_named name.now (sections_view sections.now) }
{
    for section in sections {
        if section.name.as_bytes() == name {
            if let Some(range) = section.range {
                return Some(range.start..range.end);
            }
        }
    }
    None
}

impl ModuleSectionInfo<Vec<u8>> for StatedSections {
    ghost use Rattle.unwind_run_program.specs.SectionViews.{stated};

    ghost sections = { stated };

    fn base_svma(&self) -> u64 {
        self.base_svma
    }

    fn section_svma_range(&mut self, name: &[u8]) -> Option<Range<u64>> {
        range_of(&self.sections, name)
    }

    fn section_data(&mut self, name: &[u8]) -> Option<Vec<u8>> {
        let place = place_of(&self.sections, name)?;
        self.sections[place].bytes.take()
    }

    fn segment_svma_range(&mut self, name: &[u8]) -> Option<Range<u64>> {
        range_of(&self.segments, name)
    }

    fn segment_data(&mut self, name: &[u8]) -> Option<Vec<u8>> {
        let place = place_of(&self.segments, name)?;
        self.segments[place].bytes.take()
    }
}

// How the FDEs are found.
fn lookup_of(stated: StatedLookup) -> FdeLookup
    ensures { result ≡ lookup_of stated }
{
    match stated {
        StatedLookup::Auto => FdeLookup::Auto,
        StatedLookup::Index => FdeLookup::Index,
        StatedLookup::Scan => FdeLookup::Scan,
    }
}

// The architecture of a table, if one is asked for.
fn tables_on<A: Tabulating>(asked: bool) -> Option<TableArch>
    ensures { result ≡ tables_on A.arch asked }
{
    if asked { Some(A::table_arch()) } else { None }
}

// What rows are taken to say.
fn rows_of(stated: StatedRows) -> Rows
    ensures { result ≡ rows_of stated }
{
    match stated {
        StatedRows::Published => Rows::Published,
        StatedRows::Whole => Rows::Whole,
    }
}

// What is asked for, with a table on the architecture if one is.
fn options_on<A: Tabulating>(options: StatedOptions) -> LoadOptions
    ensures { result ≡ options_on A.arch options }
{
    LoadOptions {
        lookup: lookup_of(options.lookup),
        tables: tables_on::<A>(options.tables),
        debug_frame_beside: options.debug_frame_beside,
        code_rules: options.code_rules,
        rows: rows_of(options.rows),
    }
}

impl<A: DocumentArch, P: AllocationPolicy> DocumentModules for ByWholeRows<A, Vec<u8>, P> {
    ghost use Rattle.unwind_run_program.specs.Sections.{data_stated};
    ghost use Rattle.unwind_run_program.specs.Registers.{whole_forms};

    ghost data_of = { data_stated A.arch };

    fn unwind_data(
        alloc: Global,
        options: StatedOptions,
        base_svma: u64,
        sections: Vec<StatedSection>,
        segments: Vec<StatedSection>,
    ) -> Result<ModuleUnwindData<Vec<u8>>, AllocError> {
        let info = StatedSections::new(base_svma, sections, segments);
        ModuleUnwindData::new(alloc, info, options_on::<A>(options))
    }

    ghost forms = { whole_forms A.forms };

    fn stated_registers(stated: StatedRegisters) -> WholeRegs<A::UnwindRegs> {
        WholeRegs::with_others(A::stated_registers(stated), stated.others)
    }

    fn registers_text(
        alloc: Global,
        registers: WholeRegs<A::UnwindRegs>,
    ) -> Result<String, AllocError> {
        A::registers_text(alloc, registers.regs)
    }
}
