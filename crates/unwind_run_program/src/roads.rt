//! The lines of the command `roads`: one step by each lookup of the entry, over a module of its own.

ghost use Rattle.std.specs.Prelude.{◌≡◌, ◌≢◌, ◌+◌, ◌∷◌, ◌++◌, ◌^◌, [], IfOk, codes, string_bytes, Some};
ghost use Rattle.framehop_registers.specs.Callback.{read_answer};
ghost use Rattle.unwind_run_document.specs.CommandViews.{roads_view, section_view, sections_view, tables_view, words_view};
ghost use Rattle.unwind_run_program.specs.Roads.{address_behind, headed_section, section_at, stated_section};
ghost use Rattle.unwind_run_program.specs.Text.{road_line, road_lines, words_of};
ghost use Rattle.unwind_run_document.specs.declared.command.FrameKind.TheVariants.{Ra};

use crate::alone::step_alone;
use crate::lines::step_line;
use crate::perform::{DocumentModules, frame_address, word_at};
use framehop_code_rules::CodeRules;
use framehop_unwinder::Module;
use std::alloc::{AllocError, Global};
use std::fmt;
use unwind_run_document::{
    AddressRange, RoadsCommand, StatedLookup, StatedOptions, StatedRows, StatedSection,
    StatedTables,
};

/// Nothing is asked for.
const PLAIN: StatedOptions = StatedOptions {
    lookup: StatedLookup::Auto,
    tables: false,
    debug_frame_beside: false,
    code_rules: CodeRules::Published,
    rows: StatedRows::Published,
};

/// Each step is to scan the section of call frames.
const SCANNING: StatedOptions = StatedOptions {
    lookup: StatedLookup::Scan,
    tables: false,
    debug_frame_beside: false,
    code_rules: CodeRules::Published,
    rows: StatedRows::Published,
};

/// The length of the module, if the addresses after its start are that many.
const MODULE_LENGTH: u64 = 1 << 32;

// A section of these bytes at its stated start.
fn section_at(
    alloc: Global,
    name: &str,
    start: u64,
    bytes: &Vec<u8>,
) -> Result<StatedSection, AllocError>
    ensures { IfOk result (λ section.
        section_view section ≡ section_at name.now start bytes.now.items) }
{
    let end = start.saturating_add(bytes.len() as u64);
    Ok(StatedSection {
        name: String::from_str(alloc, name)?,
        range: Some(AddressRange { start, end }),
        bytes: Some(bytes.clone()?),
    })
}

// The section of call frames alone.
fn section_alone(alloc: Global, tables: &StatedTables) -> Result<Vec<StatedSection>, AllocError>
    ensures { IfOk result (λ sections.
        sections_view sections.items ≡ stated_section (tables_view tables.now) ∷ []) }
{
    let section = section_at(alloc, ".eh_frame", tables.section_start, &tables.section)?;
    let mut sections = Vec::new(alloc);
    sections.push(section)?;
    Ok(sections)
}

// The section of call frames with its header.
fn section_with_header(
    alloc: Global,
    tables: &StatedTables,
) -> Result<Vec<StatedSection>, AllocError>
    ensures { IfOk result (λ sections.
        sections_view sections.items ≡ headed_section (tables_view tables.now)) }
{
    let mut sections = section_alone(alloc, tables)?;
    let header = section_at(alloc, ".eh_frame_hdr", tables.header_start, &tables.header)?;
    sections.push(header)?;
    Ok(sections)
}

// The line of the step by one lookup: over a module with this unwind data.
fn road_line<A: DocumentModules>(
    alloc: Global,
    roads: &RoadsCommand,
    unwind_data: A::UnwindData,
) -> Result<String, AllocError>
    requires { roads.now.kind ≡ Ra → roads.now.address ≢ 0 }
    ensures { IfOk result (λ text. string_bytes text
        ≡ road_line A.meanings A.forms (roads_view roads.now) unwind_data) }
{
    let start = roads.tables.base_svma;
    let range = start..start.saturating_add(MODULE_LENGTH);
    let module = Module::new(alloc, String::new(alloc), range, start, unwind_data)?;
    let unwind_context = A::unwind_context(alloc)?;
    let address = frame_address(roads.kind, roads.address);
    let mut regs = A::stated_registers(roads.registers);
    let stack = &roads.stack;
    let mut read_stack = |at: u64| -> Result<u64, ()>
        ensures answer { result ≡ read_answer (words_of (words_view stack.entry.now) at) }
        ensures same { stack.exit ≡ stack.entry }
    { word_at(stack, at) };
    let answer = step_alone::<A, _>(
        alloc,
        module,
        unwind_context,
        address,
        &mut regs,
        &mut read_stack,
    );
    step_line::<A>(alloc, answer, regs)
}

/// Shows three lines, each after the name of its lookup.
#[derive(Clone, Copy)]
struct NamedLines<'a> {
    header: &'a str,
    index: &'a str,
    scan: &'a str,
}

impl fmt::Display for NamedLines<'_> {
    ghost output = { λ lines. Some (codes "header " ++ lines.header.now
        ++ codes "index " ++ lines.index.now ++ codes "scan " ++ lines.scan.now) };

    fn fmt<W: fmt::Write>(&self, f: &mut fmt::Formatter<W>) -> fmt::Result {
        write!(f, "header {}", self.header)?;
        write!(f, "index {}", self.index)?;
        write!(f, "scan {}", self.scan)
    }
}

/// The lines of the steps by all three: by the header, by an index of the section, and by reading the
/// section.
pub(crate) fn road_lines<A: DocumentModules>(
    alloc: Global,
    roads: &RoadsCommand,
) -> Result<String, AllocError>
    requires { roads.now.kind ≡ Ra → roads.now.address ≢ 0 }
    ensures { IfOk result (λ text. string_bytes text
        ≡ road_lines A.meanings A.forms A.data_of (roads_view roads.now)) }
{
    let tables = &roads.tables;
    let base_svma = tables.base_svma;
    let with_header = section_with_header(alloc, tables)?;
    let headed = A::unwind_data(alloc, PLAIN, base_svma, with_header, Vec::new(alloc))?;
    let header = road_line::<A>(alloc, roads, headed)?;
    let alone = section_alone(alloc, tables)?;
    let indexed = A::unwind_data(alloc, PLAIN, base_svma, alone, Vec::new(alloc))?;
    let index = road_line::<A>(alloc, roads, indexed)?;
    let again = section_alone(alloc, tables)?;
    let scanned = A::unwind_data(alloc, SCANNING, base_svma, again, Vec::new(alloc))?;
    let scan = road_line::<A>(alloc, roads, scanned)?;
    let lines = NamedLines {
        header: header.as_str(),
        index: index.as_str(),
        scan: scan.as_str(),
    };
    format!(in alloc; "{lines}")
}
