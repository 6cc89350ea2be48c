//! The modules that steps are compared in, and the steps.

use crate::tables::arch::ComparedRegs;
use crate::tables::case::Case;
use crate::tables::frames::{BASE, Frame, word_at};
use anyhow::{Result, bail};
use bench_steps::{TimedData, TimedModule, TimedRegs};
use framehop::{
    Arch, Cache, Error, ExplicitModuleSectionInfo, FdeLookup, Generations, LoadOptions,
    ModuleUnwinding, TableArch, Unwinder, UnwinderInternal, load_module,
};
use shown_text::Shown;
use std::alloc::Global;

/// What steps keep and reuse.
type ComparedCache<A> = Cache<<A as Arch>::UnwindRule, <A as ModuleUnwinding>::UnwindContext>;

/// What a step gives: the return address or why there is none, and the registers that it leaves.
type Stepped = (std::result::Result<Option<u64>, Error>, (u64, u64, u64));

/// An unwinder for each way to find the FDE of an address.
#[derive(Drop)]
struct Roads<A: ModuleUnwinding> {
    table: UnwinderInternal<A>,
    /// At how many addresses the table says something else than at the address before, if there is one.
    table_size: Option<usize>,
    index: UnwinderInternal<A>,
    header: UnwinderInternal<A>,
    scan: UnwinderInternal<A>,
}

// The sections of a case.
fn sections_of(alloc: Global, case: &Case) -> Result<ExplicitModuleSectionInfo<Vec<u8>>> {
    let mut sections = ExplicitModuleSectionInfo {
        base_svma: case.base,
        text_svma: Some(case.text..case.text),
        ..Default::default()
    };
    let bytes = case.section.as_slice().to_vec(alloc)?;
    if case.is_debug_frame {
        sections.debug_frame = Some(bytes);
    } else {
        sections.eh_frame = Some(bytes);
        sections.eh_frame_svma = Some(case.section_start..case.section_start);
    }
    if !case.header.is_empty() {
        sections.eh_frame_hdr = Some(case.header.as_slice().to_vec(alloc)?);
        sections.eh_frame_hdr_svma = Some(case.header_start..case.header_start);
    }
    Ok(sections)
}

// An unwinder of one module.
fn unwinder_of<A: ModuleUnwinding<UnwindData = TimedData>>(
    alloc: Global,
    generations: &mut Generations,
    module: TimedModule,
) -> Result<UnwinderInternal<A>> {
    let mut unwinder = UnwinderInternal::new(alloc, generations)?;
    if unwinder.add_module(generations, module).is_err() {
        bail!("the module was not loaded");
    }
    Ok(unwinder)
}

// The module of a case whose FDEs are found so.
fn module_of(
    alloc: Global,
    case: &Case,
    lookup: FdeLookup,
    tables: Option<TableArch>,
) -> Result<TimedModule> {
    let options = LoadOptions {
        lookup,
        tables,
        ..Default::default()
    };
    let sections = sections_of(alloc, case)?;
    let name = String::from_str(alloc, "module")?;
    Ok(load_module(alloc, name, BASE..u64::MAX, BASE, sections, options)?)
}

impl<A: ModuleUnwinding<UnwindData = TimedData>> Roads<A>
where
    A::UnwindRegs: ComparedRegs,
{
    // The unwinders of a case.
    fn new(alloc: Global, case: &Case) -> Result<Self> {
        let mut generations = Generations::new();
        let tables = Some(A::UnwindRegs::table_arch());
        let table = module_of(alloc, case, FdeLookup::Auto, tables)?;
        let index = module_of(alloc, case, FdeLookup::Index, None)?;
        let header = module_of(alloc, case, FdeLookup::Auto, None)?;
        let scan = module_of(alloc, case, FdeLookup::Scan, None)?;
        Ok(Roads {
            table_size: table.unwind_data().table_size(),
            table: unwinder_of::<A>(alloc, &mut generations, table)?,
            index: unwinder_of::<A>(alloc, &mut generations, index)?,
            header: unwinder_of::<A>(alloc, &mut generations, header)?,
            scan: unwinder_of::<A>(alloc, &mut generations, scan)?,
        })
    }
}

// A step from a frame.
fn step<A: ModuleUnwinding>(
    unwinder: &UnwinderInternal<A>,
    cache: &mut ComparedCache<A>,
    frame: Frame,
) -> Stepped
where
    A::UnwindRegs: ComparedRegs,
{
    let mut regs = A::UnwindRegs::of(frame.registers);
    let mut read_stack = |at: u64| -> std::result::Result<u64, ()> { word_at(at) };
    let result = unwinder.unwind_frame(frame.address, &mut regs, cache, &mut read_stack);
    (result, regs.numbers())
}

// Shows what a step gives, after a text.
fn show_stepped(before: &str, stepped: Stepped, shown: &mut Shown) {
    shown.text(before);
    match stepped.0 {
        Ok(Some(address)) => shown.hex(" return address 0x", address),
        Ok(None) => shown.text(" no caller"),
        Err(_) => shown.text(" an error"),
    }
    let (code, sp, fp) = stepped.1;
    shown.hex(" 0x", code);
    shown.hex(" 0x", sp);
    shown.hex(" 0x", fp);
}

/// What was counted.
#[derive(Clone, Copy)]
struct Tally {
    steps: u32,
    callers: u32,
    differences: u32,
}

impl Tally {
    // Counts a step, and shows it if it isn't as by the index.
    fn count(
        &mut self,
        shown: &mut Shown,
        road: &str,
        frame: Frame,
        stepped: Stepped,
        by_index: Stepped,
    ) {
        self.steps = self.steps.wrapping_add(1);
        if let Ok(Some(_)) = stepped.0 {
            self.callers = self.callers.wrapping_add(1);
        }
        if stepped != by_index {
            self.differences = self.differences.wrapping_add(1);
            shown.text(if frame.is_first { "first" } else { "later" });
            shown.hex(" frame at 0x", u64::from(frame.at));
            show_stepped(": by ", stepped, shown);
            shown.text(" ");
            shown.text(road);
            show_stepped(", by index", by_index, shown);
            shown.end();
        }
    }

    // Shows what was counted.
    fn show(&self, shown: &mut Shown) {
        shown.number("", u64::from(self.steps));
        shown.number(" steps, ", u64::from(self.callers));
        shown.number(" callers, ", u64::from(self.differences));
        shown.text(" differences");
    }
}

// Compares steps from a frame: by the table and by the index, and by the two others if `in_all`.
fn compare<A: ModuleUnwinding>(
    roads: &Roads<A>,
    cache: &mut ComparedCache<A>,
    frame: Frame,
    in_all: bool,
    tally: &mut Tally,
    shown: &mut Shown,
)
where
    A::UnwindRegs: ComparedRegs,
{
    let by_index = step::<A>(&roads.index, cache, frame);
    let by_table = step::<A>(&roads.table, cache, frame);
    tally.count(shown, "table", frame, by_table, by_index);
    if in_all {
        let by_header = step::<A>(&roads.header, cache, frame);
        tally.count(shown, "header", frame, by_header, by_index);
        let by_scan = step::<A>(&roads.scan, cache, frame);
        tally.count(shown, "scan", frame, by_scan, by_index);
    }
}

// Compares steps from a first and a later frame at each address.
fn compare_all<A: ModuleUnwinding>(
    roads: &Roads<A>,
    cache: &mut ComparedCache<A>,
    addresses: &[u32],
    in_all: bool,
    tally: &mut Tally,
    shown: &mut Shown,
) -> Result<()>
where
    A::UnwindRegs: ComparedRegs,
{
    for at in addresses {
        compare::<A>(roads, cache, Frame::new(true, *at)?, in_all, tally, shown);
        compare::<A>(roads, cache, Frame::new(false, *at)?, in_all, tally, shown);
    }
    Ok(())
}

/// Compares the steps of a case, through one cache, and shows what was counted, each difference, and how large the table is.
pub fn show_steps<A: ModuleUnwinding<UnwindData = TimedData>>(
    case: &Case,
    shown: &mut Shown,
) -> Result<()>
where
    A::UnwindRegs: ComparedRegs,
{
    let alloc = shown.alloc();
    let roads: Roads<A> = Roads::new(alloc, case)?;
    let mut cache: ComparedCache<A> = Cache::new(alloc, A::unwind_context(alloc)?)?;
    let mut tally = Tally {
        steps: 0,
        callers: 0,
        differences: 0,
    };
    let in_all = !case.header.is_empty();
    compare_all::<A>(&roads, &mut cache, &case.inside, in_all, &mut tally, shown)?;
    compare_all::<A>(&roads, &mut cache, &case.others, false, &mut tally, shown)?;
    tally.show(shown);
    match roads.table_size {
        Some(size) => {
            shown.number("; ", size as u64);
            shown.text(" changes");
        }
        None => shown.text("; no table"),
    }
    shown.end();
    Ok(())
}
