//! The modules that are timed.

use crate::arch::TimedRegs;
use crate::work::Work;
use anyhow::Result;
use framehop::{
    ExplicitModuleSectionInfo, LoadOptions, Module, ModuleSectionInfo, ModuleUnwindData, TableArch,
    load_module,
};
use std::alloc::Global;
use std::ops::Range;

/// What a module is unwound by that owns its bytes.
pub type TimedData = ModuleUnwindData<Vec<u8>>;

/// A module that owns its bytes.
pub type TimedModule = Module<Vec<u8>>;

/// What the module that is timed is made of: its name, and its section with its header, if it has one.
#[derive(Drop)]
pub struct Parts {
    pub name: String,
    pub info: ExplicitModuleSectionInfo<Vec<u8>>,
}

/// The name of a module.
pub fn new_name(alloc: Global) -> Result<String> {
    Ok(String::from_str(alloc, "timed")?)
}

/// The parts of a module of their own.
pub fn parts_of(alloc: Global, work: &Work) -> Result<Parts> {
    let header = match &work.header {
        Some(header) => Some(header.bytes.as_slice().to_vec(alloc)?),
        None => None,
    };
    let header_start = work.header.as_ref().map(|header| header.start);
    let info = ExplicitModuleSectionInfo {
        text_svma: Some(work.text..work.text),
        eh_frame_svma: Some(work.eh_frame..work.eh_frame),
        eh_frame: Some(work.section.as_slice().to_vec(alloc)?),
        eh_frame_hdr_svma: header_start.map(|start| start..start),
        eh_frame_hdr: header,
        ..Default::default()
    };
    Ok(Parts {
        name: new_name(alloc)?,
        info,
    })
}

/// A module at addresses, the first of which is its base, with a table of rules if one is made for an architecture.
pub fn load_at<I: ModuleSectionInfo<Vec<u8>> + Drop>(
    alloc: Global,
    name: String,
    range: Range<u64>,
    info: I,
    tables: Option<TableArch>,
) -> Result<TimedModule> {
    let base = range.start;
    let options = LoadOptions {
        tables,
        ..Default::default()
    };
    Ok(load_module(alloc, name, range, base, info, options)?)
}

/// How the module that is timed is made. A program has one way alone, so that it has no code of another.
pub trait Making {
    /// The module of these parts, on the architecture with the registers `R`.
    fn module_of<R: TimedRegs>(alloc: Global, work: &Work, parts: Parts) -> Result<TimedModule>;
}

/// A module is made with its header, or with an index if it has none.
#[derive(Clone, Copy)]
pub struct Plain;

impl Making for Plain {
    fn module_of<R: TimedRegs>(alloc: Global, work: &Work, parts: Parts) -> Result<TimedModule> {
        let Parts { name, info } = parts;
        load_at(alloc, name, work.base..work.end, info, None)
    }
}

/// A module is made with a table of rules. A header isn't used.
#[derive(Clone, Copy)]
pub struct Tabulated;

impl Making for Tabulated {
    fn module_of<R: TimedRegs>(alloc: Global, work: &Work, parts: Parts) -> Result<TimedModule> {
        let Parts { name, info } = parts;
        let tables = Some(R::table_arch());
        load_at(alloc, name, work.base..work.end, info, tables)
    }
}
