//! Steps by Windows' unwind data, or by an `.eh_frame_hdr`, in a module of many functions, and the making of the module, for timing these
//! beside each other.

use crate::modules::{TimedData, TimedModule, load_at, new_name};
use crate::steps::{ROUNDS, SIZE, Summed, print_steps, read_frames};
use crate::work::{Bytes, read_bytes, read_input, read_u32};
use anyhow::Result;
use framehop::x86_64::{Reg, UnwindRegsX86_64};
use framehop::{ExplicitModuleSectionInfo, ModuleUnwinding, PeModuleSectionInfo};
use std::alloc::Global;
use std::env;
use std::ops::Range;
use std::rt::{Clock, Env};
use std::time::{Duration, Instant};

// Where the module is loaded.
const BASE: u64 = 0x7ff7_0000_0000;

// What steps by Windows' unwind data restore.
struct Windows;

impl Summed<UnwindRegsX86_64> for Windows {
    #[inline(always)]
    fn sum_of(regs: &UnwindRegsX86_64) -> u64 {
        regs.sp().wrapping_add(regs.get(Reg::RBX))
    }
}

// A section: its address, and its bytes, none if there is no such section.
#[derive(Drop)]
struct Section {
    start: u32,
    bytes: Vec<u8>,
}

impl Section {
    // The addresses that it takes.
    fn range(&self) -> Range<u64> {
        let start = u64::from(self.start);
        start..start.saturating_add(self.bytes.len() as u64)
    }

    // Its bytes, if there are some.
    fn data(&self, alloc: Global) -> Result<Option<Vec<u8>>> {
        if self.bytes.is_empty() {
            return Ok(None);
        }
        Ok(Some(self.bytes.as_slice().to_vec(alloc)?))
    }
}

// The sections of a module whose stated addresses are relative to 0.
#[derive(Drop)]
struct ModuleSections {
    pdata: Section,
    xdata: Section,
    text: Section,
    eh_frame_hdr: Section,
    eh_frame: Section,
}

// What a module is made of: Windows' unwind data, or call frames.
#[derive(Drop)]
enum PeParts {
    Windows(PeModuleSectionInfo<Vec<u8>>),
    CallFrames(ExplicitModuleSectionInfo<Vec<u8>>),
}

// Windows' unwind data of a module.
fn windows_parts(alloc: Global, sections: &ModuleSections) -> Result<PeModuleSectionInfo<Vec<u8>>> {
    Ok(PeModuleSectionInfo {
        pdata: sections.pdata.data(alloc)?,
        xdata_svma: Some(sections.xdata.range()),
        xdata: sections.xdata.data(alloc)?,
        text_svma: Some(sections.text.range()),
        text: sections.text.data(alloc)?,
        ..Default::default()
    })
}

// The call frames of a module.
fn call_frames(
    alloc: Global,
    sections: &ModuleSections,
) -> Result<ExplicitModuleSectionInfo<Vec<u8>>> {
    Ok(ExplicitModuleSectionInfo {
        text_svma: Some(sections.text.range()),
        text: sections.text.data(alloc)?,
        eh_frame_svma: Some(sections.eh_frame.range()),
        eh_frame: sections.eh_frame.data(alloc)?,
        eh_frame_hdr_svma: Some(sections.eh_frame_hdr.range()),
        eh_frame_hdr: sections.eh_frame_hdr.data(alloc)?,
        ..Default::default()
    })
}

// The parts of a module of their own.
fn parts_of(alloc: Global, sections: &ModuleSections) -> Result<PeParts> {
    if sections.pdata.bytes.is_empty() {
        Ok(PeParts::CallFrames(call_frames(alloc, sections)?))
    } else {
        Ok(PeParts::Windows(windows_parts(alloc, sections)?))
    }
}

// The module of these parts.
fn module_of(alloc: Global, parts: PeParts) -> Result<TimedModule> {
    let (name, range) = (new_name(alloc)?, BASE..BASE + SIZE);
    match parts {
        PeParts::Windows(info) => load_at(alloc, name, range, info, None),
        PeParts::CallFrames(info) => load_at(alloc, name, range, info, None),
    }
}

// The parts of as many modules as there are rounds.
fn parts_of_all(alloc: Global, sections: &ModuleSections) -> Result<Vec<PeParts>> {
    let mut all = Vec::new(alloc);
    for _ in 0..ROUNDS {
        all.push(parts_of(alloc, sections)?)?;
    }
    Ok(all)
}

// The least time of making the module.
fn least_of_making<R: AllocGlobal + Clock>(rt: &R, sections: &ModuleSections) -> Result<Duration> {
    let mut least = Duration::MAX;
    for parts in parts_of_all(rt.alloc(), sections)? {
        let start = Instant::now(rt)?;
        let _module = module_of(rt.alloc(), parts)?;
        least = least.min(start.elapsed(rt)?);
    }
    Ok(least)
}

// Reads a section: its address, its number of bytes, 0 if there is no such section, and these.
fn read_section(alloc: Global, bytes: &mut Bytes<'_>) -> Result<Section> {
    let start = read_u32(bytes)?;
    let length = read_u32(bytes)?;
    Ok(Section {
        start,
        bytes: read_bytes(alloc, bytes, length)?,
    })
}

// Reads the sections.
fn read_sections(alloc: Global, bytes: &mut Bytes<'_>) -> Result<ModuleSections> {
    Ok(ModuleSections {
        pdata: read_section(alloc, bytes)?,
        xdata: read_section(alloc, bytes)?,
        text: read_section(alloc, bytes)?,
        eh_frame_hdr: read_section(alloc, bytes)?,
        eh_frame: read_section(alloc, bytes)?,
    })
}

/// Reads from standard input what is said at `print_pe`, and prints how many steps answered, how many look-ups found a rule in the
/// cache, and a sum of what the steps answered. With the argument `time` it makes the module and the steps again and again, and prints
/// the least nanoseconds of all rounds first.
pub fn run_pe<
    A: ModuleUnwinding<UnwindRegs = UnwindRegsX86_64, UnwindData = TimedData>,
    R: AllocGlobal + Input + Print + Env + Clock,
>(rt: &R) -> Result<()> {
    let input = read_input(rt)?;
    print_pe::<A, R>(rt, &input, env::args(rt)?.nth(1).is_some())
}

/// Prints the same of an input, with the times if they are asked for. The input has the number of frames, the address of the first, the
/// distance from each to the next, and 1 for first frames or 0 for later ones; and then the sections `.pdata`, `.xdata`, `.text`,
/// `.eh_frame_hdr` and `.eh_frame`, of each its address, its number of bytes, 0 if there is no such section, and these. All numbers have
/// four bytes, the low byte first.
pub fn print_pe<
    A: ModuleUnwinding<UnwindRegs = UnwindRegsX86_64, UnwindData = TimedData>,
    R: AllocGlobal + Print + Clock,
>(rt: &R, input: &[u8], is_timed: bool) -> Result<()> {
    let mut bytes = Bytes { left: input };
    let frames = read_frames(&mut bytes, BASE)?;
    let sections = read_sections(rt.alloc(), &mut bytes)?;
    if is_timed {
        let least = least_of_making(rt, &sections)?;
        print!(rt; "module {} ns, ", least.as_nanos())?;
    }
    let module = module_of(rt.alloc(), parts_of(rt.alloc(), &sections)?)?;
    print_steps::<Windows, A, R>(rt, module, frames, is_timed)
}
