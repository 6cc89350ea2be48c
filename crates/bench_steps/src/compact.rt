//! Steps by compact unwind info in a module of many functions.

use crate::arch::TimedRegs;
use crate::modules::{TimedData, TimedModule, load_at, new_name};
use crate::steps::{AllRegisters, SIZE, print_steps, read_frames};
use crate::work::{Bytes, read_bytes, read_input, read_u32};
use anyhow::Result;
use framehop::{ExplicitModuleSectionInfo, ModuleUnwinding};
use std::alloc::Global;
use std::env;
use std::rt::{Clock, Env};

// Where the module is loaded.
const BASE: u64 = 0x1_0000_0000;

// Reads the bytes of `__unwind_info`, and the address of `__text` and its bytes, and makes the module with them.
fn read_module(alloc: Global, bytes: &mut Bytes<'_>) -> Result<TimedModule> {
    let length = read_u32(bytes)?;
    let unwind_info = read_bytes(alloc, bytes, length)?;
    let start = u64::from(read_u32(bytes)?);
    let text = bytes.left.to_vec(alloc)?;
    let sections = ExplicitModuleSectionInfo {
        text_svma: Some(start..start.saturating_add(text.len() as u64)),
        text: Some(text),
        unwind_info: Some(unwind_info),
        ..Default::default()
    };
    load_at(alloc, new_name(alloc)?, BASE..BASE + SIZE, sections, None)
}

/// Reads from standard input what is said at `print_compact`, and prints how many steps answered, how many look-ups found a rule in the
/// cache, and a sum of what the steps answered. With the argument `time` it makes the steps again and again, and prints the least
/// nanoseconds of all rounds first.
pub fn run_compact<
    A: ModuleUnwinding<UnwindData = TimedData>,
    R: AllocGlobal + Input + Print + Env + Clock,
>(rt: &R) -> Result<()>
where
    A::UnwindRegs: TimedRegs,
{
    let input = read_input(rt)?;
    print_compact::<A, R>(rt, &input, env::args(rt)?.nth(1).is_some())
}

/// Prints the same of an input, with the times if they are asked for. The input has the number of frames, the address of the first, the
/// distance from each to the next, and 1 for first frames or 0 for later ones; the number of bytes of `__unwind_info`, and these; and the
/// address of `__text`, and its bytes. All numbers have four bytes, the low byte first.
pub fn print_compact<A: ModuleUnwinding<UnwindData = TimedData>, R: AllocGlobal + Print + Clock>(
    rt: &R,
    input: &[u8],
    is_timed: bool,
) -> Result<()>
where
    A::UnwindRegs: TimedRegs,
{
    let mut bytes = Bytes { left: input };
    let frames = read_frames(&mut bytes, BASE)?;
    let module = read_module(rt.alloc(), &mut bytes)?;
    print_steps::<AllRegisters, A, R>(rt, module, frames, is_timed)
}
