//! A sampling profiler of two processes: the modules of each are loaded once, and each sample's stack is walked through one
//! cache, with the registers and the stack of a thread that was stopped.
//!
//! It prints the code addresses of samples of both processes, a frame a line, with `..` after those of a stack that is cut off, and how
//! many look-ups of the cache found a rule.
#![tactic(auto)]

mod process;
mod profiler;

use anyhow::Result;
use framehop::x86_64::{ArchX86_64, UnwindRegsX86_64};
use framehop::{
    BySections, MayAllocateDuringUnwind, ModuleUnwindData, ModuleUnwinding, UnwinderId,
};
use process::{SAMPLES, library, other_library};
use profiler::{Frames, Profiler};

// Prints the code addresses of frames.
fn print_frames(rt: &HostRuntime, frames: &Frames) -> Result<()> {
    for address in &frames.addresses {
        println!(rt; "{address:#x}")?;
    }
    if !frames.is_complete {
        println!(rt; "..")?;
    }
    Ok(())
}

// Prints the frames of all samples, which are taken in a process.
fn print_samples<A: ModuleUnwinding<UnwindRegs = UnwindRegsX86_64>>(
    rt: &HostRuntime,
    profiler: &mut Profiler<A>,
    process: UnwinderId,
) -> Result<()> {
    for sample in &SAMPLES {
        let frames = profiler.frames(rt.alloc(), process, sample, sample.regs())?;
        print_frames(rt, &frames)?;
    }
    Ok(())
}

// Follows two processes, and prints the frames of their samples.
fn profile<
    A: ModuleUnwinding<UnwindRegs = UnwindRegsX86_64, UnwindData = ModuleUnwindData<Vec<u8>>>,
>(rt: &HostRuntime) -> Result<()> {
    let mut profiler: Profiler<A> = Profiler::new(rt.alloc())?;
    let one = profiler.start(rt.alloc(), library(rt.alloc())?)?;
    let other = profiler.start(rt.alloc(), other_library(rt.alloc())?)?;
    for process in [one, other, one] {
        print_samples(rt, &mut profiler, process)?;
    }
    println!(rt; "{} rules found in the cache", profiler.hits()?)?;
    profiler.end(one)?;
    profiler.end(other)
}

/// Modules that are unwound by their sections, on x86_64.
type Sections = BySections<ArchX86_64, Vec<u8>, MayAllocateDuringUnwind>;

fn main(rt: HostRuntime) -> Result<()> {
    profile::<Sections>(&rt)
}
