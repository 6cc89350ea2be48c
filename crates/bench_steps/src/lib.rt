//! Times the making of a module, with its index, by a header in its place or with a table of rules, and walks through its code, also
//! through caches of other sizes; steps by compact unwind info and by Windows' unwind data; and the entries and rows of a section, for
//! comparing them with another program's.
//! `bench/programs` builds a program of its own for each architecture, as a profiler's is: with both in one, compilers share functions
//! between them, and steps are slower; and for each way in which modules are made, and each loop of steps.
#![tactic(auto)]

mod arch;
mod caches;
mod compact;
mod frames;
mod modules;
mod pe;
mod steps;
mod timing;
mod work;

use anyhow::Result;
pub use arch::{Aarch64, TimedCache, TimedRegs, X86_64};
pub use caches::{print_caches, run_caches};
pub use compact::{print_compact, run_compact};
use framehop::ModuleUnwinding;
pub use frames::{print_frames_of, run_frames};
use modules::parts_of;
pub use modules::{Making, Parts, Plain, Tabulated, TimedData, TimedModule};
pub use pe::{print_pe, run_pe};
use std::env;
use std::rt::{Clock, Env};
use timing::{frames_of_all, time};
pub use work::{FirstRegisters, Header, Stack, Walk, Work};
use work::{read_input, read_work};

/// Reads from standard input what is said at `read_work`, and prints how many frames the walks give. With the argument `time` it
/// also prints the least nanoseconds of all rounds: of a module, of all walks through one cache that has seen them before, and of
/// all walks with a new cache each, without and with the making of the caches. With `made` it prints a line before the module is
/// made and one while it is there instead, for counting the memory that it takes. Fails if the input ends too soon, if reading or
/// writing fails, or if it fails to allocate.
pub fn run<
    A: ModuleUnwinding<UnwindData = TimedData>,
    M: Making,
    R: AllocGlobal + Input + Print + Env + Clock,
>(rt: &R) -> Result<()>
where
    A::UnwindRegs: TimedRegs,
{
    let input = read_input(rt)?;
    let mode = match env::args(rt)?.nth(1) {
        Some(mode) => mode,
        None => String::new(rt.alloc()),
    };
    print_walks::<A, M, R>(rt, &input, mode.as_str())
}

/// Prints the same of an input, as the argument says.
pub fn print_walks<
    A: ModuleUnwinding<UnwindData = TimedData>,
    M: Making,
    R: AllocGlobal + Print + Clock,
>(rt: &R, input: &[u8], mode: &str) -> Result<()>
where
    A::UnwindRegs: TimedRegs,
{
    let work = read_work(rt.alloc(), input)?;
    match mode {
        "made" => print_made::<A::UnwindRegs, M, R>(rt, &work),
        "time" => print_times::<A, M, R>(rt, &work),
        _ => print_frames::<A, M, R>(rt, &work),
    }
}

// How many frames the walks give.
fn print_frames<A: ModuleUnwinding<UnwindData = TimedData>, M: Making, R: AllocGlobal + Print>(
    rt: &R,
    work: &Work,
) -> Result<()>
where
    A::UnwindRegs: TimedRegs,
{
    println!(rt; "{} frames", frames_of_all::<A, M>(rt.alloc(), work)?)?;
    Ok(())
}

// The same, and the times.
fn print_times<
    A: ModuleUnwinding<UnwindData = TimedData>,
    M: Making,
    R: AllocGlobal + Print + Clock,
>(rt: &R, work: &Work) -> Result<()>
where
    A::UnwindRegs: TimedRegs,
{
    print_frames::<A, M, R>(rt, work)?;
    let times = time::<A, M>(rt, rt.alloc(), work)?;
    println!(rt;
        "module {} ns, warm {} ns, fresh {} ns, with making {} ns",
        times.module.as_nanos(),
        times.warm.as_nanos(),
        times.fresh.as_nanos(),
        times.with_making.as_nanos()
    )?;
    Ok(())
}

// A line before the module is made, and one while it is there.
fn print_made<Regs: TimedRegs, M: Making, R: AllocGlobal + Print>(
    rt: &R,
    work: &Work,
) -> Result<()> {
    let parts = parts_of(rt.alloc(), work)?;
    println!(rt; "parts")?;
    let module = M::module_of::<Regs>(rt.alloc(), work, parts)?;
    println!(rt; "module {}", module.name())?;
    Ok(())
}
