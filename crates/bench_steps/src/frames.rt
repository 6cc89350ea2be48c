//! The entries of a section `.eh_frame`, and their rows.

mod passes;

use crate::work::read_input;
use anyhow::Result;
use dwarf_frame_entries::{
    BaseAddresses, EhFrame, UnwindContext, UnwindContextStorage, UnwindSection,
};
use dwarf_frame_rows::StoreOnHeap;
use dwarf_readers::{LittleEndian, Reader};
use passes::{Fdes, Tally, keep_fdes, list_entries, list_fdes, list_rows};
use std::env;
use std::rt::{Clock, Env};
use std::time::{Duration, Instant};

/// The address at which the section starts. Code before it has addresses too.
const START: u64 = 1 << 32;

/// Reads all entries of the section on standard input, and all their rows, and prints how many entries there are, how many FDEs with
/// their CIEs and how many rows, each with a sum of some of their parts. With the argument `time` and a number n it makes each of the
/// three passes n times, in turn, and prints the least nanoseconds of each.
pub fn run_frames<Rt: AllocGlobal + Input + Print + Env + Clock>(rt: &Rt) -> Result<()> {
    let input = read_input(rt)?;
    let rounds: u32 = match env::args(rt)?.nth(2) {
        Some(count) => count.parse()?,
        None => 0,
    };
    print_frames_of(rt, &input, rounds)
}

/// Prints the same of a section, with the times of so many rounds if there are some.
pub fn print_frames_of<Rt: AllocGlobal + Print + Clock>(
    rt: &Rt,
    input: &[u8],
    rounds: u32,
) -> Result<()> {
    let section = EhFrame::new(input, LittleEndian);
    let mut context: UnwindContext<usize, StoreOnHeap> = UnwindContext::new(rt.alloc())?;
    let mut fdes = Fdes::new(rt.alloc());
    print_passes(rt, &section, &mut fdes, &mut context, rounds)
}

/// What a pass came to, and the least time that it took.
#[derive(Clone, Copy)]
struct Pass {
    tally: Tally,
    least: Duration,
}

/// What the three passes came to.
#[derive(Clone, Copy)]
struct AllPasses {
    entries: Pass,
    fdes: Pass,
    rows: Pass,
}

impl Pass {
    fn new() -> Pass {
        Pass {
            tally: Tally::new(),
            least: Duration::MAX,
        }
    }

    /// Ends a pass that began at `start`.
    fn end(&mut self, clock: &impl Clock, start: Instant, tally: Tally) -> Result<()> {
        self.least = self.least.min(start.elapsed(clock)?);
        self.tally = tally;
        Ok(())
    }

    /// Prints what it came to, and the time if it is asked for.
    fn print(&self, rt: &impl Print, name: &str, is_timed: bool) -> Result<()> {
        let Tally { count, sum } = self.tally;
        if is_timed {
            println!(rt; "{count} {name} {} ns, sum {sum:#x}", self.least.as_nanos())?;
        } else {
            println!(rt; "{count} {name}, sum {sum:#x}")?;
        }
        Ok(())
    }
}

/// Makes the passes once, or in turn as often as asked for.
fn make_passes<R: Reader, Section: UnwindSection<R>, S: UnwindContextStorage<R::Offset>>(
    clock: &impl Clock,
    section: &Section,
    bases: &BaseAddresses,
    fdes: &Fdes<R>,
    context: &mut UnwindContext<R::Offset, S>,
    rounds: u32,
) -> Result<AllPasses> {
    let mut passes = AllPasses {
        entries: Pass::new(),
        fdes: Pass::new(),
        rows: Pass::new(),
    };
    for _ in 0..rounds.max(1) {
        pass_entries(clock, section, bases, &mut passes.entries)?;
        pass_fdes(clock, section, bases, &mut passes.fdes)?;
        pass_rows(clock, section, bases, fdes, context, &mut passes.rows)?;
    }
    Ok(passes)
}

/// Keeps the FDEs, makes the passes, and prints what they came to.
fn print_passes<
    R: Reader,
    Section: UnwindSection<R>,
    S: UnwindContextStorage<R::Offset>,
    Rt: Print + Clock,
>(
    rt: &Rt,
    section: &Section,
    fdes: &mut Fdes<R>,
    context: &mut UnwindContext<R::Offset, S>,
    rounds: u32,
) -> Result<()> {
    let bases = BaseAddresses::default().set_eh_frame(START);
    keep_fdes(fdes, section, &bases)?;
    let passes = make_passes(rt, section, &bases, fdes, context, rounds)?;
    print_all(rt, passes, rounds > 0)
}

fn pass_entries<R: Reader, Section: UnwindSection<R>>(
    clock: &impl Clock,
    section: &Section,
    bases: &BaseAddresses,
    pass: &mut Pass,
) -> Result<()> {
    let start = Instant::now(clock)?;
    let tally = list_entries(section, bases)?;
    pass.end(clock, start, tally)
}

fn pass_fdes<R: Reader, Section: UnwindSection<R>>(
    clock: &impl Clock,
    section: &Section,
    bases: &BaseAddresses,
    pass: &mut Pass,
) -> Result<()> {
    let start = Instant::now(clock)?;
    let tally = list_fdes(section, bases)?;
    pass.end(clock, start, tally)
}

fn pass_rows<R: Reader, Section: UnwindSection<R>, S: UnwindContextStorage<R::Offset>>(
    clock: &impl Clock,
    section: &Section,
    bases: &BaseAddresses,
    fdes: &Fdes<R>,
    context: &mut UnwindContext<R::Offset, S>,
    pass: &mut Pass,
) -> Result<()> {
    let start = Instant::now(clock)?;
    let tally = list_rows(section, bases, fdes, context)?;
    pass.end(clock, start, tally)
}

fn print_all(rt: &impl Print, passes: AllPasses, is_timed: bool) -> Result<()> {
    passes.entries.print(rt, "entries", is_timed)?;
    passes.fdes.print(rt, "FDEs", is_timed)?;
    passes.rows.print(rt, "rows", is_timed)
}
