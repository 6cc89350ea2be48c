//! Steps in a module of many functions, from frames that the input numbers.

use crate::arch::{TimedCache, TimedRegs, new_cache, unwinder_with};
use crate::modules::{TimedData, TimedModule};
use crate::work::{Bytes, FirstRegisters, Stack, read_u32};
use anyhow::Result;
use framehop::{FrameAddress, ModuleUnwinding, Unwinder, UnwinderInternal};
use std::alloc::{AllocError, Global};
use std::time::{Clock, Duration, Instant};

/// How many bytes of a module's addresses there are.
pub const SIZE: u64 = 0x1000_0000;

/// How often steps, and modules, are made for their times.
pub const ROUNDS: u32 = 50;

const STACK: u64 = 0x7ffd_8000_0000;

const WORDS: u64 = 1024;

/// The frames that steps are made from, whose addresses are relative to the module's base.
#[derive(Clone, Copy)]
pub struct Frames {
    /// The module's base.
    pub base: u64,
    /// How many.
    pub count: u32,
    /// The first address.
    pub first: u32,
    /// How far each is from the one before it.
    pub apart: u32,
    /// Whether they are first frames, or later ones.
    pub are_first: bool,
}

/// What came of all steps.
#[derive(Clone, Copy)]
pub struct Tally {
    /// How many answered a return address.
    pub answered: u32,
    /// The sum of the return addresses and of registers of the callers, modulo 2^64.
    pub sum: u64,
}

/// Reads the number of frames, the address of the first, the distance from each to the next, and 1 for first frames or 0 for later
/// ones, of a module with a base.
pub fn read_frames(bytes: &mut Bytes<'_>, base: u64) -> Result<Frames> {
    Ok(Frames {
        base,
        count: read_u32(bytes)?,
        first: read_u32(bytes)?,
        apart: read_u32(bytes)?,
        are_first: read_u32(bytes)? == 1,
    })
}

/// A stack, each of whose words is the address of the word eight words above it.
pub fn new_stack(alloc: Global) -> Result<Stack, AllocError> {
    let mut words = Vec::new(alloc);
    let mut above = STACK + 64;
    for _ in 0..WORDS {
        words.push(above)?;
        above = above.wrapping_add(8);
    }
    Ok(Stack {
        start: STACK,
        words,
    })
}

impl Frames {
    /// The registers of each frame. No bit of a code address on aarch64 is stripped.
    #[inline(always)]
    pub fn registers(&self) -> FirstRegisters {
        FirstRegisters {
            code: self.base,
            sp: STACK + 64,
            fp: STACK + 512,
            mask: u64::MAX,
        }
    }

    /// The frame with a number, in an order in which neighbours are far apart.
    pub fn at(&self, number: u32) -> Option<FrameAddress> {
        let index = number
            .wrapping_mul(7919)
            .checked_rem(self.count)
            .unwrap_or(0);
        let offset = self.first.wrapping_add(index.wrapping_mul(self.apart));
        let address = self.base.wrapping_add(u64::from(offset));
        if self.are_first {
            Some(FrameAddress::from_instruction_pointer(address))
        } else {
            FrameAddress::from_return_address(address)
        }
    }
}

/// What is added up of the registers of callers. It keeps the compiler from leaving out their restoring.
pub trait Summed<R> {
    /// The sum, modulo 2^64.
    fn sum_of(regs: &R) -> u64;
}

/// All registers.
pub struct AllRegisters;

impl<R: TimedRegs> Summed<R> for AllRegisters {
    #[inline(always)]
    fn sum_of(regs: &R) -> u64 {
        regs.sum()
    }
}

// Makes a step from each frame, and adds up what `S` says.
fn make_steps<S: Summed<U::UnwindRegs>, U: Unwinder>(
    unwinder: &U,
    cache: &mut U::Cache,
    stack: &Stack,
    frames: Frames,
) -> Tally
where
    U::UnwindRegs: TimedRegs,
{
    let mut tally = Tally {
        answered: 0,
        sum: 0,
    };
    for number in 0..frames.count {
        let Some(frame) = frames.at(number) else {
            continue;
        };
        let mut regs = U::UnwindRegs::of(frames.registers());
        let mut read_stack = |at: u64| -> std::result::Result<u64, ()> { stack.word(at) };
        if let Ok(Some(to)) = unwinder.unwind_frame(frame, &mut regs, cache, &mut read_stack) {
            tally.answered = tally.answered.wrapping_add(1);
            tally.sum = tally.sum.wrapping_add(to).wrapping_add(S::sum_of(&regs));
        }
    }
    tally
}

// The least time of making all steps.
fn least_of_steps<S: Summed<U::UnwindRegs>, U: Unwinder>(
    clock: &impl Clock,
    unwinder: &U,
    cache: &mut U::Cache,
    stack: &Stack,
    frames: Frames,
) -> Result<Duration>
where
    U::UnwindRegs: TimedRegs,
{
    let mut least = Duration::MAX;
    for _ in 0..ROUNDS {
        let start = Instant::now(clock)?;
        make_steps::<S, U>(unwinder, cache, stack, frames);
        least = least.min(start.elapsed(clock)?);
    }
    Ok(least)
}

// Prints what came of the steps, and how many look-ups found a rule in the cache.
fn print_tally<R: Print>(rt: &R, tally: Tally, hits: u64) -> Result<()> {
    let Tally { answered, sum } = tally;
    println!(rt; "{answered} answered, {hits} hits, sum 0x{sum:x}")?;
    Ok(())
}

/// Makes the steps in a module, and prints what came of them, with the time before it if it is asked for.
pub fn print_steps<
    S: Summed<A::UnwindRegs>,
    A: ModuleUnwinding<UnwindData = TimedData>,
    R: AllocGlobal + Print + Clock,
>(rt: &R, module: TimedModule, frames: Frames, is_timed: bool) -> Result<()>
where
    A::UnwindRegs: TimedRegs,
{
    let stack = new_stack(rt.alloc())?;
    let unwinder: UnwinderInternal<A> = unwinder_with(rt.alloc(), module)?;
    let mut cache: TimedCache<A> = new_cache::<A>(rt.alloc())?;
    if is_timed {
        let least = least_of_steps::<S, _>(rt, &unwinder, &mut cache, &stack, frames)?;
        println!(rt; "steps {} ns", least.as_nanos())?;
    }
    let tally = make_steps::<S, _>(&unwinder, &mut cache, &stack, frames);
    print_tally(rt, tally, cache.stats().hits())
}
