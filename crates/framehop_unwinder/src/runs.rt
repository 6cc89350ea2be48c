//! Runs of steps: one step after the other, with one unwinder and one cache.

ghost use Rattle.std.specs.Prelude.{◌≡◌, Ok, Err, Some, IfErr, IfOk};
ghost use Rattle.framehop_unwinder.specs.CacheViews.{rules_of};
ghost use Rattle.framehop_unwinder.specs.Runs.{GivesCaller, RunWants, Runs, StepsWith, WritesRun, last_answer, point};
ghost use Rattle.framehop_unwinder.specs.Trials.{IsOfStep};

use crate::cache::Cache;
use crate::unwinder::UnwinderInternal;
use crate::unwinders::Unwinder;
use crate::unwinding::ModuleUnwinding;
use framehop_rules::{Error, FrameAddress};

/// Why a run of steps stops.
#[derive(Debug, Clone, Copy, PartialEq, Eq)]
pub enum RunEnd {
    /// There is no room for another frame.
    Full,
    /// The frame that the run is at has no caller.
    EndOfStack,
    /// The step from the frame that the run is at gives no caller.
    Failed(Error),
}

/// What a run of steps wrote.
#[derive(Debug, Clone, Copy, PartialEq, Eq)]
pub struct Run {
    /// How many frames.
    pub count: usize,
    /// Why it stopped after them.
    pub end: RunEnd,
}

// The address of the caller that a step gives, or why a run stops after the step.
#[inline(always)]
fn caller_of(answer: Result<Option<u64>, Error>) -> Result<FrameAddress, RunEnd>
    requires { IfErr answer IsOfStep }
    ensures caller { IfOk result (λ caller. GivesCaller answer caller) }
    ensures end { IfErr result (λ end. last_answer end ≡ Some answer) }
{
    match answer {
        Ok(Some(return_address)) => match FrameAddress::from_return_address(return_address) {
            Some(caller) => Ok(caller),
            None => Err(RunEnd::Failed(Error::ReturnAddressIsNull)),
        },
        Ok(None) => Err(RunEnd::EndOfStack),
        Err(error) => Err(RunEnd::Failed(error)),
    }
}

/// Makes steps from the frame at an address, one after the other, and writes the return addresses that they give. `at` and `regs` are then
/// of the last frame that was written.
#[inline(always)]
pub(crate) fn run_steps<A: ModuleUnwinding, F: FnMut(u64) -> Result<u64, ()>>(
    unwinder: &UnwinderInternal<A>,
    cache: &mut Cache<A::UnwindRule, A::UnwindContext>,
    at: &mut FrameAddress,
    regs: &mut A::UnwindRegs,
    read_stack: &mut F,
    frames: &mut [u64],
) -> Run
    requires { F.IsAlwaysCallable read_stack.old }
    ensures callable { F.IsAlwaysCallable read_stack.new }
    ensures runs { Runs (StepsWith F.step A.UnwindRule.reads A.meanings unwinder.now)
        (point at.old regs.old read_stack.old (rules_of cache.old)) result frames.new
        (point at.new regs.new read_stack.new (rules_of cache.new)) }
    ensures written { WritesRun result frames.old frames.new }
    ensures memory { RunWants A.takes_memory A.asks_memory unwinder.now.modules at.new result }
{
    let mut count = 0;
    while count < frames.len() {
        let answer = unwinder.unwind_frame(*at, regs, cache, read_stack);
        match caller_of(answer) {
            Ok(caller) => {
                *at = caller;
                frames[count] = caller.address();
                count += 1;
            }
            Err(end) => return Run { count, end },
        }
    }
    Run {
        count,
        end: RunEnd::Full,
    }
}
