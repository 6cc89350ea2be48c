//! What is checked of sessions, unwinders and caches of one architecture, each by a test of its own.

use crate::let_go::{check_thousand, check_turns};
use crate::memory::{check_by_expression, check_loads, check_without_memory};
use crate::modules::{Data, X86_64};
use crate::sessions::check_moves;
use framehop::x86_64::UnwindRegsX86_64;
use framehop::{MayAllocateDuringUnwind, ModuleUnwinding};
use std::alloc::Global;
use std::process::Abort;

/// What is checked.
#[derive(Clone, Copy)]
pub enum Check {
    Loads,
    MovesBehindZero,
    StepsByAnExpression,
    StepsWithoutExpressions,
    Thousand,
    Turns,
}

// Checks this of any unwinding.
fn make_check<A: ModuleUnwinding<UnwindRegs = UnwindRegsX86_64, UnwindData = Data>>(
    rt: &impl Abort,
    alloc: Global,
    what: Check,
) {
    match what {
        Check::Loads => check_loads::<A>(rt, alloc),
        Check::MovesBehindZero => check_moves::<A>(rt, alloc),
        Check::StepsByAnExpression => check_by_expression::<A>(rt, alloc),
        Check::StepsWithoutExpressions => check_without_memory::<A>(rt, alloc, false),
        Check::Thousand => check_thousand::<A>(rt, alloc),
        Check::Turns => check_turns::<A>(rt, alloc),
    }
}

/// Checks this where steps may take memory. The proof of a call with an unwinding of its own is long, so that there is one.
pub fn check_on_x86_64(rt: &impl Abort, alloc: Global, what: Check) {
    make_check::<X86_64<MayAllocateDuringUnwind>>(rt, alloc, what)
}
