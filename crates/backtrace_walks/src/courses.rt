//! The course of a walk over a thread's stack, with the callers of addresses without code.

ghost use Rattle.std.specs.Prelude.{◌≡◌, option_map};
ghost use Rattle.framehop_unwinder.specs.WalkViews.{walk_of};
ghost use Rattle.backtrace_walks.specs.Backtraces.{advance_of_thread, caller_behind, caller_of, course_by, course_move, frame_of_call, walk_on};
ghost use Rattle.backtrace_walks.specs.CourseViews.{IsCourseMove, course_of};
ghost use Rattle.backtrace_walks.specs.ProcessViews.{IsSessionOf, process_seen};
ghost use Rattle.backtrace_walks.specs.WalkedViews.{IsAdvance, frame_seen, next_seen};
ghost use Rattle.backtrace_walks.specs.Walks.{course_from};

use crate::arch::{FileModules, ThreadArch};
use crate::backtraces::CoreProcess;
use crate::calls::CallSite;
use crate::registers::ThreadStart;
use crate::stack_words::next_in_memory;
use crate::walks::{NextFrame, WalkedFrame};
use backtrace_files::may_be_code_at;
use framehop::{Session, StackWalk};
use framehop_registers::FrameAddress;
use framehop_whole_modules::WholeRegs;

/// The course of a walk over a thread's stack: where the walk is, and the frame that comes before its next move, if there is one.
#[derive(Clone, Copy, Debug)]
pub(crate) struct ThreadWalk<R> {
    pub(crate) walk: StackWalk<R>,
    pub(crate) caller: Option<WalkedFrame<R>>,
}

// Whether there is code at an address: as the core's segments say, or if none contains it, if a file has code there.
fn is_code(process: &CoreProcess<'_, '_, '_>, address: u64) -> bool
    ensures { result ≡ (process_seen process.now).is_code address }
{
    match process.memory.executable_at(address) {
        Some(executable) => executable,
        None => may_be_code_at(process.files, address),
    }
}

// The frame that made a call, if it returns to behind code.
fn frame_of_call<R: Copy>(
    process: &CoreProcess<'_, '_, '_>,
    site: &CallSite<R>,
) -> Option<WalkedFrame<R>>
    ensures { option_map frame_seen result ≡ frame_of_call (process_seen process.now) site.now }
{
    let return_address = site.return_address;
    if return_address == 0 || !is_code(process, return_address - 1) {
        return None;
    }
    match FrameAddress::from_return_address(return_address) {
        Some(address) => Some(WalkedFrame {
            address,
            registers: site.registers,
        }),
        None => None,
    }
}

// The frame that called an address without code, by the frame there.
fn caller_of<A: ThreadArch>(
    process: &CoreProcess<'_, '_, '_>,
    frame: &WalkedFrame<WholeRegs<A::UnwindRegs>>,
) -> Option<WalkedFrame<WholeRegs<A::UnwindRegs>>>
    ensures { option_map frame_seen result
        ≡ caller_of A.stacks (process_seen process.now) (frame_seen frame.now) }
{
    let FrameAddress::InstructionPointer(pc) = frame.address else {
        return None;
    };
    if is_code(process, pc) {
        return None;
    }
    match A::called(&process.memory, &frame.registers) {
        Some(site) => frame_of_call(process, &site),
        None => None,
    }
}

// A walk that goes on from a frame, or from where a signal interrupted the thread, if a handler returns to the frame.
#[tactic(auto, using(crate::proofs::Addresses::same_address))]
fn walk_on<A: ThreadArch>(
    process: &CoreProcess<'_, '_, '_>,
    frame: &WalkedFrame<WholeRegs<A::UnwindRegs>>,
) -> StackWalk<WholeRegs<A::UnwindRegs>>
    ensures { walk_of result ≡ walk_on A.stacks (process_seen process.now) (frame_seen frame.now) }
{
    match A::interrupted(&process.memory, frame.address.address(), &frame.registers) {
        Some(start) => StackWalk::new(start.pc, start.registers),
        None => StackWalk::at(frame.address, frame.registers),
    }
}

// The frame that called what was next, if it is at an address without code.
fn caller_behind<A: ThreadArch>(
    process: &CoreProcess<'_, '_, '_>,
    next: &NextFrame<WholeRegs<A::UnwindRegs>>,
) -> Option<WalkedFrame<WholeRegs<A::UnwindRegs>>>
    ensures { option_map frame_seen result
        ≡ caller_behind A.stacks (process_seen process.now) (next_seen next.now) }
{
    match next {
        NextFrame::Frame(frame) => caller_of::<A>(process, frame),
        NextFrame::End(_) => None,
    }
}

// The course behind a frame, by the frame that called it, if it is at an address without code.
fn course_by<A: ThreadArch>(
    process: &CoreProcess<'_, '_, '_>,
    caller: Option<WalkedFrame<WholeRegs<A::UnwindRegs>>>,
    walk: StackWalk<WholeRegs<A::UnwindRegs>>,
) -> ThreadWalk<WholeRegs<A::UnwindRegs>>
    ensures { course_of result
        ≡ course_by A.stacks (process_seen process.now) (option_map frame_seen caller) (walk_of walk) }
{
    match caller {
        Some(caller) => ThreadWalk {
            walk: walk_on::<A>(process, &caller),
            caller: Some(caller),
        },
        None => ThreadWalk { walk, caller: None },
    }
}

/// The course that begins where a thread is.
pub(crate) fn course_from<R: Copy>(start: &ThreadStart<R>) -> ThreadWalk<R>
    ensures { course_of result ≡ course_from start.now }
{
    ThreadWalk {
        walk: StackWalk::new(start.pc, start.registers),
        caller: None,
    }
}

// Makes the next move of the walk of a course.
fn next_of_walk<'a, A: ThreadArch>(
    session: &mut Session<FileModules<'a, A>>,
    process: &CoreProcess<'_, '_, 'a>,
    walk: &mut StackWalk<WholeRegs<A::UnwindRegs>>,
) -> NextFrame<WholeRegs<A::UnwindRegs>>
    requires { IsSessionOf process.now session.old }
    ensures next { IsAdvance result walk.new
        (advance_of_thread A.stacks (process_seen process.now) (walk_of walk.old)) }
    ensures session { IsSessionOf process.now session.new }
{
    next_in_memory::<A>(session, &process.memory, walk)
}

/// Makes the next move of a course over a stack of a process.
pub(crate) fn next_in<'a, A: ThreadArch>(
    session: &mut Session<FileModules<'a, A>>,
    process: &CoreProcess<'_, '_, 'a>,
    course: &mut ThreadWalk<WholeRegs<A::UnwindRegs>>,
) -> NextFrame<WholeRegs<A::UnwindRegs>>
    requires { IsSessionOf process.now session.old }
    ensures next { IsCourseMove result course.new
        (course_move A.stacks (process_seen process.now) (course_of course.old)) }
    ensures session { IsSessionOf process.now session.new }
{
    if let Some(frame) = course.caller {
        course.caller = None;
        return NextFrame::Frame(frame);
    }
    let mut walk = course.walk;
    let next = next_of_walk::<A>(session, process, &mut walk);
    let caller = caller_behind::<A>(process, &next);
    *course = course_by::<A>(process, caller, walk);
    next
}
