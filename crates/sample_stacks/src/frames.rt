//! The frames of a sample's walk.

ghost use Rattle.std.specs.Prelude.{◌≡◌, true};
ghost use Rattle.framehop_unwinder.specs.IdViews.{has_both};
ghost use Rattle.sample_stacks.specs.SampleFrames.{frames_in};
ghost use Rattle.sample_stacks.specs.WalkViews.{AddsFrames, KeepsModules};

use crate::arch::{SampleArch, SampleModules, SampleStart};
use crate::code::ProcessCode;
use crate::stack_copy::StackCopy;
use crate::walks::{NextMove, WalkEnd, next_frame};
use framehop::{CacheId, Session, StackWalk, UnwinderId};
use framehop_registers::FrameAddress;
use std::alloc::AllocError;

/// The most frames of a walk: a sample's stack has at most 8192 words.
pub const MOST_FRAMES: u32 = 65536;

/// Adds the frames of a sample's walk by the modules of an unwinder of a session, from the innermost on, and returns how it ends. Behind a
/// frame that a signal's handler returns to are those of the code that the signal interrupted. Fails if memory is refused; then nothing is
/// said of what was added. The session goes on having these modules.
pub fn push_frames<'a, A: SampleArch, C: ProcessCode>(
    session: &mut Session<SampleModules<'a, A>>,
    unwinder: UnwinderId,
    cache: CacheId,
    copy: &StackCopy<'_>,
    code: &C,
    start: &SampleStart<A::UnwindRegs>,
    frames: &mut Vec<FrameAddress>,
) -> Result<WalkEnd, AllocError>
    requires { has_both session.old unwinder cache ≡ true }
    ensures frames { AddsFrames result frames.old frames.new
        (frames_in A.samples session.old unwinder copy.now (C.code code.now) start.now) }
    ensures session { KeepsModules session.old session.new }
{
    let mut walk = StackWalk::new(start.instruction_pointer, start.registers);
    for _ in 0..MOST_FRAMES {
        match next_frame::<A, C>(session, unwinder, cache, copy, code, &mut walk) {
            NextMove::Frame(address) => frames.push(address)?,
            NextMove::End(end) => return Ok(end),
        }
    }
    Ok(WalkEnd::Broken)
}
