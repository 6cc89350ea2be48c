//! The walk over the stack of a sample.

ghost use Rattle.std.specs.Prelude.{◌≡◌, ◌<◌, IfOk, map};
ghost use Rattle.std.specs.Bool.{OnFalse, OnTrue};
ghost use Rattle.sample_stacks.specs.Modules.{ranges_left};
ghost use Rattle.fold_stacks.specs.Frames.{frame_of, unplaced, without_place};
ghost use Rattle.fold_stacks.specs.Walks.{AreFrames};

use crate::files::SampledFiles;
use crate::frames::UserFrame;
use framehop::x86_64::SlotCount;
use framehop::{CacheId, Generations, Session};
use framehop_registers::FrameAddress;
use perf_files::Sample;
use sample_stacks::{
    CodePlace, ProcessModules, SampleArch, SampleModules, SampleStart, StackCopy, WalkEnd,
    push_frames,
};
use std::alloc::{AllocError, Global};

// How many rules the cache keeps.
const SLOTS: usize = 1 << 14;

/// A session with one of its caches.
#[derive(Drop)]
pub(crate) struct Walker<A: SampleArch> {
    /// The session.
    pub(crate) session: Session<SampleModules<'static, A>>,
    /// The cache.
    pub(crate) cache: CacheId,
}

impl<A: SampleArch> Walker<A> {
    /// A session without an unwinder. Fails if memory is refused.
    pub(crate) fn new(alloc: Global) -> Result<Self, AllocError> {
        let slots = SlotCount::new(SLOTS).unwrap_or(SlotCount::original());
        let mut session = Session::new(alloc, Generations::new());
        let cache = session.add_cache_with_slots(alloc, slots)?;
        Ok(Walker { session, cache })
    }
}

// A frame at an address, whose function is at this place.
fn frame_at(address: FrameAddress, place: Option<CodePlace>) -> UserFrame
    ensures { result ≡ frame_of address place }
{
    UserFrame {
        address: address.address(),
        lookup: address.address_for_lookup(),
        place,
    }
}

// Loads the modules of the files that frames are in, as far as they weren't loaded yet, and returns whether there was one.
fn load_all<A: SampleArch, F: SampledFiles>(
    alloc: Global,
    session: &mut Session<SampleModules<'static, A>>,
    modules: &mut ProcessModules,
    files: &mut F,
    frames: &[FrameAddress],
) -> Result<bool, AllocError>
    ensures unwinder { modules.new.unwinder ≡ modules.old.unwinder }
    ensures fewer { IfOk result (λ is_new. OnTrue is_new (ranges_left modules.new < ranges_left modules.old)) }
    ensures same { IfOk result (λ is_new. OnFalse is_new (modules.new ≡ modules.old)) }
    ensures session { IfOk result (λ is_new. OnFalse is_new (session.new ≡ session.old)) }
{
    let mut is_new = false;
    for frame in frames {
        let lookup = frame.address_for_lookup();
        if modules.load_at::<A, F>(alloc, session, files, lookup)? {
            is_new = true;
        }
    }
    Ok(is_new)
}

// Takes the frames of a sample's walk, from the innermost on, in place of others, and returns how it ends. If a frame is in a file that
// wasn't loaded yet, the walk is made again with it: so all steps go by the same modules.
fn take_walk<A: SampleArch, F: SampledFiles>(
    alloc: Global,
    walker: &mut Walker<A>,
    modules: &mut ProcessModules,
    files: &mut F,
    copy: &StackCopy<'_>,
    start: &SampleStart<A::UnwindRegs>,
    frames: &mut Vec<FrameAddress>,
) -> Result<WalkEnd, AllocError>
    ensures { AreFrames A.samples walker.new.session walker.new.cache modules.new copy.now start.now frames.new result }
{
    let unwinder = modules.unwinder();
    'walks: loop {
        frames.clear();
        if !walker.session.has(unwinder, walker.cache) {
            return Ok(WalkEnd::Broken);
        }
        let end = push_frames::<A, ProcessModules>(
            &mut walker.session,
            unwinder,
            walker.cache,
            copy,
            modules,
            start,
            frames,
        )?;
        if !load_all::<A, F>(
            alloc,
            &mut walker.session,
            modules,
            files,
            frames.as_slice(),
        )? {
            return Ok(end);
        }
    }
}

/// Takes the frames of user code of a sample, from the innermost on, in place of others, and returns how its walk ends. Code of 32 bits has
/// its instruction pointer alone, and a sample without registers has none.
pub(crate) fn take_user_frames<A: SampleArch, F: SampledFiles>(
    alloc: Global,
    walker: &mut Walker<A>,
    modules: &mut ProcessModules,
    files: &mut F,
    sample: &Sample<'_>,
    frames: &mut Vec<FrameAddress>,
) -> Result<WalkEnd, AllocError> {
    frames.clear();
    if let Some(start) = A::start_of(&sample.user_registers) {
        let copy = StackCopy {
            start: start.stack_pointer,
            bytes: sample.user_stack,
        };
        return take_walk::<A, F>(alloc, walker, modules, files, &copy, &start, frames);
    }
    if let Some(address) = A::pointer_of_32_bits(&sample.user_registers) {
        frames.push(FrameAddress::from_instruction_pointer(address))?;
    }
    Ok(WalkEnd::Complete)
}

/// Frames, each with its place in a file, if that is loaded.
pub(crate) fn placed(
    alloc: Global,
    modules: &ProcessModules,
    addresses: &[FrameAddress],
) -> Result<Vec<UserFrame>, AllocError>
    ensures { IfOk result (λ frames. map without_place frames.items ≡ map unplaced addresses.now) }
{
    let mut frames = Vec::with_capacity(alloc, addresses.len())?;
    for address in addresses {
        let place = modules.place_of(address.address_for_lookup());
        frames.push(frame_at(*address, place))?;
    }
    Ok(frames)
}
