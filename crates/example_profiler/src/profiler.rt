//! A profiler of processes, with one cache for all.

ghost use Rattle.std.specs.Prelude.{◌≡◌, false, Some, IfOk, OnErr, OnOk};
ghost use Rattle.framehop_registers.specs.Callback.{read_answer};
ghost use Rattle.framehop_unwinder.specs.IdViews.{cache_number};
ghost use Rattle.framehop_unwinder.specs.State.{cache_at};
ghost use Rattle.example_profiler.specs.Processes.{Ends, FollowsNone, KeepsAll, Starts};
ghost use Rattle.example_profiler.specs.Stacks.{frames_of, frames_seen, no_frames, words_of};

use crate::process::Sample;
use anyhow::{Result, bail};
use framehop::{CacheId, Error, ModuleUnwinding, Session, StackWalk, UnwinderId};
use framehop_unwinder::Module;
use std::alloc::Global;

/// A profiler gives up on a stack that is deeper.
const MOST_FRAMES: usize = 128;

/// A profiler of processes, with one cache for all of them.
#[derive(Drop)]
pub struct Profiler<A: ModuleUnwinding> {
    session: Session<A>,
    cache: CacheId,
}

/// The code addresses of a stack's frames, and whether they go up to its end.
#[derive(Drop)]
pub struct Frames {
    pub addresses: Vec<u64>,
    pub is_complete: bool,
}

impl Frames {
    // No frame yet.
    fn new(alloc: Global) -> Self
        ensures { frames_seen result ≡ no_frames false }
    {
        Frames {
            addresses: Vec::new(alloc),
            is_complete: false,
        }
    }
}

impl<A: ModuleUnwinding> Profiler<A> {
    /// A profiler of no process.
    pub fn new(alloc: Global) -> Result<Self>
        ensures { IfOk result (λ profiler. FollowsNone profiler.session) }
    {
        let mut session = Session::empty(alloc);
        let cache = session.add_cache(alloc)?;
        Ok(Profiler { session, cache })
    }

    /// Follows a process, which has loaded a module.
    pub fn start(&mut self, alloc: Global, module: Module<A::UnwindData>) -> Result<UnwinderId>
        ensures started { IfOk result (λ process.
            Starts process «module» self.old.session self.new.session) }
        ensures refused { OnErr result (KeepsAll self.old.session self.new.session) }
    {
        let Ok(process) = self.session.add_unwinder(alloc) else {
            bail!("there is no room for a process");
        };
        if self.session.load(process, module)?.is_err() {
            self.session.remove_unwinder(process)?;
            bail!("the module can't be loaded");
        }
        Ok(process)
    }

    /// Forgets a process, which has ended.
    pub fn end(&mut self, process: UnwinderId) -> Result<()>
        ensures ended { OnOk result (Ends process self.old.session self.new.session) }
        ensures refused { OnErr result (KeepsAll self.old.session self.new.session) }
    {
        self.session.remove_unwinder(process)?;
        Ok(())
    }

    /// The frames of a sample, which was taken in a process with these registers: those of a walk by the
    /// modules of this process.
    // example: begin
    pub fn frames(
        &mut self,
        alloc: Global,
        process: UnwinderId,
        sample: &Sample,
        regs: A::UnwindRegs,
    ) -> Result<Frames>
        ensures frames { IfOk result (λ frames. Some (frames_seen frames)
            ≡ frames_of A.meanings self.old.session process sample.now regs) }
        ensures kept { KeepsAll self.old.session self.new.session }
    {
        let mut frames = Frames::new(alloc);
        let mut walk = StackWalk::new(sample.ip, regs);
        for _ in 0..MOST_FRAMES {
            let mut read_stack = |at: u64| -> std::result::Result<u64, ()>
                ensures answer { result ≡ read_answer (words_of sample.entry.now at) }
                ensures same { sample.exit ≡ sample.entry }
            { sample.word_at(at) };
            match self
                .session
                .next_frame(process, self.cache, &mut walk, &mut read_stack)?
            {
                Ok(Some(frame)) => frames.addresses.push(frame.address())?,
                Ok(None) => {
                    frames.is_complete = true;
                    return Ok(frames);
                }
                Err(error) => match error {
                    Error::OutOfMemory => bail!("out of memory"),
                    _ => return Ok(frames),
                },
            }
        }
        Ok(frames)
    }
    // example: end
}

impl<A: ModuleUnwinding> Profiler<A> {
    /// How many look-ups found a rule.
    pub fn hits(&self) -> Result<u64>
        ensures { IfOk result (λ hits. hits
            ≡ (cache_at self.now.session.caches (cache_number self.now.cache)).counts.hit_count) }
    {
        Ok(self.session.stats(self.cache)?.hits())
    }
}
