//! The commands that change a session or read it, on any architecture.

ghost use Rattle.std.specs.Prelude.{◌≡◌, [], false, true, codes, IfOk, OnErr, OnOk, string_bytes};
ghost use Rattle.json_program.specs.Lines.{line};
ghost use Rattle.framehop_registers.specs.Callback.{Words, AnswersBy};
ghost use Rattle.framehop_histories.specs.CommandViews.{reply_of};
ghost use Rattle.framehop_histories.specs.Commands.{NewUnwinder, NewCache, Clone, Load, RemoveCache, RemoveUnwinder, Unload};
ghost use Rattle.framehop_histories.specs.Performs.{LoadsStay};
ghost use Rattle.unwind_run_program.specs.Outputs.{IsAppendedFor, IsUndone, IsWrittenFor, Outputs, OutputsAct, output_of_occupancy, output_of_stats, output_of_walk};

use crate::replies::{counts_line, frame_line, occupancy_line, stop_line};
use framehop_histories as histories;
use framehop_histories::Answer;
use framehop_rules::SlotCount;
use framehop_unwinder::{CacheId, Module, ModuleUnwinding, Session};
use std::alloc::{AllocError, Global};

/// The text that a command wrote, and whether the command was `refused`, which ends the run.
#[derive(Debug, Drop)]
pub struct Written {
    pub text: String,
    pub is_refused: bool,
}

impl Written {
    // A command that writes nothing.
    fn nothing(alloc: Global) -> Written
        ensures text { string_bytes result.text ≡ [] }
        ensures refused { result.is_refused ≡ false }
    {
        Written::lines(String::new(alloc))
    }

    /// A command that writes these lines.
    pub fn lines(text: String) -> Written
        ensures text { result.text ≡ text }
        ensures refused { result.is_refused ≡ false }
    {
        Written {
            text,
            is_refused: false,
        }
    }

    /// A command that names an unwinder or a cache that was let go.
    pub fn unknown(alloc: Global) -> Result<Written, AllocError>
        ensures text { IfOk result (λ written.
            string_bytes written.text ≡ line (codes "unknown")) }
        ensures refused { IfOk result (λ written. written.is_refused ≡ false) }
    {
        Ok(Written::lines(String::from_str(alloc, "unknown\n")?))
    }

    // A command that needs a generation when the counter has none left.
    fn refused(alloc: Global) -> Result<Written, AllocError>
        ensures text { IfOk result (λ written.
            string_bytes written.text ≡ line (codes "refused GenerationsExhausted")) }
        ensures refused { IfOk result (λ written. written.is_refused ≡ true) }
    {
        Ok(Written {
            text: String::from_str(alloc, "refused GenerationsExhausted\n")?,
            is_refused: true,
        })
    }

    // What is written for the answer to a command that is no step and no move of a walk. An answer that
    // memory is out has no text: this call fails too.
    fn of_answer<R: Copy>(alloc: Global, answer: Answer<R>) -> Result<Written, AllocError>
        ensures written { IfOk result (λ written.
            IsWrittenFor (reply_of answer) (string_bytes written.text) written.is_refused) }
        ensures undone { OnErr result (IsUndone (reply_of answer)) }
    {
        match answer {
            Answer::GenerationsExhausted => Written::refused(alloc),
            Answer::OutOfMemory => Err(AllocError),
            Answer::Unknown => Written::unknown(alloc),
            Answer::Added | Answer::Removed => Ok(Written::nothing(alloc)),
            Answer::Stepped(..) | Answer::Moved(..) => Ok(Written::nothing(alloc)),
        }
    }
}

/// Makes the next unwinder. A call that fails leaves the session.
pub fn add_unwinder<A: ModuleUnwinding>(
    session: &mut Session<A>,
    alloc: Global,
) -> Result<Written, AllocError>
    ensures output { OutputsAct A.meanings NewUnwinder session.old session.new result }
    ensures refused { OnErr result (session.new ≡ session.old) }
{
    let answer = histories::new_unwinder(session, alloc);
    Written::of_answer(alloc, answer)
}

/// Makes the next cache, of so many slots, with this context for its attempts. A call that fails leaves the
/// session.
pub fn add_cache<A: ModuleUnwinding>(
    session: &mut Session<A>,
    alloc: Global,
    slots: SlotCount,
    unwind_context: A::UnwindContext,
) -> Result<Written, AllocError>
    ensures output { OutputsAct A.meanings (NewCache slots) session.old session.new result }
    ensures refused { OnErr result (session.new ≡ session.old) }
{
    let answer = histories::new_cache(session, alloc, slots, unwind_context);
    Written::of_answer(alloc, answer)
}

/// Makes the next unwinder, with the modules of another. A call that fails leaves the session.
pub fn clone_unwinder<A: ModuleUnwinding>(
    session: &mut Session<A>,
    alloc: Global,
    unwinder: usize,
) -> Result<Written, AllocError>
    ensures output { OutputsAct A.meanings (Clone unwinder) session.old session.new result }
    ensures refused { OnErr result (session.new ≡ session.old) }
{
    let answer = histories::clone_unwinder(session, alloc, unwinder);
    Written::of_answer(alloc, answer)
}

/// Lets an unwinder go. A call that fails leaves the session.
pub fn remove_unwinder<A: ModuleUnwinding>(
    session: &mut Session<A>,
    alloc: Global,
    unwinder: usize,
) -> Result<Written, AllocError>
    ensures output { OutputsAct A.meanings (RemoveUnwinder unwinder)
        session.old session.new result }
    ensures refused { OnErr result (session.new ≡ session.old) }
{
    let answer = histories::remove_unwinder(session, unwinder);
    Written::of_answer(alloc, answer)
}

/// Lets a cache go. A call that fails leaves the session.
pub fn remove_cache<A: ModuleUnwinding>(
    session: &mut Session<A>,
    alloc: Global,
    cache: usize,
) -> Result<Written, AllocError>
    ensures output { OutputsAct A.meanings (RemoveCache cache) session.old session.new result }
    ensures refused { OnErr result (session.new ≡ session.old) }
{
    let answer = histories::remove_cache(session, cache);
    Written::of_answer(alloc, answer)
}

/// Loads a module in an unwinder. A call that fails leaves the session.
pub fn load<A: ModuleUnwinding>(
    session: &mut Session<A>,
    alloc: Global,
    unwinder: usize,
    module: Module<A::UnwindData>,
) -> Result<Written, AllocError>
    ensures output { OutputsAct A.meanings (Load unwinder «module») session.old session.new result }
    ensures refused { OnErr result (session.new ≡ session.old) }
{
    let answer = histories::load(session, unwinder, module);
    Written::of_answer(alloc, answer)
}

/// Unloads the last of the modules of an unwinder that start at an address, if one does. A call that
/// fails leaves the session.
pub fn unload<A: ModuleUnwinding>(
    session: &mut Session<A>,
    alloc: Global,
    unwinder: usize,
    start: u64,
) -> Result<Written, AllocError>
    ensures output { OutputsAct A.meanings (Unload unwinder start) session.old session.new result }
    ensures refused { OnErr result (session.new ≡ session.old) }
{
    let answer = histories::unload(session, unwinder, start);
    Written::of_answer(alloc, answer)
}

/// Shows the counts of a cache, or that it was let go.
pub fn stats<A: ModuleUnwinding>(
    session: &mut Session<A>,
    alloc: Global,
    cache: usize,
) -> Result<Written, AllocError>
    ensures output { Outputs (output_of_stats cache) session.old session.new result }
    ensures same { session.new ≡ session.old }
{
    let Ok(counts) = session.stats(CacheId::numbered(cache)) else {
        return Written::unknown(alloc);
    };
    let line = counts_line(alloc, counts)?;
    Ok(Written::lines(line))
}

/// Shows how many slots a cache has, and how many rules it keeps, or that it was let go.
pub fn occupancy<A: ModuleUnwinding>(
    session: &mut Session<A>,
    alloc: Global,
    cache: usize,
) -> Result<Written, AllocError>
    ensures output { Outputs (output_of_occupancy cache) session.old session.new result }
    ensures same { session.new ≡ session.old }
{
    let Ok(occupancy) = session.occupancy(CacheId::numbered(cache)) else {
        return Written::unknown(alloc);
    };
    let line = occupancy_line(alloc, occupancy)?;
    Ok(Written::lines(line))
}

// Appends the line of a move of a walk, and returns whether the move gave a frame. A move that ran out
// of memory has no line: this call fails too.
fn push_move<R: Copy>(
    alloc: Global,
    answer: Answer<R>,
    text: &mut String,
) -> Result<bool, AllocError>
    ensures { IfOk result (λ given.
        IsAppendedFor (reply_of answer) given (string_bytes text.old) (string_bytes text.new)) }
{
    match answer {
        Answer::OutOfMemory => Err(AllocError),
        Answer::Moved(Ok(Some(frame)), _) => {
            text.push_str(frame_line(alloc, frame)?.as_str())?;
            Ok(true)
        }
        Answer::Moved(Ok(None), _) => {
            text.push_str("end\n")?;
            Ok(false)
        }
        Answer::Moved(Err(error), _) => {
            text.push_str(stop_line(alloc, error)?.as_str())?;
            Ok(false)
        }
        Answer::Unknown => {
            text.push_str("unknown\n")?;
            Ok(false)
        }
        Answer::Added | Answer::Removed | Answer::GenerationsExhausted | Answer::Stepped(..) => {
            Ok(false)
        }
    }
}

/// A walk over the frames of an unwinder with a cache, from the frame at an instruction pointer with these
/// registers, up to a limit of frames.
#[derive(Clone, Copy, Drop)]
pub struct LimitedWalk<R: Copy> {
    pub unwinder: usize,
    pub cache: usize,
    pub limit: u64,
    pub pc: u64,
    pub regs: R,
}

/// Walks over frames up to a limit, and returns a line for each frame and one for how the walk ends, or that the
/// unwinder or the cache was let go. A call that fails leaves the unwinders and the counter.
pub fn walk<A: ModuleUnwinding, F: FnMut(u64) -> Result<u64, ()>>(
    session: &mut Session<A>,
    alloc: Global,
    walk: LimitedWalk<A::UnwindRegs>,
    read_stack: &mut F,
) -> Result<Written, AllocError>
    requires { F.IsAlwaysCallable read_stack.old }
    ensures callable { F.IsAlwaysCallable read_stack.new }
    ensures output { (words : Words) → AnswersBy F.step read_stack.old words → Outputs (output_of_walk
        A.meanings words walk.limit walk.unwinder walk.cache walk.pc walk.regs)
        session.old session.new result }
    ensures loads { LoadsStay session.old session.new }
{
    let mut walks = Vec::new(alloc);
    let Answer::Added = histories::new_walk::<A>(&mut walks, walk.pc, walk.regs) else {
        return Err(AllocError);
    };
    let mut text = String::new(alloc);
    for _ in 0..walk.limit {
        let answer = histories::next_frame(
            session,
            &mut walks,
            walk.unwinder,
            walk.cache,
            0,
            read_stack,
        );
        if !push_move(alloc, answer, &mut text)? {
            return Ok(Written::lines(text));
        }
    }
    text.push_str("limit\n")?;
    Ok(Written::lines(text))
}
