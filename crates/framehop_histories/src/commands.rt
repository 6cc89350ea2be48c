//! Commands to a session, one by one and in lists, with their answers.

ghost use Rattle.std.specs.Prelude.{◌≡◌, ℕ, ◌∷◌, ◌++◌, true, false, Some, None, [], List, length, map, IfErr, IfOk, OnOk, OnErr};
ghost use Rattle.std.specs.List.{All};
ghost use Rattle.framehop_modules.specs.LoadErrors.{is_exhausted};
ghost use Rattle.framehop_registers.specs.Callback.{OverWords};
ghost use Rattle.framehop_histories.specs.Commands.{NewUnwinder, NewCache, Load, Unload, Clone, RemoveUnwinder, RemoveCache, Step, NewWalk, NextFrame, Stepped, Moved};
ghost use Rattle.framehop_histories.specs.CommandViews.{OfCallback, reply_of};
ghost use Rattle.framehop_histories.specs.Performs.{LoadsStay, Obeys, ObeysByWords, ObeysInSession, OneMovesOn, Performs, StaysUnlessDone, StepsOn, WalksMoveOn};
ghost use Rattle.framehop_unwinder.specs.Frames.{frame_of};
ghost use Rattle.framehop_unwinder.specs.State.{SessionState};
ghost use Rattle.framehop_unwinder.specs.Trials.{StaysUnlessStepped, wants_memory};
ghost use Rattle.framehop_unwinder.specs.WalkViews.{frame_answer, walk_of};
ghost use Rattle.framehop_unwinder.specs.declared.iterator.StackWalk.{StackWalk};

use framehop_modules::LoadError;
use framehop_rules::{Error, FrameAddress, SlotCount};
use framehop_unwinder::{
    AddUnwinderError, CacheId, Module, ModuleUnwinding, Session, StackWalk, UnwinderId,
};
use std::alloc::{AllocError, Global};
use std::collections::VecDeque;

/// What a session is asked for. Unwinders, caches and walks go by their numbers, in the order in which
/// they were made; no number is given again. `F` reads the words of a stack.
#[derive(Drop)]
pub enum Command<D, C, R, F> {
    /// A new unwinder without a module.
    NewUnwinder,
    /// A new cache of so many slots, with this room.
    NewCache(SlotCount, C),
    /// Loads a module in an unwinder.
    Load(usize, Module<D>),
    /// Unloads the last of the modules of an unwinder that start at an address, if one does.
    Unload(usize, u64),
    /// A new unwinder with the modules of another.
    Clone(usize),
    /// Lets an unwinder go.
    RemoveUnwinder(usize),
    /// Lets a cache go.
    RemoveCache(usize),
    /// The step of an unwinder with a cache, from a frame with these registers.
    Step(usize, usize, FrameAddress, R, F),
    /// A new walk from a frame at an instruction pointer with these registers.
    NewWalk(u64, R),
    /// The next move over the frames of an unwinder with a cache, of a walk.
    NextFrame(usize, usize, usize, F),
}

/// What a command is answered.
#[derive(Debug, Clone, Copy)]
pub enum Answer<R> {
    /// An unwinder, a cache, a module or a walk was added.
    Added,
    /// The module was unloaded, or none starts there; or the unwinder or the cache was let go.
    Removed,
    /// There is no such unwinder, cache or walk. Nothing was done.
    Unknown,
    /// The counter of generations gave all its numbers. Nothing was done.
    GenerationsExhausted,
    /// Out of memory. Nothing was done.
    OutOfMemory,
    /// What the step returns, and the registers that it leaves.
    Stepped(Result<Option<u64>, Error>, R),
    /// What the move of a walk returns, and the registers of the walk then.
    Moved(Result<Option<FrameAddress>, Error>, R),
}

impl<R: Copy> Answer<R> {
    // The answer of a load that comes to this.
    fn of_load<M: Drop>(loaded: Result<(), LoadError<M>>) -> Self
        ensures added { OnOk loaded (result ≡ Answer.Added) }
        ensures exhausted { IfErr loaded (λ error. is_exhausted error ≡ true
            → result ≡ Answer.GenerationsExhausted) }
        ensures wanted { IfErr loaded (λ error. is_exhausted error ≡ false
            → result ≡ Answer.OutOfMemory) }
    {
        match loaded {
            Ok(()) => Answer::Added,
            Err(LoadError::GenerationsExhausted(_)) => Answer::GenerationsExhausted,
            Err(LoadError::OutOfMemory(_)) => Answer::OutOfMemory,
        }
    }

    // The answer of a step that leaves these registers.
    fn of_step(answer: Result<Option<u64>, Error>, regs: R) -> Self
        ensures wanted { wants_memory answer ≡ true → reply_of result ≡ None }
        ensures answered { wants_memory answer ≡ false
            → reply_of result ≡ Some (Stepped answer regs) }
        ensures steps { (old : R) → StaysUnlessStepped answer old regs → StepsOn old result }
    {
        match answer {
            Err(Error::OutOfMemory) => Answer::OutOfMemory,
            answer => Answer::Stepped(answer, regs),
        }
    }

    // The answer of a move of a walk that leaves these registers.
    fn of_move(answer: Result<Option<FrameAddress>, Error>, regs: R) -> Self
        ensures wanted { wants_memory answer ≡ true → reply_of result ≡ None }
        ensures answered { wants_memory answer ≡ false
            → reply_of result ≡ Some (Moved (frame_answer answer) regs) }
        ensures moves { (number : ℕ) (old new : List (StackWalk R)) (moved : StackWalk R)
            → (walk_of moved).registers ≡ regs → OneMovesOn number old answer moved new
            → WalksMoveOn number old result new }
    {
        match answer {
            Err(Error::OutOfMemory) => Answer::OutOfMemory,
            answer => Answer::Moved(answer, regs),
        }
    }
}

/// A new unwinder without a module, the last.
pub fn new_unwinder<A: ModuleUnwinding>(
    session: &mut Session<A>,
    alloc: Global,
) -> Answer<A::UnwindRegs>
    ensures obeys { ObeysInSession A.takes_memory A.asks_memory A.meanings NewUnwinder
        session.old result session.new }
    ensures stays { StaysUnlessDone result session.old session.new }
{
    match session.add_unwinder(alloc) {
        Ok(_) => Answer::Added,
        Err(AddUnwinderError::GenerationsExhausted) => Answer::GenerationsExhausted,
        Err(AddUnwinderError::OutOfMemory) => Answer::OutOfMemory,
    }
}

/// A new cache of so many slots, with this room, the last.
pub fn new_cache<A: ModuleUnwinding>(
    session: &mut Session<A>,
    alloc: Global,
    slots: SlotCount,
    unwind_context: A::UnwindContext,
) -> Answer<A::UnwindRegs>
    ensures obeys { ObeysInSession A.takes_memory A.asks_memory A.meanings (NewCache slots)
        session.old result session.new }
    ensures stays { StaysUnlessDone result session.old session.new }
{
    match session.add_cache_with_context(alloc, unwind_context, slots) {
        Ok(_) => Answer::Added,
        Err(_) => Answer::OutOfMemory,
    }
}

/// Loads a module in an unwinder.
pub fn load<A: ModuleUnwinding>(
    session: &mut Session<A>,
    unwinder: usize,
    module: Module<A::UnwindData>,
) -> Answer<A::UnwindRegs>
    ensures obeys { ObeysInSession A.takes_memory A.asks_memory A.meanings (Load unwinder «module»)
        session.old result session.new }
    ensures stays { StaysUnlessDone result session.old session.new }
{
    let Ok(loaded) = session.load(UnwinderId::numbered(unwinder), module) else {
        return Answer::Unknown;
    };
    Answer::of_load(loaded)
}

/// Unloads the last of the modules of an unwinder that start at an address, if one does.
pub fn unload<A: ModuleUnwinding>(
    session: &mut Session<A>,
    unwinder: usize,
    start: u64,
) -> Answer<A::UnwindRegs>
    ensures obeys { ObeysInSession A.takes_memory A.asks_memory A.meanings (Unload unwinder start)
        session.old result session.new }
    ensures stays { StaysUnlessDone result session.old session.new }
{
    let Ok(unloaded) = session.unload(UnwinderId::numbered(unwinder), start) else {
        return Answer::Unknown;
    };
    match unloaded {
        Ok(()) => Answer::Removed,
        Err(_) => Answer::GenerationsExhausted,
    }
}

/// A new unwinder with the modules of another, the last.
pub fn clone_unwinder<A: ModuleUnwinding>(
    session: &mut Session<A>,
    alloc: Global,
    unwinder: usize,
) -> Answer<A::UnwindRegs>
    ensures obeys { ObeysInSession A.takes_memory A.asks_memory A.meanings (Clone unwinder)
        session.old result session.new }
    ensures stays { StaysUnlessDone result session.old session.new }
{
    let Ok(made) = session.clone_unwinder(alloc, UnwinderId::numbered(unwinder)) else {
        return Answer::Unknown;
    };
    match made {
        Ok(_) => Answer::Added,
        Err(_) => Answer::OutOfMemory,
    }
}

/// Lets an unwinder go.
pub fn remove_unwinder<A: ModuleUnwinding>(
    session: &mut Session<A>,
    unwinder: usize,
) -> Answer<A::UnwindRegs>
    ensures obeys { ObeysInSession A.takes_memory A.asks_memory A.meanings
        (RemoveUnwinder unwinder) session.old result session.new }
    ensures stays { StaysUnlessDone result session.old session.new }
{
    match session.remove_unwinder(UnwinderId::numbered(unwinder)) {
        Ok(()) => Answer::Removed,
        Err(_) => Answer::Unknown,
    }
}

/// Lets a cache go.
pub fn remove_cache<A: ModuleUnwinding>(
    session: &mut Session<A>,
    cache: usize,
) -> Answer<A::UnwindRegs>
    ensures obeys { ObeysInSession A.takes_memory A.asks_memory A.meanings (RemoveCache cache)
        session.old result session.new }
    ensures stays { StaysUnlessDone result session.old session.new }
{
    match session.remove_cache(CacheId::numbered(cache)) {
        Ok(()) => Answer::Removed,
        Err(_) => Answer::Unknown,
    }
}

/// The step of an unwinder with a cache, from a frame with these registers.
pub fn step<A: ModuleUnwinding, F: FnMut(u64) -> Result<u64, ()>>(
    session: &mut Session<A>,
    unwinder: usize,
    cache: usize,
    address: FrameAddress,
    regs: A::UnwindRegs,
    read_stack: &mut F,
) -> Answer<A::UnwindRegs>
    requires { F.IsAlwaysCallable read_stack.old }
    ensures callable { F.IsAlwaysCallable read_stack.new }
    ensures obeys { OverWords F.step read_stack.old read_stack.new (λ words.
        ObeysInSession A.takes_memory A.asks_memory A.meanings
        (Step unwinder cache (frame_of address) regs words)
        session.old result session.new) }
    ensures stays { StepsOn regs result }
    ensures loads { LoadsStay session.old session.new }
    ensures unknown { result ≡ Answer.Unknown → session.new ≡ session.old }
{
    let (unwinder, cache) = (UnwinderId::numbered(unwinder), CacheId::numbered(cache));
    let mut regs = regs;
    match session.step(unwinder, cache, address, &mut regs, read_stack) {
        Ok(answer) => Answer::of_step(answer, regs),
        Err(_) => Answer::Unknown,
    }
}

/// A new walk from a frame at an instruction pointer with these registers, the last.
pub fn new_walk<A: ModuleUnwinding>(
    walks: &mut Vec<StackWalk<A::UnwindRegs>>,
    pc: u64,
    regs: A::UnwindRegs,
) -> Answer<A::UnwindRegs>
    ensures obeys { (session : SessionState A.UnwindData A.UnwindRule)
        → Obeys A.takes_memory A.asks_memory A.meanings (NewWalk pc regs)
        session walks.old.items result session walks.new.items }
    ensures stays { StaysUnlessDone result walks.old.items walks.new.items }
{
    match walks.push(StackWalk::new(pc, regs)) {
        Ok(()) => Answer::Added,
        Err(_) => Answer::OutOfMemory,
    }
}

/// The next move over the frames of an unwinder with a cache, of a walk.
pub fn next_frame<A: ModuleUnwinding, F: FnMut(u64) -> Result<u64, ()>>(
    session: &mut Session<A>,
    walks: &mut Vec<StackWalk<A::UnwindRegs>>,
    unwinder: usize,
    cache: usize,
    walk: usize,
    read_stack: &mut F,
) -> Answer<A::UnwindRegs>
    requires { F.IsAlwaysCallable read_stack.old }
    ensures callable { F.IsAlwaysCallable read_stack.new }
    ensures obeys { OverWords F.step read_stack.old read_stack.new (λ w. Obeys A.takes_memory
        A.asks_memory A.meanings (NextFrame unwinder cache walk w)
        session.old walks.old.items result session.new walks.new.items) }
    ensures walk { WalksMoveOn walk walks.old.items result walks.new.items }
    ensures loads { LoadsStay session.old session.new }
    ensures unknown { result ≡ Answer.Unknown → session.new ≡ session.old }
{
    let (unwinder, cache) = (UnwinderId::numbered(unwinder), CacheId::numbered(cache));
    if !session.has(unwinder, cache) {
        return Answer::Unknown;
    }
    if walk >= walks.len() {
        return Answer::Unknown;
    }
    let walk = &mut walks[walk];
    match session.next_frame(unwinder, cache, walk, read_stack) {
        Ok(answer) => Answer::of_move(answer, walk.regs()),
        Err(_) => Answer::Unknown,
    }
}

// Does what a command asks.
fn obey<A: ModuleUnwinding, F: FnMut(u64) -> Result<u64, ()> + Drop>(
    session: &mut Session<A>,
    alloc: Global,
    walks: &mut Vec<StackWalk<A::UnwindRegs>>,
    command: Command<A::UnwindData, A::UnwindContext, A::UnwindRegs, F>,
) -> Answer<A::UnwindRegs>
    requires { OfCallback F.IsAlwaysCallable command }
    ensures { ObeysByWords F.step A.takes_memory A.asks_memory A.meanings command
        session.old walks.old.items result session.new walks.new.items }
{
    match command {
        Command::NewUnwinder => new_unwinder(session, alloc),
        Command::NewCache(slots, unwind_context) => {
            new_cache(session, alloc, slots, unwind_context)
        }
        Command::Load(unwinder, module) => load(session, unwinder, module),
        Command::Unload(unwinder, start) => unload(session, unwinder, start),
        Command::Clone(unwinder) => clone_unwinder(session, alloc, unwinder),
        Command::RemoveUnwinder(unwinder) => remove_unwinder(session, unwinder),
        Command::RemoveCache(cache) => remove_cache(session, cache),
        Command::Step(unwinder, cache, address, regs, read_stack) => {
            let mut read_stack = read_stack;
            step(session, unwinder, cache, address, regs, &mut read_stack)
        }
        Command::NewWalk(pc, regs) => new_walk::<A>(walks, pc, regs),
        Command::NextFrame(unwinder, cache, walk, read_stack) => {
            let mut read_stack = read_stack;
            next_frame(session, walks, unwinder, cache, walk, &mut read_stack)
        }
    }
}

/// Does what the commands ask, one after the other, and answers each. After any loads, unloads, clones
/// and walks, and through any of the caches, each step and each move of a walk is answered as by a
/// judge who remembers nothing, from the modules that are loaded then. Each looks up in the cache that
/// its command names: there alone it is counted, and there alone a rule is kept. A step or a move is
/// answered `OutOfMemory` only if modules may take memory, and what the module that is found says of
/// the frame asks for it.
///
/// Fails if there is no memory for the list of answers: no command is taken then, and nothing done.
pub fn perform<A: ModuleUnwinding, F: FnMut(u64) -> Result<u64, ()> + Drop>(
    alloc: Global,
    session: &mut Session<A>,
    commands: &mut VecDeque<Command<A::UnwindData, A::UnwindContext, A::UnwindRegs, F>>,
) -> Result<Vec<Answer<A::UnwindRegs>>, AllocError>
    requires { All (OfCallback F.IsAlwaysCallable) commands.old.items }
    ensures performs { IfOk result (λ answers.
        Performs F.step A.takes_memory A.asks_memory A.meanings
        session.old commands.old.items session.new answers.items) }
    ensures performed { OnOk result (commands.new.items ≡ []) }
    ensures refused { OnErr result (session.new ≡ session.old) }
    ensures waiting { OnErr result (commands.new ≡ commands.old) }
{
    let mut answers = Vec::with_capacity(alloc, commands.len())?;
    let mut walks = Vec::new(alloc);
    while let Some(command) = commands.pop_front() {
        let answer = obey(session, alloc, &mut walks, command);
        answers.push_reserved(answer);
    }
    Ok(answers)
}
