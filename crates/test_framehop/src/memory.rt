//! Memory that ends: what loads, steps and walks answer then, and what they leave.
//!
//! By themselves these tests are refused nothing. `scripts/refuse-allocations --tests test_framehop` runs each of them with each of its
//! requests refused, alone and with all after it: what is refused is asked for again, and what takes no memory answers as it does
//! with memory.
use crate::checks::{Check, check_on_x86_64};
use crate::modules::{BOTH, Data, MODULES, X86_64, module_at, module_with, shared_section};
use crate::sessions::{next_frame, session_of, step};
use crate::steps::{
    BY_FRAME, BY_WORD, FIRST, Registers, Stepped, cache_of, frame_of, try_step, unwinder_of,
};
use crate::worked::word_at;
use framehop::x86_64::UnwindRegsX86_64;
use framehop::{
    Cache, CacheStats, Error, Generations, LoadError, ModuleUnwinding, MustNotAllocateDuringUnwind,
    Session, StackWalk, Unwinder, UnwinderId, UnwinderInternal,
};
use framehop_unwinder::Module;
use std::alloc::{AllocError, Global};
use std::process::Abort;
use test_readers::WORKED;

/// Where one more module starts, in which no frame is.
const ONE_MORE: u64 = 0x800000;

/// The registers that a step leaves that goes from a frame of six words.
const BY_SIX_WORDS: Registers = (0x100100, 0x50, 0x20);

/// Whether a frame is the first one, its registers, what a step gives and leaves of them, and whether its row has an expression.
static FRAMES: [(bool, Registers, u64, Registers, bool); 13] = [
    (true, (0x101000, 0x10, 0x20), 0x100300, BY_WORD, false),
    (true, (0x101010, 0x10, 0x20), 0x100300, BY_WORD, true),
    (true, (0x201002, 0x20, 0x20), 0x100200, BY_FRAME, false),
    (true, (0x301000, 0x10, 0x20), 0x100300, BY_WORD, true),
    (true, (0x400590, 0x20, 0x20), 0x100100, BY_SIX_WORDS, false),
    (false, (0x501009, 0x20, 0x20), 0x100100, BY_SIX_WORDS, false),
    (
        false,
        (0x601009, 0x38, 0x20),
        0x100100,
        (0x601009, 0x50, 0x6),
        false,
    ),
    (true, (0x701000, 0x10, 0x20), 0x100200, BY_FRAME, false),
    (true, (0x901000, 0x10, 0x20), 0x100200, BY_FRAME, false),
    // by tables, of which the second isn't used
    (true, (0xa01002, 0x20, 0x20), 0x100200, BY_FRAME, false),
    (true, (0xa01010, 0x10, 0x20), 0x100300, BY_WORD, true),
    (true, (0xb01002, 0x20, 0x20), 0x100200, BY_FRAME, false),
    (true, (0xb01010, 0x10, 0x20), 0x100300, BY_WORD, true),
];

/// The frames of the worked stack from 0x101000 on, whether each is the first one, and its end, which stays.
static WALK: [(bool, u64); 6] = [
    (true, 0x101000),
    (false, 0x100300),
    (false, 0x100200),
    (false, 0x100100),
    (false, 0),
    (false, 0),
];

/// Loads the module that starts there. What is refused once is asked for again: if a list can't grow, the session is as it was, and the
/// module is given back.
fn load_at<A: ModuleUnwinding<UnwindData = Data>>(
    rt: &impl Abort,
    alloc: Global,
    session: &mut Session<A>,
    start: u64,
) -> Result<(), AllocError> {
    let unwinder = UnwinderId::numbered(0);
    let module = match module_at(alloc, start) {
        Ok(module) => module,
        Err(_) => module_at(alloc, start)?,
    };
    let Ok(Err(LoadError::OutOfMemory(module))) = session.load(unwinder, module) else {
        return Ok(());
    };
    assert!(rt; module.name() == "m");
    match session.load(unwinder, module) {
        Ok(Ok(())) => Ok(()),
        _ => Err(AllocError),
    }
}

/// Wants the answers of all steps, or of those whose rows have no expression, twice each.
fn check_steps<A: ModuleUnwinding<UnwindRegs = UnwindRegsX86_64>>(
    rt: &impl Abort,
    session: &mut Session<A>,
    with_expressions: bool,
) {
    for &(is_first, registers, to, caller, has_expression) in &FRAMES {
        if has_expression && !with_expressions {
            continue;
        }
        let wanted = Some((Ok(Some(to)), caller));
        for _ in 0..2 {
            let stepped = step(session, 0, is_first, registers);
            assert!(rt; stepped == wanted, "{:x}", registers.0);
        }
    }
}

/// Wants the frames of the worked stack and its end, twice.
fn check_walks<A: ModuleUnwinding<UnwindRegs = UnwindRegsX86_64>>(
    rt: &impl Abort,
    session: &mut Session<A>,
) {
    for _ in 0..2 {
        let mut walk = StackWalk::new(0x101000, UnwindRegsX86_64::new(0x101000, 0x10, 0x20));
        for &(is_first, address) in &WALK {
            let frame = frame_of(is_first, address);
            assert!(rt; next_frame(session, &mut walk, word_at) == Some(Ok(frame)));
        }
    }
}

/// Steps and walks where all is loaded, and memory may have ended since then: one more module is asked for, which is loaded or not.
pub fn check_without_memory<A: ModuleUnwinding<UnwindRegs = UnwindRegsX86_64, UnwindData = Data>>(
    rt: &impl Abort,
    alloc: Global,
    with_expressions: bool,
) {
    let mut session = session_of::<A>(rt, alloc);
    for &(start, _, _) in &MODULES {
        load_at(rt, alloc, &mut session, start).expect(rt, "memory");
    }
    let _is_loaded = load_at(rt, alloc, &mut session, ONE_MORE).is_ok();
    check_steps(rt, &mut session, with_expressions);
    check_walks(rt, &mut session);
}

/// Nothing is taken where it must not be, or for a row without an expression.
#[test]
fn nothing_is_taken_that_must_not_be(rt: HostRuntime) {
    check_without_memory::<X86_64<MustNotAllocateDuringUnwind>>(&rt, rt.alloc(), true);
}

#[test]
fn nothing_is_taken_without_an_expression(rt: HostRuntime) {
    check_on_x86_64(&rt, rt.alloc(), Check::StepsWithoutExpressions);
}

/// Loads a module, which a step uses then. If the module is given back, nothing has changed, and it is loaded again.
fn check_load<A: ModuleUnwinding<UnwindRegs = UnwindRegsX86_64>>(
    rt: &impl Abort,
    unwinder: &mut UnwinderInternal<A>,
    cache: &mut Cache<A::UnwindRule, A::UnwindContext>,
    generations: &mut Generations,
    module: Module<A::UnwindData>,
    said: Stepped,
) {
    let left = generations.left();
    if let Err(LoadError::OutOfMemory(module)) = unwinder.add_module(generations, module) {
        assert!(rt; module.name() == "m" && module.base_avma() == 0x100000);
        assert!(rt; generations.left() == left);
        assert!(rt; try_step(&*unwinder, cache, FIRST) == said);
        let is_loaded = unwinder.add_module(generations, module).is_ok();
        assert!(rt; is_loaded, "OutOfMemory");
    }
    assert!(rt; try_step(&*unwinder, cache, FIRST) == (Ok(Some(0x100300)), BY_WORD));
}

/// Loads modules with one row, as often as a list grows twice.
pub fn check_loads<A: ModuleUnwinding<UnwindRegs = UnwindRegsX86_64, UnwindData = Data>>(
    rt: &impl Abort,
    alloc: Global,
) {
    let mut generations = Generations::new();
    let mut unwinder = UnwinderInternal::<A>::new(alloc, &mut generations).expect(rt, "a number");
    let mut cache = cache_of::<A>(rt, alloc);
    let mut said = (Ok(Some(0x100200)), BY_FRAME);
    for _ in 0..6 {
        let section = shared_section(alloc, &WORKED).expect(rt, "memory");
        let module = module_with(alloc, section).expect(rt, "memory");
        check_load(
            rt,
            &mut unwinder,
            &mut cache,
            &mut generations,
            module,
            said,
        );
        said = (Ok(Some(0x100300)), BY_WORD);
    }
}

/// A load whose list can't grow gives the module back, takes no number and leaves the unwinder: the module is loaded again.
#[test]
fn a_load_is_made_again(rt: HostRuntime) {
    check_on_x86_64(&rt, rt.alloc(), Check::Loads);
}

/// A frame whose CFA is an expression.
const FRAME: Registers = (0x101010, 0x10, 0x20);

/// What a step gives and leaves there.
const CALLER: Stepped = (Ok(Some(0x100300)), BY_WORD);

/// What it gives and leaves out of memory.
const REFUSED: Stepped = (Err(Error::OutOfMemory), FRAME);

/// A frame without a row, by the address 509 below it, which has the same slot.
const OTHER: Registers = (0x100e13, 0x10, 0x20);

/// What a step gives and leaves there.
const KEPT: Stepped = (Ok(Some(0x100200)), BY_FRAME);

/// What a cache counted of such frames, and that of no other modules.
fn counts(hit_count: u64, miss_wrong_address_count: u64) -> CacheStats {
    CacheStats {
        hit_count,
        miss_empty_slot_count: 1,
        miss_wrong_modules_count: 0,
        miss_wrong_address_count,
    }
}

/// A step by an expression that is out of memory leaves the registers and the rule that the cache keeps in its slot, is counted as a
/// miss, and is made with memory.
fn check_expression<A: ModuleUnwinding<UnwindRegs = UnwindRegsX86_64>>(
    rt: &impl Abort,
    unwinder: &UnwinderInternal<A>,
    cache: &mut Cache<A::UnwindRule, A::UnwindContext>,
) {
    let _ = try_step(unwinder, cache, OTHER);
    let first = try_step(unwinder, cache, FRAME);
    assert!(rt; (first == CALLER || first == REFUSED) && cache.stats() == counts(0, 1));
    assert!(rt; try_step(unwinder, cache, OTHER) == KEPT && cache.stats() == counts(1, 1));
    let again = try_step(unwinder, cache, FRAME);
    assert!(rt; again != REFUSED, "OutOfMemory");
    assert!(rt; again == CALLER && cache.stats() == counts(1, 2));
}

/// Wants the frames from one by an expression. A move that is out of memory leaves the walk at its frame, and the next makes the step
/// again.
fn check_moves<U: Unwinder<UnwindRegs = UnwindRegsX86_64>>(
    rt: &impl Abort,
    unwinder: &U,
    cache: &mut U::Cache,
) {
    let mut read_stack = word_at;
    let regs = UnwindRegsX86_64::new(0x101010, 0x10, 0x20);
    let mut frames = unwinder.iter_frames(0x101010, regs, cache, &mut read_stack);
    assert!(rt; frames.next() == Ok(frame_of(true, 0x101010)));
    let mut moved = frames.next();
    if moved == Err(Error::OutOfMemory) {
        moved = frames.next();
    }
    assert!(rt; moved != Err(Error::OutOfMemory), "OutOfMemory");
    assert!(rt; moved == Ok(frame_of(false, 0x100300)));
    for &(is_first, address) in &WALK[2..] {
        assert!(rt; frames.next() == Ok(frame_of(is_first, address)));
    }
}

/// Wants a step by an expression, and the moves from there.
pub fn check_by_expression<A: ModuleUnwinding<UnwindRegs = UnwindRegsX86_64, UnwindData = Data>>(
    rt: &impl Abort,
    alloc: Global,
) {
    let section = shared_section(alloc, &BOTH).expect(rt, "memory");
    let module = module_with(alloc, section).expect(rt, "memory");
    let unwinder = unwinder_of::<A>(rt, alloc, module);
    let mut cache = cache_of::<A>(rt, alloc);
    check_expression(rt, &unwinder, &mut cache);
    check_moves(rt, &unwinder, &mut cache);
}

#[test]
fn steps_and_moves_by_an_expression_are_made_again(rt: HostRuntime) {
    check_on_x86_64(&rt, rt.alloc(), Check::StepsByAnExpression);
}
