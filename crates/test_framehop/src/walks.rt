//! Walks, by iterators and move by move.
use crate::callers::addresses_of;
use crate::tables::{Row, Said};
use crate::toy::{Toy, session_of, unwinder_of};
use crate::worked::word_at;
use framehop_registers::x86_64::UnwindRegsX86_64;
use framehop_unwinder::{
    Cache, CacheId, CacheStats, Error, FrameAddress, ModuleUnwinding, Session, StackWalk, Unwinder,
    UnwinderId,
};
use std::alloc::Global;
use std::process::Abort;

type Regs = UnwindRegsX86_64;

/// What a move gives: the address of the frame, and whether it is a return address.
type Moved = Result<Option<(u64, bool)>, Error>;

// The frame of an instruction pointer.
macro_rules! first {
    ($address:expr) => {
        Ok(Some(($address, false)))
    };
}

// The frame of a return address.
macro_rules! later {
    ($address:expr) => {
        Ok(Some(($address, true)))
    };
}

const END: Moved = Ok(None);

const NULL: Moved = Err(Error::ReturnAddressIsNull);

const UNREAD: Moved = Err(Error::CouldNotReadStack(0x1000));

const REFUSED: Moved = Err(Error::OutOfMemory);

fn shown(answer: Result<Option<FrameAddress>, Error>) -> Moved {
    match answer {
        Ok(Some(frame)) => Ok(Some((frame.address(), frame.is_return_address()))),
        Ok(None) => Ok(None),
        Err(error) => Err(error),
    }
}

/// A walk by an iterator: what the module says, where the walk begins with which frame pointer, how many moves it makes, and what these
/// give.
struct Walk {
    said: Said,
    pc: u64,
    bp: u64,
    by_unwinder: &'static [Moved],
    by_session: &'static [Moved],
}

/// The worked stack, frame by frame: the instruction pointer, three return addresses, then the end, which stays.
const WHOLE: &[Moved] = &[
    first!(0x101000),
    later!(0x100300),
    later!(0x100200),
    later!(0x100100),
    END,
    END,
];

static WALKS: [Walk; 3] = [
    Walk {
        said: Said::StubRule,
        pc: 0x101000,
        bp: 0x20,
        by_unwinder: WHOLE,
        by_session: WHOLE,
    },
    // A return address of 0 is refused, again at each further move. It is the last that a session's iterator returns.
    Walk {
        said: Said::NullCaller,
        pc: 0x101000,
        bp: 0x20,
        by_unwinder: &[first!(0x101000), NULL, NULL, NULL],
        by_session: &[first!(0x101000), NULL, END, END],
    },
    // A step that fails is made again.
    Walk {
        said: Said::NullCaller,
        pc: 0x101500,
        bp: 0x1000,
        by_unwinder: &[first!(0x101500), UNREAD, UNREAD, UNREAD],
        by_session: &[first!(0x101500), UNREAD, UNREAD, UNREAD],
    },
];

// Makes a walk twice by an unwinder's iterator, through one cache, and gives what this counted.
fn check_unwinder<A: ModuleUnwinding<UnwindRegs = Regs, UnwindData = Vec<Row>>>(
    rt: &impl Abort,
    alloc: Global,
    walk: &Walk,
) -> CacheStats {
    let unwinder = unwinder_of::<A>(rt, alloc, walk.said);
    let context = A::unwind_context(alloc).expect(rt, "memory");
    let mut cache = Cache::new(alloc, context).expect(rt, "memory");
    for _ in 0..2 {
        let mut read_stack = word_at;
        let regs = UnwindRegsX86_64::new(walk.pc, 0x10, walk.bp);
        let mut frames = unwinder.iter_frames(walk.pc, regs, &mut cache, &mut read_stack);
        for wanted in walk.by_unwinder {
            assert!(rt; shown(frames.next()) == *wanted);
        }
    }
    cache.stats()
}

// Makes a walk by a session's iterator.
fn check_session<A: ModuleUnwinding<UnwindRegs = Regs>>(
    rt: &impl Abort,
    session: &mut Session<A>,
    walk: &Walk,
) {
    let (unwinder, cache) = (UnwinderId::numbered(0), CacheId::numbered(0));
    assert!(rt; session.has(unwinder, cache));
    let mut read_stack = word_at;
    let regs = UnwindRegsX86_64::new(walk.pc, 0x10, walk.bp);
    let mut frames = session.iter_frames(unwinder, cache, walk.pc, regs, &mut read_stack);
    for wanted in walk.by_session {
        assert!(rt; shown(frames.next()) == *wanted);
    }
}

// Makes a walk twice by each. The first walk keeps the rules that the second finds, of the whole stack.
fn check_walk<A: ModuleUnwinding<UnwindRegs = Regs, UnwindData = Vec<Row>>>(
    rt: &impl Abort,
    alloc: Global,
    walk: &Walk,
) {
    let stats = check_unwinder::<A>(rt, alloc, walk);
    let mut session = session_of::<A>(rt, alloc, walk.said);
    for _ in 0..2 {
        check_session(rt, &mut session, walk);
    }
    let counts = session.stats(CacheId::numbered(0));
    let is_whole = walk.by_session.len() == WHOLE.len();
    assert!(rt; !is_whole || counts == Ok(stats) && stats.hits() == 4 && stats.misses() == 4);
}

#[test]
fn walks_by_iterators(rt: HostRuntime) {
    for walk in &WALKS {
        check_walk::<Toy>(&rt, rt.alloc(), walk);
    }
}

/// How many addresses are asked for at most, one time after the other, and those that are given.
static PARTS: [(usize, &[u64]); 2] = [(2, &[0x101000, 0x100300]), (9, &[0x100200, 0x100100])];

// Takes the addresses of a session's frames in two parts.
fn check_addresses<A: ModuleUnwinding<UnwindRegs = Regs, UnwindData = Vec<Row>>>(
    rt: &impl Abort,
    alloc: Global,
) {
    let mut session = session_of::<A>(rt, alloc, Said::StubRule);
    let (unwinder, cache) = (UnwinderId::numbered(0), CacheId::numbered(0));
    assert!(rt; session.has(unwinder, cache));
    let mut read_stack = word_at;
    let regs = UnwindRegsX86_64::new(0x101000, 0x10, 0x20);
    let mut frames = session.iter_frames(unwinder, cache, 0x101000, regs, &mut read_stack);
    for &(most, wanted) in &PARTS {
        let addresses = addresses_of(alloc, &mut frames, most).expect(rt, "memory");
        assert!(rt; addresses.as_slice() == wanted);
    }
    assert!(rt; session.has(unwinder, cache));
}

/// The session can be used again afterwards.
#[test]
fn addresses_of_a_sessions_frames(rt: HostRuntime) {
    check_addresses::<Toy>(&rt, rt.alloc());
}

/// What a move gives, and the stack pointer then.
type Step = (Moved, u64);

/// Where a walk is: at a frame that is a later one or not, or at none yet; and the address of its frame.
type Place = (Option<bool>, u64);

/// What the module says, where a walk is with which stack pointer and frame pointer, its moves, one more after the module is unloaded,
/// and what the cache counted: hits, empty slots and wrong modules.
type Case = (
    Said,
    Place,
    (u64, u64),
    &'static [Step],
    Step,
    (u64, u64, u64),
);

static MOVES: [Case; 6] = [
    // without a module
    (
        Said::StubRule,
        (None, 0x200000),
        (0x10, 0x20),
        &[
            (first!(0x200000), 0x10),
            (later!(0x100200), 0x30),
            (later!(0x100100), 0x50),
            (END, 0x50),
        ],
        (END, 0x50),
        (0, 3, 0),
    ),
    // after an error a walk is where it was
    (
        Said::StubRule,
        (None, 0x200000),
        (0x10, 0x1000),
        &[(first!(0x200000), 0x10), (UNREAD, 0x10), (UNREAD, 0x10)],
        (UNREAD, 0x10),
        (1, 1, 1),
    ),
    // at a frame that was found
    (
        Said::StubRule,
        (Some(false), 0x100300),
        (0x18, 0x20),
        &[
            (later!(0x100200), 0x30),
            (later!(0x100100), 0x50),
            (END, 0x50),
        ],
        (END, 0x50),
        (0, 3, 0),
    ),
    (
        Said::StubRule,
        (Some(true), 0x100300),
        (0x18, 0x20),
        &[
            (later!(0x100200), 0x30),
            (later!(0x100100), 0x50),
            (END, 0x50),
        ],
        (END, 0x50),
        (0, 3, 0),
    ),
    // A walk stays at the frame whose caller has the return address 0. If that caller isn't null at the next move, it goes on from there.
    (
        Said::NullCaller,
        (Some(false), 0x101000),
        (0x10, 0x20),
        &[(NULL, 0x10), (NULL, 0x10)],
        (later!(0x100200), 0x30),
        (0, 3, 0),
    ),
    // where memory is refused nothing is kept
    (
        Said::WantsMemory,
        (Some(false), 0x101000),
        (0x10, 0x20),
        &[(REFUSED, 0x10), (REFUSED, 0x10)],
        (later!(0x100200), 0x30),
        (0, 3, 0),
    ),
];

fn walk_at((is_later, address): Place, (sp, bp): (u64, u64)) -> StackWalk<Regs> {
    let regs = UnwindRegsX86_64::new(address, sp, bp);
    let Some(is_later) = is_later else {
        return StackWalk::new(address, regs);
    };
    let frame = match FrameAddress::from_return_address(address) {
        Some(frame) if is_later => frame,
        _ => FrameAddress::from_instruction_pointer(address),
    };
    StackWalk::at(frame, regs)
}

// The next move of a walk, if there are an unwinder and a cache.
fn next<A: ModuleUnwinding<UnwindRegs = Regs>>(
    session: &mut Session<A>,
    walk: &mut StackWalk<Regs>,
) -> Option<Step> {
    let (unwinder, cache) = (UnwinderId::numbered(0), CacheId::numbered(0));
    let mut read_stack = word_at;
    let answer = session
        .next_frame(unwinder, cache, walk, &mut read_stack)
        .ok()?;
    Some((shown(answer), walk.regs().sp()))
}

// Makes the moves of a case.
fn check_moves<A: ModuleUnwinding<UnwindRegs = Regs, UnwindData = Vec<Row>>>(
    rt: &impl Abort,
    alloc: Global,
    &(said, place, registers, moves, after, counts): &Case,
) {
    let mut session = session_of::<A>(rt, alloc, said);
    let mut walk = walk_at(place, registers);
    for wanted in moves {
        assert!(rt; next(&mut session, &mut walk) == Some(*wanted));
    }
    assert!(rt; session.unload(UnwinderId::numbered(0), 0x100000) == Ok(Ok(())));
    assert!(rt; next(&mut session, &mut walk) == Some(after));
    let stats = session.stats(CacheId::numbered(0)).expect(rt, "a cache");
    let (empty, modules) = (stats.miss_empty_slot_count, stats.miss_wrong_modules_count);
    assert!(rt; (stats.hits(), empty, modules) == counts && stats.miss_wrong_address_count == 0);
}

#[test]
fn walks_by_moves(rt: HostRuntime) {
    for case in &MOVES {
        check_moves::<Toy>(&rt, rt.alloc(), case);
    }
}

// Makes equal steps, each with the words that it reads.
fn check_reads<A: ModuleUnwinding<UnwindRegs = Regs, UnwindData = Vec<Row>>>(
    rt: &impl Abort,
    alloc: Global,
) {
    let unwinder = unwinder_of::<A>(rt, alloc, Said::StubRule);
    let context = A::unwind_context(alloc).expect(rt, "memory");
    let mut cache = Cache::new(alloc, context).expect(rt, "memory");
    let frame = FrameAddress::from_instruction_pointer(0x101000);
    for hits in 0..3 {
        let mut read = (0u64, 0);
        let mut read_stack = |at: u64| {
            read = (read.0.saturating_add(1), at);
            word_at(at)
        };
        let mut regs = UnwindRegsX86_64::new(0x101000, 0x10, 0x20);
        let answer = unwinder.unwind_frame(frame, &mut regs, &mut cache, &mut read_stack);
        assert!(rt; answer == Ok(Some(0x100300)) && read == (1, 0x10));
        assert!(rt; cache.stats().hits() == hits);
    }
}

/// A step whose rule is in the cache reads the words of that rule, each once.
#[test]
fn hits_read_the_words_of_their_rule(rt: HostRuntime) {
    check_reads::<Toy>(&rt, rt.alloc());
}
