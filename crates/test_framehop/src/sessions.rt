//! Sessions of one unwinder and one cache, by calls with plain results.
use crate::checks::{Check, check_on_x86_64};
use crate::modules::{Data, module_with, shared_section};
use crate::steps::{Registers, Stepped, frame_of};
use crate::worked::word_at;
use framehop::x86_64::UnwindRegsX86_64;
use framehop::{
    CacheId, Error, FrameAddress, Generations, ModuleUnwinding, Session, StackWalk, UnwinderId,
};
use std::alloc::Global;
use std::process::Abort;

/// A session with an unwinder and a cache. What is refused once is asked for again.
pub fn session_of<A: ModuleUnwinding>(rt: &impl Abort, alloc: Global) -> Session<A> {
    let mut session = Session::new(alloc, Generations::new());
    if session.add_unwinder(alloc).is_err() {
        session.add_unwinder(alloc).expect(rt, "memory");
    }
    if session.add_cache(alloc).is_err() {
        session.add_cache(alloc).expect(rt, "memory");
    }
    session
}

/// What a step over the worked stack in an unwinder gives, and the registers that it leaves, if the unwinder and a cache are there.
pub fn step<A: ModuleUnwinding<UnwindRegs = UnwindRegsX86_64>>(
    session: &mut Session<A>,
    unwinder: usize,
    is_first: bool,
    (ip, sp, bp): Registers,
) -> Option<Stepped> {
    let (unwinder, cache) = (UnwinderId::numbered(unwinder), CacheId::numbered(0));
    let frame = frame_of(is_first, ip)?;
    let mut regs = UnwindRegsX86_64::new(ip, sp, bp);
    let mut read_stack = word_at;
    match session.step(unwinder, cache, frame, &mut regs, &mut read_stack) {
        Ok(answer) => Some((answer, (regs.ip(), regs.sp(), regs.bp()))),
        Err(_) => None,
    }
}

/// The next frame of a walk, if there are an unwinder and a cache.
pub fn next_frame<A: ModuleUnwinding, F: FnMut(u64) -> Result<u64, ()> + Drop>(
    session: &mut Session<A>,
    walk: &mut StackWalk<A::UnwindRegs>,
    mut read_stack: F,
) -> Option<Result<Option<FrameAddress>, Error>>
    requires { F.IsAlwaysCallable read_stack }
{
    let (unwinder, cache) = (UnwinderId::numbered(0), CacheId::numbered(0));
    match session.next_frame(unwinder, cache, walk, &mut read_stack) {
        Ok(answer) => Some(answer),
        Err(_) => None,
    }
}

/// The worked section with another row, which no rule expresses: the return address is at the stack pointer, three words below the CFA.
static THREE_WORDS_BELOW: [u8; 56] = [
    0x10, 0, 0, 0, 0, 0, 0, 0, 1, 0, 1, 0x78, 0x10, 0x0c, 7, 24, 0x90, 3, 0, 0, 0x1c, 0, 0, 0,
    0x18, 0, 0, 0, 0, 0x10, 0, 0, 0, 0, 0, 0, 0x10, 0, 0, 0, 0, 0, 0, 0, 0x41, 0x0e, 0x10, 0x86, 2,
    0x43, 0x0d, 6, 0, 0, 0, 0,
];

// Zero at the stack pointer, and an address at all others.
fn null_at_first(at: u64) -> Result<u64, ()> {
    Ok(if at == 0x10 { 0 } else { 0x100300 })
}

/// What the moves of a walk give, and the stack pointers then.
static MOVES: [(Result<Option<u64>, Error>, u64); 3] = [
    (Ok(Some(0x101000)), 0x10),
    (Err(Error::ReturnAddressIsNull), 0x28),
    (Ok(Some(0x100300)), 0x40),
];

/// Wants these of a walk in a module with that row.
pub fn check_moves<A: ModuleUnwinding<UnwindRegs = UnwindRegsX86_64, UnwindData = Data>>(
    rt: &impl Abort,
    alloc: Global,
) {
    let section = shared_section(alloc, &THREE_WORDS_BELOW).expect(rt, "memory");
    let module = module_with(alloc, section).expect(rt, "memory");
    let mut session = session_of::<A>(rt, alloc);
    let is_loaded = matches!(session.load(UnwinderId::numbered(0), module), Ok(Ok(())));
    assert!(rt; is_loaded, "OutOfMemory");
    let mut walk = StackWalk::new(0x101000, UnwindRegsX86_64::new(0x101000, 0x10, 0x20));
    for (wanted, sp) in &MOVES {
        let moved = match next_frame(&mut session, &mut walk, null_at_first) {
            Some(Ok(Some(frame))) => Ok(Some(frame.address())),
            Some(Err(error)) => Err(error),
            _ => Ok(None),
        };
        assert!(rt; moved == *wanted && walk.regs().sp() == *sp);
    }
}

/// After a return address of 0 a walk is at its old frame, with the registers of the caller: the next move steps from there, and here it
/// finds a caller that isn't null.
#[test]
fn walks_have_the_callers_registers_after_a_return_address_of_0(rt: HostRuntime) {
    check_on_x86_64(&rt, rt.alloc(), Check::MovesBehindZero);
}
