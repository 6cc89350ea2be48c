//! What sessions free once processes are let go: the holders of a section are counted.

use crate::checks::{Check, check_on_x86_64};
use crate::modules::{Data, Shared, module_with};
use crate::sessions::step;
use crate::steps::{BY_WORD, FIRST, Stepped};
use framehop::x86_64::UnwindRegsX86_64;
use framehop::{CacheId, ModuleUnwinding, Session, UnwinderId};
use std::alloc::{AllocError, Global};
use std::process::Abort;
use std::rc::Rc;
use test_readers::WORKED;

// A section.
fn worked_section(alloc: Global) -> Result<Rc<Vec<u8>>, AllocError> {
    Ok(Rc::new(alloc, WORKED.to_vec(alloc)?)?)
}

// A session of processes that are still to be made, with a cache.
fn new_session<A: ModuleUnwinding>(rt: &impl Abort, alloc: Global) -> Session<A> {
    let mut session = Session::empty(alloc);
    session.add_cache(alloc).expect(rt, "memory");
    session
}

// What becomes of a process.
enum Turn {
    Begin,
    Load,
    Unload,
    Clone,
    End,
}

// Takes a turn with a process, for which a module with the section may be needed.
fn take<A: ModuleUnwinding<UnwindData = Data>>(
    rt: &impl Abort,
    alloc: Global,
    session: &mut Session<A>,
    section: &Rc<Vec<u8>>,
    turn: &Turn,
    process: usize,
) {
    let bytes = section.clone().expect(rt, "memory");
    let module = module_with(alloc, Shared { bytes }).expect(rt, "memory");
    let process = UnwinderId::numbered(process);
    let is_done = match turn {
        Turn::Begin => session.add_unwinder(alloc).is_ok(),
        Turn::Load => matches!(session.load(process, module), Ok(Ok(()))),
        Turn::Unload => matches!(session.unload(process, 0x100000), Ok(Ok(()))),
        Turn::Clone => matches!(session.clone_unwinder(alloc, process), Ok(Ok(_))),
        Turn::End => session.remove_unwinder(process).is_ok(),
    };
    assert!(rt; is_done, "OutOfMemory");
}

/// Turns with the numbers of their processes, how many hold the section then, and whether steps in the first process and in the second go
/// by its row.
static TURNS: [(Turn, usize, usize, bool, bool); 8] = [
    (Turn::Begin, 0, 1, false, false),
    (Turn::Load, 0, 2, true, false),
    (Turn::Clone, 0, 2, true, true),
    (Turn::End, 0, 2, false, true),
    (Turn::Unload, 1, 1, false, false),
    (Turn::Load, 1, 2, false, true),
    (Turn::Load, 1, 3, false, true),
    (Turn::End, 1, 1, false, false),
];

/// What a step by the section's row gives.
const BY_ROW: Option<Stepped> = Some((Ok(Some(0x100300)), BY_WORD));

/// Takes these turns.
pub fn check_turns<A: ModuleUnwinding<UnwindRegs = UnwindRegsX86_64, UnwindData = Data>>(
    rt: &impl Abort,
    alloc: Global,
) {
    let section = worked_section(alloc).expect(rt, "memory");
    let mut session = new_session::<A>(rt, alloc);
    for (turn, process, holders, first, second) in &TURNS {
        take(rt, alloc, &mut session, &section, turn, *process);
        assert!(rt; Rc::strong_count(&section) == *holders);
        assert!(rt; (step(&mut session, 0, true, FIRST) == BY_ROW) == *first);
        assert!(rt; (step(&mut session, 1, true, FIRST) == BY_ROW) == *second);
    }
}

/// A module is held by the processes that have it, and freed with the last of them.
#[test]
fn modules_are_freed(rt: HostRuntime) {
    check_on_x86_64(&rt, rt.alloc(), Check::Turns);
}

/// Makes a thousand processes, and lets each go after the three that follow it are made.
pub fn check_thousand<A: ModuleUnwinding<UnwindRegs = UnwindRegsX86_64, UnwindData = Data>>(
    rt: &impl Abort,
    alloc: Global,
) {
    let section = worked_section(alloc).expect(rt, "memory");
    let mut session = new_session::<A>(rt, alloc);
    for number in 0..1000usize {
        take(rt, alloc, &mut session, &section, &Turn::Begin, number);
        take(rt, alloc, &mut session, &section, &Turn::Load, number);
        assert!(rt; step(&mut session, number, true, FIRST) == BY_ROW);
        if let Some(last) = number.checked_sub(3) {
            take(rt, alloc, &mut session, &section, &Turn::End, last);
            assert!(rt; Rc::strong_count(&section) == 4);
        }
    }
    let stats = session.stats(CacheId::numbered(0)).expect(rt, "a cache");
    assert!(rt; stats.hits() == 0);
}

/// A thousand processes come and go, up to four at a time. `scripts/memory-level` counts the memory that they take.
#[test]
fn processes_come_and_go(rt: HostRuntime) {
    check_on_x86_64(&rt, rt.alloc(), Check::Thousand);
}
