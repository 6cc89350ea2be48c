//! Commands for which memory is refused.

ghost use Rattle.framehop_histories.specs.CommandViews.{OfCallback};

use crate::tables::{Row, Said};
use crate::toy::{Toy, module};
use crate::worked::word_at;
use framehop_histories::{Answer, Command, perform};
use framehop_registers::x86_64::UnwindRegsX86_64;
use framehop_rules::SlotCount;
use framehop_unwinder::{
    CacheId, Error, FrameAddress, Generations, Module, ModuleUnwinding, Session, UnwinderId,
};
use std::alloc::Global;
use std::collections::VecDeque;
use std::process::Abort;

type Regs = UnwindRegsX86_64;

/// What a step was answered, with the stack pointer and the frame pointer of its registers.
type Step = (Result<Option<u64>, Error>, u64, u64);

// One of five commands, which have to be done in this order.
fn command_of<D: Drop, F: FnMut(u64) -> Result<u64, ()> + Drop>(
    rt: &impl Abort,
    number: u64,
    there: &Module<D>,
    read_stack: F,
) -> Command<D, (), Regs, F>
    requires { F.IsAlwaysCallable read_stack }
    ensures { OfCallback F.IsAlwaysCallable result }
{
    match number {
        0 => Command::NewUnwinder,
        1 => Command::NewCache(SlotCount::original(), ()),
        2 => Command::Load(0, there.try_clone().expect(rt, "memory")),
        3 => Command::Clone(0),
        _ => {
            let address = FrameAddress::from_instruction_pointer(0x101000);
            let regs = UnwindRegsX86_64::new(0x101000, 0x10, 0x20);
            Command::Step(1, 0, address, regs, read_stack)
        }
    }
}

// What one of these commands is answered, unless it is refused: nothing more, but for a step.
fn answered<A: ModuleUnwinding<UnwindRegs = Regs, UnwindContext = ()>>(
    rt: &impl Abort,
    alloc: Global,
    session: &mut Session<A>,
    number: u64,
    there: &Module<A::UnwindData>,
) -> Option<Option<Step>> {
    let mut commands = VecDeque::new(alloc);
    let command = command_of(rt, number, there, word_at);
    commands.push_back(command).expect(rt, "memory");
    let Ok(answers) = perform(alloc, session, &mut commands) else {
        return None;
    };
    match answers.first() {
        Some(Answer::Added) => Some(None),
        Some(Answer::Stepped(answer, regs)) => Some(Some((*answer, regs.sp(), regs.bp()))),
        _ => None,
    }
}

// Which of the first unwinders and caches there are.
fn made<A: ModuleUnwinding>(session: &Session<A>) -> [bool; 5] {
    [
        session.has_unwinder(UnwinderId::numbered(0)),
        session.has_unwinder(UnwinderId::numbered(1)),
        session.has_unwinder(UnwinderId::numbered(2)),
        session.has_cache(CacheId::numbered(0)),
        session.has_cache(CacheId::numbered(1)),
    ]
}

// The commands' numbers, and what they are answered.
static ANSWERS: [(u64, Option<Step>); 5] = [
    (0, None),
    (1, None),
    (2, None),
    (3, None),
    (4, Some((Ok(Some(0x100300)), 0x18, 0x20))),
];

// Wants these answers.
fn check_commands<A: ModuleUnwinding<UnwindRegs = Regs, UnwindData = Vec<Row>, UnwindContext = ()>>(
    rt: &impl Abort,
    alloc: Global,
) {
    let there = module(rt, alloc, Said::StubRule);
    let mut session: Session<A> = Session::new(alloc, Generations::new());
    for &(number, wanted) in &ANSWERS {
        let before = made(&session);
        let mut answer = answered(rt, alloc, &mut session, number, &there);
        if answer.is_none() {
            assert!(rt; made(&session) == before);
            answer = answered(rt, alloc, &mut session, number, &there);
        }
        assert!(rt; answer.is_some(), "OutOfMemory");
        assert!(rt; answer == Some(wanted));
    }
}

/// A new unwinder, a new cache, a load, a clone and a step. Where memory is refused for one of them, as
/// `scripts/refuse-allocations` has it, nothing is done, and it is done when it is asked again.
#[test]
fn refused_commands_do_nothing(rt: HostRuntime) {
    check_commands::<Toy>(&rt, rt.alloc());
}
