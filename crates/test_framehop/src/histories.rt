//! A list of commands over one module, on both architectures and under both policies, on the worked stack. `cases_unwinding` has others,
//! one by one.

ghost use Rattle.std.specs.Prelude.{IfOk};
ghost use Rattle.std.specs.List.{All};
ghost use Rattle.framehop_histories.specs.CommandViews.{OfCallback};

use crate::modules::module_with;
use crate::worked::word_at;
use framehop::aarch64::{self, SessionAarch64, UnwindRegsAarch64};
use framehop::histories::{Answer, Command};
use framehop::x86_64::{self, SessionX86_64, SlotCount, UnwindRegsX86_64};
use framehop::{
    AllocationPolicy, DwarfUnwindContext, Error, FrameAddress, MayAllocateDuringUnwind,
    MustNotAllocateDuringUnwind, Session,
};
use framehop_unwinder::Module;
use std::alloc::{AllocError, Global};
use std::collections::VecDeque;
use test_readers::WORKED;

/// A section of aarch64: a CIE, and an FDE of sixteen bytes of code at 0x1000, which pushes X29 and X30 by
/// its first instruction.
static PUSHES: [u8; 56] = [
    0x10, 0, 0, 0, 0, 0, 0, 0, 1, 0, 4, 0x78, 0x1e, 0x0c, 0x1f, 0, 0, 0, 0, 0, 0x1c, 0, 0, 0, 0x18,
    0, 0, 0, 0, 0x10, 0, 0, 0, 0, 0, 0, 0x10, 0, 0, 0, 0, 0, 0, 0, 0x41, 0x0e, 0x10, 0x9d, 2, 0x9e,
    1, 0, 0, 0, 0, 0,
];

// An unwinder, a cache, a module, and a step, if memory isn't refused.
fn commands_of<D: Drop, C: Drop, R: Copy, F: FnMut(u64) -> Result<u64, ()> + Drop>(
    alloc: Global,
    module: Result<Module<D>, AllocError>,
    context: Result<C, AllocError>,
    regs: R,
    read_stack: F,
) -> Result<VecDeque<Command<D, C, R, F>>, AllocError>
    requires { F.IsAlwaysCallable read_stack }
    ensures { IfOk result (λ commands. All (OfCallback F.IsAlwaysCallable) commands.items) }
{
    let address = FrameAddress::from_instruction_pointer(0x101000);
    let mut commands = VecDeque::new(alloc);
    commands.push_back(Command::NewUnwinder)?;
    commands.push_back(Command::NewCache(SlotCount::original(), context?))?;
    commands.push_back(Command::Load(0, module?))?;
    commands.push_back(Command::Step(0, 0, address, regs, read_stack))?;
    Ok(commands)
}

// Whether a command was refused memory.
fn is_refused<R: Copy>(answer: &Answer<R>) -> bool {
    matches!(
        answer,
        Answer::OutOfMemory | Answer::Stepped(Err(Error::OutOfMemory), _)
    )
}

/// Whether three commands are done, and the step finds its caller. Fails if one of them was refused memory.
fn are_wanted<R: Copy>(answers: &[Answer<R>]) -> Result<bool, AllocError> {
    if answers.iter().any(|answer| is_refused(answer)) {
        return Err(AllocError);
    }
    Ok(matches!(
        answers,
        [
            Answer::Added,
            Answer::Added,
            Answer::Added,
            Answer::Stepped(Ok(Some(0x100300)), _)
        ]
    ))
}

/// Whether the commands are answered as they should be on x86_64 under this policy.
fn holds_on_x86_64<P: AllocationPolicy>(alloc: Global) -> Result<bool, AllocError> {
    let module = module_with(alloc, WORKED.as_slice());
    let context = DwarfUnwindContext::<P>::new(alloc);
    let regs = UnwindRegsX86_64::new(0x101000, 0x10, 0x20);
    let mut commands = commands_of(alloc, module, context, regs, word_at)?;
    let mut session: SessionX86_64<&'static [u8], P> = Session::empty(alloc);
    are_wanted(&x86_64::perform(alloc, &mut session, &mut commands)?)
}

/// Whether the commands are answered as they should be on aarch64 under this policy.
fn holds_on_aarch64<P: AllocationPolicy>(alloc: Global) -> Result<bool, AllocError> {
    let module = module_with(alloc, PUSHES.as_slice());
    let context = DwarfUnwindContext::<P>::new(alloc);
    let regs = UnwindRegsAarch64::new(0x100300, 0x10, 0x20);
    let mut commands = commands_of(alloc, module, context, regs, word_at)?;
    let mut session: SessionAarch64<&'static [u8], P> = Session::empty(alloc);
    are_wanted(&aarch64::perform(alloc, &mut session, &mut commands)?)
}

#[test]
fn commands_are_answered_under_both_policies(rt: HostRuntime) {
    for answered in [
        holds_on_x86_64::<MayAllocateDuringUnwind>(rt.alloc()),
        holds_on_x86_64::<MustNotAllocateDuringUnwind>(rt.alloc()),
        holds_on_aarch64::<MayAllocateDuringUnwind>(rt.alloc()),
        holds_on_aarch64::<MustNotAllocateDuringUnwind>(rt.alloc()),
    ] {
        assert!(rt; answered.expect(&rt, "memory"));
    }
}
