//! Unwinders that are let go, and generations that come to an end.
use crate::tables::{Row, Said};
use crate::toy::{Toy, module, session_of};
use framehop_unwinder::{
    CacheId, Generations, GenerationsExhausted, LoadError, Module, ModuleUnwinding, StaleId,
    Unwinder, UnwinderId, UnwinderInternal,
};
use std::alloc::Global;
use std::process::Abort;

// Lets an unwinder go, and takes another.
fn check_slots<A: ModuleUnwinding<UnwindData = Vec<Row>>>(rt: &impl Abort, alloc: Global) {
    let mut session = session_of::<A>(rt, alloc, Said::StubRule);
    let (old, cache) = (UnwinderId::numbered(0), CacheId::numbered(0));
    assert!(rt; session.max_known_code_address(old) == Ok(0x102000));
    assert!(rt; session.remove_unwinder(old).is_ok());
    let new = session.add_unwinder(alloc).expect(rt, "memory");
    assert!(rt; old != new && session.has(new, cache) && !session.has(old, cache));
    assert!(rt; session.max_known_code_address(old) == Err(StaleId));
    assert!(rt; session.max_known_code_address(new) == Ok(0));
}

/// An unwinder in the slot of one that was let go has another id, and knows no code.
#[test]
fn unwinders_are_let_go(rt: HostRuntime) {
    check_slots::<Toy>(&rt, rt.alloc());
}

// Wants what a load without a number gives: why it is refused, and the module.
fn check_refused<D: Drop>(rt: &impl Abort, alloc: Global, error: LoadError<Module<D>>) {
    let text = error.to_string(alloc).expect(rt, "memory");
    assert!(rt; text.as_str() == "GenerationsExhausted");
    let module = error.into_module();
    let range = module.avma_range();
    assert!(rt; module.base_avma() == 0x100000 && module.name() == "m");
    assert!(rt; range.start == 0x100000 && range.end == 0x102000);
}

// Takes the last number, and loads and unloads afterwards.
fn check_last<A: ModuleUnwinding<UnwindData = Vec<Row>>>(rt: &impl Abort, alloc: Global) {
    let mut generations = Generations::starting_at(u64::MAX - 1);
    assert!(rt; generations.left() == 1);
    let unwinder = UnwinderInternal::<A>::new(alloc, &mut generations);
    let mut unwinder = unwinder.expect(rt, "a number");
    assert!(rt; generations.left() == 0);
    assert!(rt; UnwinderInternal::<A>::new(alloc, &mut generations).is_err());
    assert!(rt; generations.try_take() == Err(GenerationsExhausted));
    let refused = module(rt, alloc, Said::StubRule);
    match unwinder.add_module(&mut generations, refused) {
        Ok(()) => panic!(rt; "not refused"),
        Err(error) => check_refused(rt, alloc, error),
    }
    assert!(rt; unwinder.max_known_code_address() == 0);
    assert!(rt; unwinder.remove_module(&mut generations, 0x100000) == Ok(()));
}

/// The counter's last number is given once. A load without a number is refused, hands the module back and
/// leaves the unwinder without it.
#[test]
fn generations_come_to_an_end(rt: HostRuntime) {
    check_last::<Toy>(&rt, rt.alloc());
}
