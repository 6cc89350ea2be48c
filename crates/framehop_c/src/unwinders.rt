//! Unwinders, for C.

ghost use Rattle.std.specs.Prelude.{◌≡◌, None};
ghost use Rattle.framehop_calls.specs.Calls.{AddsUnwinder, ClonesUnwinder, RemovesUnwinder};
ghost use Rattle.framehop_calls.specs.Statuses.{no_value};
ghost use Rattle.framehop_c.specs.Sessions.{DoesIn};

use crate::handle::SessionHandle;
use crate::session::{LentData, SessionCall};
use framehop::ModuleUnwinding;
use framehop_calls::CountedSession;
use std::alloc::Global;

// Makes an unwinder without a module, and writes its number.
#[derive(Clone, Copy)]
struct AddUnwinder {
    alloc: Global,
    unwinder: u64,
}

impl SessionCall for AddUnwinder {
    ghost does = { λ old new status R. AddsUnwinder status old.unwinder new.unwinder };

    fn make<A: ModuleUnwinding<UnwindData = LentData>>(
        &mut self,
        session: &mut CountedSession<A>,
    ) -> u32 {
        session.add_unwinder(self.alloc, &mut self.unwinder)
    }
}

// Makes an unwinder with the modules of another, and writes its number.
#[derive(Clone, Copy)]
struct CloneUnwinder {
    alloc: Global,
    unwinder: u64,
    clone: u64,
}

impl SessionCall for CloneUnwinder {
    ghost does = { λ old new status R. ClonesUnwinder status old.unwinder old.clone new.clone };

    fn make<A: ModuleUnwinding<UnwindData = LentData>>(
        &mut self,
        session: &mut CountedSession<A>,
    ) -> u32 {
        session.clone_unwinder(self.alloc, self.unwinder, &mut self.clone)
    }
}

// Lets an unwinder go, with its modules.
#[derive(Clone, Copy)]
struct RemoveUnwinder {
    unwinder: u64,
}

impl SessionCall for RemoveUnwinder {
    ghost does = { λ old new status R. RemovesUnwinder status old.unwinder };

    fn make<A: ModuleUnwinding<UnwindData = LentData>>(
        &mut self,
        session: &mut CountedSession<A>,
    ) -> u32 {
        session.remove_unwinder(self.unwinder)
    }
}

/// Makes an unwinder without a module, and writes its id.
#[unsafe(no_mangle)]
pub extern "C" fn framehop_add_unwinder(
    alloc: Global,
    session: &mut SessionHandle,
    unwinder: &mut u64,
) -> u32
    ensures adds { DoesIn (λ R. AddsUnwinder result unwinder.old unwinder.new) session.old.value session.new.value }
    ensures none { session.old.value ≡ None → (result ≡ no_value) × (unwinder.new ≡ unwinder.old) }
{
    let mut call = AddUnwinder {
        alloc,
        unwinder: *unwinder,
    };
    let status = session.call(alloc, &mut call);
    *unwinder = call.unwinder;
    status
}

/// Makes an unwinder with the modules of another, and writes its id.
#[unsafe(no_mangle)]
pub extern "C" fn framehop_clone_unwinder(
    alloc: Global,
    session: &mut SessionHandle,
    unwinder: u64,
    clone: &mut u64,
) -> u32
    ensures clones { DoesIn (λ R. ClonesUnwinder result unwinder clone.old clone.new) session.old.value session.new.value }
    ensures none { session.old.value ≡ None → (result ≡ no_value) × (clone.new ≡ clone.old) }
{
    let mut call = CloneUnwinder {
        alloc,
        unwinder,
        clone: *clone,
    };
    let status = session.call(alloc, &mut call);
    *clone = call.clone;
    status
}

/// Lets an unwinder go, with its modules.
#[unsafe(no_mangle)]
pub extern "C" fn framehop_remove_unwinder(
    alloc: Global,
    session: &mut SessionHandle,
    unwinder: u64,
) -> u32
    ensures removes { DoesIn (λ R. RemovesUnwinder result unwinder) session.old.value session.new.value }
    ensures none { session.old.value ≡ None → result ≡ no_value }
{
    session.call(alloc, &mut RemoveUnwinder { unwinder })
}
