//! A session that counts what was made in it, so that a caller goes by numbers.

ghost use Rattle.std.specs.Prelude.{◌≡◌};
ghost use Rattle.framehop_unwinder.specs.State.{empty_state};

use framehop_unwinder::{ModuleUnwinding, Session};
use std::alloc::Global;
use std::marker::Model;

/// A session, with how many unwinders and caches were made in it: the numbers of those that are made next.
#[derive(Drop)]
pub struct CountedSession<A: ModuleUnwinding> {
    pub(crate) session: Session<A>,
    pub(crate) unwinders: usize,
    pub(crate) caches: usize,
}

impl<A: ModuleUnwinding> Model for CountedSession<A> {
    ghost use Rattle.std.specs.Prelude.{◌≡◌, length};
    ghost use Rattle.framehop_unwinder.specs.State.{SessionState};

    ghost Value = { SessionState A.UnwindData A.UnwindRule };

    ghost view = { λ counted. counted.session };

    ghost invariant = { λ counted. (counted.unwinders ≡ length counted.session.unwinders)
        × (counted.caches ≡ length counted.session.caches) };
}

impl<A: ModuleUnwinding> CountedSession<A> {
    /// No unwinder and no cache.
    pub fn empty(alloc: Global) -> Self
        ensures { result ≡ empty_state 0 }
    {
        CountedSession {
            session: Session::empty(alloc),
            unwinders: 0,
            caches: 0,
        }
    }
}

/// Lets a session go. A type that has a session of one kind drops it by this call.
pub fn let_go<A: ModuleUnwinding>(session: CountedSession<A>) {
    drop(session);
}
