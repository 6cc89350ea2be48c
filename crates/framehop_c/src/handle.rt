//! What C holds of a session: a pointer that it passes on.

ghost use Rattle.std.specs.Prelude.{◌≡◌, Some, None, Option, MatchOption};
ghost use Rattle.framehop_c.specs.declared.session.AnySession.{AnySession};
ghost use Rattle.framehop_c.specs.contracts.session.AnySession.{the_row};
ghost use Rattle.framehop_calls.specs.Statuses.{no_value};
ghost use Rattle.framehop_c.specs.Held.{held};
ghost use Rattle.framehop_c.specs.Sessions.{DoesIn};

use crate::session::{AnySession, SessionCall};
use framehop_calls::status::NO_VALUE;
use kept_boxes::KeptBox;
use std::alloc::Global;
use std::marker::Model;
use std::{mem, ptr};

/// A session, or none: null. Only this module's functions make one or take one apart.
#[repr(C)]
pub struct SessionHandle {
    at: *mut u8,
    pub ghost value: { Option AnySession },
}

impl Model for SessionHandle {
    ghost also_owns = { λ handle. held the_row handle.at handle.value };
}

impl SessionHandle {
    /// No session.
    pub fn empty() -> SessionHandle
        ensures { result.value ≡ None }
    {
        SessionHandle {
            at: ptr::null_mut(),
        }
    }

    /// A session that is kept by its pointer.
    pub fn of(kept: KeptBox<AnySession, Global>) -> SessionHandle
        ensures { result.value ≡ Some kept.value }
    {
        let KeptBox { at, alloc: _ } = kept;
        SessionHandle { at: at as *mut u8 }
    }

    /// The session, if there is one.
    pub fn into_kept(self, alloc: Global) -> Option<KeptBox<AnySession, Global>>
        ensures { MatchOption result (self.value ≡ None) (λ kept. self.value ≡ Some kept.value) }
    {
        let SessionHandle { at } = self;
        if at.is_null() {
            return None;
        }
        Some(KeptBox {
            at: at as *mut AnySession,
            alloc,
        })
    }

    /// Takes the session out of the handle, if there is one.
    pub fn take(&mut self, alloc: Global) -> Option<Box<AnySession>>
        ensures taken { MatchOption result (self.old.value ≡ None) (λ session. self.old.value ≡ Some session.value) }
        ensures left { self.new.value ≡ None }
    {
        match mem::replace(self, SessionHandle::empty()).into_kept(alloc) {
            Some(kept) => Some(kept.into_box()),
            None => None,
        }
    }

    /// Puts a session into the handle. What it had is freed.
    pub fn put(&mut self, alloc: Global, session: Box<AnySession>)
        ensures { self.new.value ≡ Some session.value }
    {
        let handle = SessionHandle::of(KeptBox::of(session));
        if let Some(kept) = mem::replace(self, handle).into_kept(alloc) {
            drop(kept.into_box());
        }
    }

    /// Makes a call on the session, if there is one.
    pub(crate) fn call<C: SessionCall>(&mut self, alloc: Global, call: &mut C) -> u32
        ensures made { DoesIn (C.does call.old call.new result) self.old.value self.new.value }
        ensures none { self.old.value ≡ None → (result ≡ no_value) × (call.new ≡ call.old) }
    {
        let Some(mut session) = self.take(alloc) else {
            return NO_VALUE;
        };
        let status = session.make(call);
        self.put(alloc, session);
        status
    }
}
