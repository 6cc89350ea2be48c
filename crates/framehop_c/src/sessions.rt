//! Sessions, for C.

ghost use Rattle.std.specs.Prelude.{◌≡◌, ◌≢◌, ◌∷◌, [], true, None, IsSome};
ghost use Rattle.framehop_calls.specs.Statuses.{bad_argument, is_among, no_value, ok, out_of_memory};
ghost use Rattle.framehop_c.specs.Sessions.{new_session};

use crate::handle::SessionHandle;
use crate::session::AnySession;
use framehop_calls::CountedSession;
use framehop_calls::status::{BAD_ARGUMENT, NO_VALUE, OK, OUT_OF_MEMORY};
use std::alloc::Global;

/// The version of the header: major, minor and patch, 8 bits each.
const VERSION: u32 = 0x100;

/// The version of the header that this is.
#[unsafe(no_mangle)]
pub extern "C" fn framehop_version() -> u32
    ensures { result ≡ 256 }
{
    VERSION
}

// A session without an unwinder and a cache, of the architecture of a number.
fn new_session(alloc: Global, architecture: u32) -> Option<AnySession>
    ensures { result ≡ new_session architecture }
{
    match architecture {
        0 => Some(AnySession::X86_64(CountedSession::empty(alloc))),
        1 => Some(AnySession::Aarch64(CountedSession::empty(alloc))),
        _ => None,
    }
}

/// Puts a session of an architecture, without an unwinder and a cache, in place of what was there, which is freed.
#[unsafe(no_mangle)]
pub extern "C" fn framehop_session_new(
    alloc: Global,
    session: &mut SessionHandle,
    architecture: u32,
) -> u32
    ensures made { result ≡ ok → session.new.value ≡ new_session architecture }
    ensures some { result ≡ ok → IsSome session.new.value }
    ensures refused { result ≢ ok → session.new.value ≡ session.old.value }
    ensures number { new_session architecture ≡ None → result ≡ bad_argument }
    ensures statuses { is_among result (ok ∷ bad_argument ∷ out_of_memory ∷ []) ≡ true }
{
    let Some(made) = new_session(alloc, architecture) else {
        return BAD_ARGUMENT;
    };
    match Box::new(alloc, made) {
        Ok(made) => {
            session.put(alloc, made);
            OK
        }
        Err(_) => OUT_OF_MEMORY,
    }
}

/// Frees a session, and leaves none.
#[unsafe(no_mangle)]
pub extern "C" fn framehop_session_free(alloc: Global, session: &mut SessionHandle) -> u32
    ensures left { session.new.value ≡ None }
    ensures none { session.old.value ≡ None → result ≡ no_value }
    ensures done { IsSome session.old.value → result ≡ ok }
{
    match session.take(alloc) {
        Some(session) => {
            drop(session);
            OK
        }
        None => NO_VALUE,
    }
}
