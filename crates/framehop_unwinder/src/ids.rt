//! What the unwinders and the caches of a session go by.

ghost use Rattle.std.specs.Prelude.{◌≡◌};
ghost use Rattle.framehop_unwinder.specs.IdViews.{cache_number, unwinder_number};

use crate::numbered::Place;
use thiserror::Error;

/// An unwinder of a session. No other unwinder of the session is ever given it, so that one that was let
/// go is told from all that live.
#[derive(Debug, Clone, Copy, PartialEq, Eq)]
pub struct UnwinderId {
    pub(crate) place: Place,
}

/// A cache of a session. No other cache of the session is ever given it, so that one that was let go is
/// told from all that live.
#[derive(Debug, Clone, Copy, PartialEq, Eq)]
pub struct CacheId {
    pub(crate) place: Place,
}

/// The session has no unwinder or cache of this id: it was let go, or never made.
#[derive(Debug, Clone, Copy, PartialEq, Eq, Error)]
#[error("StaleId")]
pub struct StaleId;

impl UnwinderId {
    /// The unwinder that is made after so many others, for callers who count.
    pub fn numbered(number: usize) -> Self
        ensures { unwinder_number result ≡ number }
    {
        let place = Place {
            number: number as u64,
            slot: number,
        };
        UnwinderId { place }
    }
}

impl CacheId {
    /// The cache that is made after so many others, for callers who count.
    pub fn numbered(number: usize) -> Self
        ensures { cache_number result ≡ number }
    {
        let place = Place {
            number: number as u64,
            slot: number,
        };
        CacheId { place }
    }
}
