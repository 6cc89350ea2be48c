//! The unwinder, called from C: what `include/framehop.h` declares, over sessions of either architecture whose sections are lent. Each
//! function answers a status, and a call that answers an error leaves the session as it was.
#![tactic(auto)]

mod caches;
mod files;
mod handle;
mod modules;
mod session;
mod sessions;
mod steps;
mod unwinders;
mod walks;
