//! Lists of commands over unwinders that share caches: what each is answered, whatever the ones before
//! it did.
#![tactic(auto)]

mod commands;
pub mod laws;

pub use commands::{
    Answer, Command, clone_unwinder, load, new_cache, new_unwinder, new_walk, next_frame, perform,
    remove_cache, remove_unwinder, step, unload,
};
