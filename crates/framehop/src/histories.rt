//! Commands over unwinders that share caches, one by one or as a list ([`perform`]): each answer is that of
//! the command alone, whatever the commands before it did.

pub use framehop_histories::{
    Answer, Command, clone_unwinder, laws, load, new_cache, new_unwinder, new_walk, next_frame,
    perform, remove_cache, remove_unwinder, step, unload,
};
