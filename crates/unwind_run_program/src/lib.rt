//! A document of commands for the unwinder, and the program's run over it: the commands, carried out in a session of unwinders and caches,
//! and the lines that they write, on any architecture, for every kind of data that modules are unwound by.
#![tactic(auto)]

mod alone;
mod arch;
mod commands;
pub mod laws;
mod lines;
mod perform;
mod program;
mod replies;
mod roads;
mod sections;

pub use alone::step_alone;
pub use commands::{
    LimitedWalk, Written, add_cache, add_unwinder, clone_unwinder, load, occupancy, remove_cache,
    remove_unwinder, stats, unload, walk,
};
pub use json_program::{Outcome, Program, RunError, Sink, Source, StreamError, Streamed};
pub use program::{UnwindCommands, run};
pub use replies::ErrorName;
