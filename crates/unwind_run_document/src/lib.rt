//! A document of commands for the unwinder: a text of JSON in, typed commands or the first fault out.
#![tactic(auto)]

mod command;
mod document;
mod load;
mod made;
mod options;
mod registers;
mod roads;
mod step;
mod walk;

pub use command::{
    AddressRange, Command, FrameKind, LoadCommand, RoadsCommand, Stack, StatedLookup,
    StatedOptions, StatedRows, StatedSection, StatedTables, StepCommand, UnloadCommand,
    WalkCommand,
};
pub use document::{Architecture, COMMAND_LIMIT, Document, Policy, WALK_LIMIT, decode};
pub use registers::{REGISTER_NUMBERS, StatedRegisters};
