//! Tests of unwind rules, their cache and the lists of registers that they pop; of modules' sections, of unwinders that share caches, of
//! walks, and of commands that are refused, over modules that are tables; of indexes and sessions over sections; and of the list that rows
//! keep rules in; and of programs: the text of backtraces, the files of a core's process and the stacks of its threads, and runs over
//! documents, at the limits and over streams that fail, stop short or are interrupted. All go by public calls alone. `cases_unwinding` has
//! steps, walks and sequences of commands as worked documents.
#![tactic(auto)]

#[cfg(test)]
mod aarch64;
#[cfg(test)]
mod arch;
#[cfg(test)]
mod build_ids;
#[cfg(test)]
mod bytes;
#[cfg(test)]
mod caches;
mod callers;
#[cfg(test)]
mod calls;
#[cfg(test)]
mod cfi_index;
#[cfg(test)]
mod checks;
#[cfg(test)]
mod code;
#[cfg(test)]
mod commands;
#[cfg(test)]
mod core_walks;
#[cfg(test)]
mod cores;
#[cfg(test)]
mod ends;
#[cfg(test)]
mod file_sections;
mod headers;
#[cfg(test)]
mod histories;
#[cfg(test)]
mod in_place_vec;
#[cfg(test)]
mod let_go;
#[cfg(test)]
mod limits;
#[cfg(test)]
mod locations;
#[cfg(test)]
mod memory;
#[cfg(test)]
mod modules;
#[cfg(test)]
mod object;
#[cfg(test)]
mod pop_lists;
#[cfg(test)]
mod process;
#[cfg(test)]
mod program;
#[cfg(test)]
mod registers;
#[cfg(test)]
mod row_edges;
#[cfg(test)]
mod rule_cache;
#[cfg(test)]
mod rules;
#[cfg(test)]
mod rules_aarch64;
#[cfg(test)]
mod sections;
#[cfg(test)]
mod sessions;
#[cfg(test)]
mod small_core;
#[cfg(test)]
mod stacks;
#[cfg(test)]
mod steps;
#[cfg(test)]
mod streams;
#[cfg(test)]
mod sums;
mod tables;
#[cfg(test)]
mod text;
#[cfg(test)]
mod texts;
#[cfg(test)]
mod toy;
#[cfg(test)]
mod walks;
#[cfg(test)]
mod worked;

pub use callers::{addresses_of, answers_to};
pub use headers::worked_header_is_truthful;
pub use tables::{Row, Said, Tables};
