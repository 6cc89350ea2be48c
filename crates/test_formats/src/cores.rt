//! Core files.

mod ends;
mod expected;
mod listed;
mod masks;
mod memory;
mod notes;
mod parts;
mod real;
mod real_cores;
mod registers;
