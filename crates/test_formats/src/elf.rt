//! ELF files.

mod notes;
mod numbering;
mod real;
mod real_files;
mod refusals;
mod worked;
