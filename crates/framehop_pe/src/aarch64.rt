//! Windows on aarch64, whose unwind data aren't read.

mod pe;
