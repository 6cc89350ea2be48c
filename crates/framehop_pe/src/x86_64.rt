//! Windows on x64.

mod pe;
