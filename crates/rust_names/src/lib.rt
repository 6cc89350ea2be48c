//! Names of Rust as compilers mangle them: by the scheme v0, `_R` and a path (RFC 2603), or by the legacy scheme, `_ZN`,
//! the parts of a path with their lengths, a hash, and `E`.
#![tactic(auto)]

mod escapes;
mod grammar;
mod legacy;
mod machine;
mod names;
mod numbers;
mod punycode;
mod reading;
mod symbol;
mod tables;
mod texts;

pub use names::{STEPS_PER_BYTE, demangled};
pub use symbol_text::{Failure, TEXT_LIMIT};
