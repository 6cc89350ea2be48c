//! The registers of each architecture, frame addresses, errors, and callbacks that read the stack.
#![tactic(auto)]

pub mod aarch64;
mod add_signed;
mod callback;
mod code_address;
mod display_utils;
mod error;
pub mod x86_64;

pub use add_signed::{AddSigned, checked_add_signed, wrapping_add_signed};
pub use callback::{Statement, calls_over_words, one_read_over_words, reads_in_order};
pub use code_address::FrameAddress;
pub use display_utils::HexNum;
pub use error::Error;
