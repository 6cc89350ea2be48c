//! Instructions of x86_64 in 64-bit mode: how many bytes each has, and what it does to the stack pointer and to the general registers that
//! a function keeps for its caller, as far as a way out of a function asks.
//!
//! No crate uses this one yet.
#![tactic(auto)]

mod address;
mod bytes;
mod effect;
mod fields;
mod instruction;
mod laws;
mod layout;
mod maps;
mod modrm;
mod numbers;
mod opcode;
mod operands;
mod prefixes;
mod registers;
mod writes;
mod written;

pub use address::{Address, Base};
pub use effect::Effect;
pub use framehop_registers::x86_64::Reg;
pub use instruction::{DecodeError, Instruction};
pub use laws::told_by_its_bytes;
pub use registers::Registers;
