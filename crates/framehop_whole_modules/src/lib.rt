//! Modules that are unwound by rows of call frames as DWARF says them (DWARF 5, 6.4.1 and 6.4.3), where their load asks for that; all
//! others are unwound as those of [`framehop`].
#![tactic(auto)]

mod arch;
pub mod laws;
mod module_rows;

pub use arch::ByWholeRows;
pub use framehop_whole_steps::{CarriesRegisters, REGISTERS, WholeRegs, WholeRule};
