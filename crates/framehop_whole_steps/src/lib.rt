//! Steps by rows of call frames as DWARF says them (DWARF 5, 6.4.1 and 6.4.3): each register of the caller, by each register of the frame
//! that is known; and by rules, with the registers beside that are known.
#![tactic(auto)]

mod carrying;
mod found_row;
mod known;
mod laws;
mod registers;
mod row_step;
mod rule;

pub use carrying::CarriesRegisters;
pub use found_row::FoundRow;
pub use laws::rows_leave_what_they_give;
pub use registers::{REGISTERS, WholeRegs};
pub use row_step::step_by_row;
pub use rule::WholeRule;
