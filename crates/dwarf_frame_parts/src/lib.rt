//! Programs of call frame instructions executed without a context: of each row no more is kept than the parts that a step asks for
//! (DWARF 5, 6.4.1 to 6.4.3).
#![tactic(auto)]

mod execution;
mod left;
mod parts;
mod parts_rows;
mod parts_state;
mod simple_row;

pub use left::{LeftByCie, left_by_cie};
pub use parts::{Parts, parts_of_row};
pub use parts_rows::{Advance, FdeProgram, PartsAt, PartsRows, parts_for_address};
pub use parts_state::{MAX_ROWS, MAX_RULES};
pub use simple_row::{Columns, SimpleRow};
