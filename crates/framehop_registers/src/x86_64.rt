//! The registers of x86_64, and lists of those that are popped.

mod pop_list;
mod register_ordering;
mod unwindregs;

pub use pop_list::PopList;
pub use register_ordering::{ORDER_COUNT, decode, encode, lists_by_order_numbers, set_by_number};
pub use unwindregs::{Reg, UnwindRegsX86_64};
