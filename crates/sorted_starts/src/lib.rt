//! A search by halves among sorted starts: how many of them are at or below a limit, and how many were read to find out.
#![tactic(auto)]

mod halves;
mod starts;

pub use halves::{Halved, halve, halve_counted, halve_items};
pub use starts::{HasStart, Starts, count_at_most};
