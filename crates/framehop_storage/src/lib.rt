//! A list in place that costs little to make, for the rules of rows.
#![tactic(auto)]

mod in_place_vec;

pub use in_place_vec::InPlaceVec;
