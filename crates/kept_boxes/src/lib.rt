//! Boxes as their pointers, for those who hand a pointer to where no Rattle code is.
#![tactic(auto)]

mod kept_box;

pub use kept_box::KeptBox;
