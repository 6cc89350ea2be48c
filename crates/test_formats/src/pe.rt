//! Steps by Windows' unwind data.

mod cases;
mod refusals;
mod rows;
mod steps;
mod worked;
