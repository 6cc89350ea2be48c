//! Sections of which bytes are missing or wrong.

mod expressions;
mod functions;
mod readings;
mod values;
