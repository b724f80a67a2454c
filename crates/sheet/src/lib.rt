// The sheet of an answer, and the line that tells a fault, byte by byte.
#![tactic(auto)]

mod lines;
mod numbers;
mod writing;

pub use writing::{short_worth, write_fault, write_sheet};
