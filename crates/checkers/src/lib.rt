// Run-time checks: what a solver asks of a drawing before it solves, and what a caller can check of an answer.
#![tactic(auto)]

mod admission;
mod admitted;
mod answers;
mod labels;
mod plans;

pub use admission::{admit, units};
pub use answers::is_right;
pub use labels::{is_cut, is_shortage, worth};
pub use plans::{is_feasible, total};
