// Memory that a layer keeps from solve to solve, and writing within the room that there is.
#![tactic(auto)]

mod copying;
mod points;
pub mod workspace;

pub use copying::{copy_into, file_shortage, lead, push_within};
pub use points::push_points;
pub use workspace::Workspace;
