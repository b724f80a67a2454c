// The drawing of a rig: a drawing that keeps a rig's bounds, and the changes that keep them.
#![tactic(auto)]

pub mod bounded;

pub use bounded::RigDrawing;
pub use bounded::making::MakeError;
