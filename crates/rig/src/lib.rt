// A rig: its drawing, its standing, and the calls by which it is changed, solved and asked.
#![tactic(auto)]

pub mod lists;
pub mod rig;

pub use lists::play;
pub use rig::Rig;
