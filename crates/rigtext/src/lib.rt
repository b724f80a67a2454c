// The reader of a rig's text: line by line, or the whole text at once.
#![tactic(auto)]

mod guard;
pub mod reader;

pub use reader::Reader;
pub use reader::whole::{ReadError, read};
