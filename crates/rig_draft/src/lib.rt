// A rig that is being read: what a text's lines have made of it so far.
#![tactic(auto)]

mod counting;
mod following;
pub mod taking;

use rig_drawing::RigDrawing;
use rig_lines::Form;

// What the head of a text tells: its form, and the number of runs that it announces.
#[derive(Clone, Copy)]
pub struct Head {
    pub form: Form,
    pub runs: u32,
}

// The rig so far, and the head once it was read. Before the head the rig is of no account.
#[derive(Drop)]
pub struct Draft {
    pub rig: RigDrawing,
    pub head: Option<Head>,
}
