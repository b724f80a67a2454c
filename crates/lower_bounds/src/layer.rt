// The layer's own memory.
use drawing::Record;
use scratch::Workspace;

// Over the solver below, with memory for a network below and for the answers to the first and to the second.
#[derive(Drop)]
pub struct LowerBounds<B> {
    below: B,
    workspace: Workspace,
    first: Record,
    second: Record,
}

mod network;
mod reading;
mod solving;
