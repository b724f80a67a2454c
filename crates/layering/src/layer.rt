// The layer's own memory.
use drawing::Record;
use scratch::Workspace;
use std::marker::PhantomData;

// By a reduction R over the solver below, with memory for the network below and for the answer to it.
#[derive(Drop)]
pub struct Layer<R, B> {
    below: B,
    workspace: Workspace,
    found: Record,
    reduction: PhantomData<R>,
}

mod solving;
