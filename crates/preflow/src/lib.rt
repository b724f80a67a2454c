// A largest flow by FIFO push-relabel: preflows, heights, and a queue of the active points; a search backward from the
// sink raises the heights every 128 turns.
#![tactic(auto)]

mod between;
mod turns;
mod work;

pub use work::plan;
