// A largest flow by Dinic's phases, each a level search and a blocking flow with current arcs.
#![tactic(auto)]

mod layers;
mod phases;
mod work;

pub use work::plan;
