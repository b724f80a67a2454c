// A solver by Dinic's method: level searches from the rack and blocking flows.
#![tactic(auto)]

mod solver;

pub use solver::Dinic;
