// A solver by FIFO push-relabel: the active points are served first in, first out.
#![tactic(auto)]

mod solver;

pub use solver::PushRelabel;
