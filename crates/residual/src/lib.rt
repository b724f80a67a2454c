// Residual networks: what solvers by augmenting or by pushing share.
//
// Points are numbered as in the drawing, from 1; place 0 of a list by points is not used.
// Arc 2k is run k + 1 forward and arc 2k + 1 the same run backward.
#![tactic(auto)]

mod laying;
mod memory;
mod net;
mod saying;

pub use laying::lay;
pub use memory::Residual;
pub use net::{Leaving, Loaded, Net, carry, mate};
pub use saying::plain_statements;
