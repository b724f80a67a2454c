// The limits layer: a solver over any solver, with a lead in place of each limit in the network below.
#![tactic(auto)]

mod network;
mod reading;
pub mod reduction;

use layering::Layer;
pub use reduction::WithoutLimits;

pub type Limits<B> = Layer<WithoutLimits, B>;
