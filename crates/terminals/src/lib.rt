// The terminals layer: a solver over any solver, with one rack and one bar in the network below in place of any number.
#![tactic(auto)]

mod network;
mod reading;
pub mod reduction;

use layering::Layer;
pub use reduction::WithoutTerminals;

pub type Terminals<B> = Layer<WithoutTerminals, B>;
