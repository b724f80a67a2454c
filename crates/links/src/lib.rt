// The links layer: a solver over any solver, with two leads in place of each link in the network below.
#![tactic(auto)]

mod network;
mod reading;
pub mod reduction;

use layering::Layer;
pub use reduction::WithoutLinks;

pub type Links<B> = Layer<WithoutLinks, B>;
