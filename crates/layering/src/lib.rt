// A layer: a solver over any solver, which hands each drawing on as another network and reads the answer found to it.
#![tactic(auto)]

mod layer;
mod reduction;

pub use layer::Layer;
pub use reduction::Reduction;
