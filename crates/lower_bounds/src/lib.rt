// The lower-bounds layer: a solver over any solver, to which it hands two networks without lower bounds, one after the other.
#![tactic(auto)]

mod layer;

pub use layer::LowerBounds;
