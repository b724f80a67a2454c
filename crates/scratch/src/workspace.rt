// The memory for a network below.
ghost use Rattle.std.specs.Prelude.{◌≤◌, vec_capacity};

use drawing::Drawing;

// A drawing with room for the largest that a solver takes, so that no solve allocates.
#[derive(Drop)]
pub struct Workspace {
    pub drawing: Drawing,
    ghost room: { (128 ≤ vec_capacity drawing.points) × (1024 ≤ vec_capacity drawing.runs) },
}

mod making;
