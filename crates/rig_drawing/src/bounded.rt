// A drawing with the bounds of a rig, and room for all the points and runs that a rig may have.
ghost use Rattle.std.specs.Prelude.{◌≡◌, ◌≤◌, true, vec_capacity};
ghost use Rattle.drawing.specs.Records.{network};
ghost use Rattle.rig_drawing.specs.Bounds.{is_bounded};

use drawing::Drawing;

#[derive(Drop)]
pub struct RigDrawing {
    pub drawing: Drawing,
    ghost bounds: { is_bounded (network drawing) ≡ true },
    ghost point_room: { 60 ≤ vec_capacity drawing.points },
    ghost run_room: { 160 ≤ vec_capacity drawing.runs },
}

mod changing;
pub mod making;
