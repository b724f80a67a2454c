// Making a rig: by a count of points, or from a drawing within a rig's bounds.
ghost use Rattle.std.specs.Prelude.{◌≡◌, IfOk};
ghost use Rattle.drawing.specs.Records.{network};
ghost use Rattle.ledger.specs.Ledgers.{start};
ghost use Rattle.rig.specs.Making.{RigMade};
ghost use Rattle.rig.specs.Rigs.{ledger_of};

use crate::Rig;
use drawing::Record;
use ledger::Standing;
use rig_drawing::{MakeError, RigDrawing};
use std::alloc::{AllocError, Global};

impl Rig {
    // A rig of 1 to 60 plain points without limits or runs; any other count is refused by 1.
    pub fn new(heap: Global, points: usize) -> Result<Rig, MakeError>
        ensures { RigMade points result }
    {
        let drawing = RigDrawing::new(heap, points)?;
        Ok(Rig::from_drawing(heap, drawing)?)
    }

    // A rig of the drawing, without an ending.
    pub fn from_drawing(heap: Global, drawing: RigDrawing) -> Result<Rig, AllocError>
        ensures { IfOk result (λ g. ledger_of g ≡ start (network drawing.drawing)) }
    {
        let answer = Record::new(heap)?;
        Ok(Rig {
            drawing,
            answer,
            standing: Standing::Drawn,
        })
    }
}
