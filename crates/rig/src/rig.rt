// The rig. Its ledger, which every contract speaks of, is its drawing and its ending.
ghost use Rattle.std.specs.Prelude.{◌≡◌, true};
ghost use Rattle.drawing.specs.Records.{network};
ghost use Rattle.ledger.specs.Endings.{is_sound};

use drawing::Record;
use ledger::Standing;
use rig_drawing::RigDrawing;

// The record of the last answer means something only while the rig is planned or short; it is there in every standing, since
// no solve allocates.
#[derive(Drop)]
pub struct Rig {
    pub(crate) drawing: RigDrawing,
    pub(crate) answer: Record,
    pub(crate) standing: Standing,
    ghost sound: { is_sound (network drawing.drawing) standing answer ≡ true },
}

mod asking;
mod laying;
mod limiting;
mod making;
mod marking;
mod rerating;
mod solving;
mod standing;
mod telling;
