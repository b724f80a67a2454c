// Marking a point. A change clears the ending, even with equal values; a refusal alters nothing.
ghost use Rattle.std.specs.Prelude.{◌≡◌};
ghost use Rattle.ledger.specs.Ledgers.{change, mark as marking, says, next, reply_of, accepted};
ghost use Rattle.rig.specs.Rigs.{ledger_of};

use crate::Rig;
use drawing::{Mark, Refusal};
use ledger::Standing;

impl Rig {
    // Marks point v: 0 plain, 1 rack, 2 bar.
    pub fn mark(&mut self, v: usize, code: u32) -> Result<(), Refusal>
        ensures told { reply_of (λ _. accepted) result ≡ says (ledger_of self.old) (change (marking v code)) }
        ensures held { ledger_of self.new ≡ next (ledger_of self.old) (change (marking v code)) }
    {
        self.drawing.point_index(v)?;
        let mark = Mark::try_from(code)?;
        self.drawing.mark(v, mark)?;
        self.standing = Standing::Drawn;
        Ok(())
    }
}
