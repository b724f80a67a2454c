// Giving a run another range. A change clears the ending, even with equal values; a refusal alters nothing.
ghost use Rattle.std.specs.Prelude.{◌≡◌};
ghost use Rattle.ledger.specs.Ledgers.{change, rerate as rerating, says, next, reply_of, accepted};
ghost use Rattle.rig.specs.Rigs.{ledger_of};

use crate::Rig;
use drawing::Refusal;
use ledger::Standing;

impl Rig {
    // Gives run k another range, and alters no other run.
    pub fn rerate(&mut self, k: usize, lower: u32, upper: u32) -> Result<(), Refusal>
        ensures told { reply_of (λ _. accepted) result ≡ says (ledger_of self.old) (change (rerating k lower upper)) }
        ensures held { ledger_of self.new ≡ next (ledger_of self.old) (change (rerating k lower upper)) }
    {
        self.drawing.rerate(k, lower, upper)?;
        self.standing = Standing::Drawn;
        Ok(())
    }
}
