// Limiting a point. A change clears the ending, even with equal values; a refusal alters nothing.
ghost use Rattle.std.specs.Prelude.{◌≡◌};
ghost use Rattle.ledger.specs.Ledgers.{change, limit as limiting, says, next, reply_of, accepted};
ghost use Rattle.rig.specs.Rigs.{ledger_of};

use crate::Rig;
use drawing::Refusal;
use ledger::Standing;

impl Rig {
    // Gives point v a limit, or takes it away.
    pub fn limit(&mut self, v: usize, limit: Option<u32>) -> Result<(), Refusal>
        ensures told { reply_of (λ _. accepted) result ≡ says (ledger_of self.old) (change (limiting v limit)) }
        ensures held { ledger_of self.new ≡ next (ledger_of self.old) (change (limiting v limit)) }
    {
        self.drawing.limit(v, limit)?;
        self.standing = Standing::Drawn;
        Ok(())
    }
}
