// The standing of a rig.
ghost use Rattle.std.specs.Prelude.{◌≡◌};
ghost use Rattle.ledger.specs.Ledgers.{question, standing as standing_asked, says, stands};
ghost use Rattle.rig.specs.Rigs.{ledger_of};

use crate::Rig;
use ledger::Standing;

impl Rig {
    // Drawn, planned or short.
    pub fn standing(&self) -> Standing
        ensures { stands result ≡ says (ledger_of self.now) (question standing_asked) }
    {
        self.standing
    }
}
