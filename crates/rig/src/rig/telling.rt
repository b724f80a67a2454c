// The sheet of a rig.
ghost use Rattle.std.specs.Prelude.{◌≡◌};
ghost use Rattle.ledger.specs.Ledgers.{question, sheet as sheet_asked, says, spent, reply_of, written};
ghost use Rattle.rig.specs.Rigs.{ledger_of};

use crate::Rig;
use drawing::Refusal;
use ledger::Standing;
use sheet::write_sheet;

impl Rig {
    // Writes the sheet of the ending to the front of the output and answers its length. The bytes past it stay, and
    // an output that is shorter than the sheet stays as it is.
    pub fn sheet(&self, out: &mut [u8]) -> Result<usize, Refusal>
        ensures told { reply_of written result ≡ says (ledger_of self.now) (question (sheet_asked out.old)) }
        ensures left { question (sheet_asked out.new) ≡ spent (ledger_of self.now) (question (sheet_asked out.old)) }
    {
        match self.standing {
            Standing::Drawn => Err(Refusal::NotSolved),
            Standing::Planned | Standing::Short => write_sheet(out, &self.drawing, &self.answer),
        }
    }
}
