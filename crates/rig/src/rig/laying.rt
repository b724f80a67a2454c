// Laying runs. A change clears the ending; a refusal alters nothing.
ghost use Rattle.std.specs.Prelude.{◌≡◌};
ghost use Rattle.drawing.specs.declared.Kind.TheVariants.{Lead as LeadKind, Link as LinkKind};
ghost use Rattle.ledger.specs.Calls.{run_of};
ghost use Rattle.ledger.specs.Ledgers.{change, lay as laying, says, next, reply_of, numbered};
ghost use Rattle.rig.specs.Rigs.{ledger_of};

use crate::Rig;
use drawing::{Refusal, Run};
use ledger::Standing;

impl Rig {
    // Lays a lead as the next run, and answers its number.
    pub fn lead(
        &mut self,
        tail: usize,
        head: usize,
        lower: u32,
        upper: u32,
    ) -> Result<usize, Refusal>
        ensures told { reply_of numbered result ≡ says (ledger_of self.old) (change (laying (run_of LeadKind tail head lower upper))) }
        ensures held { ledger_of self.new ≡ next (ledger_of self.old) (change (laying (run_of LeadKind tail head lower upper))) }
    {
        self.lay(Run::lead(tail, head, lower, upper))
    }

    // Lays a link as the next run, and answers its number.
    pub fn link(&mut self, first: usize, second: usize, upper: u32) -> Result<usize, Refusal>
        ensures told { reply_of numbered result ≡ says (ledger_of self.old) (change (laying (run_of LinkKind first second 0 upper))) }
        ensures held { ledger_of self.new ≡ next (ledger_of self.old) (change (laying (run_of LinkKind first second 0 upper))) }
    {
        self.lay(Run::link(first, second, upper))
    }

    fn lay(&mut self, run: Run) -> Result<usize, Refusal>
        ensures told { reply_of numbered result ≡ says (ledger_of self.old) (change (laying run)) }
        ensures held { ledger_of self.new ≡ next (ledger_of self.old) (change (laying run)) }
    {
        let number = self.drawing.lay(run)?;
        self.standing = Standing::Drawn;
        Ok(number)
    }
}
