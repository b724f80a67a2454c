// The questions about an ending. Checks go by rising number, and no question alters the rig.
ghost use Rattle.std.specs.Prelude.{◌≡◌};
ghost use Rattle.ledger.specs.Ledgers.{question, total as total_asked, shortfall as worth_asked, label_of as label_asked, usage as use_asked, says, reply_of, totals, falls, labelled, carries};
ghost use Rattle.rig.specs.Rigs.{ledger_of};

use crate::Rig;
use drawing::{Label, Refusal};
use ledger::Standing;
use sheet::short_worth;

impl Rig {
    // The total of the plan.
    pub fn total(&self) -> Result<u32, Refusal>
        ensures { reply_of totals result ≡ says (ledger_of self.now) (question total_asked) }
    {
        match self.standing {
            Standing::Drawn => Err(Refusal::NotSolved),
            Standing::Planned => Ok(self.answer.total),
            Standing::Short => Err(Refusal::OtherVerdict),
        }
    }

    // The worth of the shortage.
    pub fn worth(&self) -> Result<i32, Refusal>
        ensures { reply_of falls result ≡ says (ledger_of self.now) (question worth_asked) }
    {
        match self.standing {
            Standing::Drawn => Err(Refusal::NotSolved),
            Standing::Planned => Err(Refusal::OtherVerdict),
            Standing::Short => Ok(short_worth(
                &self.drawing.drawing,
                self.answer.labels.as_slice(),
            )),
        }
    }

    // The label of point v.
    pub fn label(&self, v: usize) -> Result<Label, Refusal>
        ensures { reply_of labelled result ≡ says (ledger_of self.now) (question (label_asked v)) }
    {
        let i = self.drawing.point_index(v)?;
        match self.standing {
            Standing::Drawn => Err(Refusal::NotSolved),
            Standing::Planned | Standing::Short => Ok(self.answer.labels[i]),
        }
    }

    // The flow of run k and its spare units, which are its upper without the size of the flow.
    pub fn usage(&self, k: usize) -> Result<(i32, u32), Refusal>
        ensures { reply_of (λ u. carries u.0 u.1) result ≡ says (ledger_of self.now) (question (use_asked k)) }
    {
        let i = self.drawing.run_index(k)?;
        match self.standing {
            Standing::Drawn => Err(Refusal::NotSolved),
            Standing::Short => Err(Refusal::OtherVerdict),
            Standing::Planned => {
                let flow = self.answer.flows[i];
                let upper = self.drawing.drawing.runs[i].upper;
                Ok((flow, upper.saturating_sub(flow.unsigned_abs())))
            }
        }
    }
}
