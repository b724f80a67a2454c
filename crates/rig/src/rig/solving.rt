// Solving a rig with whatever solver the caller has. Nothing is known of it but the trait, and nothing is allocated.
ghost use Rattle.std.specs.Prelude.{◌≡◌};
ghost use Rattle.drawing.specs.Records.{network};
ghost use Rattle.drawing.specs.Solvers.{refusal, told, Written};
ghost use Rattle.ledger.specs.Ledgers.{solve as solving, says, next, reply_of, accepted};
ghost use Rattle.rig.specs.Rigs.{ledger_of};

use crate::Rig;
use drawing::{Record, Refusal, Solver};
use ledger::Standing;
use rig_drawing::RigDrawing;

// The solver's answer to the drawing, into the record.
fn solve_into<S: Solver>(solver: &mut S, rig: &RigDrawing, out: &mut Record) -> Result<(), Refusal>
    ensures refuses { told result ≡ refusal (S.states solver.old) (network rig.now.drawing) }
    ensures writes { Written (S.answer solver.old (network rig.now.drawing)) out.old out.new result }
    ensures keeps_statements { S.states solver.new ≡ S.states solver.old }
    ensures keeps_answers { S.answer solver.new ≡ S.answer solver.old }
{
    solver.solve(&rig.drawing, out)
}

impl Rig {
    // Puts the solver's answer to the rig in the place of the ending. A rig that the solver does not carry is refused
    // by 22 or 23; the rig, and the solver's statements and answers, are then as they were.
    pub fn solve<S: Solver>(&mut self, solver: &mut S) -> Result<(), Refusal>
        ensures told { reply_of (λ _. accepted) result ≡ says (ledger_of self.old) (solving (S.states solver.old) (S.answer solver.old)) }
        ensures held { ledger_of self.new ≡ next (ledger_of self.old) (solving (S.states solver.old) (S.answer solver.old)) }
        ensures keeps_statements { S.states solver.new ≡ S.states solver.old }
        ensures keeps_answers { S.answer solver.new ≡ S.answer solver.old }
    {
        solve_into(solver, &self.drawing, &mut self.answer)?;
        self.standing = Standing::from(self.answer.verdict);
        Ok(())
    }
}
