// Whether a record holds a right answer.
ghost use Rattle.std.specs.Prelude.{◌≡◌, ◌&&◌, Decides};
ghost use Rattle.drawing.specs.Drawings.{Admissible, is_admissible};
ghost use Rattle.drawing.specs.Answers.{Planned as PlannedAnswer, Right};
ghost use Rattle.drawing.specs.Tests.{is_right};
ghost use Rattle.drawing.specs.Records.{network, plan_in, answer_in};

use crate::admitted::Admitted;
use crate::labels::{Labelled, is_shortage};
use crate::plans::Planned;
use drawing::{Drawing, Record, Verdict};

fn is_right_plan(d: &Drawing, answer: &Record) -> bool
    ensures { result ≡ (is_admissible (network d.now) && is_right (network d.now) (PlannedAnswer (plan_in answer.now) answer.now.total answer.now.labels.items)) }
{
    let Some(drawing) = Admitted::of(d) else {
        return false;
    };
    let total = answer.total;
    let planned = Planned::over(
        drawing,
        answer.flows.as_slice(),
        answer.supplies.as_slice(),
        answer.deliveries.as_slice(),
    );
    planned.is_some_and(|p| p.is_feasible() && p.total() == u64::from(total))
        && Labelled::over(drawing, answer.labels.as_slice()).is_some_and(|l| l.is_cut()
            && l.worth() == i64::from(total))
}

// Whether the drawing is admissible and the record holds a right answer to it: a feasible plan with its total and a cut
// of that worth, or a shortage, as its verdict says.
pub fn is_right(d: &Drawing, answer: &Record) -> bool
    ensures { Decides result (Admissible (network d.now) × Right (network d.now) (answer_in answer.now)) }
{
    match answer.verdict {
        Verdict::Plan => is_right_plan(d, answer),
        Verdict::Shortage => is_shortage(d, answer.labels.as_slice()),
    }
}
