// What cuts and shortages say of plans, of two answers to one drawing, and of the worked examples.
#![tactic(auto)]

ghost use Rattle.std.specs.Prelude.{◌≡◌, ◌+◌, true, pos, ◌≤ℤ◌, Decides};
ghost use Rattle.drawing.specs.Drawings.{Network, Lawful, Admissible};
ghost use Rattle.drawing.specs.Labels.{Shortage};
ghost use Rattle.drawing.specs.Answers.{Right, total_of};
ghost use Rattle.drawing.specs.Plans.{plan_of};
ghost use Rattle.drawing.specs.Records.{network, answer_in};
ghost use Rattle.duality.specs.Findings.{Slack, finding_by, Settled};
ghost use Rattle.duality.specs.Duality.{WeakDuality, ShortageExcludes, Agree, AnswersAgree, RightIsMost, PlanExactly};

pub mod worked;

use checkers::{is_cut, is_feasible, is_right, is_shortage, total, worth};
use drawing::{Drawing, Label, Record, Verdict};

// What a right answer settles: the greatest total of a feasible plan, or, with the worth of a shortage, that there is no feasible plan.
#[derive(Clone, Copy, PartialEq, Eq)]
pub enum Finding {
    Most(u32),
    NoPlan(i64),
}

// By how much the worth of a cut exceeds the total of a feasible plan, which is never above it.
// None unless the drawing is admissible, the plan feasible and the labels a cut. The plan comes as lists, as to `is_feasible`.
pub fn slack(
    d: &Drawing,
    flows: &[i32],
    supplies: &[u32],
    deliveries: &[u32],
    labels: &[Label],
) -> Option<u64>
    ensures value { Slack (network d.now) (plan_of flows.now supplies.now deliveries.now) labels.now result }
    ensures bounds { WeakDuality }
{
    if !is_feasible(d, flows, supplies, deliveries) || !is_cut(d, labels) {
        return None;
    }
    let total = total(d, supplies)?;
    let worth = worth(d, labels)?;
    Some(excess(total, worth))
}

// Whether the labels are a shortage of an admissible drawing, so that no plan is feasible.
pub fn excludes_plans(d: &Drawing, labels: &[Label]) -> bool
    ensures value { Decides result (Admissible (network d.now) × Shortage (network d.now) labels.now) }
    ensures excludes { ShortageExcludes }
{
    shortage_excludes();
    is_shortage(d, labels)
}

// The theorem for a caller's proof; it does nothing.
fn shortage_excludes()
    ensures { ShortageExcludes }
{}

// What the record settles of the drawing's plans; None unless the drawing is admissible and the record holds a right answer.
pub fn settle(d: &Drawing, answer: &Record) -> Option<Finding>
    ensures value { Settled (network d.now) (answer_in answer.now) result }
    ensures most { RightIsMost }
    ensures exactly { PlanExactly }
{
    if !is_right(d, answer) {
        return None;
    }
    let worth = worth(d, &answer.labels)?;
    Some(found(answer.verdict, answer.total, worth))
}

// Whether two records tell the same verdict and, with plans, the same total, as right answers to one drawing do.
pub fn agree(a: &Record, b: &Record) -> bool
    ensures value { Decides result (Agree (answer_in a.now) (answer_in b.now)) }
    ensures agrees { AnswersAgree }
    ensures right { (d : Network) → Lawful d → Right d (answer_in a.now) → Right d (answer_in b.now) → result ≡ true }
{
    total_of(a) == total_of(b)
}

// A plan's total; None with a shortage.
fn total_of(answer: &Record) -> Option<u32>
    ensures { result ≡ total_of (answer_in answer.now) }
{
    (answer.verdict == Verdict::Plan).then_some(answer.total)
}

fn found(verdict: Verdict, total: u32, worth: i64) -> Finding
    ensures { result ≡ finding_by verdict total worth }
{
    match verdict {
        Verdict::Plan => Finding::Most(total),
        Verdict::Shortage => Finding::NoPlan(worth),
    }
}

// By how much the worth exceeds the total.
fn excess(total: u64, worth: i64) -> u64
    requires { pos total ≤ℤ worth }
    ensures { worth ≡ pos (total + result) }
{
    worth.unsigned_abs() - total
}
