// Whether a plan is feasible, and its total.
ghost use Rattle.std.specs.Prelude.{◌≡◌, ◌+◌, ◌*◌, ◌≤◌, true, ◌&&◌, length, pos, is_some, IfSome, ◌==◌, Decides};
ghost use Rattle.drawing.specs.Counts.{every_to, only, nth};
ghost use Rattle.drawing.specs.Drawings.{no_run, Admissible, is_admissible};
ghost use Rattle.drawing.specs.Plans.{forth as carried_forth, back as carried_back, entering as entering_at, leaving as leaving_at, total as total_of, plan_of, sum_of, Feasible};
ghost use Rattle.drawing.specs.Tests.{is_in_range, is_under, is_kept as is_kept_at, is_shaped, is_feasible};
ghost use Rattle.drawing.specs.Records.{network};
ghost use Rattle.checkers.specs.Told.{kept_at, told_total};
ghost use Rattle.checkers.specs.Seen.{seen};

use crate::admitted::Admitted;
use drawing::{Drawing, Kind, Mark, Point, Run};

// An admitted drawing with a plan that has the lists that it asks for: a flow for each run, a supply and a delivery for each point.
#[derive(Clone, Copy)]
pub(crate) struct Planned<'a> {
    drawing: Admitted<'a>,
    flows: &'a [i32],
    supplies: &'a [u32],
    deliveries: &'a [u32],
    ghost shaped: { is_shaped (seen drawing) (plan_of flows.now supplies.now deliveries.now) ≡ true },
}

impl<'a> Planned<'a> {
    ghost use Rattle.checkers.specs.Planned.{planned};

    pub(crate) fn of(
        d: &'a Drawing,
        flows: &'a [i32],
        supplies: &'a [u32],
        deliveries: &'a [u32],
    ) -> Option<Self>
        ensures decides { is_some result ≡ (is_admissible (network d.now) && is_shaped (network d.now) (plan_of flows.now supplies.now deliveries.now)) }
        ensures same { IfSome result (λ p. (seen p.drawing ≡ network d.now) × (planned p ≡ plan_of flows.now supplies.now deliveries.now)) }
    {
        Planned::over(Admitted::of(d)?, flows, supplies, deliveries)
    }

    // The same of a drawing that was tested already.
    pub(crate) fn over(
        drawing: Admitted<'a>,
        flows: &'a [i32],
        supplies: &'a [u32],
        deliveries: &'a [u32],
    ) -> Option<Self>
        ensures decides { is_some result ≡ is_shaped (seen drawing.entry) (plan_of flows.now supplies.now deliveries.now) }
        ensures same { IfSome result (λ p. (seen p.drawing ≡ seen drawing.entry) × (planned p ≡ plan_of flows.now supplies.now deliveries.now)) }
    {
        // An `if`: its branch knows what was tested, as in `Admitted::of`.
        if flows.len() == drawing.runs.len()
            && supplies.len() == drawing.points.len()
            && deliveries.len() == drawing.points.len()
        {
            Some(Planned {
                drawing,
                flows,
                supplies,
                deliveries,
            })
        } else {
            None
        }
    }

    fn are_in_range(&self) -> bool
        ensures { result ≡ every_to (length self.now.drawing.runs.now) (λ k. is_in_range (nth self.now.drawing.runs.now k no_run).kind (nth self.now.drawing.runs.now k no_run).lower (nth self.now.drawing.runs.now k no_run).upper (nth self.now.flows.now k (pos 0))) }
    {
        self.drawing
            .runs
            .iter()
            .zip(self.flows)
            .all(|(r, f)| is_in_range(*r, *f))
    }

    // Nothing is supplied at the point v but by a rack or delivered but by a bar, all is balanced, and the limit is kept.
    fn is_kept(&self, v: usize, point: Point, supply: u32, delivery: u32) -> bool
        ensures { result ≡ kept_at point supply delivery (entering_at (seen self.now.drawing) (planned self.now) v) (leaving_at (seen self.now.drawing) (planned self.now) v) }
    {
        let entering: u64 = self
            .drawing
            .runs
            .iter()
            .zip(self.flows)
            .map(|(r, f)| brings(r.tail, r.head, *f, v))
            .sum();
        let leaving: u64 = self
            .drawing
            .runs
            .iter()
            .zip(self.flows)
            .map(|(r, f)| brings(r.head, r.tail, *f, v))
            .sum();
        is_kept(point, supply, delivery, entering, leaving)
    }

    pub(crate) fn is_feasible(&self) -> bool
        ensures { result ≡ is_feasible (seen self.now.drawing) (planned self.now) }
    {
        self.are_in_range() && self.are_kept()
    }

    fn are_kept(&self) -> bool
        ensures { result ≡ every_to (length self.now.drawing.points.now) (is_kept_at (seen self.now.drawing) (planned self.now)) }
    {
        (1..self.drawing.points.len() + 1)
            .zip(self.drawing.points)
            .zip(self.supplies)
            .zip(self.deliveries)
            .all(|(((v, p), s), t)| self.is_kept(v, *p, *s, *t))
    }

    pub(crate) fn total(&self) -> u64
        ensures { result ≡ total_of (planned self.now) }
    {
        sum(self.supplies)
    }
}

// What a flow carries from tail to head.
fn forth(f: i32) -> u32
    ensures { result ≡ carried_forth f }
{
    f.max(0).unsigned_abs()
}

// What it carries from head to tail.
fn back(f: i32) -> u32
    ensures { result ≡ carried_back f }
{
    f.min(0).unsigned_abs()
}

fn only_if(b: bool, x: u32) -> u64
    ensures value { result ≡ only b x }
    ensures bound { result ≤ 4294967295 }
{
    if b { u64::from(x) } else { 0 }
}

// What a flow from tail to head brings into the point v. With the ends changed over, what it takes out of it.
fn brings(tail: usize, head: usize, f: i32, v: usize) -> u64
    ensures value { result ≡ only (head == v) (carried_forth f) + only (tail == v) (carried_back f) }
    ensures bound { result ≤ 8589934590 }
{
    only_if(head == v, forth(f)) + only_if(tail == v, back(f))
}

fn is_in_range(r: Run, f: i32) -> bool
    ensures { result ≡ is_in_range r.kind r.lower r.upper f }
{
    match r.kind {
        Kind::Lead => f >= 0 && r.lower <= f.unsigned_abs() && f.unsigned_abs() <= r.upper,
        Kind::Link => f.unsigned_abs() <= r.upper,
    }
}

fn is_under(limit: Option<u32>, x: u64) -> bool
    ensures { result ≡ is_under limit x }
{
    limit.is_none_or(|l| x <= u64::from(l))
}

fn is_kept(p: Point, supply: u32, delivery: u32, entered: u64, left: u64) -> bool
    requires { (entered ≤ 1024 * 8589934590) × (left ≤ 1024 * 8589934590) }
    ensures { result ≡ kept_at p supply delivery entered left }
{
    (p.mark == Mark::Rack || supply == 0)
        && (p.mark == Mark::Bar || delivery == 0)
        && entered + u64::from(supply) == left + u64::from(delivery)
        && is_under(p.limit, entered + u64::from(supply))
}

fn sum(xs: &[u32]) -> u64
    requires { length xs.now ≤ 128 }
    ensures { result ≡ sum_of xs.now }
{
    xs.iter().map(|x| u64::from(*x)).sum()
}

// Whether the drawing is admissible and the plan of these flows, supplies and deliveries is feasible. They come as three lists,
// so that a caller's plan may stand anywhere.
pub fn is_feasible(d: &Drawing, flows: &[i32], supplies: &[u32], deliveries: &[u32]) -> bool
    ensures { Decides result (Admissible (network d.now) × Feasible (network d.now) (plan_of flows.now supplies.now deliveries.now)) }
{
    Planned::of(d, flows, supplies, deliveries).is_some_and(|p| p.is_feasible())
}

// The sum of the supplies; None unless the drawing is admissible and there is a supply for each point.
pub fn total(d: &Drawing, supplies: &[u32]) -> Option<u64>
    ensures { result ≡ told_total (network d.now) supplies.now }
{
    let drawing = Admitted::of(d)?;
    (supplies.len() == drawing.points.len()).then(|| sum(supplies))
}
