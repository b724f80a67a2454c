// The networks below.
// The capacity stays, as each writer says: the room of the record or drawing that owns the list is known by it.
// Few points are asked for where a point's number is added to, so that the sum fits; what a layer carries has no more.
ghost use Rattle.std.specs.Prelude.{◌≡◌, ◌+◌, ◌-◌, ◌*◌, ◌≤◌, false, ◌++◌, map, length, vec_len, vec_capacity, ◌==◌};
ghost use Rattle.std.specs.List.{range_with_len};
ghost use Rattle.drawing.specs.declared.Kind.TheVariants.{Lead};
ghost use Rattle.drawing.specs.Counts.{only, sum_to, nth};
ghost use Rattle.drawing.specs.Drawings.{Lawful, no_run, units as units_of, uses, point_count, rack_count, bar_count};
ghost use Rattle.drawing.specs.Plans.{forth as carried_forth};
ghost use Rattle.drawing.specs.Records.{network, plan_in};
ghost use Rattle.reductions.specs.LowerBounds.{old_rack, old_bar, lowers_in, lowers_out, all_lowers, uppers_out, slack as slack_of, supply_lead, demand_lead, pairs, lowers_first, forward_lead, reversed_lead, lowers_second};
ghost use Rattle.lower_bounds.specs.Parts.{points_only, runs_only, flows_only};

use drawing::{Drawing, Feature, Mark, Point, Record, Run};
use scratch::{Workspace, copy_into, lead, push_points, push_within};

// The checks have this, for wider numbers, and forth. Both stand here again: each is one line, and a layer is apart from
// what the checks keep to themselves.
pub(super) fn only_if(b: bool, x: u32) -> u32
    ensures { result ≡ only b x }
{
    if b { x } else { 0 }
}

// The numbers of the rack and of the bar.
pub(super) fn ends(points: &[Point]) -> (usize, usize)
    requires rack { rack_count (points_only points.now) ≡ 1 }
    requires bar { bar_count (points_only points.now) ≡ 1 }
    ensures { result ≡ (old_rack (points_only points.now), old_bar (points_only points.now)) }
{
    let rack = points.iter().position(|p| p.mark == Mark::Rack).unwrap();
    let bar = points.iter().position(|p| p.mark == Mark::Bar).unwrap();
    (rack + 1, bar + 1)
}

// The lower of a lead that enters the point; of any other 0.
fn lower_entering(r: Run, v: usize) -> u32
    ensures { result ≡ only (r.head == v) r.lower }
{
    only_if(r.head == v, r.lower)
}

// Four sums of one line each, and no function that takes what to add: each says by which end and of which bound it is.
// Each asks for the bound of what its runs have in all, so that the sum fits; what a carried drawing has is within it.
fn lowers_entering(runs: &[Run], v: usize) -> u32
    requires { all_lowers (runs_only runs.now) ≤ 600000000 }
    ensures { result ≡ lowers_in (runs_only runs.now) v }
{
    runs.iter().map(|r| lower_entering(*r, v)).sum()
}

fn lowers_leaving(runs: &[Run], v: usize) -> u32
    requires { all_lowers (runs_only runs.now) ≤ 600000000 }
    ensures { result ≡ lowers_out (runs_only runs.now) v }
{
    runs.iter().map(|r| only_if(r.tail == v, r.lower)).sum()
}

pub(super) fn all_lowers(runs: &[Run]) -> u32
    requires { all_lowers (runs_only runs.now) ≤ 600000000 }
    ensures { result ≡ all_lowers (runs_only runs.now) }
{
    runs.iter().map(|r| r.lower).sum()
}

fn uppers_leaving(runs: &[Run], v: usize) -> u32
    requires { sum_to (length runs.now) (λ k. (nth runs.now k no_run).upper) ≤ 600000000 }
    ensures { result ≡ uppers_out (runs_only runs.now) v }
{
    runs.iter().map(|r| only_if(r.tail == v, r.upper)).sum()
}

// The lead with what may flow above its lower.
fn slack(r: Run) -> Run
    ensures { result ≡ slack_of r }
{
    lead(r.tail, r.head, r.upper.saturating_sub(r.lower))
}

// The leads that bring each point the lowers entering it, and take from it the lowers leaving it. A loop over
// the points' numbers, and no chain: each turn writes two leads that only the number tells apart.
fn push_pairs(drawing: &Drawing, out: &mut Vec<Run>)
    requires few { all_lowers (network drawing.now) ≤ 600000000 }
    requires small { vec_len drawing.now.points ≤ 128 }
    requires room { vec_len out.old + 2 * vec_len drawing.now.points ≤ vec_capacity out.old }
    ensures items { out.new.items ≡ out.old.items ++ pairs (point_count (network drawing.now)) (supply_lead (network drawing.now)) (demand_lead (network drawing.now)) }
    ensures len { vec_len out.new ≡ vec_len out.old + 2 * vec_len drawing.now.points }
    ensures capacity { vec_capacity out.new ≡ vec_capacity out.old }
{
    let runs = drawing.runs.as_slice();
    let n = drawing.points.len();
    for i in 0..n {
        let entering = lowers_entering(runs, i + 1);
        let leaving = lowers_leaving(runs, i + 1);
        out.push_reserved(lead(n + 1, i + 1, entering));
        out.push_reserved(lead(i + 1, n + 2, leaving));
    }
}

// Writes the first network: it has a plan with the total of all lowers where the drawing has any plan.
pub(super) fn write_first(drawing: &Drawing, out: &mut Workspace)
    requires lawful { Lawful (network drawing.now) }
    requires ends { uses (network drawing.now) Feature.Terminals ≡ false }
    requires few { units_of (network drawing.now) ≤ 600000000 }
    requires points { vec_len drawing.now.points + 2 ≤ 128 }
    requires runs { vec_len drawing.now.runs + 2 * vec_len drawing.now.points + 1 ≤ 1024 }
    ensures { network out.new.drawing ≡ lowers_first (network drawing.now) }
{
    let (rack, bar) = ends(&drawing.points);
    let upper = uppers_leaving(&drawing.runs, rack);
    push_points(&drawing.points, &mut out.drawing.points);
    out.drawing.runs.clear();
    push_within(
        drawing.runs.iter().map(|r| slack(*r)),
        &mut out.drawing.runs,
    );
    push_pairs(drawing, &mut out.drawing.runs);
    out.drawing.runs.push_reserved(lead(bar, rack, upper));
}

// What a flow carries from tail to head.
pub(super) fn forth(f: i32) -> u32
    ensures { result ≡ carried_forth f }
{
    f.max(0).unsigned_abs()
}

// The lead with what may be added to its lower and the flow above it.
fn forward(r: Run, f: i32) -> Run
    ensures { result ≡ record { kind = Lead; tail = r.tail; head = r.head; lower = 0; upper = r.upper - (r.lower + carried_forth f) } }
{
    lead(
        r.tail,
        r.head,
        r.upper.saturating_sub(r.lower).saturating_sub(forth(f)),
    )
}

// The lead back, with what may be taken away from that flow.
fn reversed(r: Run, f: i32) -> Run
    ensures { result ≡ record { kind = Lead; tail = r.head; head = r.tail; lower = 0; upper = (r.lower + carried_forth f) - r.lower } }
{
    lead(r.head, r.tail, forth(f))
}

// Writes the second network, by the plan of the first.
pub(super) fn write_second(drawing: &Drawing, first: &Record, out: &mut Workspace)
    requires long { vec_len drawing.now.runs ≤ vec_len first.now.flows }
    requires points { vec_len drawing.now.points ≤ 128 }
    requires runs { 2 * vec_len drawing.now.runs ≤ 1024 }
    ensures { network out.new.drawing ≡ lowers_second (network drawing.now) (plan_in first.now) }
{
    copy_into(&drawing.points, &mut out.drawing.points);
    let pairs = drawing.runs.iter().zip(&first.flows);
    let ahead = pairs.map(|(r, f)| forward(*r, *f));
    let pairs = drawing.runs.iter().zip(&first.flows);
    let back = pairs.map(|(r, f)| reversed(*r, *f));
    out.drawing.runs.clear();
    push_within(ahead.chain(back), &mut out.drawing.runs);
}
