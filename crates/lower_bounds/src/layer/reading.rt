// How the answers below are read.
// The capacity stays, as each writer says: the room of the record or drawing that owns the list is known by it.
ghost use Rattle.std.specs.Prelude.{◌≡◌, ℕ, ◌+◌, ◌≤◌, false, ◌&&◌, map, length, pos, ◌-ℤ◌, ◌≤ℤ◌, if◌then◌else◌, vec_len, vec_capacity};
ghost use Rattle.std.specs.List.{range_with_len};
ghost use Rattle.drawing.specs.Answers.{Right};
ghost use Rattle.drawing.specs.Counts.{Within, only};
ghost use Rattle.drawing.specs.Drawings.{Admissible, is_rack, is_bar, point as point_at, rack_count, bar_count, run_count, units as units_of, uses};
ghost use Rattle.drawing.specs.Labels.{is_near, is_far};
ghost use Rattle.drawing.specs.Plans.{Feasible, forth as carried_forth};
ghost use Rattle.drawing.specs.Records.{network, contents, filed, plan_in, answer_in};
ghost use Rattle.reductions.specs.LowerBounds.{all_lowers, short_labels, lowers_first, lowers_second, last_flow, raised_flow, raised_answer};
ghost use Rattle.lower_bounds.specs.Parts.{points_only};
ghost use Rattle.lower_bounds.specs.Verdicts.{shows_shortage, shortage_shown};

use super::network::{all_lowers, ends, forth, only_if};
use drawing::{Drawing, Feature, Label, Mark, Point, Record, Verdict};
use scratch::{copy_into, file_shortage, push_within};

// Whether the rack is far beside a near bar.
fn is_turned(rack: Label, bar: Label) -> bool
    ensures { result ≡ (is_far rack && is_near bar) }
{
    rack == Label::Far && bar == Label::Near
}

// The rack is read as near where it is turned.
fn short_label(mark: Mark, label: Label, turned: bool) -> Label
    ensures { result ≡ (if is_rack mark && turned then Label.Near else label) }
{
    if mark == Mark::Rack && turned {
        Label::Near
    } else {
        label
    }
}

// The labels of a shortage.
fn read_labels(points: &[Point], labels: &[Label], out: &mut Vec<Label>)
    requires rack { rack_count (points_only points.now) ≡ 1 }
    requires bar { bar_count (points_only points.now) ≡ 1 }
    requires long { length points.now ≤ length labels.now }
    requires room { length points.now ≤ vec_capacity out.old }
    ensures items { out.new.items ≡ short_labels (points_only points.now) labels.now }
    ensures capacity { vec_capacity out.new ≡ vec_capacity out.old }
{
    let (rack, bar) = ends(points);
    let turned = is_turned(labels[rack - 1], labels[bar - 1]);
    let marked = points.iter().zip(labels);
    out.clear();
    push_within(marked.map(|(p, l)| short_label(p.mark, *l, turned)), out);
}

// The lower, what the first network carries above it, and what the second adds and takes away.
fn raised(lower: u32, first: i32, up: i32, down: i32) -> i32
    requires least { carried_forth down ≤ lower + carried_forth first + carried_forth up }
    requires most { lower + carried_forth first + carried_forth up ≤ carried_forth down + 600000000 }
    ensures { result ≡ pos (lower + carried_forth first + carried_forth up) -ℤ pos (carried_forth down) }
{
    let sum = u64::from(lower) + u64::from(forth(first)) + u64::from(forth(up));
    (sum - u64::from(forth(down))) as i32
}

// The total, supplied at the rack and delivered at the bar.
fn read_ends(points: &[Point], total: u32, supplies: &mut Vec<u32>, deliveries: &mut Vec<u32>)
    requires room { (length points.now ≤ vec_capacity supplies.old) × (length points.now ≤ vec_capacity deliveries.old) }
    ensures supplied { supplies.new.items ≡ map (λ v. only (is_rack (point_at (points_only points.now) v).mark) total) (range_with_len 1 (length points.now)) }
    ensures delivered { deliveries.new.items ≡ map (λ v. only (is_bar (point_at (points_only points.now) v).mark) total) (range_with_len 1 (length points.now)) }
    ensures capacity { (vec_capacity supplies.new ≡ vec_capacity supplies.old) × (vec_capacity deliveries.new ≡ vec_capacity deliveries.old) }
{
    let supplied = points.iter().map(|p| only_if(p.mark == Mark::Rack, total));
    let delivered = points.iter().map(|p| only_if(p.mark == Mark::Bar, total));
    supplies.clear();
    deliveries.clear();
    push_within(supplied, supplies);
    push_within(delivered, deliveries);
}

// Whether the answer to the first network shows a shortage: not all lowers can be carried.
pub(super) fn shows_shortage(drawing: &Drawing, first: &Record) -> bool
    requires { all_lowers (network drawing.now) ≤ 600000000 }
    ensures { result ≡ shows_shortage (network drawing.now) (answer_in first.now) }
{
    match first.verdict {
        Verdict::Plan => first.total < all_lowers(&drawing.runs),
        Verdict::Shortage => true,
    }
}

// The flow of each run. A loop and no chain: what raised requires of the flows at a place, a closure cannot ask of the
// flows that it is given.
fn read_flows(drawing: &Drawing, first: &Record, second: &Record, out: &mut Vec<i32>)
    requires room { vec_len drawing.now.runs ≤ vec_capacity out.old }
    requires long { (vec_len drawing.now.runs ≤ vec_len first.now.flows) × (vec_len drawing.now.runs + vec_len drawing.now.runs ≤ vec_len second.now.flows) }
    requires fits { (k : ℕ) → Within (run_count (network drawing.now)) k → (pos 0 ≤ℤ raised_flow (network drawing.now) (plan_in first.now) (plan_in second.now) k) × (raised_flow (network drawing.now) (plan_in first.now) (plan_in second.now) k ≤ℤ pos 600000000) }
    ensures items { out.new.items ≡ map (raised_flow (network drawing.now) (plan_in first.now) (plan_in second.now)) (range_with_len 1 (run_count (network drawing.now))) }
    ensures capacity { vec_capacity out.new ≡ vec_capacity out.old }
{
    let runs = drawing.runs.as_slice();
    let found = first.flows.as_slice();
    let flows = second.flows.as_slice();
    let m = runs.len();
    out.clear();
    for (k, r) in runs.iter().enumerate() {
        out.push_reserved(raised(r.lower, found[k], flows[k], flows[m + k]));
    }
}

// The flow of the lead from the bar to the rack, the last of the first network.
fn last_flow(drawing: &Drawing, first: &Record) -> u32
    requires small { Admissible (network drawing.now) }
    requires feasible { Feasible (lowers_first (network drawing.now)) (plan_in first.now) }
    ensures { result ≡ last_flow (network drawing.now) (plan_in first.now) }
{
    let flows = first.flows.as_slice();
    let n = drawing.points.len();
    forth(flows[drawing.runs.len() + n + n])
}

// Writes the shortage that the answer to the first network shows.
pub(super) fn write_short(drawing: &Drawing, first: &Record, out: &mut Record)
    requires ends { uses (network drawing.now) Feature.Terminals ≡ false }
    requires below { Admissible (lowers_first (network drawing.now)) }
    requires right { Right (lowers_first (network drawing.now)) (answer_in first.now) }
    ensures { contents out.new ≡ filed (shortage_shown (network drawing.now) (answer_in first.now)) }
{
    file_shortage(out);
    match first.verdict {
        Verdict::Plan => read_labels(&drawing.points, &first.labels, &mut out.labels),
        Verdict::Shortage => copy_into(&first.labels, &mut out.labels),
    }
}

// Writes the answer above, by the plan of the first network and the answer to the second.
pub(super) fn write_raised(drawing: &Drawing, first: &Record, second: &Record, out: &mut Record)
    requires admissible { Admissible (network drawing.now) }
    requires given { (uses (network drawing.now) Feature.Links ≡ false) × (units_of (network drawing.now) ≤ 600000000) }
    requires feasible { Feasible (lowers_first (network drawing.now)) (plan_in first.now) }
    requires below { Right (lowers_second (network drawing.now) (plan_in first.now)) (answer_in second.now) }
    requires right { Right (network drawing.now) (raised_answer (network drawing.now) (plan_in first.now) (answer_in second.now)) }
    ensures { contents out.new ≡ filed (raised_answer (network drawing.now) (plan_in first.now) (answer_in second.now)) }
{
    copy_into(&second.labels, &mut out.labels);
    match second.verdict {
        Verdict::Plan => {
            let total = last_flow(drawing, first) + second.total;
            out.verdict = Verdict::Plan;
            read_flows(drawing, first, second, &mut out.flows);
            read_ends(
                &drawing.points,
                total,
                &mut out.supplies,
                &mut out.deliveries,
            );
            out.total = total;
        }
        Verdict::Shortage => file_shortage(out),
    }
}
