// How the answer below is read.
// The capacity stays, as each writer says: the room of the record or drawing that owns the list is known by it.
ghost use Rattle.std.specs.Prelude.{◌≡◌, ◌+◌, ◌≤◌, ◌&&◌, map, length, if◌then◌else◌, vec_len, vec_capacity};
ghost use Rattle.std.specs.List.{range_with_len};
ghost use Rattle.drawing.specs.Drawings.{is_rack, is_bar};
ghost use Rattle.drawing.specs.Labels.{is_near, is_far};
ghost use Rattle.drawing.specs.Plans.{Feasible};
ghost use Rattle.drawing.specs.Records.{network, plan_in};
ghost use Rattle.reductions.specs.Terminals.{terminals_below, terminals_plan, terminals_labels};

use drawing::{Drawing, Label, Mark, Record};
use scratch::push_within;

// An old point's label, by those of the new rack and the new bar: a far rack beside a near new rack is near,
// and a near bar beside a far new bar is far.
fn read_label(mark: Mark, label: Label, rack: Label, bar: Label) -> Label
    ensures { result ≡ (if is_far label && (is_rack mark && is_near rack) then Label.Near else (if is_near label && (is_bar mark && is_far bar) then Label.Far else label)) }
{
    match (mark, label) {
        (Mark::Rack, Label::Far) => match rack {
            Label::Near => Label::Near,
            Label::Tight | Label::Far => Label::Far,
        },
        (Mark::Bar, Label::Near) => match bar {
            Label::Far => Label::Far,
            Label::Near | Label::Tight => Label::Near,
        },
        _ => label,
    }
}

pub(crate) fn read_labels(drawing: &Drawing, labels: &[Label], out: &mut Vec<Label>)
    requires long { length labels.now ≡ vec_len drawing.now.points + 2 }
    requires room { vec_len drawing.now.points ≤ vec_capacity out.old }
    ensures items { out.new.items ≡ terminals_labels (network drawing.now) labels.now }
    ensures capacity { vec_capacity out.new ≡ vec_capacity out.old }
{
    let n = drawing.points.len();
    let rack = labels[n];
    let bar = labels[n + 1];
    let marked = drawing.points.iter().zip(labels);
    out.clear();
    push_within(marked.map(|(p, l)| read_label(p.mark, *l, rack, bar)), out);
}

// The flows of the added leads as supplies and deliveries. The next added lead is counted, since only racks and bars have one.
pub(crate) fn read_ends(
    drawing: &Drawing,
    found: &Record,
    supplies: &mut Vec<u32>,
    deliveries: &mut Vec<u32>,
)
    requires feasible { Feasible (terminals_below (network drawing.now)) (plan_in found.now) }
    requires room { (vec_len drawing.now.points ≤ vec_capacity supplies.old) × (vec_len drawing.now.points ≤ vec_capacity deliveries.old) }
    ensures supplied { supplies.new.items ≡ (terminals_plan (network drawing.now) (plan_in found.now)).supplies }
    ensures delivered { deliveries.new.items ≡ (terminals_plan (network drawing.now) (plan_in found.now)).deliveries }
    ensures capacity { (vec_capacity supplies.new ≡ vec_capacity supplies.old) × (vec_capacity deliveries.new ≡ vec_capacity deliveries.old) }
{
    let points = drawing.points.as_slice();
    let flows = found.flows.as_slice();
    let mut lead = drawing.runs.len();
    supplies.clear();
    deliveries.clear();
    for p in points {
        match p.mark {
            Mark::Plain => {
                supplies.push_reserved(0);
                deliveries.push_reserved(0);
            }
            Mark::Rack => {
                supplies.push_reserved(flows[lead].unsigned_abs());
                deliveries.push_reserved(0);
                lead += 1;
            }
            Mark::Bar => {
                supplies.push_reserved(0);
                deliveries.push_reserved(flows[lead].unsigned_abs());
                lead += 1;
            }
        }
    }
}
