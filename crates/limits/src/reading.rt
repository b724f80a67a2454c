// How the answer below is read.
// The capacity stays, as each writer says: the room of the record or drawing that owns the list is known by it.
ghost use Rattle.std.specs.Prelude.{◌≡◌, ◌+◌, ◌≤◌, map, length, is_some, if◌then◌else◌, vec_len, vec_capacity};
ghost use Rattle.drawing.specs.Records.{network, plan_in};
ghost use Rattle.reductions.specs.Limits.{limits_plan, merged, limits_labels};

use drawing::{Drawing, Label, Point, Record};
use scratch::push_within;

// The label of a limited point, by its own below and that of the point beyond it.
fn merge(own: Label, beyond: Label) -> Label
    ensures { result ≡ merged own beyond }
{
    match (own, beyond) {
        (Label::Near, Label::Near) => Label::Near,
        (Label::Near, _) => Label::Tight,
        _ => Label::Far,
    }
}

// The label of a point, by its own below and that of the point beyond it.
fn read_label(q: Point, own: Label, beyond: Label) -> Label
    ensures { result ≡ (if is_some q.limit then merged own beyond else own) }
{
    match q.limit {
        Some(_) => merge(own, beyond),
        None => own,
    }
}

pub(crate) fn read_labels(drawing: &Drawing, labels: &[Label], out: &mut Vec<Label>)
    requires long { length labels.now ≡ vec_len drawing.now.points + vec_len drawing.now.points }
    requires room { vec_len drawing.now.points ≤ vec_capacity out.old }
    ensures items { out.new.items ≡ limits_labels (network drawing.now) labels.now }
    ensures capacity { vec_capacity out.new ≡ vec_capacity out.old }
{
    let beyond = &labels[drawing.points.len()..];
    let pairs = drawing.points.iter().zip(labels).zip(beyond);
    out.clear();
    push_within(pairs.map(|((q, l), b)| read_label(*q, *l, *b)), out);
}

// A limited point's delivery is that of the point beyond it.
fn read_delivery(q: Point, own: u32, beyond: u32) -> u32
    ensures { result ≡ (if is_some q.limit then beyond else own) }
{
    match q.limit {
        Some(_) => beyond,
        None => own,
    }
}

pub(crate) fn read_deliveries(drawing: &Drawing, found: &Record, out: &mut Vec<u32>)
    requires long { vec_len found.now.deliveries ≡ vec_len drawing.now.points + vec_len drawing.now.points }
    requires room { vec_len drawing.now.points ≤ vec_capacity out.old }
    ensures items { out.new.items ≡ (limits_plan (network drawing.now) (plan_in found.now)).deliveries }
    ensures capacity { vec_capacity out.new ≡ vec_capacity out.old }
{
    let deliveries = found.deliveries.as_slice();
    let beyond = &deliveries[drawing.points.len()..];
    let pairs = drawing.points.iter().zip(deliveries).zip(beyond);
    out.clear();
    push_within(pairs.map(|((q, x), b)| read_delivery(*q, *x, *b)), out);
}
