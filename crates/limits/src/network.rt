// The points and runs of the network below.
// The capacity stays, as each writer says: the room of the record or drawing that owns the list is known by it.
// Few points are asked for where a point's number is added to, so that the sum fits; what a layer carries has no more.
ghost use Rattle.std.specs.Prelude.{◌≡◌, ◌+◌, ◌≤◌, ◌++◌, map, vec_len, vec_capacity};
ghost use Rattle.drawing.specs.Counts.{Within};
ghost use Rattle.drawing.specs.Drawings.{Lawful, point_count};
ghost use Rattle.drawing.specs.Records.{network};
ghost use Rattle.reductions.specs.Added.{added};
ghost use Rattle.reductions.specs.Limits.{entry as entry_of, beyond as beyond_of, limited_at, exit as exit_of, moved, limit_lead};

use drawing::{Drawing, Mark, Point, Run};
use scratch::lead;

// The point itself: without its limit, and without the mark of a limited bar.
pub(crate) fn entry(q: Point) -> Point
    ensures { result ≡ entry_of q }
{
    let mark = match (q.mark, q.limit) {
        (Mark::Bar, Some(_)) => Mark::Plain,
        (mark, _) => mark,
    };
    Point { mark, limit: None }
}

// The point beyond it: the bar, if it is a limited one.
pub(crate) fn beyond(q: Point) -> Point
    ensures { result ≡ beyond_of q }
{
    let mark = match (q.mark, q.limit) {
        (Mark::Bar, Some(_)) => Mark::Bar,
        _ => Mark::Plain,
    };
    Point { mark, limit: None }
}

// Where a lead that left v leaves.
fn exit(drawing: &Drawing, v: usize) -> usize
    requires within { Within (point_count (network drawing.now)) v }
    requires small { vec_len drawing.now.points ≤ 128 }
    ensures { result ≡ exit_of (network drawing.now) v }
{
    let points = drawing.points.as_slice();
    match points[v - 1].limit {
        Some(_) => points.len() + v,
        None => v,
    }
}

// A loop and no chain: each tail has to be one of the points, which a closure cannot ask of the run that it is given.
pub(crate) fn push_runs(drawing: &Drawing, out: &mut Vec<Run>)
    requires lawful { Lawful (network drawing.now) }
    requires room { vec_len drawing.now.runs ≤ vec_capacity out.old }
    requires small { vec_len drawing.now.points ≤ 128 }
    ensures items { out.new.items ≡ map (moved (network drawing.now)) drawing.now.runs.items }
    ensures len { vec_len out.new ≡ vec_len drawing.now.runs }
    ensures capacity { vec_capacity out.new ≡ vec_capacity out.old }
{
    let runs = drawing.runs.as_slice();
    out.clear();
    for r in runs {
        let tail = exit(drawing, r.tail);
        out.push_reserved(Run { tail, ..*r });
    }
}

// For each limited point the lead for which it trades its limit. A loop over the points' numbers, since the number is
// what the lead has.
pub(crate) fn push_leads(drawing: &Drawing, out: &mut Vec<Run>)
    requires room { vec_len out.old + vec_len drawing.now.points ≤ vec_capacity out.old }
    requires small { vec_len drawing.now.points ≤ 128 }
    ensures items { out.new.items ≡ out.old.items ++ added (point_count (network drawing.now)) (limited_at (network drawing.now)) (limit_lead (network drawing.now)) }
    ensures capacity { vec_capacity out.new ≡ vec_capacity out.old }
{
    let points = drawing.points.as_slice();
    let n = points.len();
    for (i, q) in points.iter().enumerate() {
        if let Some(limit) = q.limit {
            out.push_reserved(lead(i + 1, n + (i + 1), limit));
        }
    }
}
