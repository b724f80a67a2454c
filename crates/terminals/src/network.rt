// The runs of the network below.
// The capacity stays, as each writer says: the room of the record or drawing that owns the list is known by it.
// Few points are asked for where a point's number is added to, so that the sum fits; what a layer carries has no more.
ghost use Rattle.std.specs.Prelude.{◌≡◌, ◌+◌, ◌≤◌, ◌&&◌, ◌||◌, ◌++◌, vec_len, vec_capacity, ◌==◌};
ghost use Rattle.drawing.specs.Counts.{only};
ghost use Rattle.drawing.specs.Drawings.{Lawful, is_link, point_count, units as units_of};
ghost use Rattle.drawing.specs.Records.{network};
ghost use Rattle.reductions.specs.Added.{added};
ghost use Rattle.reductions.specs.Terminals.{uppers_leaving, uppers_entering, is_terminal, terminal_lead};

use drawing::{Drawing, Kind, Mark, Run};
use scratch::lead;

// The run with its ends exchanged.
fn turned(r: Run) -> Run
    ensures { result ≡ record { kind = r.kind; tail = r.head; head = r.tail; lower = r.lower; upper = r.upper } }
{
    Run {
        tail: r.head,
        head: r.tail,
        ..r
    }
}

// The upper of a lead that leaves the point or of a link at it; of any other run 0.
fn upper_leaving(r: Run, v: usize) -> u32
    ensures { result ≡ only (r.tail == v || (is_link r.kind && r.head == v)) r.upper }
{
    if r.tail == v || r.kind == Kind::Link && r.head == v {
        r.upper
    } else {
        0
    }
}

// A lawful drawing of few units is asked for where uppers are added, so that the sum fits; what the layer carries is one.
fn uppers_leaving(drawing: &Drawing, v: usize) -> u32
    requires lawful { Lawful (network drawing.now) }
    requires few { units_of (network drawing.now) ≤ 600000000 }
    ensures { result ≡ uppers_leaving (network drawing.now) v }
{
    drawing.runs.iter().map(|r| upper_leaving(*r, v)).sum()
}

// What enters leaves the run that is turned.
fn uppers_entering(drawing: &Drawing, v: usize) -> u32
    requires lawful { Lawful (network drawing.now) }
    requires few { units_of (network drawing.now) ≤ 600000000 }
    ensures { result ≡ uppers_entering (network drawing.now) v }
{
    drawing
        .runs
        .iter()
        .map(|r| upper_leaving(turned(*r), v))
        .sum()
}

// A lead from the new rack to each old rack and from each old bar to the new bar, by point. A loop over the points'
// numbers, since the number is what the lead has.
pub(crate) fn push_leads(drawing: &Drawing, out: &mut Vec<Run>)
    requires lawful { Lawful (network drawing.now) }
    requires few { units_of (network drawing.now) ≤ 600000000 }
    requires room { vec_len out.old + vec_len drawing.now.points ≤ vec_capacity out.old }
    requires small { vec_len drawing.now.points ≤ 128 }
    ensures items { out.new.items ≡ out.old.items ++ added (point_count (network drawing.now)) (is_terminal (network drawing.now)) (terminal_lead (network drawing.now)) }
    ensures capacity { vec_capacity out.new ≡ vec_capacity out.old }
{
    let points = drawing.points.as_slice();
    let n = points.len();
    for (i, p) in points.iter().enumerate() {
        match p.mark {
            Mark::Plain => {}
            Mark::Rack => {
                let upper = uppers_leaving(drawing, i + 1);
                out.push_reserved(lead(n + 1, i + 1, upper));
            }
            Mark::Bar => {
                let upper = uppers_entering(drawing, i + 1);
                out.push_reserved(lead(i + 1, n + 2, upper));
            }
        }
    }
}
