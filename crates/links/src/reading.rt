// How the answer below is read.
// The capacity stays, as each writer says: the room of the record or drawing that owns the list is known by it.
ghost use Rattle.std.specs.Prelude.{◌≡◌, ◌≤◌, map, pos, ◌-ℤ◌, ◌≤ℤ◌, vec_len, vec_capacity};
ghost use Rattle.std.specs.List.{range_with_len};
ghost use Rattle.drawing.specs.Drawings.{run_count};
ghost use Rattle.drawing.specs.Plans.{Feasible};
ghost use Rattle.drawing.specs.Records.{network, plan_in};
ghost use Rattle.reductions.specs.Links.{links_below, links_flow};

use drawing::{Drawing, Kind, Record};

fn minus(a: i32, b: i32) -> i32
    requires { (pos 0 ≤ℤ a) × (pos 0 ≤ℤ b) }
    ensures { result ≡ a -ℤ b }
{
    a - b
}

// The flow of each run: a lead's own, and of a link that of its lead minus that of its lead back. The next lead back is
// counted, since only links have one.
pub(crate) fn join_flows(drawing: &Drawing, found: &Record, out: &mut Vec<i32>)
    requires room { vec_len drawing.now.runs ≤ vec_capacity out.old }
    requires feasible { Feasible (links_below (network drawing.now)) (plan_in found.now) }
    ensures items { out.new.items ≡ map (links_flow (network drawing.now) (plan_in found.now)) (range_with_len 1 (run_count (network drawing.now))) }
    ensures capacity { vec_capacity out.new ≡ vec_capacity out.old }
{
    out.clear();
    let n = drawing.runs.len();
    let mut back = n;
    for (k, r) in drawing.runs.iter().enumerate() {
        let flow = found.flows[k];
        match r.kind {
            Kind::Link => {
                out.push_reserved(minus(flow, found.flows[back]));
                back += 1;
            }
            Kind::Lead => out.push_reserved(flow),
        }
    }
}
