// One solve, in memory of the drawing's size.
ghost use Rattle.std.specs.Prelude.{◌≡◌, ◌+◌, ◌*◌, length, vec_len};
ghost use Rattle.drawing.specs.Records.{network, contents, filed};
ghost use Rattle.residual.specs.Plain.{Plain};
ghost use Rattle.blocking.specs.Model.{dinic_answer};

use crate::phases::max_flow;
use drawing::{Drawing, Label, Record};
use filing::{file, terminals};
use residual::Net;

// Writes the answer, in scratch memory with a place for each arc (`head`, `next`, `left`) and a place for each point and
// for 0 (`first`, `level`, `current`). They are fronts of the solver's own memory, which has the largest size and is lent anew
// to each solve, since no solve allocates. It is not one function with `plan` of `preflow`: each way to a flow needs memory of
// its own, and the way as a closure over slices would need a contract longer than the four calls.
pub fn plan(
    drawing: &Drawing,
    head: &mut [u32],
    next: &mut [u32],
    left: &mut [u32],
    first: &mut [u32],
    level: &mut [u32],
    current: &mut [u32],
    out: &mut Record,
)
    requires plain { Plain (network drawing.now) }
    requires arcs { (length head.old ≡ 2 * vec_len drawing.now.runs) × ((length next.old ≡ 2 * vec_len drawing.now.runs) × (length left.old ≡ 2 * vec_len drawing.now.runs)) }
    requires points { (length first.old ≡ vec_len drawing.now.points + 1) × ((length level.old ≡ vec_len drawing.now.points + 1) × (length current.old ≡ vec_len drawing.now.points + 1)) }
    ensures { contents out.new ≡ filed (dinic_answer (network drawing.now)) }
{
    let net = Net::laid(drawing.runs.as_slice(), head, next, first, left);
    let (rack, bar) = terminals(drawing.points.as_slice());
    let total = max_flow(net, left, level, current, rack.unwrap(), bar.unwrap());
    file(drawing, left, level, Label::Near, Label::Far, total, out);
}
