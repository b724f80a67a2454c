// One solve, in memory of the drawing's size.
ghost use Rattle.std.specs.Prelude.{◌≡◌, ◌+◌, ◌*◌, ◌<◌, length, vec_len};
ghost use Rattle.std.specs.VecDeque.{deque_capacity};
ghost use Rattle.drawing.specs.Records.{network, contents, filed};
ghost use Rattle.residual.specs.Plain.{Plain};
ghost use Rattle.preflow.specs.Model.{relabel_answer};

use crate::between::Between;
use crate::turns::max_flow;
use drawing::{Drawing, Label, Record};
use filing::{file, terminals};
use residual::Net;
use std::collections::VecDeque;

// Writes the answer, in scratch memory with a place for each arc (`head`, `next`, `left`, `back`), a place for each point
// and for 0 (`first`, `level`, `excess`, `height`) and room for each point (`queue`). It calls what `plan` of `blocking` does,
// but each way to a flow needs memory of its own: one function would take the way as a closure over six slices, with a
// contract longer than the four calls.
pub fn plan(
    drawing: &Drawing,
    head: &mut [u32],
    next: &mut [u32],
    left: &mut [u32],
    back: &mut [u32],
    first: &mut [u32],
    level: &mut [u32],
    excess: &mut [u32],
    height: &mut [u32],
    queue: &mut VecDeque<usize>,
    out: &mut Record,
)
    requires plain { Plain (network drawing.now) }
    requires arcs { (length head.old ≡ 2 * vec_len drawing.now.runs) × ((length next.old ≡ 2 * vec_len drawing.now.runs) × ((length left.old ≡ 2 * vec_len drawing.now.runs) × (length back.old ≡ 2 * vec_len drawing.now.runs))) }
    requires points { (length first.old ≡ vec_len drawing.now.points + 1) × ((length level.old ≡ vec_len drawing.now.points + 1) × ((length excess.old ≡ vec_len drawing.now.points + 1) × (length height.old ≡ vec_len drawing.now.points + 1))) }
    requires room { vec_len drawing.now.points < deque_capacity queue.old }
    ensures answer { contents out.new ≡ filed (relabel_answer (network drawing.now)) }
    ensures capacity { deque_capacity queue.new ≡ deque_capacity queue.old }
{
    let net = Net::laid(drawing.runs.as_slice(), head, next, first, left);
    let (rack, bar) = terminals(drawing.points.as_slice());
    let between = Between {
        net,
        points: drawing.points.len(),
        source: rack.unwrap(),
        sink: bar.unwrap(),
    };
    let total = max_flow(between, left, back, level, excess, height, queue);
    file(drawing, left, level, Label::Far, Label::Near, total, out);
}
