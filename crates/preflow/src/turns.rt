// The turns.
ghost use Rattle.std.specs.Prelude.{◌≡◌, ◌+◌, ◌<◌, ◌≤◌, [], ◌∷◌, length, MatchOption, nat_eq, slice_index};
ghost use Rattle.std.specs.VecDeque.{deque_capacity};
ghost use Rattle.residual.specs.Net.{outs, Bounded};
ghost use Rattle.preflow.specs.Turns.{aims, turns_for, final};

use crate::between::Between;
use std::collections::VecDeque;

// More than any network can send.
const ALL: u32 = 1_800_000_001;

// More turns than there can be.
fn turns_for(points: usize) -> u64
    requires { points ≤ 128 }
    ensures { result ≡ turns_for points }
{
    let n = points as u64;
    n * (1_800_000_001 * (n + n)) + 1
}

// The front of the queue, which leaves it. By `remove`, which tells that the capacity stays; `pop_front` does not tell it.
fn leave(queue: &mut VecDeque<usize>) -> Option<usize>
    ensures front { MatchOption result (queue.old.items ≡ []) (λ v. queue.old.items ≡ v ∷ queue.new.items) }
    ensures capacity { deque_capacity queue.new ≡ deque_capacity queue.old }
{
    queue.remove(0)
}

// A largest flow from the source to the sink by push-relabel: the active points are served first in, first out.
// What reaches the sink; `level` then has the levels of a search backward from the sink.
pub(crate) fn max_flow(
    between: Between,
    left: &mut [u32],
    back: &mut [u32],
    level: &mut [u32],
    excess: &mut [u32],
    height: &mut [u32],
    queue: &mut VecDeque<usize>,
) -> u32
    requires arcs { (length left.old ≡ length between.net.head.now) × (length back.old ≡ length between.net.head.now) }
    requires points { (length level.old ≡ between.points + 1) × ((length excess.old ≡ between.points + 1) × (length height.old ≡ between.points + 1)) }
    requires room { between.points < deque_capacity queue.old }
    requires sound { (Bounded left.old) × (outs (λ u. nat_eq u between.source) between.net.head.now left.old (length between.net.head.now) ≤ 1800000000) }
    ensures left { left.new ≡ (final between.entry.net.head.now between.entry.points between.entry.source between.entry.sink left.old).left }
    ensures level { level.new ≡ aims between.entry.net.head.now left.new between.entry.points between.entry.source between.entry.sink }
    ensures total { result ≡ slice_index (final between.entry.net.head.now between.entry.points between.entry.source between.entry.sink left.old).excess between.entry.sink }
    ensures capacity { deque_capacity queue.new ≡ deque_capacity queue.old }
{
    let Between {
        points,
        source,
        sink,
        ..
    } = between;
    height.fill(0);
    height[source] = points as u32;
    excess.fill(0);
    excess[source] = ALL;
    queue.clear();
    between.drain(left, excess, height, queue, source, 0);
    for turn in 0..turns_for(points) {
        let Some(v) = leave(queue) else {
            break;
        };
        between.turn(turn, v, left, back, level, excess, height, queue);
    }
    between.aim(left, back, level);
    excess[sink]
}
