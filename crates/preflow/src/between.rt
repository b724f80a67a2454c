// What one turn does: a lift, pushes, and now and then a relabelling of all points.
ghost use Rattle.std.specs.Prelude.{◌≡◌, ◌+◌, ◌-◌, ◌%◌, ◌<◌, ◌≤◌, length, ◌≢◌, slice_index, slice_set};
ghost use Rattle.std.specs.VecDeque.{deque_len, deque_capacity};
ghost use Rattle.residual.specs.Net.{Bounded};
ghost use Rattle.preflow.specs.Push.{joined, active, scans, lows, serves};
ghost use Rattle.preflow.specs.Turns.{State, aims, raised, turned};
ghost use Rattle.preflow.specs.Preflow.{whole, Arcs, Ends, Lined};

use residual::{Loaded, Net, carry, mate};
use std::collections::VecDeque;

// Raises each height to the point's distance to the sink. The level by its number: with `zip` in place of `enumerate` a proof
// knows how long the heights are afterwards, and no item of them.
fn raise(level: &[u32], height: &mut [u32], points: usize)
    requires { (length height.old ≡ points + 1) × ((length level.now ≡ points + 1) × (points ≤ 128)) }
    ensures { height.new ≡ raised points level.now height.old }
{
    for (v, own) in height.iter_mut().enumerate() {
        let d = if level[v] == 0 {
            points as u32
        } else {
            level[v] - 1
        };
        *own = (*own).max(d);
    }
}

// A network of so many points, between two of them. What a turn changes is passed beside it, as slices: a struct of
// `&mut` fields would have each method say that every field is the same borrow still and which of them it left alone,
// and where it is lent the front of a `Vec`, nothing tells afterwards how long that is.
#[derive(Clone, Copy)]
pub(crate) struct Between<'a> {
    pub net: Net<'a>,
    pub points: usize,
    pub source: usize,
    pub sink: usize,
    ghost counted: { length net.first.now ≡ points + 1 },
    ghost few: { points ≤ 128 },
    ghost arcs: { Arcs net.head.now points },
    ghost ends: { Ends points source sink },
}

impl Between<'_> {
    // The levels of a search backward from the sink.
    pub(crate) fn aim(self, left: &[u32], back: &mut [u32], level: &mut [u32])
        requires sizes { (length left.now ≡ length self.net.head.now) × ((length back.old ≡ length self.net.head.now) × (length level.old ≡ self.points + 1)) }
        ensures { level.new ≡ aims self.entry.net.head.now left.now self.entry.points self.entry.source self.entry.sink }
    {
        for (a, open) in back.iter_mut().enumerate() {
            *open = left[mate(a)];
        }
        let net = self.net;
        Loaded { net, left: back }.search(level, self.sink, self.source);
    }

    // The least height that an open arc from v goes to, or 1000 for no open arc: every height is below it.
    fn lowest(self, left: &[u32], height: &[u32], v: usize) -> u32
        requires sizes { (length left.now ≡ length self.net.head.now) × (length height.now ≡ self.points + 1) }
        requires here { v ≤ self.points }
        ensures out { result ≡ lows self.entry.net.head.now left.now height.now v (length self.entry.net.head.now) 1000 }
        ensures most { result ≤ 1000 }
    {
        let mut low: u32 = 1000;
        for a in self.net.leaving(v) {
            if left[a] > 0 {
                low = low.min(height[self.net.head[a] as usize]);
            }
        }
        low
    }

    // Puts w at the rear of the queue, where it is an inner point and had no excess.
    fn join(self, had: u32, w: usize, queue: &mut VecDeque<usize>)
        requires { had ≡ 0 → deque_len queue.old < deque_capacity queue.old }
        ensures items { queue.new.items ≡ joined self.entry.source self.entry.sink had w queue.old.items }
        ensures capacity { deque_capacity queue.new ≡ deque_capacity queue.old }
    {
        if had == 0 && w != self.source && w != self.sink {
            queue.push_back_reserved(w);
        }
    }

    // Pushes from v to points of height `low` while it has excess.
    pub(crate) fn drain(
        self,
        left: &mut [u32],
        excess: &mut [u32],
        height: &[u32],
        queue: &mut VecDeque<usize>,
        v: usize,
        low: u32,
    )
        requires sizes { (length left.old ≡ length self.net.head.now) × ((length excess.old ≡ self.points + 1) × (length height.now ≡ self.points + 1)) }
        requires here { (0 < v) × ((v ≤ self.points) × ((0 < slice_index excess.old v) × (slice_index height.now v ≢ low))) }
        requires sound { (Bounded left.old) × (whole excess.old self.points ≤ 1800000001) }
        requires queue { (Lined self.source self.sink v excess.old queue.old.items) × (self.points < deque_capacity queue.old) }
        ensures out { scans self.entry.net.head.now height.now self.entry.source self.entry.sink v low (length self.entry.net.head.now) left.old excess.old queue.old.items ≡ (left.new, excess.new, queue.new.items) }
        ensures capacity { deque_capacity queue.new ≡ deque_capacity queue.old }
    {
        for a in self.net.leaving(v) {
            let w = self.net.head[a] as usize;
            if left[a] > 0 && height[w] == low {
                let most = excess[v].min(left[a]);
                carry(left, a, most);
                self.join(excess[w], w, queue);
                excess[v] -= most;
                excess[w] += most;
                if excess[v] == 0 {
                    break;
                }
            }
        }
    }

    // Lifts v above the lowest point that it can push to and pushes; v joins the queue again where it has excess left.
    fn serve(
        self,
        left: &mut [u32],
        excess: &mut [u32],
        height: &mut [u32],
        queue: &mut VecDeque<usize>,
        v: usize,
    )
        requires sizes { (length left.old ≡ length self.net.head.now) × ((length excess.old ≡ self.points + 1) × (length height.old ≡ self.points + 1)) }
        requires here { (0 < v) × ((v ≤ self.points) × (0 < slice_index excess.old v)) }
        requires sound { (Bounded left.old) × (whole excess.old self.points ≤ 1800000001) }
        requires queue { (Lined self.source self.sink v excess.old queue.old.items) × (self.points < deque_capacity queue.old) }
        ensures lifted { height.new ≡ slice_set height.old v (lows self.entry.net.head.now left.old height.old v (length self.entry.net.head.now) 1000 + 1) }
        ensures out { serves self.entry.net.head.now height.new self.entry.source self.entry.sink v (lows self.entry.net.head.now left.old height.old v (length self.entry.net.head.now) 1000) left.old excess.old queue.old.items ≡ (left.new, excess.new, queue.new.items) }
        ensures capacity { deque_capacity queue.new ≡ deque_capacity queue.old }
    {
        let low = self.lowest(left, height, v);
        height[v] = low + 1;
        self.drain(left, excess, height, queue, v, low);
        if excess[v] > 0 {
            queue.push_back_reserved(v);
        }
    }

    // Turn k + 1, of the point v that has left the queue.
    pub(crate) fn turn(
        self,
        k: u64,
        v: usize,
        left: &mut [u32],
        back: &mut [u32],
        level: &mut [u32],
        excess: &mut [u32],
        height: &mut [u32],
        queue: &mut VecDeque<usize>,
    )
        requires arcs { (length left.old ≡ length self.net.head.now) × (length back.old ≡ length self.net.head.now) }
        requires points { (length level.old ≡ self.points + 1) × ((length excess.old ≡ self.points + 1) × (length height.old ≡ self.points + 1)) }
        requires here { (0 < v) × ((v ≤ self.points) × (0 < slice_index excess.old v)) }
        requires sound { (Bounded left.old) × (whole excess.old self.points ≤ 1800000001) }
        requires queue { (Lined self.source self.sink v excess.old queue.old.items) × (self.points < deque_capacity queue.old) }
        ensures out { turned self.entry.net.head.now self.entry.points self.entry.source self.entry.sink k v left.entry.now excess.old height.old queue.old.items ≡ record { left = left.exit.now; excess = excess.new; height = height.new; queue = queue.new.items } }
        ensures capacity { deque_capacity queue.new ≡ deque_capacity queue.old }
    {
        if k % 128 == 127 {
            self.aim(left, back, level);
            raise(level, height, self.points);
        }
        self.serve(left, excess, height, queue, v);
    }
}
