// The arcs of a drawing's runs.
ghost use Rattle.std.specs.Prelude.{◌≡◌, ℕ, ◌+◌, ◌*◌, ◌%◌, ◌<◌, ◌≤◌, length, slice_index, slice_set};
ghost use Rattle.residual.specs.Net.{Chained, Started};
ghost use Rattle.residual.specs.Laying.{heads_of, room_of, Ends};

use crate::net::{Net, mate};
use drawing::Run;

// The two arcs of each run. By number: once `chunks_exact_mut` is over, a proof knows how long the slice is, and no item of it.
fn pair(runs: &[Run], head: &mut [u32], left: &mut [u32])
    requires ends { Ends runs.now 200 }
    requires sizes { (length runs.now ≤ 1024) × ((length head.old ≡ 2 * length runs.now) × (length left.old ≡ 2 * length runs.now)) }
    ensures heads { head.new ≡ heads_of runs.now }
    ensures room { left.new ≡ room_of runs.now }
{
    for (k, run) in runs.iter().enumerate() {
        head[2 * k] = run.head as u32;
        head[2 * k + 1] = run.tail as u32;
        left[2 * k] = run.upper;
        left[2 * k + 1] = 0;
    }
}

// Puts arc a in front of the chain of v.
fn thread(next: &mut [u32], first: &mut [u32], a: usize, v: usize)
    requires { (a < length next.old) × ((v < length first.old) × (a < 2048)) }
    ensures next { next.new ≡ slice_set next.old a (slice_index first.old v) }
    ensures first { first.new ≡ slice_set first.old v (a + 1) }
{
    next[a] = first[v];
    first[v] = a as u32 + 1;
}

// Chains the arcs by the point that they leave.
fn link(head: &[u32], next: &mut [u32], first: &mut [u32])
    requires sizes { (length next.old ≡ length head.now) × ((length head.now ≤ 2048) × (length head.now % 2 ≡ 0)) }
    requires heads { (a : ℕ) → a < length head.now → slice_index head.now a < length first.old }
    ensures chained { Chained head.now next.new (length first.old) }
    ensures started { Started head.now first.new }
{
    first.fill(0);
    // By number, since the point that an arc leaves stands at its mate.
    for a in 0..head.len() {
        thread(next, first, a, head[mate(a)] as usize);
    }
}

// The arcs of the runs, and their chains.
pub fn lay(runs: &[Run], head: &mut [u32], next: &mut [u32], first: &mut [u32], left: &mut [u32])
    requires ends { Ends runs.now (length first.old) }
    requires sizes { (length runs.now ≤ 1024) × ((length first.old ≤ 129) × ((length head.old ≡ 2 * length runs.now) × ((length next.old ≡ 2 * length runs.now) × (length left.old ≡ 2 * length runs.now)))) }
    ensures heads { head.new ≡ heads_of runs.now }
    ensures room { left.new ≡ room_of runs.now }
    ensures chained { Chained head.new next.new (length first.old) }
    ensures started { Started head.new first.new }
{
    pair(runs, head, left);
    link(head, next, first);
}

impl<'a> Net<'a> {
    // The network of the runs, laid in these slices; `left` has what each arc can carry where no run has a flow.
    pub fn laid(
        runs: &[Run],
        head: &'a mut [u32],
        next: &'a mut [u32],
        first: &'a mut [u32],
        left: &mut [u32],
    ) -> Net<'a>
        requires ends { Ends runs.now (length first.old) }
        requires sizes { (length runs.now ≤ 1024) × ((length first.old ≤ 129) × ((length head.old ≡ 2 * length runs.now) × ((length next.old ≡ 2 * length runs.now) × (length left.old ≡ 2 * length runs.now)))) }
        ensures heads { result.head.now ≡ heads_of runs.now }
        ensures points { length result.first.now ≡ length first.old }
        ensures room { left.new ≡ room_of runs.now }
    {
        lay(runs, head, next, first, left);
        Net { head, next, first }
    }
}
