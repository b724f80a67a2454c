// The blocking flow through the levels of a search.
ghost use Rattle.std.specs.Prelude.{◌≡◌, ◌+◌, ◌-◌, ◌<◌, ◌≤◌, length, slice_index};
ghost use Rattle.residual.specs.Net.{Placed, Bounded};
ghost use Rattle.blocking.specs.Push.{pushes};

use residual::{Net, carry};

// A network with the levels of a search that reached the sink, on level `top`. What a push changes is passed beside it, as
// slices, for the reason told at `Between` of `preflow`.
#[derive(Clone, Copy)]
pub(crate) struct Layers<'a> {
    pub net: Net<'a>,
    pub level: &'a [u32],
    pub sink: usize,
    pub top: usize,
    ghost levels: { length level.now ≡ length net.first.now },
    ghost low: { top < 200 },
}

impl Layers<'_> {
    // Pushes at most `limit` from v to the sink, `depth` levels on, along open arcs that go one level on. What went.
    pub(crate) fn push(
        self,
        left: &mut [u32],
        current: &mut [u32],
        v: usize,
        depth: usize,
        limit: u32,
    ) -> u32
        requires sizes { (length current.old ≡ length self.level.now) × (length left.old ≡ length self.net.head.now) }
        requires here { (v < length self.level.now) × (slice_index self.level.now v + depth ≡ self.top) }
        requires sound { (Placed self.net.head.now current.old) × (Bounded left.old) }
        ensures out { pushes self.entry.net.head.now self.entry.level.now self.entry.sink self.entry.top depth v limit left.old current.old ≡ (left.new, current.new, limit - result) }
        ensures most { result ≤ limit }
    {
        if depth == 0 {
            return if v == self.sink { limit } else { 0 };
        }
        let wanted = self.top - (depth - 1);
        let mut rest = limit;
        let mut stop = 0;
        for a in self.net.leaving_from(v, current[v] as usize) {
            let w = self.net.head[a] as usize;
            if left[a] > 0 && self.level[w] as usize == wanted {
                let most = rest.min(left[a]);
                let got = self.push(left, current, w, depth - 1, most);
                carry(left, a, got);
                rest -= got;
                if rest == 0 {
                    stop = a as u32 + 1;
                    break;
                }
            }
        }
        current[v] = stop;
        limit - rest
    }
}
