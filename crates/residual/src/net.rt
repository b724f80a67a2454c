// The arcs of a network, and the level search.
ghost use Rattle.std.specs.Prelude.{◌≡◌, ◌+◌, ◌-◌, ◌%◌, ◌<◌, ◌≤◌, false, length, replicate, ◌≢◌, slice_index, slice_set};
ghost use Rattle.residual.specs.Net.{mate_of, moved, leavers, Chained, Started, Place};
ghost use Rattle.residual.specs.Search.{spreads, rounds, levels};

// `head[a]` is the point that arc a goes to. The arcs that leave a point v are a chain: `first[v]`, then `next` of
// each, as an arc's number plus 1, and 0 at the end; it goes by falling numbers. The memory is fixed, and an `Option` at
// each place would double it.
#[derive(Clone, Copy)]
pub struct Net<'a> {
    pub head: &'a [u32],
    pub next: &'a [u32],
    pub first: &'a [u32],
    ghost chained: { Chained head.now next.now (length first.now) },
    ghost started: { Started head.now first.now },
}

// The same run's other arc.
pub fn mate(a: usize) -> usize
    requires { a < 2048 }
    ensures { result ≡ mate_of a }
{
    if a % 2 == 0 { a + 1 } else { a - 1 }
}

fn shift(left: &mut [u32], a: usize, b: usize, got: u32)
    requires here { (a < length left.old) × ((b < length left.old) × ((b ≢ a))) }
    requires most { (got ≤ slice_index left.old a) × (slice_index left.old b + got ≤ 1800000000) }
    ensures { left.new ≡ slice_set (slice_set left.old a (slice_index left.old a - got)) b (slice_index left.old b + got) }
{
    let more = left[b] + got;
    left[a] -= got;
    left[b] = more;
}

// Moves `got` along arc a: the arc can carry so much less, and its mate so much more.
pub fn carry(left: &mut [u32], a: usize, got: u32)
    requires here { (a < length left.old) × ((length left.old ≤ 2048) × (length left.old % 2 ≡ 0)) }
    requires most { (got ≤ slice_index left.old a) × (slice_index left.old (mate_of a) + got ≤ 1800000000) }
    ensures { left.new ≡ moved left.old a got }
{
    shift(left, a, mate(a), got);
}

// The source alone has a level.
fn begin(level: &mut [u32], source: usize)
    requires { source < length level.old }
    ensures { level.new ≡ slice_set (replicate (length level.old) 0) source 1 }
{
    level.fill(0);
    level[source] = 1;
}

// The arcs that leave the point v, by falling numbers, from a place in its chain: an arc's number plus 1, or 0 at the end.
#[derive(Drop)]
pub struct Leaving<'a> {
    net: Net<'a>,
    v: usize,
    at: usize,
    ghost place: { Place net.head.now v at },
}

impl Iterator for Leaving<'_> {
    type Item = usize;

    ghost use Rattle.std.specs.Iterator.{YieldsFirst, item_count};
    ghost use Rattle.residual.specs.Leavers.{leavers_left};

    ghost next_gives = { YieldsFirst leavers_left };

    ghost remaining = { item_count leavers_left };

    fn next(&mut self) -> Option<usize> {
        if self.at == 0 {
            return None;
        }
        let a = self.at - 1;
        self.at = self.net.next[a] as usize;
        Some(a)
    }
}

impl<'a> Net<'a> {
    ghost use Rattle.residual.specs.Leavers.{leavers_left};

    // The arcs that leave v.
    #[tactic(auto, using(crate::proofs::Leavers::leavers_first))]
    pub fn leaving(self, v: usize) -> Leaving<'a>
        requires { v < length self.first.now }
        ensures { leavers_left result ≡ leavers self.entry.head.now v (length self.entry.head.now) }
    {
        self.leaving_from(v, self.first[v] as usize)
    }

    // The arcs that leave v, from a place in its chain.
    pub fn leaving_from(self, v: usize, at: usize) -> Leaving<'a>
        requires { Place self.head.now v at }
        ensures { leavers_left result ≡ leavers self.entry.head.now v at }
    {
        Leaving { net: self, v, at }
    }
}

// A network, and what each arc can still carry.
#[derive(Clone, Copy)]
pub struct Loaded<'a> {
    pub net: Net<'a>,
    pub left: &'a [u32],
    ghost lefts: { length left.now ≡ length net.head.now },
}

impl Loaded<'_> {
    // Gives level k + 1 to each point without a level that an open arc from v goes to.
    fn spread(self, level: &mut [u32], v: usize, k: u32) -> bool
        requires size { length level.old ≡ length self.net.first.now }
        requires here { (v < length level.old) × (k < 200) }
        ensures { spreads self.entry.net.head.now self.entry.left.now v (k + 1) (length self.entry.net.head.now) (level.old, false) ≡ (level.new, result) }
    {
        let mut grew = false;
        for a in self.net.leaving(v) {
            let w = self.net.head[a] as usize;
            if self.left[a] > 0 && level[w] == 0 {
                level[w] = k + 1;
                grew = true;
            }
        }
        grew
    }

    // One round: from each point of level k. Whether a point got a level.
    fn round(self, level: &mut [u32], k: u32) -> bool
        requires size { length level.old ≡ length self.net.first.now }
        requires here { k < 200 }
        ensures { rounds self.entry.net.head.now self.entry.left.now k (length level.old) level.old ≡ (level.new, result) }
    {
        let mut grew = false;
        // By number, since a round writes the levels that it goes over.
        for v in 0..level.len() {
            if level[v] == k && self.spread(level, v, k) {
                grew = true;
            }
        }
        grew
    }

    // The levels from the source along open arcs, up to the sink's or until no round adds a point. The source has
    // level 1, and 0 says that a point has none.
    pub fn search(self, level: &mut [u32], source: usize, sink: usize)
        requires size { length level.old ≡ length self.net.first.now }
        requires ends { (source < length level.old) × (sink < length level.old) }
        ensures { level.new ≡ levels self.entry.net.head.now self.entry.left.now (length level.old) source sink }
    {
        begin(level, source);
        for k in 1..130 {
            if !self.round(level, k) || level[sink] != 0 {
                break;
            }
        }
    }
}
