// Dinic's phases.
ghost use Rattle.std.specs.Prelude.{◌≡◌, ◌<◌, ◌≤◌, length, ◌≢◌, nat_eq};
ghost use Rattle.residual.specs.Net.{outs, Bounded};
ghost use Rattle.blocking.specs.Phases.{phases, Ended};

use crate::layers::Layers;
use residual::{Loaded, Net};

// No network can carry more.
const MOST: u32 = 1_800_000_000;

// A largest flow from the source to the sink: a level search and a blocking flow by turns, until a search does not
// reach the sink. What went; `level` then has the levels of the last search.
pub(crate) fn max_flow(
    net: Net,
    left: &mut [u32],
    level: &mut [u32],
    current: &mut [u32],
    source: usize,
    sink: usize,
) -> u32
    requires sizes { (length level.old ≡ length net.first.now) × ((length current.old ≡ length net.first.now) × ((length left.old ≡ length net.head.now) × (length net.first.now ≤ 129))) }
    requires ends { (source < length level.old) × ((sink < length level.old) × ((source ≢ sink))) }
    requires sound { (Bounded left.old) × (outs (λ u. nat_eq u source) net.head.now left.old (length net.head.now) ≤ 1800000000) }
    ensures out { phases net.entry.head.now net.entry.first.now source sink 1800000001 left.old level.old 0 ≡ (left.new, level.new, result) }
    ensures ended { Ended net.entry.head.now source sink left.old (left.new, level.new, result) }
{
    let mut total = 0;
    for _turn in 0..MOST + 1 {
        Loaded { net, left }.search(level, source, sink);
        let top = level[sink] as usize;
        if top == 0 {
            break;
        }
        current.copy_from_slice(net.first);
        let layers = Layers {
            net,
            level,
            sink,
            top,
        };
        total += layers.push(left, current, source, top - 1, MOST);
    }
    total
}
