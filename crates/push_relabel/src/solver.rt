// The solver's own memory.
ghost use Rattle.std.specs.Prelude.{◌≡◌, ◌<◌, vec_len};
ghost use Rattle.std.specs.VecDeque.{deque_capacity};

use residual::Residual;
use std::collections::VecDeque;

// It says no to lower bounds, links, limits and terminals and takes 128 points, 1,024 runs and 1,800,000,000 units.
// Near are the points from which no residual path leads to the bar in the end.
// A list for each field and not one of structs, since a turn writes some of them while it reads the others, lent apart.
#[derive(Drop)]
pub struct PushRelabel {
    net: Residual,
    back: Vec<u32>,
    excess: Vec<u32>,
    height: Vec<u32>,
    queue: VecDeque<usize>,
    ghost arcs: { vec_len back ≡ 2048 },
    ghost points: { (vec_len excess ≡ 129) × (vec_len height ≡ 129) },
    ghost room: { 128 < deque_capacity queue },
}

mod solving;
