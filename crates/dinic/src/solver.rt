// The solver's own memory.
ghost use Rattle.std.specs.Prelude.{◌≡◌, vec_len};

use residual::Residual;

// It says no to lower bounds, links, limits and terminals and takes 128 points, 1,024 runs and 1,800,000,000 units.
// Near are the points that its last search reached.
// A list for each field and not one of structs, since a push writes some of them while it reads the others, lent apart.
#[derive(Drop)]
pub struct Dinic {
    net: Residual,
    current: Vec<u32>,
    ghost points: { vec_len current ≡ 129 },
}

mod solving;
