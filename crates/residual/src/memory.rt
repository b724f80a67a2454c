// The memory of a solver.
ghost use Rattle.std.specs.Prelude.{◌≡◌, vec_len};

// Room for the arcs and points of the largest drawing that a solver takes, so that no solve allocates. `head`, `next`
// and `first` are as in `Net`, `left` is what each arc can still carry and `level` what a search gives to each point.
// A solve uses the front of each, and what they hold between two solves means nothing. They are lists beside one another
// and not one list of structs: a search and a push read `head` and `left` of other arcs alone, and `head`, `next` and
// `first` are lent apart from `left` and `level`. 0 stands for none, since the memory is fixed.
#[derive(Drop)]
pub struct Residual {
    pub head: Vec<u32>,
    pub next: Vec<u32>,
    pub first: Vec<u32>,
    pub left: Vec<u32>,
    pub level: Vec<u32>,
    ghost arcs: { (vec_len head ≡ 2048) × (vec_len next ≡ 2048) × (vec_len left ≡ 2048) },
    ghost points: { (vec_len first ≡ 129) × (vec_len level ≡ 129) },
}

mod making;
