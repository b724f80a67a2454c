// The run table of a drawing: a plain struct, which lends one run to be changed.
ghost use Rattle.std.specs.Prelude.{◌≡◌, is_some, IfSome, vec_len, nat_lt, slice_index_or};
ghost use Rattle.std.specs.Borrow.{sem, follows_if};
ghost use Rattle.std.specs.Vec.{with_item};
ghost use Rattle.std.specs.Option.{ghost_name_of as name_of};
ghost use Rattle.drawing.specs.contracts.Drawing.{the_row as drawing-row};
ghost use Rattle.drawing.specs.contracts.Run.{the_row as run_row};

use crate::{Drawing, Run};

impl Drawing {
    // Lends the run at index k, counted from 0, if it is there. What is written through the loan is all that changes.
    pub fn run_mut(&mut self, k: usize) -> Option<&mut Run>
        ensures* lends { sem 𝓛 (follows_if drawing-row run_row self.entry.ghost_name (name_of result) (λ w. record { points = self.old.points; runs = with_item self.old.runs k w }) self.old) }
        ensures there { is_some result ≡ nat_lt k (vec_len self.old.runs) }
        ensures value { IfSome result (λ x. x.now ≡ slice_index_or self.old.runs.items k x.now) }
    {
        self.runs.get_mut(k)
    }
}
