// The layer as a solver.
ghost use Rattle.std.specs.Prelude.{◌≡◌, IfOk};

use super::Layer;
use crate::reduction::Reduction;
use checkers::admit;
use drawing::{Drawing, Record, Refusal, Solver, Statements};
use scratch::Workspace;
use std::alloc::{AllocError, Global};
use std::marker::PhantomData;

impl<R: Reduction, B: Solver + Drop> Layer<R, B> {
    // The layer over this solver.
    pub fn new(heap: Global, below: B) -> Result<Layer<R, B>, AllocError>
        ensures { IfOk result (λ l. l.below ≡ below) }
    {
        let workspace = Workspace::new(heap)?;
        let found = Record::new(heap)?;
        Ok(Layer {
            below,
            workspace,
            found,
            reduction: PhantomData,
        })
    }
}

impl<R: Reduction, B: Solver> Solver for Layer<R, B> {
    ghost states = { λ s. R.Reduction.states (B.Solver.states s.below) };

    ghost answer = { λ s d. R.Reduction.above d (B.Solver.answer s.below (R.Reduction.below d)) };

    ghost modest = { λ s. R.Reduction.modest _ (B.Solver.modest s.below) };

    ghost right = { λ s d h.
        let r = R.Reduction in
        let m = B.Solver in
        r.right _ d h _ (m.right s.below (r.below d) (r.carried _ d (m.modest s.below) h)) };

    fn statements(&self) -> Statements {
        R::statements(self.below.statements())
    }

    fn solve(&mut self, drawing: &Drawing, out: &mut Record) -> Result<(), Refusal> {
        admit(self.statements(), drawing)?;
        R::write_below(drawing, &mut self.workspace);
        self.below.solve(&self.workspace.drawing, &mut self.found)?;
        R::write_above(drawing, &self.found, out);
        Ok(())
    }
}
