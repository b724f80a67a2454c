// Dinic's method as a solver.
ghost use Rattle.std.specs.Prelude.{◌≡◌};
ghost use Rattle.drawing.specs.Drawings.{Network};
ghost use Rattle.drawing.specs.Records.{network, contents, filed};
ghost use Rattle.drawing.specs.Solvers.{Carried};
ghost use Rattle.residual.specs.Plain.{Plain, plain_statements};
ghost use Rattle.residual.specs.Paths.{NearByPaths};
ghost use Rattle.blocking.specs.Model.{dinic_answer};
ghost use Rattle.blocking.proofs.Ending.{dinic_right};
ghost use Rattle.std.proofs.Common.{rules, arith};

use crate::solver::Dinic;
use blocking::plan;
use checkers::admit;
use drawing::{Drawing, Record, Refusal, Solver, Statements};
use residual::{Residual, plain_statements};
use std::alloc::{AllocError, Global};

impl Dinic {
    // All the memory that it ever uses.
    // near: in its answer to each drawing that it carries, near are just the points to which a residual path leads from
    // the rack under the answer's own flows.
    #[tactic(auto, using(blocking::proofs::Ending::dinic_near))]
    pub fn new(heap: Global) -> Result<Dinic, AllocError>
        ensures near { (d : Network) → Carried plain_statements d → NearByPaths d (dinic_answer d) }
    {
        let net = Residual::new(heap)?;
        let current = vec![in heap; 0; 129]?;
        Ok(Dinic { net, current })
    }

    // Writes the answer to a plain drawing.
    fn plan(&mut self, drawing: &Drawing, out: &mut Record)
        requires { Plain (network drawing.now) }
        ensures { contents out.new ≡ filed (dinic_answer (network drawing.now)) }
    {
        let points = drawing.points.len() + 1;
        let arcs = 2 * drawing.runs.len();
        plan(
            drawing,
            &mut self.net.head[0..arcs],
            &mut self.net.next[0..arcs],
            &mut self.net.left[0..arcs],
            &mut self.net.first[0..points],
            &mut self.net.level[0..points],
            &mut self.current[0..points],
            out,
        );
    }
}

// An impl for each method: what they share, the statements and the admission, is one function each.
impl Solver for Dinic {
    ghost states = { λ _. plain_statements };

    ghost answer = { λ _ d. dinic_answer d };

    ghost modest = { first_of (Prim.search rules, Prim.grind (arith, Self.row.coded.inj)) };

    ghost right = { λ s d h. dinic_right d h };

    fn statements(&self) -> Statements {
        plain_statements()
    }

    fn solve(&mut self, drawing: &Drawing, out: &mut Record) -> Result<(), Refusal> {
        admit(self.statements(), drawing)?;
        self.plan(drawing, out);
        Ok(())
    }
}
