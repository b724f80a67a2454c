// Push-relabel as a solver.
ghost use Rattle.std.specs.Prelude.{◌≡◌};
ghost use Rattle.drawing.specs.Drawings.{Network, point_count};
ghost use Rattle.drawing.specs.Records.{network, contents, filed};
ghost use Rattle.drawing.specs.Solvers.{Carried};
ghost use Rattle.residual.specs.Plain.{Plain, plain_statements, rack_of, bar_of};
ghost use Rattle.preflow.specs.Turns.{turns_for};
ghost use Rattle.preflow.specs.Fifo.{Fifo};
ghost use Rattle.preflow.specs.Opening.{Opened};
ghost use Rattle.preflow.specs.Rising.{Rising};
ghost use Rattle.preflow.specs.Unpathed.{NearUnlessPaths};
ghost use Rattle.preflow.specs.Model.{state_of, relabel_answer};
ghost use Rattle.preflow.proofs.Ending.{relabel_right};
ghost use Rattle.std.proofs.Common.{rules, arith};

use crate::solver::PushRelabel;
use checkers::admit;
use drawing::{Drawing, Record, Refusal, Solver, Statements};
use preflow::plan;
use residual::{Residual, plain_statements};
use std::alloc::{AllocError, Global};
use std::collections::VecDeque;

impl PushRelabel {
    // All the memory that it ever uses. Of each drawing that it carries:
    // near: in its answer near are just the points from which no residual path leads to the bar under the answer's own
    // flows.
    // fifo: the queue holds each active point once, and each turn serves the one that joined it first.
    // opened: before the first turn the queue holds the points that the rack's pushes made active, in that order.
    // rising: the rack starts at its height and the others at 0, no turn lowers a point, and the turns suffice.
    #[tactic(auto, using(preflow::proofs::Ending::relabel_near, preflow::proofs::Ending::relabel_fifo, preflow::proofs::Ending::relabel_opened))]
    pub fn new(heap: Global) -> Result<PushRelabel, AllocError>
        ensures near { (d : Network) → Carried plain_statements d → NearUnlessPaths d (relabel_answer d) }
        ensures fifo { (d : Network) → Carried plain_statements d → Fifo (rack_of d) (bar_of d) (state_of d) }
        ensures opened { (d : Network) → Carried plain_statements d → Opened (point_count d) (rack_of d) (bar_of d) (state_of d 0) }
        ensures rising { (d : Network) → Carried plain_statements d → Rising (point_count d) (rack_of d) (bar_of d) (turns_for (point_count d)) (state_of d) }
    {
        let net = Residual::new(heap)?;
        let back = vec![in heap; 0; 2048]?;
        let excess = vec![in heap; 0; 129]?;
        let height = vec![in heap; 0; 129]?;
        let queue = VecDeque::with_capacity(heap, 129)?;
        Ok(PushRelabel {
            net,
            back,
            excess,
            height,
            queue,
        })
    }

    // Writes the answer to a plain drawing.
    fn plan(&mut self, drawing: &Drawing, out: &mut Record)
        requires { Plain (network drawing.now) }
        ensures { contents out.new ≡ filed (relabel_answer (network drawing.now)) }
    {
        let points = drawing.points.len() + 1;
        let arcs = 2 * drawing.runs.len();
        plan(
            drawing,
            &mut self.net.head[0..arcs],
            &mut self.net.next[0..arcs],
            &mut self.net.left[0..arcs],
            &mut self.back[0..arcs],
            &mut self.net.first[0..points],
            &mut self.net.level[0..points],
            &mut self.excess[0..points],
            &mut self.height[0..points],
            &mut self.queue,
            out,
        );
    }
}

// An impl for each method: what they share, the statements and the admission, is one function each.
impl Solver for PushRelabel {
    ghost states = { λ _. plain_statements };

    ghost answer = { λ _ d. relabel_answer d };

    ghost modest = { first_of (Prim.search rules, Prim.grind (arith, Self.row.coded.inj)) };

    ghost right = { λ s d h. relabel_right d h };

    fn statements(&self) -> Statements {
        plain_statements()
    }

    fn solve(&mut self, drawing: &Drawing, out: &mut Record) -> Result<(), Refusal> {
        admit(self.statements(), drawing)?;
        self.plan(drawing, out);
        Ok(())
    }
}
