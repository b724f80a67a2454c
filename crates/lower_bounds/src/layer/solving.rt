// The layer as a solver.
ghost use Rattle.std.specs.Prelude.{◌≡◌, ◌-◌, ◌*◌, ◌/◌, ◌≤◌, min, cond, Some, None, IfOk};
ghost use Rattle.reductions.specs.LowerBounds.{lowers_first, lowers_above, lowers_fit, lowers_states, lowers_second};
ghost use Rattle.reductions.proofs.Carrying.{lowers_modest, plain_drawing, lowers_first_carried, lowers_second_carried};
ghost use Rattle.reductions.proofs.LowersSecond.{lowers_right};

use super::LowerBounds;
use super::network::{write_first, write_second};
use super::reading::{shows_shortage, write_raised, write_short};
use checkers::admit;
use drawing::{Drawing, Record, Refusal, Solver, Statements};
use scratch::Workspace;
use std::alloc::{AllocError, Global};

impl<B: Solver + Drop> LowerBounds<B> {
    // The layer over this solver.
    pub fn new(heap: Global, below: B) -> Result<LowerBounds<B>, AllocError>
        ensures { IfOk result (λ l. l.below ≡ below) }
    {
        let workspace = Workspace::new(heap)?;
        let first = Record::new(heap)?;
        let second = Record::new(heap)?;
        Ok(LowerBounds {
            below,
            workspace,
            first,
            second,
        })
    }
}

// The most points, runs and units, by those below; None where a difference would be below 0.
fn numbers(below: Statements) -> Option<(usize, usize, u64)>
    requires { below.points ≤ 128 }
    ensures { result ≡ cond (lowers_fit below) (Some (below.points - 2, min (below.runs / 2) (below.runs - 2 * (below.points - 2) - 1), below.units / 3)) None }
{
    let points = below.points.checked_sub(2)?;
    let runs = below.runs.checked_sub(2 * points + 1)?;
    Some((points, runs.min(below.runs / 2), below.units / 3))
}

impl<B: Solver> Solver for LowerBounds<B> {
    ghost states = { λ s. lowers_states (B.Solver.states s.below) };

    ghost answer = { λ s d. lowers_above d (B.Solver.answer s.below (lowers_first d)) (B.Solver.answer s.below) };

    ghost modest = { λ s. lowers_modest _ (B.Solver.modest s.below) };

    ghost right = { λ s d h.
        let met = B.Solver in
        let x = s.below in
        let b = B.Solver.states x in
        let plain = plain_drawing b d h in
        lowers_right d plain.lawful plain.no_links plain.no_limits plain.one_each _ (B.Solver.answer x)
        (met.right x (lowers_first d) (lowers_first_carried b d (met.modest x) h))
        (λ p ok. met.right x (lowers_second d p) (lowers_second_carried b d (met.modest x) h p ok)) };

    fn statements(&self) -> Statements {
        let (points, runs, units) = numbers(self.below.statements()).unwrap_or_default();
        Statements {
            lowers: true,
            links: false,
            limits: false,
            terminals: false,
            points,
            runs,
            units,
        }
    }

    fn solve(&mut self, drawing: &Drawing, out: &mut Record) -> Result<(), Refusal> {
        admit(self.statements(), drawing)?;
        write_first(drawing, &mut self.workspace);
        self.below.solve(&self.workspace.drawing, &mut self.first)?;
        if shows_shortage(drawing, &self.first) {
            write_short(drawing, &self.first, out);
            return Ok(());
        }
        write_second(drawing, &self.first, &mut self.workspace);
        self.below.solve(&self.workspace.drawing, &mut self.second)?;
        write_raised(drawing, &self.first, &self.second, out);
        Ok(())
    }
}
