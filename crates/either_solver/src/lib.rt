// A solver chosen while the program runs.
#![tactic(auto)]

ghost use Rattle.either_solver.specs.declared.Either.TheVariants.{First, Second};

use drawing::{Drawing, Record, Refusal, Solver, Statements};

// One of two solvers; it states and answers as that one does.
#[derive(Drop)]
pub enum Either<X, Y> {
    First(X),
    Second(Y),
}

impl<X: Solver, Y: Solver> Solver for Either<X, Y> {
    ghost states = { λ s. elim s [ First x ↦ X.Solver.states x | Second y ↦ Y.Solver.states y ] };

    ghost answer = { λ s d. elim s [ First x ↦ X.Solver.answer x d | Second y ↦ Y.Solver.answer y d ] };

    ghost modest = { elim [ First x ↦ X.Solver.modest x | Second y ↦ Y.Solver.modest y ] };

    ghost right = { elim [
      | First x ↦ λ d h. X.Solver.right x d h
      | Second y ↦ λ d h. Y.Solver.right y d h
    ] };

    fn statements(&self) -> Statements {
        match self {
            Either::First(x) => x.statements(),
            Either::Second(y) => y.statements(),
        }
    }

    fn solve(&mut self, drawing: &Drawing, out: &mut Record) -> Result<(), Refusal> {
        match self {
            Either::First(x) => x.solve(drawing, out),
            Either::Second(y) => y.solve(drawing, out),
        }
    }
}
