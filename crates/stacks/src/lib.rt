// The standard stack: terminals over links over limits over lower bounds over a bottom solver.
#![tactic(auto)]

ghost use Rattle.std.specs.Prelude.{◌≡◌, IfOk};
ghost use Rattle.residual.specs.Plain.{plain_statements};
ghost use Rattle.reductions.specs.Limits.{limits_states};
ghost use Rattle.reductions.specs.Links.{links_states};
ghost use Rattle.reductions.specs.LowerBounds.{lowers_states};
ghost use Rattle.reductions.specs.Terminals.{terminals_states};
ghost use Rattle.stacks.specs.Standard.{standard_statements};

use drawing::{Solver, Statements};
use limits::Limits;
use links::Links;
use lower_bounds::LowerBounds;
use std::alloc::{AllocError, Global};
use terminals::Terminals;

pub type Standard<B> = Terminals<Links<Limits<LowerBounds<B>>>>;

// The four layers over this bottom solver.
pub fn standard<B: Solver + Drop>(heap: Global, bottom: B) -> Result<Standard<B>, AllocError>
    ensures { IfOk result (λ s. s.below.below.below.below ≡ bottom) }
{
    let lower_bounds = LowerBounds::new(heap, bottom)?;
    let limits = Limits::new(heap, lower_bounds)?;
    let links = Links::new(heap, limits)?;
    Terminals::new(heap, links)
}

// What the stack states: over a bottom solver of plain drawings the four features, 61 points, 163 runs and 100,000,000 units.
pub fn statements_over<B: Solver>(stack: &Standard<B>) -> Statements
    ensures states { result ≡ terminals_states (links_states (limits_states (lowers_states (B.states stack.now.below.below.below.below)))) }
    ensures over_plain { B.states stack.now.below.below.below.below ≡ plain_statements → result ≡ standard_statements }
{
    stack.statements()
}
