// What a solver is. Layers and the rig rest on this trait alone.
ghost use Rattle.std.specs.Prelude.{◌≡◌};
ghost use Rattle.drawing.specs.declared.Statements.{Statements};
ghost use Rattle.drawing.specs.Drawings.{Network};
ghost use Rattle.drawing.specs.Answers.{Answer, Right};
ghost use Rattle.drawing.specs.Records.{network};
ghost use Rattle.drawing.specs.Solvers.{Modest, Carried, refusal, told, Written};

use crate::{Drawing, Record, Refusal, Statements};

pub trait Solver {
    // what it states: the features that it takes and its three numbers
    ghost states: { Self → Statements };

    // its one answer to each drawing that it carries; of any other it means nothing
    ghost answer: { Self → Network → Answer };

    fn statements(&self) -> Statements
        ensures { result ≡ states self.now };

    // refuses: by 10, 22 or 23, and just what it does not carry.
    // writes: just its answer where it accepts, and nothing where it refuses.
    // keeps: no call alters its statements or its answers.
    fn solve(&mut self, drawing: &Drawing, out: &mut Record) -> Result<(), Refusal>
        ensures refuses { told result ≡ refusal (states self.old) (network drawing.now) }
        ensures writes { Written (answer self.old (network drawing.now)) out.old out.new result }
        ensures keeps_statements { states self.new ≡ states self.old }
        ensures keeps_answers { answer self.new ≡ answer self.old };

    // its numbers are never above 128 points, 1,024 runs and 1,800,000,000 units
    ghost modest: { (s : Self) → Modest (states s) };

    // its answer to each drawing that it carries is right
    ghost right: { (s : Self) (d : Network) → Carried (states s) d → Right d (answer s d) };
}
