// What a layer does to a drawing, and to the answer found below.
ghost use Rattle.std.specs.Prelude.{◌≡◌};
ghost use Rattle.drawing.specs.declared.Statements.{Statements};
ghost use Rattle.drawing.specs.Answers.{Answer, Right};
ghost use Rattle.drawing.specs.Drawings.{Network};
ghost use Rattle.drawing.specs.Records.{network, contents, filed, answer_in};
ghost use Rattle.drawing.specs.Solvers.{Modest, Carried};
ghost use Rattle.layering.specs.Taking.{Taken};

use drawing::{Drawing, Record, Statements};
use scratch::Workspace;

// A type that stands for the reduction: nothing is made of it.
pub trait Reduction {
    // the network below a drawing
    ghost below: { Network → Network };

    // the answer above, by the drawing and the answer to the network below
    ghost above: { Network → Answer → Answer };

    // what the layer states, by what the solver below states
    ghost states: { Statements → Statements };

    // By what the solver below states.
    fn statements(stated: Statements) -> Statements
        ensures { result ≡ states stated };

    // Writes the network below the drawing.
    fn write_below(drawing: &Drawing, out: &mut Workspace)
        requires { Taken states (network drawing.now) }
        ensures { network out.new.drawing ≡ below (network drawing.now) };

    // Writes the answer above, by the answer found below.
    fn write_above(drawing: &Drawing, found: &Record, out: &mut Record)
        requires taken { Taken states (network drawing.now) }
        requires right { Right (below (network drawing.now)) (answer_in found.now) }
        ensures { contents out.new ≡ filed (above (network drawing.now) (answer_in found.now)) };

    // its numbers are modest where those below are
    ghost modest: { (b : Statements) → Modest b → Modest (states b) };

    // what the layer carries, the solver below carries as the network below
    ghost carried: { (b : Statements) (d : Network) → Modest b → Carried (states b) d → Carried b (below d) };

    // the answer above is right where that below is
    ghost right: { (b : Statements) (d : Network) → Carried (states b) d → (a : Answer) → Right (below d) a → Right d (above d a) };
}
