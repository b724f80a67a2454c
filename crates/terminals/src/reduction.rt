// What the layer does to a drawing and to an answer.
ghost use Rattle.std.specs.Prelude.{◌≡◌, ◌-◌, ◌/◌, cond, Some, None};
ghost use Rattle.reductions.specs.Terminals.{terminals_below, terminals_above, terminals_fit, terminals_states};
ghost use Rattle.reductions.proofs.Carrying.{terminals_modest, terminals_carried};
ghost use Rattle.reductions.proofs.Terminals.{terminals_right};

use crate::network::push_leads;
use crate::reading::{read_ends, read_labels};
use drawing::{Drawing, Record, Statements, Verdict};
use layering::Reduction;
use scratch::{Workspace, copy_into, file_shortage, push_points};

// One rack and one bar below.
pub struct WithoutTerminals;

// The most points, runs and units, by those below; None where a difference would be below 0.
fn numbers(stated: Statements) -> Option<(usize, usize, u64)>
    ensures { result ≡ cond (terminals_fit stated) (Some (stated.points - 2, stated.runs - (stated.points - 2), stated.units / 3)) None }
{
    let points = stated.points.checked_sub(2)?;
    let runs = stated.runs.checked_sub(points)?;
    Some((points, runs, stated.units / 3))
}

impl Reduction for WithoutTerminals {
    ghost below = { terminals_below };

    ghost above = { terminals_above };

    ghost states = { terminals_states };

    ghost modest = { terminals_modest };

    ghost carried = { terminals_carried };

    ghost right = { λ b d h. terminals_right d h.admissible.lawful };

    fn statements(stated: Statements) -> Statements {
        let (points, runs, units) = numbers(stated).unwrap_or_default();
        Statements {
            terminals: true,
            points,
            runs,
            units,
            ..stated
        }
    }

    fn write_below(drawing: &Drawing, out: &mut Workspace) {
        push_points(&drawing.points, &mut out.drawing.points);
        copy_into(&drawing.runs, &mut out.drawing.runs);
        push_leads(drawing, &mut out.drawing.runs);
    }

    fn write_above(drawing: &Drawing, found: &Record, out: &mut Record) {
        read_labels(drawing, &found.labels, &mut out.labels);
        match found.verdict {
            Verdict::Plan => {
                out.verdict = Verdict::Plan;
                copy_into(&found.flows, &mut out.flows);
                out.flows.truncate(drawing.runs.len());
                read_ends(drawing, found, &mut out.supplies, &mut out.deliveries);
                out.total = found.total;
            }
            Verdict::Shortage => file_shortage(out),
        }
    }
}
