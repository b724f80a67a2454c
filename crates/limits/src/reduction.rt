// What the layer does to a drawing and to an answer.
ghost use Rattle.std.specs.Prelude.{◌≡◌, ◌-◌, ◌/◌, cond, Some, None};
ghost use Rattle.reductions.specs.Limits.{limits_below, limits_above, limits_fit, limits_states};
ghost use Rattle.reductions.proofs.Carrying.{limits_modest, limits_carried, limits_no_links};
ghost use Rattle.reductions.proofs.Limits.{limits_right};

use crate::network::{beyond, entry, push_leads, push_runs};
use crate::reading::{read_deliveries, read_labels};
use drawing::{Drawing, Record, Statements, Verdict};
use layering::Reduction;
use scratch::{Workspace, copy_into, file_shortage, push_within};

// No limits below.
pub struct WithoutLimits;

// The most points, runs and units, by those below; None where a difference would be below 0.
fn numbers(stated: Statements) -> Option<(usize, usize, u64)>
    ensures { result ≡ cond (limits_fit stated) (Some (stated.points / 2, stated.runs - stated.points / 2, stated.units)) None }
{
    let points = stated.points / 2;
    let runs = stated.runs.checked_sub(points)?;
    Some((points, runs, stated.units))
}

impl Reduction for WithoutLimits {
    ghost below = { limits_below };

    ghost above = { limits_above };

    ghost states = { limits_states };

    ghost modest = { limits_modest };

    ghost carried = { limits_carried };

    ghost right = { λ b d h. limits_right d h.admissible.lawful (limits_no_links b d h) };

    fn statements(stated: Statements) -> Statements {
        let (points, runs, units) = numbers(stated).unwrap_or_default();
        Statements {
            links: false,
            limits: true,
            points,
            runs,
            units,
            ..stated
        }
    }

    fn write_below(drawing: &Drawing, out: &mut Workspace) {
        let entries = drawing.points.iter().map(|q| entry(*q));
        out.drawing.points.clear();
        push_within(
            entries.chain(drawing.points.iter().map(|q| beyond(*q))),
            &mut out.drawing.points,
        );
        push_runs(drawing, &mut out.drawing.runs);
        push_leads(drawing, &mut out.drawing.runs);
    }

    fn write_above(drawing: &Drawing, found: &Record, out: &mut Record) {
        read_labels(drawing, &found.labels, &mut out.labels);
        match found.verdict {
            Verdict::Plan => {
                out.verdict = Verdict::Plan;
                copy_into(&found.flows, &mut out.flows);
                out.flows.truncate(drawing.runs.len());
                copy_into(&found.supplies, &mut out.supplies);
                out.supplies.truncate(drawing.points.len());
                read_deliveries(drawing, found, &mut out.deliveries);
                out.total = found.total;
            }
            Verdict::Shortage => file_shortage(out),
        }
    }
}
