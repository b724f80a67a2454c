// What the layer does to a drawing and to an answer.
ghost use Rattle.reductions.specs.Links.{links_below, links_above, links_states};
ghost use Rattle.reductions.proofs.Carrying.{links_modest, links_carried};
ghost use Rattle.reductions.proofs.Links.{links_right};

use crate::network::{as_lead, lead_back};
use crate::reading::join_flows;
use drawing::{Drawing, Kind, Record, Statements, Verdict};
use layering::Reduction;
use scratch::{Workspace, copy_into, file_shortage, push_within};

// Leads alone below.
pub struct WithoutLinks;

impl Reduction for WithoutLinks {
    ghost below = { links_below };

    ghost above = { links_above };

    ghost states = { links_states };

    ghost modest = { links_modest };

    ghost carried = { links_carried };

    ghost right = { λ b d h. links_right d h.admissible.lawful };

    fn statements(stated: Statements) -> Statements {
        Statements {
            links: true,
            runs: stated.runs / 2,
            units: stated.units / 2,
            ..stated
        }
    }

    fn write_below(drawing: &Drawing, out: &mut Workspace) {
        let runs = drawing.runs.as_slice();
        let links = runs.iter().filter(|r| r.kind == Kind::Link);
        let leads = runs.iter().map(|r| as_lead(*r));
        copy_into(&drawing.points, &mut out.drawing.points);
        out.drawing.runs.clear();
        push_within(
            leads.chain(links.map(|r| lead_back(*r))),
            &mut out.drawing.runs,
        );
    }

    fn write_above(drawing: &Drawing, found: &Record, out: &mut Record) {
        copy_into(&found.labels, &mut out.labels);
        match found.verdict {
            Verdict::Plan => {
                out.verdict = Verdict::Plan;
                join_flows(drawing, found, &mut out.flows);
                copy_into(&found.supplies, &mut out.supplies);
                copy_into(&found.deliveries, &mut out.deliveries);
                out.total = found.total;
            }
            Verdict::Shortage => file_shortage(out),
        }
    }
}
