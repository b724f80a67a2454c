// The runs of the network below.
ghost use Rattle.std.specs.Prelude.{◌≡◌};
ghost use Rattle.reductions.specs.Links.{as_lead, lead_back};

use drawing::{Kind, Run};
use scratch::lead;

// The run as a lead from its first end to its second.
pub(crate) fn as_lead(r: Run) -> Run
    ensures { result ≡ as_lead r }
{
    Run {
        kind: Kind::Lead,
        ..r
    }
}

// The lead back of a link.
pub(crate) fn lead_back(r: Run) -> Run
    ensures { result ≡ lead_back r }
{
    lead(r.head, r.tail, r.upper)
}
