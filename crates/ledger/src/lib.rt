// The calls of a rig and what they are told, as values; the ledger and the law over lists of calls stand in specs.
#![tactic(auto)]

ghost use Rattle.std.specs.Prelude.{◌≡◌};
ghost use Rattle.ledger.specs.Endings.{standing_by};

use drawing::{Label, Refusal, Verdict};
use std::fmt;

// Without an ending a rig is drawn; with a plan it is planned, with a shortage short.
#[derive(Clone, Copy, PartialEq, Eq)]
pub enum Standing {
    Drawn,
    Planned,
    Short,
}

// The standing that a verdict gives.
impl From<Verdict> for Standing {
    ghost from_gives = { λ verdict standing. standing ≡ standing_by verdict };

    fn from(verdict: Verdict) -> Standing {
        match verdict {
            Verdict::Plan => Standing::Planned,
            Verdict::Shortage => Standing::Short,
        }
    }
}

impl fmt::Display for Standing {
    fn fmt<W: fmt::Write>(&self, f: &mut fmt::Formatter<W>) -> fmt::Result {
        f.write_str(match self {
            Standing::Drawn => "drawn",
            Standing::Planned => "planned",
            Standing::Short => "short",
        })
    }
}

// A call of a list. A solve holds its solver, a sheet its output.
#[derive(Drop)]
pub enum Call<S> {
    Mark(usize, u32),
    Limit(usize, Option<u32>),
    Lead(usize, usize, u32, u32),
    Link(usize, usize, u32),
    Rerate(usize, u32, u32),
    Solve(S),
    Standing,
    Total,
    Worth,
    Label(usize),
    Use(usize),
    Sheet(Vec<u8>),
}

// What a call was told.
#[derive(Drop)]
pub enum Told {
    Done(Result<(), Refusal>),
    Laid(Result<usize, Refusal>),
    Standing(Standing),
    Total(Result<u32, Refusal>),
    Worth(Result<i32, Refusal>),
    Label(Result<Label, Refusal>),
    Use(Result<(i32, u32), Refusal>),
    Sheet(Result<usize, Refusal>),
}
