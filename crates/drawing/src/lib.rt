// Drawings, answers to them, and what a solver is.
#![tactic(auto)]

ghost use Rattle.std.specs.Prelude.{◌≡◌};
ghost use Rattle.drawing.specs.declared.Kind.TheVariants.{Lead, Link};

pub mod codes;
pub mod lending;
pub mod record;
pub mod solver;

pub use record::Record;
pub use solver::Solver;

// What a point is for: nothing of its own, a source of circuits, or a sink where they end.
#[derive(Clone, Copy, PartialEq, Eq)]
pub enum Mark {
    Plain,
    Rack,
    Bar,
}

// A limit (a node capacity) bounds the sum of what enters the point and what is supplied there.
#[derive(Clone, Copy, PartialEq, Eq)]
pub struct Point {
    pub mark: Mark,
    pub limit: Option<u32>,
}

// A lead (an arc) carries from its tail to its head, a link (an undirected edge) either way.
#[derive(Clone, Copy, PartialEq, Eq)]
pub enum Kind {
    Lead,
    Link,
}

// Points are numbered from 1. Of a link, tail is the first end and head the second.
#[derive(Clone, Copy, PartialEq, Eq)]
pub struct Run {
    pub kind: Kind,
    pub tail: usize,
    pub head: usize,
    pub lower: u32,
    pub upper: u32,
}

impl Run {
    // A lead from tail to head.
    pub fn lead(tail: usize, head: usize, lower: u32, upper: u32) -> Run
        ensures { result ≡ record { kind = Lead; tail = tail; head = head; lower = lower; upper = upper } }
    {
        Run {
            kind: Kind::Lead,
            tail,
            head,
            lower,
            upper,
        }
    }

    // A link between the two points.
    pub fn link(first: usize, second: usize, upper: u32) -> Run
        ensures { result ≡ record { kind = Link; tail = first; head = second; lower = 0; upper = upper } }
    {
        Run {
            kind: Kind::Link,
            tail: first,
            head: second,
            lower: 0,
            upper,
        }
    }
}

// Points 1, 2, .. and runs 1, 2, .., in order. Nothing says yet that it keeps the rules.
#[derive(Drop)]
pub struct Drawing {
    pub points: Vec<Point>,
    pub runs: Vec<Run>,
}

// Where a point lies to a bottleneck: on the side of the racks, in it, or on the side of the bars.
#[derive(Clone, Copy, PartialEq, Eq)]
pub enum Label {
    Near,
    Tight,
    Far,
}

#[derive(Clone, Copy, PartialEq, Eq)]
pub enum Verdict {
    Plan,
    Shortage,
}

// What a drawing may use and a solver may not take.
#[derive(Clone, Copy, PartialEq, Eq)]
pub enum Feature {
    LowerBounds,
    Links,
    Limits,
    Terminals,
}

// What a solver says of itself: the features that it takes, and its most points, runs and units.
#[derive(Clone, Copy, PartialEq, Eq)]
pub struct Statements {
    pub lowers: bool,
    pub links: bool,
    pub limits: bool,
    pub terminals: bool,
    pub points: usize,
    pub runs: usize,
    pub units: u64,
}

// Every refusal of the library. `codes` has their numbers.
#[derive(Clone, Copy, PartialEq, Eq)]
pub enum Refusal {
    PointCount,
    NoSuchPoint,
    NoSuchRun,
    NoSuchMark,
    BadRange,
    EqualEnds,
    UnknownLine,
    LineOrder,
    TextTooLong,
    BrokenDrawing,
    RunsFull,
    Unsupported(Feature),
    TooLarge,
    NotSolved,
    OtherVerdict,
    OutputTooShort,
}
