// What `admit` answers to drawings at and past each limit.
use checkers::{admit, units};
use drawing::{Drawing, Feature, Kind, Mark, Point, Refusal, Run, Statements};
use std::alloc::{AllocError, Global};
use std::process::Abort;
use std::test::Fail;

// So many points, of which the first is a rack, with this limit, the second a bar and the others plain, and so many runs, all alike;
// what the solver states; and what it is told.
struct Case {
    points: usize,
    limit: Option<u32>,
    runs: usize,
    run: Run,
    solver: Statements,
    want: Result<(), Refusal>,
}

const ALL: Statements = Statements {
    lowers: true,
    links: true,
    limits: true,
    terminals: true,
    points: 128,
    runs: 1024,
    units: 1_800_000_000,
};

const BARE: Statements = Statements {
    lowers: false,
    links: false,
    limits: false,
    terminals: false,
    ..ALL
};

// How many points, the limit of the first; how many runs, their kind, tail, head, lower and upper; the solver, and what it is told.
// The run is written out: a constant calls no function, and `Run::link` makes no link with a lower, which is tried here.
macro_rules! case {
    ($points:literal, $limit:expr; $runs:literal, $kind:ident $tail:literal $head:literal $lower:literal $upper:literal; $solver:expr => $want:expr) => {
        Case {
            points: $points,
            limit: $limit,
            runs: $runs,
            run: Run { kind: Kind::$kind, tail: $tail, head: $head, lower: $lower, upper: $upper },
            solver: $solver,
            want: $want,
        }
    };
}

const CASES: [Case; 32] = [
    case!(0, None; 0, Lead 1 2 0 0; ALL => Err(Refusal::BrokenDrawing)),
    case!(1, None; 0, Lead 1 2 0 0; ALL => Ok(())),
    case!(1, None; 0, Lead 1 2 0 0; Statements { terminals: false, ..ALL } => Err(Refusal::Unsupported(Feature::Terminals))),
    case!(2, None; 0, Lead 1 2 0 0; BARE => Ok(())),
    case!(128, None; 1, Lead 1 128 0 9; BARE => Ok(())),
    case!(129, None; 1, Lead 1 128 0 9; BARE => Err(Refusal::BrokenDrawing)),
    case!(2, None; 1024, Lead 1 2 0 9; BARE => Ok(())),
    case!(2, None; 1025, Lead 1 2 0 9; BARE => Err(Refusal::BrokenDrawing)),
    case!(2, None; 1, Lead 1 2 4 4; Statements { lowers: true, ..BARE } => Ok(())),
    case!(2, None; 1, Lead 1 2 5 4; ALL => Err(Refusal::BrokenDrawing)),
    case!(2, None; 1, Lead 2 2 0 4; ALL => Err(Refusal::BrokenDrawing)),
    case!(2, None; 1, Lead 0 2 0 4; ALL => Err(Refusal::BrokenDrawing)),
    case!(2, None; 1, Lead 3 2 0 4; ALL => Err(Refusal::BrokenDrawing)),
    case!(2, None; 1, Lead 1 0 0 4; ALL => Err(Refusal::BrokenDrawing)),
    case!(2, None; 1, Lead 1 3 0 4; ALL => Err(Refusal::BrokenDrawing)),
    case!(2, None; 1, Link 1 2 1 4; ALL => Err(Refusal::BrokenDrawing)),
    case!(2, None; 1, Link 1 2 0 4; Statements { links: true, ..BARE } => Ok(())),
    case!(2, None; 1, Link 1 2 0 4; Statements { links: false, ..ALL } => Err(Refusal::Unsupported(Feature::Links))),
    case!(2, None; 1, Lead 1 2 1 4; Statements { lowers: false, ..ALL } => Err(Refusal::Unsupported(Feature::LowerBounds))),
    case!(2, Some(0); 1, Lead 1 2 0 4; Statements { limits: true, ..BARE } => Ok(())),
    case!(2, Some(0); 1, Lead 1 2 0 4; Statements { limits: false, ..ALL } => Err(Refusal::Unsupported(Feature::Limits))),
    case!(1, Some(0); 1, Lead 1 2 0 4; BARE => Err(Refusal::BrokenDrawing)),
    case!(2, Some(0); 1, Lead 1 2 1 4; Statements { units: 0, ..BARE } => Err(Refusal::Unsupported(Feature::LowerBounds))),
    case!(2, Some(0); 1, Link 1 2 0 4; Statements { units: 0, ..BARE } => Err(Refusal::Unsupported(Feature::Links))),
    case!(3, None; 1, Lead 1 2 0 4; Statements { points: 3, ..ALL } => Ok(())),
    case!(3, None; 1, Lead 1 2 0 4; Statements { points: 2, ..ALL } => Err(Refusal::TooLarge)),
    case!(2, None; 3, Lead 1 2 0 4; Statements { runs: 3, ..ALL } => Ok(())),
    case!(2, None; 3, Lead 1 2 0 4; Statements { runs: 2, ..ALL } => Err(Refusal::TooLarge)),
    case!(2, None; 1, Lead 1 2 0 1_800_000_000; BARE => Ok(())),
    case!(2, None; 1, Lead 1 2 0 1_800_000_001; BARE => Err(Refusal::TooLarge)),
    case!(2, Some(3); 3, Lead 1 2 0 4; Statements { units: 15, ..ALL } => Ok(())),
    case!(2, Some(4); 3, Lead 1 2 0 4; Statements { units: 15, ..ALL } => Err(Refusal::TooLarge)),
];

fn alike(heap: Global, case: &Case) -> Result<Drawing, AllocError> {
    let mut points = vec![in heap; Point {
        mark: Mark::Plain,
        limit: None
    }; case.points]?;
    if let Some(first) = points.get_mut(0) {
        *first = Point {
            mark: Mark::Rack,
            limit: case.limit,
        };
    }
    if let Some(second) = points.get_mut(1) {
        second.mark = Mark::Bar;
    }
    let runs = vec![in heap; case.run; case.runs]?;
    Ok(Drawing { points, runs })
}

#[test]
fn admits_up_to_each_limit(rt: HostRuntime) -> Result<(), Fail> {
    for (k, case) in CASES.iter().enumerate() {
        let d = alike(rt.alloc(), case)?;
        assert!(&rt; admit(case.solver, &d) == case.want, "{k}");
        assert!(&rt;
            units(&d).is_none() == (case.want == Err(Refusal::BrokenDrawing)),
            "{k}"
        );
    }
    Ok(())
}
