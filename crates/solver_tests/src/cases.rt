// One table of drawings for both bottom solvers.
use checkers::is_right;
use dinic::Dinic;
use drawing::{Drawing, Feature, Kind, Mark, Point, Record, Refusal, Run, Solver};
use push_relabel::PushRelabel;
use std::alloc::{AllocError, Global};
use std::process::Abort;
use std::test::Fail;

// So many runs: the first, and from one to the next both ends move by so much.
#[derive(Clone, Copy)]
struct Group {
    count: usize,
    by: usize,
    first: Run,
}

// The labels that each solver finds.
#[derive(Clone, Copy)]
struct Letters {
    dinic: &'static str,
    push_relabel: &'static str,
}

// An enum, and no closure that reads the letters: the borrow checker covers no call of a closure with a value that holds a `&'static str`.
#[derive(Clone, Copy)]
enum Bottom {
    Dinic,
    PushRelabel,
}

impl Letters {
    fn of(self, bottom: Bottom) -> &'static str {
        match bottom {
            Bottom::Dinic => self.dinic,
            Bottom::PushRelabel => self.push_relabel,
        }
    }
}

// A plan's total, and its labels where they are compared.
#[derive(Clone, Copy)]
struct Want {
    total: u32,
    letters: Option<Letters>,
}

// So many points, of which one is the rack and one the bar, the first with this limit; groups of runs; and what a solver is to say.
struct Case {
    points: usize,
    rack: usize,
    bar: Option<usize>,
    limit: Option<u32>,
    groups: &'static [Group],
    want: Result<Want, Refusal>,
}

// A total, and then Dinic's labels and push-relabel's.
macro_rules! plan {
    ($total:literal) => {
        Ok(Want { total: $total, letters: None })
    };
    ($total:literal, $dinic:literal, $push_relabel:literal) => {
        Ok(Want {
            total: $total,
            letters: Some(Letters { dinic: $dinic, push_relabel: $push_relabel }),
        })
    };
}

// How many points, the rack, the bar, the limit of the first; groups of runs, with kind, tail, head, lower and upper of the first; and what is told.
// The run is written out, since a constant calls no function, not even `Run::lead`.
macro_rules! case {
    ($points:literal, $rack:literal, $bar:expr, $limit:expr; [$($count:literal by $by:literal $kind:ident $tail:literal $head:literal $lower:literal $upper:literal),*] => $want:expr) => {
        Case {
            points: $points,
            rack: $rack,
            bar: $bar,
            limit: $limit,
            groups: &[$(Group {
                count: $count,
                by: $by,
                first: Run { kind: Kind::$kind, tail: $tail, head: $head, lower: $lower, upper: $upper },
            }),*],
            want: $want,
        }
    };
}

const CASES: [Case; 21] = [
    case!(2, 1, Some(2), None; [1 by 0 Lead 1 2 0 7] => plan!(7, "nf", "nf")),
    case!(2, 1, Some(2), None; [3 by 0 Lead 1 2 0 4] => plan!(12, "nf", "nf")),
    case!(2, 1, Some(2), None; [1 by 0 Lead 1 2 0 0] => plan!(0, "nf", "nf")),
    case!(2, 2, Some(1), None; [1 by 0 Lead 1 2 0 5] => plan!(0, "fn", "fn")),
    case!(2, 1, Some(2), None; [] => plan!(0, "nf", "nf")),
    case!(4, 1, Some(4), None; [1 by 0 Lead 1 2 0 5, 1 by 0 Lead 3 4 0 5] => plan!(0, "nnff", "nnff")),
    case!(4, 1, Some(4), None; [1 by 0 Lead 1 2 0 1, 1 by 0 Lead 1 3 0 1, 1 by 0 Lead 2 3 0 1, 1 by 0 Lead 2 4 0 1, 1 by 0 Lead 3 4 0 1] => plan!(2, "nfff", "nnnf")),
    case!(5, 3, Some(5), None; [1 by 0 Lead 3 2 0 9, 1 by 0 Lead 3 4 0 9, 1 by 0 Lead 2 5 0 4, 1 by 0 Lead 4 5 0 5] => plan!(9, "fnnnf", "nnnnf")),
    case!(128, 1, Some(128), None; [127 by 1 Lead 1 2 0 3] => plan!(3)),
    case!(128, 1, Some(128), None; [127 by 1 Lead 1 2 0 127, 126 by 1 Lead 1 3 0 1] => plan!(128)),
    case!(2, 1, Some(2), None; [1023 by 0 Lead 1 2 0 1_757_812, 1 by 0 Lead 1 2 0 1_758_324] => plan!(1_800_000_000, "nf", "nf")),
    case!(2, 1, Some(2), None; [1 by 0 Lead 1 2 0 1_800_000_000] => plan!(1_800_000_000, "nf", "nf")),
    case!(2, 1, Some(2), None; [1 by 0 Lead 1 2 0 1_800_000_001] => Err(Refusal::TooLarge)),
    case!(2, 1, Some(2), None; [1025 by 0 Lead 1 2 0 1] => Err(Refusal::BrokenDrawing)),
    case!(129, 1, Some(2), None; [1 by 0 Lead 1 2 0 1] => Err(Refusal::BrokenDrawing)),
    case!(2, 1, Some(2), None; [1 by 0 Lead 1 3 0 1] => Err(Refusal::BrokenDrawing)),
    case!(2, 1, Some(2), None; [1 by 0 Lead 1 2 1 1] => Err(Refusal::Unsupported(Feature::LowerBounds))),
    case!(2, 1, Some(2), None; [1 by 0 Link 1 2 0 1] => Err(Refusal::Unsupported(Feature::Links))),
    case!(2, 1, Some(2), Some(0); [1 by 0 Lead 1 2 0 1] => Err(Refusal::Unsupported(Feature::Limits))),
    case!(2, 1, None, None; [1 by 0 Lead 1 2 0 1] => Err(Refusal::Unsupported(Feature::Terminals))),
    case!(3, 1, Some(3), None; [1 by 0 Lead 1 2 0 4, 1 by 0 Lead 2 3 0 6] => plan!(4, "nff", "nff")),
];

impl Group {
    fn run(&self, k: usize) -> Run {
        let by = self.by.saturating_mul(k);
        Run {
            tail: self.first.tail.saturating_add(by),
            head: self.first.head.saturating_add(by),
            ..self.first
        }
    }
}

impl Case {
    fn point(&self, v: usize) -> Point {
        let mark = if v == self.rack {
            Mark::Rack
        } else if Some(v) == self.bar {
            Mark::Bar
        } else {
            Mark::Plain
        };
        let limit = if v == 1 { self.limit } else { None };
        Point { mark, limit }
    }

    fn draw(&self, heap: Global) -> Result<Drawing, AllocError> {
        let points = (1..=self.points).map(|v| self.point(v)).collect(heap)?;
        let mut runs = Vec::new(heap);
        for g in self.groups {
            runs.extend((0..g.count).map(|k| g.run(k)))?;
        }
        Ok(Drawing { points, runs })
    }
}

fn are_labels(out: &Record, letters: &str) -> bool {
    out.labels.iter().map(|l| l.letter()).eq(letters.bytes())
}

fn solves_one_after_the_other<S: Solver>(
    rt: &impl Abort,
    heap: Global,
    solver: &mut S,
    bottom: Bottom,
) -> Result<(), Fail> {
    let mut out = Record::new(heap)?;
    for (k, case) in CASES.iter().enumerate() {
        let d = case.draw(heap)?;
        for _ in 0..2 {
            let held = (out.total, out.labels.len());
            let told = solver.solve(&d, &mut out);
            match case.want {
                Ok(want) => {
                    assert!(rt; told == Ok(()), "{k}");
                    assert!(rt; out.total == want.total, "{k}");
                    if let Some(letters) = want.letters {
                        assert!(rt; are_labels(&out, letters.of(bottom)), "{k}");
                    }
                    assert!(rt; is_right(&d, &out), "{k}");
                }
                Err(e) => {
                    assert!(rt; told == Err(e), "{k}");
                    assert!(rt; (out.total, out.labels.len()) == held, "{k}");
                }
            }
        }
    }
    Ok(())
}

#[test]
fn dinic_solves_one_after_the_other(rt: HostRuntime) -> Result<(), Fail> {
    let mut solver = Dinic::new(rt.alloc())?;
    solves_one_after_the_other(&rt, rt.alloc(), &mut solver, Bottom::Dinic)
}

#[test]
fn push_relabel_solves_one_after_the_other(rt: HostRuntime) -> Result<(), Fail> {
    let mut solver = PushRelabel::new(rt.alloc())?;
    solves_one_after_the_other(&rt, rt.alloc(), &mut solver, Bottom::PushRelabel)
}
