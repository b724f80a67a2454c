// A drawing that was tested: it keeps the rules and has at most 128 points and 1,024 runs.
ghost use Rattle.std.specs.Prelude.{◌≡◌, ◌≤◌, true, length, is_some, IfSome};
ghost use Rattle.drawing.specs.Counts.{every_to, nth};
ghost use Rattle.drawing.specs.Drawings.{no_run, is_lawful_run, is_lawful, is_admissible};
ghost use Rattle.drawing.specs.Records.{network};
ghost use Rattle.checkers.specs.Told.{drawn};

use drawing::{Drawing, Kind, Point, Run};

#[derive(Clone, Copy)]
pub(crate) struct Admitted<'a> {
    pub(crate) points: &'a [Point],
    pub(crate) runs: &'a [Run],
    ghost lawful: { is_lawful (drawn points.now runs.now) ≡ true },
    ghost few_points: { length points.now ≤ 128 },
    ghost few_runs: { length runs.now ≤ 1024 },
}

impl<'a> Admitted<'a> {
    ghost use Rattle.checkers.specs.Seen.{seen};

    pub(crate) fn of(d: &'a Drawing) -> Option<Self>
        ensures decides { is_some result ≡ is_admissible (network d.now) }
        ensures same { IfSome result (λ a. seen a ≡ network d.now) }
    {
        let (points, runs) = (d.points.as_slice(), d.runs.as_slice());
        // An `if`: its branch knows what was tested; a closure for `then` would have to state it once more.
        if is_admissible(points, runs) {
            Some(Admitted { points, runs })
        } else {
            None
        }
    }
}

fn is_admissible(points: &[Point], runs: &[Run]) -> bool
    ensures { result ≡ is_admissible (drawn points.now runs.now) }
{
    let n = points.len();
    1 <= n && are_lawful(n, runs) && n <= 128 && runs.len() <= 1024
}

fn are_lawful(n: usize, runs: &[Run]) -> bool
    ensures { result ≡ every_to (length runs.now) (λ k. is_lawful_run n (nth runs.now k no_run)) }
{
    runs.iter().all(|r| is_lawful_run(n, *r))
}

fn is_lawful_run(n: usize, r: Run) -> bool
    ensures { result ≡ is_lawful_run n r }
{
    (1..=n).contains(&r.tail)
        && (1..=n).contains(&r.head)
        && r.tail != r.head
        && r.lower <= r.upper
        && (r.kind == Kind::Lead || r.lower == 0)
}
