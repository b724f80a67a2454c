// The rack and the bar of a drawing.
ghost use Rattle.std.specs.Prelude.{◌≡◌, length};
ghost use Rattle.drawing.specs.Counts.{nth};
ghost use Rattle.drawing.specs.Drawings.{no_point, is_rack, is_bar};
ghost use Rattle.residual.specs.Plain.{last_to};
ghost use Rattle.filing.specs.Marks.{is_marked, numbered};

use drawing::{Mark, Point};

fn last_marked(points: &[Point], wanted: Mark) -> Option<usize>
    ensures { result ≡ numbered (last_to (length points.now) (λ v. is_marked wanted (nth points.now v no_point).mark)) }
{
    let k = points.iter().rposition(|point| point.mark == wanted)?;
    Some(k + 1)
}

// The numbers of the last rack and of the last bar.
pub fn terminals(points: &[Point]) -> (Option<usize>, Option<usize>)
    ensures rack { result.0 ≡ numbered (last_to (length points.now) (λ v. is_rack (nth points.now v no_point).mark)) }
    ensures bar { result.1 ≡ numbered (last_to (length points.now) (λ v. is_bar (nth points.now v no_point).mark)) }
{
    (
        last_marked(points, Mark::Rack),
        last_marked(points, Mark::Bar),
    )
}
