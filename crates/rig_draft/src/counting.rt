// The roles that points have.
ghost use Rattle.std.specs.Prelude.{◌≡◌, count_by};
ghost use Rattle.drawing.specs.declared.Mark.TheVariants.{Rack, Bar};
ghost use Rattle.drawing.specs.Drawings.{is_rack, is_bar};
ghost use Rattle.drawing.specs.Records.{network};
ghost use Rattle.reading.specs.Reading.{role_count};

use drawing::{Mark, Point};
use rig_drawing::RigDrawing;
use rig_lines::Role;

// How many of the points have the mark.
fn count_marked(points: &[Point], mark: Mark) -> usize
    ensures rack { mark ≡ Rack → result ≡ count_by (λ p. is_rack p.mark) points.now }
    ensures bar { mark ≡ Bar → result ≡ count_by (λ p. is_bar p.mark) points.now }
{
    points.iter().filter(|p| p.mark == mark).count()
}

// How many points of a rig have the role.
pub(crate) fn role_count(rig: &RigDrawing, role: Role) -> usize
    ensures { result ≡ role_count role (network rig.now.drawing) }
{
    count_marked(&rig.drawing.points, Mark::from(role))
}
