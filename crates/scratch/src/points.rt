// The points of a network below that has a rack and a bar of its own.
// The capacity stays, as each writer says: the room of the record or drawing that owns the list is known by it.
ghost use Rattle.std.specs.Prelude.{◌≡◌, ◌+◌, ◌≤◌, length, vec_capacity};
ghost use Rattle.reductions.specs.Terminals.{unmarked, one_rack_one_bar};

use crate::copying::push_within;
use drawing::{Mark, Point};

fn unmark(q: Point) -> Point
    ensures { result ≡ unmarked q }
{
    Point {
        mark: Mark::Plain,
        ..q
    }
}

// The points without their marks, then the only rack and the only bar.
pub fn push_points(points: &[Point], out: &mut Vec<Point>)
    requires { length points.now + 2 ≤ vec_capacity out.old }
    ensures items { out.new.items ≡ one_rack_one_bar points.now }
    ensures capacity { vec_capacity out.new ≡ vec_capacity out.old }
{
    out.clear();
    push_within(points.iter().map(|q| unmark(*q)), out);
    out.push_reserved(Point {
        mark: Mark::Rack,
        limit: None,
    });
    out.push_reserved(Point {
        mark: Mark::Bar,
        limit: None,
    });
}
