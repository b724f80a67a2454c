// The answer that stands in the arcs, written into a record.
// The capacity stays, as each writer says: the room of the record or drawing that owns the list is known by it.
ghost use Rattle.std.specs.Prelude.{◌≡◌, ℕ, ◌+◌, ◌-◌, ◌*◌, ◌/◌, ◌%◌, ◌<◌, ◌≤◌, map, length, if◌then◌else◌, vec_len, vec_capacity, nat_lt, slice_index};
ghost use Rattle.std.specs.List.{range_with_len};
ghost use Rattle.drawing.specs.Counts.{only, nth};
ghost use Rattle.drawing.specs.Drawings.{no_point, point_count};
ghost use Rattle.drawing.specs.Answers.{Planned};
ghost use Rattle.drawing.specs.Records.{network, contents, filed};
ghost use Rattle.filing.specs.Marks.{is_marked};
ghost use Rattle.residual.specs.Readings.{flows_in, plan_in};

use drawing::{Drawing, Label, Mark, Point, Record, Verdict};

// Three loops, since the writer that fills a list from an iterator within its room, `scratch::push_within`, stands in a
// crate above.

// The flow of each run: what its backward arc can carry.
fn write_flows(left: &[u32], flows: &mut Vec<i32>)
    requires sizes { (length left.now % 2 ≡ 0) × (length left.now / 2 ≤ vec_capacity flows.old) }
    requires most { (a : ℕ) → a < length left.now → slice_index left.now a ≤ 1800000000 }
    ensures items { flows.new.items ≡ flows_in (length left.now / 2) left.now }
    ensures capacity { vec_capacity flows.new ≡ vec_capacity flows.old }
{
    flows.clear();
    for arcs in left.chunks_exact(2) {
        flows.push_reserved(arcs[1] as i32);
    }
}

// The total at each point of the wanted mark, and 0 at the others.
fn write_amounts(points: &[Point], wanted: Mark, total: u32, amounts: &mut Vec<u32>)
    requires { length points.now ≤ vec_capacity amounts.old }
    ensures items { amounts.new.items ≡ map (λ v. only (is_marked wanted (nth points.now v no_point).mark) total) (range_with_len 1 (length points.now)) }
    ensures capacity { vec_capacity amounts.new ≡ vec_capacity amounts.old }
{
    amounts.clear();
    for point in points {
        amounts.push_reserved(if point.mark == wanted { total } else { 0 });
    }
}

// `reached` for a point with a level, else `other`.
fn write_labels(level: &[u32], reached: Label, other: Label, labels: &mut Vec<Label>)
    requires { (0 < length level.now) × (length level.now ≤ vec_capacity labels.old + 1) }
    ensures items { labels.new.items ≡ map (λ v. (if nat_lt 0 (slice_index level.now v) then reached else other)) (range_with_len 1 (length level.now - 1)) }
    ensures capacity { vec_capacity labels.new ≡ vec_capacity labels.old }
{
    labels.clear();
    for own in &level[1..] {
        labels.push_reserved(if *own > 0 { reached } else { other });
    }
}

// The plan that stands in the arcs, with its total and the points' labels.
pub fn file(
    drawing: &Drawing,
    left: &[u32],
    level: &[u32],
    reached: Label,
    other: Label,
    total: u32,
    out: &mut Record,
)
    requires sizes { (vec_len drawing.now.points ≤ 128) × ((vec_len drawing.now.runs ≤ 1024) × ((length left.now ≡ 2 * vec_len drawing.now.runs) × (length level.now ≡ vec_len drawing.now.points + 1))) }
    requires most { (a : ℕ) → a < length left.now → slice_index left.now a ≤ 1800000000 }
    ensures { contents out.new ≡ filed (Planned (plan_in (network drawing.now) left.now total) total (map (λ v. (if nat_lt 0 (slice_index level.now v) then reached else other)) (range_with_len 1 (point_count (network drawing.now))))) }
{
    write_flows(left, &mut out.flows);
    write_amounts(
        drawing.points.as_slice(),
        Mark::Rack,
        total,
        &mut out.supplies,
    );
    write_amounts(
        drawing.points.as_slice(),
        Mark::Bar,
        total,
        &mut out.deliveries,
    );
    write_labels(level, reached, other, &mut out.labels);
    out.verdict = Verdict::Plan;
    out.total = total;
}
