// The worked examples as values.
ghost use Rattle.std.specs.Prelude.{◌≡◌, ◌≤◌, length, IfOk, IsSomeAnd, vec_capacity};
ghost use Rattle.drawing.specs.Records.{network, contents, filed};
ghost use Rattle.duality.specs.Told.{told_answer};
ghost use Rattle.duality.specs.Examples.{drawn, examples, ExamplesStand, example_at, Copied};

use drawing::{Drawing, Label, Mark, Point, Record, Run, Verdict};
use std::alloc::{AllocError, Global};

const EXAMPLES: usize = 8;

// How many worked examples there are, each of them a lawful drawing with a right answer.
pub fn examples_stand() -> usize
    ensures count { result ≡ length examples }
    ensures stand { ExamplesStand }
{
    how_many()
}

fn how_many() -> usize
    ensures { result ≡ length examples }
{
    EXAMPLES
}

// A vector of these items, with room for at least so many.
fn vec_of<T: Copy + Drop>(heap: Global, items: &[T], room: usize) -> Result<Vec<T>, AllocError>
    ensures { IfOk result (λ v. (v.items ≡ items.now) × (room ≤ vec_capacity v)) }
{
    let mut v = Vec::with_capacity(heap, room)?;
    v.extend_from_slice(items)?;
    Ok(v)
}

fn draw(heap: Global, points: &[Point], runs: &[Run]) -> Result<Drawing, AllocError>
    ensures { IfOk result (λ d. network d ≡ drawn points.now runs.now) }
{
    let points = vec_of(heap, points, 0)?;
    let runs = vec_of(heap, runs, 0)?;
    Ok(Drawing { points, runs })
}

// An answer as an example tells it.
#[derive(Clone, Copy)]
enum Told<'a> {
    Plan {
        flows: &'a [i32],
        supplies: &'a [u32],
        deliveries: &'a [u32],
        total: u32,
        labels: &'a [Label],
    },
    Shortage(&'a [Label]),
}

fn record(heap: Global, told: Told) -> Result<Record, AllocError>
    ensures { IfOk result (λ b. contents b ≡ filed (told_answer told.entry)) }
{
    match told {
        Told::Plan {
            flows,
            supplies,
            deliveries,
            total,
            labels,
        } => Ok(Record {
            verdict: Verdict::Plan,
            flows: vec_of(heap, flows, 1024)?,
            supplies: vec_of(heap, supplies, 128)?,
            deliveries: vec_of(heap, deliveries, 128)?,
            total,
            labels: vec_of(heap, labels, 128)?,
        }),
        Told::Shortage(labels) => {
            let mut record = Record::new(heap)?;
            record.labels.extend_from_slice(labels)?;
            Ok(record)
        }
    }
}

macro_rules! free {
    ($mark:ident) => {
        Point { mark: Mark::$mark, limit: None }
    };
}

macro_rules! limited {
    ($mark:ident, $limit:expr) => {
        Point { mark: Mark::$mark, limit: Some($limit) }
    };
}

fn copied(
    heap: Global,
    points: &[Point],
    runs: &[Run],
    told: Told,
) -> Result<Option<(Drawing, Record)>, AllocError>
    ensures { IfOk result (λ o. IsSomeAnd o (λ c. (network c.0 ≡ drawn points.now runs.now) × (contents c.1 ≡ filed (told_answer told.entry)))) }
{
    let drawing = draw(heap, points, runs)?;
    let record = record(heap, told)?;
    Ok(Some((drawing, record)))
}

// The k-th worked example, counted from 1: its drawing, and a record that holds its answer.
pub fn example(heap: Global, k: usize) -> Result<Option<(Drawing, Record)>, AllocError>
    ensures { IfOk result (λ o. Copied (example_at k) o) }
{
    match k {
        1 => {
            let points = [free!(Plain)];
            let told = Told::Plan {
                flows: &[],
                supplies: &[0],
                deliveries: &[0],
                total: 0,
                labels: &[Label::Far],
            };
            copied(heap, &points, &[], told)
        }
        2 => {
            let points = [free!(Rack), free!(Bar)];
            let runs = [Run::lead(2, 1, 1, 1)];
            let told = Told::Shortage(&[Label::Near, Label::Far]);
            copied(heap, &points, &runs, told)
        }
        3 => {
            let points = [free!(Rack), free!(Bar)];
            let runs = [Run::lead(2, 1, 1, 1), Run::lead(1, 2, 0, 4)];
            let told = Told::Plan {
                flows: &[1, 4],
                supplies: &[3, 0],
                deliveries: &[0, 3],
                total: 3,
                labels: &[Label::Near, Label::Far],
            };
            copied(heap, &points, &runs, told)
        }
        4 => {
            let points = [free!(Rack), free!(Plain), free!(Bar)];
            let runs = [Run::lead(1, 2, 2, 2), Run::lead(2, 3, 0, 1)];
            let told = Told::Shortage(&[Label::Far, Label::Near, Label::Far]);
            copied(heap, &points, &runs, told)
        }
        5 => {
            let points = [free!(Bar), free!(Rack)];
            let runs = [Run::link(1, 2, 4)];
            let told = Told::Plan {
                flows: &[-4],
                supplies: &[0, 4],
                deliveries: &[4, 0],
                total: 4,
                labels: &[Label::Far, Label::Near],
            };
            copied(heap, &points, &runs, told)
        }
        6 => {
            let points = [limited!(Rack, 3), free!(Bar)];
            let runs = [Run::lead(1, 2, 0, 9)];
            let told = Told::Plan {
                flows: &[3],
                supplies: &[3, 0],
                deliveries: &[0, 3],
                total: 3,
                labels: &[Label::Tight, Label::Far],
            };
            copied(heap, &points, &runs, told)
        }
        7 => {
            let points = [free!(Plain), free!(Plain)];
            let runs = [Run::lead(1, 2, 1, 1), Run::lead(2, 1, 1, 1)];
            let told = Told::Plan {
                flows: &[1, 1],
                supplies: &[0, 0],
                deliveries: &[0, 0],
                total: 0,
                labels: &[Label::Far, Label::Far],
            };
            copied(heap, &points, &runs, told)
        }
        8 => {
            let points = [free!(Rack), limited!(Plain, 3), free!(Plain), free!(Bar)];
            let runs = [
                Run::lead(1, 2, 0, 3),
                Run::lead(1, 3, 1, 1),
                Run::link(2, 3, 2),
                Run::lead(2, 4, 0, 9),
            ];
            let told = Told::Plan {
                flows: &[2, 1, -1, 3],
                supplies: &[3, 0, 0, 0],
                deliveries: &[0, 0, 0, 3],
                total: 3,
                labels: &[Label::Near, Label::Tight, Label::Near, Label::Far],
            };
            copied(heap, &points, &runs, told)
        }
        _ => Ok(None),
    }
}
