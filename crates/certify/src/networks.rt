// Networks of plain leads, with one rack and one bar, to solve.
use drawing::{Drawing, Mark, Point, Run};
use std::alloc::{AllocError, Global};

// Point 1 is the rack, point n the bar.
fn points(heap: Global, n: usize) -> Result<Vec<Point>, AllocError> {
    let mut points = Vec::with_capacity(heap, n)?;
    for v in 1..n.saturating_add(1) {
        let mark = if v == 1 {
            Mark::Rack
        } else if v == n {
            Mark::Bar
        } else {
            Mark::Plain
        };
        points.push(Point { mark, limit: None })?;
    }
    Ok(points)
}

// n points and leads by tail, head and upper.
fn draw(heap: Global, n: usize, leads: &[(usize, usize, u32)]) -> Result<Drawing, AllocError> {
    let runs = leads
        .iter()
        .map(|(tail, head, upper)| Run::lead(*tail, *head, 0, *upper));
    Ok(Drawing {
        points: points(heap, n)?,
        runs: runs.collect(heap)?,
    })
}

// Two ways that share a lead in the middle: a first choice has to be taken back.
pub fn diamond(heap: Global) -> Result<Drawing, AllocError> {
    draw(
        heap,
        4,
        &[(1, 2, 3), (1, 3, 3), (2, 3, 2), (2, 4, 2), (3, 4, 4)],
    )
}

// A bottleneck in the middle, with leads that lead nowhere and one of upper 0.
pub fn neck(heap: Global) -> Result<Drawing, AllocError> {
    draw(
        heap,
        7,
        &[
            (1, 2, 9),
            (1, 3, 4),
            (2, 4, 6),
            (3, 4, 5),
            (4, 5, 7),
            (5, 6, 8),
            (5, 7, 5),
            (6, 7, 9),
            (2, 7, 0),
            (6, 3, 2),
        ],
    )
}

// Rack and bar with nothing between them.
pub fn apart(heap: Global) -> Result<Drawing, AllocError> {
    draw(heap, 4, &[(1, 2, 5), (3, 4, 5)])
}

// The upper of a lead of the grid: 30 at the rack and at the bar, else 1 to 9.
fn width(here: usize, mixed: usize) -> u32 {
    if here == 1 || here >= 110 {
        30
    } else {
        (mixed % 9 + 1) as u32
    }
}

// A grid of 11 by 11 points with leads right and down.
pub fn grid(heap: Global) -> Result<Drawing, AllocError> {
    let mut runs = Vec::new(heap);
    for row in 0..11usize {
        for column in 0..11usize {
            let here = row * 11 + column + 1;
            if column < 10 {
                runs.push(Run::lead(here, here + 1, 0, width(here, row * 7 + column * 5)))?;
            }
            if row < 10 {
                runs.push(Run::lead(here, here + 11, 0, width(here, row * 4 + column * 8)))?;
            }
        }
    }
    Ok(Drawing {
        points: points(heap, 121)?,
        runs,
    })
}

// 128 points, each with eight leads to the next: the most points and nearly the most runs.
pub fn chain(heap: Global) -> Result<Drawing, AllocError> {
    let mut runs = Vec::new(heap);
    for v in 1..128usize {
        for k in 0..8u32 {
            runs.push(Run::lead(v, v + 1, 0, 1_000_000 + k))?;
        }
    }
    Ok(Drawing {
        points: points(heap, 128)?,
        runs,
    })
}
