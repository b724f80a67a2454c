// Drawings of many shapes.
use crate::random::Random;
use drawing::{Drawing, Kind, Mark, Point, Run};
use std::alloc::AllocError;

// How the ends of runs are drawn.
#[derive(Clone, Copy)]
pub enum Ends {
    // any two points
    Any,
    // a point and the next
    Next,
    // a point and one of the three that follow
    Near,
    // a point and the next but one, so that odd and even points never meet
    Apart,
    // the third point and any other
    Hub,
}

// The features that are used now and then.
#[derive(Clone, Copy, Default)]
pub struct Features {
    pub lowers: bool,
    pub links: bool,
    pub limits: bool,
    pub terminals: bool,
}

// What drawings of one shape look like.
#[derive(Clone, Copy)]
pub struct Shape {
    pub name: &'static str,
    pub ends: Ends,
    pub points: (u32, u32),
    pub runs: (u32, u32),
    pub most: u32,
    pub features: Features,
}

// A shape with one rack, one bar and leads from 0.
pub fn plain(
    name: &'static str,
    ends: Ends,
    points: (u32, u32),
    runs: (u32, u32),
    most: u32,
) -> Shape {
    Shape {
        name,
        ends,
        points,
        runs,
        most,
        features: Features::default(),
    }
}

fn ends_of(ends: Ends, n: u32, random: &mut Random) -> (u32, u32) {
    let a = random.between(1, n);
    match ends {
        Ends::Any => (a, random.between(1, n)),
        Ends::Next => (a, a.saturating_add(1)),
        Ends::Near => (a, a.saturating_add(random.between(1, 3))),
        Ends::Apart => (a, a.saturating_add(2)),
        Ends::Hub => { if random.below(2) == 0 { (a, 3) } else { (3, a) } }
    }
}

// One run between two different points of 1 to n, which is 2 or more.
fn run_of(shape: Shape, n: u32, random: &mut Random) -> Run {
    let (tail, head) = ends_of(shape.ends, n, random);
    let tail = tail.min(n);
    let mut head = head.min(n);
    if tail == head {
        head = if tail == 1 { 2 } else { 1 };
    }
    let upper = random.between(0, shape.most);
    let kind = if shape.features.links && random.below(3) == 0 {
        Kind::Link
    } else {
        Kind::Lead
    };
    let low = shape.features.lowers && kind == Kind::Lead && random.below(3) == 0;
    let lower = if low { random.between(0, upper) } else { 0 };
    Run {
        kind,
        tail: tail as usize,
        head: head as usize,
        lower,
        upper,
    }
}

// The point at index v: with terminals any mark, else a rack first and a bar second.
fn point_of(shape: Shape, v: u32, random: &mut Random) -> Point {
    let code = if shape.features.terminals {
        random.below(4)
    } else if v < 2 {
        v + 1
    } else {
        0
    };
    let mark = Mark::try_from(code).unwrap_or(Mark::Plain);
    let limit = if shape.features.limits && random.below(4) == 0 {
        Some(random.between(0, shape.most))
    } else {
        None
    };
    Point { mark, limit }
}

// Puts a new drawing of that shape in the place of the old one.
pub fn redraw(shape: Shape, random: &mut Random, d: &mut Drawing) -> Result<(), AllocError> {
    let n = random.between(shape.points.0, shape.points.1);
    let m = random.between(shape.runs.0, shape.runs.1);
    d.points.clear();
    d.runs.clear();
    for v in 0..n {
        d.points.push(point_of(shape, v, random))?;
    }
    for _ in 0..m {
        d.runs.push(run_of(shape, n, random))?;
    }
    Ok(())
}
