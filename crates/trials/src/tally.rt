// Two solvers on one drawing, and how often they did as they should.
use crate::exhaustive::{confirms, least_worth};
use crate::random::Random;
use crate::shapes::{Shape, redraw};
use checkers::is_right;
use drawing::{Drawing, Label, Record, Solver};
use duality::agree;
use std::alloc::{AllocError, Global};
use std::fmt;

// Of so many drawings, how many both solvers accepted, and of these: to how many both answers are right, how often they
// agree on verdict and total, how often all that is near by the first is near by the second, how many are small enough
// to go through all labellings, and how many of these confirm the first answer.
#[derive(Clone, Copy, Default)]
pub struct Tally {
    pub drawings: u32,
    pub accepted: u32,
    pub right: u32,
    pub agreed: u32,
    pub within: u32,
    pub small: u32,
    pub confirmed: u32,
}

// The numbers in a line of the table, beside the shape's name.
impl fmt::Display for Tally {
    fn fmt<W: fmt::Write>(&self, f: &mut fmt::Formatter<W>) -> fmt::Result {
        write!(
            f,
            "{:>9}{:>9}{:>9}",
            self.drawings, self.accepted, self.right
        )?;
        write!(
            f,
            "{:>9}{:>9}{:>9}{:>10}",
            self.agreed, self.within, self.small, self.confirmed
        )
    }
}

// What trials write into, again and again.
#[derive(Drop)]
pub struct Place {
    drawing: Drawing,
    first: Record,
    second: Record,
    labels: Vec<Label>,
    random: Random,
}

impl Place {
    pub fn new(heap: Global, seed: u64) -> Result<Place, AllocError> {
        Ok(Place {
            drawing: Drawing {
                points: Vec::new(heap),
                runs: Vec::new(heap),
            },
            first: Record::new(heap)?,
            second: Record::new(heap)?,
            labels: Vec::new(heap),
            random: Random::new(seed),
        })
    }
}

fn count(n: u32, b: bool) -> u32 {
    n.saturating_add(u32::from(b))
}

// Whether each point that is near in one answer is near in the other.
fn near_within(inner: &Record, outer: &Record) -> bool {
    let first = inner.labels.as_slice();
    let second = outer.labels.as_slice();
    let mut pairs = first.iter().zip(second);
    first.len() == second.len() && pairs.all(|(a, b)| *a != Label::Near || *b == Label::Near)
}

impl Tally {
    // What both answers to the drawing are worth.
    fn judge(&mut self, place: &mut Place) -> Result<(), AllocError> {
        let d = &place.drawing;
        self.right = count(
            self.right,
            is_right(d, &place.first) && is_right(d, &place.second),
        );
        self.agreed = count(self.agreed, agree(&place.first, &place.second));
        self.within = count(self.within, near_within(&place.first, &place.second));
        if d.points.len() <= 5 {
            let all = least_worth(d, &mut place.labels)?;
            self.small = count(self.small, true);
            self.confirmed = count(self.confirmed, confirms(all, d, &place.first));
        }
        Ok(())
    }

    // One more drawing of that shape, solved by both.
    fn compare<A: Solver, B: Solver>(
        &mut self,
        place: &mut Place,
        shape: Shape,
        a: &mut A,
        b: &mut B,
    ) -> Result<(), AllocError> {
        redraw(shape, &mut place.random, &mut place.drawing)?;
        self.drawings = count(self.drawings, true);
        let by_first = a.solve(&place.drawing, &mut place.first).is_ok();
        let by_second = b.solve(&place.drawing, &mut place.second).is_ok();
        if by_first && by_second {
            self.accepted = count(self.accepted, true);
            self.judge(place)?;
        }
        Ok(())
    }
}

// So many drawings of a shape.
pub fn try_shape<A: Solver, B: Solver>(
    place: &mut Place,
    shape: Shape,
    trials: u32,
    a: &mut A,
    b: &mut B,
) -> Result<Tally, AllocError> {
    let mut tally = Tally::default();
    for _ in 0..trials {
        tally.compare(place, shape, a, b)?;
    }
    Ok(tally)
}
