// Making a rig's drawing, and starting it anew.
// The capacity stays, as each writer says: the room of the record or drawing that owns the list is known by it.
ghost use Rattle.std.specs.Prelude.{◌≡◌, ◌≤◌, [], replicate, IfOk, OnOk, vec_capacity};
ghost use Rattle.drawing.specs.Records.{network};
ghost use Rattle.rig_drawing.specs.Changes.{plain_rig, count_refusal, answered, held_after};
ghost use Rattle.rig_drawing.specs.Making.{Made};
ghost use Rattle.drawing.specs.Drawings.{no_point};
ghost use Rattle.rig_drawing.specs.declared.bounded.making.MakeError.TheVariants.{Refused, Memory};

use crate::RigDrawing;
use drawing::{Drawing, Mark, Point, Refusal};
use std::alloc::{AllocError, Global};

// Why nothing was made: a refusal, or want of memory.
#[derive(Clone, Copy, PartialEq, Eq)]
pub enum MakeError {
    Refused(Refusal),
    Memory,
}

impl From<Refusal> for MakeError {
    ghost from_gives = { λ refusal error. error ≡ Refused refusal };

    fn from(refusal: Refusal) -> MakeError {
        MakeError::Refused(refusal)
    }
}

impl From<AllocError> for MakeError {
    ghost from_gives = { λ _ error. error ≡ Memory };

    fn from(_: AllocError) -> MakeError {
        MakeError::Memory
    }
}

// A rig has 1 to 60 points.
fn check_count(points: usize) -> Result<(), Refusal>
    ensures told { result ≡ answered (count_refusal points) tt }
    ensures within { OnOk result ((1 ≤ points) × (points ≤ 60)) }
{
    if points < 1 || points > 60 {
        return Err(Refusal::PointCount);
    }
    Ok(())
}

// Makes the list n plain points without limits. A loop, since the ways by which a Vec fills itself may allocate.
fn restore(points: &mut Vec<Point>, n: usize)
    requires { (n ≤ 60) × (60 ≤ vec_capacity points.old) }
    ensures items { points.new.items ≡ replicate n no_point }
    ensures capacity { vec_capacity points.new ≡ vec_capacity points.old }
{
    points.clear();
    for _v in 0..n {
        points.push_reserved(Point {
            mark: Mark::Plain,
            limit: None,
        });
    }
}

fn assemble(heap: Global, n: usize) -> Result<RigDrawing, AllocError>
    requires { (1 ≤ n) × (n ≤ 60) }
    ensures { IfOk result (λ d. network d.drawing ≡ plain_rig n) }
{
    let mut points = Vec::with_capacity(heap, 60)?;
    let runs = Vec::with_capacity(heap, 160)?;
    restore(&mut points, n);
    Ok(RigDrawing {
        drawing: Drawing { points, runs },
    })
}

impl RigDrawing {
    // A drawing of 1 to 60 plain points without limits or runs; any other count is refused by 1.
    pub fn new(heap: Global, points: usize) -> Result<RigDrawing, MakeError>
        ensures { Made points result }
    {
        check_count(points)?;
        Ok(assemble(heap, points)?)
    }

    // A drawing of one plain point, which is no refusal.
    pub fn smallest(heap: Global) -> Result<RigDrawing, AllocError>
        ensures { IfOk result (λ d. network d.drawing ≡ plain_rig 1) }
    {
        assemble(heap, 1)
    }

    // The same in the place of what was drawn, in the memory that is there.
    pub fn restart(&mut self, points: usize) -> Result<(), Refusal>
        ensures told { result ≡ answered (count_refusal points) tt }
        ensures held { network self.new.drawing ≡ held_after (count_refusal points) (plain_rig points) (network self.old.drawing) }
    {
        check_count(points)?;
        restore(&mut self.drawing.points, points);
        self.drawing.runs.clear();
        Ok(())
    }
}
