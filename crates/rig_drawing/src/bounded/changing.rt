// The changes of a rig's drawing. Checks go by rising number, and a refusal alters nothing.
ghost use Rattle.std.specs.Prelude.{◌≡◌, ◌+◌, ◌-◌, ◌≤◌, ◌&&◌, None, nat_le, IfOk};
ghost use Rattle.drawing.specs.Drawings.{point_count, run_count};
ghost use Rattle.drawing.specs.Records.{network};
ghost use Rattle.rig_drawing.specs.Changes.{check, answered, held_after, is_range, is_limit, run_refusal, mark_refusal, marked, limit_refusal, limited, lay_refusal, laid, rerate_refusal, rerated};

use crate::RigDrawing;
use drawing::{Kind, Mark, Refusal, Run};

// Whether a run of a rig may have the range.
fn in_range(kind: Kind, lower: u32, upper: u32) -> bool
    ensures { result ≡ is_range kind lower upper }
{
    lower <= upper && upper <= 9_999 && (kind == Kind::Lead || lower == 0)
}

// Whether a point of a rig may have the limit.
fn limit_in_range(limit: Option<u32>) -> bool
    ensures { result ≡ is_limit limit }
{
    limit.is_none_or(|most| most <= 9_999)
}

// The index of what is counted from 1 to `count`, or the refusal.
fn index_of(k: usize, count: usize, refusal: Refusal) -> Result<usize, Refusal>
    ensures told { result ≡ answered (check (nat_le 1 k && nat_le k count) refusal None) (k - 1) }
    ensures within { IfOk result (λ i. (i + 1 ≡ k) × (k ≤ count)) }
{
    if k < 1 || k > count {
        return Err(refusal);
    }
    Ok(k - 1)
}

impl RigDrawing {
    // The index of point v, which is counted from 1.
    pub fn point_index(&self, v: usize) -> Result<usize, Refusal>
        ensures told { result ≡ answered (mark_refusal (network self.now.drawing) v) (v - 1) }
        ensures within { IfOk result (λ i. (i + 1 ≡ v) × (v ≤ point_count (network self.now.drawing))) }
    {
        index_of(v, self.drawing.points.len(), Refusal::NoSuchPoint)
    }

    // The index of run k, which is counted from 1.
    pub fn run_index(&self, k: usize) -> Result<usize, Refusal>
        ensures told { result ≡ answered (run_refusal (network self.now.drawing) k) (k - 1) }
        ensures within { IfOk result (λ i. (i + 1 ≡ k) × (k ≤ run_count (network self.now.drawing))) }
    {
        index_of(k, self.drawing.runs.len(), Refusal::NoSuchRun)
    }

    // Marks point v.
    pub fn mark(&mut self, v: usize, mark: Mark) -> Result<(), Refusal>
        ensures told { result ≡ answered (mark_refusal (network self.old.drawing) v) tt }
        ensures held { network self.new.drawing ≡ held_after (mark_refusal (network self.old.drawing) v) (marked (network self.old.drawing) v mark) (network self.old.drawing) }
    {
        let i = self.point_index(v)?;
        self.drawing.points[i].mark = mark;
        Ok(())
    }

    // Gives point v a limit, or takes it away.
    pub fn limit(&mut self, v: usize, limit: Option<u32>) -> Result<(), Refusal>
        ensures told { result ≡ answered (limit_refusal (network self.old.drawing) v limit) tt }
        ensures held { network self.new.drawing ≡ held_after (limit_refusal (network self.old.drawing) v limit) (limited (network self.old.drawing) v limit) (network self.old.drawing) }
    {
        let i = self.point_index(v)?;
        if !limit_in_range(limit) {
            return Err(Refusal::BadRange);
        }
        self.drawing.points[i].limit = limit;
        Ok(())
    }

    // Lays a lead or a link as the next run, and answers its number.
    pub fn lay(&mut self, run: Run) -> Result<usize, Refusal>
        ensures told { result ≡ answered (lay_refusal (network self.old.drawing) run) (run_count (network self.old.drawing) + 1) }
        ensures held { network self.new.drawing ≡ held_after (lay_refusal (network self.old.drawing) run) (laid (network self.old.drawing) run) (network self.old.drawing) }
    {
        self.point_index(run.tail)?;
        self.point_index(run.head)?;
        if !in_range(run.kind, run.lower, run.upper) {
            return Err(Refusal::BadRange);
        }
        if run.tail == run.head {
            return Err(Refusal::EqualEnds);
        }
        let count = self.drawing.runs.len();
        if count >= 160 {
            return Err(Refusal::RunsFull);
        }
        self.drawing.runs.push_reserved(run);
        Ok(count + 1)
    }

    // Gives run k another range, and alters no other run.
    pub fn rerate(&mut self, k: usize, lower: u32, upper: u32) -> Result<(), Refusal>
        ensures told { result ≡ answered (rerate_refusal (network self.old.drawing) k lower upper) tt }
        ensures held { network self.new.drawing ≡ held_after (rerate_refusal (network self.old.drawing) k lower upper) (rerated (network self.old.drawing) k lower upper) (network self.old.drawing) }
    {
        let i = self.run_index(k)?;
        let kind = self.drawing.runs[i].kind;
        if !in_range(kind, lower, upper) {
            return Err(Refusal::BadRange);
        }
        if let Some(run) = self.drawing.run_mut(i) {
            run.lower = lower;
            run.upper = upper;
        }
        Ok(())
    }
}
