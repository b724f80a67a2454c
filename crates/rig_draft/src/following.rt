// What a line after the head does to the rig. Checks go by 7, then 8, then 1 to 6, and a refusal alters nothing.
ghost use Rattle.std.specs.Prelude.{◌≡◌};
ghost use Rattle.drawing.specs.Drawings.{point};
ghost use Rattle.drawing.specs.Records.{network};
ghost use Rattle.rig_drawing.specs.Changes.{answered, held_after, laid};
ghost use Rattle.reading.specs.Reading.{is_max, repeats, run_refusal, complete};
ghost use Rattle.rig_draft.specs.Drafts.{Followed};

use crate::Head;
use crate::counting::role_count;
use drawing::{Mark, Point, Refusal, Run};
use rig_drawing::RigDrawing;
use rig_lines::{Form, Item, Role};

// Point v of a rig; a plain one where there is none.
fn point_at(rig: &RigDrawing, v: usize) -> Point
    ensures { result ≡ point (network rig.now.drawing) v }
{
    match rig.point_index(v) {
        Ok(i) => rig.drawing.points[i],
        Err(_) => Point {
            mark: Mark::Plain,
            limit: None,
        },
    }
}

impl Head {
    fn is_max(self) -> bool
        ensures { result ≡ is_max self.form }
    {
        self.form == Form::Max
    }

    // Whether an n line repeats: its point has a role already, or, after `p max`, the role is taken.
    fn is_repeated(self, rig: &RigDrawing, v: usize, role: Role) -> bool
        ensures { result ≡ repeats self.form (network rig.now.drawing) v role }
    {
        point_at(rig, v).mark != Mark::Plain || (self.is_max() && role_count(rig, role) > 0)
    }

    // An n line.
    fn role(self, rig: &mut RigDrawing, v: u32, role: Role) -> Result<(), Refusal>
        ensures { Followed self (network rig.old.drawing) (Item.Role v role) result (network rig.new.drawing) }
    {
        if self.is_repeated(rig, v as usize, role) {
            return Err(Refusal::LineOrder);
        }
        rig.mark(v as usize, Mark::from(role))
    }

    // An l line, which `p max` does not know.
    fn limit(self, rig: &mut RigDrawing, v: u32, most: u32) -> Result<(), Refusal>
        ensures { Followed self (network rig.old.drawing) (Item.Limit v most) result (network rig.new.drawing) }
    {
        if self.is_max() {
            return Err(Refusal::UnknownLine);
        }
        if point_at(rig, v as usize).limit.is_some() {
            return Err(Refusal::LineOrder);
        }
        rig.limit(v as usize, Some(most))
    }

    // One run more, of those that the head announces.
    fn lay(self, rig: &mut RigDrawing, run: Run) -> Result<(), Refusal>
        ensures told { result ≡ answered (run_refusal self.runs (network rig.old.drawing) run) tt }
        ensures held { network rig.new.drawing ≡ held_after (run_refusal self.runs (network rig.old.drawing) run) (laid (network rig.old.drawing) run) (network rig.old.drawing) }
    {
        if rig.drawing.runs.len() >= self.runs as usize {
            return Err(Refusal::LineOrder);
        }
        rig.lay(run)?;
        Ok(())
    }

    // An a line of `p rig`, with a lower.
    fn lead(
        self,
        rig: &mut RigDrawing,
        tail: u32,
        head: u32,
        lower: u32,
        upper: u32,
    ) -> Result<(), Refusal>
        ensures { Followed self (network rig.old.drawing) (Item.Lead tail head lower upper) result (network rig.new.drawing) }
    {
        if self.is_max() {
            return Err(Refusal::UnknownLine);
        }
        self.lay(rig, Run::lead(tail as usize, head as usize, lower, upper))
    }

    // An a line of `p max`, whose lower is 0.
    fn plain_lead(
        self,
        rig: &mut RigDrawing,
        tail: u32,
        head: u32,
        upper: u32,
    ) -> Result<(), Refusal>
        ensures { Followed self (network rig.old.drawing) (Item.PlainLead tail head upper) result (network rig.new.drawing) }
    {
        if !self.is_max() {
            return Err(Refusal::UnknownLine);
        }
        self.lay(rig, Run::lead(tail as usize, head as usize, 0, upper))
    }

    // An e line, which `p max` does not know.
    fn link(self, rig: &mut RigDrawing, tail: u32, head: u32, upper: u32) -> Result<(), Refusal>
        ensures { Followed self (network rig.old.drawing) (Item.Link tail head upper) result (network rig.new.drawing) }
    {
        if self.is_max() {
            return Err(Refusal::UnknownLine);
        }
        self.lay(rig, Run::link(tail as usize, head as usize, upper))
    }

    // Whether nothing is missing at the end of the text.
    pub(crate) fn is_complete(self, rig: &RigDrawing) -> bool
        ensures { result ≡ complete self.form self.runs (network rig.now.drawing) }
    {
        if rig.drawing.runs.len() != self.runs as usize {
            return false;
        }
        !self.is_max() || (role_count(rig, Role::Rack) == 1 && role_count(rig, Role::Bar) == 1)
    }

    // Any line after the head.
    pub(crate) fn follow(self, rig: &mut RigDrawing, item: Item) -> Result<(), Refusal>
        ensures { Followed self (network rig.old.drawing) item result (network rig.new.drawing) }
    {
        match item {
            Item::Comment => Ok(()),
            Item::Head(_, _, _) => Err(Refusal::LineOrder),
            Item::Role(v, role) => self.role(rig, v, role),
            Item::Limit(v, most) => self.limit(rig, v, most),
            Item::Lead(tail, head, lower, upper) => self.lead(rig, tail, head, lower, upper),
            Item::PlainLead(tail, head, upper) => self.plain_lead(rig, tail, head, upper),
            Item::Link(tail, head, upper) => self.link(rig, tail, head, upper),
        }
    }
}
