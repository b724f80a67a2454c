// Making a draft, and taking one line more.
ghost use Rattle.std.specs.Prelude.{◌≡◌, is_some, IfOk};
ghost use Rattle.drawing.specs.Records.{network};
ghost use Rattle.rig_drawing.specs.Changes.{answered, held_after, plain_rig};
ghost use Rattle.reading.specs.Reading.{unheaded, headed, head_refusal, begun, step, finished};
ghost use Rattle.rig_draft.specs.Drafts.{progress, told as told_of, left};

use crate::{Draft, Head};
use drawing::Refusal;
use rig_drawing::RigDrawing;
use rig_lines::{Form, Item};
use std::alloc::{AllocError, Global};

impl Draft {
    // A draft before the head. All memory that a rig may need is taken here.
    pub fn new(heap: Global) -> Result<Draft, AllocError>
        ensures { IfOk result (λ d. progress d ≡ unheaded) }
    {
        Ok(Draft {
            rig: RigDrawing::smallest(heap)?,
            head: None,
        })
    }

    // The head.
    fn begin(&mut self, form: Form, points: u32, runs: u32) -> Result<(), Refusal>
        ensures told { result ≡ answered (head_refusal points runs) tt }
        ensures held { progress self.new ≡ held_after (head_refusal points runs) (headed form runs (plain_rig points)) (progress self.old) }
    {
        if runs > 160 {
            return Err(Refusal::LineOrder);
        }
        self.rig.restart(points as usize)?;
        self.head = Some(Head { form, runs });
        Ok(())
    }

    // A line before the head.
    fn first(&mut self, item: Item) -> Result<(), Refusal>
        requires { progress self.old ≡ unheaded }
        ensures told { result ≡ told_of (begun item) }
        ensures held { progress self.new ≡ left (begun item) unheaded }
    {
        match item {
            Item::Comment => Ok(()),
            Item::Head(form, points, runs) => self.begin(form, points, runs),
            Item::Role(_, _)
            | Item::Limit(_, _)
            | Item::Lead(_, _, _, _)
            | Item::PlainLead(_, _, _)
            | Item::Link(_, _, _) => Err(Refusal::LineOrder),
        }
    }

    // One line more; a refusal alters nothing.
    pub fn take(&mut self, item: Item) -> Result<(), Refusal>
        ensures told { result ≡ told_of (step (progress self.old) item) }
        ensures held { progress self.new ≡ left (step (progress self.old) item) (progress self.old) }
    {
        match self.head {
            None => self.first(item),
            Some(head) => head.follow(&mut self.rig, item),
        }
    }

    // Whether nothing is missing at the end of the text.
    pub fn is_complete(&self) -> bool
        ensures { result ≡ is_some (finished (progress self.now)) }
    {
        self.head.is_some_and(|head| head.is_complete(&self.rig))
    }
}
