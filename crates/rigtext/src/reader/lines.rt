// Reading a text line by line.
ghost use Rattle.std.specs.Prelude.{◌≡◌, ◌+◌, ◌<◌, ◌≤◌, length, drop, take_while, IfOk};
ghost use Rattle.std.specs.List.{prefix_len};
ghost use Rattle.reading.specs.Lines.{in_line, start_of};
ghost use Rattle.reading.specs.Reading.{finished};
ghost use Rattle.rig_draft.specs.Drafts.{progress, left};
ghost use Rattle.rigtext.specs.States.{state, begin, moved, line_from, line_taken, line_shown, shown_line, end_shown, next_shown, next_state, shown_next, place_next};

use crate::guard::LineGuard;
use crate::reader::Reader;
use drawing::Refusal;
use reading::Fault;
use rig_draft::Draft;
use rig_lines::Line;
use std::alloc::{AllocError, Global};

// How many bytes at the front are no LF.
fn line_length(bytes: &[u8]) -> usize
    ensures { result ≡ length (take_while in_line bytes.now) }
{
    bytes.iter().take_while(|b| **b != b'\n').count()
}

// The place of the LF that ends the line at `at`, or the text's length.
fn line_end(text: &[u8], at: usize) -> usize
    requires { at ≤ length text.now }
    ensures value { result ≡ at + prefix_len in_line (drop at text.now) }
    ensures within { (at ≤ result) × (result ≤ length text.now) }
{
    at + line_length(&text[at..])
}

// Takes the line from `start` to before `end` into the draft, and shows it.
fn taken<'a>(
    draft: &mut Draft,
    text: &'a [u8],
    start: usize,
    end: usize,
) -> Result<Line<'a>, Refusal>
    requires { (start ≤ length text.now) × (end ≡ start + prefix_len in_line (drop start text.now)) }
    ensures shown { shown_line result ≡ line_shown (progress draft.old) start (line_from text.now start) }
    ensures held { progress draft.new ≡ left (line_taken (progress draft.old) (line_from text.now start)) (progress draft.old) }
{
    let line = Line::at(text, start, end).ok_or(Refusal::UnknownLine)?;
    let item = line.item().ok_or(Refusal::UnknownLine)?;
    draft.take(item)?;
    Ok(line)
}

impl<'a> Reader<'a> {
    // A reader at the first line of the text. All memory is taken here.
    pub fn new(heap: Global, text: &'a [u8]) -> Result<Reader<'a>, AllocError>
        ensures { IfOk result (λ x. (state x ≡ begin text.now) × (x.place ≡ 0)) }
    {
        let draft = Draft::new(heap)?;
        Ok(Reader {
            text,
            place: 0,
            line: 1,
            draft,
        })
    }

    // The offset up to which the text was read: the start of the line that is next.
    pub fn place(&self) -> usize
        ensures value { result ≡ self.now.place }
        ensures begins { result ≡ start_of (state self.now).text (state self.now).line }
    {
        self.place
    }

    // Takes the line at the place, through a guard.
    fn take_line(&mut self) -> Result<Line<'a>, Refusal>
        requires { (self.old.place < length self.old.text.now) × (length self.old.text.now ≤ 16384) }
        ensures shown { shown_line result ≡ line_shown (state self.old).progress self.old.place (line_from self.old.text.now self.old.place) }
        ensures held { state self.new ≡ moved (state self.old) (line_taken (state self.old).progress (line_from self.old.text.now self.old.place)) }
    {
        let text = self.text;
        let start = self.place;
        let end = line_end(text, start);
        let mut guard = LineGuard {
            place: &mut self.place,
            start,
            accepted: false,
        };
        *guard.place = text.len().min(end + 1);
        let line = taken(&mut self.draft, text, start, end)?;
        guard.accept(&mut self.line);
        Ok(line)
    }

    // The end of the text.
    fn at_end(&self) -> Result<Option<Line<'a>>, Fault>
        ensures { shown_next result ≡ end_shown (state self.now).line (finished (state self.now).progress) }
    {
        if self.draft.is_complete() {
            return Ok(None);
        }
        Err(Fault {
            refusal: Refusal::LineOrder,
            line: self.line,
        })
    }

    // Takes the next line into the rig, and shows it as its kind with its fields; None at the end of a text that lacks nothing.
    // After a refused line the place is that line's start, and the reader is as it was.
    pub fn next_line(&mut self) -> Result<Option<Line<'a>>, Fault>
        ensures shown { shown_next result ≡ next_shown (state self.old) }
        ensures held { state self.new ≡ next_state (state self.old) }
        ensures place { self.new.place ≡ place_next (state self.new) result }
    {
        if self.text.len() > 16_384 {
            return Err(Fault {
                refusal: Refusal::TextTooLong,
                line: 0,
            });
        }
        if self.place >= self.text.len() {
            return self.at_end();
        }
        // A match: each of three facts is told of a line that was taken and of one that was not, and over `map` and `map_err`
        // a lemma would have to tell the two cases once more.
        match self.take_line() {
            Ok(line) => Ok(Some(line)),
            Err(refusal) => Err(Fault {
                refusal,
                line: self.line,
            }),
        }
    }
}
