// Reading a whole text.
ghost use Rattle.std.specs.Prelude.{◌≡◌, length, Ok, Err, MatchResult};
ghost use Rattle.drawing.specs.Records.{network};
ghost use Rattle.reading.specs.Lines.{LinesExactly, start_of};
ghost use Rattle.reading.specs.Describing.{ReadsExactly, ReadBounded};
ghost use Rattle.rigtext.specs.declared.reader.whole.ReadError.TheVariants.{Fault as Faulty, Memory};
ghost use Rattle.rigtext.specs.States.{state};
ghost use Rattle.rigtext.specs.Reads.{rest_read, rig_in, Reads, Tells, place_after};

use crate::reader::Reader;
use reading::Fault;
use rig_drawing::RigDrawing;
use std::alloc::{AllocError, Global};

// Why no rig was read: a fault of the text, or want of memory.
#[derive(Clone, Copy, PartialEq, Eq)]
pub enum ReadError {
    Fault(Fault),
    Memory,
}

impl From<Fault> for ReadError {
    ghost from_gives = { λ fault error. error ≡ Faulty fault };

    fn from(fault: Fault) -> ReadError {
        ReadError::Fault(fault)
    }
}

impl From<AllocError> for ReadError {
    ghost from_gives = { λ _ error. error ≡ Memory };

    fn from(_: AllocError) -> ReadError {
        ReadError::Memory
    }
}

impl Reader<'_> {
    // Reads on to the end of the text, or to a fault.
    fn read_rest(&mut self) -> Result<(), Fault>
        ensures means { MatchResult result (λ _. rest_read (state self.old) ≡ Ok (rig_in self.new)) (λ f. rest_read (state self.old) ≡ Err f) }
        ensures place { MatchResult result (λ _. self.new.place ≡ length self.old.text.now) (λ f. self.new.place ≡ start_of self.old.text.now f.line) }
    {
        while let Some(_) = self.next_line()? {}
        Ok(())
    }

    // The rig as far as it was read.
    fn into_rig(self) -> RigDrawing
        ensures { network result.drawing ≡ rig_in self.entry }
    {
        self.draft.rig
    }
}

// Reads a text. The place is then the text's length, after a fault the start of the line that is refused, and after want of memory as it was.
pub fn read(heap: Global, text: &[u8], place: &mut usize) -> Result<RigDrawing, ReadError>
    ensures reads { Reads text.now result }
    ensures tells { Tells text.now result }
    ensures place { place.new ≡ place_after text.now place.old result }
    ensures lines { LinesExactly }
    ensures exactly { ReadsExactly }
    ensures bounds { ReadBounded }
{
    let mut reader = Reader::new(heap, text)?;
    let told = reader.read_rest();
    *place = reader.place;
    told?;
    Ok(reader.into_rig())
}
