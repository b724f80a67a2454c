// The numbers and letters by which the formats and calls name the cases of an enum.
ghost use Rattle.std.specs.Prelude.{◌≡◌};
ghost use Rattle.std.specs.Option.{ok_or};
ghost use Rattle.drawing.specs.declared.Refusal.TheVariants.{NoSuchMark};
ghost use Rattle.drawing.specs.Codes.{mark_code, mark_of, label_letter, feature_number, refusal_number, refusal_feature};

use crate::{Feature, Label, Mark, Refusal};

// 0 plain, 1 rack, 2 bar.
impl From<Mark> for u32 {
    ghost from_gives = { λ mark code. code ≡ mark_code mark };

    fn from(mark: Mark) -> u32 {
        match mark {
            Mark::Plain => 0,
            Mark::Rack => 1,
            Mark::Bar => 2,
        }
    }
}

// The mark of a code, or 4 where no mark has it.
impl TryFrom<u32> for Mark {
    type Error = Refusal;

    ghost try_from_gives = { λ code result. result ≡ ok_or (mark_of code) NoSuchMark };

    fn try_from(code: u32) -> Result<Mark, Refusal> {
        match code {
            0 => Ok(Mark::Plain),
            1 => Ok(Mark::Rack),
            2 => Ok(Mark::Bar),
            _ => Err(Refusal::NoSuchMark),
        }
    }
}

impl Label {
    // n near, t tight, f far. A method, since `u8::from` would not say that it is the letter.
    pub fn letter(self) -> u8
        ensures { result ≡ label_letter self }
    {
        match self {
            Label::Near => b'n',
            Label::Tight => b't',
            Label::Far => b'f',
        }
    }
}

impl Feature {
    // 1 lower bounds, 2 links, 3 limits, 4 terminals. A method, as the number of a refusal is.
    pub fn number(self) -> u32
        ensures { result ≡ feature_number self }
    {
        match self {
            Feature::LowerBounds => 1,
            Feature::Links => 2,
            Feature::Limits => 3,
            Feature::Terminals => 4,
        }
    }
}

impl Refusal {
    // 1 to 10 are faults of what was given, 21 to 26 of the state that it met. A method, since a refusal may have a second
    // number, its feature's, and `u32::from` would not say which of the two it is.
    pub fn number(self) -> u32
        ensures { result ≡ refusal_number self }
    {
        match self {
            Refusal::PointCount => 1,
            Refusal::NoSuchPoint => 2,
            Refusal::NoSuchRun => 3,
            Refusal::NoSuchMark => 4,
            Refusal::BadRange => 5,
            Refusal::EqualEnds => 6,
            Refusal::UnknownLine => 7,
            Refusal::LineOrder => 8,
            Refusal::TextTooLong => 9,
            Refusal::BrokenDrawing => 10,
            Refusal::RunsFull => 21,
            Refusal::Unsupported(_) => 22,
            Refusal::TooLarge => 23,
            Refusal::NotSolved => 24,
            Refusal::OtherVerdict => 25,
            Refusal::OutputTooShort => 26,
        }
    }

    // The number of the feature that 22 names; the others name none.
    pub fn feature(self) -> Option<u32>
        ensures { result ≡ refusal_feature self }
    {
        match self {
            Refusal::Unsupported(f) => Some(f.number()),
            _ => None,
        }
    }
}
