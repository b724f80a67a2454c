// A text that is being read, and the rig that its lines make.
ghost use Rattle.std.specs.Prelude.{◌≡◌, ◌+◌, ◌<◌, ◌≤◌, length};
ghost use Rattle.reading.specs.Lines.{start_of};

use rig_draft::Draft;

// The place is where the line begins that is next. Lines are numbered from 1.
#[derive(Drop)]
pub struct Reader<'a> {
    text: &'a [u8],
    place: usize,
    line: u16,
    draft: Draft,
    ghost numbered: { 1 ≤ line },
    ghost begins: { place ≡ start_of text.now line },
    ghost reached: { line ≤ place + 1 },
    ghost unread: { 16384 < length text.now → line ≡ 1 },
}

pub mod lines;
pub mod whole;
