// What is told of a text, and whether the place is right then.
use crate::spelling::Spelled;
use reading::Fault;
use rigtext::{ReadError, Reader, read};
use std::alloc::Global;
use std::fmt;
use std::process::Abort;
use std::test::Fail;

// Where a line begins, counted by the LFs before it; the text's length where there is no such line.
fn line_start(text: &[u8], line: u16) -> usize {
    let Some(skipped) = usize::from(line).checked_sub(2) else {
        return 0;
    };
    let mut ends = text.iter().enumerate().filter(|(_, byte)| **byte == b'\n');
    ends.nth(skipped)
        .map_or(text.len(), |(i, _)| i.saturating_add(1))
}

// Reads line by line: None at the end, or the fault, which is told twice.
// After each line that is accepted the place is the start of the next.
fn by_lines(rt: &impl Abort, heap: Global, text: &[u8], case: &str) -> Result<Option<Fault>, Fail> {
    let mut reader = Reader::new(heap, text)?;
    for number in 2..20_000 {
        match reader.next_line() {
            Ok(Some(_)) => assert!(rt; reader.place() == line_start(text, number), "{case}"),
            Ok(None) => return Ok(None),
            Err(fault) => {
                assert!(rt; reader.place() == line_start(text, fault.line), "{case}");
                return Ok(reader.next_line().err());
            }
        }
    }
    Err(Fail::new("the reader goes on"))
}

// A fault by its number and its line.
#[derive(Clone, Copy)]
struct Faulty(Fault);

impl fmt::Display for Faulty {
    fn fmt<W: fmt::Write>(&self, f: &mut fmt::Formatter<W>) -> fmt::Result {
        write!(f, "{} {}", self.0.refusal.number(), self.0.line)
    }
}

// What `read` tells: a drawing, or a fault by its number and its line.
fn whole(rt: &impl Abort, heap: Global, text: &[u8], case: &str) -> Result<String, Fail> {
    let mut place = usize::MAX;
    match read(heap, text, &mut place) {
        Ok(rig) => {
            assert!(rt; place == text.len(), "{case}");
            Ok(format!(in heap; "{}", Spelled(&rig.drawing))?)
        }
        Err(ReadError::Fault(fault)) => {
            assert!(rt; place == line_start(text, fault.line), "{case}");
            Ok(format!(in heap; "{}", Faulty(fault))?)
        }
        Err(ReadError::Memory) => Err(Fail::new("no memory")),
    }
}

// Both ways to read tell the same, and it is what is expected.
pub(crate) fn try_text(
    rt: &impl Abort,
    heap: Global,
    text: &[u8],
    expected: &str,
    case: &str,
) -> Result<(), Fail> {
    let told = whole(rt, heap, text, case)?;
    assert_eq!(rt; told.as_str(), expected, "{case}");
    match by_lines(rt, heap, text, case)? {
        None => assert!(rt; expected.starts_with("ok"), "{case}"),
        Some(fault) => {
            let fault = format!(in heap; "{}", Faulty(fault))?;
            assert_eq!(rt; fault.as_str(), expected, "{case}");
        }
    }
    Ok(())
}
