// A text as a case of the table spells it, and a drawing as its outcome does.
use drawing::{Drawing, Kind, Mark, Point, Run};
use std::alloc::{AllocError, Global};
use std::fmt;

// The byte that a character stands for.
fn byte_of(character: u8) -> u8 {
    match character {
        b'|' => b'\n',
        b'^' => b'\r',
        b'~' => b'\t',
        b'_' => b' ',
        b'@' => 0,
        b'%' => 128,
        b'#' => 255,
        _ => character,
    }
}

pub(crate) fn text_of(heap: Global, spelled: &str) -> Result<Vec<u8>, AllocError> {
    spelled.bytes().map(byte_of).collect(heap)
}

fn write_point<W: fmt::Write>(f: &mut fmt::Formatter<W>, point: Point) -> fmt::Result {
    let letter = match point.mark {
        Mark::Plain => '.',
        Mark::Rack => 's',
        Mark::Bar => 't',
    };
    match point.limit {
        None => write!(f, " {letter}"),
        Some(limit) => write!(f, " {letter}{limit}"),
    }
}

fn write_run<W: fmt::Write>(f: &mut fmt::Formatter<W>, run: Run) -> fmt::Result {
    let sign = match run.kind {
        Kind::Lead => '>',
        Kind::Link => '=',
    };
    write!(f, " {}{sign}{}", run.tail, run.head)?;
    write!(f, ":{}-{}", run.lower, run.upper)
}

// `ok`, the points and the runs.
#[derive(Clone, Copy)]
pub(crate) struct Spelled<'a>(pub(crate) &'a Drawing);

impl fmt::Display for Spelled<'_> {
    fn fmt<W: fmt::Write>(&self, f: &mut fmt::Formatter<W>) -> fmt::Result {
        f.write_str("ok")?;
        for point in &self.0.points {
            write_point(f, *point)?;
        }
        for run in &self.0.runs {
            write_run(f, *run)?;
        }
        Ok(())
    }
}
