// Where the fields of a line begin and end.
ghost use Rattle.std.specs.Prelude.{◌≡◌, ◌+◌, ◌^◌, ◌<◌, ◌≤◌, length, take_while};
ghost use Rattle.rig_lines.specs.Fields.{in_field, is_space, past, skip, next, part_at, ends_at};
ghost use Rattle.rig_lines.specs.Shapes.{part};

use crate::Field;

// A line: a part of a text, and its place, with every place in it a number.
#[derive(Clone, Copy)]
pub(crate) struct Span<'a> {
    pub(crate) bytes: &'a [u8],
    pub(crate) at: usize,
    ghost fits: { at + length bytes.now < 2 ^ 64 },
}

// How many bytes at the front are no spaces. It and the next are a chain each, and no function of a test that is passed in,
// whose contract could only speak of calls of the test.
fn word_length(bytes: &[u8]) -> usize
    ensures { result ≡ length (take_while in_field bytes.now) }
{
    bytes.iter().take_while(|b| **b != b' ').count()
}

// How many bytes at the front are spaces.
fn gap_length(bytes: &[u8]) -> usize
    ensures { result ≡ length (take_while is_space bytes.now) }
{
    bytes.iter().take_while(|b| **b == b' ').count()
}

// The place after the field that begins at `at`.
fn field_end(line: &[u8], at: usize) -> usize
    requires { at ≤ length line.now }
    ensures value { result ≡ past line.now at }
    ensures within { (at ≤ result) × (result ≤ length line.now) }
{
    at + word_length(&line[at..])
}

// The place after the spaces at `at`.
fn gap_end(line: &[u8], at: usize) -> usize
    requires { at ≤ length line.now }
    ensures value { result ≡ skip line.now at }
    ensures within { result ≤ length line.now }
{
    at + gap_length(&line[at..])
}

// The place of the field after the one that begins at `at`.
pub(crate) fn next_at(line: &[u8], at: usize) -> usize
    requires { at ≤ length line.now }
    ensures value { result ≡ next line.now at }
    ensures within { result ≤ length line.now }
{
    gap_end(line, field_end(line, at))
}

// Whether a field begins at `at`, and the line ends with it.
pub(crate) fn ends_at(line: &[u8], at: usize) -> bool
    requires { at ≤ length line.now }
    ensures { result ≡ ends_at line.now at }
{
    at < line.len() && field_end(line, at) == line.len()
}

// The field of a line that begins at `at`.
pub(crate) fn field_at<'a>(line: Span<'a>, at: usize) -> Field<'a>
    requires { at ≤ length line.bytes.now }
    ensures { part result ≡ part_at line.entry.at line.entry.bytes.now at }
{
    let end = field_end(line.bytes, at);
    Field {
        bytes: &line.bytes[at..end],
        at: line.at + at,
    }
}
