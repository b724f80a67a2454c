// A line of a text, as its kind with its fields.
ghost use Rattle.std.specs.Prelude.{◌≡◌};
ghost use Rattle.rig_lines.specs.declared.LineKind.TheVariants.{Lead};
ghost use Rattle.rig_lines.specs.Shapes.{part, parts2, parts3, parts4, shapes, remark_of, two_parts, three_parts, four_parts, of_kind, shape_of, line_at};

use crate::scan::{Span, ends_at, field_at, next_at};
use crate::{Field, Line, LineKind, words};

// What stands after the letter of a comment and one space.
fn remark<'a>(line: Span<'a>) -> Field<'a>
    ensures { part result ≡ remark_of line.entry.at line.entry.bytes.now }
{
    let from = line.bytes.len().min(2);
    Field {
        bytes: &line.bytes[from..],
        at: line.at + from,
    }
}

// The fields after the letter, where there are just two. Three and four have a function of their own each: one function
// that answers an array `[Field; N]` gets no proof, since the check does not go into arrays of structs that borrow.
fn two<'a>(line: Span<'a>) -> Option<(Field<'a>, Field<'a>)>
    ensures { parts2 result ≡ two_parts line.entry.at line.entry.bytes.now }
{
    let a = next_at(line.bytes, 0);
    let b = next_at(line.bytes, a);
    if !ends_at(line.bytes, b) {
        return None;
    }
    Some((field_at(line, a), field_at(line, b)))
}

// The fields after the letter, where there are just three.
fn three<'a>(line: Span<'a>) -> Option<(Field<'a>, Field<'a>, Field<'a>)>
    ensures { parts3 result ≡ three_parts line.entry.at line.entry.bytes.now }
{
    let a = next_at(line.bytes, 0);
    let b = next_at(line.bytes, a);
    let c = next_at(line.bytes, b);
    if !ends_at(line.bytes, c) {
        return None;
    }
    Some((field_at(line, a), field_at(line, b), field_at(line, c)))
}

// The fields after the letter, where there are just four.
fn four<'a>(line: Span<'a>) -> Option<(Field<'a>, Field<'a>, Field<'a>, Field<'a>)>
    ensures { parts4 result ≡ four_parts line.entry.at line.entry.bytes.now }
{
    let a = next_at(line.bytes, 0);
    let b = next_at(line.bytes, a);
    let c = next_at(line.bytes, b);
    let d = next_at(line.bytes, c);
    if !ends_at(line.bytes, d) {
        return None;
    }
    Some((
        field_at(line, a),
        field_at(line, b),
        field_at(line, c),
        field_at(line, d),
    ))
}

// The line, where it has the fields of the kind and no others.
fn of_kind<'a>(kind: LineKind, line: Span<'a>) -> Option<Line<'a>>
    ensures { shapes result ≡ of_kind kind line.entry.at line.entry.bytes.now }
{
    match kind {
        LineKind::Comment => Some(Line::Comment(remark(line))),
        LineKind::Head => {
            let (form, points, runs) = three(line)?;
            Some(Line::Head(form, points, runs))
        }
        LineKind::Role => {
            let (point, role) = two(line)?;
            Some(Line::Role(point, role))
        }
        LineKind::Limit => {
            let (point, limit) = two(line)?;
            Some(Line::Limit(point, limit))
        }
        LineKind::Lead => lead(line),
        LineKind::Link => {
            let (tail, head, upper) = three(line)?;
            Some(Line::Link(tail, head, upper))
        }
    }
}

// A lead with three numbers, whose lower is 0, or with four.
fn lead<'a>(line: Span<'a>) -> Option<Line<'a>>
    ensures { shapes result ≡ of_kind Lead line.entry.at line.entry.bytes.now }
{
    if let Some((tail, head, upper)) = three(line) {
        return Some(Line::PlainLead(tail, head, upper));
    }
    let (tail, head, lower, upper) = four(line)?;
    Some(Line::Lead(tail, head, lower, upper))
}

// The line of a known form that a part of a text is, or None where it is of none.
fn line_of<'a>(line: Span<'a>) -> Option<Line<'a>>
    ensures { shapes result ≡ shape_of line.entry.at line.entry.bytes.now }
{
    let kind = words::kind(field_at(line, 0).bytes)?;
    of_kind(kind, line)
}

impl<'a> Line<'a> {
    // The line from `start` to before `end`, or None where that is no part of the text, or of no known form.
    pub fn at(text: &'a [u8], start: usize, end: usize) -> Option<Line<'a>>
        ensures { shapes result ≡ line_at text.now start end }
    {
        if start > end || end > text.len() {
            return None;
        }
        line_of(Span {
            bytes: &text[start..end],
            at: start,
        })
    }
}
