// What a line says.
ghost use Rattle.std.specs.Prelude.{◌≡◌};
ghost use Rattle.rig_lines.specs.Items.{item_of, pair_in, SaidAnywhere};
ghost use Rattle.rig_lines.specs.Shapes.{part, shape};
ghost use Rattle.rig_lines.specs.Spelling.{SpelledExactly};

use crate::words::{form, number, role};
use crate::{Field, Item, Line};

// The numbers in two fields.
fn pair(a: Field, b: Field) -> Option<(u32, u32)>
    ensures { result ≡ pair_in (part a.entry) (part b.entry) }
{
    number(a.bytes).zip(number(b.bytes))
}

// What a line says, or None where a field does not hold what its place asks for.
fn item_of(line: Line) -> Option<Item>
    ensures { result ≡ item_of (shape line.entry) }
{
    match line {
        Line::Comment(_) => Some(Item::Comment),
        Line::Head(name, points, runs) => {
            let (f, (n, m)) = form(name.bytes).zip(pair(points, runs))?;
            Some(Item::Head(f, n, m))
        }
        Line::Role(point, letter) => {
            let (v, r) = number(point.bytes).zip(role(letter.bytes))?;
            Some(Item::Role(v, r))
        }
        Line::Limit(point, limit) => {
            let (v, n) = pair(point, limit)?;
            Some(Item::Limit(v, n))
        }
        Line::Lead(tail, head, lower, upper) => {
            let ((t, h), (lo, up)) = pair(tail, head).zip(pair(lower, upper))?;
            Some(Item::Lead(t, h, lo, up))
        }
        Line::PlainLead(tail, head, upper) => {
            let ((t, h), up) = pair(tail, head).zip(number(upper.bytes))?;
            Some(Item::PlainLead(t, h, up))
        }
        Line::Link(first, second, upper) => {
            let ((t, h), up) = pair(first, second).zip(number(upper.bytes))?;
            Some(Item::Link(t, h, up))
        }
    }
}

impl Line<'_> {
    // What the line says, or None where a field does not hold what its place asks for.
    // A line says just what is spelled in it, wherever in a text it stands.
    pub fn item(self) -> Option<Item>
        ensures said { result ≡ item_of (shape self.entry) }
        ensures spelled { SpelledExactly }
        ensures anywhere { SaidAnywhere }
    {
        item_of(self)
    }
}
