// One line of a rig's text: its kind with its fields, and what it says.
#![tactic(auto)]

pub mod codes;
pub mod items;
pub mod lines;
mod scan;
mod words;

// A field of a line: a part of the text, and its place, the offset of its first byte in the whole text.
#[derive(Clone, Copy)]
pub struct Field<'a> {
    pub bytes: &'a [u8],
    pub at: usize,
}

// The kind of a line, which its first field, one letter, tells.
#[derive(Clone, Copy, PartialEq, Eq)]
pub enum LineKind {
    Comment,
    Head,
    Role,
    Limit,
    Lead,
    Link,
}

// A line as its kind with the fields after the letter.
#[derive(Clone, Copy)]
pub enum Line<'a> {
    // what stands after the letter and one space
    Comment(Field<'a>),
    // the form, the number of points, the number of runs
    Head(Field<'a>, Field<'a>, Field<'a>),
    // the point, its role
    Role(Field<'a>, Field<'a>),
    // the point, its limit
    Limit(Field<'a>, Field<'a>),
    // tail, head, lower, upper
    Lead(Field<'a>, Field<'a>, Field<'a>, Field<'a>),
    // tail, head, upper: a lead whose lower is 0
    PlainLead(Field<'a>, Field<'a>, Field<'a>),
    // first end, second end, upper
    Link(Field<'a>, Field<'a>, Field<'a>),
}

// The form of a text, which its head names.
#[derive(Clone, Copy, PartialEq, Eq)]
pub enum Form {
    Rig,
    Max,
}

// What a line can make of a point.
#[derive(Clone, Copy, PartialEq, Eq)]
pub enum Role {
    Rack,
    Bar,
}

// What a line says. The fields stand in the order of `Line`.
#[derive(Clone, Copy)]
pub enum Item {
    Comment,
    Head(Form, u32, u32),
    Role(u32, Role),
    Limit(u32, u32),
    Lead(u32, u32, u32, u32),
    PlainLead(u32, u32, u32),
    Link(u32, u32, u32),
}
