// What the word in a field names.
ghost use Rattle.std.specs.Prelude.{◌≡◌, ◌≤◌, length};
ghost use Rattle.std.specs.Str.{bytes_eq};
ghost use Rattle.rig_lines.specs.Codes.{kind_of, role_of, form_of};
ghost use Rattle.rig_lines.specs.Fields.{lone};
ghost use Rattle.rig_lines.specs.Numbers.{number_from, number_of};
ghost use Rattle.rig_lines.specs.Shapes.{and_then};

use crate::{Form, LineKind, Role};

// The byte of a word that has just one.
fn lone_byte(word: &[u8]) -> Option<u8>
    ensures { result ≡ lone word.now }
{
    match word {
        [byte] => Some(*byte),
        _ => None,
    }
}

// The kind of line that a letter names. An Option, and no TryFrom: what is wrong is told of the whole line.
fn kind_named(letter: u8) -> Option<LineKind>
    ensures { result ≡ kind_of letter }
{
    match letter as char {
        'c' => Some(LineKind::Comment),
        'p' => Some(LineKind::Head),
        'n' => Some(LineKind::Role),
        'l' => Some(LineKind::Limit),
        'a' => Some(LineKind::Lead),
        'e' => Some(LineKind::Link),
        _ => None,
    }
}

// The role that a letter names, an Option for the same reason.
fn role_named(letter: u8) -> Option<Role>
    ensures { result ≡ role_of letter }
{
    match letter as char {
        's' => Some(Role::Rack),
        't' => Some(Role::Bar),
        _ => None,
    }
}

// The kind of line that a first field tells.
pub(crate) fn kind(word: &[u8]) -> Option<LineKind>
    ensures { result ≡ and_then (lone word.now) kind_of }
{
    kind_named(lone_byte(word)?)
}

// The role that a field names.
pub(crate) fn role(word: &[u8]) -> Option<Role>
    ensures { result ≡ and_then (lone word.now) role_of }
{
    role_named(lone_byte(word)?)
}

// The form that a field names.
pub(crate) fn form(word: &[u8]) -> Option<Form>
    ensures { result ≡ form_of word.now }
{
    match word {
        b"rig" => Some(Form::Rig),
        b"max" => Some(Form::Max),
        _ => None,
    }
}

// The number that at most seven digits write.
fn digits(word: &[u8]) -> Option<u32>
    requires { length word.now ≤ 7 }
    ensures { result ≡ number_from 0 word.now }
{
    let mut value: u32 = 0;
    for b in word {
        if !b.is_ascii_digit() {
            return None;
        }
        value = value * 10 + u32::from(*b - b'0');
    }
    Some(value)
}

// The number in a field.
pub(crate) fn number(word: &[u8]) -> Option<u32>
    ensures { result ≡ number_of word.now }
{
    if word.is_empty() || word.len() > 7 {
        return None;
    }
    if word.len() > 1 && word[0] == b'0' {
        return None;
    }
    digits(word)
}
