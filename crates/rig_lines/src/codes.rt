// The letters by which a text names the kinds of lines and the roles of points.
ghost use Rattle.std.specs.Prelude.{◌≡◌};
ghost use Rattle.rig_lines.specs.Codes.{kind_letter, role_mark};

use crate::{LineKind, Role};
use drawing::Mark;

impl LineKind {
    // c comment, p head, n role, l limit, a lead, e link. A method, since `u8::from` would not say that it is the letter.
    pub fn letter(self) -> u8
        ensures { result ≡ kind_letter self }
    {
        match self {
            LineKind::Comment => b'c',
            LineKind::Head => b'p',
            LineKind::Role => b'n',
            LineKind::Limit => b'l',
            LineKind::Lead => b'a',
            LineKind::Link => b'e',
        }
    }
}

// The mark of a point that has the role.
impl From<Role> for Mark {
    ghost from_gives = { λ role mark. mark ≡ role_mark role };

    fn from(role: Role) -> Mark {
        match role {
            Role::Rack => Mark::Rack,
            Role::Bar => Mark::Bar,
        }
    }
}
