// One table of texts, each with what is read of it.
use crate::spelling::text_of;
use crate::telling::try_text;
use std::alloc::Global;
use std::process::Abort;
use std::test::Fail;

// A case is a line: the text, ` => ` and the outcome; a line without an outcome is a title.
// In a text `|` stands for LF, `^` for CR, `~` for tab, `_` for a space, `@` for NUL, `%` for byte 128 and `#` for byte 255.
// An outcome is the refusal's number and the line's; or `ok`, the points (`s` rack, `t` bar, `.` plain, each with its limit
// if it has one) and the runs (`1>2:0-3` a lead, `1=2:0-3` a link, with lower and upper).
const CASES: &str = "\
first
 => 8 1
| => 7 1
p rig 1 0 => ok .
p rig 2 1|n 1 s|l 2 5|a 1 2 0 3| => ok s .5 1>2:0-3
p rig 1 0 0 => 7 1
p rig 2 1|a 1 1 5 3 => 5 2
";

fn try_case(rt: &impl Abort, heap: Global, case: &str, expected: &str) -> Result<(), Fail> {
    let text = text_of(heap, case)?;
    try_text(rt, heap, &text, expected, case)
}

#[test]
fn texts_have_their_outcomes(rt: HostRuntime) -> Result<(), Fail> {
    for line in CASES.lines() {
        if let Some((text, expected)) = line.split_once(" => ") {
            try_case(&rt, rt.alloc(), text, expected)?;
        }
    }
    let cases = CASES.lines().filter(|line| line.contains(" => "));
    assert_eq!(rt; cases.count(), 6);
    Ok(())
}
