// The bytes of a sheet.
use crate::calls::BLANK;
use crate::lists::try_lists;
use rig::Rig;
use std::test::Fail;

const SOLVED: &str = "\
a plan
rig 4
mark 1 1 = ok
mark 4 2 = ok
limit 2 3 = ok
lead 1 2 0 3 = 1
lead 1 3 1 1 = 2
link 2 3 2 = 3
lead 2 4 0 9 = 4
solve standard over dinic = ok

a shortage
rig 2
mark 1 1 = ok
mark 2 2 = ok
lead 2 1 1 1 = 1
solve standard over dinic = ok
";

const SHEETS: [&str; 2] = [
    "\
s       3
f       1       1       2       2
f       2       1       3       1
f       3       2       3      -1
f       4       2       4       3
k       1 n
k       2 t
k       3 n
k       4 f
",
    "\
h      -1
k       1 n
k       2 f
",
];

// The sheet is this text, and the output past it stays.
fn is_sheet(rig: &Rig, text: &str) -> bool {
    let mut out = [BLANK; 256];
    let Ok(length) = rig.sheet(&mut out) else {
        return false;
    };
    match out.split_at_checked(length) {
        Some((sheet, rest)) => sheet == text.as_bytes() && !rest.is_empty() && rest[0] == BLANK,
        None => false,
    }
}

fn are_sheets(rigs: &[Rig], texts: [&str; 2]) -> bool {
    let mut pairs = rigs.iter().zip(texts);
    rigs.len() == 2 && pairs.all(|(rig, text)| is_sheet(rig, text))
}

#[test]
fn sheets_have_their_lines(rt: HostRuntime) -> Result<(), Fail> {
    let rigs = try_lists(&rt, rt.alloc(), SOLVED, "")?;
    assert!(rt; are_sheets(&rigs, SHEETS));
    Ok(())
}
