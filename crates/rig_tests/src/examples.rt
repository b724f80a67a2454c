// The eight worked examples as lists of calls, and the counts of points that a rig may have.
use crate::lists::try_lists;
use rig::Rig;
use rig_drawing::MakeError;
use std::alloc::Global;
use std::test::Fail;

const EXAMPLES: &str = "\
1, one plain point
rig 1
solve standard over dinic = ok
standing = planned
total = 0
label 1 = f
worth = refused 25
sheet 22 = 22

2, a lead that must carry and whose flow can go nowhere
rig 2
mark 1 1 = ok
mark 2 2 = ok
lead 2 1 1 1 = 1
solve standard over dinic = ok
standing = short
worth = -1
label 1 = n
label 2 = f
total = refused 25
solve standard over push = ok
standing = short
worth = -1

3, the same with a lead by which it returns
rig 2
mark 1 1 = ok
mark 2 2 = ok
lead 2 1 1 1 = 1
lead 1 2 0 4 = 2
solve standard over dinic = ok
standing = planned
total = 3
label 1 = n
label 2 = f
use 1 = 1 0
use 2 = 4 0
solve standard over push = ok
total = 3

4, a lead that must carry more than can go on
rig 3
mark 1 1 = ok
mark 3 2 = ok
lead 1 2 2 2 = 1
lead 2 3 0 1 = 2
solve standard over dinic = ok
standing = short
worth = -1
label 1 = f
label 2 = n
label 3 = f
solve standard over push = ok
standing = short

5, a link that carries from its second end
rig 2
mark 2 1 = ok
mark 1 2 = ok
link 1 2 4 = 1
solve standard over dinic = ok
standing = planned
total = 4
label 1 = f
label 2 = n
use 1 = -4 0
solve standard over push = ok
total = 4
use 1 = -4 0

6, a rack with a limit
rig 2
mark 1 1 = ok
limit 1 3 = ok
mark 2 2 = ok
lead 1 2 0 9 = 1
solve standard over dinic = ok
standing = planned
total = 3
label 1 = t
label 2 = f
use 1 = 3 6
solve standard over push = ok
total = 3

7, no marks and two leads in a circle
rig 2
lead 1 2 1 1 = 1
lead 2 1 1 1 = 2
solve standard over dinic = ok
standing = planned
total = 0
label 1 = f
label 2 = f
use 1 = 1 0
use 2 = 1 0
solve standard over push = ok
total = 0

8, all four features
rig 4
mark 1 1 = ok
mark 4 2 = ok
limit 2 3 = ok
lead 1 2 0 3 = 1
lead 1 3 1 1 = 2
link 2 3 2 = 3
lead 2 4 0 9 = 4
solve standard over dinic = ok
standing = planned
total = 3
label 1 = n
label 2 = t
label 3 = n
label 4 = f
use 1 = 2 1
use 2 = 1 0
use 3 = -1 1
use 4 = 3 6
sheet 194 = 194
solve standard over push = ok
total = 3
";

#[test]
fn examples_have_their_endings(rt: HostRuntime) -> Result<(), Fail> {
    let _ = try_lists(&rt, rt.alloc(), EXAMPLES, "")?;
    Ok(())
}

// The number of the refusal; None where a rig of so many points is made.
fn refused_by(heap: Global, points: usize) -> Result<Option<u32>, Fail> {
    match Rig::new(heap, points) {
        Ok(_) => Ok(None),
        Err(MakeError::Refused(refusal)) => Ok(Some(refusal.number())),
        Err(MakeError::Memory) => Err(Fail::new("no memory")),
    }
}

#[test]
fn a_rig_has_1_to_60_points(rt: HostRuntime) -> Result<(), Fail> {
    let cases = [
        (0, Some(1)),
        (1, None),
        (60, None),
        (61, Some(1)),
        (usize::MAX, Some(1)),
    ];
    for (points, refusal) in cases {
        assert!(rt; refused_by(rt.alloc(), points)? == refusal, "{}", points);
    }
    Ok(())
}
