// Every refusal in every standing: it is told, and the rig is as it was.
use crate::lists::try_lists;
use std::test::Fail;

// Refused whatever the standing, on 3 points, lead 1 and link 2.
const REFUSED: &str = "\
mark 0 1 = refused 2
mark 4 1 = refused 2
mark 4294967295 1 = refused 2
mark 4 3 = refused 2
mark 3 3 = refused 4
mark 1 4294967295 = refused 4
limit 0 5 = refused 2
limit 4 none = refused 2
limit 4 10000 = refused 2
limit 3 10000 = refused 5
limit 1 4294967295 = refused 5
lead 0 2 0 1 = refused 2
lead 2 4 0 1 = refused 2
lead 4 4 2 1 = refused 2
lead 1 2 2 1 = refused 5
lead 1 2 0 10000 = refused 5
lead 1 2 10000 10000 = refused 5
lead 3 3 2 1 = refused 5
lead 3 3 0 1 = refused 6
link 0 1 1 = refused 2
link 1 4 1 = refused 2
link 4 4 10000 = refused 2
link 1 2 10000 = refused 5
link 2 2 10000 = refused 5
link 2 2 1 = refused 6
rerate 0 0 1 = refused 3
rerate 3 0 1 = refused 3
rerate 3 2 1 = refused 3
rerate 1 2 1 = refused 5
rerate 1 0 10000 = refused 5
rerate 2 1 1 = refused 5
rerate 2 1 4 = refused 5
rerate 2 0 10000 = refused 5
label 0 = refused 2
label 4 = refused 2
use 0 = refused 3
use 3 = refused 3
";

const STANDINGS: &str = "\
drawn
rig 3
mark 1 1 = ok
mark 3 2 = ok
lead 1 2 0 5 = 1
link 2 3 4 = 2
standing = drawn
..
solve dinic = refused 22 2
solve push = refused 22 2
standing = drawn
total = refused 24
worth = refused 24
label 1 = refused 24
use 1 = refused 24
sheet 0 = refused 24
sheet 113 = refused 24
sheet 114 = refused 24
solve standard over dinic = ok
total = 4
use 1 = 4 1
use 2 = 4 0

planned
rig 3
mark 1 1 = ok
mark 3 2 = ok
lead 1 2 0 5 = 1
link 2 3 4 = 2
solve standard over dinic = ok
standing = planned
..
solve dinic = refused 22 2
solve push = refused 22 2
standing = planned
total = 4
worth = refused 25
label 1 = n
label 2 = n
label 3 = f
use 1 = 4 1
use 2 = 4 0
sheet 0 = refused 26
sheet 113 = refused 26
sheet 114 = 114
sheet 200 = 114

short
rig 3
mark 1 1 = ok
mark 3 2 = ok
lead 1 2 2 5 = 1
link 2 3 1 = 2
solve standard over dinic = ok
standing = short
..
solve dinic = refused 22 1
solve push = refused 22 1
standing = short
total = refused 25
worth = -1
label 1 = f
label 2 = n
label 3 = f
use 1 = refused 25
use 2 = refused 25
sheet 0 = refused 26
sheet 45 = refused 26
sheet 46 = 46
sheet 100 = 46

the last values that are not refused
rig 2
mark 1 0 = ok
mark 2 1 = ok
mark 2 2 = ok
limit 1 9999 = ok
limit 2 0 = ok
lead 1 2 9999 9999 = 1
lead 2 1 0 0 = 2
link 1 2 9999 = 3
link 2 1 0 = 4
rerate 2 9999 9999 = ok
rerate 3 0 0 = ok
rerate 3 0 9999 = ok

60 points
rig 60
mark 60 1 = ok
limit 60 1 = ok
lead 60 59 0 1 = 1
mark 61 1 = refused 2
label 60 = refused 24
label 61 = refused 2
";

// Refused whatever the standing, on 2 points and 160 runs.
const REFUSED_WHEN_FULL: &str = "\
lead 1 2 0 1 = refused 21
link 2 1 1 = refused 21
lead 1 3 0 1 = refused 2
link 0 1 1 = refused 2
lead 1 2 2 1 = refused 5
link 1 2 10000 = refused 5
lead 1 1 0 1 = refused 6
link 2 2 1 = refused 6
rerate 161 0 1 = refused 3
use 161 = refused 3
";

const FULL: &str = "\
full, drawn
rig 2 160 3
standing = drawn
..
standing = drawn
use 160 = refused 24
rerate 160 0 4 = ok
mark 1 1 = ok
mark 2 2 = ok
solve dinic = ok
total = 481
use 159 = 3 0
use 160 = 4 0
sheet 5473 = refused 26
sheet 5474 = 5474

full, planned
rig 2 160 9999
mark 1 1 = ok
mark 2 2 = ok
solve standard over dinic = ok
..
standing = planned
total = 1599840
use 160 = 9999 0

full, short
rig 2 160 3
mark 1 2 = ok
mark 2 1 = ok
rerate 160 1 3 = ok
solve standard over push = ok
..
standing = short
worth = -1
use 160 = refused 25

the 160th run
rig 2 159 1
lead 1 2 0 1 = 160
lead 1 2 0 1 = refused 21

a link as the 160th run
rig 2 159 1
link 1 2 9999 = 160
link 1 2 9999 = refused 21
";

#[test]
fn a_refusal_alters_nothing(rt: HostRuntime) -> Result<(), Fail> {
    let _ = try_lists(&rt, rt.alloc(), STANDINGS, REFUSED)?;
    let _ = try_lists(&rt, rt.alloc(), FULL, REFUSED_WHEN_FULL)?;
    Ok(())
}
