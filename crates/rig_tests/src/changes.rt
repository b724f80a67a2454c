// What a change does to the ending, and what a run is told to carry.
use crate::lists::try_lists;
use std::test::Fail;

const CHANGES: &str = "\
a change with equal values clears the ending
rig 2
mark 1 1 = ok
mark 2 2 = ok
lead 1 2 0 9 = 1
limit 1 3 = ok
solve standard over dinic = ok
total = 3
mark 1 1 = ok
standing = drawn
total = refused 24
solve standard over dinic = ok
limit 1 3 = ok
standing = drawn
label 1 = refused 24
solve standard over dinic = ok
limit 2 none = ok
standing = drawn
use 1 = refused 24
solve standard over dinic = ok
rerate 1 0 9 = ok
standing = drawn
worth = refused 24
solve standard over dinic = ok
lead 1 2 0 0 = 2
standing = drawn
sheet 200 = refused 24
solve standard over dinic = ok
link 1 2 0 = 3
standing = drawn
solve standard over dinic = ok
total = 3

the same clears a shortage
rig 2
mark 1 1 = ok
mark 2 2 = ok
lead 2 1 1 1 = 1
solve standard over dinic = ok
worth = -1
mark 1 1 = ok
worth = refused 24
solve standard over dinic = ok
limit 1 none = ok
worth = refused 24
solve standard over dinic = ok
rerate 1 1 1 = ok
standing = drawn
solve standard over dinic = ok
worth = -1

no answer is kept after a rerate
rig 3
mark 1 1 = ok
mark 3 2 = ok
lead 1 2 0 5 = 1
lead 2 3 0 5 = 2
lead 1 3 0 1 = 3
solve dinic = ok
total = 6
use 2 = 5 0
rerate 2 0 2 = ok
total = refused 24
use 2 = refused 24
solve dinic = ok
total = 3
use 1 = 2 3
use 2 = 2 0
use 3 = 1 0
rerate 2 3 4 = ok
solve dinic = refused 22 1
standing = drawn
rerate 1 0 2 = ok
solve standard over dinic = ok
standing = short
total = refused 25
worth = -1
rerate 1 0 3 = ok
worth = refused 24
solve standard over dinic = ok
total = 4
use 2 = 3 1

what a link carries
rig 2
link 1 2 4 = 1
solve standard over dinic = ok
total = 0
use 1 = 0 4
mark 1 1 = ok
mark 2 2 = ok
solve standard over dinic = ok
total = 4
use 1 = 4 0
mark 1 2 = ok
mark 2 1 = ok
solve standard over dinic = ok
total = 4
use 1 = -4 0
limit 2 1 = ok
solve standard over dinic = ok
use 1 = -1 3
mark 1 1 = ok
mark 2 2 = ok
solve standard over dinic = ok
use 1 = 1 3
rerate 1 0 0 = ok
solve standard over dinic = ok
total = 0
use 1 = 0 0

what a lead carries
rig 3
mark 1 1 = ok
mark 3 2 = ok
lead 1 2 2 5 = 1
lead 2 3 0 9999 = 2
lead 3 2 0 7 = 3
solve standard over dinic = ok
total = 5
use 1 = 5 0
use 2 = 5 9994
use 3 = 0 7

several stacks in one list
rig 4
mark 1 1 = ok
mark 4 2 = ok
lead 1 2 0 3 = 1
lead 1 3 0 2 = 2
lead 2 4 0 2 = 3
lead 3 4 0 9 = 4
solve dinic = ok
total = 4
solve push = ok
total = 4
solve standard over push = ok
total = 4
solve standard over dinic = ok
total = 4
link 2 3 1 = 5
solve push = refused 22 2
solve standard over push = ok
total = 5
solve dinic = refused 22 2
total = 5
solve standard over dinic = ok
total = 5
rerate 2 2 2 = ok
rerate 4 0 1 = ok
rerate 5 0 0 = ok
solve standard over push = ok
standing = short
worth = -1
solve standard over dinic = ok
standing = short
worth = -1
";

#[test]
fn a_change_clears_the_ending(rt: HostRuntime) -> Result<(), Fail> {
    let _ = try_lists(&rt, rt.alloc(), CHANGES, "")?;
    Ok(())
}
