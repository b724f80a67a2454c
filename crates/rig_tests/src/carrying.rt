// Which rigs each solver carries: bottom solvers alone, single layers, stacks that lack one feature, small stacks.
use crate::lists::try_lists;
use dinic::Dinic;
use drawing::{Refusal, Solver};
use limits::Limits;
use links::Links;
use lower_bounds::LowerBounds;
use push_relabel::PushRelabel;
use rig::Rig;
use std::alloc::{AllocError, Global};
use std::process::Abort;
use std::test::Fail;
use terminals::Terminals;

const RIGS: &str = "\
plain
rig 2 1 3
mark 1 1 = ok
mark 2 2 = ok
solve standard over dinic = ok
total = 3

lower bounds
rig 2
mark 1 1 = ok
mark 2 2 = ok
lead 1 2 1 3 = 1
solve standard over dinic = ok
total = 3

links
rig 2
mark 1 1 = ok
mark 2 2 = ok
link 1 2 3 = 1
solve standard over dinic = ok
total = 3

limits
rig 2 1 3
mark 1 1 = ok
mark 2 2 = ok
limit 1 2 = ok
solve standard over dinic = ok
total = 2

terminals
rig 3 1 3
mark 1 1 = ok
mark 3 1 = ok
mark 2 2 = ok
lead 3 2 0 1 = 2
solve standard over dinic = ok
total = 4

all four
rig 4 1 3
mark 1 1 = ok
mark 3 1 = ok
mark 4 2 = ok
limit 2 3 = ok
lead 1 3 1 1 = 2
link 2 3 2 = 3
lead 2 4 0 9 = 4
solve standard over dinic = ok
total = 3

links and limits
rig 2
mark 1 1 = ok
mark 2 2 = ok
limit 2 2 = ok
link 2 1 3 = 1
solve standard over dinic = ok
total = 2

a shortage
rig 2
mark 1 1 = ok
mark 2 2 = ok
lead 2 1 1 1 = 1
solve standard over dinic = ok
worth = -1

32 points
rig 32 1 3
mark 1 1 = ok
mark 2 2 = ok
solve standard over dinic = ok
total = 3

33 points
rig 33 1 3
mark 1 1 = ok
mark 2 2 = ok
solve standard over dinic = ok
total = 3

11 runs
rig 2 11 1
mark 1 1 = ok
mark 2 2 = ok
solve standard over dinic = ok
total = 11

12 runs
rig 2 12 1
mark 1 1 = ok
mark 2 2 = ok
solve standard over dinic = ok
total = 12

823,045 units
rig 2 82 9999
mark 1 1 = ok
mark 2 2 = ok
lead 1 2 0 3127 = 83
solve standard over dinic = ok
total = 823045

823,046 units
rig 2 82 9999
mark 1 1 = ok
mark 2 2 = ok
lead 1 2 0 3128 = 83
solve standard over dinic = ok
total = 823046
";

// What a solve is told, by the numbers that the tables below have: 0 where it is accepted, the feature that 22 names, or 23.
fn told(r: Result<(), Refusal>) -> u32 {
    match r {
        Ok(()) => 0,
        Err(refusal) => refusal.feature().unwrap_or(refusal.number()),
    }
}

// Each rig has an ending: a refusal keeps it, and another solver's has the same verdict and total.
fn is_told<S: Solver>(rig: &mut Rig, solver: &mut S, expected: u32) -> bool {
    let total = rig.total();
    told(rig.solve(solver)) == expected && rig.total() == total
}

// Of each rig the solver is told what is expected.
fn try_solver<S: Solver + Drop>(
    rt: &impl Abort,
    rigs: &mut [Rig],
    name: &str,
    mut solver: S,
    expected: [u32; 14],
) {
    for (rig, code) in rigs.iter_mut().zip(expected) {
        assert!(rt; is_told(rig, &mut solver, code), "{name}");
    }
}

// Either bottom solver alone, and one layer over it.
fn try_single(rt: &impl Abort, heap: Global, rigs: &mut [Rig]) -> Result<(), AllocError> {
    let bare = [0, 1, 2, 3, 4, 1, 2, 1, 0, 0, 0, 0, 0, 0];
    let with_terminals = [0, 1, 2, 3, 0, 1, 2, 1, 0, 0, 0, 0, 0, 0];
    let with_links = [0, 1, 0, 3, 4, 1, 3, 1, 0, 0, 0, 0, 0, 0];
    let with_limits = [0, 1, 2, 0, 4, 1, 2, 1, 0, 0, 0, 0, 0, 0];
    let with_lower_bounds = [0, 0, 2, 3, 4, 2, 2, 0, 0, 0, 0, 0, 0, 0];
    try_solver(rt, rigs, "Dinic", Dinic::new(heap)?, bare);
    try_solver(rt, rigs, "push-relabel", PushRelabel::new(heap)?, bare);
    let solver = Terminals::new(heap, Dinic::new(heap)?)?;
    try_solver(rt, rigs, "terminals", solver, with_terminals);
    let solver = Links::new(heap, PushRelabel::new(heap)?)?;
    try_solver(rt, rigs, "links", solver, with_links);
    let solver = Limits::new(heap, PushRelabel::new(heap)?)?;
    try_solver(rt, rigs, "limits", solver, with_limits);
    let solver = LowerBounds::new(heap, Dinic::new(heap)?)?;
    try_solver(rt, rigs, "lower bounds", solver, with_lower_bounds);
    Ok(())
}

// Stacks that lack one feature: lower bounds, links, limits, terminals. Limits over links takes no links.
fn try_all_but_one(rt: &impl Abort, heap: Global, rigs: &mut [Rig]) -> Result<(), AllocError> {
    let no_lowers = [0, 1, 0, 0, 0, 1, 0, 1, 0, 0, 0, 0, 0, 0];
    let no_links = [0, 0, 2, 0, 0, 2, 2, 0, 0, 0, 0, 0, 0, 0];
    let no_limits = [0, 0, 0, 3, 0, 3, 3, 0, 0, 0, 0, 0, 0, 0];
    let no_terminals = [0, 0, 0, 0, 4, 4, 0, 0, 0, 0, 0, 0, 0, 0];
    let only_limits = [0, 1, 2, 0, 4, 1, 2, 1, 0, 0, 0, 0, 0, 0];
    let links = Links::new(heap, Limits::new(heap, Dinic::new(heap)?)?)?;
    let solver = Terminals::new(heap, links)?;
    try_solver(rt, rigs, "no lower bounds", solver, no_lowers);
    let limits = Limits::new(heap, LowerBounds::new(heap, PushRelabel::new(heap)?)?)?;
    let solver = Terminals::new(heap, limits)?;
    try_solver(rt, rigs, "no links", solver, no_links);
    let links = Links::new(heap, LowerBounds::new(heap, Dinic::new(heap)?)?)?;
    let solver = Terminals::new(heap, links)?;
    try_solver(rt, rigs, "no limits", solver, no_limits);
    let limits = Limits::new(heap, LowerBounds::new(heap, PushRelabel::new(heap)?)?)?;
    let solver = Links::new(heap, limits)?;
    try_solver(rt, rigs, "no terminals", solver, no_terminals);
    let solver = Limits::new(heap, Links::new(heap, Dinic::new(heap)?)?)?;
    try_solver(rt, rigs, "limits over links", solver, only_limits);
    Ok(())
}

type Thrice<B> = Terminals<Terminals<Terminals<B>>>;

fn thrice<B: Solver + Drop>(heap: Global, below: B) -> Result<Thrice<B>, AllocError> {
    let terminals = Terminals::new(heap, Terminals::new(heap, below)?)?;
    Terminals::new(heap, terminals)
}

// At most 32 points, 11 runs, 823,045 units, these by seven layers of terminals.
fn try_small(rt: &impl Abort, heap: Global, rigs: &mut [Rig]) -> Result<(), AllocError> {
    let few_points = [0, 1, 2, 0, 4, 1, 2, 1, 0, 23, 0, 0, 0, 0];
    let few_runs = [0, 0, 2, 3, 4, 2, 2, 0, 0, 0, 0, 23, 23, 23];
    let few_units = [0, 1, 2, 3, 0, 1, 2, 1, 0, 0, 0, 0, 0, 23];
    let solver = Limits::new(heap, Limits::new(heap, Dinic::new(heap)?)?)?;
    try_solver(rt, rigs, "few points", solver, few_points);
    let twice = LowerBounds::new(heap, LowerBounds::new(heap, Dinic::new(heap)?)?)?;
    let solver = LowerBounds::new(heap, twice)?;
    try_solver(rt, rigs, "few runs", solver, few_runs);
    let terminals = Terminals::new(heap, Dinic::new(heap)?)?;
    let solver = thrice(heap, thrice(heap, terminals)?)?;
    try_solver(rt, rigs, "few units", solver, few_units);
    Ok(())
}

#[test]
fn a_solver_carries_what_it_states(rt: HostRuntime) -> Result<(), Fail> {
    let mut rigs = try_lists(&rt, rt.alloc(), RIGS, "")?;
    try_single(&rt, rt.alloc(), rigs.as_mut_slice())?;
    try_all_but_one(&rt, rt.alloc(), rigs.as_mut_slice())?;
    try_small(&rt, rt.alloc(), rigs.as_mut_slice())?;
    Ok(())
}
