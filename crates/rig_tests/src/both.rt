// What the standard stack states over either bottom solver.
ghost use Rattle.std.specs.Prelude.{◌≡◌, ◌&&◌, ◌==◌};

use dinic::Dinic;
use drawing::Statements;
use push_relabel::PushRelabel;
use stacks::{standard, statements_over};
use std::test::Fail;

fn is_standard(s: Statements) -> bool
    ensures { result ≡ (s.lowers && s.links && s.limits && s.terminals && s.points == 61 && s.runs == 163 && s.units == 100000000) }
{
    let features = s.lowers && s.links && s.limits && s.terminals;
    features && s.points == 61 && s.runs == 163 && s.units == 100_000_000
}

#[test]
fn states_the_same_over_both(rt: HostRuntime) -> Result<(), Fail> {
    let heap = rt.alloc();
    let over_dinic = is_standard(statements_over(&standard(heap, Dinic::new(heap)?)?));
    let over_push_relabel = is_standard(statements_over(&standard(heap, PushRelabel::new(heap)?)?));
    prove!(over_dinic);
    prove!(over_push_relabel);
    Ok(())
}
