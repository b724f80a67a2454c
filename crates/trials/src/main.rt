// Tries solvers against each other, against the proved checks and, on small drawings, against all labellings.
#![tactic(auto)]

mod exhaustive;
mod random;
mod shapes;
mod tally;

use dinic::Dinic;
use drawing::Solver;
use limits::Limits;
use links::Links;
use lower_bounds::LowerBounds;
use push_relabel::PushRelabel;
use shapes::{Ends, Features, Shape, plain};
use stacks::standard;
use tally::{Place, try_shape};
use terminals::Terminals;

// Shapes that a bottom solver takes, and how many drawings of each.
fn plain_shapes() -> [(Shape, u32); 10] {
    [
        (plain("few", Ends::Any, (2, 5), (0, 8), 4), 800),
        (plain("sparse", Ends::Any, (6, 24), (6, 30), 99), 400),
        (plain("dense", Ends::Any, (4, 20), (40, 120), 9999), 300),
        (plain("chain", Ends::Next, (4, 40), (20, 120), 50), 200),
        (plain("ladder", Ends::Near, (4, 40), (20, 160), 500), 200),
        (plain("parallel", Ends::Any, (2, 2), (1, 60), 9999), 100),
        (plain("hub", Ends::Hub, (4, 20), (10, 60), 30), 150),
        (plain("apart", Ends::Apart, (4, 30), (10, 60), 30), 100),
        (plain("wide", Ends::Near, (90, 127), (200, 600), 9999), 40),
        (
            plain("largest", Ends::Any, (128, 128), (1024, 1024), 1757812),
            10,
        ),
    ]
}

// Shapes with these features.
fn featured(features: Features) -> [(Shape, u32); 3] {
    let few = plain("few", Ends::Any, (2, 5), (0, 7), 4);
    let sparse = plain("sparse", Ends::Any, (6, 20), (6, 30), 60);
    let ladder = plain("ladder", Ends::Near, (6, 30), (20, 90), 300);
    [
        (Shape { features, ..few }, 200),
        (Shape { features, ..sparse }, 60),
        (Shape { features, ..ladder }, 40),
    ]
}

// Tries two solvers against each other, on so many drawings of each shape.
fn try_pair<A: Solver + Drop, B: Solver + Drop>(
    rt: &HostRuntime,
    place: &mut Place,
    what: &str,
    shapes: &[(Shape, u32)],
    mut a: A,
    mut b: B,
) -> anyhow::Result<()> {
    println!(rt; "{what}")?;
    println!(rt; "shape        drawings accepted    right   agreed   within    small confirmed")?;
    for (shape, trials) in shapes {
        let tally = try_shape(place, *shape, *trials, &mut a, &mut b)?;
        println!(rt; "{:<12}{tally}", shape.name)?;
    }
    Ok(())
}

fn main(rt: HostRuntime) -> anyhow::Result<()> {
    let heap = rt.alloc();
    let mut place = Place::new(heap, 20261117)?;
    let none = Features::default();
    let all = Features {
        lowers: true,
        links: true,
        limits: true,
        terminals: true,
    };
    try_pair(
        &rt,
        &mut place,
        "Dinic against push-relabel",
        &plain_shapes(),
        Dinic::new(heap)?,
        PushRelabel::new(heap)?,
    )?;
    try_pair(
        &rt,
        &mut place,
        "the standard stack over both, all features",
        &featured(all),
        standard(heap, Dinic::new(heap)?)?,
        standard(heap, PushRelabel::new(heap)?)?,
    )?;
    let limits = Limits::new(heap, LowerBounds::new(heap, PushRelabel::new(heap)?)?)?;
    try_pair(
        &rt,
        &mut place,
        "the standard stack against links over terminals",
        &featured(all),
        standard(heap, Dinic::new(heap)?)?,
        Links::new(heap, Terminals::new(heap, limits)?)?,
    )?;
    try_pair(
        &rt,
        &mut place,
        "terminals alone",
        &featured(Features {
            terminals: true,
            ..none
        }),
        Terminals::new(heap, Dinic::new(heap)?)?,
        Terminals::new(heap, PushRelabel::new(heap)?)?,
    )?;
    try_pair(
        &rt,
        &mut place,
        "links alone",
        &featured(Features {
            links: true,
            ..none
        }),
        Links::new(heap, Dinic::new(heap)?)?,
        Links::new(heap, PushRelabel::new(heap)?)?,
    )?;
    try_pair(
        &rt,
        &mut place,
        "limits alone",
        &featured(Features {
            limits: true,
            ..none
        }),
        Limits::new(heap, Dinic::new(heap)?)?,
        Limits::new(heap, PushRelabel::new(heap)?)?,
    )?;
    try_pair(
        &rt,
        &mut place,
        "lower bounds alone",
        &featured(Features {
            lowers: true,
            ..none
        }),
        LowerBounds::new(heap, Dinic::new(heap)?)?,
        LowerBounds::new(heap, PushRelabel::new(heap)?)?,
    )
}
