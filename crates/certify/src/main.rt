// Runs the proved checks on the worked examples, on damaged answers to them, and on what solvers answer.
#![tactic(auto)]

mod networks;

use checkers::{is_cut, is_feasible, is_right};
use dinic::Dinic;
use drawing::{Drawing, Label, Record, Solver};
use duality::worked::{example, examples_stand};
use duality::{Finding, settle};
use push_relabel::PushRelabel;
use stacks::standard;
use std::fmt;

// The letters of the labels, by point.
#[derive(Clone, Copy)]
struct Letters<'a>(&'a [Label]);

impl fmt::Display for Letters<'_> {
    fn fmt<W: fmt::Write>(&self, f: &mut fmt::Formatter<W>) -> fmt::Result {
        for label in self.0 {
            write!(f, "{}", label.letter() as char)?;
        }
        Ok(())
    }
}

// What an answer settles, and its labels.
fn tell(rt: &HostRuntime, name: &str, d: &Drawing, answer: &Record) -> anyhow::Result<()> {
    let labels = Letters(&answer.labels);
    match settle(d, answer) {
        Some(Finding::Most(total)) => println!(rt; "{name}: plan, total {total}, labels {labels}")?,
        Some(Finding::NoPlan(worth)) => println!(rt;
            "{name}: shortage, worth {worth}, labels {labels}"
        )?,
        None => println!(rt; "{name}: WRONG")?,
    }
    Ok(())
}

fn tell_examples(rt: &HostRuntime) -> anyhow::Result<()> {
    for k in 1..examples_stand() + 1 {
        if let Some((d, answer)) = example(rt.alloc(), k)? {
            let name = format!(in rt.alloc(); "example {k}")?;
            tell(rt, &name, &d, &answer)?;
        }
    }
    Ok(())
}

// What the checks say of an answer that was damaged.
fn tell_damaged(rt: &HostRuntime, what: &str, d: &Drawing, answer: &Record) -> anyhow::Result<()> {
    let feasible = is_feasible(d, &answer.flows, &answer.supplies, &answer.deliveries);
    let cut = is_cut(d, &answer.labels);
    let right = is_right(d, answer);
    println!(rt; "{what}: feasible {feasible}, cut {cut}, right {right}")?;
    Ok(())
}

// Example 8 with one damage to its answer.
fn tell_damage<F: FnOnce(&mut Record)>(
    rt: &HostRuntime,
    what: &str,
    damage: F,
) -> anyhow::Result<()>
    requires { F.IsAlwaysCallable damage }
{
    if let Some((d, mut answer)) = example(rt.alloc(), 8)? {
        damage(&mut answer);
        tell_damaged(rt, what, &d, &answer)?;
    }
    Ok(())
}

// Writes the item at the place, where the list has that place.
fn put<T: Copy + Drop>(items: &mut [T], i: usize, item: T) {
    if let Some(place) = items.get_mut(i) {
        *place = item;
    }
}

// Where solvers write what they answer, to be told.
#[derive(Drop)]
struct Desk<'a> {
    rt: &'a HostRuntime,
    answer: Record,
}

impl Desk<'_> {
    // What a solver answers to a drawing: what that settles and the labels, or the refusal.
    fn tell_solved<S: Solver>(
        &mut self,
        name: &str,
        d: &Drawing,
        solver: &mut S,
    ) -> anyhow::Result<bool> {
        if let Err(e) = solver.solve(d, &mut self.answer) {
            println!(self.rt;
                "{name}: refused by {} for {}",
                e.number(),
                e.feature().unwrap_or(0)
            )?;
            return Ok(false);
        }
        tell(self.rt, name, d, &self.answer)?;
        Ok(true)
    }

    // The flows of the runs, in order.
    fn tell_flows(&self) -> anyhow::Result<()> {
        print!(self.rt; "  flows")?;
        for f in &self.answer.flows {
            print!(self.rt; " {f}")?;
        }
        println!(self.rt; "")?;
        Ok(())
    }

    // One network, with its flows.
    fn solve_small<S: Solver>(
        &mut self,
        name: &str,
        d: &Drawing,
        solver: &mut S,
    ) -> anyhow::Result<()> {
        if self.tell_solved(name, d, solver)? {
            self.tell_flows()?;
        }
        Ok(())
    }

    // The plain networks.
    fn solve_networks<S: Solver>(&mut self, solver: &mut S) -> anyhow::Result<()> {
        let heap = self.rt.alloc();
        self.solve_small("diamond", &networks::diamond(heap)?, solver)?;
        self.solve_small("neck", &networks::neck(heap)?, solver)?;
        self.solve_small("apart", &networks::apart(heap)?, solver)?;
        let _ = self.tell_solved("grid", &networks::grid(heap)?, solver)?;
        let _ = self.tell_solved("chain", &networks::chain(heap)?, solver)?;
        Ok(())
    }

    // The worked examples.
    fn solve_examples<S: Solver>(&mut self, solver: &mut S) -> anyhow::Result<()> {
        let heap = self.rt.alloc();
        for k in 1..examples_stand() + 1 {
            if let Some((d, _)) = example(heap, k)? {
                let name = format!(in heap; "example {k}")?;
                self.solve_small(&name, &d, solver)?;
            }
        }
        Ok(())
    }

    // By each bottom solver alone, which refuses what the examples use, and by the standard stack over it.
    fn solve_by<B: Solver + Drop>(&mut self, name: &str, mut bottom: B) -> anyhow::Result<()> {
        println!(self.rt; "by {name}")?;
        self.solve_networks(&mut bottom)?;
        self.solve_examples(&mut bottom)?;
        println!(self.rt; "by the standard stack over {name}")?;
        let mut stack = standard(self.rt.alloc(), bottom)?;
        self.solve_examples(&mut stack)
    }
}

fn main(rt: HostRuntime) -> anyhow::Result<()> {
    let heap = rt.alloc();
    tell_examples(&rt)?;
    tell_damage(
        &rt,
        "a flow above its upper",
        |answer| put(&mut answer.flows, 0, 4),
    )?;
    // the limited point called far makes the worth 4
    tell_damage(
        &rt,
        "a label that makes the worth wrong",
        |answer| put(&mut answer.labels, 1, Label::Far),
    )?;
    tell_damage(
        &rt,
        "a plan that is not balanced",
        |answer| put(&mut answer.flows, 3, 2),
    )?;
    let mut desk = Desk {
        rt: &rt,
        answer: Record::new(heap)?,
    };
    desk.solve_by("Dinic's method", Dinic::new(heap)?)?;
    desk.solve_by("push-relabel", PushRelabel::new(heap)?)
}
