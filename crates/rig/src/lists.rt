// A list of calls on a rig, and what they are told.
ghost use Rattle.std.specs.Prelude.{◌≡◌, map, MatchResult};
ghost use Rattle.ledger.specs.Calls.{request, reply};
ghost use Rattle.ledger.specs.Law.{Law};
ghost use Rattle.ledger.specs.Ledgers.{says, next, spent};
ghost use Rattle.rig.specs.Rigs.{ledger_of};

use crate::Rig;
use drawing::{Refusal, Solver};
use ledger::{Call, Standing, Told};
use std::alloc::{AllocError, Global};

impl Rig {
    // One call of a list: the standing and the call together decide what happens.
    pub fn perform<S: Solver>(&mut self, call: &mut Call<S>) -> Told
        ensures held { ledger_of self.new ≡ next (ledger_of self.old) (request S.states S.answer call.old) }
        ensures told { reply result ≡ says (ledger_of self.old) (request S.states S.answer call.old) }
        ensures left { request S.states S.answer call.new ≡ spent (ledger_of self.old) (request S.states S.answer call.old) }
    {
        match (self.standing, call) {
            (_, Call::Mark(v, code)) => return Told::Done(self.mark(*v, *code)),
            (_, Call::Limit(v, limit)) => return Told::Done(self.limit(*v, *limit)),
            (_, Call::Lead(tail, head, lower, upper)) => return Told::Laid(self.lead(
                *tail, *head, *lower, *upper,
            )),
            (_, Call::Link(first, second, upper)) => return Told::Laid(self.link(
                *first, *second, *upper,
            )),
            (_, Call::Rerate(k, lower, upper)) => return Told::Done(self.rerate(
                *k, *lower, *upper,
            )),
            (_, Call::Solve(solver)) => return Told::Done(self.solve(solver)),
            (standing, Call::Standing) => return Told::Standing(standing),
            (Standing::Drawn, Call::Total) => return Told::Total(Err(Refusal::NotSolved)),
            (Standing::Planned, Call::Total) => return Told::Total(Ok(self.answer.total)),
            (Standing::Short, Call::Total) => return Told::Total(Err(Refusal::OtherVerdict)),
            (Standing::Drawn, Call::Worth) => return Told::Worth(Err(Refusal::NotSolved)),
            (Standing::Planned, Call::Worth) => return Told::Worth(Err(Refusal::OtherVerdict)),
            (Standing::Short, Call::Worth) => return Told::Worth(self.worth()),
            (_, Call::Label(v)) => return Told::Label(self.label(*v)),
            (_, Call::Use(k)) => return Told::Use(self.usage(*k)),
            (Standing::Drawn, Call::Sheet(_)) => return Told::Sheet(Err(Refusal::NotSolved)),
            (_, Call::Sheet(out)) => return Told::Sheet(self.sheet(out.as_mut_slice())),
        }
    }
}

// Performs the calls in order and answers what they were told, under the law. Without memory for the answers
// nothing is done.
pub fn play<S: Solver>(
    heap: Global,
    rig: &mut Rig,
    calls: &mut [Call<S>],
) -> Result<Vec<Told>, AllocError>
    ensures { MatchResult result (λ told. Law (ledger_of rig.old) (map (request S.states S.answer) calls.old) (map reply told.items) (map (request S.states S.answer) calls.new) (ledger_of rig.new)) (λ _. (ledger_of rig.new ≡ ledger_of rig.old) × (calls.new ≡ calls.old)) }
{
    let mut told = Vec::with_capacity(heap, calls.len())?;
    for call in calls.iter_mut() {
        let answer = rig.perform(call);
        told.push_reserved(answer);
    }
    Ok(told)
}
