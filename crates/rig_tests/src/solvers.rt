// The solvers that a list may name. All are of one type, so that one list may have several.
use dinic::Dinic;
use drawing::Solver;
use either_solver::Either;
use push_relabel::PushRelabel;
use stacks::{Standard, standard};
use std::alloc::Global;

// A solver that text can name.
pub(crate) trait Named: Solver + Drop {
    fn read(heap: Global, name: &str) -> Option<Self>;
}

type Bottom = Either<Dinic, PushRelabel>;

pub(crate) type Stack = Either<Bottom, Standard<Bottom>>;

// `dinic` or `push`.
impl Named for Either<Dinic, PushRelabel> {
    fn read(heap: Global, name: &str) -> Option<Either<Dinic, PushRelabel>> {
        match name {
            "dinic" => Some(Either::First(Dinic::new(heap).ok()?)),
            "push" => Some(Either::Second(PushRelabel::new(heap).ok()?)),
            _ => None,
        }
    }
}

// A bottom solver, or `standard over` it.
impl<B: Named> Named for Either<B, Standard<B>> {
    fn read(heap: Global, name: &str) -> Option<Either<B, Standard<B>>> {
        let Some(bottom) = name.strip_prefix("standard over ") else {
            return Some(Either::First(B::read(heap, name)?));
        };
        let stack = standard(heap, B::read(heap, bottom)?).ok()?;
        Some(Either::Second(stack))
    }
}
