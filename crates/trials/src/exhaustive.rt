// What all labellings of a small drawing say, by the proved checks of each.
use checkers::{is_cut, is_shortage, worth};
use drawing::{Drawing, Label, Record};
use duality::{Finding, settle};
use std::alloc::AllocError;

// The least worth of a cut, or that there is a shortage.
#[derive(Clone, Copy, PartialEq, Eq)]
pub enum Least {
    Shortage,
    Cut(i64),
}

fn label_of(digit: usize) -> Label {
    match digit {
        0 => Label::Near,
        1 => Label::Tight,
        _ => Label::Far,
    }
}

// The labelling of n points whose base-three number is `code`.
fn spell(mut code: usize, n: usize, labels: &mut Vec<Label>) -> Result<(), AllocError> {
    labels.clear();
    for _ in 0..n {
        labels.push(label_of(code % 3))?;
        code /= 3;
    }
    Ok(())
}

fn take(least: Option<Least>, d: &Drawing, labels: &[Label]) -> Option<Least> {
    if least == Some(Least::Shortage) || is_shortage(d, labels) {
        return Some(Least::Shortage);
    }
    if !is_cut(d, labels) {
        return least;
    }
    match (least, worth(d, labels)) {
        (_, None) => least,
        (Some(Least::Cut(v)), Some(w)) => Some(Least::Cut(v.min(w))),
        (_, Some(w)) => Some(Least::Cut(w)),
    }
}

// Goes through all labellings of a drawing of at most five points: None where no labelling says anything.
pub fn least_worth(d: &Drawing, labels: &mut Vec<Label>) -> Result<Option<Least>, AllocError> {
    let mut least = None;
    if d.points.len() > 5 {
        return Ok(least);
    }
    for code in 0..243usize {
        spell(code, d.points.len(), labels)?;
        least = take(least, d, labels);
    }
    Ok(least)
}

// Whether a solver's answer is what all labellings say.
pub fn confirms(least: Option<Least>, d: &Drawing, answer: &Record) -> bool {
    match (settle(d, answer), least) {
        (Some(Finding::Most(total)), Some(Least::Cut(w))) => i64::from(total) == w,
        (Some(Finding::NoPlan(_)), Some(Least::Shortage)) => true,
        _ => false,
    }
}
