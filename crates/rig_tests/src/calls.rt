// A call written as text: its name, then its numbers, or the name of its solver.
use crate::solvers::Named;
use ledger::Call;
use std::alloc::Global;

// A sheet's output is filled with this byte, which no sheet has.
pub(crate) const BLANK: u8 = b'#';

// Up to four numbers; a place that has none, or says none, has no number.
pub(crate) fn read_numbers(text: &str) -> Option<[Option<u32>; 4]> {
    let mut numbers = [None; 4];
    for (number, word) in numbers.iter_mut().zip(text.split(' ')) {
        if word != "none" && !word.is_empty() {
            *number = Some(word.parse::<u32>().ok()?);
        }
    }
    Some(numbers)
}

// A call that takes numbers only.
fn read_plain<S>(name: &str, numbers: [Option<u32>; 4]) -> Option<Call<S>> {
    let [a, b, c, d] = numbers;
    match name {
        "standing" => return Some(Call::Standing),
        "total" => return Some(Call::Total),
        "worth" => return Some(Call::Worth),
        _ => {}
    }
    let place = a? as usize;
    match name {
        "mark" => Some(Call::Mark(place, b?)),
        "limit" => Some(Call::Limit(place, b)),
        "lead" => Some(Call::Lead(place, b? as usize, c?, d?)),
        "link" => Some(Call::Link(place, b? as usize, c?)),
        "rerate" => Some(Call::Rerate(place, b?, c?)),
        "label" => Some(Call::Label(place)),
        "use" => Some(Call::Use(place)),
        _ => None,
    }
}

pub(crate) fn read_call<S: Named>(heap: Global, text: &str) -> Option<Call<S>> {
    let (name, rest) = text.split_once(' ').unwrap_or((text, ""));
    if name == "solve" {
        return Some(Call::Solve(S::read(heap, rest)?));
    }
    let numbers = read_numbers(rest)?;
    if name == "sheet" {
        let [length, ..] = numbers;
        return Some(Call::Sheet(vec![in heap; BLANK; length? as usize].ok()?));
    }
    read_plain(name, numbers)
}
