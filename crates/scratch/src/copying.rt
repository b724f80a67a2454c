// Writing within the room that there is.
// The capacity stays, as each writer says: the room of the record or drawing that owns the list is known by it.
ghost use Rattle.std.specs.Prelude.{◌≡◌, ◌++◌, take, vec_capacity};
ghost use Rattle.std.specs.Iterator.{IsFinite};
ghost use Rattle.std.specs.Iterator.Runs.{WholeRun};
ghost use Rattle.drawing.specs.declared.Kind.TheVariants.{Lead};
ghost use Rattle.drawing.specs.Answers.{Short};
ghost use Rattle.drawing.specs.Records.{contents, filed};

use drawing::{Record, Run, Verdict};

// Writes what the iterator gives after what out holds, as far as the room of out goes.
pub fn push_within<I: Iterator + Drop>(items: I, out: &mut Vec<I::Item>)
where
    I::Item: Drop,
    requires can { I.can_next items }
    requires finite { IsFinite (I.remaining items) }
    ensures runs { WholeRun I.next_gives items (λ p. out.new.items ≡ take (vec_capacity out.old) (out.old.items ++ p.items)) }
    ensures capacity { vec_capacity out.new ≡ vec_capacity out.old }
{
    for item in items {
        if out.len() < out.capacity() {
            out.push_reserved(item);
        }
    }
}

// What from holds, as far as the room of out goes. A loop over what fits, and no `push_within`, which tests the room at each item.
pub fn copy_into<T: Copy + Drop>(from: &[T], out: &mut Vec<T>)
    ensures items { out.new.items ≡ take (vec_capacity out.old) from.now }
    ensures capacity { vec_capacity out.new ≡ vec_capacity out.old }
{
    out.clear();
    let n = from.len().min(out.capacity());
    for item in &from[..n] {
        out.push_reserved(*item);
    }
}

// A shortage with the labels that stand in the record.
pub fn file_shortage(out: &mut Record)
    ensures { contents out.new ≡ filed (Short out.old.labels.items) }
{
    out.verdict = Verdict::Shortage;
    out.flows.clear();
    out.supplies.clear();
    out.deliveries.clear();
    out.total = 0;
}

// An added lead, from 0 to upper.
pub fn lead(tail: usize, head: usize, upper: u32) -> Run
    ensures { result ≡ record { kind = Lead; tail = tail; head = head; lower = 0; upper = upper } }
{
    Run::lead(tail, head, 0, upper)
}
