// The lines of a sheet, each written from a place of the output on.
ghost use Rattle.std.specs.Prelude.{◌≡◌, ℕ, ◌+◌, ◌*◌, ◌<◌, ◌≤◌, length, pos, slice_set};
ghost use Rattle.std.specs.List.{AllByRecursion};
ghost use Rattle.drawing.specs.Counts.{Within, nth};
ghost use Rattle.drawing.specs.Drawings.{no_run};
ghost use Rattle.drawing.specs.Labels.{label as label_of};
ghost use Rattle.sheet.specs.Columns.{Small, text_to, placed};
ghost use Rattle.sheet.specs.Sheets.{line_front, number_line, run_numbers, run_line, point_line};

use crate::numbers::write_columns;
use drawing::{Label, Run};

// The output and the place stay two parameters below, since a line's columns are lent as a part of the output itself.

// Writes a line's letter and its numbers.
fn write_front(out: &mut [u8], a: usize, letter: u8, numbers: &[i32])
    requires room { a + 1 + 8 * length numbers.now ≤ length out.old }
    requires small { AllByRecursion Small numbers.now }
    ensures { out.new ≡ placed out.old a (line_front letter numbers.now) }
{
    out[a] = letter;
    write_columns(out, a + 1, numbers);
}

// Writes the LF that ends a line.
fn end_line(out: &mut [u8], at: usize)
    requires { at < length out.old }
    ensures { out.new ≡ slice_set out.old at 10 }
{
    out[at] = b'\n';
}

// Writes a line that has nothing else.
pub(crate) fn write_numbers(out: &mut [u8], a: usize, letter: u8, numbers: &[i32])
    requires room { a + 2 + 8 * length numbers.now ≤ length out.old }
    requires small { AllByRecursion Small numbers.now }
    ensures { out.new ≡ placed out.old a (number_line letter numbers.now) }
{
    write_front(out, a, letter, numbers);
    end_line(out, a + 1 + 8 * numbers.len());
}

// A run's line: its number, tail, head and flow.
fn write_run(out: &mut [u8], a: usize, number: usize, run: Run, flow: i32)
    requires room { a + 34 ≤ length out.old }
    requires small { AllByRecursion Small (run_numbers number run flow) }
    ensures { out.new ≡ placed out.old a (run_line number run flow) }
{
    let (tail, head) = (run.tail as i32, run.head as i32);
    write_numbers(out, a, b'f', &[number as i32, tail, head, flow]);
}

// A point's line: its number and the letter of its label.
fn write_point(out: &mut [u8], a: usize, number: usize, label: Label)
    requires room { a + 12 ≤ length out.old }
    requires small { Small (pos number) }
    ensures { out.new ≡ placed out.old a (point_line number label) }
{
    write_front(out, a, b'k', &[number as i32]);
    out[a + 9..a + 12].copy_from_slice(&[b' ', label.letter(), b'\n']);
}

// Writes the lines of all runs, one after another.
pub(crate) fn write_runs(out: &mut [u8], a: usize, runs: &[Run], flows: &[i32])
    requires room { a + 34 * length runs.now ≤ length out.old }
    requires level { length flows.now ≡ length runs.now }
    requires small { (k : ℕ) → Within (length runs.now) k → AllByRecursion Small (run_numbers k (nth runs.now k no_run) (nth flows.now k (pos 0))) }
    ensures { out.new ≡ placed out.old a (text_to (length runs.now) (λ k. run_line k (nth runs.now k no_run) (nth flows.now k (pos 0)))) }
{
    // The flow by its index: with `zip` the invariant knows only the list of what was yielded, and no index.
    for (i, run) in runs.iter().enumerate() {
        write_run(out, a + 34 * i, i + 1, *run, flows[i]);
    }
}

// Writes the lines of all points, one after another.
pub(crate) fn write_points(out: &mut [u8], a: usize, labels: &[Label])
    requires room { a + 12 * length labels.now ≤ length out.old }
    requires few { length labels.now ≤ 128 }
    ensures { out.new ≡ placed out.old a (text_to (length labels.now) (λ v. point_line v (label_of labels.now v))) }
{
    for (i, label) in labels.iter().enumerate() {
        write_point(out, a + 12 * i, i + 1, *label);
    }
}
