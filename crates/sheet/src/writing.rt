// The sheet of an answer, and the line that tells a fault, each written to the front of the output or not at all.
ghost use Rattle.std.specs.Prelude.{◌≡◌, ◌≤◌, length, pos};
ghost use Rattle.std.specs.List.{AllByRecursion};
ghost use Rattle.drawing.specs.Codes.{refusal_number};
ghost use Rattle.drawing.specs.Labels.{Shortage, worth as worth_of};
ghost use Rattle.drawing.specs.Answers.{Short, Right};
ghost use Rattle.drawing.specs.Records.{network, answer_in};
ghost use Rattle.rig_drawing.specs.Bounds.{Bounded};
ghost use Rattle.sheet.specs.Columns.{Small, placed, fronted, writing_tells, writing_leaves};
ghost use Rattle.sheet.specs.Sheets.{number_line, total_line, worth_line, fault_line, planned_in, sheet_text, sheet_length};

use crate::lines::{write_numbers, write_points, write_runs};
use checkers::worth;
use drawing::{Drawing, Label, Record, Refusal, Verdict};
use rig_drawing::RigDrawing;

// The first line of a plan's sheet.
fn write_total(out: &mut [u8], total: u32)
    requires room { 10 ≤ length out.old }
    requires small { Small (pos total) }
    ensures { out.new ≡ placed out.old 0 (total_line total) }
{
    write_numbers(out, 0, b's', &[total as i32]);
}

// The lines of a plan: its total, the runs, the points.
#[tactic(auto, using(crate::proofs::Fitting::rig_bounded))]
fn write_plan(out: &mut [u8], rig: &RigDrawing, answer: &Record)
    requires right { Right (network rig.now.drawing) (planned_in answer.now) }
    requires room { sheet_length (network rig.now.drawing) (planned_in answer.now) ≤ length out.old }
    ensures { out.new ≡ fronted out.old (sheet_text (network rig.now.drawing) (planned_in answer.now)) }
{
    let d = &rig.drawing;
    let after_runs = 10 + 34 * d.runs.len();
    write_total(out, answer.total);
    write_runs(out, 10, d.runs.as_slice(), answer.flows.as_slice());
    write_points(out, after_runs, answer.labels.as_slice());
}

// A number of few digits, in fewer bits.
fn small_number(value: i64) -> i32
    requires { Small value }
    ensures { result ≡ value }
{
    value as i32
}

// The worth of a shortage, which is always told and has at most seven digits. Only a rig that is short calls it.
pub fn short_worth(d: &Drawing, labels: &[Label]) -> i32
    requires bounded { Bounded (network d.now) }
    requires right { Shortage (network d.now) labels.now }
    ensures value { result ≡ worth_of (network d.now) labels.now }
    ensures small { Small result }
{
    small_number(worth(d, labels).unwrap())
}

// The first line of a shortage's sheet.
fn write_worth(out: &mut [u8], value: i32)
    requires room { 10 ≤ length out.old }
    requires small { Small value }
    ensures { out.new ≡ placed out.old 0 (worth_line value) }
{
    write_numbers(out, 0, b'h', &[value]);
}

// The lines of a shortage: its worth, the points.
#[tactic(auto, using(crate::proofs::Fitting::rig_bounded))]
fn write_shortage(out: &mut [u8], rig: &RigDrawing, labels: &[Label])
    requires right { Shortage (network rig.now.drawing) labels.now }
    requires room { sheet_length (network rig.now.drawing) (Short labels.now) ≤ length out.old }
    ensures { out.new ≡ fronted out.old (sheet_text (network rig.now.drawing) (Short labels.now)) }
{
    write_worth(out, short_worth(&rig.drawing, labels));
    write_points(out, 10, labels);
}

// The sheet, where there is room for it.
fn write_answer(out: &mut [u8], rig: &RigDrawing, answer: &Record)
    requires right { Right (network rig.now.drawing) (answer_in answer.now) }
    requires room { sheet_length (network rig.now.drawing) (answer_in answer.now) ≤ length out.old }
    ensures { out.new ≡ fronted out.old (sheet_text (network rig.now.drawing) (answer_in answer.now)) }
{
    match answer.verdict {
        Verdict::Plan => write_plan(out, rig, answer),
        Verdict::Shortage => write_shortage(out, rig, answer.labels.as_slice()),
    }
}

// The first line has 10 bytes, each run's 34 and each point's 12.
#[tactic(auto, using(crate::proofs::Fitting::rig_bounded))]
fn sheet_length(rig: &RigDrawing, answer: &Record) -> usize
    ensures { result ≡ sheet_length (network rig.now.drawing) (answer_in answer.now) }
{
    let d = &rig.drawing;
    match answer.verdict {
        Verdict::Plan => 10 + 34 * d.runs.len() + 12 * d.points.len(),
        Verdict::Shortage => 10 + 12 * d.points.len(),
    }
}

// Writes the sheet of the answer in the record and answers its length; 26 where the output is shorter.
// Only a rig calls it: planned or short, it has a right answer to its drawing in its record.
pub fn write_sheet(out: &mut [u8], rig: &RigDrawing, answer: &Record) -> Result<usize, Refusal>
    requires right { Right (network rig.now.drawing) (answer_in answer.now) }
    ensures tells { result ≡ writing_tells out.old (sheet_text (network rig.now.drawing) (answer_in answer.now)) }
    ensures leaves { out.new ≡ writing_leaves out.old (sheet_text (network rig.now.drawing) (answer_in answer.now)) }
{
    let length = sheet_length(rig, answer);
    if out.len() < length {
        return Err(Refusal::OutputTooShort);
    }
    write_answer(out, rig, answer);
    Ok(length)
}

// Writes one line and nothing else.
fn write_alone(out: &mut [u8], letter: u8, numbers: &[i32]) -> Result<usize, Refusal>
    requires few { length numbers.now ≤ 4 }
    requires small { AllByRecursion Small numbers.now }
    ensures tells { result ≡ writing_tells out.old (number_line letter numbers.now) }
    ensures leaves { out.new ≡ writing_leaves out.old (number_line letter numbers.now) }
{
    let length = 2 + 8 * numbers.len();
    if out.len() < length {
        return Err(Refusal::OutputTooShort);
    }
    write_numbers(out, 0, letter, numbers);
    Ok(length)
}

// Writes the line of a fault, a refusal's number and the number of the line that it met, and answers its length; 26 where the output is shorter.
pub fn write_fault(out: &mut [u8], refusal: Refusal, line: u16) -> Result<usize, Refusal>
    ensures tells { result ≡ writing_tells out.old (fault_line (refusal_number refusal) line) }
    ensures leaves { out.new ≡ writing_leaves out.old (fault_line (refusal_number refusal) line) }
{
    let number = refusal.number() as i32;
    write_alone(out, b'r', &[number, i32::from(line)])
}
