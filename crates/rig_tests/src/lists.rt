// Performing lists of calls, and comparing what each call was told.
// A list is a title, the rig and a line for each call; an empty line ends it. The rig is `rig POINTS`, or
// `rig POINTS LEADS UPPER` with so many leads from point 1 to point 2. A line is the call, ` = ` and what it is told;
// a list may have `..` where lines that it shares with others are performed.
use crate::calls::{BLANK, read_call, read_numbers};
use crate::replies::Reply;
use crate::solvers::{Named, Stack};
use ledger::{Call, Told};
use rig::{Rig, play};
use std::alloc::Global;
use std::process::Abort;
use std::test::Fail;

// Of a sheet's output the sheet's own bytes were written, and no other.
fn is_output_kept<S>(call: &Call<S>, told: &Told) -> bool {
    let Call::Sheet(out) = call else {
        return true;
    };
    let written = match told {
        Told::Sheet(Ok(length)) => *length,
        _ => 0,
    };
    out.iter()
        .enumerate()
        .all(|(i, byte)| (*byte == BLANK) == (i >= written))
}

// The call of a line, and what it is told.
fn cut(line: &str) -> (&str, &str) {
    line.split_once(" = ").unwrap_or((line, ""))
}

fn read_calls<S: Named>(heap: Global, lines: &str) -> Option<Vec<Call<S>>> {
    let mut calls = Vec::new(heap);
    for line in lines.lines() {
        let (call, _) = cut(line);
        calls.push(read_call(heap, call)?).ok()?;
    }
    Some(calls)
}

// Where a list is performed and compared, and the title that it is told under.
#[derive(Clone, Copy)]
struct List<'a, A> {
    rt: &'a A,
    heap: Global,
    title: &'a str,
}

impl<A: Abort> List<'_, A> {
    fn compare<S>(&self, line: &str, call: &Call<S>, told: &Told) -> Result<(), Fail> {
        let (_, expected) = cut(line);
        let title = self.title;
        let reply = format!(in self.heap; "{}", Reply(told))?;
        assert_eq!(self.rt; reply.as_str(), expected, "{title}: {line}");
        assert!(self.rt; is_output_kept(call, told), "{title}: {line}");
        Ok(())
    }

    // Performs the calls of the lines as one list.
    fn play_lines<S: Named>(&self, rig: &mut Rig, lines: &str) -> Result<(), Fail> {
        let title = self.title;
        let Some(mut calls) = read_calls::<S>(self.heap, lines) else {
            return Err(Fail::new("a call that cannot be read"));
        };
        let told = play(self.heap, rig, calls.as_mut_slice())?;
        assert!(self.rt; told.len() == calls.len(), "{title}");
        for (line, (call, reply)) in lines.lines().zip(calls.iter().zip(&told)) {
            self.compare(line, call, reply)?;
        }
        Ok(())
    }

    // Performs a list, with the lines that it shares with others.
    fn play<S: Named>(&self, rig: &mut Rig, list: &str, common: &str) -> Result<(), Fail> {
        let (before, after) = list.split_once("..\n").unwrap_or((list, ""));
        self.play_lines::<S>(rig, before)?;
        if after.is_empty() {
            return Ok(());
        }
        self.play_lines::<S>(rig, common)?;
        self.play_lines::<S>(rig, after)
    }
}

fn read_rig(heap: Global, text: &str) -> Option<Rig> {
    let [points, leads, upper, _] = read_numbers(text)?;
    let mut rig = Rig::new(heap, points? as usize).ok()?;
    for _ in 0..leads.unwrap_or(0) {
        rig.lead(1, 2, 0, upper?).ok()?;
    }
    Some(rig)
}

// The title of a list, its rig, and its calls.
fn cut_list(list: &str) -> (&str, &str, &str) {
    let (title, list) = list.split_once("\nrig ").unwrap_or((list, ""));
    let (rig, calls) = list.split_once('\n').unwrap_or((list, ""));
    (title, rig, calls)
}

// The rigs after the lists.
fn play_all<S: Named>(
    rt: &impl Abort,
    heap: Global,
    lists: &str,
    common: &str,
) -> Result<Vec<Rig>, Fail> {
    let mut rigs = Vec::new(heap);
    for list in lists.trim_end().split("\n\n") {
        let (title, rig, calls) = cut_list(list);
        let Some(mut rig) = read_rig(heap, rig) else {
            return Err(Fail::new(title));
        };
        List { rt, heap, title }.play::<S>(&mut rig, calls, common)?;
        rigs.push(rig)?;
    }
    Ok(rigs)
}

// The same by the solvers that `Stack` has.
pub(crate) fn try_lists(
    rt: &impl Abort,
    heap: Global,
    lists: &str,
    common: &str,
) -> Result<Vec<Rig>, Fail> {
    play_all::<Stack>(rt, heap, lists, common)
}
