// The worth of a labelling, and whether it is a cut or a shortage.
ghost use Rattle.std.specs.Prelude.{◌≡◌, ◌*◌, ◌≤◌, true, not, ◌&&◌, ◌||◌, length, pos, ◌-ℤ◌, int_lt, is_some, IfSome, Decides};
ghost use Rattle.std.specs.List.{list_all, zip};
ghost use Rattle.drawing.specs.Counts.{some_to, nth};
ghost use Rattle.drawing.specs.Drawings.{no_point, Admissible, is_admissible};
ghost use Rattle.drawing.specs.Labels.{label as label_of, is_tight, throttled as throttled_of, worth as worth_of, far_rack, near_bar, Cut, Shortage};
ghost use Rattle.drawing.specs.Tests.{is_labelling};
ghost use Rattle.drawing.specs.Records.{network};
ghost use Rattle.checkers.specs.Told.{has_mark, has_label, run_adds, run_deducts, point_adds, told_worth};
ghost use Rattle.checkers.specs.Seen.{seen};

use crate::admitted::Admitted;
use drawing::{Drawing, Kind, Label, Mark, Point, Run};

// An admitted drawing with a labelling of it: a label for each point, and only limited points are tight. What makes it and
// sums over it is inlined: with few points, to write it down to be passed costs more than it saves.
#[derive(Clone, Copy)]
pub(crate) struct Labelled<'a> {
    drawing: Admitted<'a>,
    labels: &'a [Label],
    ghost labelling: { is_labelling (seen drawing) labels.now ≡ true },
}

impl<'a> Labelled<'a> {
    #[inline(always)]
    pub(crate) fn of(d: &'a Drawing, labels: &'a [Label]) -> Option<Self>
        ensures decides { is_some result ≡ (is_admissible (network d.now) && is_labelling (network d.now) labels.now) }
        ensures same { IfSome result (λ l. (seen l.drawing ≡ network d.now) × (l.labels.now ≡ labels.now)) }
    {
        Labelled::over(Admitted::of(d)?, labels)
    }

    // The same of a drawing that was tested already.
    #[inline(always)]
    pub(crate) fn over(drawing: Admitted<'a>, labels: &'a [Label]) -> Option<Self>
        ensures decides { is_some result ≡ is_labelling (seen drawing.entry) labels.now }
        ensures same { IfSome result (λ l. (seen l.drawing ≡ seen drawing.entry) × (l.labels.now ≡ labels.now)) }
    {
        // An `if`: its branch knows what was tested, as in `Admitted::of`.
        if is_labelling(drawing, labels) {
            Some(Labelled { drawing, labels })
        } else {
            None
        }
    }

    // The label of the point v; a stand-in where there is none. 0 wraps to a place that no list has.
    fn label(&self, v: usize) -> Label
        ensures { result ≡ label_of self.now.labels.now v }
    {
        self.labels
            .get(v.wrapping_sub(1))
            .copied()
            .unwrap_or(Label::Near)
    }

    // What a run adds to the worth.
    fn adds(&self, r: Run) -> u32
        ensures { result ≡ run_adds self.now.labels.now r }
    {
        match (r.kind, self.label(r.tail), self.label(r.head)) {
            (_, Label::Near, Label::Far) | (Kind::Link, Label::Far, Label::Near) => r.upper,
            _ => 0,
        }
    }

    // What it takes away.
    fn deducts(&self, r: Run) -> u32
        ensures { result ≡ run_deducts self.now.labels.now r }
    {
        match (r.kind, self.label(r.tail), self.label(r.head)) {
            (Kind::Lead, Label::Tight | Label::Far, Label::Near | Label::Tight) => r.lower,
            _ => 0,
        }
    }

    // The sum of what the points add.
    fn throttled(&self) -> u64
        ensures value { result ≡ throttled_of (seen self.now.drawing) self.now.labels.now }
        ensures bound { result ≤ 128 * 4294967295 }
    {
        self.drawing
            .points
            .iter()
            .zip(self.labels)
            .map(|(p, l)| u64::from(point_adds(*l, p.limit)))
            .sum()
    }

    // The sum of what the runs and the tight points add, less what the runs take away.
    #[inline(always)]
    pub(crate) fn worth(&self) -> i64
        ensures { result ≡ worth_of (seen self.now.drawing) self.now.labels.now }
    {
        let crossing: u64 = self
            .drawing
            .runs
            .iter()
            .map(|r| u64::from(self.adds(*r)))
            .sum();
        let forced: u64 = self
            .drawing
            .runs
            .iter()
            .map(|r| u64::from(self.deducts(*r)))
            .sum();
        difference(crossing + self.throttled(), forced)
    }

    // Whether a point with the mark has the label.
    fn has(&self, mark: Mark, label: Label) -> bool
        ensures { result ≡ some_to (length self.now.drawing.points.now) (λ v. has_mark mark (nth self.now.drawing.points.now v no_point).mark && has_label label (label_of self.now.labels.now v)) }
    {
        self.drawing
            .points
            .iter()
            .zip(self.labels)
            .any(|(p, l)| p.mark == mark && *l == label)
    }

    pub(crate) fn is_cut(&self) -> bool
        ensures { result ≡ (not (far_rack (seen self.now.drawing) self.now.labels.now) && not (near_bar (seen self.now.drawing) self.now.labels.now)) }
    {
        !self.has(Mark::Rack, Label::Far) && !self.has(Mark::Bar, Label::Near)
    }

    #[inline(always)]
    fn is_shortage(&self) -> bool
        ensures { result ≡ (int_lt (worth_of (seen self.now.drawing) self.now.labels.now) (pos 0) && not (far_rack (seen self.now.drawing) self.now.labels.now && near_bar (seen self.now.drawing) self.now.labels.now)) }
    {
        self.worth() < 0 && !(self.has(Mark::Rack, Label::Far) && self.has(Mark::Bar, Label::Near))
    }
}

fn are_allowed(points: &[Point], labels: &[Label]) -> bool
    ensures { result ≡ list_all (λ x. not (is_tight x.1) || is_some x.0.limit) (zip points.now labels.now) }
{
    points
        .iter()
        .zip(labels)
        .all(|(p, l)| *l != Label::Tight || p.limit.is_some())
}

fn is_labelling(d: Admitted, labels: &[Label]) -> bool
    ensures { result ≡ is_labelling (seen d.entry) labels.now }
{
    labels.len() == d.points.len() && are_allowed(d.points, labels)
}

// What a point adds to the worth: its limit where it is tight.
fn point_adds(l: Label, limit: Option<u32>) -> u32
    ensures { result ≡ point_adds l limit }
{
    if l == Label::Tight {
        limit.unwrap_or(0)
    } else {
        0
    }
}

fn difference(added: u64, taken: u64) -> i64
    requires { (added ≤ 1152 * 4294967295) × (taken ≤ 1024 * 4294967295) }
    ensures { result ≡ pos added -ℤ pos taken }
{
    added as i64 - taken as i64
}

// The worth of a labelling; None unless the drawing is admissible and the labels are a labelling of it.
pub fn worth(d: &Drawing, labels: &[Label]) -> Option<i64>
    ensures { result ≡ told_worth (network d.now) labels.now }
{
    Some(Labelled::of(d, labels)?.worth())
}

// Whether the drawing is admissible and the labels are a cut of it.
pub fn is_cut(d: &Drawing, labels: &[Label]) -> bool
    ensures { Decides result (Admissible (network d.now) × Cut (network d.now) labels.now) }
{
    Labelled::of(d, labels).is_some_and(|l| l.is_cut())
}

// Whether the drawing is admissible and the labels are a shortage of it.
pub fn is_shortage(d: &Drawing, labels: &[Label]) -> bool
    ensures { Decides result (Admissible (network d.now) × Shortage (network d.now) labels.now) }
{
    Labelled::of(d, labels).is_some_and(|l| l.is_shortage())
}
