// The checks that every solver makes before it solves, in the order of the refusals' numbers.
ghost use Rattle.std.specs.Prelude.{◌≡◌, ◌*◌, ◌≤◌, is_ok, Decides, length};
ghost use Rattle.std.specs.List.{find};
ghost use Rattle.drawing.specs.Counts.{count_to, sum_to, nth};
ghost use Rattle.drawing.specs.Drawings.{no_point, no_run, limit_of, units as units_of, uses};
ghost use Rattle.drawing.specs.Records.{network};
ghost use Rattle.drawing.specs.Solvers.{Carried, says_yes, lacks, is_within, refusal, told};
ghost use Rattle.checkers.specs.Told.{features, has_mark, told_units};
ghost use Rattle.checkers.specs.Seen.{seen};

use crate::admitted::Admitted;
use drawing::{Drawing, Feature, Kind, Mark, Refusal, Statements};

const FEATURES: [Feature; 4] = [
    Feature::LowerBounds,
    Feature::Links,
    Feature::Limits,
    Feature::Terminals,
];

fn says_yes(s: Statements, f: Feature) -> bool
    ensures { result ≡ says_yes s f }
{
    match f {
        Feature::LowerBounds => s.lowers,
        Feature::Links => s.links,
        Feature::Limits => s.limits,
        Feature::Terminals => s.terminals,
    }
}

impl Admitted<'_> {
    // How many points have the mark. A sum, which is quicker than `filter` and `count`.
    fn count(&self, mark: Mark) -> usize
        ensures { result ≡ count_to (length self.now.points.now) (λ v. has_mark mark (nth self.now.points.now v no_point).mark) }
    {
        self.points
            .iter()
            .map(|p| usize::from(p.mark == mark))
            .sum()
    }

    // The sum of the uppers.
    fn uppers(&self) -> u64
        ensures value { result ≡ sum_to (length self.now.runs.now) (λ k. (nth self.now.runs.now k no_run).upper) }
        ensures bound { result ≤ 1024 * 4294967295 }
    {
        self.runs.iter().map(|r| u64::from(r.upper)).sum()
    }

    // The sum of the limits.
    fn limits(&self) -> u64
        ensures value { result ≡ sum_to (length self.now.points.now) (λ v. limit_of (nth self.now.points.now v no_point).limit) }
        ensures bound { result ≤ 128 * 4294967295 }
    {
        self.points
            .iter()
            .filter_map(|p| p.limit)
            // A closure: of `u64::from` by its name, the bound of the sum does not know that it is passed a u32.
            .map(|l| u64::from(l))
            .sum()
    }

    // The sum of the uppers and limits.
    fn units(&self) -> u64
        ensures { result ≡ units_of (seen self.now) }
    {
        self.uppers() + self.limits()
    }

    fn uses(&self, f: Feature) -> bool
        ensures { result ≡ uses (seen self.now) f }
    {
        match f {
            Feature::LowerBounds => self
                .runs
                .iter()
                .any(|r| r.kind == Kind::Lead && r.lower > 0),
            Feature::Links => self.runs.iter().any(|r| r.kind == Kind::Link),
            Feature::Limits => self.points.iter().any(|p| p.limit.is_some()),
            Feature::Terminals => self.count(Mark::Rack) != 1 || self.count(Mark::Bar) != 1,
        }
    }

    // What the solver takes is asked first, since that needs no look at the drawing.
    fn lacks(&self, s: Statements, f: Feature) -> bool
        ensures { result ≡ lacks s (seen self.now) f }
    {
        !says_yes(s, f) && self.uses(f)
    }

    fn first_lacking(&self, s: Statements) -> Option<Feature>
        ensures { result ≡ find (lacks s (seen self.now)) features }
    {
        FEATURES.iter().copied().find(|f| self.lacks(s, *f))
    }

    fn is_within(&self, s: Statements) -> bool
        ensures { result ≡ is_within s (seen self.now) }
    {
        self.points.len() <= s.points && self.runs.len() <= s.runs && self.units() <= s.units
    }
}

// The sum of the uppers and limits; None where the drawing breaks a rule or has above 128 points or 1,024 runs.
pub fn units(d: &Drawing) -> Option<u64>
    ensures { result ≡ told_units (network d.now) }
{
    Some(Admitted::of(d)?.units())
}

// Whether a solver with these statements carries the drawing, or else its first refusal by rising number:
// 10 a broken drawing, 22 with the first feature that is used and not taken, 23 too large.
pub fn admit(s: Statements, d: &Drawing) -> Result<(), Refusal>
    ensures refuses { told result ≡ refusal s (network d.now) }
    ensures carries { Decides (is_ok result) (Carried s (network d.now)) }
{
    let admitted = Admitted::of(d).ok_or(Refusal::BrokenDrawing)?;
    if let Some(f) = admitted.first_lacking(s) {
        return Err(Refusal::Unsupported(f));
    }
    if !admitted.is_within(s) {
        return Err(Refusal::TooLarge);
    }
    Ok(())
}
