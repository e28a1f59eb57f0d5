//! What a report has.

ghost use Rattle.std.specs.Prelude.{◌≡◌, count_by};
ghost use Rattle.lra_report.specs.{ReportText.is_proved, ReportText.is_unknown, View.verdict_of};

use crate::part::Part;
use crate::verdict_kinds::VerdictKind;
use lra_base::Place;
use lra_options::Options;
use lra_row_text::Names;

/// A point of the program: its statement's label, and the labels of the calls that lead to it, the innermost first.
pub struct Point {
    pub path: Vec<usize>,
    pub label: usize,
}

impl Drop for Point {
    fn drop(self) {
        let Point { path: _, label: _ } = self;
    }
}

/// A point with its number, its path and place as they are printed, the printed names of its variables, and its state:
/// one of the parts holds, and no part says that no run comes here.
pub struct PointReport {
    pub number: u32,
    pub point: Point,
    pub path: String,
    pub place: Place,
    pub names: Names,
    pub state: Vec<Part>,
}

impl Drop for PointReport {
    fn drop(self) {
        let PointReport {
            number: _,
            point: _,
            path: _,
            place: _,
            names: _,
            state: _,
        } = self;
    }
}

/// What is judged, at which point, which of its kind there, counted from 0 in the order of evaluation, if that is
/// printed, and whether no run breaks it.
pub struct Verdict {
    pub kind: VerdictKind,
    pub number: u32,
    pub point: Point,
    pub which: usize,
    pub path: String,
    pub place: Place,
    pub holds: bool,
}

impl Drop for Verdict {
    fn drop(self) {
        let Verdict {
            kind: _,
            number: _,
            point: _,
            which: _,
            path: _,
            place: _,
            holds: _,
        } = self;
    }
}

impl Verdict {
    /// Whether it counts as proved.
    fn is_proved(&self) -> bool
        ensures { result ≡ is_proved (verdict_of self.now) }
    {
        self.kind.counts() && self.holds
    }

    /// Whether it counts as unknown.
    fn is_unknown(&self) -> bool
        ensures { result ≡ is_unknown (verdict_of self.now) }
    {
        self.kind.counts() && !self.holds
    }
}

/// A report, under which options it was made. `flagged` is the number of the point to which the first flagged operation
/// belongs.
pub struct Report {
    pub options: Options,
    pub flagged: Option<u32>,
    pub points: Vec<PointReport>,
    pub verdicts: Vec<Verdict>,
}

impl Drop for Report {
    fn drop(self) {
        let Report {
            options: _,
            flagged: _,
            points: _,
            verdicts: _,
        } = self;
    }
}

/// How many of the verdicts count, and hold.
pub fn count_proved(verdicts: &[Verdict]) -> usize
    ensures { result ≡ count_by (λ v. is_proved (verdict_of v)) verdicts.now }
{
    verdicts.iter().filter(|v| v.is_proved()).count()
}

/// How many of the verdicts count, and are unknown.
pub fn count_unknown(verdicts: &[Verdict]) -> usize
    ensures { result ≡ count_by (λ v. is_unknown (verdict_of v)) verdicts.now }
{
    verdicts.iter().filter(|v| v.is_unknown()).count()
}

impl Report {
    /// How many verdicts that count hold.
    pub fn proved_count(&self) -> usize
        ensures { result ≡ count_by (λ v. is_proved (verdict_of v)) self.now.verdicts.items }
    {
        count_proved(&self.verdicts)
    }

    /// How many that count are unknown.
    pub fn unknown_count(&self) -> usize
        ensures { result ≡ count_by (λ v. is_unknown (verdict_of v)) self.now.verdicts.items }
    {
        count_unknown(&self.verdicts)
    }
}
