//! What is judged of a program at its points.

ghost use Rattle.std.specs.Prelude.{◌≡◌};
ghost use Rattle.lra_report.specs.VerdictKinds.{row_of, outcome_text};

use lra_options::Options;

/// What is judged at a point. A verdict says that it holds in every run, or that this isn't known.
#[derive(Clone, Copy, PartialEq, Eq, Debug)]
pub enum VerdictKind {
    /// An assertion.
    Assertion,
    /// Whether all fits its type that is computed at the point.
    Fit,
    /// An access of an array.
    Access,
}

/// All kinds.
pub const VERDICT_KINDS: [VerdictKind; 3] = [
    VerdictKind::Assertion,
    VerdictKind::Fit,
    VerdictKind::Access,
];

impl VerdictKind {
    /// The word with which its lines begin.
    pub fn word(self) -> &'static str
        ensures { result.now ≡ (row_of self).word }
    {
        match self {
            VerdictKind::Assertion => "assert",
            VerdictKind::Fit => "fit",
            VerdictKind::Access => "access",
        }
    }

    /// What is reported about it if it holds, and if that isn't known.
    pub fn outcome(self, holds: bool) -> &'static str
        ensures { result.now ≡ outcome_text self holds }
    {
        match (self, holds) {
            (VerdictKind::Assertion, true) => "proved",
            (VerdictKind::Assertion, false) => "unknown",
            (VerdictKind::Fit, true) => "fits",
            (VerdictKind::Fit, false) => "may overflow",
            (VerdictKind::Access, true) => "in bounds",
            (VerdictKind::Access, false) => "unknown",
        }
    }

    /// Whether its verdicts are those of a report's last line and status.
    pub fn counts(self) -> bool
        ensures { result ≡ (row_of self).counts }
    {
        match self {
            VerdictKind::Assertion => true,
            VerdictKind::Fit => false,
            VerdictKind::Access => true,
        }
    }

    /// Whether it has a place of its own, not its point's, which JSON reports.
    pub fn has_own_place(self) -> bool
        ensures { result ≡ (row_of self).own_place }
    {
        match self {
            VerdictKind::Assertion => false,
            VerdictKind::Fit => false,
            VerdictKind::Access => true,
        }
    }

    /// Under which key its verdicts stand in JSON.
    pub fn key(self) -> &'static str
        ensures { result.now ≡ (row_of self).key }
    {
        match self {
            VerdictKind::Assertion => "asserts",
            VerdictKind::Fit => "fits",
            VerdictKind::Access => "accesses",
        }
    }

    /// Whether that key stands, under these options and when a verdict is reported under it or none is.
    pub fn stands(self, options: Options, is_listed: bool) -> bool
        ensures { result ≡ (row_of self).stands options is_listed }
    {
        match (self, options, is_listed) {
            (VerdictKind::Assertion, _, _) => true,
            (VerdictKind::Fit, options, is_listed) => is_listed || options.fits,
            (VerdictKind::Access, _, is_listed) => is_listed,
        }
    }
}
