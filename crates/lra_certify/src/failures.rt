//! Why nothing is written.

ghost use Rattle.std.specs.Prelude.{◌≡◌};
ghost use Rattle.lra_certify.specs.Failures.{failed_at};

use std::alloc::AllocError;

/// Why the lines of a path aren't written.
#[derive(Clone, Copy, Debug, PartialEq, Eq)]
pub enum PathFailure {
    /// A form of the path passes, or the conversion for multipliers exceeds a limit.
    Strained,
    Memory,
}

impl From<AllocError> for PathFailure {
    ghost use Rattle.std.specs.Prelude.{◌≡◌};
    ghost use Rattle.lra_certify.specs.declared.failures.PathFailure.TheVariants.{Memory};

    ghost from_gives = { λ _ e. e ≡ Memory };

    fn from(_: AllocError) -> Self {
        PathFailure::Memory
    }
}

/// Which path exceeds a limit: one from a source to a point, or one to where the assertion at a point is false. Points
/// are numbered from 0 here; the source 0 is the start, and points are the sources from 1 on.
#[derive(Clone, Copy, Debug, PartialEq, Eq)]
pub enum StrainedAt {
    Edge(usize, usize),
    Assertion(usize),
}

/// Why a program gets no certificate.
#[derive(Clone, Copy, Debug, PartialEq, Eq)]
pub enum CertifyFailure {
    /// More than 1,024 paths lead from the source of this number to one goal.
    TooMany(usize),
    Strained(StrainedAt),
    Memory,
}

impl CertifyFailure {
    /// Of the program with this path.
    pub fn at(failure: PathFailure, place: StrainedAt) -> CertifyFailure
        ensures { result ≡ failed_at place failure }
    {
        match failure {
            PathFailure::Strained => CertifyFailure::Strained(place),
            PathFailure::Memory => CertifyFailure::Memory,
        }
    }
}

impl From<AllocError> for CertifyFailure {
    ghost use Rattle.std.specs.Prelude.{◌≡◌};
    ghost use Rattle.lra_certify.specs.declared.failures.CertifyFailure.TheVariants.{Memory};

    ghost from_gives = { λ _ e. e ≡ Memory };

    fn from(_: AllocError) -> Self {
        CertifyFailure::Memory
    }
}
