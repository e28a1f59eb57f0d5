//! Why a source isn't gone back over.

use lra_analyse_source::{Refusal, SourceError};
use lra_back_sound::BackFailure;
use std::alloc::AllocError;

/// Why a source is refused that is to be gone back over from an assertion.
#[derive(Clone, Copy, Debug, PartialEq, Eq)]
pub enum BackRefusal {
    /// The source is refused.
    Source(Refusal),
    /// No assertion has the number.
    NoAssertion,
    /// More than 1,024 paths lead from the source of this number to one point, or to where one assertion is false.
    Paths(usize),
}

/// Why there is no report.
#[derive(Clone, Copy, Debug, PartialEq, Eq)]
pub enum BackError {
    Refused(BackRefusal),
    Memory,
}

impl From<AllocError> for BackError {
    ghost use Rattle.std.specs.Prelude.{◌≡◌};
    ghost use Rattle.lra_back_source.specs.declared.refusals.BackError.TheVariants.{Memory};

    ghost from_gives = { λ _ e. e ≡ Memory };

    fn from(_: AllocError) -> Self {
        BackError::Memory
    }
}

impl From<SourceError> for BackError {
    ghost use Rattle.std.specs.Prelude.{◌≡◌};
    ghost use Rattle.lra_back_source.specs.Refusals.{source_error};

    ghost from_gives = { λ s e. e ≡ source_error s };

    fn from(error: SourceError) -> Self {
        match error {
            SourceError::Refused(refusal) => BackError::Refused(BackRefusal::Source(refusal)),
            SourceError::Memory => BackError::Memory,
        }
    }
}

impl From<BackFailure> for BackError {
    ghost use Rattle.std.specs.Prelude.{◌≡◌};
    ghost use Rattle.lra_back_source.specs.Refusals.{error_by};

    ghost from_gives = { λ f e. e ≡ error_by f };

    fn from(failure: BackFailure) -> Self {
        match failure {
            BackFailure::NoAssertion => BackError::Refused(BackRefusal::NoAssertion),
            BackFailure::TooMany(source) => BackError::Refused(BackRefusal::Paths(source)),
            BackFailure::Memory => BackError::Memory,
        }
    }
}
