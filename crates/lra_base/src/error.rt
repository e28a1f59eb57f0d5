//! Why a source has no answer.

ghost use Rattle.std.specs.Prelude.{◌≡◌};
ghost use Rattle.lra_base.specs.declared.error.SourceError.TheVariants.{Memory};

use crate::refusals::Refusal;
use std::alloc::{AllocError, AllocFailed};

/// Why a source has no tokens, no tree, no program or no report.
#[derive(Clone, Copy, PartialEq, Eq, Debug)]
pub enum SourceError {
    /// The source is refused, for its first fault.
    Refused(Refusal),
    /// Memory ran out.
    Memory,
}

impl From<AllocError> for SourceError {
    ghost from_gives = { λ _ e. e ≡ Memory };

    fn from(_: AllocError) -> Self {
        SourceError::Memory
    }
}

impl<T: Drop> From<AllocFailed<T>> for SourceError {
    ghost from_gives = { λ _ e. e ≡ Memory };

    fn from(_: AllocFailed<T>) -> Self {
        SourceError::Memory
    }
}
