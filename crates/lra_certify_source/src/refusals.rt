//! Why a source gets no certificate.

use lra_analyse_source::{Refusal, SourceError};
use lra_certify::{CertifyFailure, StrainedAt};
use std::alloc::AllocError;

/// Why a source is refused that is to be certified.
#[derive(Clone, Copy, Debug, PartialEq, Eq)]
pub enum CertifyRefusal {
    /// The source is refused.
    Source(Refusal),
    /// More than 1,024 paths lead from the source of this number to one point, or to where one assertion is false.
    Paths(usize),
    /// A form of this path passes, or its multipliers exceed a limit.
    Strained(StrainedAt),
}

/// Why there is no certificate.
#[derive(Clone, Copy, Debug, PartialEq, Eq)]
pub enum CertifyError {
    Refused(CertifyRefusal),
    Memory,
}

impl From<AllocError> for CertifyError {
    ghost use Rattle.std.specs.Prelude.{◌≡◌};
    ghost use Rattle.lra_certify_source.specs.declared.refusals.CertifyError.TheVariants.{Memory};

    ghost from_gives = { λ _ e. e ≡ Memory };

    fn from(_: AllocError) -> Self {
        CertifyError::Memory
    }
}

impl From<SourceError> for CertifyError {
    ghost use Rattle.std.specs.Prelude.{◌≡◌};
    ghost use Rattle.lra_certify_source.specs.Refusals.{source_error};

    ghost from_gives = { λ s e. e ≡ source_error s };

    fn from(error: SourceError) -> Self {
        match error {
            SourceError::Refused(refusal) => CertifyError::Refused(CertifyRefusal::Source(refusal)),
            SourceError::Memory => CertifyError::Memory,
        }
    }
}

impl From<CertifyFailure> for CertifyError {
    ghost use Rattle.std.specs.Prelude.{◌≡◌};
    ghost use Rattle.lra_certify_source.specs.Refusals.{error_by};

    ghost from_gives = { λ f e. e ≡ error_by f };

    fn from(failure: CertifyFailure) -> Self {
        match failure {
            CertifyFailure::TooMany(source) => CertifyError::Refused(CertifyRefusal::Paths(source)),
            CertifyFailure::Strained(at) => CertifyError::Refused(CertifyRefusal::Strained(at)),
            CertifyFailure::Memory => CertifyError::Memory,
        }
    }
}
