//! Why an input isn't a certificate that meets its program.

ghost use Rattle.std.specs.Prelude.{◌≡◌};
ghost use Rattle.lra_certificate_spec.specs.Judged.{fault_name};
ghost use Rattle.lra_certificate_lines.specs.Views.{fault_view};

use lra_certificate_spec::Refusal;
use std::alloc::{AllocError, AllocFailed};

/// Why a line is refused.
#[derive(Clone, Copy, Debug, PartialEq, Eq)]
pub enum LineFault {
    /// The input has more bytes than are accepted.
    TooLong,
    /// The line hasn't the form that stands there.
    BadLine,
    /// A product or a partial sum passes the range.
    Wide,
    /// The line doesn't show its claim.
    NotRow,
}

impl LineFault {
    /// The fault's name, as it is printed.
    pub fn name(self) -> &'static str
        ensures { result.now ≡ fault_name (fault_view self) }
    {
        match self {
            LineFault::TooLong => "TooLong",
            LineFault::BadLine => "BadLine",
            LineFault::Wide => "Wide",
            LineFault::NotRow => "NotRow",
        }
    }
}

/// Why an input is refused.
#[derive(Clone, Copy, Debug, PartialEq, Eq)]
pub enum VerifyRefusal {
    /// The source in the certificate is refused.
    Source(Refusal),
    /// Too many paths lead from the source of this number to one point, or to where one assertion is false.
    Paths(u32),
    /// The line of this number after the source is refused.
    Line(u32, LineFault),
}

/// Why there is no answer that something is verified.
#[derive(Clone, Copy, Debug, PartialEq, Eq)]
pub enum VerifyError {
    Refused(VerifyRefusal),
    Memory,
}

impl From<AllocError> for VerifyError {
    ghost use Rattle.std.specs.Prelude.{◌≡◌};
    ghost use Rattle.lra_certificate_lines.specs.declared.refusals.VerifyError.TheVariants.{Memory};

    ghost from_gives = { λ _ e. e ≡ Memory };

    fn from(_: AllocError) -> Self {
        VerifyError::Memory
    }
}

impl<T: Drop> From<AllocFailed<T>> for VerifyError {
    ghost use Rattle.std.specs.Prelude.{◌≡◌};
    ghost use Rattle.lra_certificate_lines.specs.declared.refusals.VerifyError.TheVariants.{Memory};

    ghost from_gives = { λ _ e. e ≡ Memory };

    fn from(_failed: AllocFailed<T>) -> Self {
        VerifyError::Memory
    }
}
