//! The refusal of a source.

ghost use Rattle.std.specs.Prelude.{◌≡◌, Result, Err};
ghost use Rattle.lra_base.specs.declared.error.SourceError.TheVariants.{Refused};

use lra_base::{Cause, Place, Refusal, SourceError};

/// The refusal of a source.
pub fn refuse<T>(cause: Cause, place: Place) -> Result<T, SourceError>
    ensures { result ≡ Err (Refused (record { cause = cause; place = place })) }
{
    Err(SourceError::Refused(Refusal { cause, place }))
}
