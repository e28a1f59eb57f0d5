//! Why a widening was not made.

ghost use Rattle.std.specs.Prelude.{◌≡◌};

use std::alloc::{AllocError, AllocFailed};
use thiserror::Error;

/// Why a widening was not made: the first polyhedron isn't in the second, and this is the place, from 0, of its first
/// generator outside; or there was no memory.
#[derive(Clone, Copy, Debug, PartialEq, Eq, Error)]
pub enum WidenError {
    #[error("a generator is outside")]
    NotIncluded(usize),
    #[error("out of memory")]
    Memory,
}

impl From<AllocError> for WidenError {
    ghost use Rattle.lra_poly_widening.specs.declared.error.WidenError.TheVariants as of_widen;

    ghost from_gives = { λ _ error. error ≡ of_widen.Memory };

    fn from(_failed: AllocError) -> WidenError {
        WidenError::Memory
    }
}

impl<T: Drop> From<AllocFailed<T>> for WidenError {
    ghost use Rattle.lra_poly_widening.specs.declared.error.WidenError.TheVariants as of_widen;

    ghost from_gives = { λ _ error. error ≡ of_widen.Memory };

    fn from(_failed: AllocFailed<T>) -> WidenError {
        WidenError::Memory
    }
}
