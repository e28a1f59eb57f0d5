//! Why a row was not made.

ghost use Rattle.std.specs.Prelude.{◌≡◌};

use lra_linear_spec::Excess;
use std::alloc::{AllocError, AllocFailed};
use thiserror::Error;

/// Why a row was not made: a number passed the range, or there was no memory.
#[derive(Clone, Copy, Debug, PartialEq, Eq, Error)]
pub enum RowError {
    #[error("a number passes the range")]
    Excess(Excess),
    #[error("out of memory")]
    Memory,
}

impl From<Excess> for RowError {
    ghost use Rattle.lra_row.specs.declared.error.RowError.TheVariants as of_row;

    ghost from_gives = { λ excess error. error ≡ of_row.Excess excess };

    fn from(excess: Excess) -> RowError {
        RowError::Excess(excess)
    }
}

impl From<AllocError> for RowError {
    ghost use Rattle.lra_row.specs.declared.error.RowError.TheVariants as of_row;

    ghost from_gives = { λ _ error. error ≡ of_row.Memory };

    fn from(_failed: AllocError) -> RowError {
        RowError::Memory
    }
}

impl<T: Drop> From<AllocFailed<T>> for RowError {
    ghost use Rattle.lra_row.specs.declared.error.RowError.TheVariants as of_row;

    ghost from_gives = { λ _ error. error ≡ of_row.Memory };

    fn from(_failed: AllocFailed<T>) -> RowError {
        RowError::Memory
    }
}
