//! Why a cone doesn't take a row in.

ghost use Rattle.std.specs.Prelude.{◌≡◌};
ghost use Rattle.lra_double_description.specs.Strains.{cause_of};

use lra_row::{Cause, Excess};
use std::alloc::{AllocError, AllocFailed};
use thiserror::Error;

/// In which list of a cone a row stands.
#[derive(Clone, Copy, Debug, PartialEq, Eq)]
pub enum Family {
    Lines,
    Rays,
}

/// A row of a cone, by its place in its list.
#[derive(Clone, Copy, Debug, PartialEq, Eq)]
pub struct Member {
    pub family: Family,
    pub place: usize,
}

/// What passes a limit as a row is added.
#[derive(Clone, Copy, Debug, PartialEq, Eq, Error)]
pub enum Strained {
    /// The product of the row with this one passes the range.
    #[error("a product with a row of the cone passes the range")]
    Product(Member, Excess),
    /// What the row and these two combine to passes: the product with the first is above 0, that with the second below.
    /// A line is taken in the direction in which that is so.
    #[error("a combination of two rows of the cone passes the range")]
    Pair(Member, Member, Excess),
    /// There would be so many rays.
    #[error("the cone would have {0} rays")]
    TooMany(usize),
}

impl Strained {
    /// The cause, without the places of rows.
    pub fn cause(self) -> Cause
        ensures { result ≡ cause_of self }
    {
        match self {
            Strained::Product(_, excess) => Cause::Excess(excess),
            Strained::Pair(_, _, excess) => Cause::Excess(excess),
            Strained::TooMany(count) => Cause::TooMany(count),
        }
    }
}

/// Why a row was not added: something passes a limit, or there was no memory.
#[derive(Clone, Copy, Debug, PartialEq, Eq, Error)]
pub enum ConeError {
    #[error("the cone strains")]
    Strained(Strained),
    #[error("out of memory")]
    Memory,
}

impl From<Strained> for ConeError {
    ghost use Rattle.lra_double_description.specs.declared.strained.ConeError.TheVariants as of_cone;

    ghost from_gives = { λ strained error. error ≡ of_cone.Strained strained };

    fn from(strained: Strained) -> ConeError {
        ConeError::Strained(strained)
    }
}

impl From<AllocError> for ConeError {
    ghost use Rattle.lra_double_description.specs.declared.strained.ConeError.TheVariants as of_cone;

    ghost from_gives = { λ _ error. error ≡ of_cone.Memory };

    fn from(_failed: AllocError) -> ConeError {
        ConeError::Memory
    }
}

impl<T: Drop> From<AllocFailed<T>> for ConeError {
    ghost use Rattle.lra_double_description.specs.declared.strained.ConeError.TheVariants as of_cone;

    ghost from_gives = { λ _ error. error ≡ of_cone.Memory };

    fn from(_failed: AllocFailed<T>) -> ConeError {
        ConeError::Memory
    }
}
