//! What an analysis sees of the numbers that a program computes.

ghost use Rattle.std.specs.Prelude.{◌≡◌, IfOk};

use lra_domain::LinExpr;
use std::alloc::{AllocError, Global};

/// A linear form that a number above 0 divides.
pub struct Division {
    pub numerator: LinExpr,
    /// `-numerator - 1`, which is at least 0 if the numerator is below 0.
    pub opposite: LinExpr,
    pub divisor: i64,
}

impl Drop for Division {
    fn drop(self) {
        let Division {
            numerator: _,
            opposite: _,
            divisor: _,
        } = self;
    }
}

impl Division {
    /// A copy of the division.
    pub fn copy(&self, alloc: Global) -> Result<Self, AllocError>
        ensures { IfOk result (λ d. d ≡ self.now) }
    {
        let numerator = self.numerator.copy(alloc)?;
        let opposite = self.opposite.copy(alloc)?;
        Ok(Division {
            numerator,
            opposite,
            divisor: self.divisor,
        })
    }
}

/// What an analysis sees of a number.
pub enum Linearized {
    /// A linear form over the live variables.
    Linear(LinExpr),
    /// One over these and two more after them: the quotient of the division, then what it leaves.
    Divided(Division, LinExpr),
    /// Nothing: it may be any.
    Unseen,
}

impl Drop for Linearized {
    fn drop(self) {
        match self {
            Linearized::Linear(_) => {}
            Linearized::Divided(_, _) => {}
            Linearized::Unseen => {}
        }
    }
}
