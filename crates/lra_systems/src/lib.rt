//! Lists of constraints and of generators.
#![tactic(auto)]

mod compared;
mod membership;
mod sameness;
mod system;
mod units;

pub use lra_linear_spec::{Cause, ConKind, Excess, GenKind};
pub use lra_row::{Row, RowError, gcd, opposite};
pub use membership::MembershipAnswer;
pub use sameness::are_same;
pub use system::{ConSys, GenSys, TOO_MANY_DIMENSIONS};
pub use units::unit;
