//! The accesses of arrays that an operation evaluates, in their order, with the tests that an index is outside its
//! array; and which accesses lie inside their arrays, as the values at the points of a program's tree report it, for
//! any domain.
#![tactic(auto)]

mod access_checks;
mod bounds;
mod judgements;
mod listing;

pub use bounds::outside;
pub use judgements::{BoundsVerdicts, judge_accesses};
pub use listing::{Access, accesses, push_accesses};
pub use lra_domain::ConKind;
pub use lra_operations::Node;
pub use lra_overflow_checks::{OverflowVerdicts, judge, list_operations};
