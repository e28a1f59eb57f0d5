//! Exact whole numbers of 128 bits, and rows of them.
//!
//! The range is -(2^127 - 1) to 2^127 - 1. Each answer is the whole number itself, or it names the first product or
//! partial sum that passes the range.
#![tactic(auto)]

mod compared;
mod entries;
mod error;
mod number;
mod row;

pub use error::RowError;
pub use lra_linear_spec::{Cause, ConKind, Excess, GenKind, Operation};
pub use number::{add, floor_div, gcd, mul, opposite, ratio_cmp};
pub use row::{Row, push_copies};
