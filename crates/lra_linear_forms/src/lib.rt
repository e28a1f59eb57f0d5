//! Linear forms over the dimensions of a store, and tests of them.
#![tactic(auto)]

pub mod form;
pub mod test;

pub use form::LinExpr;
pub use lra_row::{add, mul};
pub use test::Test;
