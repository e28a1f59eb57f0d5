//! Canonical rows: echelon forms, reductions by them, inequalities without redundant ones, and the orders in which
//! rows are shown.
#![tactic(auto)]

mod forms;
mod order;
mod reduction;
mod redundancy;

pub use forms::echelon;
pub use lra_bits::{BitRow, SatMatrix};
pub use order::{Marked, Order, canonical_order, order_marked};
pub use reduction::reduce;
pub use redundancy::{drop_redundant, remove_marked};
