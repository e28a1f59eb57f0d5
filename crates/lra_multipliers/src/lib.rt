//! Whole multipliers that show an inequality over premises, and the check of them, which takes no memory.
//!
//! `specs/` is to be read in the order of `specs/Lib.antt`: rows over symbols, in which a path's premises and claims
//! are, what multipliers show, and the check column by column.
#![tactic(auto)]

mod columns;
mod laws;
mod multipliers;

pub use columns::{Answer, check};
pub use laws::multipliers_show;
pub use lra_domain::{Change, ConKind, ConSys, LinExpr};
pub use multipliers::Multipliers;
