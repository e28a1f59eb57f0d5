//! The standard and the limited widening of closed polyhedra, also by the tightest of the thresholds alone, and the
//! rank that falls with each.
#![tactic(auto)]

mod error;
mod lists;
mod ranking;
mod saturation;
mod tightest;
mod validity;
mod widening;

pub use error::WidenError;
pub use lists::held_on_both;
pub use lra_poly::{Inclusion, Maximum, Outcome, Poly};
pub use ranking::rank;
pub use tightest::limited_by_tightest;
pub use widening::{limited, standard};
