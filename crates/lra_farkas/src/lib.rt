//! The first whole multipliers that show an inequality over premises, of the polyhedron of all that do.
//!
//! `specs/` is to be read in the order of `specs/Lib.antt`: the polyhedron and its laws, the first of its points and
//! why there is none, its rows by the kinds of the premises, and rows in other orders.
#![tactic(auto)]

mod first;
mod laws;
mod orders;
mod rows;

pub use first::{MultipliersFailure, multipliers};
pub use laws::{multipliers_are_points, what_holds_is_shown};
pub use lra_systems::{ConKind, ConSys, Row, RowError};
