//! Values of an iteration that are inductive along paths: whatever a path leads to, from a point of its source's value,
//! is a point of its target's value, and no path leads to where a proved assertion is false.
//!
//! `specs/` is to be read in the order of `specs/Lib.antt`: points of values and heads, values that are closed, and two
//! kinds of points. Laws alone: what answers by them stands above.
#![tactic(auto)]

mod laws;

pub use laws::{polyhedra_are_inductive, stores_are_inductive};
