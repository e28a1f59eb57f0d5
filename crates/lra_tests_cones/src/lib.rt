//! Tests of canonical forms and cones: each public call that allocates, and values from outside.
//!
//! They stand apart from what they try, since a crate that has tests in it is proved twice.
#![tactic(auto)]

#[cfg(test)]
mod canon;
#[cfg(test)]
mod cone;
#[cfg(test)]
mod cone_lists;
#[cfg(test)]
mod steps;
