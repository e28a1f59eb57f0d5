//! Tests of programs with their calls written out, of their listing and of their paths: each public call that
//! allocates, and values from outside.
//!
//! They stand apart from what they try, since a crate that has tests in it is proved twice.
#![tactic(auto)]

#[cfg(test)]
mod between;
#[cfg(test)]
mod graphs;
#[cfg(test)]
mod listings;
#[cfg(test)]
mod paths;
#[cfg(test)]
mod sources;
