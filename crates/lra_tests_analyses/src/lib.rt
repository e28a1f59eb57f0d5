//! Tests of analyses of small trees, of what is judged by their values, and of a tree with what others do.
//!
//! They stand apart from what they try, since a crate that has tests in it is proved twice.
#![tactic(auto)]

#[cfg(test)]
mod accessing;
#[cfg(test)]
mod branches;
#[cfg(test)]
mod fitting;
#[cfg(test)]
mod instrument;
#[cfg(test)]
mod steps;
