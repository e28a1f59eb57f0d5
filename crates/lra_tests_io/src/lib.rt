//! Tests of the outside and of the words of a command: each public call that allocates, and values from outside.
//!
//! They stand apart from what they try, since a crate that has tests in it is proved twice.
#![tactic(auto)]

#[cfg(test)]
mod edge;
#[cfg(test)]
mod words;
