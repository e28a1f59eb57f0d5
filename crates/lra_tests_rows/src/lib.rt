//! Tests of exact rows, packed truth values, linear forms and lists: each public call that allocates, and values from
//! outside.
//!
//! They stand apart from what they try, since a crate that has tests in it is proved twice.
#![tactic(auto)]

#[cfg(test)]
mod bits;
#[cfg(test)]
mod lin;
#[cfg(test)]
mod narrow;
#[cfg(test)]
mod row;
#[cfg(test)]
mod sys;
#[cfg(test)]
mod words;
