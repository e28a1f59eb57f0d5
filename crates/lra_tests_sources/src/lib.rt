//! Tests of what reads sources: each public call that allocates, and values from outside.
//!
//! They stand apart from what they try, since a crate that has tests in it is proved twice.
#![tactic(auto)]

#[cfg(test)]
mod calls;
#[cfg(test)]
mod copies;
#[cfg(test)]
mod lex;
#[cfg(test)]
mod names;
#[cfg(test)]
mod words;
