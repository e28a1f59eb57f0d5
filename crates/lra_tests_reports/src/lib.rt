//! Tests of what writes reports: each public call that allocates, and values from outside.
//!
//! They stand apart from what they try, since a crate that has tests in it is proved twice.
#![tactic(auto)]

#[cfg(test)]
mod accesses;
#[cfg(test)]
mod json_reports;
#[cfg(test)]
mod report;
#[cfg(test)]
mod sample;
#[cfg(test)]
mod show;
