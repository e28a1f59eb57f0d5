//! Tests of whole scripts and whole runs: each public call that allocates, and values
//! from outside.
//!
//! They stand apart from what they try, since a crate that has tests in it is proved twice. `memory` runs over memory,
//! here and for the tests of strains.
#![tactic(auto)]

#[cfg(test)]
mod answers;
#[cfg(test)]
mod arrays;
#[cfg(test)]
mod back;
#[cfg(test)]
mod boxes;
#[cfg(test)]
mod certificates;
#[cfg(test)]
mod certified;
#[cfg(test)]
mod checks;
#[cfg(test)]
mod divisions;
#[cfg(test)]
mod fits;
pub mod memory;
#[cfg(test)]
mod parts;
#[cfg(test)]
mod polyhedra;
#[cfg(test)]
mod refusals;
#[cfg(test)]
mod samples;
#[cfg(test)]
mod scripts;
#[cfg(test)]
mod switches;
#[cfg(test)]
mod threads;
#[cfg(test)]
mod thresholds;
#[cfg(test)]
mod types;

pub use lra_commands::Status;
