//! The iteration over a program's tree of operations, for any domain.
#![tactic(auto)]

mod catches;
mod loops;
mod pass;
mod probes;
mod solution;
mod tables;

pub use lra_interference_sound::Domain;
pub use lra_pass_results::Plan;
pub use solution::{NotedSolution, Solution, analyse, analyse_with};
pub use tables::Note;
