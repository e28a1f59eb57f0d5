//! Going back from an assertion of a program: at each point the stores from which a run may still come to where it is
//! false.
#![tactic(auto)]

mod analysis;
mod changes;
mod heads;
mod meets;
mod paths;
mod rounds;
mod seeds;
mod tasks;

pub use analysis::{BackFailure, BackwardAnalysis, back};
pub use lra_domain::Backward;
