//! Laws: what a pass under interference has of the runs of a program's tree, and that the tree gives to variables what
//! the program's runs give to them.
//!
//! `specs/` says what others may do to a run's state, and what the values of a pass must guarantee to the runs.
#![tactic(auto)]

mod laws;

pub use laws::{passes_cover_under, writes_agree};
pub use lra_analysis_spec::{Domain, Interfere, NoInterference};
