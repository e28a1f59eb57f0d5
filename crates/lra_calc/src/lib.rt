//! Scripts about sets of rational points: polyhedra are made and named, shown, and points are tried.
#![tactic(auto)]

mod answering;
mod calculator;
mod making;
mod refusal;
mod session;
mod showing;
mod widening;

pub use calculator::script;
pub use refusal::{CalcError, CalcRefusal, Fault};
