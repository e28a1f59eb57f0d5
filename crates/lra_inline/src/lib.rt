//! The graph of a program: its calls written out as a tree of operations.
//!
//! The writing goes along a list of open places; `lra_inline_steps` has them, and the first step into each statement.
//!
//! The definitions stand in `lra_program` and `lra_operations`: the runs of a program, trees of operations with their
//! runs, and which tree stands for which program. That the two agree is proved in `lra_inline_sound`.
#![tactic(auto)]

mod inlining;
mod refused;

pub use inlining::{build, build_thread};
pub use lra_inline_steps::{InlineError, Limit};
pub use lra_operations::{InlinedProgram, Site};
pub use refused::refusal;
