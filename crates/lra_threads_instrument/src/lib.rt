//! A program's tree with what others do written into it, which is then passed under interference; and laws: what is
//! required of the tree before it is passed holds of the instrumented one.
#![tactic(auto)]

mod laws;
mod stack;
mod trees;

pub use laws::{
    instrument_keeps_dims, instrument_keeps_jumps, instrument_keeps_live, instrument_keeps_numbers,
    instrument_keeps_ops, instrument_keeps_points,
};
pub use lra_fixpoint::{NotedSolution, Plan, Solution, analyse, analyse_with};
pub use lra_operations::InlinedProgram;
pub use lra_program::GlobalVariable;
pub use trees::{instrument_program, instrument_tree};
