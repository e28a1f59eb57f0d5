//! A program with its calls written out: trees of operations and their runs, and which tree stands for which program.
//!
//! Most of the crate is definitions: `specs/` is to be read from top to bottom, in the order of `specs/Lib.antt`.
#![tactic(auto)]

mod arms;
pub mod forms;
mod probes;
mod tree;

pub use arms::any_default;
pub use lra_program::{
    CaseLabel, Cell, Cond, Expr, GlobalVariable, Operation, Program, Slot, SourceError,
};
pub use probes::Probe;
pub use tree::{Arm, ArmParts, Exit, InlinedProgram, Node, Op, Parts, Path, Site};
