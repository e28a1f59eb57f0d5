//! What a program whose names are resolved is and does: values, small steps, runs and points.
//!
//! Most of the crate is definitions: `specs/` is to be read from top to bottom, in the order of `specs/Lib.antt`.
#![tactic(auto)]

mod arrays;
mod program;
mod receivers;

pub use arrays::Array;
pub use lra_base::{
    CaseLabel, Comparison, GREATEST_LIVE, NumberType, Operator, Place, SourceError,
};
pub use program::{
    Argument, BlockItem, BlockItems, Call, CaseItem, Cond, Declarator, Element, Expr, Function,
    GlobalVariable, Operation, Program, Rvalue, Slot, Stmt, Variable, pair_arguments,
};
pub use receivers::{Cell, ConversionChain, Receiver, Target};
