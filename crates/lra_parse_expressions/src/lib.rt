//! Phrases of a source, read from its tokens: expressions, conditions, calls, assignments and declarations.
//!
//! Each function computes a reader of `lra_parser_spec`, which has what the reader is.
#![tactic(auto)]

mod assignments;
mod calls;
mod conditions;
mod expressions;

pub use assignments::{
    next_is_type, next_step, read_assign, read_assign_rest, read_declaration, read_length,
    read_type,
};
pub use calls::{read_call, read_rvalue};
pub use conditions::read_cond;
pub use expressions::read_expr;
