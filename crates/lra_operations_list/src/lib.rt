//! What is done in a program's tree of operations, each with its point, whatever is asked of it then.
#![tactic(auto)]

mod tree_operations;
mod trees;

pub use lra_linearize::{
    apply_operator, form_of_expression, has_no_variable, less_by, multiple_of,
};
pub use lra_operations::{Node, Op};
pub use tree_operations::{OpRef, OpRefAtPoint};
pub use trees::list_operations;
