//! What is asked of the operations of a program's tree, each answered by the value at its point, for any domain; and
//! which operations can't stop a run by a number.
#![tactic(auto)]

mod answers;
mod computes;
mod conditions;
mod expressions;
mod judgements;
mod operations;
mod questions;

pub use conditions::{Leaf, Surroundings, judge_condition};
pub use judgements::{OverflowVerdicts, judge};
pub use lra_operations::{Node, Op};
pub use lra_operations_list::{OpRef, form_of_expression, less_by, list_operations};
pub use lra_transfer::test_of;
pub use questions::{Found, Question, Verdict, find};
