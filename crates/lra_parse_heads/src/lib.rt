//! What a statement begins with: heads up to a branch or to braces, jumps, and labels.
//!
//! Each function computes a reader of `lra_parser_spec`, which has what the reader is and that it is exact.
#![tactic(auto)]

mod heads;
mod labels;
mod loops;

pub use heads::{
    Begun, Head, Switched, add_branch, add_cases, begin_for, begin_if, begin_switch, begin_while,
    begin_whole, read_parens,
};
pub use labels::{begins_label, read_label, read_labels, read_signed};
pub use loops::{ForHead, begins_jump, begins_loop, read_break, read_continue, read_return};
