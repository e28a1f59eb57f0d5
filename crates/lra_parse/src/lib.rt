//! The tree of a list of tokens: functions, globals and whole sources.
//!
//! Each function computes a reader of `lra_parser_spec`, which has what the reader is and that it is exact.
#![tactic(auto)]

mod functions;
mod globals;
mod parser;

pub use lra_parser_spec::one_tree;
pub use parser::parse;
