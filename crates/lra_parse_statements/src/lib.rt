//! Statements and blocks of a list of tokens.
//!
//! Each function computes a reader of `lra_parser_spec`, which has what the reader is and that it is exact.
#![tactic(auto)]

mod simple;
mod statements;

pub use lra_parse_expressions::{read_length, read_type};
pub use lra_parse_heads::read_signed;
pub use statements::read_body;
