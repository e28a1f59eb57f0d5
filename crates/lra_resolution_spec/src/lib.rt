//! What a source means: scopes, faults of names, the resolved program, and which sources are refused; and the table of
//! a source's labels.
//!
//! The crate is definitions but for the table: `specs/` is to be read from top to bottom, in the order of
//! `specs/Lib.antt`.
#![tactic(auto)]

mod labels;

pub use labels::{Label, Labels};
pub use lra_syntax::TranslationUnit;
