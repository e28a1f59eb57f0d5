//! Recursion: the first call of a source, in text order, whose callee reaches the function that holds it.
#![tactic(auto)]

mod calls;
mod recursion;
mod rows;
mod search;

pub use lra_scopes::{Labels, Program, TranslationUnit};
pub use recursion::first_recursive;
