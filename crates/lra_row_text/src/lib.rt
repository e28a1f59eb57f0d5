//! Texts of rows, of generators and of their lists, over names of variables.
#![tactic(auto)]

mod generator;
mod lines;
mod names;
mod row;
mod whole;

pub use generator::{generator_text, push_fraction};
pub use lines::{push_generators, push_rows};
pub use lra_systems::{ConKind, ConSys, GenKind, GenSys};
pub use names::Names;
pub use row::row_text;
pub use whole::{generators_text, system_text, value_text};
