//! Lines of scripts: bytes are cut into lines, and the words of a line are read as what it says.
#![tactic(auto)]

mod lines;
mod numbers;
mod pieces;
mod questions;
mod recipes;
mod rows;

pub use lines::{Line, read_line};
pub use lra_systems::{MembershipAnswer, Row};
pub use numbers::number_of;
pub use pieces::{is_skipped, raw_lines, without_return, words};
pub use questions::Question;
pub use recipes::{Combination, Mapping, Recipe};
pub use rows::{Constraint, Generator};
