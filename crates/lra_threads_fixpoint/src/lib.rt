//! The rounds in which threads that run beside each other are analysed, and what they tell each other meanwhile.
#![tactic(auto)]

mod growth;
mod intervals;
mod law;
mod rounds;
mod rows;
mod tables;

pub use growth::Growth;
pub use intervals::Intervals;
pub use law::one_by_one_is_at_once;
pub use lra_box::{Boxes, Interval};
pub use rounds::{FixpointRound, Threads, find_fixpoint};
