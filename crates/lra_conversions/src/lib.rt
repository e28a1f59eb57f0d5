//! Lists of constraints converted to generators, and of generators to constraints, with their losses.
#![tactic(auto)]

mod conversions;

pub use conversions::{constrain, generate};
pub use lra_descriptions::{GenSys, nothing};
