//! Canonical lists of constraints and of generators, as a pair with the same points.
#![tactic(auto)]

mod own;
mod pair;
mod valid;

pub use lra_cone::Loss;
pub use lra_descriptions::{constraint_list, dual_rows, echelon, generator_list, nothing};
pub use own::{Own, all_reduced, find_own_list};
pub use pair::{DescriptionPair, from_cone, from_generators, from_rows, universe, with_generators};
pub use valid::valid_list;
