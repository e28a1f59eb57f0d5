//! Lists that describe sets of points: as they are shown of a cone, and as they are merged into one.
#![tactic(auto)]

mod known;
mod lists;
mod shown;

pub use known::{KnownConstraints, KnownGenerators, known_constraints, known_generators};
pub use lists::{dual_rows, has_point, nothing, valid_rows};
pub use lra_canonical::{BitRow, SatMatrix, drop_redundant, echelon, reduce};
pub use lra_systems::{
    GenSys, MembershipAnswer, Row, RowError, TOO_MANY_DIMENSIONS, are_same, unit,
};
pub use shown::{constraint_list, generator_list};
