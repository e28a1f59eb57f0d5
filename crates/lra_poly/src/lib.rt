//! Closed polyhedra, each by its canonical constraints and its canonical generators, which have the same points.
#![tactic(auto)]

mod compared;
mod law;
mod outcome;
mod poly;

pub use law::{flagged_meets_go_on, polyhedra_have_one_spelling};
pub use lra_description_pair::Loss;
pub use lra_duality::{
    BitRow, Inclusion, LinExpr, Maximum, SatMatrix, Test, accepts, mark_saturated,
};
pub use outcome::Outcome;
pub use poly::Poly;
