//! Images and preimages of polyhedra, coordinates that are forgotten, changes of their dimensions, and time-elapse.
#![tactic(auto)]

mod images;
mod maps;
mod moved;

pub use images::{forget, image, preimage};
pub use lra_poly::LinExpr;
pub use maps::{embed, remove_last, time_elapse};
