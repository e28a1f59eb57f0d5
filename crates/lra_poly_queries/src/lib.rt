//! Questions about closed polyhedra; dimensions moved, folded and doubled; constraints rounded to whole points, and
//! without those that a context gives; least boxes, and polyhedra of any value's parts.
#![tactic(auto)]

mod boxes;
mod context;
mod joining;
mod minimum;
mod moving;
mod parts;
mod relation;
mod rounding;
mod same_points;
mod shape;

pub use boxes::{Extent, Fraction, least_box};
pub use context::simplify;
pub use joining::{concatenate, expand, extend_with, image_relation};
pub use lra_poly::Poly;
pub use minimum::{Minimum, minimise};
pub use moving::{fold_dims, map_dims};
pub use parts::polyhedra_of;
pub use relation::{Relation, relate};
pub use rounding::tighten;
pub use same_points::same;
pub use shape::{dimension, is_bounded, is_universe};
