//! Both lists of a polyhedron, each the dual of the other. By their products: inclusion, the greatest value of a form,
//! which constraints are tight at which generators. With no conversion: the cones from which meets and hulls go on.
#![tactic(auto)]

mod exact;
mod facets;
mod inclusion;
mod lists;
mod maximum;
mod saturation;
mod start;

pub use facets::facet_cone;
pub use inclusion::{Inclusion, accepts, inclusion_of};
pub use lists::{join_generators, join_rows, list_test};
pub use lra_cone::{ConSys, Cone};
pub use lra_descriptions::{BitRow, GenSys, SatMatrix, TOO_MANY_DIMENSIONS, are_same};
pub use lra_linear_forms::{LinExpr, Test};
pub use maximum::{Maximum, maximum_of};
pub use saturation::{mark_saturated, saturation_matrix};
pub use start::cone_of;
