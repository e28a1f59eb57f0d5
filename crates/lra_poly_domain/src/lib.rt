//! Closed polyhedra as a domain.
#![tactic(auto)]

mod growth;
mod head;
mod lists;
mod outcomes;
mod polyhedron;
mod widening;

pub use head::PolyhedronHead;
pub use lra_domain::{BaseDomain, Domain, ExactParts, Test};
pub use lra_duality::{Inclusion, Maximum};
pub use lra_row::Row;
pub use polyhedron::Polyhedron;
