//! Laws: each of these does nothing, and its contract is the theorem.

ghost use Rattle.lra_poly_domain.specs.Abstraction.{polyhedron_abstraction};
ghost use Rattle.lra_inductive_sound.specs.Inductive.{ValuesAreInductive};
ghost use Rattle.lra_inductive_sound.specs.{RationalPoints.rational_points, Stores.stores};

use lra_poly_domain::Domain;

/// The polyhedra of an iteration that isn't narrowed, flagged or not, are inductive along paths at rational points.
pub fn polyhedra_are_inductive()
    ensures { ValuesAreInductive polyhedron_abstraction rational_points }
{}

/// Over any domain, what such an iteration finds is inductive along paths at stores.
pub fn stores_are_inductive<D: Domain>()
    ensures { ValuesAreInductive D.abstraction (stores D.abstraction) }
{}
