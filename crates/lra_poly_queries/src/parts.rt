//! The polyhedra of any value's parts.

ghost use Rattle.std.specs.{List.All, Prelude.◌≡◌, Prelude.List, Prelude.ℤ, Prelude.length, Prelude.IfOk};
ghost use Rattle.lra_domain.specs.Parts.{SomePartHolds};
ghost use Rattle.lra_poly.specs.Outcomes.{IfExact};
ghost use Rattle.lra_poly_queries.specs.Parted.{AreMadeOf, SomeHas};

use lra_domain::Domain;
use lra_poly::{Outcome, Poly};
use lra_systems::ConSys;
use std::alloc::{AllocError, Global};

// A polyhedron for each list.
fn polyhedra(alloc: Global, parts: &[ConSys]) -> Result<(Vec<Poly>, Outcome), AllocError>
    ensures { IfOk result (λ r. AreMadeOf parts.now r.0.items r.1) }
{
    let mut made = Vec::new(alloc);
    let mut outcome = Outcome::Exact;
    for part in parts {
        let (polyhedron, told) = Poly::from_rows(alloc, part)?;
        made.push(polyhedron)?;
        outcome = outcome.and(told);
    }
    Ok((made, outcome))
}

/// A polyhedron for each of the value's parts, in their order. Parts are the lists of constraints that `parts` of the
/// domain gives: each store of the value meets one of them, so it is in one of the polyhedra. If it is flagged, these
/// have at least the points of the parts.
pub fn polyhedra_of<D: Domain>(alloc: Global, value: &D) -> Result<(Vec<Poly>, Outcome), AllocError>
    ensures dims { IfOk result (λ r. All (λ p. p.dims ≡ D.abstraction.dims value.now) r.0.items) }
    ensures made { IfOk result (λ r. AreMadeOf (D.abstraction.parts value.now) r.0.items r.1) }
    ensures stores { IfOk result (λ r. (s : List ℤ) → D.abstraction.gamma value.now s →
        SomeHas r.0.items s) }
    ensures back { IfOk result
        (λ r. IfExact ((s : List ℤ) → length s ≡ D.abstraction.dims value.now →
        SomeHas r.0.items s → SomePartHolds (D.abstraction.parts value.now) s) r.1) }
{
    let _formed = value.is_empty(); // fact: the value is well-formed
    let parts = value.parts(alloc)?;
    let (made, outcome) = polyhedra(alloc, parts.as_slice())?;
    Ok((made, outcome))
}
