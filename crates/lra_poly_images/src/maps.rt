//! Changes of the dimensions, and time-elapse.

ghost use Rattle.std.specs.Prelude.{◌≡◌, ◌⊎◌, ◌<◌, ◌≤◌, ◌-◌, ◌+◌, ◌++◌, IfOk, OnErr};
ghost use Rattle.lra_poly_images.specs.Crates.lra_linear_spec.OperationStrain.{EmbedStrains, RemoveLastStrains};
ghost use Rattle.lra_poly_images.specs.Crates.lra_linear_spec.OperationStrain.{TimeElapseStrains, as_directions};
ghost use Rattle.lra_poly_images.specs.Crates.lra_linear_spec.OperationStrain.{embedded, shortened};
ghost use Rattle.lra_poly_images.specs.Crates.lra_linear_spec.SetOperations.{Embed, RemoveLast, TimeElapse};
ghost use Rattle.lra_poly_images.specs.Crates.{lra_linear_spec.Descriptions.Con, lra_linear_spec.Points.IsEmptySet};
ghost use Rattle.lra_poly.specs.{Outcomes.Becomes, Outcomes.IfFlagged, Outcomes.IsOfGenerators, United.AreTriedPoints};
ghost use Rattle.lra_poly_images.specs.Crates.lra_systems.Dimensions.{too_many_dimensions};
ghost use Rattle.lra_poly_images.specs.Crates.lra_systems.LinearSystems.{generators, FitKinds};

use lra_mapped_systems::{GenSys, directions_of, embed_list, shorten, with_directions};
use lra_poly::{Outcome, Poly};
use std::alloc::AllocError;

// Becomes the polyhedron of the generators.
fn replace(p: &mut Poly, list: &GenSys) -> Result<Outcome, AllocError>
    requires { FitKinds list.now.rows list.now.kinds }
    ensures becomes { IfOk result (IsOfGenerators list.now.dims (generators list.now) p.new) }
    ensures tried { IfOk result (λ o. IfFlagged
        (λ _. AreTriedPoints list.now.dims (generators list.now) p.new o) o) }
    ensures unchanged { OnErr result (p.new ≡ p.old) }
{
    let (made, outcome) = Poly::from_generators(p.allocator(), list)?;
    *p = made;
    Ok(outcome)
}

/// Takes away the last k dimensions: becomes the set of its points without their last k coordinates. If it is
/// flagged, it has at least those.
pub fn remove_last(p: &mut Poly, k: usize) -> Result<Outcome, AllocError>
    requires { k ≤ p.old.dims }
    ensures becomes { IfOk result (Becomes (p.old.dims - k)
        (RemoveLast (p.old.dims - k) k (Con p.old.rows)) (RemoveLastStrains k p.old) p.new) }
    ensures tried { IfOk result (λ o. IfFlagged
        (λ _. AreTriedPoints (p.old.dims - k) (shortened (p.old.dims - k) p.old.generators) p.new o) o) }
    ensures unchanged { OnErr result (p.new ≡ p.old) }
{
    let list = shorten(p.allocator(), p.generators(), p.dims() - k)?;
    replace(p, &list)
}

/// Adds k dimensions, the last ones, in which the coordinates may be anything: becomes the set of its points with any
/// coordinates after them. If it is flagged, it has at least those.
pub fn embed(p: &mut Poly, k: usize) -> Result<Outcome, AllocError>
    requires { p.old.dims + k < too_many_dimensions }
    ensures becomes { IfOk result (Becomes (p.old.dims + k)
        (Embed p.old.dims (Con p.old.rows)) (EmbedStrains k p.old) p.new) }
    ensures tried { IfOk result (λ o. IfFlagged
        (λ _. AreTriedPoints (p.old.dims + k) (embedded k p.old) p.new o) o) }
    ensures unchanged { OnErr result (p.new ≡ p.old) }
{
    let list = embed_list(p.allocator(), p.generators(), k)?;
    replace(p, &list)
}

// The time-elapse of two that have a point each, if the generators are converted from nothing.
fn elapse_anew(p: &mut Poly, other: &Poly) -> Result<Outcome, AllocError>
    requires dims { other.now.dims ≡ p.old.dims }
    requires first { ¬ (IsEmptySet p.old.dims (Con p.old.rows)) }
    requires second { ¬ (IsEmptySet other.now.dims (Con other.now.rows)) }
    ensures becomes { IfOk result (Becomes p.old.dims
        (TimeElapse p.old.dims (Con p.old.rows) (Con other.now.rows))
        (TimeElapseStrains p.old other.now) p.new) }
    ensures tried { IfOk result (λ o. IfFlagged (λ _. AreTriedPoints p.old.dims
        (p.old.generators ++ as_directions other.now.generators) p.new o) o) }
    ensures unchanged { OnErr result (p.new ≡ p.old) }
{
    let list = with_directions(p.allocator(), p.generators(), other.generators())?;
    replace(p, &list)
}

// The time-elapse of two that have a point each.
fn elapse(p: &mut Poly, other: &Poly) -> Result<Outcome, AllocError>
    requires dims { other.now.dims ≡ p.old.dims }
    requires first { ¬ (IsEmptySet p.old.dims (Con p.old.rows)) }
    requires second { ¬ (IsEmptySet other.now.dims (Con other.now.rows)) }
    ensures becomes { IfOk result (Becomes p.old.dims
        (TimeElapse p.old.dims (Con p.old.rows) (Con other.now.rows))
        (TimeElapseStrains p.old other.now) p.new) }
    ensures tried { IfOk result (λ o. IfFlagged (λ _. AreTriedPoints p.old.dims
        (p.old.generators ++ as_directions other.now.generators) p.new o) o) }
    ensures unchanged { OnErr result (p.new ≡ p.old) }
{
    let _canonical = p.rows(); // fact: p's lists are canonical
    let along = directions_of(p.allocator(), other.generators())?;
    match p.extend(&along)? {
        Some(made) => {
            *p = made;
            Ok(Outcome::Exact)
        }
        None => elapse_anew(p, other),
    }
}

/// Lets time elapse: becomes the hull of its points moved by any whole number of steps from 0 on, each step by the
/// coordinates of a point of the other. If it is flagged, it has at least those. If one of the two has no point it
/// is never flagged.
pub fn time_elapse(p: &mut Poly, other: &Poly) -> Result<Outcome, AllocError>
    requires { other.now.dims ≡ p.old.dims }
    ensures becomes { IfOk result (Becomes p.old.dims
        (TimeElapse p.old.dims (Con p.old.rows) (Con other.now.rows))
        (TimeElapseStrains p.old other.now) p.new) }
    ensures tried { IfOk result (λ o. IfFlagged (λ _. AreTriedPoints p.old.dims
        (p.old.generators ++ as_directions other.now.generators) p.new o) o) }
    ensures empty { IsEmptySet p.old.dims (Con p.old.rows) ⊎ IsEmptySet other.now.dims (Con other.now.rows) →
        IfOk result (λ outcome. outcome ≡ Outcome.Exact) }
    ensures unchanged { OnErr result (p.new ≡ p.old) }
{
    let _canonical = p.rows(); // fact: p's lists are canonical
    let _other_canonical = other.rows(); // fact: the other's lists are canonical
    if p.is_empty() {
        return Ok(Outcome::Exact);
    }
    if other.is_empty() {
        *p = other.copy()?;
        return Ok(Outcome::Exact);
    }
    elapse(p, other)
}
