//! The standard and the limited widening (after Halbwachs 1979).

ghost use Rattle.std.specs.Prelude.{◌≡◌, ◌≢◌, ℕ, List, [], IfOk, IfErr};
ghost use Rattle.lra_poly_widening.specs.Crates.lra_linear_spec.Descriptions.{Con, LinearRow};
ghost use Rattle.lra_poly_widening.specs.Crates.lra_linear_spec.OperationStrain.{LimitedStrains, StandardStrains};
ghost use Rattle.lra_poly_widening.specs.Crates.lra_linear_spec.Points.{IsEmptySet, IsWithin};
ghost use Rattle.lra_poly_widening.specs.Crates.lra_linear_spec.Polyhedra.{IsPolyhedron};
ghost use Rattle.lra_poly_widening.specs.Crates.lra_linear_spec.Widening.{LimitedWidening, StandardWidening};
ghost use Rattle.lra_systems.specs.LinearSystems.{constraints};
ghost use Rattle.lra_poly.specs.Outcomes.{Becomes};
ghost use Rattle.lra_poly_widening.specs.Widenings.{HaveColumns, IsOutside, IsRefusal, IsLimitedWidening};
ghost use Rattle.lra_poly_widening.specs.Widenings.{LiesOrIsGivenUp};
ghost use Rattle.lra_poly_widening.specs.{Rank.Falls, StayingRows.IsOfStaying, StayingRows.StaysOrIsGivenUp};

use crate::error::WidenError;
use crate::lists::{add_held, given_loss, inclusion_loss, no_rows, tight_rows, universe};
use lra_poly::{Inclusion, Outcome, Poly};
use lra_systems::ConSys;
use std::alloc::{AllocError, Global};

// The widening of a polyhedron with a point by one that it lies in. A constraint that is lost is left out.
fn widen_within(
    alloc: Global,
    p: &Poly,
    q: &Poly,
    given: &ConSys,
) -> Result<(Poly, Outcome), AllocError>
    requires second { q.now.dims ≡ p.now.dims }
    requires given { given.now.dims ≡ p.now.dims }
    requires some { ¬ (IsEmptySet p.now.dims (Con p.now.rows)) }
    requires within { IsWithin p.now.dims (Con p.now.rows) (Con q.now.rows) }
    ensures widened { IfOk result
        (λ r. IsLimitedWidening p.now q.now (constraints given.now) r.0 r.1) }
    ensures staying { IfOk result (λ r. IsOfStaying p.now q.now (constraints given.now) r.0) }
{
    // fact: p and q are representable, the thresholds in the range
    let (_rows, _others, _given) = (p.rows(), q.rows(), given.rows());
    let mut list = tight_rows(alloc, p, q)?;
    add_held(&mut list, p, q, given)?;
    let lost = given_loss(alloc, p, q, given)?;
    let (made, outcome) = Poly::from_rows(alloc, &list)?;
    if lost.is_exact() {
        Ok((made, outcome))
    } else {
        Ok((made, lost))
    }
}

/// The widening of the first by the second, limited by the given constraints.
pub fn widen_limited_by(
    alloc: Global,
    p: &Poly,
    q: &Poly,
    given: &ConSys,
) -> Result<(Poly, Outcome), WidenError>
    requires second { q.now.dims ≡ p.now.dims }
    requires given { given.now.dims ≡ p.now.dims }
    ensures widened { IfOk result
        (λ r. IsLimitedWidening p.now q.now (constraints given.now) r.0 r.1) }
    ensures refused { IfErr result (IsRefusal p.now q.now) }
    ensures inside { IfOk result (λ _. (place : ℕ) → ¬ (IsOutside p.now q.now place)) }
    ensures known { IfOk result (λ r. LiesOrIsGivenUp p.now q.now r.0 r.1) }
    ensures staying { IfOk result (λ r. StaysOrIsGivenUp p.now q.now (constraints given.now) r.0 r.1) }
    ensures canonical { IsPolyhedron p.now }
{
    let (_rows, _others) = (p.rows(), q.rows()); // fact: p and q are representable
    match p.included(q) {
        Inclusion::No(place) => Err(WidenError::NotIncluded(place)),
        Inclusion::Wide(generator, row) => {
            let loss = inclusion_loss(alloc, p, q, generator, row)?;
            let all = universe(alloc, p.dims())?;
            Ok((all, Outcome::Flagged(loss)))
        }
        Inclusion::Yes => {
            if p.is_empty() {
                let same = q.copy()?;
                Ok((same, Outcome::Exact))
            } else {
                let (made, outcome) = widen_within(alloc, p, q, given)?;
                Ok((made, outcome))
            }
        }
    }
}

/// The standard widening of P by Q, which P lies in: the points at which each constraint of Q that is tight on P holds;
/// Q if P has no point. If it is flagged, it has at least those. Refused with the place of P's first generator
/// outside Q; if a product passes before that is known, it is flagged and has all points.
pub fn standard(alloc: Global, p: &Poly, q: &Poly) -> Result<(Poly, Outcome), WidenError>
    requires { q.now.dims ≡ p.now.dims }
    ensures becomes { IfOk result (λ r.
        Becomes p.now.dims (StandardWidening p.now q.now) (StandardStrains p.now q.now) r.0 r.1) }
    ensures old { IfOk result (λ r. IsWithin p.now.dims (Con p.now.rows) (Con r.0.rows)) }
    ensures falls { IfOk result (λ r. r.0 ≢ p.now → (given : List LinearRow) → HaveColumns p.now.dims given →
        Falls p.now r.0 given) }
    ensures refused { IfErr result (IsRefusal p.now q.now) }
    ensures inside { IfOk result (λ _. (place : ℕ) → ¬ (IsOutside p.now q.now place)) }
    ensures known { IfOk result (λ r. LiesOrIsGivenUp p.now q.now r.0 r.1) }
    ensures staying { IfOk result (λ r. StaysOrIsGivenUp p.now q.now [] r.0 r.1) }
{
    let none = no_rows(alloc, p.dims())?;
    let (made, outcome) = widen_limited_by(alloc, p, q, &none)?;
    Ok((made, outcome))
}

/// The standard widening met with each given constraint that is valid on both. If it is flagged, it has at least
/// those points. Refused as the standard one is.
pub fn limited(
    alloc: Global,
    p: &Poly,
    q: &Poly,
    given: &ConSys,
) -> Result<(Poly, Outcome), WidenError>
    requires second { q.now.dims ≡ p.now.dims }
    requires given { given.now.dims ≡ p.now.dims }
    ensures becomes { IfOk result (λ r. Becomes p.now.dims (LimitedWidening p.now q.now (constraints given.now))
        (LimitedStrains p.now q.now (constraints given.now)) r.0 r.1) }
    ensures old { IfOk result (λ r. IsWithin p.now.dims (Con p.now.rows) (Con r.0.rows)) }
    ensures falls { IfOk result (λ r. r.0 ≢ p.now → Falls p.now r.0 (constraints given.now)) }
    ensures refused { IfErr result (IsRefusal p.now q.now) }
    ensures inside { IfOk result (λ _. (place : ℕ) → ¬ (IsOutside p.now q.now place)) }
    ensures known { IfOk result (λ r. LiesOrIsGivenUp p.now q.now r.0 r.1) }
    ensures staying { IfOk result (λ r. StaysOrIsGivenUp p.now q.now (constraints given.now) r.0 r.1) }
{
    let _rows = given.rows(); // fact: the thresholds are in the range
    let (made, outcome) = widen_limited_by(alloc, p, q, given)?;
    Ok((made, outcome))
}
