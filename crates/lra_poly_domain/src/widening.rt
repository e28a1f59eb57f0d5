//! Joins and widenings of polyhedra, as a head grows by them.

ghost use Rattle.std.specs.Prelude.{◌≡◌, ◌≢◌, IfOk};
ghost use Rattle.lra_domain.specs.declared.Mode.TheVariants.{Join, Widen, Limited, Tightest};
ghost use Rattle.lra_linear_spec.specs.{Descriptions.Con, Points.IsWithin};
ghost use Rattle.lra_poly_domain.specs.Crates.lra_systems.LinearSystems.{constraints};
ghost use Rattle.lra_poly_domain.specs.Growth.{IsJoined, IsWidening};

use crate::outcomes::exactness_of;
use lra_domain::{ConSys, Exactness, Mode};
use lra_poly_widening::{Poly, WidenError, limited, limited_by_tightest, standard};
use std::alloc::{AllocError, Global};

/// The join with next.
pub fn join_values(p: &Poly, next: &Poly) -> Result<(Poly, Exactness), AllocError>
    requires { next.now.dims ≡ p.now.dims }
    ensures { IfOk result (λ r. IsJoined p.now next.now r.0 r.1) }
{
    let mut join = p.copy()?;
    let outcome = join.hull(next)?;
    let exactness = exactness_of(&outcome);
    Ok((join, exactness))
}

// The standard widening by a polyhedron that the first lies in.
fn widen_standard(
    alloc: Global,
    p: &Poly,
    q: &Poly,
    given: &ConSys,
) -> Result<(Poly, Exactness), AllocError>
    requires second { q.now.dims ≡ p.now.dims }
    requires given { given.now.dims ≡ p.now.dims }
    requires within { IsWithin p.now.dims (Con p.now.rows) (Con q.now.rows) }
    ensures { IfOk result (λ r. IsWidening Widen p.now q.now (constraints given.now) r.0 r.1) }
{
    let (_rows, _given) = (p.rows(), given.rows()); // fact: p is representable, the thresholds are in the range
    match standard(alloc, p, q) {
        Ok((made, outcome)) => {
            let exactness = exactness_of(&outcome);
            Ok((made, exactness))
        }
        Err(WidenError::NotIncluded(_)) => unreachable!(),
        Err(WidenError::Memory) => Err(AllocError),
    }
}

// The limited widening by a polyhedron that the first lies in.
fn widen_limited(
    alloc: Global,
    p: &Poly,
    q: &Poly,
    given: &ConSys,
) -> Result<(Poly, Exactness), AllocError>
    requires second { q.now.dims ≡ p.now.dims }
    requires given { given.now.dims ≡ p.now.dims }
    requires within { IsWithin p.now.dims (Con p.now.rows) (Con q.now.rows) }
    ensures { IfOk result (λ r. IsWidening Limited p.now q.now (constraints given.now) r.0 r.1) }
{
    let _rows = p.rows(); // fact: p is representable
    match limited(alloc, p, q, given) {
        Ok((made, outcome)) => {
            let exactness = exactness_of(&outcome);
            Ok((made, exactness))
        }
        Err(WidenError::NotIncluded(_)) => unreachable!(),
        Err(WidenError::Memory) => Err(AllocError),
    }
}

// The widening limited by the tightest rows, by a polyhedron that the first lies in.
fn widen_by_tightest(
    alloc: Global,
    p: &Poly,
    q: &Poly,
    given: &ConSys,
) -> Result<(Poly, Exactness), AllocError>
    requires second { q.now.dims ≡ p.now.dims }
    requires given { given.now.dims ≡ p.now.dims }
    requires within { IsWithin p.now.dims (Con p.now.rows) (Con q.now.rows) }
    ensures { IfOk result (λ r. IsWidening Tightest p.now q.now (constraints given.now) r.0 r.1) }
{
    let _rows = p.rows(); // fact: p is representable
    match limited_by_tightest(alloc, p, q, given) {
        Ok((made, outcome)) => {
            let exactness = exactness_of(&outcome);
            Ok((made, exactness))
        }
        Err(WidenError::NotIncluded(_)) => unreachable!(),
        Err(WidenError::Memory) => Err(AllocError),
    }
}

/// The widening of this mode by a polyhedron that the first lies in.
pub fn widen_value(
    alloc: Global,
    p: &Poly,
    q: &Poly,
    given: &ConSys,
    mode: Mode,
) -> Result<(Poly, Exactness), AllocError>
    requires second { q.now.dims ≡ p.now.dims }
    requires given { given.now.dims ≡ p.now.dims }
    requires within { IsWithin p.now.dims (Con p.now.rows) (Con q.now.rows) }
    requires widens { mode ≢ Join }
    ensures { IfOk result (λ r. IsWidening mode p.now q.now (constraints given.now) r.0 r.1) }
{
    match mode {
        Mode::Join => unreachable!(),
        Mode::Widen => {
            let made = widen_standard(alloc, p, q, given)?;
            Ok(made)
        }
        Mode::Limited => {
            let made = widen_limited(alloc, p, q, given)?;
            Ok(made)
        }
        Mode::Tightest => {
            let made = widen_by_tightest(alloc, p, q, given)?;
            Ok(made)
        }
    }
}
