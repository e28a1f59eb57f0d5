//! How a head's value grows, and which widening thresholds are left.

ghost use Rattle.std.specs.Prelude.{◌≡◌, ◌≢◌, [], IfOk};
ghost use Rattle.lra_domain.specs.{declared.Exactness.TheVariants.Flagged, declared.Mode.TheVariants.Join};
ghost use Rattle.lra_linear_spec.specs.{Descriptions.Con, Polyhedra.IsPolyhedronOf};
ghost use Rattle.lra_poly_widening.specs.Rank.{kept_thresholds};
ghost use Rattle.lra_poly_domain.specs.Crates.lra_systems.LinearSystems.{constraints};
ghost use Rattle.lra_poly_domain.specs.Growth.{HasGrown, IsStruck, head, takes_thresholds};

use crate::lists::some_passes;
use crate::widening::{join_values, widen_value};
use lra_domain::{ConSys, Exactness, Mode};
use lra_duality::TOO_MANY_DIMENSIONS;
use lra_poly_widening::{Poly, held_on_both};
use std::alloc::{AllocError, Global};

/// What a head holds after a growth: its value, the widening thresholds that are left; and whether that is the defined
/// growth.
#[derive(Drop)]
pub struct Growth {
    pub value: Poly,
    pub thresholds: ConSys,
    pub exactness: Exactness,
}

/// All points, and the widening thresholds that hold on them.
pub fn give_up(alloc: Global, p: &Poly, given: &ConSys) -> Result<Growth, AllocError>
    requires { given.now.dims ≡ p.now.dims }
    ensures all { IfOk result (λ g. IsPolyhedronOf p.now.dims (Con []) g.value) }
    ensures dims { IfOk result (λ g. g.thresholds.dims ≡ p.now.dims) }
    ensures left { IfOk result (λ g. constraints g.thresholds ≡ kept_thresholds p.now g.value (constraints given.now)) }
    ensures flagged { IfOk result (λ g. g.exactness ≡ Flagged) }
{
    if p.dims() >= TOO_MANY_DIMENSIONS {
        return Err(AllocError);
    }
    let all = Poly::universe(alloc, p.dims())?;
    let left = held_on_both(alloc, p, &all, given)?;
    Ok(Growth {
        value: all,
        thresholds: left,
        exactness: Exactness::Flagged,
    })
}

// Whether a widening of this mode takes thresholds in.
fn takes_thresholds(mode: Mode) -> bool
    ensures { result ≡ takes_thresholds mode }
{
    match mode {
        Mode::Join | Mode::Widen => false,
        Mode::Limited | Mode::Tightest => true,
    }
}

// Flagged if the widening was, or, if it is limited, if a threshold is struck for a product.
fn strike(exactness: Exactness, mode: Mode, p: &Poly, r: &Poly, given: &ConSys) -> Exactness
    requires given { given.now.dims ≡ p.now.dims }
    requires result { r.now.dims ≡ p.now.dims }
    ensures { IsStruck exactness mode p.now r.now (constraints given.now) result }
{
    if !takes_thresholds(mode) {
        return exactness;
    }
    if some_passes(given, p.generators()) {
        return Exactness::Flagged;
    }
    if some_passes(given, r.generators()) {
        return Exactness::Flagged;
    }
    exactness
}

// The growth by a join.
fn grow_by_join(p: &Poly, next: &Poly, given: &ConSys) -> Result<Growth, AllocError>
    requires next { next.now.dims ≡ p.now.dims }
    requires given { given.now.dims ≡ p.now.dims }
    ensures grown { IfOk result (λ g.
        HasGrown (head p.now (constraints given.now)) next.now Join (head g.value (constraints g.thresholds))
        g.exactness) }
    ensures dims { IfOk result (λ g. g.thresholds.dims ≡ p.now.dims) }
{
    let (_rows, _others) = (p.rows(), next.rows()); // fact: both polyhedra are representable
    let (value, exactness) = join_values(p, next)?;
    let left = given.copy()?;
    Ok(Growth {
        value,
        thresholds: left,
        exactness,
    })
}

// The growth by a widening with the join; all points if the join is flagged.
fn grow_by_widening(
    alloc: Global,
    p: &Poly,
    next: &Poly,
    given: &ConSys,
    mode: Mode,
) -> Result<Growth, AllocError>
    requires next { next.now.dims ≡ p.now.dims }
    requires given { given.now.dims ≡ p.now.dims }
    requires widens { mode ≢ Join }
    ensures grown { IfOk result (λ g.
        HasGrown (head p.now (constraints given.now)) next.now mode (head g.value (constraints g.thresholds))
        g.exactness) }
    ensures dims { IfOk result (λ g. g.thresholds.dims ≡ p.now.dims) }
{
    // fact: both polyhedra are representable, the thresholds in the range
    let (_rows, _others, _given) = (p.rows(), next.rows(), given.rows());
    let (join, exactness) = join_values(p, next)?;
    if exactness == Exactness::Flagged {
        let all = give_up(alloc, p, given)?;
        return Ok(all);
    }
    let (value, widening) = widen_value(alloc, p, &join, given, mode)?;
    let left = held_on_both(alloc, p, &value, given)?;
    let exactness = strike(widening, mode, p, &value, given);
    Ok(Growth {
        value,
        thresholds: left,
        exactness,
    })
}

/// The growth by what isn't known to lie in the head's value.
pub fn grow_value(
    alloc: Global,
    p: &Poly,
    next: &Poly,
    given: &ConSys,
    mode: Mode,
) -> Result<Growth, AllocError>
    requires next { next.now.dims ≡ p.now.dims }
    requires given { given.now.dims ≡ p.now.dims }
    ensures grown { IfOk result (λ g.
        HasGrown (head p.now (constraints given.now)) next.now mode (head g.value (constraints g.thresholds))
        g.exactness) }
    ensures dims { IfOk result (λ g. g.thresholds.dims ≡ p.now.dims) }
{
    if mode == Mode::Join {
        let growth = grow_by_join(p, next, given)?;
        Ok(growth)
    } else {
        let growth = grow_by_widening(alloc, p, next, given, mode)?;
        Ok(growth)
    }
}
