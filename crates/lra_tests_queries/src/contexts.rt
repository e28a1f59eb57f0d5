//! Constraints without those that a context gives.

use crate::shapes::{Constraint, FAR, NONE, NOWHERE, RIGHT, RIGHT_OF_ONE, Unfit, list_of, set_of};
use lra_poly_queries::simplify;
use lra_systems::{ConKind, ConSys, are_same};
use std::alloc::Global;

/// y at least x.
const STEEP: Constraint = ([0, -1, 1], ConKind::Ge);

/// x = 1.
const WALL: Constraint = ([-1, 1, 0], ConKind::Eq);

// The constraints that stay, if the outcome is exact.
fn rest_of(alloc: Global, given: &[Constraint], context: Constraint) -> Result<ConSys, Unfit> {
    let (set, around) = (set_of(alloc, given)?, set_of(alloc, &[context])?);
    let (kept, outcome) = simplify(&set, &around)?;
    if !outcome.is_exact() {
        return Err(Unfit::Lost);
    }
    Ok(kept)
}

// Whether these stay.
fn leaves(
    alloc: Global,
    given: &[Constraint],
    context: Constraint,
    wanted: &[Constraint],
) -> Result<bool, Unfit> {
    let kept = rest_of(alloc, given, context)?;
    let stay = list_of(alloc, wanted)?;
    Ok(are_same(&kept, &stay))
}

#[test]
fn needed(rt: HostRuntime) {
    let alloc = rt.alloc();
    assert!(rt; leaves(alloc, &[RIGHT, STEEP], RIGHT_OF_ONE, &[STEEP]) == Ok(true));
    // nothing else gives the one or the other
    assert!(rt; leaves(alloc, &[RIGHT, STEEP], NONE, &[RIGHT, STEEP]) == Ok(true));
    assert!(rt; leaves(alloc, &[RIGHT_OF_ONE], RIGHT, &[RIGHT_OF_ONE]) == Ok(true));
    assert!(rt; leaves(alloc, &[WALL], RIGHT_OF_ONE, &[WALL]) == Ok(true));
}

#[test]
fn given(rt: HostRuntime) {
    let alloc = rt.alloc();
    assert!(rt; leaves(alloc, &[RIGHT], RIGHT, &[]) == Ok(true));
    assert!(rt; leaves(alloc, &[RIGHT_OF_ONE], WALL, &[]) == Ok(true));
    assert!(rt; leaves(alloc, &[RIGHT, STEEP], NOWHERE, &[]) == Ok(true));
    assert!(rt; leaves(alloc, &[NOWHERE], RIGHT, &[NOWHERE]) == Ok(true));
}

/// Four times 2^126 passes the range, so it isn't known whether 4 x + 1 >= 0 is given.
#[test]
fn wide_products(rt: HostRuntime) {
    let far = [([1, 4, 0], ConKind::Ge)];
    assert!(rt; leaves(rt.alloc(), &far, FAR, &far) == Err(Unfit::Lost));
    assert!(rt; leaves(rt.alloc(), &far, NONE, &far) == Ok(true));
}
