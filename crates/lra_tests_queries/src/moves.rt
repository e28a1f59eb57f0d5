//! Dimensions moved and folded, polyhedra side by side, and constraints rounded to whole points.

use crate::shapes::{Constraint, NOWHERE, RIGHT, RIGHT_OF_ONE, Unfit, list_of, set_of};
use lra_poly_domain::Row;
use lra_poly_queries::{
    Poly, concatenate, expand, fold_dims, image_relation, map_dims, relate, tighten,
};
use lra_systems::{ConKind, GenKind, GenSys, are_same};
use std::alloc::Global;

/// A constraint, and the same rounded.
type Rounding = (Constraint, Constraint);

const ROUNDINGS: [Rounding; 6] = [
    (([-1, 2, 0], ConKind::Eq), NOWHERE),
    (([-1, 2, 0], ConKind::Ge), RIGHT_OF_ONE),
    (([-4, 3, 6], ConKind::Ge), ([-2, 1, 2], ConKind::Ge)),
    (([-4, 2, 0], ConKind::Eq), ([-2, 1, 0], ConKind::Eq)),
    (([-3, 2, 5], ConKind::Ge), ([-3, 2, 5], ConKind::Ge)),
    (([7, 0, 0], ConKind::Ge), ([7, 0, 0], ConKind::Ge)),
];

fn is_rounded(alloc: Global, case: &Rounding) -> Result<bool, Unfit> {
    let given = list_of(alloc, &[case.0])?;
    let wanted = list_of(alloc, &[case.1])?;
    let made = tighten(alloc, &given)?;
    Ok(are_same(&made, &wanted))
}

fn are_rounded(alloc: Global, cases: &[Rounding]) -> Result<bool, Unfit> {
    for case in cases.iter() {
        if !is_rounded(alloc, case)? {
            return Ok(false);
        }
    }
    Ok(true)
}

#[test]
fn rounded(rt: HostRuntime) {
    let cases = ROUNDINGS;
    assert!(rt; are_rounded(rt.alloc(), &cases) == Ok(true));
}

/// x is at most 3.
const LEFT_OF_THREE: Constraint = ([3, -1, 0], ConKind::Ge);

/// x - 2 y is at least 1.
const STEEP: Constraint = ([-1, 1, -2], ConKind::Ge);

/// y - 2 x is at least 1.
const FLAT: Constraint = ([-1, -2, 1], ConKind::Ge);

/// x = y.
const SLOPE: Constraint = ([0, 1, -1], ConKind::Eq);

fn is_moved(
    alloc: Global,
    given: &[Constraint],
    dims: &[usize],
    wanted: &[Constraint],
) -> Result<bool, Unfit> {
    let (made, outcome) = map_dims(&set_of(alloc, given)?, dims)?;
    Ok(outcome.is_exact() && made.same(&set_of(alloc, wanted)?))
}

#[test]
fn moved(rt: HostRuntime) {
    let alloc = rt.alloc();
    assert!(rt; is_moved(alloc, &[STEEP], &[1, 0], &[FLAT]) == Ok(true));
    assert!(rt; is_moved(alloc, &[STEEP], &[0, 1], &[STEEP]) == Ok(true));
    assert!(rt; is_moved(alloc, &[RIGHT_OF_ONE], &[0, 0], &[RIGHT_OF_ONE, SLOPE]) == Ok(true));
    assert!(rt; is_moved(alloc, &[NOWHERE], &[1, 0], &[NOWHERE]) == Ok(true));
}

// The point in three dimensions.
fn point_at(alloc: Global, numbers: [i64; 3]) -> Result<Poly, Unfit> {
    let [x, y, z] = numbers;
    let mut list = GenSys::new(alloc, 3);
    list.push(Row::of(alloc, &[1, x, y, z])?, GenKind::Point)?;
    let (made, _) = Poly::from_generators(alloc, &list)?;
    Ok(made)
}

// Whether each of three dimensions stands where the next one is to be.
fn is_turned(
    alloc: Global,
    given: [i64; 3],
    dims: &[usize],
    wanted: [i64; 3],
) -> Result<bool, Unfit> {
    let (made, outcome) = map_dims(&point_at(alloc, given)?, dims)?;
    Ok(outcome.is_exact() && made.same(&point_at(alloc, wanted)?))
}

#[test]
fn turned(rt: HostRuntime) {
    let alloc = rt.alloc();
    assert!(rt; is_turned(alloc, [1, 2, 3], &[1, 2, 0], [2, 3, 1]) == Ok(true));
    assert!(rt; is_turned(alloc, [1, 2, 3], &[2, 0, 1], [3, 1, 2]) == Ok(true));
    assert!(rt; is_turned(alloc, [1, 2, 3], &[1, 2, 0], [3, 1, 2]) == Ok(false));
}

// Whether x folded with y is x from 0 to 3.
fn is_folded(alloc: Global, given: &[Constraint]) -> Result<bool, Unfit> {
    let (made, outcome) = fold_dims(&set_of(alloc, given)?, &[0], &[1])?;
    let (wanted, _) = map_dims(&set_of(alloc, &[RIGHT, LEFT_OF_THREE])?, &[0])?;
    Ok(outcome.is_exact() && made.same(&wanted))
}

#[test]
fn folded(rt: HostRuntime) {
    let point = [([0, 1, 0], ConKind::Eq), ([-3, 0, 1], ConKind::Eq)];
    assert!(rt; is_folded(rt.alloc(), &point) == Ok(true));
    assert!(rt; is_folded(rt.alloc(), &[NOWHERE]) == Ok(false));
}

// Whether both are found again along their own dimensions.
fn are_side_by_side(alloc: Global, one: &[Constraint], two: &[Constraint]) -> Result<bool, Unfit> {
    let (first, last) = (set_of(alloc, one)?, set_of(alloc, two)?);
    let (both, outcome) = concatenate(&first, &last)?;
    let (front, _) = map_dims(&both, &[0, 1])?;
    let (back, _) = map_dims(&both, &[2, 3])?;
    Ok(outcome.is_exact() && front.same(&first) && back.same(&last))
}

#[test]
fn side_by_side(rt: HostRuntime) {
    let alloc = rt.alloc();
    assert!(rt; are_side_by_side(alloc, &[STEEP], &[RIGHT, FLAT]) == Ok(true));
    assert!(rt; are_side_by_side(alloc, &[], &[RIGHT]) == Ok(true));
}

// Whether both y and its twin are found again beside x.
fn has_twin(alloc: Global, given: &[Constraint]) -> Result<bool, Unfit> {
    let set = set_of(alloc, given)?;
    let (made, outcome) = expand(&set, 1)?;
    let (own, _) = map_dims(&made, &[0, 1])?;
    let (twin, _) = map_dims(&made, &[0, 2])?;
    Ok(outcome.is_exact() && own.same(&set) && twin.same(&set))
}

// Whether y and its twin are the same at each point.
fn has_equal_twin(alloc: Global, given: &[Constraint]) -> Result<bool, Unfit> {
    let (made, _) = expand(&set_of(alloc, given)?, 1)?;
    let apart = Row::of(alloc, &[0, 0, 1, -1])?;
    match relate(&made, &apart, ConKind::Eq) {
        Ok(relation) => Ok(relation.holds_on_all),
        Err(_) => Err(Unfit::Range),
    }
}

#[test]
fn twins(rt: HostRuntime) {
    let alloc = rt.alloc();
    assert!(rt; has_twin(alloc, &[STEEP, RIGHT]) == Ok(true));
    assert!(rt; has_equal_twin(alloc, &[STEEP, RIGHT]) == Ok(false));
    assert!(rt; has_twin(alloc, &[SLOPE]) == Ok(true));
    assert!(rt; has_equal_twin(alloc, &[SLOPE]) == Ok(true));
}

// x becomes any number that is at most y.
fn is_related(alloc: Global, given: &[Constraint], wanted: &[Constraint]) -> Result<bool, Unfit> {
    let set = set_of(alloc, given)?;
    let row = Row::of(alloc, &[0, 0, 1, -1])?;
    let (made, outcome) = image_relation(&set, 0, &row, ConKind::Ge)?;
    Ok(outcome.is_exact() && made.same(&set_of(alloc, wanted)?))
}

#[test]
fn related(rt: HostRuntime) {
    let height = ([-5, 0, 1], ConKind::Eq);
    let point = [([-3, 1, 0], ConKind::Eq), height];
    let wanted = [([5, -1, 0], ConKind::Ge), height];
    assert!(rt; is_related(rt.alloc(), &point, &wanted) == Ok(true));
    assert!(rt; is_related(rt.alloc(), &[NOWHERE], &[NOWHERE]) == Ok(true));
}
