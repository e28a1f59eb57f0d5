//! What polyhedra are as a whole.

use crate::shapes::{Constraint, NONE, NOWHERE, RIGHT, RIGHT_OF_ONE, Unfit, set_of};
use lra_poly_queries::{dimension, is_bounded, is_universe, same};
use lra_systems::ConKind;
use std::alloc::Global;

/// A set; whether it has all points, whether it is bounded, and its dimension.
type Case = ([Constraint; 4], bool, bool, Option<usize>);

/// x and y from 0 to 2.
const SQUARE: [Constraint; 4] = [
    RIGHT,
    ([2, -1, 0], ConKind::Ge),
    ([0, 0, 1], ConKind::Ge),
    ([2, 0, -1], ConKind::Ge),
];

/// x + y = 1.
const SLOPE: Constraint = ([-1, 1, 1], ConKind::Eq);

const CASES: [Case; 6] = [
    ([NONE, NONE, NONE, NONE], true, false, Some(2)),
    ([RIGHT, NONE, NONE, NONE], false, false, Some(2)),
    (SQUARE, false, true, Some(2)),
    ([SLOPE, RIGHT, NONE, NONE], false, false, Some(1)),
    (
        [SLOPE, ([0, 1, 0], ConKind::Eq), NONE, NONE],
        false,
        true,
        Some(0),
    ),
    ([NOWHERE, NONE, NONE, NONE], false, true, None),
];

fn is_told(alloc: Global, case: &Case) -> Result<bool, Unfit> {
    let set = set_of(alloc, &case.0)?;
    let whole = (is_universe(&set), is_bounded(&set));
    Ok(whole == (case.1, case.2) && dimension(&set) == case.3)
}

fn are_told(alloc: Global, cases: &[Case]) -> Result<bool, Unfit> {
    for case in cases.iter() {
        if !is_told(alloc, case)? {
            return Ok(false);
        }
    }
    Ok(true)
}

#[test]
fn wholes(rt: HostRuntime) {
    let cases = CASES;
    assert!(rt; are_told(rt.alloc(), &cases) == Ok(true));
}

fn are_same(alloc: Global, one: &[Constraint], two: &[Constraint]) -> Result<bool, Unfit> {
    let (p, q) = (set_of(alloc, one)?, set_of(alloc, two)?);
    Ok(same(&p, &q))
}

#[test]
fn same_points(rt: HostRuntime) {
    let one = [RIGHT_OF_ONE];
    let twice = [([-2, 2, 0], ConKind::Ge)];
    let wall = [([-1, 1, 0], ConKind::Eq)];
    assert!(rt; are_same(rt.alloc(), &one, &twice) == Ok(true));
    assert!(rt; are_same(rt.alloc(), &one, &wall) == Ok(false));
    assert!(rt; are_same(rt.alloc(), &one, &[RIGHT]) == Ok(false));
    assert!(rt; are_same(rt.alloc(), &one, &[NOWHERE]) == Ok(false));
}
