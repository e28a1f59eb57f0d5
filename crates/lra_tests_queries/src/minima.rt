//! The least values of forms.

use crate::shapes::{Constraint, FAR, NONE, NOWHERE, RIGHT, Unfit, set_of};
use lra_multipliers::LinExpr;
use lra_poly_domain::{Domain, Polyhedron};
use lra_poly_queries::{Minimum, minimise};
use lra_systems::ConKind;
use std::alloc::Global;

/// Two constraints, a form's constant and its factors, and the least value.
type Case = ([Constraint; 2], i64, [i64; 2], Minimum);

/// x at least 1/2, y at least x.
const CORNER: [Constraint; 2] = [([-1, 2, 0], ConKind::Ge), ([0, -1, 1], ConKind::Ge)];

const CASES: [Case; 7] = [
    (CORNER, 0, [1, 1], AT_ONE),
    (CORNER, 1, [3, 0], AT_FIVE_HALVES),
    ([RIGHT, NONE], 0, [-1, 0], Minimum::Unbounded { place: 1 }),
    (
        [RIGHT, NONE],
        0,
        [i64::MIN, 0],
        Minimum::Unbounded { place: 1 },
    ),
    ([RIGHT, NONE], 0, [0, 1], Minimum::Unbounded { place: 2 }),
    ([NOWHERE, NONE], 5, [1, 0], Minimum::Empty),
    ([FAR, NONE], 0, [4, 0], Minimum::Wide { place: 0 }),
];

/// At the point (1/2, 1/2).
const AT_ONE: Minimum = Minimum::At {
    num: 1,
    den: 1,
    place: 0,
};

const AT_FIVE_HALVES: Minimum = Minimum::At {
    num: 5,
    den: 2,
    place: 0,
};

fn is_least(alloc: Global, case: &Case) -> Result<bool, Unfit> {
    let set = set_of(alloc, &case.0)?;
    let form = LinExpr::new(alloc, case.1, &case.2)?;
    Ok(minimise(&set, &form) == case.3)
}

fn are_least(alloc: Global, cases: &[Case]) -> Result<bool, Unfit> {
    for case in cases.iter() {
        if !is_least(alloc, case)? {
            return Ok(false);
        }
    }
    Ok(true)
}

#[test]
fn least_values(rt: HostRuntime) {
    let cases = CASES;
    assert!(rt; are_least(rt.alloc(), &cases) == Ok(true));
}

/// Whether the bound is the fraction rounded up.
fn rounds_up(num: i128, den: i128, bound: i128) -> Option<bool> {
    let product = bound.checked_mul(den)?;
    let below = product.checked_sub(den)?;
    Some(below < num && num <= product)
}

/// Whether the least value and the domain's lower bound, which is a whole number, report the same.
fn agrees(
    alloc: Global,
    constraints: &[Constraint],
    constant: i64,
    factors: &[i64; 2],
) -> Result<bool, Unfit> {
    let set = set_of(alloc, constraints)?;
    let form = LinExpr::new(alloc, constant, factors)?;
    let least = minimise(&set, &form);
    let (bound, _) = Polyhedron::of(set).bounds(&form);
    Ok(match (least, bound) {
        (Minimum::At { num, den, place: _ }, Some(bound)) => {
            rounds_up(num, den, bound) == Some(true)
        }
        (
            Minimum::At {
                num: _,
                den: _,
                place: _,
            },
            None,
        ) => false,
        (_, bound) => bound.is_none(),
    })
}

/// x and y at least 0, 2x + 3y at most 12: the points (0, 0), (6, 0), (0, 4).
const TRIANGLE: [Constraint; 3] = [
    ([0, 1, 0], ConKind::Ge),
    ([0, 0, 1], ConKind::Ge),
    ([12, -2, -3], ConKind::Ge),
];

/// x and y at least 0, 2x + 2y at most 5: the points (0, 0), (5/2, 0), (0, 5/2).
const HALVES: [Constraint; 3] = [
    ([0, 1, 0], ConKind::Ge),
    ([0, 0, 1], ConKind::Ge),
    ([5, -2, -2], ConKind::Ge),
];

/// The sets and forms of the table of bounds.
const BOUNDED: [([Constraint; 3], i64, [i64; 2]); 6] = [
    (TRIANGLE, 0, [1, 1]),
    (TRIANGLE, 1, [2, -1]),
    (TRIANGLE, -7, [0, 0]),
    (HALVES, 0, [1, 1]),
    (HALVES, 0, [-1, -1]),
    (HALVES, 0, [3, 1]),
];

fn all_agree(alloc: Global, cases: &[Case]) -> Result<bool, Unfit> {
    for case in cases.iter() {
        if !agrees(alloc, &case.0, case.1, &case.2)? {
            return Ok(false);
        }
    }
    Ok(true)
}

fn bounds_agree(alloc: Global) -> Result<bool, Unfit> {
    let cases = BOUNDED;
    for case in cases.iter() {
        if !agrees(alloc, &case.0, case.1, &case.2)? {
            return Ok(false);
        }
    }
    Ok(true)
}

/// Over both tables, that of least values and that of bounds.
#[test]
fn least_values_beside_bounds(rt: HostRuntime) {
    let cases = CASES;
    assert!(rt; all_agree(rt.alloc(), &cases) == Ok(true));
    assert!(rt; bounds_agree(rt.alloc()) == Ok(true));
}
