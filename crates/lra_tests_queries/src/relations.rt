//! How constraints stand to polyhedra.

use crate::shapes::{Constraint, FAR, NONE, NOWHERE, RIGHT, RIGHT_OF_ONE, Unfit, row_of, set_of};
use lra_poly_queries::{Relation, relate};
use lra_systems::ConKind;
use std::alloc::Global;

/// A set, a constraint, and whether it holds on all or nowhere, and is saturated on all or nowhere.
type Case = ([Constraint; 2], Constraint, [bool; 4]);

/// x = 0.
const WALL: Constraint = ([0, 1, 0], ConKind::Eq);

const CASES: [Case; 8] = [
    ([RIGHT_OF_ONE, NONE], RIGHT, [true, false, false, true]),
    (
        [RIGHT, NONE],
        ([-1, 1, 0], ConKind::Eq),
        [false, false, false, false],
    ),
    (
        [RIGHT_OF_ONE, NONE],
        ([0, -1, 0], ConKind::Ge),
        [false, true, false, true],
    ),
    // the corner holds, and along the ray it fails
    (
        [RIGHT_OF_ONE, NONE],
        ([2, -1, 0], ConKind::Ge),
        [false, false, false, false],
    ),
    ([RIGHT_OF_ONE, NONE], WALL, [false, true, false, true]),
    ([WALL, NONE], RIGHT, [true, false, true, false]),
    ([WALL, NONE], WALL, [true, false, true, false]),
    ([NOWHERE, NONE], RIGHT, [true, true, true, true]),
];

fn told(relation: &Relation) -> [bool; 4] {
    [
        relation.holds_on_all,
        relation.holds_nowhere,
        relation.saturated_on_all,
        relation.saturated_nowhere,
    ]
}

fn is_related(alloc: Global, case: &Case) -> Result<bool, Unfit> {
    let set = set_of(alloc, &case.0)?;
    let row = row_of(alloc, &case.1.0)?;
    match relate(&set, &row, case.1.1) {
        Ok(relation) => {
            let cuts = !case.2[0] && !case.2[1];
            Ok(told(&relation) == case.2 && relation.cuts() == cuts)
        }
        Err(_) => Err(Unfit::Range),
    }
}

fn are_related(alloc: Global, cases: &[Case]) -> Result<bool, Unfit> {
    for case in cases.iter() {
        if !is_related(alloc, case)? {
            return Ok(false);
        }
    }
    Ok(true)
}

#[test]
fn relations(rt: HostRuntime) {
    let cases = CASES;
    assert!(rt; are_related(rt.alloc(), &cases) == Ok(true));
}

/// Four times 2^126 passes the range.
#[test]
fn wide_relation(rt: HostRuntime) {
    let case = (
        [FAR, NONE],
        ([0, 4, 0], ConKind::Ge),
        [false, false, false, false],
    );
    assert!(rt; is_related(rt.alloc(), &case) == Err(Unfit::Range));
}
