//! Worked widenings in one and two dimensions.

use crate::shapes::{Constraint, Unfit, list_of, set_of, shows};
use lra_poly_domain::Row;
use lra_poly_widening::{Poly, WidenError, limited, rank, standard};
use lra_systems::{ConKind, ConSys};
use std::alloc::{AllocError, Global};
use std::process::Abort;

const HALF_LINE: &[Constraint] = &[([0, 0, 1], ConKind::Eq), ([0, 1, 0], ConKind::Ge)];

const STRIP: &[Constraint] = &[
    ([0, 1, 0], ConKind::Ge),
    ([0, 0, 1], ConKind::Ge),
    ([1, 0, -1], ConKind::Ge),
];

// Thresholds, the half line widened by the strip under them, both ways, and the ranks before and after.
struct Case {
    given: &'static [Constraint],
    wide: &'static [Constraint],
    rows: &'static [[i128; 3]],
    generators: &'static [[i128; 3]],
    before: (u64, u64, u64),
    after: (u64, u64, u64),
}

// Without widening thresholds the bound of x2 isn't kept. That x2 is at most 5 holds on both; that it is at most 0, not
// on the strip.
static CASES: [Case; 2] = [
    Case {
        given: &[],
        wide: &[([0, 1, 0], ConKind::Ge), ([0, 0, 1], ConKind::Ge)],
        rows: &[[0, 1, 0], [0, 0, 1]],
        generators: &[[1, 0, 0], [0, 0, 1], [0, 1, 0]],
        before: (1, 0, 1),
        after: (0, 0, 2),
    },
    Case {
        given: &[([5, 0, -1], ConKind::Ge), ([0, 0, -1], ConKind::Ge)],
        wide: &[
            ([0, 1, 0], ConKind::Ge),
            ([0, 0, 1], ConKind::Ge),
            ([5, 0, -1], ConKind::Ge),
        ],
        rows: &[[0, 1, 0], [0, 0, 1], [5, 0, -1]],
        generators: &[[1, 0, 0], [1, 0, 5], [0, 1, 0]],
        before: (1, 2, 1),
        after: (0, 1, 2),
    },
];

// Whether the half line x2 = 0, x1 at least 0, widened by the strip with x2 from 0 to 1, is as it should be.
fn is_widened(alloc: Global, case: &Case) -> Result<bool, Unfit> {
    let line = set_of(alloc, HALF_LINE)?;
    let strip = set_of(alloc, STRIP)?;
    let given = list_of(alloc, case.given)?;
    match limited(alloc, &line, &strip, &given) {
        Ok((wide, outcome)) => Ok(outcome.is_exact() && shows(&wide, case.rows, case.generators)),
        Err(_) => Ok(false),
    }
}

// The ranks before and after.
fn ranks(alloc: Global, case: &Case) -> Result<[(u64, u64, u64); 2], Unfit> {
    let line = set_of(alloc, HALF_LINE)?;
    let wide = set_of(alloc, case.wide)?;
    let given = list_of(alloc, case.given)?;
    Ok([rank(&line, &given), rank(&wide, &given)])
}

fn are_widened(rt: &impl Abort, alloc: Global, cases: &[Case]) {
    for case in cases {
        assert!(rt; is_widened(alloc, case) == Ok(true));
        assert!(rt; ranks(alloc, case) == Ok([case.before, case.after]));
    }
}

#[test]
fn widenings(rt: HostRuntime) {
    are_widened(&rt, rt.alloc(), &CASES);
}

// The line isn't in the point 0: its generators are that point and then the line, which is outside.
fn is_outside(alloc: Global) -> Result<bool, AllocError> {
    let line = Poly::universe(alloc, 1)?;
    let mut list = ConSys::new(alloc, 1);
    list.push(Row::from_slice(alloc, &[0, 1])?, ConKind::Eq)?;
    let (point, _) = Poly::from_rows(alloc, &list)?;
    let answer = standard(alloc, &line, &point);
    Ok(matches!(answer, Err(WidenError::NotIncluded(1))))
}

#[test]
fn outside(rt: HostRuntime) {
    assert!(rt; is_outside(rt.alloc()) == Ok(true));
}
