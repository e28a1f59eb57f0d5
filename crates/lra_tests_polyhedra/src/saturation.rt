//! Which constraints are tight at which generators, and tests that change nothing; worked by hand in two dimensions.

use crate::shapes::{Constraint, Unfit, set_of};
use lra_domain::{LinExpr, Test};
use lra_poly_widening::Poly;
use lra_systems::ConKind;
use std::alloc::Global;

const STRIP: &[Constraint] = &[([0, 0, 1], ConKind::Ge), ([1, 0, -1], ConKind::Ge)];

const RIGHT: &[Constraint] = &[([0, 1, 0], ConKind::Ge)];

// The strip 0 <= x2 <= 1 has the points (0, 0) and (0, 1) and the line along x1. The one row is tight at the first
// point, the other at the second, both at the line.
const OF_STRIP: &[[bool; 3]] = &[[true, false, true], [false, true, true]];

// Whether the matrix has these rows of truth values.
fn has(p: &Poly, want: &[[bool; 3]]) -> bool {
    let Some(matrix) = p.saturation() else {
        return false;
    };
    if matrix.height() != want.len() || matrix.width() != 3 {
        return false;
    }
    for (place, values) in want.iter().enumerate() {
        for (k, value) in values.iter().enumerate() {
            if matrix.row(place).get(k) != *value {
                return false;
            }
        }
    }
    true
}

// Whether a lower bound of x2 leaves the strip as it is.
fn leaves_strip(alloc: Global, constant: i64) -> Result<bool, Unfit> {
    let mut strip = set_of(alloc, STRIP)?;
    let expr = LinExpr::new(alloc, constant, &[0, 1])?;
    let kind = ConKind::Ge;
    let outcome = strip.add_test(&Test { expr, kind })?;
    Ok(outcome.is_exact() && has(&strip, OF_STRIP))
}

/// x2 >= 0 once more, and x2 >= -5, change nothing.
#[test]
fn tests_without_effect(rt: HostRuntime) {
    assert!(rt; leaves_strip(rt.alloc(), 0) == Ok(true));
    assert!(rt; leaves_strip(rt.alloc(), 5) == Ok(true));
}

// Strips whose first row has, with the second point, a product that isn't 0 though its lowest 64 bits are.
const WIDE: &[Constraint] = &[
    ([0, 0, 1], ConKind::Ge),
    ([18_446_744_073_709_551_616, 0, -1], ConKind::Ge),
];

const TWICE_AS_WIDE: &[Constraint] = &[
    ([0, 0, 1], ConKind::Ge),
    ([36_893_488_147_419_103_232, 0, -1], ConKind::Ge),
];

// Whether the set has the matrix of a strip.
fn is_strip(alloc: Global, rows: &[Constraint]) -> Result<bool, Unfit> {
    let strip = set_of(alloc, rows)?;
    Ok(has(&strip, OF_STRIP))
}

#[test]
fn products_with_a_low_word_of_0(rt: HostRuntime) {
    assert!(rt; is_strip(rt.alloc(), WIDE) == Ok(true));
    assert!(rt; is_strip(rt.alloc(), TWICE_AS_WIDE) == Ok(true));
}

// x1 >= 0 leaves the points (0, 0), (0, 1) and the ray along x1; its row, the first, is tight at both points and not
// at the ray.
fn is_halved(alloc: Global) -> Result<bool, Unfit> {
    let mut strip = set_of(alloc, STRIP)?;
    let right = set_of(alloc, RIGHT)?;
    let outcome = strip.meet(&right)?;
    let want = [
        [true, true, false],
        [true, false, true],
        [false, true, true],
    ];
    Ok(outcome.is_exact() && has(&strip, &want))
}

#[test]
fn half_strip(rt: HostRuntime) {
    assert!(rt; is_halved(rt.alloc()) == Ok(true));
}
