//! Least boxes, and polyhedra of parts.

ghost use Rattle.std.specs.Prelude.{◌≡◌, IfOk};

use crate::shapes::{Constraint, FAR, NOWHERE, RIGHT, Unfit, set_of};
use lra_box::Boxes;
use lra_multipliers::LinExpr;
use lra_poly_domain::{Domain, Test};
use lra_poly_queries::{Extent, Fraction, least_box, polyhedra_of};
use lra_powerset::PowerSet;
use lra_systems::ConKind;
use std::alloc::{AllocError, Global};

/// 2 x at least 1, y at least x, x + y at most 5.
const CORNER: [Constraint; 3] = [
    ([-1, 2, 0], ConKind::Ge),
    ([0, -1, 1], ConKind::Ge),
    ([5, -1, -1], ConKind::Ge),
];

/// -1 - 3 x at least 0.
const LEFT: Constraint = ([-1, -3, 0], ConKind::Ge);

const HALF: Fraction = Fraction { num: 1, den: 2 };

const FIVE_HALVES: Fraction = Fraction { num: 5, den: 2 };

const NINE_HALVES: Fraction = Fraction { num: 9, den: 2 };

const ZERO: Fraction = Fraction { num: 0, den: 1 };

const LESS_A_THIRD: Fraction = Fraction { num: -1, den: 3 };

const FARTHEST: Fraction = Fraction {
    num: 1 << 126,
    den: 1,
};

const ANY: Extent = Extent {
    least: None,
    greatest: None,
};

/// The values between, each of them or none.
fn between(least: Option<Fraction>, greatest: Option<Fraction>) -> Extent {
    Extent { least, greatest }
}

// Whether x and y may be so.
fn is_boxed(alloc: Global, given: &[Constraint], x: Extent, y: Extent) -> Result<bool, Unfit> {
    let set = set_of(alloc, given)?;
    match least_box(&set)? {
        Some(extents) => {
            let found = extents.as_slice();
            Ok(found.len() == 2 && found[0] == x && found[1] == y)
        }
        None => Err(Unfit::Lost),
    }
}

#[test]
fn bounded(rt: HostRuntime) {
    let alloc = rt.alloc();
    let (x, y) = (
        between(Some(HALF), Some(FIVE_HALVES)),
        between(Some(HALF), Some(NINE_HALVES)),
    );
    assert!(rt; is_boxed(alloc, &CORNER, x, y) == Ok(true));
    let far = between(Some(FARTHEST), Some(FARTHEST));
    assert!(rt; is_boxed(alloc, &[FAR], far, ANY) == Ok(true));
    assert!(rt; is_boxed(alloc, &[NOWHERE], ANY, ANY) == Err(Unfit::Lost));
}

#[test]
fn open_ends(rt: HostRuntime) {
    let alloc = rt.alloc();
    assert!(rt; is_boxed(alloc, &[RIGHT], between(Some(ZERO), None), ANY) == Ok(true));
    assert!(rt; is_boxed(alloc, &[LEFT], between(None, Some(LESS_A_THIRD)), ANY) == Ok(true));
    assert!(rt; is_boxed(alloc, &[], ANY, ANY) == Ok(true));
}

/// Where the form of x isn't negative, as one part of at most two.
fn half(alloc: Global, constant: i64, factor: i64) -> Result<PowerSet<Boxes>, AllocError>
    ensures { IfOk result (λ set. set.dims ≡ 2) }
{
    let mut set = PowerSet::<Boxes>::universe(alloc, 2, 2)?;
    let test = Test {
        expr: LinExpr::new(alloc, constant, &[factor, 0])?,
        kind: ConKind::Ge,
    };
    set.test(&test)?;
    Ok(set)
}

// Whether the two polyhedra are those of x at most 0, and of x at least 5.
fn are_halves(alloc: Global, set: &PowerSet<Boxes>) -> Result<bool, Unfit> {
    let low = set_of(alloc, &[([0, -1, 0], ConKind::Ge)])?;
    let high = set_of(alloc, &[([-5, 1, 0], ConKind::Ge)])?;
    let (made, outcome) = polyhedra_of(alloc, set)?;
    let found = made.as_slice();
    Ok(outcome.is_exact() && found.len() == 2 && found[0].same(&low) && found[1].same(&high))
}

fn has_halves(alloc: Global) -> Result<bool, Unfit> {
    let mut set = half(alloc, 0, -1)?;
    let other = half(alloc, -5, 1)?;
    set.join(&other)?;
    are_halves(alloc, &set)
}

// How many polyhedra there are if there is no store.
fn count_nowhere(alloc: Global) -> Result<usize, AllocError> {
    let none = Boxes::empty(alloc, 2, 1)?;
    let (made, _) = polyhedra_of(alloc, &none)?;
    Ok(made.len())
}

#[test]
fn parts(rt: HostRuntime) {
    assert!(rt; has_halves(rt.alloc()) == Ok(true));
    assert!(rt; count_nowhere(rt.alloc()) == Ok(0));
}
