//! The least and the greatest value of forms, worked out by hand.

ghost use Rattle.std.specs.Prelude.{◌≡◌};

use crate::boxes::{keep_by, set_by};
use lra_domain::{Domain, LinExpr};
use lra_example_domain::ExampleDomain;
use lra_octagon::{Boxes, Octagon};
use lra_poly_domain::Polyhedron;
use lra_powerset::PowerSet;
use std::alloc::{AllocError, Global};

/// A constant and two factors.
type Numbers = (i64, [i64; 2]);

/// What is reported from below and from above.
type Told = (Option<i128>, Option<i128>);

/// Three forms that aren't negative, a form, and what is reported about it.
type Case = ([Numbers; 3], Numbers, Told);

/// x and y at least 0, 2x + 3y at most 12: the points (0, 0), (6, 0), (0, 4).
const TRIANGLE: [Numbers; 3] = [(0, [1, 0]), (0, [0, 1]), (12, [-2, -3])];

/// x and y at least 0, 2x + 2y at most 5: the points (0, 0), (5/2, 0), (0, 5/2).
const HALVES: [Numbers; 3] = [(0, [1, 0]), (0, [0, 1]), (5, [-2, -2])];

/// x at least 0.
const RIGHT: [Numbers; 3] = [(0, [1, 0]), (0, [0, 0]), (0, [0, 0])];

/// 1 <= x <= 0.
const NOTHING: [Numbers; 3] = [(-1, [1, 0]), (0, [-1, 0]), (0, [0, 0])];

/// x from 0 to 6 and y from 0 to 4 are the box of the triangle.
const OF_BOXES: [Case; 8] = [
    (TRIANGLE, (0, [1, 1]), (Some(0), Some(10))),
    (TRIANGLE, (1, [2, -1]), (Some(-3), Some(13))),
    (TRIANGLE, (-7, [0, 0]), (Some(-7), Some(-7))),
    (HALVES, (0, [1, 1]), (Some(0), Some(4))),
    (HALVES, (0, [-1, -1]), (Some(-4), Some(0))),
    (RIGHT, (3, [-2, 0]), (None, Some(3))),
    (RIGHT, (3, [1, 1]), (None, None)),
    (NOTHING, (3, [1, 0]), (None, None)),
];

/// x + y is at most 2 if 2x + 2y is at most 5; of other sums the intervals say.
const OF_OCTAGONS: [Case; 8] = [
    (TRIANGLE, (0, [1, 1]), (Some(0), Some(10))),
    (TRIANGLE, (1, [2, -1]), (Some(-3), Some(13))),
    (TRIANGLE, (-7, [0, 0]), (Some(-7), Some(-7))),
    (HALVES, (0, [1, 1]), (Some(0), Some(2))),
    (HALVES, (5, [-1, -1]), (Some(3), Some(5))),
    (RIGHT, (3, [-2, 0]), (None, Some(3))),
    (RIGHT, (3, [1, 1]), (None, None)),
    (NOTHING, (3, [1, 0]), (None, None)),
];

/// The values at the points of the triangle; 5/2 rounded downwards, -5/2 upwards.
const OF_POLYHEDRA: [Case; 9] = [
    (TRIANGLE, (0, [1, 1]), (Some(0), Some(6))),
    (TRIANGLE, (1, [2, -1]), (Some(-3), Some(13))),
    (TRIANGLE, (-7, [0, 0]), (Some(-7), Some(-7))),
    (HALVES, (0, [1, 1]), (Some(0), Some(2))),
    (HALVES, (0, [-1, -1]), (Some(-2), Some(0))),
    (HALVES, (0, [3, 1]), (Some(0), Some(7))),
    (RIGHT, (3, [-2, 0]), (None, Some(3))),
    (RIGHT, (3, [1, 1]), (None, None)),
    (NOTHING, (3, [1, 0]), (None, None)),
];

fn told_by<D: Domain>(alloc: Global, value: &D, form: &Numbers) -> Result<Told, AllocError>
    requires { D.abstraction.dims value.now ≡ 2 }
{
    let form = LinExpr::new(alloc, form.0, &form.1)?;
    Ok(value.bounds(&form))
}

/// What is reported about the form if the three aren't negative.
fn bounds_by<D: Domain>(
    alloc: Global,
    kept: &[Numbers; 3],
    form: &Numbers,
) -> Result<Told, AllocError> {
    let mut value = D::universe(alloc, 2, 1)?;
    keep_by(alloc, &mut value, kept[0].0, &kept[0].1)?;
    keep_by(alloc, &mut value, kept[1].0, &kept[1].1)?;
    keep_by(alloc, &mut value, kept[2].0, &kept[2].1)?;
    let told = told_by(alloc, &value, form)?;
    Ok(told)
}

fn are_told<D: Domain>(alloc: Global, cases: &[Case]) -> Result<bool, AllocError> {
    for case in cases.iter() {
        if bounds_by::<D>(alloc, &case.0, &case.1)? != case.2 {
            return Ok(false);
        }
    }
    Ok(true)
}

#[test]
fn bounds_by_hand(rt: HostRuntime) {
    let (of_boxes, of_octagons, of_polyhedra) = (OF_BOXES, OF_OCTAGONS, OF_POLYHEDRA);
    assert!(rt; are_told::<Boxes>(rt.alloc(), &of_boxes) == Ok(true));
    assert!(rt; are_told::<Octagon>(rt.alloc(), &of_octagons) == Ok(true));
    assert!(rt; are_told::<Polyhedron>(rt.alloc(), &of_polyhedra) == Ok(true));
}

/// A gauge says nothing.
#[test]
fn bounds_of_a_gauge(rt: HostRuntime) {
    assert!(rt;
        bounds_by::<ExampleDomain>(rt.alloc(), &TRIANGLE, &(0, [1, 1])) == Ok((None, None))
    );
}

/// x from 0 to (2^63 - 1)^2, four times which passes the range.
fn four_times<D: Domain>(alloc: Global) -> Result<Told, AllocError> {
    let mut value = D::universe(alloc, 2, 1)?;
    keep_by(alloc, &mut value, 0, &[1, 0])?;
    keep_by(alloc, &mut value, i64::MAX, &[-1, 0])?;
    set_by(alloc, &mut value, 0, 0, &[i64::MAX, 0])?;
    let told = told_by(alloc, &value, &(0, [4, 0]))?;
    Ok(told)
}

/// If the one end passes the range the other is reported, but not of a polyhedron.
#[test]
fn bounds_that_pass(rt: HostRuntime) {
    assert!(rt; four_times::<Boxes>(rt.alloc()) == Ok((Some(0), None)));
    assert!(rt; four_times::<Octagon>(rt.alloc()) == Ok((Some(0), None)));
    assert!(rt; four_times::<Polyhedron>(rt.alloc()) == Ok((None, None)));
}

/// The values of one part, or the lesser and the greater end of two; a part without an end has none for both.
fn two_parts<D: Domain>(alloc: Global, first: &[Numbers; 3]) -> Result<[Told; 2], AllocError> {
    let mut one = D::universe(alloc, 2, 2)?;
    keep_by(alloc, &mut one, first[0].0, &first[0].1)?;
    keep_by(alloc, &mut one, first[1].0, &first[1].1)?;
    let mut two = D::universe(alloc, 2, 2)?;
    keep_by(alloc, &mut two, -5, &[1, 0])?;
    keep_by(alloc, &mut two, 7, &[-1, 0])?;
    one.join(&two)?;
    let ends = told_by(alloc, &one, &(0, [1, 0]))?;
    let turned = told_by(alloc, &one, &(1, [-2, 0]))?;
    Ok([ends, turned])
}

/// 0 <= x <= 1, and 5 <= x <= 7 beside it; x <= 1 and the same.
#[test]
fn bounds_of_sets(rt: HostRuntime) {
    let unit = [(0, [1, 0]), (1, [-1, 0]), (0, [0, 0])];
    let open = [(1, [-1, 0]), (0, [0, 0]), (0, [0, 0])];
    let within = [(Some(0), Some(7)), (Some(-13), Some(1))];
    let beyond = [(None, Some(7)), (Some(-13), None)];
    assert!(rt; two_parts::<PowerSet<Boxes>>(rt.alloc(), &unit) == Ok(within));
    assert!(rt; two_parts::<PowerSet<Boxes>>(rt.alloc(), &open) == Ok(beyond));
    assert!(rt; two_parts::<PowerSet<Polyhedron>>(rt.alloc(), &unit) == Ok(within));
    assert!(rt; two_parts::<PowerSet<Polyhedron>>(rt.alloc(), &open) == Ok(beyond));
}
