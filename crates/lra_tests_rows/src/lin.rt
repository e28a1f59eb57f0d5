use lra_linear_forms::{LinExpr, Test};
use lra_systems::ConKind;
use std::alloc::{AllocError, Global};

// The values of 3 + 2x - y at three points.
fn small_values(alloc: Global) -> Result<[Option<i128>; 3], AllocError> {
    let form = LinExpr::new(alloc, 3, &[2, -1])?;
    let again = form.copy(alloc)?;
    Ok([
        again.eval(&[5, 4]),
        again.eval(&[0, 0]),
        again.eval(&[-2, 7]),
    ])
}

// The values of a form of three coefficients at the limits, with and without the second coordinate.
fn great_values(alloc: Global) -> Result<[Option<i128>; 2], AllocError> {
    let wide = LinExpr::new(alloc, 0, &[i64::MIN, i64::MIN, i64::MAX])?;
    let one = wide.eval(&[i64::MIN, 0, 0]);
    let both = wide.eval(&[i64::MIN, i64::MIN, 0]);
    Ok([one, both])
}

/// Values of forms at small stores, and sums at the limits of i64.
#[test]
fn values_of_forms(rt: HostRuntime) {
    assert!(rt; small_values(rt.alloc()) == Ok([Some(9), Some(3), Some(-8)]));
    assert!(rt; great_values(rt.alloc()) == Ok([Some(1i128 << 126), None]));
}

// The constant and the coefficient of what a test's opposite asks, if there is one.
fn opposite_of(
    alloc: Global,
    kind: ConKind,
    constant: i64,
    coefficient: i64,
) -> Result<Option<(i64, i64)>, AllocError> {
    let test = Test {
        expr: LinExpr::new(alloc, constant, &[coefficient])?,
        kind,
    };
    let opposite = test.opposite(alloc)?;
    Ok(opposite.map(|t| (t.expr.constant(), t.expr.coefficients()[0])))
}

/// The opposite of `x - 10 >= 0` is `9 - x >= 0`; there is none of an equality, nor if a coefficient is -2^63.
#[test]
fn opposites(rt: HostRuntime) {
    for (kind, constant, coefficient, want) in [
        (ConKind::Ge, -10, 1, Some((9, -1))),
        (ConKind::Ge, i64::MIN, 3, Some((i64::MAX, -3))),
        (ConKind::Ge, 0, i64::MIN, None),
        (ConKind::Eq, 0, 1, None),
    ] {
        let found = opposite_of(rt.alloc(), kind, constant, coefficient);
        assert!(rt; found == Ok(want), "{constant} {coefficient}");
    }
}
