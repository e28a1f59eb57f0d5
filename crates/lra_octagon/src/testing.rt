//! Tests of octagons by linear forms.

ghost use Rattle.std.specs.Prelude.{◌≡◌, ◌≤◌, ◌<◌, ◌*◌, ◌^◌, ℕ, pos, length, unsigned_abs, All, Some, IfOk};
ghost use Rattle.std.specs.{Int.int_div_euclid, Prelude.slice_index_or};
ghost use Rattle.lra_linear_spec.specs.Range.{InRange};
ghost use Rattle.lra_domain.specs.{Abstraction.TransfersTo, Actions.test};
ghost use Rattle.lra_box.specs.Bounds.{form, EndsInRange, full_interval};
ghost use Rattle.lra_dbm.specs.Cells.{IsMatrix, entries};
ghost use Rattle.lra_octagon.specs.Content.{content, matrix_view, CellsFit, DimsFit};
ghost use Rattle.lra_octagon.specs.Tables.{at_least, intervals};
ghost use Rattle.lra_octagon.specs.{Abstraction.octagon_abstraction, Answers.MatrixTestedTo, Closed.ClosedTo};
ghost use Rattle.lra_octagon.specs.{Entering.BoundedTo, Forms.shape, declared.forms.FormShape.TheVariants.Other};

use crate::bounds::Bounds;
use crate::closing::bound_and_close;
use crate::forms::{FormShape, classify};
use crate::unary::{close_within, intervals_of, some_crossed};
use lra_box::{Interval, opposite_row, refine_all, wide_row};
use lra_dbm::Dbm;
use lra_domain::{Exactness, Test, worse};
use lra_linear_spec::ConKind;
use std::alloc::{AllocError, Global};

/// The quotient, rounded down.
pub(crate) fn quotient(constant: i128, magnitude: u128) -> i128
    requires some { 0 < magnitude }
    requires magnitude { magnitude < 2 ^ 127 }
    requires constant { unsigned_abs constant ≤ 2 ^ 63 }
    ensures value { result ≡ int_div_euclid constant (pos magnitude) }
    ensures range { unsigned_abs result ≤ 2 ^ 63 }
{
    constant.div_euclid(magnitude as i128)
}

/// The matrix with `v_i + v_j + q >= 0` entered, closed.
fn test_pair(
    alloc: Global,
    n: usize,
    matrix: &Dbm,
    i: usize,
    j: usize,
    q: i128,
) -> Result<(Bounds, Exactness), AllocError>
    requires few { n ≤ 2 ^ 30 }
    requires row { i < 2 * n }
    requires column { j < 2 * n }
    requires range { InRange q }
    requires dims { matrix.now.dims ≡ n }
    ensures dims { IfOk result (λ r. DimsFit n r.0) }
    ensures closed { IfOk result (λ r. ClosedTo n (at_least i j q matrix.now.cells) (matrix_view r.0) r.1) }
{
    let copy = matrix.copy(alloc)?;
    let tested = bound_and_close(n, copy, i, j, q);
    Ok(tested)
}

/// The matrix with the variables in these intervals, closed.
fn test_intervals(
    alloc: Global,
    n: usize,
    matrix: &Dbm,
    intervals: &[Interval],
) -> Result<(Bounds, Exactness), AllocError>
    requires few { n ≤ 2 ^ 30 }
    requires width { length intervals.now ≡ n }
    requires ends { (k : ℕ) → EndsInRange (slice_index_or intervals.now k full_interval) }
    requires dims { matrix.now.dims ≡ n }
    requires is { IsMatrix n matrix.now.cells }
    ensures dims { IfOk result (λ r. DimsFit n r.0) }
    ensures bounded { IfOk result
        (λ r. BoundedTo n intervals.now matrix.now.cells (matrix_view r.0) r.1) }
{
    let copy = matrix.copy(alloc)?;
    let tested = close_within(n, copy, intervals);
    Ok(tested)
}

/// Refines the unary bounds by `constant + factors >= 0`, enters them, and closes.
fn test_refined(
    alloc: Global,
    n: usize,
    matrix: &Dbm,
    unary: &mut [Interval],
    constant: i128,
    factors: &mut [i128],
) -> Result<(Bounds, Exactness), AllocError>
    requires few { n ≤ 2 ^ 30 }
    requires dims { matrix.now.dims ≡ n }
    requires is { IsMatrix n matrix.now.cells }
    requires unary { unary.old ≡ intervals n (entries n matrix.now.cells) }
    requires width { length factors.old ≡ n }
    requires constant { InRange constant }
    requires range { All InRange factors.old }
    requires other { shape (form constant factors.old) ≡ Other }
    ensures dims { IfOk result (λ r. DimsFit n r.0) }
    ensures tested { IfOk result (λ r. let e = form constant factors.old in
        MatrixTestedTo n e Other (Some matrix.now.cells) (matrix_view r.0) r.1) }
{
    if some_crossed(unary) {
        return Ok((None, Exactness::Exact));
    }
    let refined = refine_all(unary, constant, factors);
    if refined.is_crossed {
        return Ok((None, refined.exactness));
    }
    let (closed, exactness) = test_intervals(alloc, n, matrix, unary)?;
    Ok((closed, worse(refined.exactness, exactness)))
}

/// Tests a matrix by `constant + factors >= 0`, by way of the unary bounds.
fn test_other(
    alloc: Global,
    n: usize,
    matrix: &Dbm,
    constant: i128,
    factors: &mut [i128],
) -> Result<(Bounds, Exactness), AllocError>
    requires few { n ≤ 2 ^ 30 }
    requires dims { matrix.now.dims ≡ n }
    requires is { IsMatrix n matrix.now.cells }
    requires width { length factors.old ≡ n }
    requires constant { InRange constant }
    requires range { All InRange factors.old }
    requires other { shape (form constant factors.old) ≡ Other }
    ensures dims { IfOk result (λ r. DimsFit n r.0) }
    ensures tested { IfOk result (λ r. let e = form constant factors.old in
        MatrixTestedTo n e Other (Some matrix.now.cells) (matrix_view r.0) r.1) }
{
    let mut intervals = intervals_of(alloc, n, matrix)?;
    let tested = test_refined(
        alloc,
        n,
        matrix,
        intervals.as_mut_slice(),
        constant,
        factors,
    )?;
    Ok(tested)
}

/// Tests a matrix by `constant + factors >= 0`.
fn test_matrix(
    alloc: Global,
    n: usize,
    matrix: &Dbm,
    constant: i128,
    factors: &mut [i128],
) -> Result<(Bounds, Exactness), AllocError>
    requires few { n ≤ 2 ^ 30 }
    requires dims { matrix.now.dims ≡ n }
    requires fit { CellsFit n (Some matrix.now.cells) }
    requires width { length factors.old ≡ n }
    requires constant { unsigned_abs constant ≤ 2 ^ 63 }
    requires range { All InRange factors.old }
    ensures dims { IfOk result (λ r. DimsFit n r.0) }
    ensures tested { IfOk result (λ r. let e = form constant factors.old in
        MatrixTestedTo n e (shape e) (Some matrix.now.cells) (matrix_view r.0) r.1) }
{
    match classify(factors) {
        FormShape::Constant => {
            if constant < 0 {
                return Ok((None, Exactness::Exact));
            }
            let copy = matrix.copy(alloc)?;
            Ok((Some(copy), Exactness::Exact))
        }
        FormShape::One(magnitude, i) => {
            let least = quotient(constant, magnitude);
            let tested = test_pair(alloc, n, matrix, i, i, least + least)?;
            Ok(tested)
        }
        FormShape::Two(magnitude, i, j) => {
            let least = quotient(constant, magnitude);
            let tested = test_pair(alloc, n, matrix, i, j, least)?;
            Ok(tested)
        }
        FormShape::Other => {
            let tested = test_other(alloc, n, matrix, constant, factors)?;
            Ok(tested)
        }
    }
}

/// Tests by `constant + factors >= 0`.
fn test_ge(
    alloc: Global,
    n: usize,
    bounds: &Bounds,
    constant: i128,
    factors: &mut [i128],
) -> Result<(Bounds, Exactness), AllocError>
    requires few { n ≤ 2 ^ 30 }
    requires dims { DimsFit n bounds.now }
    requires fit { CellsFit n (matrix_view bounds.now) }
    requires width { length factors.old ≡ n }
    requires constant { unsigned_abs constant ≤ 2 ^ 63 }
    requires range { All InRange factors.old }
    ensures dims { IfOk result (λ r. DimsFit n r.0) }
    ensures tested { IfOk result (λ r. let e = form constant factors.old in
        MatrixTestedTo n e (shape e) (matrix_view bounds.now) (matrix_view r.0) r.1) }
{
    match bounds {
        None => Ok((None, Exactness::Exact)),
        Some(matrix) => {
            let tested = test_matrix(alloc, n, matrix, constant, factors)?;
            Ok(tested)
        }
    }
}

/// Tests by `e = 0`: by `e >= 0`, then by `-e >= 0`.
fn test_eq(
    alloc: Global,
    n: usize,
    bounds: &Bounds,
    t: &Test,
) -> Result<(Bounds, Exactness), AllocError>
    requires few { n ≤ 2 ^ 30 }
    requires dims { DimsFit n bounds.now }
    requires fit { CellsFit n (matrix_view bounds.now) }
    requires width { length t.now.expr.coefficients ≡ n }
    ensures dims { IfOk result (λ r. DimsFit n r.0) }
    ensures fit { IfOk result (λ r. CellsFit n (matrix_view r.0)) }
    ensures meets { IfOk result (λ r. TransfersTo octagon_abstraction (test ConKind.Eq t.now.expr)
        (content n (matrix_view bounds.now)) r.1 (content n (matrix_view r.0))) }
{
    let constant = t.expr.constant() as i128;
    let mut factors = wide_row(alloc, &t.expr)?;
    let mut opposite = opposite_row(alloc, &t.expr)?;
    let (between, one) = test_ge(alloc, n, bounds, constant, factors.as_mut_slice())?;
    let (tested, two) = test_ge(alloc, n, &between, -constant, opposite.as_mut_slice())?;
    Ok((tested, worse(one, two)))
}

/// The octagon's stores that pass the test.
pub fn test_in(
    alloc: Global,
    n: usize,
    bounds: &Bounds,
    t: &Test,
) -> Result<(Bounds, Exactness), AllocError>
    requires few { n ≤ 2 ^ 30 }
    requires dims { DimsFit n bounds.now }
    requires fit { CellsFit n (matrix_view bounds.now) }
    requires width { length t.now.expr.coefficients ≡ n }
    ensures dims { IfOk result (λ r. DimsFit n r.0) }
    ensures fit { IfOk result (λ r. CellsFit n (matrix_view r.0)) }
    ensures meets { IfOk result (λ r. TransfersTo octagon_abstraction (test t.now.kind t.now.expr)
        (content n (matrix_view bounds.now)) r.1 (content n (matrix_view r.0))) }
{
    match t.kind {
        ConKind::Ge => {
            let constant = t.expr.constant() as i128;
            let mut factors = wide_row(alloc, &t.expr)?;
            let tested = test_ge(alloc, n, bounds, constant, factors.as_mut_slice())?;
            Ok(tested)
        }
        ConKind::Eq => {
            let tested = test_eq(alloc, n, bounds, t)?;
            Ok(tested)
        }
    }
}
