//! What an octagon says of a form, without memory: its least and its greatest value.

ghost use Rattle.std.specs.Prelude.{◌≡◌, ◌≤◌, ◌<◌, ◌*◌, ◌^◌, length, Some, IfSome};
ghost use Rattle.lra_linear_spec.specs.Range.{InRange};
ghost use Rattle.lra_box.specs.Ends.{IsEnd};
ghost use Rattle.lra_dbm.specs.{Cells.IsMatrix, Cells.entries, Tight.opposite};
ghost use Rattle.lra_octagon.specs.Content.{matrix_view, CellsFit, DimsFit};
ghost use Rattle.lra_octagon.specs.FormBounds.{CellsTell, UnaryTell, above_by, below_by};
ghost use Rattle.lra_octagon.specs.{Forms.ShapeFits, Forms.shape_of, Forms.terms_from, Tables.intervals, Tables.most};

use crate::bounds::Bounds;
use crate::forms::{FormShape, with_coefficient};
use crate::unary::{interval_of, most};
use lra_box::{Side, plus_end};
use lra_dbm::{Dbm, add, opposite};
use lra_domain::LinExpr;

/// The shape of the form with these coefficients.
pub(crate) fn shape_of_form(coefficients: &[i64]) -> FormShape
    requires { length coefficients.now < 2 ^ 60 }
    ensures shape { result ≡ shape_of (terms_from 0 coefficients.now) }
    ensures fits { ShapeFits (2 * length coefficients.now) result }
{
    let mut shape = FormShape::Constant;
    let mut k = 0;
    let mut left = coefficients;
    while let Some((coefficient, later)) = left.split_first() {
        shape = with_coefficient(shape, k, *coefficient as i128);
        k += 1;
        left = later;
    }
    shape
}

/// The constant and a bound, if there is one and that doesn't pass the range.
fn above_by(constant: i128, bound: Option<i128>) -> Option<i128>
    ensures { result ≡ above_by constant bound }
{
    match bound {
        None => None,
        Some(most) => add(constant, most),
    }
}

/// The constant less a bound, if there is one and that doesn't pass the range.
fn below_by(constant: i128, bound: Option<i128>) -> Option<i128>
    requires { IfSome bound InRange }
    ensures { result ≡ below_by constant bound }
{
    match bound {
        None => None,
        Some(most) => add(constant, -most),
    }
}

/// The least or the greatest value of the form over the unary bounds.
fn unary_end(side: Side, n: usize, matrix: &Dbm, e: &LinExpr) -> Option<i128>
    requires few { n ≤ 2 ^ 30 }
    requires dims { matrix.now.dims ≡ n }
    requires is { IsMatrix n matrix.now.cells }
    requires width { length e.now.coefficients ≡ n }
    ensures { IsEnd side e.now (intervals n (entries n matrix.now.cells)) result }
{
    let mut sum = e.constant() as i128;
    let mut k = 0;
    let mut left = e.coefficients();
    while let Some((coefficient, later)) = left.split_first() {
        match plus_end(side, sum, *coefficient as i128, interval_of(n, matrix, k)) {
            None => return None,
            Some(more) => sum = more,
        }
        k += 1;
        left = later;
    }
    Some(sum)
}

/// The least and the greatest value of the form over the unary bounds.
fn unary_ends(n: usize, matrix: &Dbm, e: &LinExpr) -> (Option<i128>, Option<i128>)
    requires few { n ≤ 2 ^ 30 }
    requires dims { matrix.now.dims ≡ n }
    requires is { IsMatrix n matrix.now.cells }
    requires width { length e.now.coefficients ≡ n }
    ensures { UnaryTell n (entries n matrix.now.cells) e.now result.0 result.1 }
{
    let low = unary_end(Side::Low, n, matrix, e);
    let high = unary_end(Side::High, n, matrix, e);
    (low, high)
}

/// The bounds of c + v_i by half of the unary entries of i and its opposite.
fn term_ends(n: usize, matrix: &Dbm, constant: i128, i: usize) -> (Option<i128>, Option<i128>)
    requires few { n ≤ 2 ^ 30 }
    requires row { i < 2 * n }
    requires dims { matrix.now.dims ≡ n }
    requires is { IsMatrix n matrix.now.cells }
    ensures low { result.0 ≡ below_by constant (most (entries n matrix.now.cells) (opposite i)) }
    ensures high { result.1 ≡ above_by constant (most (entries n matrix.now.cells) i) }
{
    let low = below_by(constant, most(n, matrix, opposite(n, i)));
    let high = above_by(constant, most(n, matrix, i));
    (low, high)
}

/// The bounds of c + v_i + v_j by the entries that bound the sum and its opposite.
fn sum_ends(
    n: usize,
    matrix: &Dbm,
    constant: i128,
    i: usize,
    j: usize,
) -> (Option<i128>, Option<i128>)
    requires few { n ≤ 2 ^ 30 }
    requires row { i < 2 * n }
    requires column { j < 2 * n }
    requires dims { matrix.now.dims ≡ n }
    requires is { IsMatrix n matrix.now.cells }
    ensures low { result.0 ≡ below_by constant (entries n matrix.now.cells j (opposite i)) }
    ensures high { result.1 ≡ above_by constant (entries n matrix.now.cells (opposite j) i) }
{
    let low = below_by(constant, matrix.bound(j, opposite(n, i)));
    let high = above_by(constant, matrix.bound(opposite(n, j), i));
    (low, high)
}

/// The least and the greatest value of the form, as the matrix states them.
fn matrix_tells(n: usize, matrix: &Dbm, e: &LinExpr) -> (Option<i128>, Option<i128>)
    requires few { n ≤ 2 ^ 30 }
    requires dims { matrix.now.dims ≡ n }
    requires is { IsMatrix n matrix.now.cells }
    requires width { length e.now.coefficients ≡ n }
    ensures { CellsTell n (Some matrix.now.cells) e.now result.0 result.1 }
{
    let constant = e.constant() as i128;
    match shape_of_form(e.coefficients()) {
        FormShape::One(magnitude, i) if magnitude == 1 => term_ends(n, matrix, constant, i),
        FormShape::Two(magnitude, i, j) if magnitude == 1 => sum_ends(n, matrix, constant, i, j),
        FormShape::Constant | FormShape::One(_, _) | FormShape::Two(_, _, _) | FormShape::Other => {
            unary_ends(n, matrix, e)
        }
    }
}

/// The least and the greatest value of the form, as they are stated.
pub fn bounds_of(n: usize, bounds: &Bounds, e: &LinExpr) -> (Option<i128>, Option<i128>)
    requires few { n ≤ 2 ^ 30 }
    requires dims { DimsFit n bounds.now }
    requires fit { CellsFit n (matrix_view bounds.now) }
    requires width { length e.now.coefficients ≡ n }
    ensures { CellsTell n (matrix_view bounds.now) e.now result.0 result.1 }
{
    match bounds {
        None => (None, None),
        Some(matrix) => matrix_tells(n, matrix, e),
    }
}
