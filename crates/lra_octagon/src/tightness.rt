//! What is known without closing: which tests leave a tight octagon as it is, and which changes make a tight one.

ghost use Rattle.std.specs.Prelude.{◌≡◌, ◌≢◌, ◌≤◌, ◌<◌, ◌*◌, ◌^◌, ◌⊎◌, length, unsigned_abs, Bool, Some, IsTrue};
ghost use Rattle.lra_domain.specs.declared.Exactness.TheVariants.{Exact};
ghost use Rattle.lra_octagon.specs.Crates.lra_linear_forms.Form.{Form};
ghost use Rattle.lra_dbm.specs.Cells.{IsMatrix};
ghost use Rattle.lra_octagon.specs.Content.{matrix_view, CellsFit, DimsFit};
ghost use Rattle.lra_octagon.specs.Forms.{ShapeFits, opposite_shape, shape};
ghost use Rattle.lra_octagon.specs.{Least.IsTightOrNone, Tables.Tests, Tables.assignment_of, Unchanged.LowersNothing};
ghost use Rattle.lra_octagon.specs.{Unchanged.ShapeUnchanged, declared.assigning.Assignment.TheVariants.Shift};
ghost use Rattle.lra_octagon.specs.{declared.forms.FormShape.TheVariants.Constant};

use crate::assigning::{Assignment, assignment_of};
use crate::bounds::Bounds;
use crate::form_bounds::shape_of_form;
use crate::forms::FormShape;
use crate::testing::quotient;
use lra_dbm::{Dbm, opposite};
use lra_domain::{Exactness, LinExpr, Test};
use lra_linear_spec::ConKind;

/// The shape of the opposite form.
fn opposite_shape(n: usize, shape: FormShape) -> FormShape
    requires few { n ≤ 2 ^ 30 }
    requires fits { ShapeFits (2 * n) shape }
    ensures shape { result ≡ opposite_shape shape }
    ensures fits { ShapeFits (2 * n) result }
{
    match shape {
        FormShape::Constant => FormShape::Constant,
        FormShape::One(magnitude, i) => FormShape::One(magnitude, opposite(n, i)),
        FormShape::Two(magnitude, i, j) => FormShape::Two(
            magnitude,
            opposite(n, i),
            opposite(n, j),
        ),
        FormShape::Other => FormShape::Other,
    }
}

/// Whether the entry by which `v_i + v_j + q >= 0` is said is as low already.
fn has_bound(n: usize, matrix: &Dbm, i: usize, j: usize, q: i128) -> bool
    requires few { n ≤ 2 ^ 30 }
    requires row { i < 2 * n }
    requires column { j < 2 * n }
    requires dims { matrix.now.dims ≡ n }
    ensures { IsTrue result → LowersNothing n i j q matrix.now.cells }
{
    match matrix.bound(i, opposite(n, j)) {
        None => false,
        Some(bound) => bound <= q,
    }
}

/// Whether the test that a form of this shape and constant isn't negative is known to lower no entry.
fn lowers_nothing(n: usize, matrix: &Dbm, shape: FormShape, constant: i128) -> bool
    requires few { n ≤ 2 ^ 30 }
    requires dims { matrix.now.dims ≡ n }
    requires fits { ShapeFits (2 * n) shape }
    requires constant { unsigned_abs constant ≤ 2 ^ 63 }
    ensures { IsTrue result → (e : Form) → e.constant ≡ constant → ShapeUnchanged n e shape matrix.now.cells }
{
    match shape {
        FormShape::Constant => constant >= 0,
        FormShape::One(magnitude, i) => {
            let least = quotient(constant, magnitude);
            has_bound(n, matrix, i, i, least + least)
        }
        FormShape::Two(magnitude, i, j) => has_bound(
            n,
            matrix,
            i,
            j,
            quotient(constant, magnitude),
        ),
        FormShape::Other => false,
    }
}

/// Whether the test is known to lower no entry.
fn is_met(n: usize, matrix: &Dbm, t: &Test) -> bool
    requires few { n ≤ 2 ^ 30 }
    requires dims { matrix.now.dims ≡ n }
    requires fit { CellsFit n (Some matrix.now.cells) }
    requires tight { IsTightOrNone n (Some matrix.now.cells) }
    requires width { length t.now.expr.coefficients ≡ n }
    ensures { IsTrue result → Tests t.now.kind n t.now.expr (Some matrix.now.cells) (Some matrix.now.cells) }
{
    let shape = shape_of_form(t.expr.coefficients());
    let constant = t.expr.constant() as i128;
    let at_least = lowers_nothing(n, matrix, shape, constant);
    match t.kind {
        ConKind::Ge => at_least,
        ConKind::Eq => at_least && lowers_nothing(n, matrix, opposite_shape(n, shape), -constant),
    }
}

/// Whether the test is known to leave a tight octagon as it is; not if an entry is past half of the range.
pub fn passes_all(n: usize, bounds: &Bounds, t: &Test) -> bool
    requires few { n ≤ 2 ^ 30 }
    requires dims { DimsFit n bounds.now }
    requires fit { CellsFit n (matrix_view bounds.now) }
    requires tight { IsTightOrNone n (matrix_view bounds.now) }
    requires width { length t.now.expr.coefficients ≡ n }
    ensures { IsTrue result →
        Tests t.now.kind n t.now.expr (matrix_view bounds.now) (matrix_view bounds.now) }
{
    match bounds {
        None => true,
        Some(matrix) => is_met(n, matrix, t) && matrix.is_small(),
    }
}

/// Whether a test by the form closes: it has a coefficient other than 0.
pub fn test_closes(e: &LinExpr) -> bool
    requires { length e.now.coefficients < 2 ^ 60 }
    ensures { IsTrue result → shape e.now ≢ Constant }
{
    match shape_of_form(e.coefficients()) {
        FormShape::Constant => false,
        FormShape::One(_, _) | FormShape::Two(_, _, _) | FormShape::Other => true,
    }
}

/// Whether an assignment of the form to `x` closes: it does more than exchange the entries of `x`.
pub fn assignment_closes(x: usize, e: &LinExpr) -> bool
    requires { length e.now.coefficients < 2 ^ 60 }
    ensures { IsTrue result → (flips : Bool) → assignment_of x (shape e.now) ≢ Shift flips }
{
    match assignment_of(x, shape_of_form(e.coefficients())) {
        Assignment::Shift(_) => false,
        Assignment::Equate(_) | Assignment::Bound => true,
    }
}

/// Whether a change is known to make a tight octagon: an exact one does that was made of a tight one, or that closes.
pub fn makes_tight(exactness: Exactness, was_tight: bool, closes: bool) -> bool
    ensures { IsTrue result → (exactness ≡ Exact) × (IsTrue was_tight ⊎ IsTrue closes) }
{
    match exactness {
        Exactness::Exact => was_tight || closes,
        Exactness::Flagged => false,
    }
}
