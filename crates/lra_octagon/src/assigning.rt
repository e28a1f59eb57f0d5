//! Assignments of linear forms to a variable of an octagon.

ghost use Rattle.std.specs.Prelude.{◌≡◌, ◌≤◌, ◌<◌, ◌^◌, length, unsigned_abs, All, Some, IfOk};
ghost use Rattle.lra_linear_spec.specs.Range.{InRange};
ghost use Rattle.lra_domain.specs.{Abstraction.TransfersTo, Actions.assign};
ghost use Rattle.lra_box.specs.Bounds.{form, EndsInRange};
ghost use Rattle.lra_dbm.specs.Cells.{IsMatrix};
ghost use Rattle.lra_octagon.specs.Content.{content, matrix_view, CellsFit, DimsFit};
ghost use Rattle.lra_octagon.specs.{Abstraction.octagon_abstraction, Answers.MatrixAssignedTo, Answers.ConfinedTo};
ghost use Rattle.lra_octagon.specs.{Forms.shape, Tables.assignment_of, declared.assigning.Assignment.TheVariants.Bound};

use crate::bounds::Bounds;
use crate::closing::{equate_and_close, free};
use crate::forms::{FormShape, classify};
use crate::unary::{close_within, intervals_of};
use lra_box::{Interval, Side, sum_end, wide_row};
use lra_dbm::Dbm;
use lra_domain::{Exactness, LinExpr, worse};
use std::alloc::{AllocError, Global};

/// What an assignment to `x` does: `x` becomes another variable's signed variable plus the constant, or itself plus the
/// constant, or if it flips its opposite plus the constant; or it gets the bounds of the form over the unary bounds.
#[derive(Clone, Copy, Debug, PartialEq, Eq)]
pub enum Assignment {
    Equate(usize),
    Shift(bool),
    Bound,
}

/// What an assignment of a form of this shape does.
pub(crate) fn assignment_of(x: usize, shape: FormShape) -> Assignment
    ensures { result ≡ assignment_of x shape }
{
    match shape {
        FormShape::Constant => Assignment::Bound,
        FormShape::One(magnitude, i) => {
            if magnitude != 1 {
                Assignment::Bound
            } else if i / 2 == x {
                Assignment::Shift(i % 2 == 1)
            } else {
                Assignment::Equate(i)
            }
        }
        FormShape::Two(_, _, _) => Assignment::Bound,
        FormShape::Other => Assignment::Bound,
    }
}

#[tactic(auto, using(crate::proofs::AssignLemmas::alone_ends))]
/// Forgets `x`, enters that it lies in the interval, and closes.
fn confine(
    alloc: Global,
    n: usize,
    matrix: &Dbm,
    x: usize,
    ends: Interval,
) -> Result<(Bounds, Exactness), AllocError>
    requires few { n ≤ 2 ^ 30 }
    requires place { x < n }
    requires dims { matrix.now.dims ≡ n }
    requires ends { EndsInRange ends }
    ensures dims { IfOk result (λ r. DimsFit n r.0) }
    ensures confined { IfOk result
        (λ r. ConfinedTo n x ends matrix.now.cells (matrix_view r.0) r.1) }
{
    let mut freed = matrix.copy(alloc)?;
    free(n, &mut freed, x);
    let open = Interval {
        low: None,
        high: None,
    };
    let mut alone = vec![in alloc; open; n]?;
    alone[x] = ends;
    let confined = close_within(n, freed, alone.as_slice());
    Ok(confined)
}

#[tactic(auto, using(crate::proofs::AssignLemmas::assigned_bound))]
/// Gives `x` the bounds of the form over the unary bounds.
fn assign_ends(
    alloc: Global,
    n: usize,
    matrix: &Dbm,
    x: usize,
    constant: i128,
    factors: &[i128],
) -> Result<(Bounds, Exactness), AllocError>
    requires few { n ≤ 2 ^ 30 }
    requires place { x < n }
    requires dims { matrix.now.dims ≡ n }
    requires is { IsMatrix n matrix.now.cells }
    requires width { length factors.now ≡ n }
    requires constant { unsigned_abs constant ≤ 2 ^ 63 }
    ensures dims { IfOk result (λ r. DimsFit n r.0) }
    ensures assigned { IfOk result (λ r.
        MatrixAssignedTo n x (form constant factors.now) Bound matrix.now.cells (matrix_view r.0)
        r.1) }
{
    let intervals = intervals_of(alloc, n, matrix)?;
    let low = sum_end(Side::Low, constant, factors, intervals.as_slice());
    let high = sum_end(Side::High, constant, factors, intervals.as_slice());
    let ends = Interval {
        low: low.value,
        high: high.value,
    };
    let (confined, exactness) = confine(alloc, n, matrix, x, ends)?;
    Ok((
        confined,
        worse(worse(low.exactness, high.exactness), exactness),
    ))
}

/// Assigns `constant + factors` to `x`.
fn assign_matrix(
    alloc: Global,
    n: usize,
    matrix: &Dbm,
    x: usize,
    constant: i128,
    factors: &[i128],
) -> Result<(Bounds, Exactness), AllocError>
    requires few { n ≤ 2 ^ 30 }
    requires place { x < n }
    requires dims { matrix.now.dims ≡ n }
    requires fit { CellsFit n (Some matrix.now.cells) }
    requires width { length factors.now ≡ n }
    requires constant { unsigned_abs constant ≤ 2 ^ 63 }
    requires range { All InRange factors.now }
    ensures dims { IfOk result (λ r. DimsFit n r.0) }
    ensures assigned { IfOk result (λ r. let e = form constant factors.now in
        MatrixAssignedTo n x e (assignment_of x (shape e)) matrix.now.cells (matrix_view r.0) r.1) }
{
    match assignment_of(x, classify(factors)) {
        Assignment::Equate(i) => {
            let copy = matrix.copy(alloc)?;
            let assigned = equate_and_close(n, copy, x, i, constant);
            Ok(assigned)
        }
        Assignment::Shift(flips) => {
            let (shifted, exactness) = matrix.shift(alloc, x, flips, constant)?;
            Ok((Some(shifted), exactness))
        }
        Assignment::Bound => {
            let assigned = assign_ends(alloc, n, matrix, x, constant, factors)?;
            Ok(assigned)
        }
    }
}

#[tactic(auto, using(crate::proofs::AssignLemmas::meets_nothing))]
/// The octagon where `x` has the form's value.
pub fn assign_in(
    alloc: Global,
    n: usize,
    bounds: &Bounds,
    x: usize,
    e: &LinExpr,
) -> Result<(Bounds, Exactness), AllocError>
    requires few { n ≤ 2 ^ 30 }
    requires place { x < n }
    requires dims { DimsFit n bounds.now }
    requires fit { CellsFit n (matrix_view bounds.now) }
    requires width { length e.now.coefficients ≡ n }
    ensures dims { IfOk result (λ r. DimsFit n r.0) }
    ensures fit { IfOk result (λ r. CellsFit n (matrix_view r.0)) }
    ensures meets { IfOk result (λ r. TransfersTo octagon_abstraction (assign x e.now)
        (content n (matrix_view bounds.now)) r.1 (content n (matrix_view r.0))) }
{
    match bounds {
        None => Ok((None, Exactness::Exact)),
        Some(matrix) => {
            let factors = wide_row(alloc, e)?;
            let constant = e.constant() as i128;
            let assigned = assign_matrix(alloc, n, matrix, x, constant, factors.as_slice())?;
            Ok(assigned)
        }
    }
}
