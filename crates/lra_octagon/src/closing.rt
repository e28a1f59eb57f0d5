//! Bounds that are entered into the matrix of an octagon, which is then closed.

ghost use Rattle.std.specs.Prelude.{◌≡◌, ◌≢◌, ◌≤◌, ◌<◌, ◌*◌, ◌/◌, ◌^◌, neg_ℤ};
ghost use Rattle.lra_linear_spec.specs.Range.{InRange};
ghost use Rattle.lra_dbm.specs.Cells.{IsMatrix};
ghost use Rattle.lra_octagon.specs.Closed.{ClosedTo, Equates, EquatedTo};
ghost use Rattle.lra_octagon.specs.{Content.matrix_view, Content.DimsFit, Tables.at_least, Tables.Forgets};

use crate::bounds::{Bounds, close};
use lra_dbm::{Dbm, opposite};
use lra_domain::Exactness;

#[tactic(auto, using(crate::proofs::EnterLemmas::forgets_of))]
/// The entries of `x` become infinite.
pub fn free(n: usize, matrix: &mut Dbm, x: usize)
    requires place { x < n }
    requires dims { matrix.old.dims ≡ n }
    ensures dims { matrix.new.dims ≡ n }
    ensures forgets { Forgets n x matrix.old.cells matrix.new.cells }
{
    matrix.forget(x);
}

#[tactic(auto, using(crate::proofs::EnterLemmas::equates_of))]
/// Makes `x` equal to `v_i + c`: its entries become infinite, then the two bounds that say so are entered.
fn equate(n: usize, matrix: &mut Dbm, x: usize, i: usize, c: i128)
    requires few { n ≤ 2 ^ 30 }
    requires place { x < n }
    requires row { i < 2 * n }
    requires range { InRange c }
    requires dims { matrix.old.dims ≡ n }
    ensures dims { matrix.new.dims ≡ n }
    ensures is { IsMatrix n matrix.new.cells }
    ensures equated { Equates n x i c matrix.old.cells matrix.new.cells }
{
    free(n, matrix, x);
    matrix.enter(i, 2 * x, c);
    matrix.enter(2 * x, i, -c);
}

#[tactic(auto, using(crate::proofs::EnterLemmas::equated_to))]
/// Makes `x` equal to `v_i + c`, and closes.
pub fn equate_and_close(n: usize, matrix: Dbm, x: usize, i: usize, c: i128) -> (Bounds, Exactness)
    requires few { n ≤ 2 ^ 30 }
    requires place { x < n }
    requires row { i < 2 * n }
    requires range { InRange c }
    requires dims { matrix.dims ≡ n }
    ensures dims { DimsFit n result.0 }
    ensures equated { EquatedTo n x i c matrix.cells (matrix_view result.0) result.1 }
{
    let mut entered = matrix;
    equate(n, &mut entered, x, i, c);
    close(n, entered)
}

/// Enters `v_i + v_j + q >= 0`, and closes.
pub fn bound_and_close(n: usize, matrix: Dbm, i: usize, j: usize, q: i128) -> (Bounds, Exactness)
    requires few { n ≤ 2 ^ 30 }
    requires row { i < 2 * n }
    requires column { j < 2 * n }
    requires range { InRange q }
    requires dims { matrix.dims ≡ n }
    ensures dims { DimsFit n result.0 }
    ensures closed { ClosedTo n (at_least i j q matrix.cells) (matrix_view result.0) result.1 }
{
    let mut entered = matrix;
    entered.enter(i, opposite(n, j), q);
    close(n, entered)
}
