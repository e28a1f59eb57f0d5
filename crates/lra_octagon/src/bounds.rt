//! The matrix of an octagon, or none if it is empty.

ghost use Rattle.std.specs.Prelude.{◌≡◌, ◌≤◌, ◌<◌, ◌+◌, ◌-◌, ◌^◌, ◌↔◌, None, Some, ℕ, IsTrue, IfOk, OnOk, OnErr};
ghost use Rattle.lra_domain.specs.{Abstraction.Values, declared.Mode.Mode};
ghost use Rattle.lra_dbm.specs.Cells.{DbmContent as Matrix, IsMatrix, entries, forgotten, first_entries};
ghost use Rattle.lra_octagon.specs.Content.{matrix_view, CellsFit, DimsFit, IsTopMatrix, MatrixWithin, content};
ghost use Rattle.lra_octagon.specs.Heads.{joined_cells, widened_cells, grown_cells, octagon_rank_number};
ghost use Rattle.lra_octagon.specs.{Abstraction.octagon_abstraction, Closed.ClosedTo, Tables.Becomes};

use lra_dbm::{Closing, Dbm};
use lra_domain::{Exactness, Mode, Rank};
use std::alloc::{AllocError, Global};

/// The matrix of an octagon, or none if it is empty.
pub type Bounds = Option<Dbm>;

#[tactic(auto, using(crate::proofs::FitLemmas::whole_fits))]
/// The matrix without bounds.
pub fn universe(alloc: Global, n: usize) -> Result<Dbm, AllocError>
    requires { n ≤ 2 ^ 30 }
    ensures dims { IfOk result (λ m. m.dims ≡ n) }
    ensures whole { IfOk result (λ m. IsTopMatrix n (Some m.cells)) }
    ensures fit { IfOk result (λ m. CellsFit n (Some m.cells)) }
{
    let matrix = Dbm::new(alloc, n)?;
    Ok(matrix)
}

/// A copy of the bounds.
pub fn copy_bounds(alloc: Global, bounds: &Bounds) -> Result<Bounds, AllocError>
    ensures { IfOk result (λ b. b ≡ bounds.now) }
{
    match bounds {
        None => Ok(None),
        Some(matrix) => Ok(Some(matrix.copy(alloc)?)),
    }
}

/// Whether the first lies in the second, entry by entry.
pub fn is_within(n: usize, one: &Bounds, two: &Bounds) -> bool
    requires one { DimsFit n one.now }
    requires two { DimsFit n two.now }
    ensures { IsTrue result ↔ MatrixWithin (matrix_view one.now) (matrix_view two.now) }
{
    match (one, two) {
        (None, _) => true,
        (Some(_), None) => false,
        (Some(ours), Some(theirs)) => ours.is_within(theirs),
    }
}

#[tactic(auto, using(crate::proofs::FitLemmas::bounds_both, crate::proofs::FitLemmas::equal_bounds))]
/// Whether the two are equal: each lies in the other.
pub fn is_same(n: usize, one: &Bounds, two: &Bounds) -> bool
    requires one { DimsFit n one.now }
    requires two { DimsFit n two.now }
    ensures { IsTrue result ↔ (matrix_view one.now ≡ matrix_view two.now) }
{
    is_within(n, one, two) && is_within(n, two, one)
}

/// The entries of `x` become infinite.
pub fn forget_in(n: usize, bounds: &mut Bounds, x: usize)
    requires place { x < n }
    requires dims { DimsFit n bounds.old }
    requires fit { CellsFit n (matrix_view bounds.old) }
    ensures dims { DimsFit n bounds.new }
    ensures fit { CellsFit n (matrix_view bounds.new) }
    ensures becomes { Becomes n (forgotten x) n (matrix_view bounds.old) (matrix_view bounds.new) }
{
    if let Some(matrix) = bounds {
        matrix.forget(x);
    }
}

/// `k` variables without bounds come last.
pub fn embed_in(n: usize, bounds: &mut Bounds, k: usize) -> Result<(), AllocError>
    requires few { n + k ≤ 2 ^ 30 }
    requires dims { DimsFit n bounds.old }
    requires fit { CellsFit n (matrix_view bounds.old) }
    ensures dims { OnOk result (DimsFit (n + k) bounds.new) }
    ensures fit { OnOk result (CellsFit (n + k) (matrix_view bounds.new)) }
    ensures becomes { OnOk result
        (Becomes (n + k) (λ m. m) n (matrix_view bounds.old) (matrix_view bounds.new)) }
    ensures err { OnErr result (bounds.new ≡ bounds.old) }
{
    match bounds {
        None => Ok(()),
        Some(matrix) => matrix.embed(k),
    }
}

/// The last `k` variables go.
pub fn remove_in(n: usize, bounds: &mut Bounds, k: usize)
    requires some { k ≤ n }
    requires dims { DimsFit n bounds.old }
    requires fit { CellsFit n (matrix_view bounds.old) }
    ensures dims { DimsFit (n - k) bounds.new }
    ensures fit { CellsFit (n - k) (matrix_view bounds.new) }
    ensures becomes { Becomes (n - k) (first_entries (n - k)) n (matrix_view bounds.old) (matrix_view bounds.new) }
{
    if let Some(matrix) = bounds {
        matrix.remove_last(k);
    }
}

/// The entries that are the greater of both.
pub fn join_bounds(
    alloc: Global,
    n: usize,
    one: &Bounds,
    two: &Bounds,
) -> Result<Bounds, AllocError>
    requires one { DimsFit n one.now }
    requires two { DimsFit n two.now }
    ensures dims { IfOk result (λ b. DimsFit n b) }
    ensures joined { IfOk result
        (λ b. matrix_view b ≡ joined_cells (matrix_view one.now) (matrix_view two.now)) }
{
    match (one, two) {
        (None, other) => copy_bounds(alloc, other),
        (Some(ours), None) => Ok(Some(ours.copy(alloc)?)),
        (Some(ours), Some(theirs)) => Ok(Some(ours.join(theirs, alloc)?)),
    }
}

/// The entries of the first that the second keeps.
fn widen_bounds(alloc: Global, n: usize, one: &Bounds, two: &Bounds) -> Result<Bounds, AllocError>
    requires one { DimsFit n one.now }
    requires two { DimsFit n two.now }
    requires fit { CellsFit n (matrix_view one.now) }
    ensures dims { IfOk result (λ b. DimsFit n b) }
    ensures widened { IfOk result
        (λ b. matrix_view b ≡ widened_cells (matrix_view one.now) (matrix_view two.now)) }
{
    match (one, two) {
        (None, other) => copy_bounds(alloc, other),
        (Some(ours), None) => Ok(Some(ours.copy(alloc)?)),
        (Some(ours), Some(theirs)) => Ok(Some(ours.widen(theirs, alloc)?)),
    }
}

/// The join of the two, or the first widened by the second.
pub fn grow_bounds(
    alloc: Global,
    n: usize,
    one: &Bounds,
    two: &Bounds,
    mode: Mode,
) -> Result<Bounds, AllocError>
    requires one { DimsFit n one.now }
    requires two { DimsFit n two.now }
    requires fit { CellsFit n (matrix_view one.now) }
    ensures dims { IfOk result (λ b. DimsFit n b) }
    ensures grown { IfOk result
        (λ b. matrix_view b ≡ grown_cells mode (matrix_view one.now) (matrix_view two.now)) }
{
    match mode {
        Mode::Join => join_bounds(alloc, n, one, two),
        Mode::Widen | Mode::Limited | Mode::Tightest => widen_bounds(alloc, n, one, two),
    }
}

/// 1, 0, 0, and how many entries are finite; one more than the most there can be if there is no matrix.
pub fn octagon_rank(n: usize, bounds: &Bounds) -> Rank
    requires few { n ≤ 2 ^ 30 }
    requires dims { DimsFit n bounds.now }
    ensures { result ≡ record {
      first = 1;
      second = 0;
      third = 0;
      fourth =
          octagon_rank_number n (matrix_view bounds.now);
    } }
{
    let fourth = match bounds {
        None => 2 * n as u64 * (n as u64 + 1) + 1,
        Some(matrix) => matrix.count(),
    };
    Rank {
        first: 1,
        second: 0,
        third: 0,
        fourth,
    }
}

#[tactic(auto, using(crate::proofs::ClosedLemmas::closed_empty, crate::proofs::ClosedLemmas::closed_tight))]
/// Closes a matrix.
pub fn close(n: usize, matrix: Dbm) -> (Bounds, Exactness)
    requires dims { matrix.dims ≡ n }
    requires is { IsMatrix n matrix.cells }
    ensures dims { DimsFit n result.0 }
    ensures closed { ClosedTo n matrix.cells (matrix_view result.0) result.1 }
{
    let mut closed = matrix;
    let (closing, exactness) = closed.close();
    match closing {
        Closing::Closed => (Some(closed), exactness),
        Closing::Empty => (None, exactness),
    }
}

#[tactic(auto, using(crate::proofs::TransferLemmas::closed_value, crate::proofs::TransferLemmas::no_value))]
/// The closure of a head's matrix.
pub fn copy_closed(
    alloc: Global,
    n: usize,
    bounds: &Bounds,
) -> Result<(Bounds, Exactness), AllocError>
    requires dims { DimsFit n bounds.now }
    requires fit { CellsFit n (matrix_view bounds.now) }
    ensures dims { IfOk result (λ r. DimsFit n r.0) }
    ensures fit { IfOk result (λ r. CellsFit n (matrix_view r.0)) }
    ensures values { IfOk result (λ r.
        Values octagon_abstraction (content n (matrix_view bounds.now)) r.1
        (content n (matrix_view r.0))) }
{
    match bounds {
        None => Ok((None, Exactness::Exact)),
        Some(matrix) => {
            let copy = matrix.copy(alloc)?;
            let closed = close(n, copy);
            Ok(closed)
        }
    }
}
