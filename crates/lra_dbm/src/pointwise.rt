//! Two matrices of the same variables, cell by cell.

ghost use Rattle.std.specs.Prelude.{◌≡◌, ◌≤◌, ◌^◌, ◌*◌, ◌↔◌, ℕ, pos, Some, length, IsTrue, IfOk};
ghost use Rattle.lra_dbm.specs.Pointwise.{greater_cells, stable_cells, AreSmall, CellsWithin, IsSmall, finite_cells};
ghost use Rattle.lra_dbm.specs.{Cells.size, Cells.entries, Cells.IsMatrix, Closure.LeastJoin};

use lra_domain::bounds::{count_bound, is_at_most, join_highs, widen_highs};
use std::alloc::{AllocError, Global};

/// The greater of both, cell by cell.
fn greater_all(
    alloc: Global,
    left: &[Option<i128>],
    right: &[Option<i128>],
) -> Result<Vec<Option<i128>>, AllocError>
    requires { length left.now ≡ length right.now }
    ensures { IfOk result (λ all. all.items ≡ greater_cells left.now right.now) }
{
    let mut all = Vec::new(alloc);
    let mut ours = left;
    let mut theirs = right;
    while let (Some((one, ours_left)), Some((two, theirs_left))) = (
        ours.split_first(),
        theirs.split_first(),
    ) {
        all.push(join_highs(*one, *two))?;
        ours = ours_left;
        theirs = theirs_left;
    }
    Ok(all)
}

/// The cells of the first at which the second's is at most as great; the others infinite.
fn stable_all(
    alloc: Global,
    left: &[Option<i128>],
    right: &[Option<i128>],
) -> Result<Vec<Option<i128>>, AllocError>
    requires { length left.now ≡ length right.now }
    ensures { IfOk result (λ all. all.items ≡ stable_cells left.now right.now) }
{
    let mut all = Vec::new(alloc);
    let mut ours = left;
    let mut theirs = right;
    while let (Some((one, ours_left)), Some((two, theirs_left))) = (
        ours.split_first(),
        theirs.split_first(),
    ) {
        all.push(widen_highs(*one, *two))?;
        ours = ours_left;
        theirs = theirs_left;
    }
    Ok(all)
}

/// Whether each cell of the first is at most that of the second.
pub fn all_within(left: &[Option<i128>], right: &[Option<i128>]) -> bool
    requires { length left.now ≡ length right.now }
    ensures { IsTrue result ↔ CellsWithin left.now right.now }
{
    let mut ours = left;
    let mut theirs = right;
    while let (Some((one, ours_left)), Some((two, theirs_left))) = (
        ours.split_first(),
        theirs.split_first(),
    ) {
        if !is_at_most(*one, *two) {
            return false;
        }
        ours = ours_left;
        theirs = theirs_left;
    }
    true
}

/// How many cells are finite.
fn count_all(cells: &[Option<i128>]) -> u64
    requires { length cells.now ≤ 2 ^ 62 }
    ensures { result ≡ finite_cells cells.now }
{
    let mut count = 0;
    for cell in cells {
        count += count_bound(*cell);
    }
    count
}

#[tactic(auto, using(crate::proofs::PointwiseLemmas::greater_matrix, crate::proofs::PointwiseLemmas::joins_least))]
/// The join of two matrices.
pub fn join_cells(
    alloc: Global,
    n: usize,
    left: &[Option<i128>],
    right: &[Option<i128>],
) -> Result<Vec<Option<i128>>, AllocError>
    requires left { IsMatrix n left.now }
    requires right { IsMatrix n right.now }
    ensures joined { IfOk result (λ all. all.items ≡ greater_cells left.now right.now) }
    ensures is { IfOk result (λ all. IsMatrix n all.items) }
    ensures least { IfOk result (λ all. LeastJoin n (entries n left.now) (entries n right.now) (entries n all.items)) }
{
    let all = greater_all(alloc, left, right)?;
    Ok(all)
}

#[tactic(auto, using(crate::proofs::PointwiseLemmas::stable_matrix))]
/// The first matrix widened by the second.
pub fn widen_cells(
    alloc: Global,
    n: usize,
    left: &[Option<i128>],
    right: &[Option<i128>],
) -> Result<Vec<Option<i128>>, AllocError>
    requires left { IsMatrix n left.now }
    requires right { IsMatrix n right.now }
    requires diagonal { (i : ℕ) → entries n left.now i i ≡ Some (pos 0) }
    ensures widened { IfOk result (λ all. all.items ≡ stable_cells left.now right.now) }
    ensures is { IfOk result (λ all. IsMatrix n all.items) }
{
    stable_all(alloc, left, right)
}

#[tactic(auto, using(crate::proofs::PointwiseLemmas::finite_at_most))]
/// How many cells of a matrix are finite.
pub fn count_cells(n: usize, cells: &[Option<i128>]) -> u64
    requires few { n ≤ 2 ^ 30 }
    requires is { IsMatrix n cells.now }
    ensures count { result ≡ finite_cells cells.now }
    ensures most { result ≤ size n }
{
    count_all(cells)
}

/// Whether the entry, if it is finite, is within half of the range.
fn is_small(entry: Option<i128>) -> bool
    ensures { IsTrue result ↔ IsSmall entry }
{
    match entry {
        None => true,
        Some(number) => number.unsigned_abs() < 1 << 126,
    }
}

/// Whether each is.
pub fn are_small(cells: &[Option<i128>]) -> bool
    ensures { IsTrue result ↔ AreSmall cells.now }
{
    let mut left = cells;
    while let Some((cell, later)) = left.split_first() {
        if !is_small(*cell) {
            return false;
        }
        left = later;
    }
    true
}
