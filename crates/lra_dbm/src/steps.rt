//! The numbered steps of closing. Each gives whether a number passed the range so far.

ghost use Rattle.std.specs.Prelude.{◌≡◌, ◌≤◌, ◌<◌, ◌^◌, ◌*◌, false, length};
ghost use Rattle.lra_dbm.specs.Steps.{progress, relaxed, row_relaxed, pivot_relaxed, relaxed_unless_negative, shortest};
ghost use Rattle.lra_dbm.specs.Steps.{negative_diagonal, rounded, all_rounded, crossed, crossing_passes};
ghost use Rattle.lra_dbm.specs.Steps.{strengthened_at, row_strengthened, all_strengthened};
ghost use Rattle.lra_dbm.specs.{Cells.size, Cells.IsMatrix, Closing.closing, Closing.Closes};

use crate::cells::{add_entries, entry, half, is_negative, lower, opposite};

/// Lowers the entry at `i` and `j` to the sum by way of `k`.
fn relax(n: usize, cells: &mut [Option<i128>], flagged: bool, k: usize, i: usize, j: usize) -> bool
    requires few { n ≤ 2 ^ 30 }
    requires full { length cells.old ≡ size n }
    requires pivot { k < 2 * n }
    requires row { i < 2 * n }
    requires column { j < 2 * n }
    ensures { progress cells.new result ≡ relaxed k i j (progress cells.old flagged) }
{
    let sum = add_entries(entry(n, cells, i, k), entry(n, cells, k, j));
    lower(n, cells, i, j, sum.value);
    flagged || sum.passes
}

#[tactic(auto, using(crate::proofs::Turns::in_turn_more))]
fn relax_row(n: usize, cells: &mut [Option<i128>], flagged: bool, k: usize, i: usize) -> bool
    requires few { n ≤ 2 ^ 30 }
    requires full { length cells.old ≡ size n }
    requires pivot { k < 2 * n }
    requires row { i < 2 * n }
    ensures { progress cells.new result ≡ row_relaxed n k i (progress cells.old flagged) }
{
    let mut passed = flagged;
    for j in 0..2 * n {
        passed = relax(n, cells, passed, k, i, j);
    }
    passed
}

#[tactic(auto, using(crate::proofs::Turns::in_turn_more))]
fn relax_pivot(n: usize, cells: &mut [Option<i128>], flagged: bool, k: usize) -> bool
    requires few { n ≤ 2 ^ 30 }
    requires full { length cells.old ≡ size n }
    requires pivot { k < 2 * n }
    ensures { progress cells.new result ≡ pivot_relaxed n k (progress cells.old flagged) }
{
    let mut passed = flagged;
    for i in 0..2 * n {
        passed = relax_row(n, cells, passed, k, i);
    }
    passed
}

/// Relaxes by way of `k`, unless an entry of the diagonal is below 0 already.
fn relax_unless_negative(n: usize, cells: &mut [Option<i128>], flagged: bool, k: usize) -> bool
    requires few { n ≤ 2 ^ 30 }
    requires full { length cells.old ≡ size n }
    requires pivot { k < 2 * n }
    ensures { progress cells.new result ≡ relaxed_unless_negative n k (progress cells.old flagged) }
{
    if has_negative_diagonal(n, cells) {
        return flagged;
    }
    relax_pivot(n, cells, flagged, k)
}

#[tactic(auto, using(crate::proofs::Turns::in_turn_more), unfolding(crate::specs::Steps::shortest))]
/// Step 1: shortest paths, until an entry of the diagonal is below 0.
fn shorten(n: usize, cells: &mut [Option<i128>]) -> bool
    requires few { n ≤ 2 ^ 30 }
    requires full { length cells.old ≡ size n }
    ensures { progress cells.new result ≡ shortest n (2 * n) (progress cells.old false) }
{
    let mut passed = false;
    for k in 0..2 * n {
        passed = relax_unless_negative(n, cells, passed, k);
    }
    passed
}

#[tactic(auto, using(crate::proofs::Turns::any_more))]
/// Step 2: whether an entry of the diagonal is below 0.
fn has_negative_diagonal(n: usize, cells: &[Option<i128>]) -> bool
    requires few { n ≤ 2 ^ 30 }
    requires full { length cells.now ≡ size n }
    ensures { result ≡ negative_diagonal cells.now (2 * n) }
{
    let mut negative = false;
    for i in 0..2 * n {
        negative = negative || is_negative(entry(n, cells, i, i));
    }
    negative
}

/// Rounds the unary entry of `i` down to even.
fn round(n: usize, cells: &mut [Option<i128>], flagged: bool, i: usize) -> bool
    requires few { n ≤ 2 ^ 30 }
    requires full { length cells.old ≡ size n }
    requires row { i < 2 * n }
    ensures { progress cells.new result ≡ rounded i (progress cells.old flagged) }
{
    let other = opposite(n, i);
    let bound = half(entry(n, cells, i, other));
    let twice = add_entries(bound, bound);
    lower(n, cells, i, other, twice.value);
    flagged || twice.passes
}

#[tactic(auto, using(crate::proofs::Turns::in_turn_more), unfolding(crate::specs::Steps::all_rounded))]
/// Step 3: rounds all unary entries.
fn round_all(n: usize, cells: &mut [Option<i128>], flagged: bool) -> bool
    requires few { n ≤ 2 ^ 30 }
    requires full { length cells.old ≡ size n }
    ensures { progress cells.new result ≡ all_rounded (2 * n) (progress cells.old flagged) }
{
    let mut passed = flagged;
    for i in 0..2 * n {
        passed = round(n, cells, passed, i);
    }
    passed
}

/// Whether the two bounds of some variable cross, and whether a sum of two passed the range.
#[derive(Clone, Copy, Debug, PartialEq, Eq)]
struct Crossing {
    is_crossed: bool,
    passes: bool,
}

#[tactic(auto, using(crate::proofs::Turns::any_more))]
/// Step 4: looks for crossed bounds.
fn find_crossing(n: usize, cells: &[Option<i128>]) -> Crossing
    requires few { n ≤ 2 ^ 30 }
    requires full { length cells.now ≡ size n }
    ensures crossed { result.is_crossed ≡ crossed cells.now (2 * n) }
    ensures passes { result.passes ≡ crossing_passes cells.now (2 * n) }
{
    let mut is_crossed = false;
    let mut passes = false;
    for i in 0..2 * n {
        let other = opposite(n, i);
        let both = add_entries(entry(n, cells, i, other), entry(n, cells, other, i));
        is_crossed = is_crossed || is_negative(both.value);
        passes = passes || both.passes;
    }
    Crossing { is_crossed, passes }
}

/// Lowers the entry at `i` and `j` to half the sum of the two unary entries.
fn strengthen(n: usize, cells: &mut [Option<i128>], flagged: bool, i: usize, j: usize) -> bool
    requires few { n ≤ 2 ^ 30 }
    requires full { length cells.old ≡ size n }
    requires row { i < 2 * n }
    requires column { j < 2 * n }
    ensures { progress cells.new result ≡ strengthened_at i j (progress cells.old flagged) }
{
    let from = entry(n, cells, i, opposite(n, i));
    let to = entry(n, cells, opposite(n, j), j);
    let both = add_entries(from, to);
    lower(n, cells, i, j, half(both.value));
    flagged || both.passes
}

#[tactic(auto, using(crate::proofs::Turns::in_turn_more))]
fn strengthen_row(n: usize, cells: &mut [Option<i128>], flagged: bool, i: usize) -> bool
    requires few { n ≤ 2 ^ 30 }
    requires full { length cells.old ≡ size n }
    requires row { i < 2 * n }
    ensures { progress cells.new result ≡ row_strengthened i (2 * n) (progress cells.old flagged) }
{
    let mut passed = flagged;
    for j in 0..2 * n {
        passed = strengthen(n, cells, passed, i, j);
    }
    passed
}

#[tactic(auto, using(crate::proofs::Turns::in_turn_more), unfolding(crate::specs::Steps::all_strengthened))]
/// Step 5: strengthens all entries.
fn strengthen_all(n: usize, cells: &mut [Option<i128>], flagged: bool) -> bool
    requires few { n ≤ 2 ^ 30 }
    requires full { length cells.old ≡ size n }
    ensures { progress cells.new result ≡ all_strengthened n (2 * n) (progress cells.old flagged) }
{
    let mut passed = flagged;
    for i in 0..2 * n {
        passed = strengthen_row(n, cells, passed, i);
    }
    passed
}

/// Whether closing found no store, which is exact, and otherwise whether a number passed the range.
#[derive(Clone, Copy, Debug, PartialEq, Eq)]
pub struct ClosureResult {
    pub is_empty: bool,
    pub is_flagged: bool,
}

fn answer(is_empty: bool, is_flagged: bool) -> ClosureResult
    ensures empty { result.is_empty ≡ is_empty }
    ensures flagged { result.is_flagged ≡ is_flagged }
{
    ClosureResult {
        is_empty,
        is_flagged,
    }
}

fn run_steps(n: usize, cells: &mut [Option<i128>]) -> ClosureResult
    requires few { n ≤ 2 ^ 30 }
    requires full { length cells.old ≡ size n }
    ensures { closing n cells.old
        ≡ record { empty = result.is_empty; progress = progress cells.new result.is_flagged } }
{
    let passed = shorten(n, cells);
    if has_negative_diagonal(n, cells) {
        return answer(true, false);
    }
    let passed = round_all(n, cells, passed);
    let crossing = find_crossing(n, cells);
    if crossing.is_crossed {
        return answer(true, false);
    }
    let passed = passed || crossing.passes;
    let passed = strengthen_all(n, cells, passed);
    answer(false, passed)
}

#[tactic(auto, using(crate::proofs::Closes::closes_by, crate::proofs::Closes::matrix_by))]
/// Closes the matrix in place.
pub fn close(n: usize, cells: &mut [Option<i128>]) -> ClosureResult
    requires few { n ≤ 2 ^ 30 }
    requires is { IsMatrix n cells.old }
    ensures steps { closing n cells.old
        ≡ record { empty = result.is_empty; progress = progress cells.new result.is_flagged } }
    ensures is { IsMatrix n cells.new }
    ensures closes { Closes n cells.old cells.new result.is_empty result.is_flagged }
{
    run_steps(n, cells)
}
