//! Entries of variables that are forgotten, that come or that go.

ghost use Rattle.std.specs.Prelude.{◌≡◌, ◌≤◌, ◌<◌, ◌+◌, ◌-◌, ◌^◌, ◌*◌, ℕ, length, OnOk, OnErr};
ghost use Rattle.lra_dbm.specs.Cells.{size, entries, forgotten, first_entries, IsMatrix};
ghost use Rattle.lra_dbm.specs.Clearing.{RowCleared, Settled};

use crate::cells::write;
use std::alloc::AllocError;

/// The number of cells of `n` variables.
pub fn size(n: usize) -> usize
    requires { n ≤ 2 ^ 30 }
    ensures { result ≡ size n }
{
    2 * n * (n + 1)
}

#[tactic(auto, using(crate::proofs::Clears::starts, crate::proofs::Clears::skips, crate::proofs::Clears::goes_on))]
/// All entries of row `i` and their twins become infinite, those of the diagonal apart.
fn clear_row(n: usize, cells: &mut [Option<i128>], i: usize)
    requires few { n ≤ 2 ^ 30 }
    requires full { length cells.old ≡ size n }
    requires row { i < 2 * n }
    ensures { RowCleared n i (2 * n) (entries n cells.old) cells.new }
{
    for j in 0..2 * n {
        if j != i {
            write(n, cells, i, j, None);
        }
    }
}

#[tactic(auto, using(crate::proofs::Clears::both_cleared, crate::proofs::Clears::forgotten_matrix))]
/// All entries of variable `x` become infinite, those of the diagonal apart.
pub fn clear(n: usize, cells: &mut [Option<i128>], x: usize)
    requires few { n ≤ 2 ^ 30 }
    requires is { IsMatrix n cells.old }
    requires place { x < n }
    ensures entries { (i j : ℕ) → entries n cells.new i j ≡ forgotten x (entries n cells.old) i j }
    ensures is { IsMatrix n cells.new }
{
    clear_row(n, cells, 2 * x);
    clear_row(n, cells, 2 * x + 1);
}

#[tactic(auto, using(crate::proofs::Grows::none_settled, crate::proofs::Grows::more_settled))]
/// The diagonal of the variables from `from` on becomes 0.
fn settle(n: usize, cells: &mut [Option<i128>], from: usize)
    requires few { n ≤ 2 ^ 30 }
    requires full { length cells.old ≡ size n }
    requires first { from ≤ n }
    ensures { Settled n from n cells.old cells.new }
{
    for t in from..n {
        write(n, cells, 2 * t, 2 * t, Some(0));
    }
}

#[tactic(auto, using(crate::proofs::Grows::grown_entries, crate::proofs::Grows::grown_matrix))]
/// `k` variables with no bounds come last.
pub fn grow(cells: &mut Vec<Option<i128>>, n: usize, k: usize) -> Result<(), AllocError>
    requires few { n + k ≤ 2 ^ 30 }
    requires is { IsMatrix n cells.old.items }
    ensures entries { OnOk result ((i j : ℕ) → entries (n + k) cells.new.items i j ≡ entries n cells.old.items i j) }
    ensures is { OnOk result (IsMatrix (n + k) cells.new.items) }
    ensures err { OnErr result (cells.new.items ≡ cells.old.items) }
{
    cells.resize(size(n + k), None)?;
    settle(n + k, cells.as_mut_slice(), n);
    Ok(())
}

#[tactic(auto, using(crate::proofs::Grows::first_of_all, crate::proofs::Grows::first_matrix))]
/// The first `n` of `all` variables stay.
pub fn shrink(cells: &mut Vec<Option<i128>>, all: usize, n: usize)
    requires few { all ≤ 2 ^ 30 }
    requires some { n ≤ all }
    requires is { IsMatrix all cells.old.items }
    ensures entries { (i j : ℕ) → entries n cells.new.items i j ≡ first_entries n (entries all cells.old.items) i j }
    ensures is { IsMatrix n cells.new.items }
{
    cells.truncate(size(n));
}
