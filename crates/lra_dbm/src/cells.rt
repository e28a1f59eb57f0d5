//! The cells of a matrix, and single entries.

ghost use Rattle.std.specs.Prelude.{◌≡◌, ◌≤◌, ◌<◌, ◌^◌, ◌*◌, length, Option, Some, ℤ};
ghost use Rattle.lra_dbm.specs.Cells.{size, row_place, place, cell, entries, written, entered, IsMatrix};
ghost use Rattle.lra_dbm.specs.Entry.{◌⊞◌, lesser, half_of, within_range, passes_range};
ghost use Rattle.lra_dbm.specs.{Steps.is_negative, Tight.opposite};
ghost use Rattle.lra_dbm.specs.Crates.lra_linear_spec.Range.{InRange};

use lra_domain::add;

/// The signed variable of the other sign.
#[tactic(auto, using(crate::proofs::CellLemmas::opposite_below), unfolding(crate::specs::Tight::opposite))]
pub fn opposite(n: usize, i: usize) -> usize
    requires few { n ≤ 2 ^ 30 }
    requires row { i < 2 * n }
    ensures opposite { result ≡ opposite i }
    ensures below { result < 2 * n }
{
    if i % 2 == 0 { i + 1 } else { i - 1 }
}

/// The place of a row's entry in the list of cells.
fn row_place(n: usize, i: usize, j: usize) -> usize
    requires few { n ≤ 2 ^ 30 }
    requires row { i < 2 * n }
    requires column { j < 2 * n }
    ensures { result ≡ row_place i j }
{
    (i + 1) * (i + 1) / 2 + j
}

/// The place of the entry, or of its twin if the row doesn't hold it.
pub fn cell_place(n: usize, i: usize, j: usize) -> usize
    requires few { n ≤ 2 ^ 30 }
    requires row { i < 2 * n }
    requires column { j < 2 * n }
    ensures place { result ≡ place i j }
    ensures below { result < size n }
{
    if j < 2 * (i / 2) + 2 {
        row_place(n, i, j)
    } else {
        row_place(n, opposite(n, j), opposite(n, i))
    }
}

#[tactic(auto, using(crate::proofs::CellLemmas::that_entry))]
/// The entry at `i` and `j`.
pub fn entry(n: usize, cells: &[Option<i128>], i: usize, j: usize) -> Option<i128>
    requires few { n ≤ 2 ^ 30 }
    requires full { length cells.now ≡ size n }
    requires row { i < 2 * n }
    requires column { j < 2 * n }
    ensures cell { result ≡ cell cells.now i j }
    ensures entry { result ≡ entries n cells.now i j }
{
    cells[cell_place(n, i, j)]
}

/// Writes the entry at `i` and `j` and its twin.
pub fn write(n: usize, cells: &mut [Option<i128>], i: usize, j: usize, value: Option<i128>)
    requires few { n ≤ 2 ^ 30 }
    requires full { length cells.old ≡ size n }
    requires row { i < 2 * n }
    requires column { j < 2 * n }
    ensures { cells.new ≡ written i j value cells.old }
{
    let here = cell_place(n, i, j);
    let twin = cell_place(n, opposite(n, j), opposite(n, i));
    cells[here] = value;
    cells[twin] = value;
}

/// The entry at `i` and `j` and its twin become the lesser of themselves and the value.
pub fn lower(n: usize, cells: &mut [Option<i128>], i: usize, j: usize, value: Option<i128>)
    requires few { n ≤ 2 ^ 30 }
    requires full { length cells.old ≡ size n }
    requires row { i < 2 * n }
    requires column { j < 2 * n }
    ensures { cells.new ≡ entered i j value cells.old }
{
    let least = least(entry(n, cells, i, j), value);
    write(n, cells, i, j, least);
}

/// The lesser of two entries.
pub fn least(a: Option<i128>, b: Option<i128>) -> Option<i128>
    ensures { result ≡ lesser a b }
{
    match (a, b) {
        (Some(a), Some(b)) => Some(a.min(b)),
        (Some(a), None) => Some(a),
        (None, b) => b,
    }
}

/// A sum of two entries: infinite if it passes the range.
#[derive(Clone, Copy, Debug, PartialEq, Eq)]
pub struct Sum {
    pub value: Option<i128>,
    pub passes: bool,
}

/// Adds two entries.
pub fn add_entries(a: Option<i128>, b: Option<i128>) -> Sum
    ensures value { result.value ≡ within_range (a ⊞ b) }
    ensures passes { result.passes ≡ passes_range (a ⊞ b) }
{
    match (a, b) {
        (Some(a), Some(b)) => {
            let value = add(a, b);
            Sum {
                value,
                passes: value.is_none(),
            }
        }
        _ => Sum {
            value: None,
            passes: false,
        },
    }
}

/// Half of an entry, rounded down.
pub fn half(a: Option<i128>) -> Option<i128>
    ensures { result ≡ half_of a }
{
    match a {
        Some(a) => Some(a.div_euclid(2)),
        None => None,
    }
}

/// Whether the entry is below 0.
pub fn is_negative(a: Option<i128>) -> bool
    ensures { result ≡ is_negative a }
{
    match a {
        Some(a) => a < 0,
        None => false,
    }
}

#[tactic(auto, using(crate::proofs::Lowering::enter_matrix))]
/// The entry at `i` and `j` and its twin become the lesser of themselves and `k`.
pub fn enter(n: usize, cells: &mut [Option<i128>], i: usize, j: usize, k: i128)
    requires few { n ≤ 2 ^ 30 }
    requires is { IsMatrix n cells.old }
    requires row { i < 2 * n }
    requires column { j < 2 * n }
    requires range { InRange k }
    ensures entered { cells.new ≡ entered i j (Some k) cells.old }
    ensures is { IsMatrix n cells.new }
{
    lower(n, cells, i, j, Some(k));
}
