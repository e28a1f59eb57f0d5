//! A number is added to a variable, or to its opposite.

ghost use Rattle.std.specs.Prelude.{◌≡◌, ◌≤◌, ◌<◌, ◌^◌, ◌*◌, length, unsigned_abs};
ghost use Rattle.lra_dbm.specs.Shifting.{added_to, origin, shifted_within, passes_at, ShiftedTo, RowGiven};
ghost use Rattle.lra_dbm.specs.{Cells.size, Cells.entries, Cells.IsMatrix, Steps.any_below};

use crate::cells::{Sum, add_entries, entry, opposite, write};

/// Variable `x` becomes `x + c`, or if it flips `-x + c`.
#[derive(Clone, Copy, Debug, PartialEq, Eq)]
pub struct Shift {
    pub flips: bool,
    pub x: usize,
    pub c: i128,
}

/// What is added to signed variable `i`.
fn added_to(shift: Shift, i: usize) -> i128
    requires few { shift.x < 2 ^ 30 }
    requires range { unsigned_abs shift.c ≤ 2 ^ 63 }
    ensures added { result ≡ added_to shift.x shift.c i }
    ensures range { unsigned_abs result ≤ 2 ^ 63 }
{
    if i == 2 * shift.x {
        shift.c
    } else if i == 2 * shift.x + 1 {
        -shift.c
    } else {
        0
    }
}

/// The signed variable whose place `i` takes.
#[tactic(auto, using(crate::proofs::CellLemmas::opposite_below))]
fn origin_of(n: usize, shift: Shift, i: usize) -> usize
    requires few { n ≤ 2 ^ 30 }
    requires row { i < 2 * n }
    ensures origin { result ≡ origin shift.flips shift.x i }
    ensures below { result < 2 * n }
{
    if shift.flips && i / 2 == shift.x {
        opposite(n, i)
    } else {
        i
    }
}

/// The entry that the shift gives at `i` and `j`.
fn shifted_entry(n: usize, old: &[Option<i128>], shift: Shift, i: usize, j: usize) -> Sum
    requires few { n ≤ 2 ^ 30 }
    requires full { length old.now ≡ size n }
    requires place { shift.x < n }
    requires range { unsigned_abs shift.c ≤ 2 ^ 63 }
    requires row { i < 2 * n }
    requires column { j < 2 * n }
    ensures value { result.value ≡ shifted_within shift.flips shift.x shift.c (entries n old.now) i j }
    ensures passes { result.passes ≡ passes_at shift.flips shift.x shift.c (entries n old.now) i j }
{
    let before = entry(n, old, origin_of(n, shift, i), origin_of(n, shift, j));
    add_entries(before, Some(added_to(shift, j) - added_to(shift, i)))
}

/// Row `i` and its twins become those that the shift gives; whether a number of them passes the range.
#[tactic(auto, using(crate::proofs::Shifts::row_starts))]
fn shift_row(
    n: usize,
    cells: &mut [Option<i128>],
    old: &[Option<i128>],
    shift: Shift,
    i: usize,
) -> bool
    requires few { n ≤ 2 ^ 30 }
    requires full { length cells.old ≡ size n }
    requires is { IsMatrix n old.now }
    requires place { shift.x < n }
    requires range { unsigned_abs shift.c ≤ 2 ^ 63 }
    requires row { i < 2 * n }
    ensures given { RowGiven n (shifted_within shift.flips shift.x shift.c (entries n old.now)) i (2 * n) cells.old
        cells.new }
    ensures passes { result
        ≡ any_below (passes_at shift.flips shift.x shift.c (entries n old.now) i) (2 * n) }
{
    let mut passes = false;
    for j in 0..2 * n {
        let sum = shifted_entry(n, old, shift, i, j);
        write(n, cells, i, j, sum.value);
        passes = passes || sum.passes;
    }
    passes
}

#[tactic(auto, using(crate::proofs::Shifts::both_shifted))]
/// The entries become those that the shift gives; whether a number of them passes the range. `old` are the cells
/// before.
pub fn shift_cells(n: usize, cells: &mut [Option<i128>], old: &[Option<i128>], shift: Shift) -> bool
    requires few { n ≤ 2 ^ 30 }
    requires same { cells.old ≡ old.now }
    requires is { IsMatrix n old.now }
    requires place { shift.x < n }
    requires range { unsigned_abs shift.c ≤ 2 ^ 63 }
    ensures { ShiftedTo n shift.flips shift.x shift.c old.now cells.new result }
{
    let plus = shift_row(n, cells, old, shift, 2 * shift.x);
    let minus = shift_row(n, cells, old, shift, 2 * shift.x + 1);
    plus || minus
}
