//! What is known of numbers, as lists of truth values.

ghost use Rattle.std.specs.Cmp.Lexicographic.{pointwise};
ghost use Rattle.std.specs.Prelude.{◌≡◌, ◌+◌, ◌++◌, ◌≤◌, ◌^◌, length, replicate, OnOk};
ghost use Rattle.guzhtarel.specs.{Entries.join_each, Entries.rows_from, Entries.total, Linear.ConKind.TheVariants.Ge};
ghost use Rattle.use_signs.specs.Signs.{is_sum_known, sign_row, sign};

use guzhtarel::lists::unit;
use guzhtarel::{ConKind, ConSys};
use std::alloc::{AllocError, Global};

/// Whether what the second list knows is known of the first.
pub fn is_implied(known: &[bool], other: &[bool]) -> bool
    ensures { result ≡ pointwise sign.leq known.now other.now }
{
    let Some((first, later)) = known.split_first() else {
        return other.is_empty();
    };
    let Some((second, more)) = other.split_first() else {
        return false;
    };
    (*first || !*second) && is_implied(later, more)
}

/// Leaves what both know.
pub fn keep_both(known: &mut [bool], other: &[bool])
    requires { length known.old ≡ length other.now }
    ensures both { known.new ≡ join_each sign.join known.old other.now }
    ensures len { length known.new ≡ length known.old }
{
    let Some((first, later)) = known.split_first_mut() else {
        return;
    };
    let Some((second, more)) = other.split_first() else {
        return;
    };
    *first = *first && *second;
    keep_both(later, more);
}

/// How many are known.
pub fn count_known(known: &[bool]) -> u64
    ensures count { result ≡ total sign.number known.now }
    ensures most { result ≤ length known.now }
{
    let Some((first, later)) = known.split_first() else {
        return 0;
    };
    *first as u64 + count_known(later)
}

/// Whether a sum of multiples is known to be at least 0.
pub fn is_sum_known(coefficients: &[i64], known: &[bool]) -> bool
    ensures { result ≡ is_sum_known coefficients.now known.now }
{
    let Some((factor, factors)) = coefficients.split_first() else {
        return true;
    };
    let Some((first, later)) = known.split_first() else {
        return true;
    };
    0 <= *factor && (*first || *factor == 0) && is_sum_known(factors, later)
}

/// Appends the row that says that the number in this column is at least 0, if that is known.
fn push_sign(alloc: Global, list: &mut ConSys, column: usize, known: bool) -> Result<(), AllocError>
    requires few { list.old.dims ≤ 2 ^ 30 }
    requires column { column ≤ list.old.dims }
    ensures dims { list.new.dims ≡ list.old.dims }
    ensures rows { OnOk result (list.new.rows ≡ list.old.rows ++ sign_row list.old.dims column known) }
    ensures kinds { OnOk result (list.new.kinds ≡ list.old.kinds ++
        replicate (length (sign_row list.old.dims column known)) Ge) }
{
    if known {
        list.push(unit(alloc, list.dims(), column)?, ConKind::Ge)?;
    }
    Ok(())
}

/// Appends, for each column from this one on, the row that its number is at least 0, if that is known.
pub fn push_signs(
    alloc: Global,
    list: &mut ConSys,
    column: usize,
    known: &[bool],
) -> Result<(), AllocError>
    requires few { list.old.dims ≤ 2 ^ 30 }
    requires columns { column + length known.now ≡ list.old.dims + 1 }
    ensures dims { list.new.dims ≡ list.old.dims }
    ensures rows { OnOk result (list.new.rows ≡ list.old.rows ++ rows_from sign_row list.old.dims column known.now) }
    ensures kinds { OnOk result (list.new.kinds ≡ list.old.kinds ++
        replicate (length (rows_from sign_row list.old.dims column known.now)) Ge) }
{
    let Some((first, later)) = known.split_first() else {
        return Ok(());
    };
    push_sign(alloc, list, column, *first)?;
    push_signs(alloc, list, column + 1, later)?;
    Ok(())
}
