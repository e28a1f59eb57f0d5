//! The rows of the polyhedron of all multipliers.

ghost use Rattle.std.specs.List.{All, range_with_len};
ghost use Rattle.std.specs.Prelude.{◌≡◌, ◌<◌, ◌++◌, [], ◌∷◌, suc, map, length, pos, IfOk, OnOk};
ghost use Rattle.lra_farkas.specs.Crates.lra_linear_spec.Descriptions.{equality};
ghost use Rattle.lra_farkas.specs.Crates.{lra_linear_spec.Range.InRange, lra_linear_spec.Vectors.entry};
ghost use Rattle.lra_multipliers.specs.Columns.{first_of};
ghost use Rattle.lra_systems.specs.{Dimensions.too_many_dimensions, LinearSystems.constraints};
ghost use Rattle.lra_farkas.specs.MultiplierRows.{balance_row, sign_row, multiplier_dims, multiplier_rows};
ghost use Rattle.lra_farkas.specs.RowsByKinds.{columns_by_kinds};

use lra_systems::{ConKind, ConSys, Row, TOO_MANY_DIMENSIONS, opposite, unit};
use std::alloc::{AllocError, Global};

/// The entries of the rows in a column come last.
fn push_column(numbers: &mut Vec<i128>, rows: &[Row], column: usize) -> Result<(), AllocError>
    requires widths { All (λ r. column < length r) rows.now }
    requires in_range { All InRange numbers.old.items }
    ensures numbers { OnOk result (numbers.new.items ≡
        numbers.old.items ++ map (λ r. entry r column) rows.now) }
    ensures in_range { OnOk result (All InRange numbers.new.items) }
{
    for row in rows {
        numbers.push(row.get(column))?;
    }
    Ok(())
}

/// The entry of `1 >= 0` in a column.
fn one_at(column: usize) -> i128
    ensures value { result ≡ first_of column (pos 1) }
    ensures in_range { InRange result }
{
    if column == 0 {
        return 1;
    }
    0
}

/// The equality of a column: there the multiple of the claim is the sum of `1 >= 0` and the premises.
fn balance(alloc: Global, premises: &[Row], claim: &Row, column: usize) -> Result<Row, AllocError>
    requires column { column < length claim.now }
    requires widths { All (λ r. column < length r) premises.now }
    ensures { IfOk result (λ row. row ≡ balance_row premises.now claim.now column) }
{
    let mut numbers = Vec::new(alloc);
    numbers.push(opposite(claim.get(column)))?;
    numbers.push(one_at(column))?;
    push_column(&mut numbers, premises, column)?;
    Row::from_slice(alloc, numbers.as_slice())
}

/// The equalities of all columns come last.
fn push_balances(
    alloc: Global,
    premises: &[Row],
    claim: &Row,
    rows: &mut ConSys,
) -> Result<(), AllocError>
    requires dims { rows.old.dims ≡ suc (length premises.now) }
    requires kinds { length rows.old.kinds ≡ length rows.old.rows }
    requires widths { All (λ r. length r ≡ length claim.now) premises.now }
    ensures rows { OnOk result (constraints rows.new ≡ constraints rows.old ++
        map (λ j. equality (balance_row premises.now claim.now j))
        (range_with_len 0 (length claim.now))) }
    ensures dims { OnOk result (rows.new.dims ≡ rows.old.dims) }
    ensures kinds { OnOk result (length rows.new.kinds ≡ length rows.new.rows) }
{
    for column in 0..claim.width() {
        let row = balance(alloc, premises, claim, column)?;
        rows.push(row, ConKind::Eq)?;
    }
    Ok(())
}

/// Appends the row that says that the multiplier in this column is at least 0.
fn push_sign(alloc: Global, column: usize, rows: &mut ConSys) -> Result<(), AllocError>
    requires small { rows.old.dims < too_many_dimensions }
    requires column { column < suc rows.old.dims }
    requires kinds { length rows.old.kinds ≡ length rows.old.rows }
    ensures rows { OnOk result (constraints rows.new ≡
        constraints rows.old ++ sign_row rows.old.dims column ∷ []) }
    ensures dims { OnOk result (rows.new.dims ≡ rows.old.dims) }
    ensures kinds { OnOk result (length rows.new.kinds ≡ length rows.new.rows) }
{
    let row = unit(alloc, rows.dims(), column)?;
    rows.push(row, ConKind::Ge)?;
    Ok(())
}

/// Appends a row for each inequality: its multiplier is at least 0.
fn push_signs(alloc: Global, kinds: &[ConKind], rows: &mut ConSys) -> Result<(), AllocError>
    requires dims { rows.old.dims ≡ suc (length kinds.now) }
    requires small { rows.old.dims < too_many_dimensions }
    requires kinds { length rows.old.kinds ≡ length rows.old.rows }
    ensures rows { OnOk result (constraints rows.new ≡
        constraints rows.old ++ map (sign_row rows.old.dims) (columns_by_kinds 2 kinds.now)) }
    ensures dims { OnOk result (rows.new.dims ≡ rows.old.dims) }
    ensures kinds { OnOk result (length rows.new.kinds ≡ length rows.new.rows) }
{
    for place in 0..kinds.len() {
        if !kinds[place].is_equality() {
            push_sign(alloc, place + 2, rows)?;
        }
    }
    Ok(())
}

/// The rows of the polyhedron of all multipliers: in each column of the claim its multiple is the sum, and the
/// multipliers of `1 >= 0` and of the inequalities are not below 0.
pub fn list_rows(alloc: Global, premises: &ConSys, claim: &Row) -> Result<ConSys, AllocError>
    requires width { length claim.now ≡ suc premises.now.dims }
    ensures small { IfOk result (λ s. s.dims < too_many_dimensions) }
    ensures dims { IfOk result (λ s. s.dims ≡ multiplier_dims (constraints premises.now)) }
    ensures rows { IfOk result (λ s. constraints s ≡
        multiplier_rows (constraints premises.now) claim.now) }
{
    let count = premises.len();
    if count >= TOO_MANY_DIMENSIONS - 1 {
        return Err(AllocError);
    }
    let mut rows = ConSys::new(alloc, count + 1);
    push_balances(alloc, premises.rows(), claim, &mut rows)?;
    push_sign(alloc, 1, &mut rows)?;
    push_signs(alloc, premises.kinds(), &mut rows)?;
    Ok(rows)
}
