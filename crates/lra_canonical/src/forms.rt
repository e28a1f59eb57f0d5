//! Reduced echelon forms.

ghost use Rattle.std.specs.Prelude.{◌≡◌, ◌≤◌, ◌<◌, ◌↔◌, ℕ, [], length, slice_index_or, IsTrue, IfOk, IfErr, OnOk};
ghost use Rattle.std.specs.{List.All, Prelude.OnErr};
ghost use Rattle.lra_canonical.specs.Crates.lra_linear_spec.Echelon.{Before, IsEchelonOf, pivot};
ghost use Rattle.lra_canonical.specs.Echelons.{SameEqualities, HaveWidth, IsOneForm, IsDirected, AreCleared};
ghost use Rattle.lra_canonical.specs.Echelons.{IsClearedExcess, IsInserted, IsInsertionExcess, IsExtended};
ghost use Rattle.lra_canonical.specs.Echelons.{IsExtensionExcess, Extends, HaveOneWidth, IsFirstRowExcess};
ghost use Rattle.lra_canonical.specs.{Echelons.IsEchelonExcess, Reduced.IsEchelonForm};

use crate::reduction::{clear, reduce_by};
use lra_row::{Row, RowError, push_copies};
use std::alloc::{AllocError, Global};

// Whether column p comes before column q in the order 1, 2, 3 and on, column 0 last.
fn comes_before(p: usize, q: usize) -> bool
    ensures { IsTrue result ↔ Before p q }
{
    p != 0 && (p < q || q == 0)
}

// The row or its negative, whichever is positive at its pivot; none of a row of zeros.
fn direct(row: Row) -> Result<Option<Row>, AllocError>
    requires wide { 0 < length row }
    ensures { IfOk result (IsDirected row) }
{
    let here = row.get(row.pivot());
    if here == 0 {
        return Ok(None);
    }
    if here > 0 {
        return Ok(Some(row));
    }
    let negative = row.negate()?;
    Ok(Some(negative))
}

// How many rows stand before the first whose pivot doesn't come before the column.
fn rows_before(form: &[Row], column: usize) -> usize
    ensures inside { result ≤ length form.now }
    ensures before { (k : ℕ) → k < result → Before (pivot (slice_index_or form.now k [])) column }
    ensures behind { result < length form.now → ¬ (Before (pivot (slice_index_or form.now result [])) column) }
{
    for place in 0..form.len() {
        if !comes_before(form[place].pivot(), column) {
            return place;
        }
    }
    form.len()
}

// The rows with 0 at the line's pivot.
fn clear_pivot(alloc: Global, rows: &[Row], line: &Row) -> Result<Vec<Row>, RowError>
    requires widths { All (λ r. length r ≡ length line.now) rows.now }
    requires wide { 0 < length line.now }
    ensures ok { IfOk result (λ out. AreCleared line.now rows.now out.items) }
    ensures excess { IfErr result (IsClearedExcess line.now rows.now) }
{
    let mut out = Vec::new(alloc);
    for row in rows {
        let next = clear(row.copy()?, line)?;
        out.push(next)?;
    }
    Ok(out)
}

// The line in its place in the form, and the rows before it cleared.
fn insert(alloc: Global, form: &[Row], line: Row) -> Result<Vec<Row>, RowError>
    requires widths { All (λ r. length r ≡ length line) form.now }
    requires wide { 0 < length line }
    ensures ok { IfOk result (λ out. IsInserted form.now line out.items) }
    ensures excess { IfErr result (IsInsertionExcess form.now line) }
{
    let place = rows_before(form, line.pivot());
    let (low, high) = form.split_at(place);
    let mut rows = clear_pivot(alloc, low, &line)?;
    rows.push(line)?;
    push_copies(&mut rows, high)?;
    Ok(rows)
}

// The form extended by the row.
fn extend(alloc: Global, form: Vec<Row>, row: &Row) -> Result<Vec<Row>, RowError>
    requires widths { All (λ r. length r ≡ length row.now) form.items }
    requires wide { 0 < length row.now }
    requires form { IsEchelonForm form.items }
    ensures ok { IfOk result (λ out. IsExtended form.items row.now out.items) }
    ensures excess { IfErr result (IsExtensionExcess form.items row.now) }
{
    let rest = reduce_by(row, &form)?;
    match direct(rest)? {
        None => Ok(form),
        Some(line) => insert(alloc, &form, line),
    }
}

/// Makes the rows their reduced echelon form, one row after the other: as equalities they have the same solutions, and
/// lists with the same solutions become equal. Or names the first number that passes the range, and leaves the list as
/// it was.
pub fn echelon(lines: &mut Vec<Row>) -> Result<(), RowError>
    requires width { HaveOneWidth lines.old.items }
    ensures form { OnOk result (IsEchelonOf lines.new.items lines.old.items) }
    ensures same { OnOk result (SameEqualities lines.old.items lines.new.items) }
    ensures one { OnOk result (IsOneForm lines.old.items lines.new.items) }
    ensures widths { OnOk result ((w : ℕ) → HaveWidth w lines.old.items → HaveWidth w lines.new.items) }
    ensures chain { OnOk result (Extends [] lines.old.items lines.new.items) }
    ensures first { IfErr result (IsFirstRowExcess lines.old.items) }
    ensures excess { IfErr result (IsEchelonExcess lines.old.items) }
    ensures unchanged { OnErr result (lines.new.items ≡ lines.old.items) }
{
    let alloc = *lines.allocator();
    let mut form = Vec::new(alloc);
    for row in lines.iter() {
        form = extend(alloc, form, row)?;
    }
    *lines = form;
    Ok(())
}
