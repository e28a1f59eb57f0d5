//! Inequalities without the redundant ones, reported from which generators they are tight at.

ghost use Rattle.std.specs.Prelude.{◌≡◌, ◌<◌, ◌≤◌, ◌↔◌, length, IsTrue, IfOk, OnOk, OnErr};
ghost use Rattle.lra_bits.specs.{Matrix.unmarked, Transposed.AreColumns};
ghost use Rattle.lra_canonical.specs.Irredundant.{IsCoveredBy, IsCovered, AreMarks, AreKept, WithoutRedundant};

use lra_bits::{BitRow, SatMatrix};
use lra_row::Row;
use std::alloc::{AllocError, Global};

// Whether `other` is another row that stays, and true wherever the row at `place` is.
fn covers(saturation: &SatMatrix, gone: &BitRow, place: usize, other: usize) -> bool
    requires place { place < length saturation.now.rows }
    requires other { other < length saturation.now.rows }
    requires marks { length gone.now ≡ length saturation.now.rows }
    ensures { IsTrue result ↔ IsCoveredBy saturation.now.rows gone.now place other }
{
    if other == place {
        return false;
    }
    if gone.get(other) {
        return false;
    }
    saturation.row(place).subset(saturation.row(other))
}

// Whether some row covers the row at `place`, row by row.
fn has_cover(saturation: &SatMatrix, gone: &BitRow, place: usize) -> bool
    requires place { place < length saturation.now.rows }
    requires marks { length gone.now ≡ length saturation.now.rows }
    ensures { IsTrue result ↔ IsCovered saturation.now.rows gone.now place }
{
    for other in 0..saturation.height() {
        if covers(saturation, gone, place, other) {
            return true;
        }
    }
    false
}

// From so many rows on, if they are more than the columns, these are made: else each row is sooner tried with each.
const MANY_ROWS: usize = 64;

// The columns, or none.
fn find_columns(alloc: Global, saturation: &SatMatrix) -> Result<SatMatrix, AllocError>
    ensures columns { IfOk result (λ columns. AreColumns saturation.now (length columns.rows) columns) }
    ensures most { IfOk result (λ columns. length columns.rows ≤ saturation.now.width) }
{
    if saturation.height() >= MANY_ROWS && saturation.height() > saturation.width() {
        let columns = saturation.transposed(alloc)?;
        Ok(columns)
    } else {
        Ok(SatMatrix::new(alloc, saturation.height()))
    }
}

// Whether some row covers the row at `place`. The marks are only looked at if some other row is true wherever it is.
fn is_covered(
    alloc: Global,
    saturation: &SatMatrix,
    columns: &SatMatrix,
    gone: &BitRow,
    place: usize,
) -> Result<bool, AllocError>
    requires place { place < length saturation.now.rows }
    requires columns { AreColumns saturation.now (length columns.now.rows) columns.now }
    requires most { length columns.now.rows ≤ saturation.now.width }
    requires marks { length gone.now ≡ length saturation.now.rows }
    ensures { IfOk result (λ covered. IsTrue covered ↔ IsCovered saturation.now.rows gone.now place) }
{
    let places = saturation.row(place).places(alloc, columns.height())?;
    match saturation.find_within_by(columns, &places, place, place) {
        Some(_) => Ok(has_cover(saturation, gone, place)),
        None => Ok(false),
    }
}

// Marks the rows that are covered by a row that isn't marked, one after the other.
fn redundant(alloc: Global, rows: &[Row], saturation: &SatMatrix) -> Result<BitRow, AllocError>
    requires { length saturation.now.rows ≡ length rows.now }
    ensures { IfOk result (λ gone. AreMarks rows.now saturation.now gone (length rows.now)) }
{
    let columns = find_columns(alloc, saturation)?;
    let mut gone = BitRow::new(alloc, rows.len())?;
    for place in 0..rows.len() {
        let covered = is_covered(alloc, saturation, &columns, &gone, place)?;
        if covered {
            gone.set(place, true);
        }
    }
    Ok(gone)
}

/// Takes out the rows that are marked; the others keep their order.
pub fn remove_marked(rows: &mut Vec<Row>, gone: &BitRow)
    requires { length gone.now ≡ length rows.old.items }
    ensures { rows.new.items ≡ unmarked gone.now rows.old.items }
{
    let mut kept = 0;
    for k in 0..rows.len() {
        if !gone.get(k) {
            rows.swap(kept, k);
            kept += 1;
        }
    }
    rows.truncate(kept);
}

/// Takes out the redundant inequalities, and their rows of the matrix. If row `i` of the matrix reports at which
/// generators row `i` is tight, the rows that stay have the same solutions, and lists with the same solutions get the
/// same rows. A row goes if another one that is left is tight wherever it is (Le Verge 1992, Fukuda and Prodon
/// 1996); no number is computed. Running out of memory leaves both lists as they were.
pub fn drop_redundant(rows: &mut Vec<Row>, saturation: &mut SatMatrix) -> Result<(), AllocError>
    requires { length saturation.old.rows ≡ length rows.old.items }
    ensures kept { OnOk result (AreKept rows.old.items rows.new.items saturation.old saturation.new) }
    ensures irredundant { OnOk result (WithoutRedundant rows.old.items saturation.old rows.new.items) }
    ensures rows_unchanged { OnErr result (rows.new.items ≡ rows.old.items) }
    ensures matrix_unchanged { OnErr result (saturation.new ≡ saturation.old) }
{
    let gone = redundant(*rows.allocator(), rows, saturation)?;
    remove_marked(rows, &gone);
    saturation.remove_rows(&gone);
    Ok(())
}
