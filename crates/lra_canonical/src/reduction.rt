//! Reductions of a row by an echelon form.

ghost use Rattle.std.specs.List.{All};
ghost use Rattle.std.specs.Prelude.{◌≡◌, ◌<◌, pos, length, IfOk, IfErr, OnOk, OnErr, IsTrue};
ghost use Rattle.lra_canonical.specs.Crates.{lra_linear_spec.Echelon.pivot, lra_linear_spec.Vectors.entry};
ghost use Rattle.lra_canonical.specs.Reduced.{IsEchelonForm, SameSolutions, IsReducedBy, IsOneReduced, IsCleared};
ghost use Rattle.lra_canonical.specs.Reduced.{IsClearingExcess, IsChainEnd, IsFirstExcess, IsReductionExcess};

use lra_row::{Row, RowError, opposite};

// The row with 0 at the line's pivot.
pub(crate) fn clear(row: Row, line: &Row) -> Result<Row, RowError>
    requires width { length row ≡ length line.now }
    requires wide { 0 < length row }
    ensures ok { IfOk result (IsCleared line.now row) }
    ensures excess { IfErr result (IsClearingExcess line.now row) }
{
    let column = line.pivot();
    let here = row.get(column);
    if here == 0 {
        return Ok(row);
    }
    let leading = line.get(column);
    let factor = opposite(here);
    let mut next = row.blend(leading, factor, line)?;
    next.lowest_terms();
    Ok(next)
}

// The row reduced by the form.
#[tactic(auto, using(crate::proofs::Chains::partly_start))]
pub(crate) fn reduce_by(row: &Row, form: &[Row]) -> Result<Row, RowError>
    requires widths { All (λ line. length line ≡ length row.now) form.now }
    requires wide { 0 < length row.now }
    requires form { IsEchelonForm form.now }
    ensures reduced { IfOk result (IsReducedBy form.now row.now) }
    ensures chain { IfOk result (IsChainEnd form.now row.now) }
    ensures first { IfErr result (IsFirstExcess form.now row.now) }
{
    let mut now = row.copy()?;
    for line in form {
        now = clear(now, line)?;
    }
    now.lowest_terms();
    Ok(now)
}

// Whether the row is 0 at the pivot of each row of the form: then it is only taken in lowest terms.
fn is_clear(row: &Row, form: &[Row]) -> bool
    requires widths { All (λ line. length line ≡ length row.now) form.now }
    requires wide { 0 < length row.now }
    ensures { IsTrue result → All (λ line. entry row.now (pivot line) ≡ pos 0) form.now }
{
    for line in form {
        if row.get(line.pivot()) != 0 {
            return false;
        }
    }
    true
}

/// Clears the row at the pivot of each row of the echelon form and takes it in lowest terms: with the form's equalities
/// its solutions stay the same, and rows with the same solutions become equal. Or names the first number that passes
/// the range, the rows of the form taken in their order, and leaves the row as it was.
#[tactic(auto, using(crate::proofs::Chains::first_strains))]
pub fn reduce(row: &mut Row, form: &[Row]) -> Result<(), RowError>
    requires widths { All (λ line. length line ≡ length row.old) form.now }
    requires wide { 0 < length row.old }
    requires form { IsEchelonForm form.now }
    ensures reduced { OnOk result (IsReducedBy form.now row.old row.new) }
    ensures same { OnOk result (SameSolutions form.now row.old row.new) }
    ensures one { OnOk result (IsOneReduced form.now row.old row.new) }
    ensures chain { OnOk result (IsChainEnd form.now row.old row.new) }
    ensures first { IfErr result (IsFirstExcess form.now row.old) }
    ensures excess { IfErr result (IsReductionExcess form.now row.old) }
    ensures unchanged { OnErr result (row.new ≡ row.old) }
{
    if is_clear(row, form) {
        row.lowest_terms();
        return Ok(());
    }
    *row = reduce_by(row, form)?;
    Ok(())
}
