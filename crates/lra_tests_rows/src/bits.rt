//! A table of widths at and beside the borders of words.

ghost use Rattle.std.specs.Prelude.{◌≡◌, ◌+◌, length, IfOk, OnOk};

use lra_bits::{BitRow, SatMatrix};
use std::alloc::{AllocError, Global};

const WIDTHS: [usize; 8] = [0, 1, 63, 64, 65, 128, 129, 4096];

// True at each place that `step` divides.
fn row_of(alloc: Global, width: usize, step: usize) -> Result<BitRow, AllocError>
    ensures { IfOk result (λ row. length row ≡ width) }
{
    let mut row = BitRow::new(alloc, width)?;
    for k in 0..width {
        row.set(k, k.is_multiple_of(step));
    }
    Ok(row)
}

// Whether the multiples of the first number lie in those of the second.
fn lie_in(alloc: Global, width: usize, inner: usize, outer: usize) -> Result<bool, AllocError> {
    let inner = row_of(alloc, width, inner)?;
    let outer = row_of(alloc, width, outer)?;
    Ok(inner.subset(&outer))
}

// Whether those of 2 lie in those of 3 as they should, and those of 6 in those of 2.
fn lie_so(alloc: Global, width: usize) -> Result<bool, AllocError> {
    let even = lie_in(alloc, width, 2, 3)?;
    let sixth = lie_in(alloc, width, 6, 2)?;
    Ok(even == (width < 3) && sixth)
}

// Whether what the multiples of the first two numbers have in common lies in those of the third.
fn common_lies_in(alloc: Global, width: usize, steps: [usize; 3]) -> Result<bool, AllocError> {
    let first = row_of(alloc, width, steps[0])?;
    let second = row_of(alloc, width, steps[1])?;
    let outer = row_of(alloc, width, steps[2])?;
    Ok(first.common_within(&second, &outer))
}

// Whether those of 2 and 3 have theirs in those of 6, and those of 6 and 2 in those of 4 as they should.
fn common_lie_so(alloc: Global, width: usize) -> Result<bool, AllocError> {
    let sixth = common_lies_in(alloc, width, [2, 3, 6])?;
    let fourth = common_lies_in(alloc, width, [6, 2, 4])?;
    Ok(sixth && fourth == (width < 7))
}

// Whether those of 2 and 3 share as many as there are of 6, and not one more.
fn share_so(alloc: Global, width: usize) -> Result<bool, AllocError> {
    let even = row_of(alloc, width, 2)?;
    let third = row_of(alloc, width, 3)?;
    let common = width.div_ceil(6);
    Ok(even.shares(&third, common) && !even.shares(&third, common + 1))
}

// Whether the row is true at the multiples of 6, and has so many places.
fn is_sixth(row: &BitRow, width: usize) -> bool {
    for k in 0..row.width() {
        if row.get(k) != k.is_multiple_of(6) {
            return false;
        }
    }
    row.width() == width
}

// Whether the multiples of 2 and of 3 have those of 6 in common.
fn has_common(alloc: Global, width: usize) -> Result<bool, AllocError> {
    let even = row_of(alloc, width, 2)?;
    let third = row_of(alloc, width, 3)?;
    let common = even.common(&third)?;
    let packed = even.words().len() == width.div_ceil(64);
    Ok(packed && is_sixth(&common, width))
}

fn add_multiples(
    alloc: Global,
    matrix: &mut SatMatrix,
    width: usize,
    step: usize,
) -> Result<(), AllocError>
    requires { matrix.old.width ≡ width }
    ensures width { matrix.new.width ≡ matrix.old.width }
    ensures height { OnOk result (length matrix.new.rows ≡ length matrix.old.rows + 1) }
{
    let row = row_of(alloc, width, step)?;
    matrix.add_row(row)?;
    Ok(())
}

// The multiples of 2, of 3 and of 6.
fn multiples(alloc: Global, width: usize) -> Result<SatMatrix, AllocError>
    ensures width { IfOk result (λ matrix. matrix.width ≡ width) }
    ensures height { IfOk result (λ matrix. length matrix.rows ≡ 3) }
{
    let mut matrix = SatMatrix::new(alloc, width);
    add_multiples(alloc, &mut matrix, width, 2)?;
    add_multiples(alloc, &mut matrix, width, 3)?;
    add_multiples(alloc, &mut matrix, width, 6)?;
    Ok(matrix)
}

// Whether the second row alone stays if the first and the third are removed.
fn keeps_second(alloc: Global, width: usize) -> Result<bool, AllocError> {
    let mut matrix = multiples(alloc, width)?;
    let gone = row_of(alloc, 3, 2)?;
    matrix.remove_rows(&gone);
    let sixth = row_of(alloc, width, 6)?;
    Ok(matrix.height() == 1 && sixth.subset(matrix.row(0)))
}

// Whether the rows are true at 0, 1 and 2 if their places are multiples of 2, of 3 and of 6.
fn are_columns(columns: &SatMatrix) -> bool
    requires { columns.now.width ≡ 3 }
{
    for c in 0..columns.height() {
        let row = columns.row(c);
        let values = [row.get(0), row.get(1), row.get(2)];
        if values
            != [
                c.is_multiple_of(2),
                c.is_multiple_of(3),
                c.is_multiple_of(6),
            ]
        {
            return false;
        }
    }
    true
}

// Whether the multiples turned are their columns, and turned once more as they were.
fn turns(alloc: Global, width: usize) -> Result<bool, AllocError> {
    let columns = multiples(alloc, width)?.transposed(alloc)?;
    let again = columns.transposed(alloc)?;
    let turned = columns.width() == 3 && columns.height() == width && are_columns(&columns);
    Ok(turned && again.height() == 3 && is_sixth(again.row(2), width))
}

#[test]
fn rows_lie_in_others(rt: HostRuntime) {
    for width in WIDTHS {
        assert!(rt; lie_so(rt.alloc(), width) == Ok(true), "{width}");
        assert!(rt; common_lie_so(rt.alloc(), width) == Ok(true), "{width}");
        assert!(rt; share_so(rt.alloc(), width) == Ok(true), "{width}");
    }
}

#[test]
fn rows_are_met_and_removed(rt: HostRuntime) {
    for width in WIDTHS {
        assert!(rt; has_common(rt.alloc(), width) == Ok(true), "{width}");
        assert!(rt; keeps_second(rt.alloc(), width) == Ok(true), "{width}");
    }
}

#[test]
fn matrices_are_turned(rt: HostRuntime) {
    for width in WIDTHS {
        assert!(rt; turns(rt.alloc(), width) == Ok(true), "{width}");
    }
}
