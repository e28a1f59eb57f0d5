//! The columns of the matrix, for steps with many pairs of rays.

ghost use Rattle.std.specs.Prelude.{◌≤◌, length, IfOk};
ghost use Rattle.lra_bits.specs.Transposed.{AreColumns};

use lra_bits::SatMatrix;
use std::alloc::{AllocError, Global};

/// The columns, or none: they are made if there are more pairs of rays on both sides than rows, as they cost more
/// than few pairs.
pub fn find_columns(
    alloc: Global,
    above: usize,
    below: usize,
    matrix: &SatMatrix,
) -> Result<SatMatrix, AllocError>
    ensures columns { IfOk result (λ columns. AreColumns matrix.now (length columns.rows) columns) }
    ensures most { IfOk result (λ columns. length columns.rows ≤ matrix.now.width) }
{
    if above > 0 && below > matrix.width() / above {
        let columns = matrix.transposed(alloc)?;
        Ok(columns)
    } else {
        Ok(SatMatrix::new(alloc, matrix.height()))
    }
}
