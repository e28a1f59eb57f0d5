//! Unit rows.

ghost use Rattle.std.specs.Prelude.{◌≡◌, ◌<◌, ◌≤◌, IfOk};
ghost use Rattle.lra_linear_spec.specs.OperationStrain.{unit_row};
ghost use Rattle.lra_systems.specs.Dimensions.{too_many_dimensions};

use lra_row::Row;
use std::alloc::{AllocError, Global};

/// The row of n + 1 columns with 1 in this column and 0 elsewhere.
pub fn unit(alloc: Global, n: usize, column: usize) -> Result<Row, AllocError>
    requires small { n < too_many_dimensions }
    requires column { column ≤ n }
    ensures { IfOk result (λ row. row ≡ unit_row n column) }
{
    let row = Row::unit(alloc, n, column, 1)?;
    Ok(row)
}
