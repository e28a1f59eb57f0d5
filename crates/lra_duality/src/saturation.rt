//! Which constraints are tight at which generators.

ghost use Rattle.std.specs.Prelude.{◌≡◌, suc, length, IfOk};
ghost use Rattle.lra_duality.specs.Crates.lra_systems.LinearSystems.{constraints, generators};
ghost use Rattle.lra_duality.specs.Saturations.{saturated, saturation_of};

use crate::exact::saturates;
use lra_cone::ConSys;
use lra_descriptions::{BitRow, GenSys, SatMatrix};
use lra_row::Row;
use std::alloc::{AllocError, Global};

/// For each of the generators, whether the row has product 0 with it.
pub fn mark_saturated(alloc: Global, row: &Row, list: &GenSys) -> Result<BitRow, AllocError>
    requires { length row.now ≡ suc list.now.dims }
    ensures { IfOk result (λ bits. bits ≡ saturated (generators list.now) row.now) }
{
    let (rows, _kinds) = (list.rows(), list.kinds());
    let mut bits = BitRow::new(alloc, rows.len())?;
    for place in 0..rows.len() {
        if saturates(row, &rows[place]) {
            bits.set(place, true);
        }
    }
    Ok(bits)
}

/// A row for each of the constraints, with a column for each of the generators: true exactly if their product is 0.
pub fn saturation_matrix(
    alloc: Global,
    list: &ConSys,
    by_generators: &GenSys,
) -> Result<SatMatrix, AllocError>
    requires { list.now.dims ≡ by_generators.now.dims }
    ensures { IfOk result (λ matrix. matrix ≡ saturation_of (constraints list.now) (generators by_generators.now)) }
{
    let (rows, _kinds) = (list.rows(), list.kinds());
    let (columns, _column_kinds) = (by_generators.rows(), by_generators.kinds());
    let mut matrix = SatMatrix::new(alloc, columns.len());
    for place in 0..rows.len() {
        matrix.add_row(mark_saturated(alloc, &rows[place], by_generators)?)?;
    }
    Ok(matrix)
}
