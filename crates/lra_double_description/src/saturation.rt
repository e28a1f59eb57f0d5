//! The matrix of the rows that are tight at the rays, as a row is added.

ghost use Rattle.std.specs.Prelude.{◌≡◌, ◌+◌, ◌<◌, ◌^◌, ◌++◌, ◌∷◌, [], pos, suc, true, length, map, replicate, IfOk};
ghost use Rattle.std.specs.{Ordering.int_eq, Prelude.OnOk};
ghost use Rattle.lra_double_description.specs.Steps.{lengthened_rows};

use lra_bits::{BitRow, SatMatrix};
use std::alloc::{AllocError, Global};

/// True if the product is 0, and at so many further places.
pub fn mark_tight(alloc: Global, products: &[i128], further: usize) -> Result<BitRow, AllocError>
    requires { length products.now + further < 2 ^ 64 }
    ensures { IfOk result (λ values.
        values ≡ map (λ p. int_eq p (pos 0)) products.now ++ replicate further true) }
{
    let mut values = BitRow::all_true(alloc, products.len() + further)?;
    for k in 0..products.len() {
        values.set(k, products[k] == 0);
    }
    Ok(values)
}

/// One more; no memory could hold a number of values past the greatest usize.
pub fn one_more(width: usize) -> Result<usize, AllocError>
    ensures { IfOk result (λ wider. wider ≡ width + 1) }
{
    match width.checked_add(1) {
        Some(wider) => Ok(wider),
        None => Err(AllocError),
    }
}

/// The values, and one more after them.
pub fn lengthen(values: &BitRow, last: bool) -> Result<BitRow, AllocError>
    ensures { IfOk result (λ longer. longer ≡ values.now ++ last ∷ []) }
{
    let mut longer = values.copy()?;
    longer.push(last)?;
    Ok(longer)
}

/// Each row of the matrix with one more value, after what is there.
pub fn push_lengthened(
    wider: &mut SatMatrix,
    matrix: &SatMatrix,
    last: &BitRow,
) -> Result<(), AllocError>
    requires width { wider.old.width ≡ suc matrix.now.width }
    requires each { length last.now ≡ length matrix.now.rows }
    ensures { OnOk result (wider.new ≡ record wider.old
        { rows = wider.old.rows ++ lengthened_rows matrix.now.rows last.now }) }
{
    for k in 0..matrix.height() {
        let row = lengthen(matrix.row(k), last.get(k))?;
        wider.add_row(row)?;
    }
    Ok(())
}
