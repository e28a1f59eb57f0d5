//! The products of a row with the rows of a cone.

ghost use Rattle.std.specs.{List.All, Prelude.◌≡◌, Prelude.length, Prelude.map, Prelude.IfOk, Prelude.IfErr};
ghost use Rattle.lra_double_description.specs.Crates.{lra_linear_spec.Range.InRange, lra_linear_spec.Vectors.product};
ghost use Rattle.lra_double_description.specs.{Steps.IsLastAcross, Strains.IsProductError};

use crate::strained::{ConeError, Family, Member, Strained};
use lra_row::Row;
use std::alloc::Global;

/// The products with each of the rows, or the first that passes the range.
pub fn multiply_all(
    alloc: Global,
    c: &Row,
    rows: &[Row],
    family: Family,
) -> Result<Vec<i128>, ConeError>
    requires widths { All (λ r. length r ≡ length c.now) rows.now }
    ensures ok { IfOk result (λ out. out.items ≡ map (product c.now) rows.now) }
    ensures in_range { IfOk result (λ out. All InRange out.items) }
    ensures strained { IfErr result (IsProductError c.now rows.now family) }
{
    let mut products = Vec::with_capacity(alloc, rows.len())?;
    for place in 0..rows.len() {
        match c.dot(&rows[place]) {
            Ok(product) => products.push(product)?,
            Err(excess) => {
                let member = Member { family, place };
                return Err(ConeError::Strained(Strained::Product(member, excess)));
            }
        }
    }
    Ok(products)
}

/// The last place with a product other than 0.
pub fn last_across(products: &[i128]) -> Option<usize>
    ensures { IsLastAcross products.now (length products.now) result }
{
    let mut last = None;
    for place in 0..products.len() {
        if products[place] != 0 {
            last = Some(place);
        }
    }
    last
}
