//! The sides of a row on which rays stand, by their products with it.

ghost use Rattle.std.specs.Prelude.{length, IfOk};
ghost use Rattle.lra_double_description.specs.Below.{AreBelow};

use std::alloc::{AllocError, Global};

/// The places of the products below 0.
pub fn places_below(alloc: Global, products: &[i128]) -> Result<Vec<usize>, AllocError>
    ensures { IfOk result (λ places. AreBelow products.now 0 (length products.now) places.items) }
{
    let mut places = Vec::new(alloc);
    for k in 0..products.len() {
        if products[k] < 0 {
            places.push(k)?;
        }
    }
    Ok(places)
}

/// How many products are above 0; it decides what a step costs, and no result.
pub fn count_above(products: &[i128]) -> usize {
    let mut count = 0;
    for k in 0..products.len() {
        if products[k] > 0 {
            count += 1;
        }
    }
    count
}
