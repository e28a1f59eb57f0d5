//! Whole multipliers of a claim, of `1 >= 0` and of premises.

ghost use Rattle.std.specs.Prelude.{◌≡◌, IfOk};
ghost use Rattle.lra_multipliers.specs.Columns.{used_from};

use std::alloc::{AllocError, Global};

/// Multipliers of a claim, of `1 >= 0` and of each premise.
#[derive(Drop)]
pub struct Multipliers {
    pub divisor: i128,
    pub constant: i128,
    pub factors: Vec<i128>,
    // where the factors other than 0 stand
    used: Vec<usize>,
    ghost used_are: { used.items ≡ used_from 0 factors.items },
}

/// Where the factors other than 0 stand.
fn places_used(alloc: Global, factors: &[i128]) -> Result<Vec<usize>, AllocError>
    ensures { IfOk result (λ used. used.items ≡ used_from 0 factors.now) }
{
    let mut used = Vec::new(alloc);
    for place in 0..factors.len() {
        if factors[place] != 0 {
            used.push(place)?;
        }
    }
    Ok(used)
}

impl Multipliers {
    pub fn new(
        alloc: Global,
        divisor: i128,
        constant: i128,
        factors: Vec<i128>,
    ) -> Result<Multipliers, AllocError>
        ensures divisor { IfOk result (λ m. m.divisor ≡ divisor) }
        ensures constant { IfOk result (λ m. m.constant ≡ constant) }
        ensures factors { IfOk result (λ m. m.factors.items ≡ factors.items) }
    {
        let used = places_used(alloc, factors.as_slice())?;
        Ok(Multipliers {
            divisor,
            constant,
            factors,
            used,
        })
    }

    /// Where the factors other than 0 stand.
    pub fn used(&self) -> &[usize]
        ensures { result.now ≡ used_from 0 self.now.factors.items }
    {
        self.used.as_slice()
    }
}
