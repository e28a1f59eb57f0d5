//! A test refines the intervals, place by place.

ghost use Rattle.std.specs.Prelude.{◌≡◌, ◌≢◌, ◌↔◌, pos, ◌<◌, length, IsTrue, None, Some, All, if◌then◌else◌, ◌+ℤ◌};
ghost use Rattle.std.specs.Prelude.{◌≤ℤ◌, slice_index_or};
ghost use Rattle.lra_domain.specs.declared.Exactness.TheVariants.{Exact};
ghost use Rattle.lra_box.specs.Crates.{lra_linear_spec.Range.InRange, lra_linear_spec.Vectors.product};
ghost use Rattle.lra_box.specs.Refine.{refined, some_occurs, RefinePasses, TightAt};
ghost use Rattle.lra_box.specs.{Answers.TestedTo, Bounds.AllValidIntervals, Bounds.EndsInRange, Bounds.full_interval};

use crate::ends::sum_end;
use crate::interval::{Interval, Side, is_crossed, tighten};
use lra_domain::{Exactness, worse};

/// What tightening a place found.
#[derive(Clone, Copy, Debug, PartialEq, Eq)]
pub struct Tight {
    pub interval: Interval,
    pub exactness: Exactness,
}

/// The interval of a place, tightened by `constant + factors >= 0`.
fn tight_at(bounds: &[Interval], constant: i128, factors: &mut [i128], k: usize) -> Tight
    requires place { k < length factors.old }
    requires width { length factors.old ≡ length bounds.now }
    requires range { InRange constant }
    requires factors { All InRange factors.old }
    requires ends { EndsInRange (slice_index_or bounds.now k full_interval) }
    ensures tight { TightAt constant factors.old k bounds.now result.interval result.exactness }
    ensures factors { factors.new ≡ factors.old }
{
    let factor = factors[k];
    if factor == 0 {
        return Tight {
            interval: bounds[k],
            exactness: Exactness::Exact,
        };
    }
    factors[k] = 0;
    let most = sum_end(Side::High, constant, factors, bounds);
    factors[k] = factor;
    Tight {
        interval: tighten(factor, most.value, bounds[k]),
        exactness: most.exactness,
    }
}

/// What refining all places found.
#[derive(Clone, Copy, Debug, PartialEq, Eq)]
pub struct Refined {
    pub is_crossed: bool,
    pub exactness: Exactness,
}

/// Whether some factor isn't 0.
pub fn occurs(factors: &[i128]) -> bool
    ensures { result ≡ some_occurs factors.now }
{
    let mut left = factors;
    while let Some((factor, later)) = left.split_first() {
        if *factor != 0 {
            return true;
        }
        left = later;
    }
    false
}

/// Tightens each place in order by `constant + factors >= 0`, until one is crossed.
pub fn refine_all(bounds: &mut [Interval], constant: i128, factors: &mut [i128]) -> Refined
    requires width { length factors.old ≡ length bounds.old }
    requires range { InRange constant }
    requires factors { All InRange factors.old }
    requires sound { AllValidIntervals bounds.old }
    ensures tested { TestedTo (refined constant factors.old (length factors.old) (Some bounds.old))
        (RefinePasses constant factors.old (length factors.old) (Some bounds.old))
        (λ s. pos 0 ≤ℤ (constant +ℤ product factors.old s)) (Some bounds.old)
        (if result.is_crossed then None else Some bounds.new) result.exactness }
    ensures factors { factors.new ≡ factors.old }
{
    let mut exactness = Exactness::Exact;
    for k in 0..factors.len() {
        let tight = tight_at(bounds, constant, factors, k);
        exactness = worse(exactness, tight.exactness);
        if is_crossed(tight.interval) {
            return Refined {
                is_crossed: true,
                exactness,
            };
        }
        bounds[k] = tight.interval;
    }
    Refined {
        is_crossed: false,
        exactness,
    }
}
