//! The ends of a form's values over a box.

ghost use Rattle.std.specs.Prelude.{◌≡◌, length, IfSome};
ghost use Rattle.lra_domain.specs.declared.Exactness.TheVariants.{Exact};
ghost use Rattle.lra_box.specs.Crates.lra_linear_spec.Range.{InRange};
ghost use Rattle.lra_box.specs.Bounds.{times, TimesPasses, end_product, EndProductPasses, end_sum, SumPasses, IsBound};
ghost use Rattle.lra_box.specs.Ends.{IsEnd, PlusEnd};

use crate::interval::{Interval, Side};
use lra_domain::{Exactness, LinExpr, add, mul};

/// A bound, or none, and whether it is none because a number passed the range.
#[derive(Clone, Copy, Debug, PartialEq, Eq)]
pub struct Bound {
    pub value: Option<i128>,
    pub exactness: Exactness,
}

fn times_bound(c: i128, end: Option<i128>) -> Bound
    ensures bound { IsBound (times c end) (TimesPasses c end) result }
    ensures fits { result.exactness ≡ Exact → ¬ TimesPasses c end }
{
    match end {
        None => Bound {
            value: None,
            exactness: Exactness::Exact,
        },
        Some(b) => match mul(c, b) {
            Some(p) => Bound {
                value: Some(p),
                exactness: Exactness::Exact,
            },
            None => Bound {
                value: None,
                exactness: Exactness::Flagged,
            },
        },
    }
}

fn product_end(side: Side, c: i128, interval: Interval) -> Bound
    ensures bound { IsBound (end_product side c interval) (EndProductPasses side c interval)
        result }
    ensures fits { result.exactness ≡ Exact → ¬ EndProductPasses side c interval }
{
    if c == 0 {
        return Bound {
            value: Some(0),
            exactness: Exactness::Exact,
        };
    }
    let wants_low = match side {
        Side::Low => c > 0,
        Side::High => c < 0,
    };
    if wants_low {
        times_bound(c, interval.low)
    } else {
        times_bound(c, interval.high)
    }
}

/// The least or the greatest value of `constant + coefficients` over the intervals, summed from the constant on in
/// column order.
pub fn sum_end(side: Side, constant: i128, coefficients: &[i128], bounds: &[Interval]) -> Bound
    requires width { length coefficients.now ≡ length bounds.now }
    requires range { InRange constant }
    ensures bound { IsBound (end_sum side constant coefficients.now bounds.now)
        (SumPasses side constant coefficients.now bounds.now) result }
    ensures range { IfSome result.value InRange }
{
    let mut sum = constant;
    let mut factors = coefficients;
    let mut intervals = bounds;
    while let (Some((factor, factors_left)), Some((interval, intervals_left))) = (
        factors.split_first(),
        intervals.split_first(),
    ) {
        let product = product_end(side, *factor, *interval);
        match product.value {
            None => return product,
            Some(p) => match add(sum, p) {
                None => {
                    return Bound {
                        value: None,
                        exactness: Exactness::Flagged,
                    };
                }
                Some(more) => sum = more,
            },
        }
        factors = factors_left;
        intervals = intervals_left;
    }
    Bound {
        value: Some(sum),
        exactness: Exactness::Exact,
    }
}

/// A sum with the least or the greatest product of a coefficient with a number of the interval; none if there is no
/// such product, or a number passes the range.
pub fn plus_end(side: Side, sum: i128, factor: i128, interval: Interval) -> Option<i128>
    ensures { PlusEnd side sum factor interval result }
{
    let product = product_end(side, factor, interval);
    match product.value {
        None => None,
        Some(p) => add(sum, p),
    }
}

/// The least or the greatest value of the form over the intervals, as an assignment sums it; none if it has none, or
/// a number passes the range. Takes no memory.
pub fn form_end(side: Side, e: &LinExpr, bounds: &[Interval]) -> Option<i128>
    requires { length e.now.coefficients ≡ length bounds.now }
    ensures { IsEnd side e.now bounds.now result }
{
    let mut sum = e.constant() as i128;
    let mut factors = e.coefficients();
    let mut intervals = bounds;
    while let (Some((factor, factors_left)), Some((interval, intervals_left))) = (
        factors.split_first(),
        intervals.split_first(),
    ) {
        match plus_end(side, sum, *factor as i128, *interval) {
            None => return None,
            Some(more) => sum = more,
        }
        factors = factors_left;
        intervals = intervals_left;
    }
    Some(sum)
}
