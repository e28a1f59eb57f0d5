//! Lists of intervals, one for each dimension.

ghost use Rattle.std.specs.Prelude.{◌≡◌, ◌≤◌, ◌<◌, ◌^◌, IfOk, IsTrue, ◌↔◌, Some, length};
ghost use Rattle.lra_box.specs.Crates.lra_linear_spec.Range.{InRange};
ghost use Rattle.lra_box.specs.Tables.{joined_intervals, widened_intervals, IntervalsWithin, finite_bounds};
ghost use Rattle.lra_box.specs.{Answers.AssignedTo, Bounds.AllValidIntervals, Bounds.form};

use crate::ends::sum_end;
use crate::interval::{Interval, Side, widen_lows};
use lra_domain::Exactness;
use lra_domain::bounds::{count_bound, widen_highs};
use std::alloc::{AllocError, Global};

/// The intervals that hold both, one by one.
pub fn join_all(
    alloc: Global,
    left: &[Interval],
    right: &[Interval],
) -> Result<Vec<Interval>, AllocError>
    requires { length left.now ≡ length right.now }
    ensures { IfOk result (λ all. all.items ≡ joined_intervals left.now right.now) }
{
    let mut all = Vec::new(alloc);
    let mut ours = left;
    let mut theirs = right;
    while let (Some((one, ours_left)), Some((two, theirs_left))) = (
        ours.split_first(),
        theirs.split_first(),
    ) {
        all.push(one.join(two))?;
        ours = ours_left;
        theirs = theirs_left;
    }
    Ok(all)
}

/// The bounds of the first that the second keeps.
pub fn widen_all(
    alloc: Global,
    left: &[Interval],
    right: &[Interval],
) -> Result<Vec<Interval>, AllocError>
    requires { length left.now ≡ length right.now }
    ensures { IfOk result (λ all. all.items ≡ widened_intervals left.now right.now) }
{
    let mut all = Vec::new(alloc);
    let mut ours = left;
    let mut theirs = right;
    while let (Some((one, ours_left)), Some((two, theirs_left))) = (
        ours.split_first(),
        theirs.split_first(),
    ) {
        all.push(Interval {
            low: widen_lows(one.low, two.low),
            high: widen_highs(one.high, two.high),
        })?;
        ours = ours_left;
        theirs = theirs_left;
    }
    Ok(all)
}

/// Whether each interval of the first lies in that of the second.
pub fn all_within(left: &[Interval], right: &[Interval]) -> bool
    requires { length left.now ≡ length right.now }
    ensures { IsTrue result ↔ IntervalsWithin left.now right.now }
{
    let mut ours = left;
    let mut theirs = right;
    while let (Some((one, ours_left)), Some((two, theirs_left))) = (
        ours.split_first(),
        theirs.split_first(),
    ) {
        if !one.within(two) {
            return false;
        }
        ours = ours_left;
        theirs = theirs_left;
    }
    true
}

/// How many bounds there are.
pub fn count_bounds(bounds: &[Interval]) -> u64
    requires { length bounds.now ≤ 2 ^ 30 }
    ensures { result ≡ finite_bounds bounds.now }
{
    let mut count = 0;
    for interval in bounds {
        count += count_bound(interval.low) + count_bound(interval.high);
    }
    count
}

/// Replaces the interval of a place by the ends of a form.
pub fn assign_bounds(
    bounds: &mut [Interval],
    x: usize,
    constant: i128,
    factors: &[i128],
) -> Exactness
    requires place { x < length bounds.old }
    requires width { length factors.now ≡ length bounds.old }
    requires range { InRange constant }
    requires sound { AllValidIntervals bounds.old }
    ensures { AssignedTo x (form constant factors.now) (Some bounds.old) (Some bounds.new) result }
{
    let low = sum_end(Side::Low, constant, factors, bounds);
    let high = sum_end(Side::High, constant, factors, bounds);
    bounds[x] = Interval {
        low: low.value,
        high: high.value,
    };
    match low.exactness {
        Exactness::Flagged => Exactness::Flagged,
        Exactness::Exact => high.exactness,
    }
}
