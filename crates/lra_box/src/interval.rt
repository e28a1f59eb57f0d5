//! Intervals of whole numbers, and the tables of single bounds.

ghost use Rattle.std.specs.Prelude.{◌≡◌, ◌↔◌, IsTrue, IfSome};
ghost use Rattle.lra_box.specs.Crates.lra_linear_spec.Range.{InRange};
ghost use Rattle.lra_box.specs.Tables.{joined_interval, widened_low, IntervalWithin, LowWithin};
ghost use Rattle.lra_box.specs.{Bounds.crossed, Bounds.EndsInRange, Refine.raised, Refine.lowered, Refine.tightened};

use lra_domain::bounds::{is_at_most, join_highs, join_lows};

/// The whole numbers from `low` to `high`; an end without a bound is open.
#[derive(Clone, Copy, Debug, PartialEq, Eq)]
pub struct Interval {
    pub low: Option<i128>,
    pub high: Option<i128>,
}

/// An end of an interval.
#[derive(Clone, Copy, Debug, PartialEq, Eq)]
pub enum Side {
    Low,
    High,
}

impl Interval {
    /// The interval of all numbers.
    pub(crate) const FULL: Interval = Interval {
        low: None,
        high: None,
    };

    /// The interval from the lesser lower to the greater upper bound; an end is open if one of the two is.
    pub fn join(&self, other: &Interval) -> Interval
        ensures { result ≡ joined_interval self.now other.now }
    {
        Interval {
            low: join_lows(self.low, other.low),
            high: join_highs(self.high, other.high),
        }
    }

    /// Whether each bound that the other has is there in this one too, and no wider there.
    pub fn within(&self, other: &Interval) -> bool
        ensures { IsTrue result ↔ IntervalWithin self.now other.now }
    {
        low_within(self.low, other.low) && is_at_most(self.high, other.high)
    }
}

/// The first lower bound, unless the second is below it.
pub fn widen_lows(a: Option<i128>, b: Option<i128>) -> Option<i128>
    ensures { result ≡ widened_low a b }
{
    match (a, b) {
        (Some(a), Some(b)) => { if b < a { None } else { Some(a) } }
        _ => None,
    }
}

pub(crate) fn low_within(a: Option<i128>, b: Option<i128>) -> bool
    ensures { IsTrue result ↔ LowWithin a b }
{
    match (a, b) {
        (_, None) => true,
        (None, Some(_)) => false,
        (Some(a), Some(b)) => b <= a,
    }
}

fn raise(bound: Option<i128>, least: i128) -> i128
    ensures { result ≡ raised bound least }
{
    match bound {
        None => least,
        Some(b) => b.max(least),
    }
}

fn lower(bound: Option<i128>, most: i128) -> i128
    ensures { result ≡ lowered bound most }
{
    match bound {
        None => most,
        Some(b) => b.min(most),
    }
}

/// The numbers `x` of the interval for which `c * x + most` is not negative.
pub(crate) fn tighten(c: i128, most: Option<i128>, interval: Interval) -> Interval
    requires factor { InRange c }
    requires most { IfSome most InRange }
    requires ends { EndsInRange interval }
    ensures value { result ≡ tightened c most interval }
    ensures range { EndsInRange result }
{
    let Some(m) = most else {
        return interval;
    };
    if c > 0 {
        Interval {
            low: Some(raise(interval.low, -m.div_euclid(c))),
            high: interval.high,
        }
    } else if c < 0 {
        Interval {
            low: interval.low,
            high: Some(lower(interval.high, m.div_euclid(-c))),
        }
    } else {
        interval
    }
}

/// Whether the lower bound is above the upper one.
pub fn is_crossed(interval: Interval) -> bool
    ensures { result ≡ crossed interval }
{
    match (interval.low, interval.high) {
        (Some(low), Some(high)) => high < low,
        _ => false,
    }
}
