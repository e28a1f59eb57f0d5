//! How single intervals grow, of which there may be none.

ghost use Rattle.std.specs.Prelude.{◌≡◌, ◌↔◌, IsTrue};
ghost use Rattle.lra_threads_fixpoint.specs.Intervals.{grown_option, joined_option, widened_option, OptionWithin};

use lra_box::{Interval, widen_lows};
use lra_domain::bounds::widen_highs;

/// How an interval takes in another.
#[derive(Clone, Copy, Debug, PartialEq, Eq)]
pub enum Growth {
    /// By the lesser lower and the greater upper bound.
    Join,
    /// An empty one becomes the other; of any other a bound that would move goes.
    Widen,
}

/// Both; if one is none, the other.
fn join(one: Option<Interval>, two: Option<Interval>) -> Option<Interval>
    ensures { result ≡ joined_option one two }
{
    match (one, two) {
        (None, two) => two,
        (Some(one), None) => Some(one),
        (Some(one), Some(two)) => Some(one.join(&two)),
    }
}

/// The bounds of the first that stay when the second comes in; if the first is none, the second.
fn widen(one: Option<Interval>, two: Option<Interval>) -> Option<Interval>
    ensures { result ≡ widened_option one two }
{
    match (one, two) {
        (None, two) => two,
        (Some(one), None) => Some(one),
        (Some(one), Some(two)) => {
            let both = one.join(&two);
            Some(Interval {
                low: widen_lows(one.low, both.low),
                high: widen_highs(one.high, both.high),
            })
        }
    }
}

/// The first interval, when the second has come in.
pub fn grow(growth: Growth, one: Option<Interval>, two: Option<Interval>) -> Option<Interval>
    ensures { result ≡ grown_option growth one two }
{
    match growth {
        Growth::Join => join(one, two),
        Growth::Widen => widen(one, two),
    }
}

/// Whether the first lies in the second.
pub fn is_within(one: Option<Interval>, two: Option<Interval>) -> bool
    ensures { IsTrue result ↔ OptionWithin one two }
{
    match (one, two) {
        (None, _) => true,
        (Some(_), None) => false,
        (Some(one), Some(two)) => one.within(&two),
    }
}
