//! Bounds of the gauge. They are added before they are compared or joined, and a sum past its limit exceeds a limit.

ghost use Rattle.std.specs.Prelude.{◌≡◌, ◌≢◌, ◌≤◌, ◌<◌, ◌↔◌, max, IsTrue};
ghost use Rattle.lra_domain.specs.declared.Exactness.TheVariants.{Exact, Flagged};
ghost use Rattle.lra_domain.specs.declared.Included.TheVariants.{Yes, No, Wide};
ghost use Rattle.lra_example_domain.specs.Bounds.{unbounded, Passes, grown_bound, GrowthPasses};

use lra_domain::{Exactness, Included, Mode};

/// The bound of a value that doesn't bound the gauge.
pub const UNBOUNDED: u8 = 255;

/// Whether the sum of two bounds passes its limit; what isn't bounded is never added.
fn is_past(limit: u8, one: u8, two: u8) -> bool
    ensures { IsTrue result ↔ Passes limit one two }
{
    one < UNBOUNDED && two < UNBOUNDED && one as u16 + two as u16 > limit as u16
}

/// Whether the inner bound lies within the outer one.
pub fn compare(outer: u8, inner: u8) -> Included
    ensures yes { result ≡ Yes → inner ≤ outer }
    ensures no { result ≡ No → outer < inner }
    ensures wide { result ≡ Wide → Passes 100 outer inner }
{
    if is_past(100, outer, inner) {
        Included::Wide
    } else if inner <= outer {
        Included::Yes
    } else {
        Included::No
    }
}

/// The greater of two bounds.
pub fn join_bounds(one: u8, two: u8) -> (u8, Exactness)
    ensures left { one ≤ result.0 }
    ensures right { two ≤ result.0 }
    ensures exact { result.1 ≡ Exact → result.0 ≡ max one two }
    ensures flagged { result.1 ≡ Flagged → Passes 60 one two }
{
    if is_past(60, one, two) {
        (UNBOUNDED, Exactness::Flagged)
    } else {
        (one.max(two), Exactness::Exact)
    }
}

/// The greater of two bounds, or no bound past joining.
pub fn grow_bounds(mode: Mode, one: u8, two: u8) -> (u8, Exactness)
    ensures left { one ≤ result.0 }
    ensures right { two ≤ result.0 }
    ensures covers { grown_bound mode one two ≤ result.0 }
    ensures exact { result.1 ≡ Exact → result.0 ≡ grown_bound mode one two }
    ensures flagged { result.1 ≡ Flagged → GrowthPasses mode one two }
    ensures widened { mode ≢ Mode.Join → result.0 ≡ unbounded }
{
    match mode {
        Mode::Join => join_bounds(one, two),
        Mode::Widen | Mode::Limited | Mode::Tightest => (UNBOUNDED, Exactness::Exact),
    }
}
