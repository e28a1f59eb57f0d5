//! Upper bounds: `None` is no bound, above all; and lower ones, where it is below all.

ghost use Rattle.std.specs.Prelude.{◌≡◌, ◌↔◌, IsTrue};
ghost use Rattle.lra_domain.specs.Bounds.{AtMost, finite, greater, lesser_low, stable};

/// The greater bound; none if one of the two is none.
pub fn join_highs(a: Option<i128>, b: Option<i128>) -> Option<i128>
    ensures { result ≡ greater a b }
{
    match (a, b) {
        (Some(a), Some(b)) => Some(a.max(b)),
        _ => None,
    }
}

/// The lesser lower bound; none if one of the two is none.
pub fn join_lows(a: Option<i128>, b: Option<i128>) -> Option<i128>
    ensures { result ≡ lesser_low a b }
{
    match (a, b) {
        (Some(a), Some(b)) => Some(a.min(b)),
        _ => None,
    }
}

/// The first bound if the second is at most it, else none.
pub fn widen_highs(a: Option<i128>, b: Option<i128>) -> Option<i128>
    ensures { result ≡ stable a b }
{
    match (a, b) {
        (Some(a), Some(b)) => { if a < b { None } else { Some(a) } }
        _ => None,
    }
}

/// Whether the first bound is at most the second.
pub fn is_at_most(a: Option<i128>, b: Option<i128>) -> bool
    ensures { IsTrue result ↔ AtMost a b }
{
    match (a, b) {
        (_, None) => true,
        (None, Some(_)) => false,
        (Some(a), Some(b)) => a <= b,
    }
}

/// 1 for a bound, 0 for none.
pub fn count_bound(bound: Option<i128>) -> u64
    ensures { result ≡ finite bound }
{
    match bound {
        None => 0,
        Some(_) => 1,
    }
}
