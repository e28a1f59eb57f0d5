//! The unary bounds of a matrix: an interval for each variable.

ghost use Rattle.std.specs.Prelude.{◌≡◌, ◌≤◌, ◌<◌, ◌*◌, ◌^◌, ℕ, length, slice_index_or, IfOk, IfSome};
ghost use Rattle.lra_linear_spec.specs.Range.{InRange};
ghost use Rattle.lra_dbm.specs.Cells.{IsMatrix, entries};
ghost use Rattle.lra_box.specs.Bounds.{EndsInRange, full_interval};
ghost use Rattle.lra_octagon.specs.Content.{matrix_view, DimsFit};
ghost use Rattle.lra_octagon.specs.Entering.{BoundsOne, BoundsAll, BoundedTo};
ghost use Rattle.lra_octagon.specs.Tables.{most, interval, intervals, upper_of, some_crossed, IsHalf};

use crate::bounds::{Bounds, close};
use lra_box::{Interval, is_crossed};
use lra_dbm::{Dbm, add, opposite};
use lra_domain::{Exactness, worse};
use std::alloc::{AllocError, Global};

/// The greatest value of the signed variable that the matrix allows, rounded down.
pub fn most(n: usize, matrix: &Dbm, i: usize) -> Option<i128>
    requires few { n ≤ 2 ^ 30 }
    requires row { i < 2 * n }
    requires dims { matrix.now.dims ≡ n }
    requires is { IsMatrix n matrix.now.cells }
    ensures most { result ≡ most (entries n matrix.now.cells) i }
    ensures range { IfSome result InRange }
    ensures half { IfSome result IsHalf }
{
    match matrix.bound(opposite(n, i), i) {
        Some(twice) => Some(twice.div_euclid(2)),
        None => None,
    }
}

/// The numbers of `x_k` that the matrix allows.
pub(crate) fn interval_of(n: usize, matrix: &Dbm, k: usize) -> Interval
    requires few { n ≤ 2 ^ 30 }
    requires place { k < n }
    requires dims { matrix.now.dims ≡ n }
    requires is { IsMatrix n matrix.now.cells }
    ensures interval { result ≡ interval (entries n matrix.now.cells) k }
    ensures range { EndsInRange result }
{
    let low = match most(n, matrix, 2 * k + 1) {
        Some(opposite) => Some(-opposite),
        None => None,
    };
    Interval {
        low,
        high: most(n, matrix, 2 * k),
    }
}

#[tactic(auto, using(crate::proofs::UnaryLemmas::intervals_more, crate::proofs::UnaryLemmas::intervals_end))]
/// The numbers of each variable that the matrix allows.
pub fn intervals_of(alloc: Global, n: usize, matrix: &Dbm) -> Result<Vec<Interval>, AllocError>
    requires few { n ≤ 2 ^ 30 }
    requires dims { matrix.now.dims ≡ n }
    requires is { IsMatrix n matrix.now.cells }
    ensures { IfOk result (λ is. is.items ≡ intervals n (entries n matrix.now.cells)) }
{
    let mut intervals = Vec::new(alloc);
    for k in 0..n {
        intervals.push(interval_of(n, matrix, k))?;
    }
    Ok(intervals)
}

/// A signed variable is at most a number: enters twice the number, unless that passes the range.
#[tactic(auto, using(crate::proofs::EnterLemmas::bound_rules))]
fn bound_above(n: usize, matrix: &mut Dbm, i: usize, most: Option<i128>) -> Exactness
    requires few { n ≤ 2 ^ 30 }
    requires row { i < 2 * n }
    requires dims { matrix.old.dims ≡ n }
    requires is { IsMatrix n matrix.old.cells }
    ensures dims { matrix.new.dims ≡ n }
    ensures bounds { BoundsOne n i most matrix.old.cells matrix.new.cells result }
{
    let Some(number) = most else {
        return Exactness::Exact;
    };
    let Some(twice) = add(number, number) else {
        return Exactness::Flagged;
    };
    matrix.enter(opposite(n, i), i, twice);
    Exactness::Exact
}

/// The upper bound that the interval sets for a variable, or with sign 1 for its opposite.
fn upper_of(sign: usize, interval: Interval) -> Option<i128>
    requires { EndsInRange interval }
    ensures { result ≡ upper_of sign interval }
{
    if sign == 0 {
        return interval.high;
    }
    match interval.low {
        Some(low) => Some(-low),
        None => None,
    }
}

#[tactic(auto, using(crate::proofs::EnterLemmas::bounds_start, crate::proofs::EnterLemmas::bounds_end))]
/// Each variable lies in its interval: enters twice the upper bound of each signed variable, unless that passes the
/// range.
pub fn bound_all(n: usize, matrix: &mut Dbm, intervals: &[Interval]) -> Exactness
    requires few { n ≤ 2 ^ 30 }
    requires width { length intervals.now ≡ n }
    requires ends { (k : ℕ) → EndsInRange (slice_index_or intervals.now k full_interval) }
    requires dims { matrix.old.dims ≡ n }
    requires is { IsMatrix n matrix.old.cells }
    ensures dims { matrix.new.dims ≡ n }
    ensures bounds { BoundsAll n intervals.now matrix.old.cells matrix.new.cells result }
{
    let mut exactness = Exactness::Exact;
    for i in 0..2 * n {
        let most = upper_of(i % 2, intervals[i / 2]);
        exactness = worse(exactness, bound_above(n, matrix, i, most));
    }
    exactness
}

#[tactic(auto, using(crate::proofs::OtherLemmas::bounded_to))]
/// The matrix with the variables in these intervals, closed.
pub fn close_within(n: usize, matrix: Dbm, intervals: &[Interval]) -> (Bounds, Exactness)
    requires few { n ≤ 2 ^ 30 }
    requires width { length intervals.now ≡ n }
    requires ends { (k : ℕ) → EndsInRange (slice_index_or intervals.now k full_interval) }
    requires dims { matrix.dims ≡ n }
    requires is { IsMatrix n matrix.cells }
    ensures dims { DimsFit n result.0 }
    ensures bounded { BoundedTo n intervals.now matrix.cells (matrix_view result.0) result.1 }
{
    let mut bound = matrix;
    let doubled = bound_all(n, &mut bound, intervals);
    let (closed, closing) = close(n, bound);
    (closed, worse(doubled, closing))
}

/// Whether some interval is crossed: its lower bound is above its upper one.
pub fn some_crossed(intervals: &[Interval]) -> bool
    ensures { result ≡ some_crossed intervals.now }
{
    let mut left = intervals;
    while let Some((interval, later)) = left.split_first() {
        if is_crossed(*interval) {
            return true;
        }
        left = later;
    }
    false
}
