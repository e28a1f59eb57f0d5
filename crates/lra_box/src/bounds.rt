//! The bounds of a box: an interval for each dimension, or none if it is empty.

ghost use Rattle.std.specs.Prelude.{◌≡◌, ◌+◌, ◌-◌, pos, neg_ℤ, ◌+ℤ◌, ◌≤ℤ◌, ◌≤◌, ◌<◌, ◌^◌, ◌++◌, All, IfOk, OnErr, OnOk};
ghost use Rattle.std.specs.Prelude.{IsTrue, ◌↔◌, None, Some, length, map, replicate, slice_set, take, List};
ghost use Rattle.lra_box.specs.Crates.lra_linear_spec.Vectors.{product};
ghost use Rattle.lra_box.specs.Crates.{lra_linear_forms.Form.HoldsAt, lra_linear_spec.Range.InRange};
ghost use Rattle.lra_box.specs.Refine.{ge_tested, tested, RefinePasses, TestPasses};
ghost use Rattle.lra_box.specs.Tables.{on_bounds, joined_bounds, widened_bounds, grown_bounds, BoundsWithin, admitting};
ghost use Rattle.lra_box.specs.{Answers.AssignedTo, Answers.TestedTo, Bounds.form, Bounds.full_interval};
ghost use Rattle.lra_box.specs.{Content.bounds_view, Content.BoundsFit, Content.BoundsAreValid, Ends.BoundsTell};
ghost use Rattle.lra_box.specs.{Tables.bound_at, Tables.rank_number, declared.interval.Interval.Interval};

use crate::ends::form_end;
use crate::interval::{Interval, Side};
use crate::intervals::{all_within, assign_bounds, count_bounds, join_all, widen_all};
use crate::refine::{occurs, refine_all};
use lra_domain::{ConKind, Exactness, LinExpr, Mode, Rank, Test, worse};
use std::alloc::{AllocError, Global};

/// The intervals of a box, or none if it is empty.
pub type Bounds = Option<Vec<Interval>>;

/// All stores of `n` dimensions.
pub fn universe(alloc: Global, n: usize) -> Result<Bounds, AllocError>
    ensures { IfOk result (λ b. bounds_view b ≡ Some (replicate n full_interval)) }
{
    Ok(Some(vec![in alloc; Interval::FULL; n]?))
}

/// A copy of the bounds.
pub fn copy_bounds(alloc: Global, bounds: &Bounds) -> Result<Bounds, AllocError>
    ensures { IfOk result (λ b. bounds_view b ≡ bounds_view bounds.now) }
{
    match bounds {
        None => Ok(None),
        Some(intervals) => Ok(Some(Vec::from_slice(alloc, intervals.as_slice())?)),
    }
}

/// Whether the first lies in the second.
pub fn is_within(one: &Bounds, two: &Bounds) -> bool
    requires { (is js : List Interval) → bounds_view one.now ≡ Some is → bounds_view two.now ≡ Some js →
        length is ≡ length js }
    ensures { IsTrue result ↔ BoundsWithin (bounds_view one.now) (bounds_view two.now) }
{
    match (one, two) {
        (None, _) => true,
        (Some(_), None) => false,
        (Some(ours), Some(theirs)) => all_within(ours.as_slice(), theirs.as_slice()),
    }
}

#[tactic(auto, using(crate::proofs::WithinLemmas::within_both, crate::proofs::WithinLemmas::equal_within))]
/// Whether the two are equal: each lies in the other.
pub fn is_same(one: &Bounds, two: &Bounds) -> bool
    requires { (is js : List Interval) → bounds_view one.now ≡ Some is → bounds_view two.now ≡ Some js →
        length is ≡ length js }
    ensures { IsTrue result ↔ (bounds_view one.now ≡ bounds_view two.now) }
{
    is_within(one, two) && is_within(two, one)
}

/// Assigns `constant + factors` to place `x`.
pub fn assign_in(bounds: &mut Bounds, x: usize, constant: i128, factors: &[i128]) -> Exactness
    requires place { x < length factors.now }
    requires width { BoundsFit (length factors.now) (bounds_view bounds.old) }
    requires range { InRange constant }
    requires sound { BoundsAreValid (bounds_view bounds.old) }
    ensures { AssignedTo x (form constant factors.now) (bounds_view bounds.old)
        (bounds_view bounds.new) result }
{
    match bounds {
        None => Exactness::Exact,
        Some(intervals) => assign_bounds(intervals.as_mut_slice(), x, constant, factors),
    }
}

/// The form's coefficients, as wider numbers.
pub fn wide_row(alloc: Global, e: &LinExpr) -> Result<Vec<i128>, AllocError>
    ensures row { IfOk result (λ row. row.items ≡ e.now.coefficients) }
    ensures range { IfOk result (λ row. All InRange row.items) }
{
    let mut row = Vec::new(alloc);
    for factor in e.coefficients() {
        row.push(*factor as i128)?;
    }
    Ok(row)
}

/// The form's coefficients times -1, as wider numbers.
pub fn opposite_row(alloc: Global, e: &LinExpr) -> Result<Vec<i128>, AllocError>
    ensures row { IfOk result (λ row. row.items ≡ map neg_ℤ e.now.coefficients) }
    ensures range { IfOk result (λ row. All InRange row.items) }
{
    let mut row = Vec::new(alloc);
    let mut left = e.coefficients();
    while let Some((factor, later)) = left.split_first() {
        let opposite = -(*factor as i128);
        row.push(opposite)?;
        left = later;
    }
    Ok(row)
}

/// Refines by `constant + factors >= 0`.
fn test_ge(bounds: &mut Bounds, constant: i128, factors: &mut [i128]) -> Exactness
    requires width { BoundsFit (length factors.old) (bounds_view bounds.old) }
    requires range { InRange constant }
    requires factors { All InRange factors.old }
    requires sound { BoundsAreValid (bounds_view bounds.old) }
    ensures tested { TestedTo (ge_tested constant factors.old (bounds_view bounds.old))
        (RefinePasses constant factors.old (length factors.old) (bounds_view bounds.old))
        (λ s. pos 0 ≤ℤ (constant +ℤ product factors.old s)) (bounds_view bounds.old) (bounds_view bounds.new) result }
{
    let Some(intervals) = bounds else {
        return Exactness::Exact;
    };
    if !occurs(factors) {
        if constant < 0 {
            *bounds = None;
        }
        return Exactness::Exact;
    }
    let refined = refine_all(intervals.as_mut_slice(), constant, factors);
    if refined.is_crossed {
        *bounds = None;
    }
    refined.exactness
}

/// Refines by `constant + factors = 0`: by it as `>= 0`, then by its opposite.
fn test_eq(
    bounds: &mut Bounds,
    constant: i128,
    factors: &mut [i128],
    opposite: &mut [i128],
) -> Exactness
    requires width { BoundsFit (length factors.old) (bounds_view bounds.old) }
    requires range { InRange constant }
    requires factors { All InRange factors.old }
    requires negated { opposite.old ≡ map neg_ℤ factors.old }
    requires opposites { All InRange opposite.old }
    requires sound { BoundsAreValid (bounds_view bounds.old) }
    ensures tested { let e = form constant factors.old in TestedTo (tested ConKind.Eq e (bounds_view bounds.old))
        (TestPasses ConKind.Eq e (bounds_view bounds.old)) (HoldsAt ConKind.Eq e) (bounds_view bounds.old)
        (bounds_view bounds.new) result }
{
    let one = test_ge(bounds, constant, factors);
    let two = test_ge(bounds, -constant, opposite);
    worse(one, two)
}

/// Refines by a test.
pub fn test_in(alloc: Global, bounds: &mut Bounds, t: &Test) -> Result<Exactness, AllocError>
    requires width { BoundsFit (length t.now.expr.coefficients) (bounds_view bounds.old) }
    requires sound { BoundsAreValid (bounds_view bounds.old) }
    ensures tested { IfOk result
        (λ e. TestedTo (tested t.now.kind t.now.expr (bounds_view bounds.old))
        (TestPasses t.now.kind t.now.expr (bounds_view bounds.old)) (HoldsAt t.now.kind t.now.expr)
        (bounds_view bounds.old)
        (bounds_view bounds.new) e) }
    ensures err { OnErr result (bounds_view bounds.new ≡ bounds_view bounds.old) }
{
    let constant = t.expr.constant() as i128;
    let mut row = wide_row(alloc, &t.expr)?;
    match t.kind {
        ConKind::Ge => Ok(test_ge(bounds, constant, row.as_mut_slice())),
        ConKind::Eq => {
            let mut opposite = opposite_row(alloc, &t.expr)?;
            Ok(test_eq(
                bounds,
                constant,
                row.as_mut_slice(),
                opposite.as_mut_slice(),
            ))
        }
    }
}

/// Any number at place `x`.
pub fn forget_in(bounds: &mut Bounds, x: usize)
    requires { (is : List Interval) → bounds_view bounds.old ≡ Some is → x < length is }
    ensures { bounds_view bounds.new
        ≡ on_bounds (λ is. slice_set is x full_interval) (bounds_view bounds.old) }
{
    if let Some(intervals) = bounds {
        intervals[x] = Interval::FULL;
    }
}

/// The bounds of place `x`; none if the box is empty.
pub fn find_bound(bounds: &Bounds, x: usize) -> Option<Interval>
    requires { (is : List Interval) → bounds_view bounds.now ≡ Some is → x < length is }
    ensures { result ≡ bound_at x (bounds_view bounds.now) }
{
    match bounds {
        None => None,
        Some(intervals) => Some(intervals[x]),
    }
}

/// The interval comes in at place `x`.
pub fn admit_in(bounds: &mut Bounds, x: usize, interval: &Interval)
    requires { (is : List Interval) → bounds_view bounds.old ≡ Some is → x < length is }
    ensures { bounds_view bounds.new
        ≡ on_bounds (admitting x interval.now) (bounds_view bounds.old) }
{
    if let Some(intervals) = bounds {
        intervals[x] = intervals[x].join(interval);
    }
}

/// `k` more places of any number.
pub fn embed_in(bounds: &mut Bounds, k: usize) -> Result<(), AllocError>
    requires { (is : List Interval) → bounds_view bounds.old ≡ Some is → length is + k < 2 ^ 64 }
    ensures ok { OnOk result
        (bounds_view bounds.new ≡ on_bounds (λ is. is ++ replicate k full_interval) (bounds_view bounds.old)) }
    ensures err { OnErr result (bounds_view bounds.new ≡ bounds_view bounds.old) }
{
    match bounds {
        None => Ok(()),
        Some(intervals) => intervals.resize(intervals.len() + k, Interval::FULL),
    }
}

/// The first `n` places.
pub fn truncate_in(bounds: &mut Bounds, n: usize)
    ensures { bounds_view bounds.new ≡ on_bounds (λ is. take n is) (bounds_view bounds.old) }
{
    if let Some(intervals) = bounds {
        intervals.truncate(n);
    }
}

/// The least bounds that hold both.
pub fn join_bounds(alloc: Global, one: &Bounds, two: &Bounds) -> Result<Bounds, AllocError>
    requires { (is js : List Interval) → bounds_view one.now ≡ Some is → bounds_view two.now ≡ Some js →
        length is ≡ length js }
    ensures { IfOk result
        (λ b. bounds_view b ≡ joined_bounds (bounds_view one.now) (bounds_view two.now)) }
{
    match (one, two) {
        (None, other) => copy_bounds(alloc, other),
        (Some(ours), None) => Ok(Some(Vec::from_slice(alloc, ours.as_slice())?)),
        (Some(ours), Some(theirs)) => Ok(Some(join_all(
            alloc,
            ours.as_slice(),
            theirs.as_slice(),
        )?)),
    }
}

fn widen_bounds(alloc: Global, one: &Bounds, two: &Bounds) -> Result<Bounds, AllocError>
    requires { (is js : List Interval) → bounds_view one.now ≡ Some is → bounds_view two.now ≡ Some js →
        length is ≡ length js }
    ensures { IfOk result
        (λ b. bounds_view b ≡ widened_bounds (bounds_view one.now) (bounds_view two.now)) }
{
    match (one, two) {
        (None, other) => copy_bounds(alloc, other),
        (Some(ours), None) => Ok(Some(Vec::from_slice(alloc, ours.as_slice())?)),
        (Some(ours), Some(theirs)) => Ok(Some(widen_all(
            alloc,
            ours.as_slice(),
            theirs.as_slice(),
        )?)),
    }
}

/// The join of the two, and past joining the first widened by it.
pub fn grow_bounds(
    alloc: Global,
    one: &Bounds,
    two: &Bounds,
    mode: Mode,
) -> Result<Bounds, AllocError>
    requires { (is js : List Interval) → bounds_view one.now ≡ Some is → bounds_view two.now ≡ Some js →
        length is ≡ length js }
    ensures { IfOk result
        (λ b. bounds_view b ≡ grown_bounds mode (bounds_view one.now) (bounds_view two.now)) }
{
    let joined = join_bounds(alloc, one, two)?;
    match mode {
        Mode::Join => Ok(joined),
        Mode::Widen | Mode::Limited | Mode::Tightest => widen_bounds(alloc, one, &joined),
    }
}

/// The least and the greatest value of the form within the bounds, as they are stated.
pub fn bounds_of(bounds: &Bounds, e: &LinExpr) -> (Option<i128>, Option<i128>)
    requires { BoundsFit (length e.now.coefficients) (bounds_view bounds.now) }
    ensures { BoundsTell (bounds_view bounds.now) e.now result.0 result.1 }
{
    match bounds {
        None => (None, None),
        Some(intervals) => {
            let low = form_end(Side::Low, e, intervals.as_slice());
            let high = form_end(Side::High, e, intervals.as_slice());
            (low, high)
        }
    }
}

/// 1, 0, 0, and how many bounds there are; one more than the most there can be if the box is empty.
pub fn rank_of(dims: usize, bounds: &Bounds) -> Rank
    requires few { dims ≤ 2 ^ 30 }
    requires fit { BoundsFit dims (bounds_view bounds.now) }
    ensures { result ≡ record { first = 1; second = 0; third = 0; fourth = rank_number dims (bounds_view bounds.now) } }
{
    let fourth = match bounds {
        None => 2 * dims as u64 + 1,
        Some(intervals) => count_bounds(intervals.as_slice()),
    };
    Rank {
        first: 1,
        second: 0,
        third: 0,
        fourth,
    }
}
