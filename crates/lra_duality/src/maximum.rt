//! The greatest value of a form.

ghost use Rattle.std.specs.Prelude.{◌≡◌, ◌↔◌, ◌<◌, [], length, List, pos, ◌+ℤ◌, ◌*ℤ◌, ◌<ℤ◌, false, Ok, IsErr, IsOk};
ghost use Rattle.std.specs.Prelude.{IsTrue, MatchOption, slice_index_or, unsigned_abs};
ghost use Rattle.std.specs.{Int.IsGcd, List.All, Option.SomeIff};
ghost use Rattle.lra_linear_forms.specs.Form.{AddsInRange, form_row};
ghost use Rattle.lra_duality.specs.Crates.lra_linear_spec.CheckedArithmetic.{checked_product, checked_product_from};
ghost use Rattle.lra_duality.specs.Crates.lra_linear_spec.Vectors.{entry, product};
ghost use Rattle.lra_duality.specs.Crates.{lra_linear_spec.Descriptions.LinearRow, lra_linear_spec.Range.InRange};
ghost use Rattle.lra_duality.specs.Crates.{lra_systems.FirstPlaces.FirstAt, lra_systems.LinearSystems.generators};
ghost use Rattle.lra_duality.specs.Maxima.{StaysInRange, PassesRange, Improves, DoesNotImprove, IsAtMost, IsBelow};
ghost use Rattle.lra_duality.specs.Maxima.{IsGreatest, IsMaximum, ValueInRange, directed};

use lra_descriptions::GenSys;
use lra_linear_forms::LinExpr;
use lra_row::{Row, add, gcd, mul, opposite, ratio_cmp};
use std::cmp::Ordering;

/// The greatest value of a form on a polyhedron, or why there is none. Places are those of generators, from 0.
#[derive(Clone, Copy, Debug, PartialEq, Eq)]
pub enum Maximum {
    /// The polyhedron has no point.
    Empty,
    /// The product of the form with the generator at the place, the first such, passes the range.
    Wide { place: usize },
    /// Along the ray or line at the place, the first such, the form grows without end.
    Unbounded { place: usize },
    /// The greatest value is `num / den`, in lowest terms, and the point at the place is the first that has it.
    At { num: i128, den: i128, place: usize },
}

// The sum with a product, or `None` exactly if one of the two passes the range.
fn plus_product(sum: i128, factor: &i64, number: &i128) -> Option<i128>
    ensures { SomeIff result (AddsInRange sum factor.now number.now) (sum +ℤ (factor.now *ℤ number.now)) }
{
    let product = mul(*factor as i128, *number)?;
    let more = add(sum, product)?;
    Some(more)
}

// The sum with the product of two rows, or `None` exactly if a number of it passes the range.
fn product_from(sum: i128, factors: &[i64], numbers: &[i128]) -> Option<i128>
    ensures { MatchOption result (IsErr (checked_product_from sum factors.now numbers.now))
        (λ z. checked_product_from sum factors.now numbers.now ≡ Ok z) }
{
    let mut total = sum;
    let mut left = factors;
    let mut others = numbers;
    while let Some((factor, factors_left)) = left.split_first() {
        let Some((number, numbers_left)) = others.split_first() else {
            return Some(total);
        };
        match plus_product(total, factor, number) {
            None => return None,
            Some(more) => total = more,
        }
        left = factors_left;
        others = numbers_left;
    }
    Some(total)
}

// The product of the form with the row, or `None` exactly if a number of it passes the range.
fn multiply_with(form: &LinExpr, row: &Row) -> Option<i128>
    ensures { MatchOption result (IsErr (checked_product (form_row form.now) row.now))
        (λ z. checked_product (form_row form.now) row.now ≡ Ok z) }
{
    match row.entries().split_first() {
        None => Some(0),
        Some((divisor, numerators)) => match plus_product(0, &form.constant(), divisor) {
            None => None,
            Some(first) => match product_from(first, form.coefficients(), numerators) {
                None => None,
                Some(product) => Some(product),
            },
        },
    }
}

// The product of the form, or of its opposite, with the row, or `None` exactly if a number of it passes the range.
fn multiply_along(form: &LinExpr, is_opposite: bool, row: &Row) -> Option<i128>
    ensures { MatchOption result (IsErr (checked_product (directed form.now is_opposite) row.now))
        (λ z. checked_product (directed form.now is_opposite) row.now ≡ Ok z) }
{
    match multiply_with(form, row) {
        None => None,
        Some(product) => {
            if is_opposite {
                return Some(opposite(product));
            }
            Some(product)
        }
    }
}

// The product of the form with a row with which it stays in the range.
#[tactic(auto, using(crate::proofs::MaximumLemmas::value_of_ok, crate::proofs::MaximumLemmas::value_in_range))]
fn value_with(form: &LinExpr, is_opposite: bool, row: &Row) -> i128
    requires { IsOk (checked_product (directed form.now is_opposite) row.now) }
    ensures value { result ≡ product (directed form.now is_opposite) row.now }
    ensures in_range { InRange result }
{
    match multiply_along(form, is_opposite, row) {
        Some(value) => value,
        None => 0,
    }
}

// The first generator with which the product passes the range.
fn first_wide(form: &LinExpr, is_opposite: bool, list: &GenSys) -> Option<usize>
    ensures { MatchOption result (All (StaysInRange (directed form.now is_opposite)) (generators list.now))
        (FirstAt (StaysInRange (directed form.now is_opposite)) (PassesRange (directed form.now is_opposite))
        (generators list.now)) }
{
    let _kinds = list.kinds(); // fact: as many kinds as rows
    let rows = list.rows();
    for (place, row) in rows.iter().enumerate() {
        match multiply_along(form, is_opposite, row) {
            Some(_) => {}
            None => return Some(place),
        }
    }
    None
}

// Whether the form grows along the ray, or changes along the line.
fn improves(form: &LinExpr, is_opposite: bool, row: &Row, line: bool) -> bool
    requires width { 0 < length row.now }
    requires in_range { IsOk (checked_product (directed form.now is_opposite) row.now) }
    ensures { (g : LinearRow) → g.row ≡ row.now → g.equal ≡ line →
        (IsTrue result ↔ Improves (directed form.now is_opposite) g) }
{
    let value = value_with(form, is_opposite, row);
    row.get(0) == 0 && (value > 0 || line && value != 0)
}

// The first ray along which the form grows, or line along which it changes.
fn first_improving(form: &LinExpr, is_opposite: bool, list: &GenSys) -> Option<usize>
    requires { All (StaysInRange (directed form.now is_opposite)) (generators list.now) }
    ensures { MatchOption result (All (DoesNotImprove (directed form.now is_opposite)) (generators list.now))
        (FirstAt (DoesNotImprove (directed form.now is_opposite)) (Improves (directed form.now is_opposite))
        (generators list.now)) }
{
    let (rows, kinds) = (list.rows(), list.kinds());
    for (place, row) in rows.iter().enumerate() {
        if improves(form, is_opposite, row, kinds[place].goes_both_ways()) {
            return Some(place);
        }
    }
    None
}

// Whether the row is a point at which the form's value is above that at the best point.
fn exceeds(form: &LinExpr, is_opposite: bool, row: &Row, best: &Row) -> bool
    requires row_in_range { IsOk (checked_product (directed form.now is_opposite) row.now) }
    requires best_in_range { IsOk (checked_product (directed form.now is_opposite) best.now) }
    requires best_divisor { pos 0 <ℤ entry best.now 0 }
    requires row_width { 0 < length row.now }
    requires best_width { 0 < length best.now }
    ensures point { IsTrue result → pos 0 <ℤ entry row.now 0 }
    ensures above { IsTrue result →
        IsBelow (directed form.now is_opposite) (product (directed form.now is_opposite) row.now) (entry row.now 0)
        best.now }
    ensures not_above { (result ≡ false) → pos 0 <ℤ entry row.now 0 →
        IsAtMost (directed form.now is_opposite) (product (directed form.now is_opposite) best.now) (entry best.now 0)
        row.now }
{
    let value = value_with(form, is_opposite, row);
    let best_value = value_with(form, is_opposite, best);
    row.get(0) > 0 && ratio_cmp(value, row.get(0), best_value, best.get(0)) == Ordering::Greater
}

// The first point at which the form's value is the greatest. The first generator is a point.
fn place_of_greatest(form: &LinExpr, is_opposite: bool, list: &GenSys) -> usize
    requires in_range { All (StaysInRange (directed form.now is_opposite)) (generators list.now) }
    requires some { 0 < length list.now.rows }
    requires point { pos 0 <ℤ entry (slice_index_or list.now.rows 0 []) 0 }
    ensures inside { result < length list.now.rows }
    ensures greatest { IsGreatest (directed form.now is_opposite) (generators list.now)
        (product (directed form.now is_opposite) (slice_index_or list.now.rows result []))
        (entry (slice_index_or list.now.rows result []) 0) result }
{
    let _kinds = list.kinds(); // fact: as many kinds as rows
    let rows = list.rows();
    let mut best = 0;
    for (place, row) in rows.iter().enumerate() {
        if exceeds(form, is_opposite, row, &rows[best]) {
            best = place;
        }
    }
    best
}

// The greatest number that divides both.
fn common_divisor(value: i128, divisor: i128) -> i128
    requires value { InRange value }
    requires divisor { InRange divisor }
    requires positive { pos 0 <ℤ divisor }
    ensures divides { IsGcd (unsigned_abs value) (unsigned_abs divisor) (unsigned_abs result) }
    ensures positive { pos 0 <ℤ result }
{
    gcd(value, divisor)
}

// The form's value at the point, in lowest terms.
fn at(form: &LinExpr, is_opposite: bool, point: &Row, place: usize) -> Maximum
    requires in_range { IsOk (checked_product (directed form.now is_opposite) point.now) }
    requires divisor { pos 0 <ℤ entry point.now 0 }
    requires width { 0 < length point.now }
    ensures greatest { (list : List LinearRow) → IsGreatest (directed form.now is_opposite) list
        (product (directed form.now is_opposite) point.now) (entry point.now 0) place →
        All (StaysInRange (directed form.now is_opposite)) list →
        All (DoesNotImprove (directed form.now is_opposite)) list →
        IsMaximum (directed form.now is_opposite) list result }
    ensures range { ValueInRange result }
{
    let value = value_with(form, is_opposite, point);
    let divisor = point.get(0);
    let common = common_divisor(value, divisor);
    Maximum::At {
        num: value / common,
        den: divisor / common,
        place,
    }
}

/// The greatest value of the form, or of its opposite, on the points of the generators. The first of them is a point.
pub fn maximum_of(form: &LinExpr, is_opposite: bool, list: &GenSys) -> Maximum
    requires { 0 < length list.now.rows → pos 0 <ℤ entry (slice_index_or list.now.rows 0 []) 0 }
    ensures maximum { IsMaximum (directed form.now is_opposite) (generators list.now) result }
    ensures range { ValueInRange result }
{
    let _kinds = list.kinds(); // fact: as many kinds as rows
    if list.rows().is_empty() {
        return Maximum::Empty;
    }
    match first_wide(form, is_opposite, list) {
        Some(place) => Maximum::Wide { place },
        None => match first_improving(form, is_opposite, list) {
            Some(place) => Maximum::Unbounded { place },
            None => {
                let place = place_of_greatest(form, is_opposite, list);
                at(form, is_opposite, &list.rows()[place], place)
            }
        },
    }
}
