//! The check of multipliers, column by column.

ghost use Rattle.std.specs.List.{All};
ghost use Rattle.std.specs.Prelude.{◌≡◌, ◌<◌, length, suc, ◌*ℤ◌, IfSome};
ghost use Rattle.lra_multipliers.specs.Crates.lra_systems.LinearSystems.{constraints};
ghost use Rattle.lra_multipliers.specs.Crates.{lra_linear_spec.Kinds.is_equality, lra_linear_spec.Range.InRange};
ghost use Rattle.lra_multipliers.specs.Columns.{added_to, column_sum, column_agrees, ColumnsTell, first_of};
ghost use Rattle.lra_multipliers.specs.Columns.{kinds_signed, kinds_show, answer_told, used_from, within_range};
ghost use Rattle.lra_multipliers.specs.MultiplierViews.{answer_view, multipliers_view};
ghost use Rattle.lra_multipliers.specs.Multipliers.{IsAnswer, is_signed, checked};

use crate::multipliers::Multipliers;
use lra_domain::{ConKind, ConSys, Row, add, mul};

/// The answer of a check; `Wide` if a product or a partial sum passes the range.
#[derive(Clone, Copy, Debug, PartialEq, Eq)]
pub enum Answer {
    Yes,
    No,
    Wide,
}

/// Whether the factor of a premise of this kind has a sign that it may have.
fn takes_factor(kind: ConKind, factor: i128) -> bool
    ensures { result ≡ is_signed (is_equality kind) factor }
{
    kind.is_equality() || factor >= 0
}

/// Whether no inequality has a factor below 0.
fn are_signed(kinds: &[ConKind], factors: &[i128]) -> bool
    requires { length factors.now ≡ length kinds.now }
    ensures { result ≡ kinds_signed kinds.now factors.now }
{
    for place in 0..kinds.len() {
        if !takes_factor(kinds[place], factors[place]) {
            return false;
        }
    }
    true
}

/// Whether no multiplier has a sign that it may not have.
fn may_show(kinds: &[ConKind], m: &Multipliers) -> bool
    requires { length m.now.factors.items ≡ length kinds.now }
    ensures { result ≡ kinds_show kinds.now (multipliers_view m.now) }
{
    m.divisor >= 1 && m.constant >= 0 && are_signed(kinds, m.factors.as_slice())
}

/// The sum with so many times the entry.
fn sum_with(sum: i128, factor: i128, entry: i128) -> Option<i128>
    ensures value { result ≡ added_to sum (factor *ℤ entry) }
    ensures in_range { IfSome result InRange }
{
    match mul(factor, entry) {
        None => None,
        Some(product) => add(sum, product),
    }
}

/// The sum of the rows with their factors in this column, from the first number on; rows with a factor 0 aren't
/// visited.
fn sum_column(
    rows: &[Row],
    factors: &[i128],
    used: &[usize],
    column: usize,
    first: i128,
) -> Option<i128>
    requires count { length factors.now ≡ length rows.now }
    requires used { used.now ≡ used_from 0 factors.now }
    requires widths { All (λ r. column < length r) rows.now }
    requires first { InRange first }
    ensures { result ≡ column_sum first factors.now rows.now column }
{
    let mut sum = first;
    for place in used.iter() {
        match sum_with(sum, factors[*place], rows[*place].get(column)) {
            None => return None,
            Some(next) => sum = next,
        }
    }
    Some(sum)
}

/// The number with which the sum of a column begins: that of so many times `1 >= 0`, which has a column 0 alone.
fn first_number(constant: i128, column: usize) -> Option<i128>
    ensures value { result ≡ within_range (first_of column constant) }
    ensures in_range { IfSome result InRange }
{
    if column == 0 {
        return mul(constant, 1);
    }
    Some(0)
}

/// Whether the multiple of the claim is the sum in this column; none if one of their numbers passes the range.
fn agrees_at(rows: &[Row], claim: &Row, m: &Multipliers, column: usize) -> Option<bool>
    requires count { length m.now.factors.items ≡ length rows.now }
    requires widths { All (λ r. column < length r) rows.now }
    requires column { column < length claim.now }
    ensures { result ≡ column_agrees rows.now claim.now (multipliers_view m.now) column }
{
    let multiple = mul(m.divisor, claim.get(column))?;
    let first = first_number(m.constant, column)?;
    let sum = sum_column(rows, m.factors.as_slice(), m.used(), column, first)?;
    Some(multiple == sum)
}

/// Whether the multiple of the claim is the sum in each column; none if one of their numbers passes the range.
fn columns_agree(rows: &[Row], claim: &Row, m: &Multipliers) -> Option<bool>
    requires count { length m.now.factors.items ≡ length rows.now }
    requires widths { All (λ r. length r ≡ length claim.now) rows.now }
    ensures { ColumnsTell (column_agrees rows.now claim.now (multipliers_view m.now))
        (length claim.now) result }
{
    let mut agree = true;
    for column in 0..claim.width() {
        match agrees_at(rows, claim, m, column) {
            None => return None,
            Some(same) => agree = agree && same,
        }
    }
    Some(agree)
}

/// The answer to signs and columns.
fn answer_of(signed: bool, columns: Option<bool>) -> Answer
    ensures { answer_view result ≡ answer_told signed columns }
{
    match columns {
        None => Answer::Wide,
        Some(agree) => {
            if signed && agree {
                Answer::Yes
            } else {
                Answer::No
            }
        }
    }
}

/// Whether the multipliers show the claim by the premises: D times the claim is L0 times `1 >= 0` and the sum of L
/// times premise, column by column, with D above 0, and L0 and the L of inequalities not below it.
pub fn check(premises: &ConSys, claim: &Row, m: &Multipliers) -> Answer
    requires count { length m.now.factors.items ≡ length premises.now.rows }
    requires width { length claim.now ≡ suc premises.now.dims }
    ensures made { answer_view result ≡
        checked (constraints premises.now) claim.now (multipliers_view m.now) }
    ensures exact { IsAnswer (constraints premises.now) claim.now (multipliers_view m.now)
        (answer_view result) }
{
    let columns = columns_agree(premises.rows(), claim, m);
    answer_of(may_show(premises.kinds(), m), columns)
}
