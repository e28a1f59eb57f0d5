//! The text of a constraint.

ghost use Rattle.std.specs.Prelude.{◌≡◌, ◌≢◌, ◌++◌, ◌<◌, ◌∷◌, [], ℤ, pos, suc, map, drop, OnOk, IfOk, string_bytes};
ghost use Rattle.std.specs.Prelude.{length, not, unsigned_abs};
ghost use Rattle.lra_row_text.specs.Crates.{lra_linear_spec.Range.InRange, lra_linear_spec.Vectors.entry};
ghost use Rattle.lra_row_text.specs.Texts as texts;
ghost use Rattle.lra_row_text.specs.Shown.{report_row, rest_text, is_first_after};

use crate::names::Names;
use lra_systems::{ConKind, Row};
use std::alloc::{AllocError, Global};
use std::cmp::Ordering;

/// Appends a term: without a sign if it is the first, and without a magnitude of 1.
fn push_term(
    text: &mut String,
    is_first: bool,
    coefficient: i128,
    name: &str,
) -> Result<(), AllocError>
    requires { coefficient ≢ pos 0 }
    ensures { OnOk result (string_bytes text.new ≡ string_bytes text.old ++
        rest_text is_first (coefficient ∷ []) (name.now ∷ [])) }
{
    if !is_first {
        text.push_str(if coefficient < 0 { " - " } else { " + " })?;
    }
    let magnitude = coefficient.unsigned_abs();
    if magnitude != 1 {
        write!(text, "{magnitude}*")?;
    }
    text.push_str(name)
}

/// Appends the term of a coefficient, none for 0, and answers whether the next term will be the first.
fn push_coefficient(
    text: &mut String,
    is_first: bool,
    coefficient: i128,
    name: &str,
) -> Result<bool, AllocError>
    ensures written { OnOk result (string_bytes text.new ≡
        string_bytes text.old ++ rest_text is_first (coefficient ∷ []) (name.now ∷ [])) }
    ensures next { IfOk result (λ next. next ≡ is_first_after is_first coefficient) }
{
    if coefficient == 0 {
        return Ok(is_first);
    }
    push_term(text, is_first, coefficient, name)?;
    Ok(false)
}

/// The number, or its opposite.
fn negated_if(is_negated: bool, number: i128) -> i128
    requires { InRange number }
    ensures value { result ≡ texts.negated_if is_negated number }
    ensures in_range { InRange result }
{
    if is_negated { -number } else { number }
}

/// Appends the term of a column, with its coefficient or the opposite of it.
fn push_column(
    text: &mut String,
    is_first: bool,
    row: &Row,
    column: usize,
    is_negated: bool,
    name: &str,
) -> Result<bool, AllocError>
    requires { column < length row.now }
    ensures written { OnOk result (string_bytes text.new ≡
        string_bytes text.old ++ rest_text is_first (texts.negated_if is_negated (entry row.now column) ∷ [])
        (name.now ∷ [])) }
    ensures next { IfOk result (λ next. next ≡
        is_first_after is_first (texts.negated_if is_negated (entry row.now column))) }
{
    let coefficient = negated_if(is_negated, row.get(column));
    push_coefficient(text, is_first, coefficient, name)
}

/// Whether the first coefficient other than 0 is below 0.
#[tactic(auto, using(crate::proofs::Terms::turned_rules))]
fn is_negated(row: &Row) -> bool
    ensures { result ≡ texts.is_negated (drop 1 row.now) }
{
    for column in 1..row.width() {
        match row.get(column).cmp(&0) {
            Ordering::Less => return true,
            Ordering::Equal => {}
            Ordering::Greater => return false,
        }
    }
    false
}

/// Appends the terms of the coefficients.
fn push_form(
    text: &mut String,
    row: &Row,
    is_negated: bool,
    names: &[String],
) -> Result<(), AllocError>
    ensures { OnOk result (string_bytes text.new ≡ string_bytes text.old ++
        texts.form_text (map (texts.negated_if is_negated) (drop 1 row.now)) (map string_bytes names.now)) }
{
    let mut is_first = true;
    let columns = names.len().min(row.width().saturating_sub(1));
    for index in 0..columns {
        is_first = push_column(text, is_first, row, index + 1, is_negated, &names[index])?;
    }
    Ok(())
}

/// The text of a constraint of the given kind, its variables under the given names, column 1 under the first.
pub fn row_text(
    alloc: Global,
    row: &Row,
    kind: ConKind,
    names: &Names,
) -> Result<String, AllocError>
    ensures { IfOk result (λ shown. string_bytes shown ≡ texts.row_text names.now (report_row row.now kind)) }
{
    let mut text = String::new(alloc);
    let is_negated = is_negated(row);
    push_form(&mut text, row, is_negated, names.texts())?;
    let relation = match (kind, is_negated) {
        (ConKind::Eq, _) => " = ",
        (ConKind::Ge, false) => " >= ",
        (ConKind::Ge, true) => " <= ",
    };
    let constant = if row.width() > 0 { row.get(0) } else { 0 };
    let bound = negated_if(!is_negated, constant);
    write!(text, "{relation}{bound}")?;
    Ok(text)
}
