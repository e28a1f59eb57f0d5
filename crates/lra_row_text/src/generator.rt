//! The text of a generator.

ghost use Rattle.std.specs.Prelude.{◌≡◌, ◌++◌, ◌∷◌, [], ℤ, pos, ◌<ℤ◌, ◌<◌, nat_abs, int_div, map, drop, OnOk, IfOk};
ghost use Rattle.std.specs.Prelude.{string_bytes, length, codes};
ghost use Rattle.lra_row_text.specs.Crates.{lra_linear_spec.Range.InRange, lra_linear_spec.Vectors.entry};
ghost use Rattle.lra_systems.specs.LinearSystems.{FitsKind};
ghost use Rattle.lra_row_text.specs.Texts as texts;
ghost use Rattle.lra_row_text.specs.Shown.{report_generator};

use crate::names::Names;
use lra_systems::{GenKind, Row, gcd};
use std::alloc::{AllocError, Global};

/// Appends a fraction, without the divisor if that is 1.
#[tactic(auto, using(crate::proofs::LowestTerms::whole_text, crate::proofs::LowestTerms::divided_text))]
pub fn push_fraction(text: &mut String, numerator: i128, divisor: i128) -> Result<(), AllocError>
    requires { pos 0 <ℤ divisor }
    ensures { OnOk result (string_bytes text.new ≡ string_bytes text.old ++
        texts.fraction_text numerator (nat_abs divisor)) }
{
    if divisor == 1 {
        write!(text, "{numerator}")
    } else {
        write!(text, "{numerator}/{divisor}")
    }
}

/// The quotient by a divisor above 0.
fn quotient(number: i128, divisor: i128) -> i128
    requires number_in { InRange number }
    requires divides { pos 0 <ℤ divisor }
    ensures { result ≡ int_div number divisor }
{
    number / divisor
}

/// Appends a coordinate in lowest terms.
fn push_coordinate(text: &mut String, numerator: i128, divisor: i128) -> Result<(), AllocError>
    requires numerator_in { InRange numerator }
    requires divisor_in { InRange divisor }
    requires divides { pos 0 <ℤ divisor }
    ensures { OnOk result (string_bytes text.new ≡ string_bytes text.old ++
        texts.coordinate_text numerator (nat_abs divisor)) }
{
    let common = gcd(numerator, divisor);
    push_fraction(text, quotient(numerator, common), quotient(divisor, common))
}

/// Appends the value of a column.
fn push_value(text: &mut String, row: &Row, kind: GenKind, column: usize) -> Result<(), AllocError>
    requires inside { column < length row.now }
    requires fits { FitsKind kind row.now }
    ensures { OnOk result (string_bytes text.new ≡ string_bytes text.old ++
        texts.value_text kind (nat_abs (entry row.now 0)) (entry row.now column)) }
{
    let number = row.get(column);
    match kind {
        GenKind::Point => push_coordinate(text, number, row.get(0)),
        GenKind::Ray | GenKind::Line => write!(text, "{number}"),
    }
}

/// Appends the values of the variables.
fn push_values(
    text: &mut String,
    row: &Row,
    kind: GenKind,
    names: &[String],
) -> Result<(), AllocError>
    requires { FitsKind kind row.now }
    ensures { OnOk result (string_bytes text.new ≡ string_bytes text.old ++
        texts.values_text (texts.value_text kind (nat_abs (entry row.now 0)))
        (map string_bytes names.now) (drop 1 row.now)) }
{
    let columns = names.len().min(row.width().saturating_sub(1));
    for index in 0..columns {
        let name = names[index].as_str();
        write!(text, " {name}=")?;
        push_value(text, row, kind, index + 1)?;
    }
    Ok(())
}

/// The text of a generator of the given kind, its variables under the given names, column 1 under the first.
pub fn generator_text(
    alloc: Global,
    row: &Row,
    kind: GenKind,
    names: &Names,
) -> Result<String, AllocError>
    requires { FitsKind kind row.now }
    ensures { IfOk result (λ shown. string_bytes shown ≡
        texts.generator_text names.now (report_generator row.now kind)) }
{
    let mut text = String::new(alloc);
    text.push_str(match kind {
        GenKind::Point => "point",
        GenKind::Ray => "ray",
        GenKind::Line => "line",
    })?;
    push_values(&mut text, row, kind, names.texts())?;
    Ok(text)
}
