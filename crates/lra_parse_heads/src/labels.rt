//! Literals with signs, and labels of a `switch`.

ghost use Rattle.std.specs.Prelude.{◌≡◌, ◌<◌, ◌≤◌, length, IfOk};
ghost use Rattle.lra_parser_spec.specs.Statements.{positive, negative, signed_at, case_at, label_parser, labels_at};
ghost use Rattle.lra_parser_spec.specs.{Reading.ParsesAs, Tests.begins_label, Tests.first};

use lra_base::{CaseLabel, Cause};
use lra_parser_spec::{Literal, Stopped, expect, expect_at, next_is, next_small, stop, tail};
use lra_syntax::{Mark, PlacedLabel, SignedLiteral, Token};
use std::alloc::Global;

/// A literal of 63 bits without a sign.
fn positive(literal: Literal) -> SignedLiteral
    requires { literal.value < 9223372036854775808 }
    ensures { result ≡ positive literal }
{
    SignedLiteral {
        value: literal.value as i64,
        place: literal.place,
    }
}

/// A literal of 63 bits after a sign.
fn negative(literal: Literal) -> SignedLiteral
    requires { literal.value < 9223372036854775808 }
    ensures { result ≡ negative literal }
{
    SignedLiteral {
        value: -(literal.value as i64),
        place: literal.place,
    }
}

/// A literal, with or without a sign.
pub fn read_signed(rest: &[Token]) -> Result<(SignedLiteral, &[Token]), Stopped>
    ensures shorter { IfOk result (λ r. length r.1.now ≤ length rest.now) }
    ensures gives { ParsesAs (λ r. (r.0, r.1.now)) result (signed_at rest.now) }
{
    if next_is(rest, Mark::Minus) {
        let behind = expect(rest, Mark::Minus)?;
        return match next_small(behind) {
            Some(literal) => Ok((negative(literal), tail(behind))),
            None => stop(Cause::Syntax, behind),
        };
    }
    match next_small(rest) {
        Some(literal) => Ok((positive(literal), tail(rest))),
        None => stop(Cause::Syntax, rest),
    }
}

/// What a label has before its colon: `case` and a literal, or `default`.
fn read_case(rest: &[Token]) -> Result<(PlacedLabel, &[Token]), Stopped>
    ensures shorter { IfOk result (λ r. length r.1.now ≤ length rest.now) }
    ensures gives { ParsesAs (λ r. (r.0, r.1.now)) result (case_at rest.now) }
{
    if next_is(rest, Mark::Case) {
        let behind = expect(rest, Mark::Case)?;
        let (literal, after) = read_signed(behind)?;
        let label = CaseLabel::Case(literal.value);
        let place = literal.place;
        return Ok((PlacedLabel { label, place }, after));
    }
    let (place, after) = expect_at(rest, Mark::Default)?;
    let label = CaseLabel::Default;
    Ok((PlacedLabel { label, place }, after))
}

/// A label with its colon.
pub fn read_label(rest: &[Token]) -> Result<(PlacedLabel, &[Token]), Stopped>
    ensures shorter { IfOk result (λ r. length r.1.now < length rest.now) }
    ensures gives { ParsesAs (λ r. (r.0, r.1.now)) result (label_parser rest.now) }
{
    let (label, behind) = read_case(rest)?;
    let after = expect(behind, Mark::Colon)?;
    Ok((label, after))
}

/// Whether the next token begins a label.
pub fn begins_label(rest: &[Token]) -> bool
    ensures { result ≡ begins_label (first rest.now) }
{
    if next_is(rest, Mark::Case) {
        return true;
    }
    next_is(rest, Mark::Default)
}

/// Labels one after the other, or none.
pub fn read_labels(alloc: Global, rest: &[Token]) -> Result<(Vec<PlacedLabel>, &[Token]), Stopped>
    ensures shorter { IfOk result (λ r. length r.1.now ≤ length rest.now) }
    ensures gives { ParsesAs (λ r. (r.0.items, r.1.now)) result (labels_at rest.now) }
{
    let mut left = rest;
    let mut labels = Vec::new(alloc);
    'labels: while begins_label(left) {
        let (label, after) = read_label(left)?;
        labels.push(label)?;
        left = after;
    }
    Ok((labels, left))
}
