//! Tests of the next token, single tokens, and faults.

ghost use Rattle.std.specs.Prelude.{◌≡◌, ℕ, ◌<◌, ◌≤◌, [], ◌∷◌, ◌++◌, length, IfOk, IfSome};
ghost use Rattle.lra_parser_spec.specs.Reading.{ParsesAs, expect, expect_at, has, next_name, next_literal, next_small};
ghost use Rattle.lra_parser_spec.specs.{Reading.tail, Reading.take_by, Tests.is_mark, Tests.first};

use lra_base::{Cause, NumberType, Place};
use lra_syntax::{Identifier, Kind, Mark, Token};
use std::alloc::{AllocError, AllocFailed, Global};

/// Where reading stopped: at the token from which on so many are left.
#[derive(Clone, Copy)]
pub struct Fault {
    pub cause: Cause,
    pub left: usize,
}

/// Why there is no tree.
#[derive(Clone, Copy)]
pub enum Stopped {
    Memory,
    Fault(Fault),
}

impl From<AllocError> for Stopped {
    ghost use Rattle.lra_parser_spec.specs.declared.reading.Stopped.TheVariants.{Memory};

    ghost from_gives = { λ _ e. e ≡ Memory };

    fn from(_: AllocError) -> Stopped {
        Stopped::Memory
    }
}

impl<T: Drop> From<AllocFailed<T>> for Stopped {
    ghost use Rattle.lra_parser_spec.specs.declared.reading.Stopped.TheVariants.{Memory};

    ghost from_gives = { λ _ e. e ≡ Memory };

    fn from(_: AllocFailed<T>) -> Stopped {
        Stopped::Memory
    }
}

/// The fault is the next token.
pub fn stop<T>(cause: Cause, rest: &[Token]) -> Result<T, Stopped>
    ensures { result ≡ Err (Stopped.Fault (record { cause = cause; left = length rest.now })) }
{
    Err(Stopped::Fault(Fault {
        cause,
        left: rest.len(),
    }))
}

/// Whether the next token is the mark.
pub fn next_is(rest: &[Token], mark: Mark) -> bool
    ensures { result ≡ is_mark mark (first rest.now) }
{
    match rest.first() {
        Some(token) => match &token.kind {
            Kind::Mark(next) => *next == mark,
            _ => false,
        },
        None => false,
    }
}

/// What comes after the next token, if there is one.
pub fn tail(rest: &[Token]) -> &[Token]
    ensures shorter { length result.now ≤ length rest.now }
    ensures value { result.now ≡ tail rest.now }
{
    match rest.split_first() {
        Some((_token, behind)) => behind,
        None => rest,
    }
}

/// What comes after the mark.
pub fn expect(rest: &[Token], mark: Mark) -> Result<&[Token], Stopped>
    ensures shorter { IfOk result (λ r. length r.now < length rest.now) }
    ensures gives { ParsesAs (λ r. (tt {0}, r.now)) result (expect mark (tt {0}) rest.now) }
{
    if next_is(rest, mark) {
        Ok(tail(rest))
    } else {
        stop(Cause::Syntax, rest)
    }
}

/// The mark's place, and what comes after it.
pub fn expect_at(rest: &[Token], mark: Mark) -> Result<(Place, &[Token]), Stopped>
    ensures shorter { IfOk result (λ r. length r.1.now < length rest.now) }
    ensures gives { ParsesAs (λ r. (r.0, r.1.now)) result (expect_at mark rest.now) }
{
    if next_is(rest, mark) {
        Ok((rest[0].place, tail(rest)))
    } else {
        stop(Cause::Syntax, rest)
    }
}

/// A literal with its type and its place.
#[derive(Clone, Copy, PartialEq, Eq, Debug)]
pub struct Literal {
    pub number_type: NumberType,
    pub value: u64,
    pub place: Place,
}

/// The next token, if it is a literal.
pub fn next_literal(rest: &[Token]) -> Option<Literal>
    ensures { result ≡ next_literal (first rest.now) }
{
    match rest.first() {
        Some(token) => match &token.kind {
            Kind::Number(number_type, value) => Some(Literal {
                number_type: *number_type,
                value: *value,
                place: token.place,
            }),
            _ => None,
        },
        None => None,
    }
}

/// The next token, if it is a literal that has 64 bits with a sign too, as each of a source.
pub fn next_small(rest: &[Token]) -> Option<Literal>
    ensures value { result ≡ next_small (first rest.now) }
    ensures limit { IfSome result (λ l. l.value < 9223372036854775808) }
{
    match next_literal(rest) {
        Some(literal) => {
            if literal.value <= 9223372036854775807 {
                return Some(literal);
            }
            None
        }
        None => None,
    }
}

/// Whether the next token is a name.
pub fn next_is_name(rest: &[Token]) -> bool
    ensures { result ≡ has (next_name (first rest.now)) }
{
    match rest.first() {
        Some(token) => match &token.kind {
            Kind::Name(_word) => true,
            _ => false,
        },
        None => false,
    }
}

/// A copy of the next token, which is a name.
pub fn read_name(alloc: Global, rest: &[Token]) -> Result<(Identifier, &[Token]), Stopped>
    ensures shorter { IfOk result (λ r. length r.1.now < length rest.now) }
    ensures gives { ParsesAs (λ r. (r.0, r.1.now)) result (take_by next_name rest.now) }
{
    match rest.first() {
        Some(token) => match &token.kind {
            Kind::Name(word) => {
                let word = word.copy(alloc)?;
                let place = token.place;
                Ok((Identifier { word, place }, tail(rest)))
            }
            _ => stop(Cause::Syntax, rest),
        },
        None => stop(Cause::Syntax, rest),
    }
}

/// Puts what a reader gave in a box after the others of a list. Not inlined, so that a reader that calls itself holds
/// no more than the box.
#[inline(never)]
pub fn push_boxed<T: Drop>(list: &mut Vec<T>, item: Box<T>) -> Result<(), AllocError>
    ensures { IfOk result (λ _. list.new.items ≡ list.old.items ++ item.value ∷ []) }
{
    list.push(Box::into_inner(item))?;
    Ok(())
}
