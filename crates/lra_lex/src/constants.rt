//! The constants of a source: the values of its literals, with the signs that stand directly before them.

ghost use Rattle.std.specs.Prelude.{◌≡◌, false, true, fold, IfOk, MatchOption, OnOk};
ghost use Rattle.lra_syntax.specs.Constants.{constants_of, is_minus, is_small, literal_at, signed, with_constant};

use lra_syntax::{Kind, Mark, Token};
use std::alloc::{AllocError, Global};

/// No more constants than these are accepted.
const MOST_CONSTANTS: usize = 64;

/// None of a greater magnitude.
const GREATEST_CONSTANT: u64 = 1 << 31;

/// Whether what the token is stands for a minus sign.
fn is_minus(kind: &Kind) -> bool
    ensures { result ≡ is_minus kind.now }
{
    match kind {
        Kind::Mark(Mark::Minus) => true,
        _ => false,
    }
}

/// The value of a literal with its sign, unless it is too large.
fn small_literal(minus: bool, number: u64) -> Option<i64>
    ensures { MatchOption result (is_small (signed minus number) ≡ false)
        (λ z. (z ≡ signed minus number) × (is_small (signed minus number) ≡ true)) }
{
    if number > GREATEST_CONSTANT {
        return None;
    }
    let value = number as i64;
    if minus { Some(-value) } else { Some(value) }
}

/// The literal's value comes after the others, unless they are full, or it is among them, or it is too large.
fn take_literal(constants: &mut Vec<i64>, minus: bool, number: u64) -> Result<(), AllocError>
    ensures { OnOk result (constants.new.items ≡ with_constant constants.old.items (signed minus number)) }
{
    let Some(constant) = small_literal(minus, number) else {
        return Ok(());
    };
    if constants.len() < MOST_CONSTANTS && !constants.contains(&constant) {
        constants.push(constant)?;
    }
    Ok(())
}

/// The value of the token, if it is a literal, is taken.
fn take_token(constants: &mut Vec<i64>, minus: bool, kind: &Kind) -> Result<(), AllocError>
    ensures { OnOk result (constants.new.items ≡ fold with_constant constants.old.items (literal_at minus kind.now)) }
{
    match kind {
        Kind::Number(_, number) => take_literal(constants, minus, *number),
        _ => Ok(()),
    }
}

/// The constants that the tokens of a source have, each once, the first 64 of those whose magnitude is at most 2^31.
pub fn constants_of(alloc: Global, tokens: &[Token]) -> Result<Vec<i64>, AllocError>
    ensures { IfOk result (λ v. v.items ≡ constants_of tokens.now) }
{
    let mut constants = Vec::new(alloc);
    let mut minus = false;
    let mut left = tokens;
    'tokens: while let Some((token, behind)) = left.split_first() {
        take_token(&mut constants, minus, &token.kind)?;
        minus = is_minus(&token.kind);
        left = behind;
    }
    Ok(constants)
}
