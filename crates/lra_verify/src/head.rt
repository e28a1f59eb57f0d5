//! The head of an input: how many bytes its source has, and these.

ghost use Rattle.std.specs.Prelude.{◌≡◌, ◌≤◌, [], ◌∷◌, length, Some, pos, IfOk, IfSome, option_map};
ghost use Rattle.lra_verify.specs.Crates.lra_certificate_spec.Judged.{head_of, headed};
ghost use Rattle.lra_verify.specs.HeadViews.{head_view};

use lra_certificate_lines::{numbers_behind, place_of};
use std::alloc::{AllocError, Global};

/// The source of an input, and what comes after it.
#[derive(Clone, Copy)]
pub struct Head<'a> {
    pub source: &'a [u8],
    pub rest: &'a [u8],
}

/// Splits off the source, of so many bytes, and the line feed after it.
fn split_source(bytes: &[u8], count: usize) -> Option<Head<'_>>
    ensures head { option_map head_view result ≡ headed (Some (pos count ∷ [])) bytes.now }
    ensures within { IfSome result (λ h. (length h.source.now ≤ length bytes.now)
        × (length h.rest.now ≤ length bytes.now)) }
{
    match bytes.get(count) {
        Some(b'\n') => {
            let (source, _) = bytes.split_at(count);
            let (_, rest) = bytes.split_at(count + 1);
            Some(Head { source, rest })
        }
        _ => None,
    }
}

/// The source of which a number says how many bytes it has.
fn source_by<'b>(bytes: &'b [u8], number: &i128) -> Option<Head<'b>>
    ensures head { option_map head_view result ≡ headed (Some (number.now ∷ [])) bytes.now }
    ensures within { IfSome result (λ h. (length h.source.now ≤ length bytes.now)
        × (length h.rest.now ≤ length bytes.now)) }
{
    match usize::try_from(*number) {
        Ok(count) => split_source(bytes, count),
        Err(_) => None,
    }
}

/// The source of an input, of which the first line says how many bytes it has; none if that isn't so.
pub fn head_of(alloc: Global, bytes: &[u8]) -> Result<Option<Head<'_>>, AllocError>
    ensures head { IfOk result (λ h. option_map head_view h ≡ head_of bytes.now) }
    ensures within { IfOk result (λ o. IfSome o (λ h. (length h.source.now ≤ length bytes.now)
        × (length h.rest.now ≤ length bytes.now))) }
{
    let (line, behind) = bytes.split_at(place_of(bytes, b'\n'));
    match numbers_behind(alloc, line, b"certificate bytes", 1)? {
        None => Ok(None),
        Some(numbers) => match behind {
            [] => Ok(None),
            [_, rest @ ..] => Ok(source_by(rest, &numbers[0])),
        },
    }
}
