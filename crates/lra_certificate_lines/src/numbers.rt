//! Numbers among the words of a line, each of one spelling.

ghost use Rattle.std.specs.Prelude.{◌≡◌, MatchOption, IfOk, IfSome, length};
ghost use Rattle.std.specs.{Char.is_ascii_digit, List.All, List.list_all};
ghost use Rattle.lra_certificate_lines.specs.Crates.{lra_linear_spec.Range.InRange, lra_script.Views.option_items};
ghost use Rattle.lra_certificate_spec.specs.Judged.{is_magnitude, is_spelled, number_in, words_of, spaced_numbers};
ghost use Rattle.lra_certificate_spec.specs.Judged.{so_many, numbers_after};
ghost use Rattle.lra_certificate_spec.specs.NumberViews.{HasNoWord, IsWordOf};

use crate::lines::place_of;
use lra_certificate_spec::number_of;
use std::alloc::{AllocError, Global};

fn are_digits(bytes: &[u8]) -> bool
    ensures { result ≡ list_all is_ascii_digit bytes.now }
{
    bytes.iter().all(|byte| byte.is_ascii_digit())
}

/// Whether these are digits of which the first is 1 to 9.
fn is_magnitude(bytes: &[u8]) -> bool
    ensures { result ≡ is_magnitude bytes.now }
{
    match bytes {
        [] => false,
        [first, rest @ ..] => b'1' <= *first && *first <= b'9' && are_digits(rest),
    }
}

/// Whether the word is the one spelling of a number: 0, or digits that begin with 1 to 9, with a `-` before them or
/// not.
fn is_spelled(word: &[u8]) -> bool
    ensures { result ≡ is_spelled word.now }
{
    match word {
        [b'-', digits @ ..] => is_magnitude(digits),
        [b'0'] => true,
        _ => is_magnitude(word),
    }
}

/// The number that a word spells, if it is one of the range.
#[tactic(auto, using(lra_certificate_spec::proofs::NumberSteps::spelled_number, lra_certificate_spec::proofs::NumberSteps::no_spelling))]
fn number_in(word: &[u8]) -> Option<i128>
    ensures number { result ≡ number_in word.now }
    ensures in_range { IfSome result InRange }
{
    if !is_spelled(word) {
        return None;
    }
    number_of(word)
}

/// The first word of a text that begins with a space.
fn first_word(text: &[u8]) -> Option<&[u8]>
    ensures { MatchOption result (HasNoWord text.now) (λ word. IsWordOf text.now word.now) }
{
    if !text.starts_with(b" ") {
        return None;
    }
    let (_, rest) = text.split_at(1);
    let (word, _) = rest.split_at(place_of(rest, b' '));
    Some(word)
}

/// The numbers of a text, each after one space, if they are so many.
fn spaced_numbers(alloc: Global, text: &[u8], count: usize) -> Result<Option<Vec<i128>>, AllocError>
    ensures numbers { IfOk result (λ r. option_items r ≡
        so_many count (spaced_numbers (words_of text.now))) }
    ensures in_range { IfOk result (λ r. IfSome r (λ numbers. All InRange numbers.items)) }
    ensures count { IfOk result (λ r. IfSome r (λ numbers. length numbers.items ≡ count)) }
{
    let mut numbers = Vec::new(alloc);
    let mut rest = text;
    'words: while numbers.len() < count {
        let Some(word) = first_word(rest) else {
            return Ok(None);
        };
        let Some(number) = number_in(word) else {
            return Ok(None);
        };
        numbers.push(number)?;
        let (_, behind) = rest.split_at(word.len() + 1);
        rest = behind;
    }
    if rest.is_empty() {
        Ok(Some(numbers))
    } else {
        Ok(None)
    }
}

/// The numbers after a text with which the line begins, each after one space, if they are so many.
pub fn numbers_behind(
    alloc: Global,
    line: &[u8],
    text: &[u8],
    count: usize,
) -> Result<Option<Vec<i128>>, AllocError>
    ensures numbers { IfOk result (λ r. option_items r ≡ numbers_after text.now count line.now) }
    ensures in_range { IfOk result (λ r. IfSome r (λ numbers. All InRange numbers.items)) }
    ensures count { IfOk result (λ r. IfSome r (λ numbers. length numbers.items ≡ count)) }
{
    if !line.starts_with(text) {
        return Ok(None);
    }
    let (_, rest) = line.split_at(text.len());
    spaced_numbers(alloc, rest, count)
}
