//! Names and numbers among the words.

ghost use Rattle.std.specs.Prelude.{FitsSigned, true, ◌≡◌, IfOk, IfSome, string_bytes, Some, None, if◌then◌else◌};
ghost use Rattle.std.specs.{Char.is_ascii_digit, Char.is_ascii_alphanumeric, Int.w128, List.All, List.list_all};
ghost use Rattle.std.specs.{Option.SomeIff, Prelude.option_map, Prelude.◌≤◌, Str.IsUtf8, Str.Parse.signed_digits_value};
ghost use Rattle.lra_script.specs.Crates.lra_linear_spec.Range.{InRange};
ghost use Rattle.lra_script.specs.ScriptText as script;
ghost use Rattle.lra_script.specs.LineForms as form;
ghost use Rattle.lra_script.specs.{LineForms.all_of, Views.texts, Views.option_items};

use lra_base::GREATEST_LIVE;
use std::alloc::{AllocError, Global};
use std::str;

fn are_alphanumeric(bytes: &[u8]) -> bool
    ensures { result ≡ list_all is_ascii_alphanumeric bytes.now }
{
    bytes.iter().all(|byte| byte.is_ascii_alphanumeric())
}

/// Whether the word is a name: a capital letter, then letters and digits.
fn is_name(word: &[u8]) -> bool
    ensures { result ≡ script.is_name word.now }
{
    match word {
        [] => false,
        [first, rest @ ..] => first.is_ascii_uppercase() && are_alphanumeric(rest),
    }
}

/// The text of a word, which is made of ASCII characters.
fn text_of(alloc: Global, word: &[u8]) -> Result<String, AllocError>
    requires { IsUtf8 word.now }
    ensures { IfOk result (λ text. string_bytes text ≡ word.now) }
{
    match str::from_utf8(word) {
        Ok(text) => String::from_str(alloc, text),
        Err(_) => Err(AllocError),
    }
}

/// The name that a word is, if it is one.
#[tactic(auto, using(crate::proofs::WordLemmas::name_is_utf8))]
pub fn name_of(alloc: Global, word: &[u8]) -> Result<Option<String>, AllocError>
    ensures { IfOk result (λ name. option_map string_bytes name ≡
        (if script.is_name word.now then Some word.now else None)) }
{
    if !is_name(word) {
        return Ok(None);
    }
    Ok(Some(text_of(alloc, word)?))
}

fn without_minus(word: &[u8]) -> &[u8]
    ensures { result.now ≡ script.without_minus word.now }
{
    match word {
        [b'-', digits @ ..] => digits,
        _ => word,
    }
}

fn are_digits(bytes: &[u8]) -> bool
    ensures { result ≡ list_all is_ascii_digit bytes.now }
{
    bytes.iter().all(|byte| byte.is_ascii_digit())
}

fn is_number(word: &[u8]) -> bool
    ensures { result ≡ script.is_number word.now }
{
    let digits = without_minus(word);
    !digits.is_empty() && are_digits(digits)
}

/// The number that a word of digits writes, if it fits.
#[tactic(auto, using(crate::proofs::WordLemmas::parsed_rules))]
fn parsed(word: &[u8]) -> Option<i128>
    requires { script.is_number word.now ≡ true }
    ensures { SomeIff result (FitsSigned w128 (signed_digits_value 10 word.now)) (signed_digits_value 10 word.now) }
{
    match str::from_utf8(word) {
        Ok(text) => text.parse::<i128>().ok(),
        Err(_) => None,
    }
}

/// The number that a word of digits writes, if it is one of the range.
fn value_of(word: &[u8]) -> Option<i128>
    requires { script.is_number word.now ≡ true }
    ensures { SomeIff result (InRange (signed_digits_value 10 word.now)) (signed_digits_value 10 word.now) }
{
    match parsed(word) {
        Some(number) if number != i128::MIN => Some(number),
        _ => None,
    }
}

/// The number that a word writes, if it is one of the range.
#[tactic(auto, using(crate::proofs::WordLemmas::number_from_value, crate::proofs::WordLemmas::no_number))]
pub fn number_of(word: &[u8]) -> Option<i128>
    ensures number { result ≡ script.number_of word.now }
    ensures in_range { IfSome result InRange }
{
    if !is_number(word) {
        return None;
    }
    value_of(word)
}

/// The most dimensions.
const MOST_DIMS: i128 = GREATEST_LIVE as i128;

/// The number of a word, if it is one from 0 to the most dimensions.
pub fn small_number(word: &[u8]) -> Option<usize>
    ensures count { result ≡ form.small_number word.now }
    ensures small { IfSome result (λ n. n ≤ form.greatest_dims) }
{
    match number_of(word)? {
        n @ 0..=MOST_DIMS => Some(n as usize),
        _ => None,
    }
}

/// The number of the only word, if it is one from 0 to the most dimensions.
pub fn lone_number(words: &[&[u8]]) -> Option<usize>
    ensures count { result ≡ form.lone_number (texts words.now) }
    ensures small { IfSome result (λ n. n ≤ form.greatest_dims) }
{
    match words {
        [word] => small_number(word),
        _ => None,
    }
}

/// The numbers that the words write, if each writes one.
#[tactic(auto, using(crate::proofs::AllOf::onto_nil))]
pub fn numbers_of(alloc: Global, words: &[&[u8]]) -> Result<Option<Vec<i128>>, AllocError>
    ensures numbers { IfOk result
        (λ r. option_items r ≡ all_of script.number_of (texts words.now)) }
    ensures in_range { IfOk result (λ r. IfSome r (λ numbers. All InRange numbers.items)) }
{
    let mut numbers = Vec::new(alloc);
    for word in words {
        let Some(number) = number_of(word) else {
            return Ok(None);
        };
        numbers.push(number)?;
    }
    Ok(Some(numbers))
}

/// The number that a word writes, if it has 64 bits.
fn coefficient_of(word: &[u8]) -> Option<i64>
    ensures { result ≡ form.coefficient_of word.now }
{
    let number = number_of(word)?;
    match i64::try_from(number) {
        Ok(coefficient) => Some(coefficient),
        Err(_) => None,
    }
}

/// The numbers that the words write, if each writes one that has 64 bits.
#[tactic(auto, using(crate::proofs::AllOf::onto_nil))]
pub fn coefficients_of(alloc: Global, words: &[&[u8]]) -> Result<Option<Vec<i64>>, AllocError>
    ensures { IfOk result (λ r. option_items r ≡ all_of form.coefficient_of (texts words.now)) }
{
    let mut numbers = Vec::new(alloc);
    for word in words {
        let Some(number) = coefficient_of(word) else {
            return Ok(None);
        };
        numbers.push(number)?;
    }
    Ok(Some(numbers))
}
