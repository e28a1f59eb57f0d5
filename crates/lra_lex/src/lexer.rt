//! The tokens of a source, or its first fault.

ghost use Rattle.std.specs.Prelude.{◌≡◌, ◌++◌, ◌+◌, ◌<◌, ◌^◌, false, length, slice_index, true, IfNone, IfOk, IfSome};
ghost use Rattle.std.specs.Prelude.{OnOk};
ghost use Rattle.lra_base.specs.Refused.{IfRefused};
ghost use Rattle.lra_base.specs.declared.refusals.Cause.TheVariants.{BadByte, BadLiteral};
ghost use Rattle.lra_syntax.specs.Lexeme.{is_digit, is_letter, is_name_word, is_word_byte, IsUnclosed, SpellsToken};
ghost use Rattle.lra_syntax.specs.Tokens.{IsTokenFault, Lex, OneReading};
ghost use Rattle.lra_lex.specs.Prefixes.{opens_comment, operator_at};
ghost use Rattle.lra_lex.specs.Read.{found_tokens, BeginsFound, BeginsToken, FaultsAt, HasFault};

use crate::bytes::{is_digit, is_letter, word_length};
use crate::gaps::gap_length;
use crate::literals::parse_literal;
use crate::marks::{find_mark, is_further_word, spelling_of};
use crate::spot::Spot;
use lra_base::{Cause, Place, Refusal, SourceError};
use lra_syntax::{Kind, Mark, Token, Word};
use std::alloc::{AllocError, Global};

/// What stands at the start: a token of a kind, or a gap.
#[derive(Drop)]
struct Found {
    length: usize,
    kind: Option<Kind>,
}

/// The text of a word: its bytes are below 128.
#[tactic(auto, using(crate::proofs::AsciiLemmas::word_is_text))]
fn word_text(word: &[u8]) -> &str
    requires { is_name_word word.now ≡ true }
    ensures { result.now ≡ word.now }
{
    str::from_utf8(word).unwrap()
}

/// The kind of a word.
fn word_kind(alloc: Global, word: &[u8]) -> Result<Kind, AllocError>
    requires { is_name_word word.now ≡ true }
    ensures { IfOk result (SpellsToken word.now) }
{
    match find_mark(word) {
        Some(mark) => Ok(Kind::Mark(mark)),
        None => {
            if is_further_word(word) {
                Ok(Kind::Reserved)
            } else {
                Ok(Kind::Name(Word::from_str(alloc, word_text(word))?))
            }
        }
    }
}

/// The length and kind of the word at the start.
fn read_word(alloc: Global, rest: &[u8]) -> Result<(usize, Kind), AllocError>
    requires some { 0 < length rest.now }
    requires begins { is_letter (slice_index rest.now 0) ≡ true }
    ensures { IfOk result (λ t. BeginsToken rest.now t.0 t.1) }
{
    let length = word_length(rest);
    let (word, _) = rest.split_at(length);
    Ok((length, word_kind(alloc, word)?))
}

/// The length and kind of the literal at the start, if the word there is one.
fn read_number(rest: &[u8]) -> Option<(usize, Kind)>
    requires some { 0 < length rest.now }
    requires begins { is_digit (slice_index rest.now 0) ≡ true }
    ensures found { IfSome result (λ t. BeginsToken rest.now t.0 t.1) }
    ensures none { IfNone result (HasFault BadLiteral rest.now) }
{
    let length = word_length(rest);
    let (word, _) = rest.split_at(length);
    match parse_literal(word) {
        Some(literal) => Some((length, Kind::Number(literal.number_type, literal.value))),
        None => None,
    }
}

fn opens_comment(rest: &[u8]) -> bool
    ensures { result ≡ opens_comment rest.now }
{
    rest.len() > 1 && rest[0] == b'/' && rest[1] == b'*'
}

/// The longest operator at the start.
fn longest_operator(rest: &[u8]) -> Option<Mark>
    requires { 0 < length rest.now }
    ensures { result ≡ operator_at rest.now }
{
    let (pair, _) = rest.split_at(rest.len().min(2));
    let (single, _) = rest.split_at(1);
    match find_mark(pair) {
        Some(mark) => Some(mark),
        None => find_mark(single),
    }
}

/// The length and kind of the operator at the start.
fn read_operator(rest: &[u8]) -> Option<(usize, Kind)>
    requires some { 0 < length rest.now }
    requires no_word { is_word_byte (slice_index rest.now 0) ≡ false }
    requires no_comment { opens_comment rest.now ≡ false }
    ensures found { IfSome result (λ t. BeginsToken rest.now t.0 t.1) }
    ensures none { IfNone result (HasFault BadByte rest.now) }
{
    match longest_operator(rest) {
        Some(mark) => Some((spelling_of(mark).len(), Kind::Mark(mark))),
        None => None,
    }
}

/// The length and kind of the token at the start, if no gap is.
fn read_token(alloc: Global, rest: &[u8], place: Place) -> Result<(usize, Kind), SourceError>
    requires some { 0 < length rest.now }
    requires unclosed { opens_comment rest.now ≡ true → IsUnclosed rest.now }
    ensures found { IfOk result (λ t. BeginsToken rest.now t.0 t.1) }
    ensures refused { IfRefused result (λ r. (r.place ≡ place) × HasFault r.cause rest.now) }
{
    let first = rest[0];
    if is_letter(first) {
        return Ok(read_word(alloc, rest)?);
    }
    if is_digit(first) {
        return match read_number(rest) {
            Some(token) => Ok(token),
            None => Err(SourceError::Refused(Refusal {
                cause: Cause::BadLiteral,
                place,
            })),
        };
    }
    if opens_comment(rest) {
        return Ok((rest.len(), Kind::Unclosed));
    }
    match read_operator(rest) {
        Some(token) => Ok(token),
        None => Err(SourceError::Refused(Refusal {
            cause: Cause::BadByte,
            place,
        })),
    }
}

/// What stands at the start.
fn find(alloc: Global, rest: &[u8], spot: Spot) -> Result<Found, SourceError>
    requires { 0 < length rest.now }
    ensures found { IfOk result (BeginsFound spot.fresh rest.now) }
    ensures refused { IfRefused result (FaultsAt spot.place spot.fresh rest.now) }
{
    match gap_length(rest, spot.fresh) {
        Some(length) => Ok(Found { length, kind: None }),
        None => match read_token(alloc, rest, spot.place) {
            Ok((length, kind)) => Ok(Found {
                length,
                kind: Some(kind),
            }),
            Err(error) => Err(error),
        },
    }
}

/// Puts the token, if what was found is one, after the others.
fn keep(tokens: &mut Vec<Token>, kind: Option<Kind>, place: Place) -> Result<(), AllocError>
    ensures { OnOk result (tokens.new.items ≡ tokens.old.items ++ found_tokens kind place) }
{
    match kind {
        Some(kind) => Ok(tokens.push(Token { kind, place })?),
        None => Ok(()),
    }
}

/// The tokens of the source, each the longest spelling at its place, and the end after its last byte; or its first
/// fault.
/// The time is linear in the source's length.
pub fn tokens(alloc: Global, source: &[u8]) -> Result<Vec<Token>, SourceError>
    requires { length source.now + 1 < 2 ^ 32 }
    ensures found { IfOk result (λ v. Lex source.now v.items) }
    ensures refused { IfRefused result (λ r. IsTokenFault source.now r.cause r.place) }
{
    let mut tokens = Vec::new(alloc);
    let mut spot = Spot {
        place: Place { line: 1, column: 1 },
        fresh: true,
    };
    let mut rest = source;
    'pieces: while !rest.is_empty() {
        let found = find(alloc, rest, spot)?;
        let (bytes, behind) = rest.split_at(found.length);
        keep(&mut tokens, found.kind, spot.place)?;
        spot = spot.advance(bytes);
        rest = behind;
    }
    keep(&mut tokens, Some(Kind::End), spot.place)?;
    Ok(tokens)
}

/// A source has one list of tokens, or one first fault.
pub fn one_reading()
    ensures { OneReading }
{}
