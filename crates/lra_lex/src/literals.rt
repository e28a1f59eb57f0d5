//! The types and values of literals (ISO/IEC 9899:2011, 6.4.4.1).

ghost use Rattle.std.specs.List.{prefix_len};
ghost use Rattle.std.specs.Prelude.{◌≡◌, ◌≤◌, ◌<◌, ◌≢◌, ℕ, [], length, true, IfSome, IfNone, IsTrue};
ghost use Rattle.lra_syntax.specs.Lexeme.{IsLiteral, octal, base_number, digit_value, greatest_literal, is_among};
ghost use Rattle.lra_syntax.specs.Lexeme.{is_digit_of, literal_type, number_after, suffixes};
ghost use Rattle.lra_lex.specs.Literal.{base_at, base_of, front_size, IsTyped};

use crate::marks::is_among;
use lra_base::NumberType;

/// The greatest value of a literal: 2^63 - 1.
const GREATEST: u128 = 9_223_372_036_854_775_807;

/// The greatest value of a literal that is an `int`: 2^31 - 1.
const GREATEST_INT: u64 = 2_147_483_647;

const SUFFIXES: [&[u8]; 5] = [b"", b"l", b"L", b"ll", b"LL"];

/// The base in which a literal is written.
#[derive(Clone, Copy)]
enum Radix {
    Octal,
    Decimal,
    Hexadecimal,
}

impl Radix {
    /// The base that the first bytes of the word report.
    fn of_word(word: &[u8]) -> Radix
        ensures base { base_of result ≡ base_at word.now }
        ensures within { 0 < length word.now → front_size (base_of result) ≤ length word.now }
    {
        if word.is_empty() || word[0] != b'0' {
            Radix::Decimal
        } else if word.len() > 1 && (word[1] == b'x' || word[1] == b'X') {
            Radix::Hexadecimal
        } else {
            Radix::Octal
        }
    }

    /// How many bytes stand before the digits.
    fn front_size(self) -> usize
        ensures { result ≡ front_size (base_of self) }
    {
        match self {
            Radix::Octal => 1,
            Radix::Decimal => 0,
            Radix::Hexadecimal => 2,
        }
    }

    /// The base as a number.
    fn base(self) -> u8
        ensures { result ≡ base_number (base_of self) }
    {
        match self {
            Radix::Octal => 8,
            Radix::Decimal => 10,
            Radix::Hexadecimal => 16,
        }
    }

    fn has_digit(self, byte: u8) -> bool
        ensures { result ≡ is_digit_of (base_of self) byte }
    {
        match self {
            Radix::Octal => matches!(byte, b'0'..=b'7'),
            Radix::Decimal => matches!(byte, b'0'..=b'9'),
            Radix::Hexadecimal => matches!(byte, b'0'..=b'9' | b'A'..=b'F' | b'a'..=b'f'),
        }
    }

    /// How many digits stand at the start.
    fn digits_length(self, bytes: &[u8]) -> usize
        ensures { result ≡ prefix_len (is_digit_of (base_of self)) bytes.now }
    {
        bytes
            .iter()
            .take_while(|byte| self.has_digit(**byte))
            .count()
    }
}

fn digit_value(digit: u8) -> u8
    ensures { result ≡ digit_value digit }
{
    match digit {
        b'0'..=b'9' => digit - b'0',
        b'A'..=b'F' => digit - b'A' + 10,
        _ => digit.saturating_sub(b'a' - 10),
    }
}

/// The number that the digits write, if it is at most 2^63 - 1.
fn parse_digits(radix: Radix, digits: &[u8]) -> Option<u64>
    ensures value { IfSome result (λ n. n ≡ number_after (base_of radix) 0 digits.now) }
    ensures bounded { IfSome result (λ n. n ≤ greatest_literal) }
    ensures too_large { IfNone result (greatest_literal < number_after (base_of radix) 0 digits.now) }
{
    let mut number = 0u128;
    for digit in digits {
        number = number * u128::from(radix.base()) + u128::from(digit_value(*digit));
        if number > GREATEST {
            return None;
        }
    }
    Some(number as u64)
}

fn is_suffix(bytes: &[u8]) -> bool
    ensures { result ≡ is_among bytes.now suffixes }
{
    is_among(bytes, &SUFFIXES)
}

/// Whether the suffix is one, and digits are there if the base wants some.
fn is_well_cut(radix: Radix, digits: &[u8], suffix: &[u8]) -> bool
    ensures suffix { IsTrue result → is_among suffix.now suffixes ≡ true }
    ensures digits { IsTrue result → base_of radix ≢ octal → digits.now ≢ [] }
    ensures cut { is_among suffix.now suffixes ≡ true → (base_of radix ≢ octal → digits.now ≢ []) → IsTrue result }
{
    is_suffix(suffix) && (!digits.is_empty() || matches!(radix, Radix::Octal))
}

/// The type of a literal with this suffix and this value.
fn literal_type(suffix: &[u8], value: u64) -> NumberType
    ensures { result ≡ literal_type suffix.now value }
{
    if !suffix.is_empty() {
        return NumberType::Long;
    }
    if value <= GREATEST_INT {
        NumberType::Int
    } else {
        NumberType::Long
    }
}

/// A literal's type and value.
#[derive(Clone, Copy)]
pub struct Literal {
    pub number_type: NumberType,
    pub value: u64,
}

/// The literal that the word is, if it is one.
pub fn parse_literal(word: &[u8]) -> Option<Literal>
    requires { 0 < length word.now }
    ensures value { IfSome result (λ l. IsTyped word.now l.number_type l.value) }
    ensures bounded { IfSome result (λ l. l.value ≤ greatest_literal) }
    ensures none { IfNone result ((n : ℕ) → IsLiteral word.now n → n ≤ greatest_literal → ⊥) }
{
    let radix = Radix::of_word(word);
    let (_, body) = word.split_at(radix.front_size());
    let (digits, suffix) = body.split_at(radix.digits_length(body));
    if !is_well_cut(radix, digits, suffix) {
        return None;
    }
    match parse_digits(radix, digits) {
        Some(value) => Some(Literal {
            number_type: literal_type(suffix, value),
            value,
        }),
        None => None,
    }
}
