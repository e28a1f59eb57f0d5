//! Bytes and runs of them.

ghost use Rattle.std.specs.{List.prefix_len, Prelude.◌≡◌};
ghost use Rattle.lra_syntax.specs.Lexeme.{is_letter, is_digit, is_word_byte};
ghost use Rattle.lra_syntax.specs.Tokens.{is_blank, is_space_or_tab, in_line};

pub fn is_letter(byte: u8) -> bool
    ensures { result ≡ is_letter byte }
{
    byte.is_ascii_alphabetic() || byte == b'_'
}

pub fn is_digit(byte: u8) -> bool
    ensures { result ≡ is_digit byte }
{
    byte.is_ascii_digit()
}

pub fn is_word_byte(byte: u8) -> bool
    ensures { result ≡ is_word_byte byte }
{
    is_letter(byte) || is_digit(byte)
}

pub fn is_blank(byte: u8) -> bool
    ensures { result ≡ is_blank byte }
{
    matches!(byte, b' ' | b'\t' | b'\n' | 0x0b | 0x0c | b'\r')
}

pub fn is_space_or_tab(byte: u8) -> bool
    ensures { result ≡ is_space_or_tab byte }
{
    byte == b' ' || byte == b'\t'
}

/// How many bytes at the start continue a word.
pub fn word_length(bytes: &[u8]) -> usize
    ensures { result ≡ prefix_len is_word_byte bytes.now }
{
    bytes.iter().take_while(|byte| is_word_byte(**byte)).count()
}

/// How many bytes there are up to the end of the line.
pub fn line_length(bytes: &[u8]) -> usize
    ensures { result ≡ prefix_len in_line bytes.now }
{
    bytes.iter().take_while(|byte| **byte != b'\n').count()
}

/// How many spaces and tabs stand at the start.
pub fn indent(bytes: &[u8]) -> usize
    ensures { result ≡ prefix_len is_space_or_tab bytes.now }
{
    bytes
        .iter()
        .take_while(|byte| is_space_or_tab(**byte))
        .count()
}
