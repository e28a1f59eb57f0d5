//! Tokens, each with the place of its first byte.

ghost use Rattle.std.specs.Prelude.{◌≡◌, IfOk};

use lra_base::{NumberType, Place};
use std::alloc::{AllocError, Global};
use std::marker::Model;

/// An operator, or a reserved word that the grammar names.
#[derive(Clone, Copy, PartialEq, Eq, Debug)]
pub enum Mark {
    /// `+`
    Plus,
    /// `-`
    Minus,
    /// `*`
    Star,
    /// `/`
    Slash,
    /// `%`
    Percent,
    /// `=`
    Assign,
    /// `==`
    Equal,
    /// `!=`
    Differs,
    /// `<`
    Less,
    /// `<=`
    AtMost,
    /// `>`
    Greater,
    /// `>=`
    AtLeast,
    /// `&&`
    And,
    /// `||`
    Or,
    /// `!`
    Not,
    /// `++`
    Increment,
    /// `--`
    Decrement,
    /// `+=`
    PlusAssign,
    /// `-=`
    MinusAssign,
    /// `*=`
    StarAssign,
    /// `/=`
    SlashAssign,
    /// `%=`
    PercentAssign,
    /// `(`
    OpenParen,
    /// `)`
    CloseParen,
    /// `{`
    OpenBrace,
    /// `}`
    CloseBrace,
    /// `[`
    OpenBracket,
    /// `]`
    CloseBracket,
    /// `;`
    Semicolon,
    /// `,`
    Comma,
    /// `:`
    Colon,
    Assert,
    Assume,
    Input,
    Break,
    Case,
    Continue,
    Default,
    Else,
    Extern,
    For,
    If,
    Int,
    Long,
    Return,
    Switch,
    Void,
    While,
}

/// A name.
pub struct Word {
    text: String,
}

impl Drop for Word {
    fn drop(self) {
        let Word { text: _ } = self;
    }
}

impl Model for Word {
    ghost use Rattle.std.specs.Prelude.{ℕ, List, string_bytes};

    ghost Value = { List ℕ };

    ghost view = { λ w. string_bytes w.text };
}

/// What a token is.
pub enum Kind {
    Name(Word),
    /// A literal's type, and its value, at most 2^63 - 1.
    Number(NumberType, u64),
    Mark(Mark),
    /// A reserved word that the grammar doesn't name.
    Reserved,
    /// A comment that isn't closed.
    Unclosed,
    /// The end of the source.
    End,
}

impl Drop for Kind {
    fn drop(self) {
        match self {
            Kind::Name(_) => {}
            Kind::Number(_, _) => {}
            Kind::Mark(_) => {}
            Kind::Reserved => {}
            Kind::Unclosed => {}
            Kind::End => {}
        }
    }
}

/// A token, and the place of its first byte.
pub struct Token {
    pub kind: Kind,
    pub place: Place,
}

impl Drop for Token {
    fn drop(self) {
        let Token { kind: _, place: _ } = self;
    }
}

impl Word {
    /// A copy of the text.
    pub fn from_str(alloc: Global, text: &str) -> Result<Word, AllocError>
        ensures { IfOk result (λ w. w ≡ text.now) }
    {
        Ok(Word {
            text: String::from_str(alloc, text)?,
        })
    }

    /// A copy, equal to this name.
    pub fn copy(&self, alloc: Global) -> Result<Word, AllocError>
        ensures { IfOk result (λ w. w ≡ self.now) }
    {
        Word::from_str(alloc, self.as_str())
    }

    /// The text.
    pub fn as_str(&self) -> &str
        ensures { result.now ≡ self.now }
    {
        self.text.as_str()
    }

    /// The bytes as a slice.
    pub fn as_slice(&self) -> &[u8]
        ensures { result.now ≡ self.now }
    {
        self.text.as_bytes()
    }
}
