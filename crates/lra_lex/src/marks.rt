//! Operators and reserved words.

ghost use Rattle.std.specs.{List.list_any, Prelude.◌≡◌, Prelude.bytes_eq};
ghost use Rattle.lra_syntax.specs.Lexeme.{mark_text, is_among, further_words};
ghost use Rattle.lra_lex.specs.Prefixes.{found_mark};

use lra_syntax::Mark;

/// Every operator, and every reserved word that the grammar names.
const MARKS: [Mark; 48] = [
    Mark::Plus,
    Mark::Minus,
    Mark::Star,
    Mark::Slash,
    Mark::Percent,
    Mark::Assign,
    Mark::Equal,
    Mark::Differs,
    Mark::Less,
    Mark::AtMost,
    Mark::Greater,
    Mark::AtLeast,
    Mark::And,
    Mark::Or,
    Mark::Not,
    Mark::Increment,
    Mark::Decrement,
    Mark::PlusAssign,
    Mark::MinusAssign,
    Mark::StarAssign,
    Mark::SlashAssign,
    Mark::PercentAssign,
    Mark::OpenParen,
    Mark::CloseParen,
    Mark::OpenBrace,
    Mark::CloseBrace,
    Mark::OpenBracket,
    Mark::CloseBracket,
    Mark::Semicolon,
    Mark::Comma,
    Mark::Colon,
    Mark::Assert,
    Mark::Assume,
    Mark::Input,
    Mark::Break,
    Mark::Case,
    Mark::Continue,
    Mark::Default,
    Mark::Else,
    Mark::Extern,
    Mark::For,
    Mark::If,
    Mark::Int,
    Mark::Long,
    Mark::Return,
    Mark::Switch,
    Mark::Void,
    Mark::While,
];

/// The keywords of C that the grammar doesn't name.
const FURTHER_WORDS: [&[u8]; 30] = [
    b"auto",
    b"char",
    b"const",
    b"do",
    b"double",
    b"enum",
    b"float",
    b"goto",
    b"inline",
    b"register",
    b"restrict",
    b"short",
    b"signed",
    b"sizeof",
    b"static",
    b"struct",
    b"typedef",
    b"union",
    b"unsigned",
    b"volatile",
    b"_Alignas",
    b"_Alignof",
    b"_Atomic",
    b"_Bool",
    b"_Complex",
    b"_Generic",
    b"_Imaginary",
    b"_Noreturn",
    b"_Static_assert",
    b"_Thread_local",
];

/// How the mark is spelled.
pub fn spelling_of(mark: Mark) -> &'static [u8]
    ensures { result.now ≡ mark_text mark }
{
    match mark {
        Mark::Plus => b"+",
        Mark::Minus => b"-",
        Mark::Star => b"*",
        Mark::Slash => b"/",
        Mark::Percent => b"%",
        Mark::Assign => b"=",
        Mark::Equal => b"==",
        Mark::Differs => b"!=",
        Mark::Less => b"<",
        Mark::AtMost => b"<=",
        Mark::Greater => b">",
        Mark::AtLeast => b">=",
        Mark::And => b"&&",
        Mark::Or => b"||",
        Mark::Not => b"!",
        Mark::Increment => b"++",
        Mark::Decrement => b"--",
        Mark::PlusAssign => b"+=",
        Mark::MinusAssign => b"-=",
        Mark::StarAssign => b"*=",
        Mark::SlashAssign => b"/=",
        Mark::PercentAssign => b"%=",
        Mark::OpenParen => b"(",
        Mark::CloseParen => b")",
        Mark::OpenBrace => b"{",
        Mark::CloseBrace => b"}",
        Mark::OpenBracket => b"[",
        Mark::CloseBracket => b"]",
        Mark::Semicolon => b";",
        Mark::Comma => b",",
        Mark::Colon => b":",
        Mark::Assert => b"assert",
        Mark::Assume => b"assume",
        Mark::Input => b"input",
        Mark::Break => b"break",
        Mark::Case => b"case",
        Mark::Continue => b"continue",
        Mark::Default => b"default",
        Mark::Else => b"else",
        Mark::Extern => b"extern",
        Mark::For => b"for",
        Mark::If => b"if",
        Mark::Int => b"int",
        Mark::Long => b"long",
        Mark::Return => b"return",
        Mark::Switch => b"switch",
        Mark::Void => b"void",
        Mark::While => b"while",
    }
}

/// Whether the mark is spelled like this, which the first byte mostly reports.
fn has_spelling(mark: Mark, spelling: &[u8]) -> bool
    ensures { result ≡ bytes_eq (mark_text mark) spelling.now }
{
    let own = spelling_of(mark);
    !spelling.is_empty() && own[0] == spelling[0] && own == spelling
}

/// The operator, or reserved word that the grammar names, of this spelling.
pub fn find_mark(spelling: &[u8]) -> Option<Mark>
    ensures { result ≡ found_mark spelling.now }
{
    MARKS
        .iter()
        .copied()
        .find(|mark| has_spelling(*mark, spelling))
}

/// Whether the word is one of these.
pub fn is_among(word: &[u8], words: &[&[u8]]) -> bool
    ensures { result ≡ list_any (λ other. bytes_eq word.now other.now) words.now }
{
    words.iter().any(|other| word == *other)
}

/// Whether the word is a keyword of C that the grammar doesn't name.
pub fn is_further_word(word: &[u8]) -> bool
    ensures { result ≡ is_among word.now further_words }
{
    is_among(word, &FURTHER_WORDS)
}
