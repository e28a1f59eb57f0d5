//! Sources and their tokens, or their first fault, each with its place.

use lra_base::{NumberType, Refusal, SourceError};
use lra_lex::{one_reading, tokens};
use lra_syntax::{Kind, Token};
use std::alloc::{AllocError, Global};
use std::fmt::Write;
use std::process::Abort;

/// Marks, words and bytes that are none.
static MARKS: [(&[u8], &str); 17] = [
    (b"", "End@1:1"),
    (
        b"+ - * / % = == != < <= > >= && || !",
        "Plus@1:1 Minus@1:3 Star@1:5 Slash@1:7 Percent@1:9 Assign@1:11 Equal@1:13 Differs@1:16 Less@1:19 AtMost@1:21 \
            Greater@1:24 AtLeast@1:26 And@1:29 Or@1:32 Not@1:35 End@1:36",
    ),
    (
        b"++ -- += -= *= /= %= ( ) { } ; , :",
        "Increment@1:1 Decrement@1:4 PlusAssign@1:7 MinusAssign@1:10 StarAssign@1:13 SlashAssign@1:16 \
            PercentAssign@1:19 OpenParen@1:22 CloseParen@1:24 OpenBrace@1:26 CloseBrace@1:28 Semicolon@1:30 Comma@1:32 \
            Colon@1:34 End@1:35",
    ),
    (
        b"assert assume input break case continue default else extern for if int long return switch void while",
        "Assert@1:1 Assume@1:8 Input@1:15 Break@1:21 Case@1:27 Continue@1:32 Default@1:41 Else@1:49 Extern@1:54 \
            For@1:61 If@1:65 Int@1:68 Long@1:72 Return@1:77 Switch@1:84 Void@1:91 While@1:96 End@1:101",
    ),
    (
        b"auto char const do double enum float goto inline register restrict short signed sizeof static struct \
            typedef union unsigned volatile _Alignas _Alignof _Atomic _Bool _Complex _Generic _Imaginary _Noreturn \
            _Static_assert _Thread_local",
        "Reserved@1:1 Reserved@1:6 Reserved@1:11 Reserved@1:17 Reserved@1:20 Reserved@1:27 Reserved@1:32 \
            Reserved@1:38 Reserved@1:43 Reserved@1:50 Reserved@1:59 Reserved@1:68 Reserved@1:74 Reserved@1:81 \
            Reserved@1:88 Reserved@1:95 Reserved@1:102 Reserved@1:110 Reserved@1:116 Reserved@1:125 Reserved@1:134 \
            Reserved@1:143 Reserved@1:152 Reserved@1:160 Reserved@1:166 Reserved@1:175 Reserved@1:184 Reserved@1:195 \
            Reserved@1:205 Reserved@1:220 End@1:233",
    ),
    (
        b"x _y9 longer intx",
        "name x@1:1 name _y9@1:3 name longer@1:7 name intx@1:14 End@1:18",
    ),
    (b"x \xe9", "BadByte@1:3"),
    (
        b"> >= > =",
        "Greater@1:1 AtLeast@1:3 Greater@1:6 Assign@1:8 End@1:9",
    ),
    (b"+++", "Increment@1:1 Plus@1:3 End@1:4"),
    (b"a--b", "name a@1:1 Decrement@1:2 name b@1:4 End@1:5"),
    (
        b"a---b",
        "name a@1:1 Decrement@1:2 Minus@1:4 name b@1:5 End@1:6",
    ),
    (
        b"a\tb\x0bc\x0cd\re",
        "name a@1:1 name b@1:3 name c@1:5 name d@1:7 name e@1:9 End@1:10",
    ),
    (b"a\n\n b", "name a@1:1 name b@3:2 End@3:3"),
    (b"&", "BadByte@1:1"),
    (b"a | b", "BadByte@1:3"),
    (b"x.y", "BadByte@1:2"),
    (b"$", "BadByte@1:1"),
];

/// Numbers.
static NUMBERS: [(&[u8], &str); 12] = [
    (
        b"9223372036854775807 0x7fffffffffffffff 0777777777777777777777",
        "9223372036854775807L@1:1 9223372036854775807L@1:21 9223372036854775807L@1:40 End@1:62",
    ),
    (
        b"2147483647 2147483648 0x7fffffff 0x80000000",
        "2147483647@1:1 2147483648L@1:12 2147483647@1:23 2147483648L@1:34 End@1:44",
    ),
    (b"x=9223372036854775808", "BadLiteral@1:3"),
    (b"0x8000000000000000", "BadLiteral@1:1"),
    (b"01000000000000000000000", "BadLiteral@1:1"),
    (
        b"0 00 0L 017 1l 1L 1ll 1LL 0xFfLL 0Xa",
        "0@1:1 0@1:3 0L@1:6 15@1:9 1L@1:13 1L@1:16 1L@1:19 1L@1:23 255L@1:27 10@1:34 End@1:37",
    ),
    (b"08", "BadLiteral@1:1"),
    (b"0x", "BadLiteral@1:1"),
    (b"1lL", "BadLiteral@1:1"),
    (b"1lll", "BadLiteral@1:1"),
    (b"1u", "BadLiteral@1:1"),
    (b"12ab", "BadLiteral@1:1"),
];

/// Comments and lines of `#include`.
static SKIPPED: [(&[u8], &str); 18] = [
    (b"/* \xe9 */x", "name x@1:8 End@1:9"),
    (b"//\xe9", "End@1:4"),
    (b"#include <a.h>\nx", "name x@2:1 End@2:2"),
    (b"x #include <a>", "BadByte@1:3"),
    (b"#", "BadByte@1:1"),
    (b"  #\t include<a>", "End@1:16"),
    (b"#includex", "BadByte@1:1"),
    (b"\t#include /*\nx", "name x@2:1 End@2:2"),
    (b"#include a\n#include b\nx", "name x@3:1 End@3:2"),
    (b"\r#include a", "BadByte@1:2"),
    (b"/**/#include a", "BadByte@1:5"),
    (b"/* a", "Unclosed@1:1 End@1:5"),
    (b"/*/", "Unclosed@1:1 End@1:4"),
    (b"/**/x/***/y", "name x@1:5 name y@1:11 End@1:12"),
    (b"/*\n*/x", "name x@2:3 End@2:4"),
    (b"//", "End@1:3"),
    (b"x // y\nz", "name x@1:1 name z@2:1 End@2:2"),
    (b"a/*b*/c", "name a@1:1 name c@1:7 End@1:8"),
];

fn write_kind(text: &mut String, kind: &Kind) -> Result<(), AllocError> {
    match kind {
        Kind::Name(word) => {
            let name = word.as_str();
            write!(text, "name {name}")
        }
        Kind::Number(number_type, value) => match number_type {
            NumberType::Int => write!(text, "{value}"),
            NumberType::Long => write!(text, "{value}L"),
        },
        Kind::Mark(mark) => write!(text, "{mark:?}"),
        Kind::Reserved => text.push_str("Reserved"),
        Kind::Unclosed => text.push_str("Unclosed"),
        Kind::End => text.push_str("End"),
    }
}

/// Adds each token with its place.
fn write_tokens(text: &mut String, tokens: &[Token]) -> Result<(), AllocError> {
    let mut between = "";
    for token in tokens {
        text.push_str(between)?;
        write_kind(text, &token.kind)?;
        let line = token.place.line;
        let column = token.place.column;
        write!(text, "@{line}:{column}")?;
        between = " ";
    }
    Ok(())
}

fn write_refusal(text: &mut String, refusal: Refusal) -> Result<(), AllocError> {
    let cause = refusal.cause;
    let line = refusal.place.line;
    let column = refusal.place.column;
    write!(text, "{cause:?}@{line}:{column}")
}

fn write_reading(
    text: &mut String,
    reading: &Result<Vec<Token>, SourceError>,
) -> Result<(), AllocError> {
    match reading {
        Ok(tokens) => write_tokens(text, tokens),
        Err(SourceError::Refused(refusal)) => write_refusal(text, *refusal),
        Err(SourceError::Memory) => Err(AllocError),
    }
}

/// Whether this is reported about the source.
fn is_read(alloc: Global, source: &[u8], expected: &str) -> Result<bool, AllocError> {
    if source.len() > 65_536 {
        return Ok(false);
    }
    let reading = tokens(alloc, source);
    let mut text = String::new(alloc);
    write_reading(&mut text, &reading)?;
    Ok(text.as_bytes() == expected.as_bytes())
}

/// Checks the tokens of sources.
fn are_read(rt: &impl Abort, alloc: Global, cases: &[(&[u8], &str)]) {
    for (source, expected) in cases {
        let same = is_read(alloc, source, expected);
        assert!(rt; same == Ok(true), "{expected}");
    }
}

#[test]
fn tokens_are_read(rt: HostRuntime) {
    are_read(&rt, rt.alloc(), &MARKS);
    are_read(&rt, rt.alloc(), &NUMBERS);
    are_read(&rt, rt.alloc(), &SKIPPED);
    one_reading();
}
