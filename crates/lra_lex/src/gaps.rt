//! What stands for nothing between tokens: blanks, comments and `#include` lines.

ghost use Rattle.std.specs.Prelude.{◌≡◌, ◌+◌, ◌<◌, ◌↔◌, ℕ, Bool, length, slice_index, IfSome, IfNone, IsTrue};
ghost use Rattle.lra_lex.specs.Prefixes.{BeginsGap, HasNoGap, IsCloseAt, IsFirstClose, IsInclude};

use crate::bytes::{indent, is_blank, line_length, word_length};

/// How many bytes there are up to the end of the first `*/`.
fn find_close(text: &[u8]) -> Option<usize>
    ensures found { IfSome result (IsFirstClose text.now) }
    ensures none { IfNone result ((k : ℕ) → k + 1 < length text.now → IsCloseAt text.now k → ⊥) }
{
    for i in 1..text.len() {
        if text[i - 1] == b'*' && text[i] == b'/' {
            return Some(i + 1);
        }
    }
    None
}

/// How many bytes a comment at the start has.
fn comment_length(rest: &[u8]) -> Option<usize>
    requires { slice_index rest.now 0 ≡ 47 }
    ensures found { IfSome result (λ n. (fresh : Bool) → BeginsGap fresh rest.now n) }
    ensures none { IfNone result ((fresh : Bool) → HasNoGap fresh rest.now) }
{
    if rest.len() < 2 {
        return None;
    }
    if rest[1] == b'/' {
        return Some(line_length(rest));
    }
    if rest[1] != b'*' {
        return None;
    }
    let (_, text) = rest.split_at(2);
    match find_close(text) {
        Some(length) => Some(length + 2),
        None => None,
    }
}

/// Whether `#include` stands at the start, with spaces or tabs after the `#` or without.
fn is_include(rest: &[u8]) -> bool
    requires { 0 < length rest.now }
    ensures { IsTrue result ↔ IsInclude rest.now }
{
    let (sharp, behind) = rest.split_at(1);
    let (_, text) = behind.split_at(indent(behind));
    let (word, _) = text.split_at(word_length(text));
    sharp == b"#".as_slice() && word == b"include".as_slice()
}

/// How many bytes a gap at the start has. `fresh` says that only spaces and tabs stand before it on the line.
pub fn gap_length(rest: &[u8], fresh: bool) -> Option<usize>
    requires { 0 < length rest.now }
    ensures found { IfSome result (BeginsGap fresh rest.now) }
    ensures none { IfNone result (HasNoGap fresh rest.now) }
{
    let first = rest[0];
    if is_blank(first) {
        Some(1)
    } else if first == b'/' {
        comment_length(rest)
    } else if fresh && is_include(rest) {
        Some(line_length(rest))
    } else {
        None
    }
}
