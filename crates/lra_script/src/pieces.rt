//! The lines of a script, and their words.

ghost use Rattle.std.specs.{List.slice_split, List.list_all, Prelude.◌≡◌, Prelude.nat_eq, Prelude.IfOk};
ghost use Rattle.lra_script.specs.ScriptText as script;
ghost use Rattle.lra_script.specs.Views.{texts};

use std::alloc::{AllocError, Global};

/// What stands before, between and after the separators.
fn pieces(alloc: Global, bytes: &[u8], separator: u8) -> Result<Vec<&[u8]>, AllocError>
    ensures { IfOk result (λ parts. texts parts.items ≡ slice_split (λ b. nat_eq b separator) bytes.now) }
{
    bytes.split(|byte| *byte == separator).collect(alloc)
}

/// The line without a last carriage return.
pub fn without_return(line: &[u8]) -> &[u8]
    ensures { result.now ≡ script.without_return line.now }
{
    match line {
        [front @ .., b'\r'] => front,
        _ => line,
    }
}

/// The pieces of a script between its line feeds.
pub fn raw_lines(alloc: Global, bytes: &[u8]) -> Result<Vec<&[u8]>, AllocError>
    ensures { IfOk result (λ lines. texts lines.items ≡ slice_split (λ b. nat_eq b 10) bytes.now) }
{
    pieces(alloc, bytes, b'\n')
}

fn is_blank(line: &[u8]) -> bool
    ensures { result ≡ list_all (λ b. nat_eq b 32) line.now }
{
    line.iter().all(|byte| *byte == b' ')
}

/// Whether a line says nothing: only spaces, or a comment.
pub fn is_skipped(line: &[u8]) -> bool
    ensures { result ≡ script.is_skipped line.now }
{
    match line {
        [] => true,
        [first, ..] => *first == b'#' || is_blank(line),
    }
}

/// The words of a line.
pub fn words(alloc: Global, line: &[u8]) -> Result<Vec<&[u8]>, AllocError>
    ensures { IfOk result (λ words. texts words.items ≡ script.words line.now) }
{
    let mut words = Vec::new(alloc);
    for piece in &pieces(alloc, line, b' ')? {
        if !piece.is_empty() {
            words.push(*piece)?;
        }
    }
    Ok(words)
}
