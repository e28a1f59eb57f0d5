//! The lines of an input, by the place where they begin among its bytes.

ghost use Rattle.std.specs.List.{position_or_len, count_by};
ghost use Rattle.std.specs.Prelude.{◌≡◌, ◌≤◌, ◌<◌, ◌^◌, length, MatchOption, IfOk, IfErr, true, false, None, nat_eq};
ghost use Rattle.lra_certificate_lines.specs.LineViews.{IsJudgedAs, IsRefusal};
ghost use Rattle.lra_certificate_lines.specs.declared.refusals.VerifyError.{VerifyError};
ghost use Rattle.lra_certificate_lines.specs.declared.refusals.VerifyError.TheVariants.{Refused};
ghost use Rattle.lra_certificate_lines.specs.declared.refusals.VerifyRefusal.TheVariants.{Line};
ghost use Rattle.lra_certificate_spec.specs.Judged.{is_next_line, line_on, after_line, takes};
ghost use Rattle.lra_certificate_spec.specs.Lines.{is_feed, pieces_at, line_number_at, left_at, HasNoFeed, IsLineAt};

use crate::refusals::{LineFault, VerifyError, VerifyRefusal};

/// Where this byte stands first; the length if it doesn't.
pub fn place_of(bytes: &[u8], byte: u8) -> usize
    ensures place { result ≡ position_or_len (λ b. nat_eq b byte) bytes.now }
    ensures within { result ≤ length bytes.now }
{
    bytes.iter().take_while(|other| **other != byte).count()
}

/// How many lines end here.
fn count_feeds(bytes: &[u8]) -> usize
    ensures { result ≡ count_by is_feed bytes.now }
{
    bytes.iter().filter(|byte| **byte == b'\n').count()
}

/// The line that begins here; none if no line feed ends it.
pub fn line_at(bytes: &[u8], at: usize) -> Option<&[u8]>
    requires { at ≤ length bytes.now }
    ensures { MatchOption result (line_on (pieces_at bytes.now at) ≡ None)
        (λ line. IsLineAt bytes.now at line.now) }
{
    let (_, rest) = bytes.split_at(at);
    let length = place_of(rest, b'\n');
    if length == rest.len() {
        return None;
    }
    let (line, _) = rest.split_at(length);
    Some(line)
}

/// Why the line that begins here is refused.
pub fn refuse(bytes: &[u8], at: usize, fault: LineFault) -> VerifyError
    requires short { length bytes.now < 2 ^ 31 }
    requires place { at ≤ length bytes.now }
    ensures { result ≡ Refused (Line (line_number_at bytes.now at) fault) }
{
    let (before, _) = bytes.split_at(at);
    VerifyError::Refused(VerifyRefusal::Line(count_feeds(before) as u32 + 1, fault))
}

/// Where the next line begins, if the line that begins here is this text.
pub fn after_text(bytes: &[u8], at: usize, text: &[u8]) -> Option<usize>
    requires place { at ≤ length bytes.now }
    requires text { HasNoFeed text.now }
    ensures { MatchOption result (is_next_line text.now (line_on (pieces_at bytes.now at)) ≡ false)
        (λ next. next ≤ length bytes.now
        × (is_next_line text.now (line_on (pieces_at bytes.now at)) ≡ true)
        × (after_line (left_at bytes.now at) ≡ left_at bytes.now next)) }
{
    let (_, rest) = bytes.split_at(at);
    if !rest.starts_with(text) {
        return None;
    }
    let (_, behind) = rest.split_at(text.len());
    if !behind.starts_with(b"\n") {
        return None;
    }
    Some(at + text.len() + 1)
}

/// Where the next line begins; the line that begins here has to be this text.
pub fn take_line(bytes: &[u8], at: usize, text: &[u8]) -> Result<usize, VerifyError>
    requires short { length bytes.now < 2 ^ 31 }
    requires place { at ≤ length bytes.now }
    requires text { HasNoFeed text.now }
    ensures told { IsJudgedAs (left_at bytes.now) (takes text.now (left_at bytes.now at)) result }
    ensures within { IfOk result (λ next. next ≤ length bytes.now) }
    ensures refused { IfErr result IsRefusal }
{
    match after_text(bytes, at, text) {
        Some(next) => Ok(next),
        None => Err(refuse(bytes, at, LineFault::BadLine)),
    }
}
