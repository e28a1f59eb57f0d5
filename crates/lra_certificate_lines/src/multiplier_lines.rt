//! Lines of multipliers, and what they show.

ghost use Rattle.std.specs.Prelude.{◌≡◌, ◌≤◌, ◌<◌, ◌^◌, length, IfOk, IfErr, IfSome, option_map};
ghost use Rattle.lra_certificate_lines.specs.Crates.lra_linear_spec.Range.{InRange};
ghost use Rattle.lra_certificate_spec.specs.Judged.{multipliers_in, by_answer};
ghost use Rattle.lra_certificate_spec.specs.Lines.{line_number_at, left_at};
ghost use Rattle.lra_certificate_lines.specs.LineViews.{IsJudgedAs, IsRefusal};
ghost use Rattle.lra_certificate_lines.specs.MultiplierLineViews.{multipliers_on, read_view};
ghost use Rattle.lra_multipliers.specs.MultiplierViews.{answer_view, multipliers_view};

use crate::lines::{line_at, refuse};
use crate::numbers::numbers_behind;
use crate::refusals::{LineFault, VerifyError};
use lra_multipliers::{Answer, Multipliers};
use std::alloc::{AllocError, Global};

/// The multipliers of a line, and where the next line begins.
#[derive(Drop)]
pub struct MultiplierLine {
    pub multipliers: Multipliers,
    pub after: usize,
}

/// The multipliers that a line spells after this word, over so many premises.
fn multipliers_in(
    alloc: Global,
    line: &[u8],
    word: &[u8],
    premises: usize,
) -> Result<Option<Multipliers>, AllocError>
    requires { premises < 2 ^ 62 }
    ensures multipliers { IfOk result (λ r. option_map multipliers_view r ≡
        multipliers_in word.now premises line.now) }
    ensures count { IfOk result (λ r. IfSome r (λ m. length m.factors.items ≡ premises)) }
    ensures constant { IfOk result (λ r. IfSome r (λ m. InRange m.constant)) }
{
    match numbers_behind(alloc, line, word, premises + 2)? {
        Some(numbers) => {
            let (first, factors) = numbers.split_at(2);
            let factors = Vec::from_slice(alloc, factors)?;
            let multipliers = Multipliers::new(alloc, first[0], first[1], factors)?;
            Ok(Some(multipliers))
        }
        None => Ok(None),
    }
}

/// The multipliers of the line that begins here: it has this word, and numbers for so many premises.
pub fn take_multipliers(
    alloc: Global,
    bytes: &[u8],
    at: usize,
    word: &[u8],
    premises: usize,
) -> Result<MultiplierLine, VerifyError>
    requires short { length bytes.now < 2 ^ 31 }
    requires place { at ≤ length bytes.now }
    requires word { 0 < length word.now }
    requires few { premises < 2 ^ 62 }
    ensures told { IsJudgedAs (read_view bytes.now)
        (multipliers_on word.now premises (left_at bytes.now at)) result }
    ensures within { IfOk result (λ r. r.after ≤ length bytes.now) }
    ensures count { IfOk result (λ r. length r.multipliers.factors.items ≡ premises) }
    ensures constant { IfOk result (λ r. InRange r.multipliers.constant) }
{
    match line_at(bytes, at) {
        Some(line) => match multipliers_in(alloc, line, word, premises)? {
            Some(multipliers) => Ok(MultiplierLine {
                multipliers,
                after: at + line.len() + 1,
            }),
            None => Err(refuse(bytes, at, LineFault::BadLine)),
        },
        None => Err(refuse(bytes, at, LineFault::BadLine)),
    }
}

/// Where the next line begins, by the answer to the line that begins here.
pub fn take_answer(
    bytes: &[u8],
    at: usize,
    behind: usize,
    answer: Answer,
) -> Result<usize, VerifyError>
    requires short { length bytes.now < 2 ^ 31 }
    requires place { at ≤ length bytes.now }
    ensures told { IsJudgedAs (left_at bytes.now)
        (by_answer (line_number_at bytes.now at) (left_at bytes.now behind)
        (answer_view answer)) result }
    ensures within { IfOk result (λ next. next ≡ behind) }
    ensures refused { IfErr result IsRefusal }
{
    match answer {
        Answer::Yes => Ok(behind),
        Answer::No => Err(refuse(bytes, at, LineFault::NotRow)),
        Answer::Wide => Err(refuse(bytes, at, LineFault::Wide)),
    }
}
