// What a source must get that is gone back over from one of its assertions.
ghost use Rattle.std.specs.Fmt.{decimal};
ghost use Rattle.std.specs.Prelude.{◌≡◌, ◌≤◌, ◌<◌, ◌+◌, ◌++◌, ◌^◌, codes, length, IfOk, OnOk, string_bytes};
ghost use Rattle.lra_commands.specs.Crates.lra_row_text.Texts.{text_line};
ghost use Rattle.lra_report.specs.BackText as written;
ghost use Rattle.lra_report.specs.View.{back_report_of};
ghost use Rattle.lra_commands.specs.BackAnswer.{AnswersBack, back_refused_text, back_status};

use crate::certificate_answer::push_paths;
use lra_back_source::{BackError, BackRefusal, back_source};
use lra_command_answers::{Answer, Status};
use lra_report::{BackReport, back_text, refusal_text};
use std::alloc::{AllocError, Global};
use std::fmt::Write;

/// Adds `refused point N`.
fn push_point(text: &mut String, number: u32) -> Result<(), AllocError>
    ensures { OnOk result (string_bytes text.new ≡ string_bytes text.old
        ++ text_line (codes "refused point " ++ decimal number)) }
{
    writeln!(text, "refused point {number}")
}

/// The text of a refusal.
fn refused_text(alloc: Global, number: u32, refusal: BackRefusal) -> Result<String, AllocError>
    ensures { IfOk result (λ text. string_bytes text ≡ back_refused_text number refusal) }
{
    let mut text = String::new(alloc);
    match refusal {
        BackRefusal::Source(refusal) => return refusal_text(alloc, refusal),
        BackRefusal::NoAssertion => push_point(&mut text, number)?,
        BackRefusal::Paths(point) => push_paths(&mut text, point)?,
    }
    Ok(text)
}

/// The status of going back from an assertion.
fn status_of(is_proved: bool) -> Status
    ensures { result ≡ back_status is_proved }
{
    if is_proved {
        Status::Proved
    } else {
        Status::Unknown
    }
}

/// What is written of going back, and its status.
fn answer_report(alloc: Global, report: &BackReport) -> Result<Answer, AllocError>
    ensures text { IfOk result (λ a. a.text.items ≡ written.back_text (back_report_of report.now)) }
    ensures status { IfOk result (λ a. a.status ≡ back_status (back_report_of report.now).proved) }
{
    Ok(Answer {
        text: back_text(alloc, report)?.into_bytes(),
        status: status_of(report.is_proved),
    })
}

/// What is left before the assertion of this number fails, or the refusal of a source, of which no more than one byte
/// past the limit is given.
#[tactic(auto, using(crate::proofs::BackOutcomes::deserving))]
pub fn answer_back(alloc: Global, number: u32, bytes: &[u8]) -> Result<Answer, AllocError>
    requires least { 1 ≤ number }
    requires greatest { number ≤ 2048 }
    requires bound { length bytes.now + 1 < 2 ^ 32 }
    ensures { IfOk result (λ a. AnswersBack number bytes.now a.text.items a.status) }
{
    match back_source(alloc, number as usize - 1, bytes) {
        Ok(report) => answer_report(alloc, &report),
        Err(BackError::Refused(refusal)) => Ok(Answer {
            text: refused_text(alloc, number, refusal)?.into_bytes(),
            status: Status::Refused,
        }),
        Err(BackError::Memory) => Err(AllocError),
    }
}
