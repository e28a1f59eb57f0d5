// What a source of several threads must get: what is found of them, or its refusal.
ghost use Rattle.std.specs.Prelude.{◌≡◌, ◌<◌, ◌+◌, ◌^◌, length, IfOk};
ghost use Rattle.lra_report.specs.ReportText.{unknown_count};
ghost use Rattle.lra_threads_source.specs.ThreadsText as told;
ghost use Rattle.lra_threads_source.specs.ThreadsView.{threads_report_of};
ghost use Rattle.lra_commands.specs.{SourceAnswer.report_status, ThreadsAnswer.AnswersThreads};

use crate::source_answer::status_by;
use lra_base::SourceError;
use lra_command_answers::{Answer, answer_refusal};
use lra_report::count_unknown;
use lra_threads_source::{ThreadsReport, threads_source, threads_text};
use std::alloc::{AllocError, Global};

/// What is written of several threads, and its status.
fn answer_report(alloc: Global, report: &ThreadsReport) -> Result<Answer, AllocError>
    ensures text { IfOk result (λ a. a.text.items ≡
        told.threads_text (threads_report_of report.now)) }
    ensures status { IfOk result (λ a. a.status ≡
        report_status (unknown_count (threads_report_of report.now).verdicts)) }
{
    let status = status_by(count_unknown(&report.verdicts));
    Ok(Answer {
        text: threads_text(alloc, report)?.into_bytes(),
        status,
    })
}

/// What is found of the threads of a source, or its refusal; of the source no more than one byte past the limit is
/// given.
#[tactic(auto, using(crate::proofs::ThreadsOutcomes::deserving))]
pub fn answer_threads(
    alloc: Global,
    delay: u32,
    narrow: u32,
    bytes: &[u8],
) -> Result<Answer, AllocError>
    requires { length bytes.now + 1 < 2 ^ 32 }
    ensures { IfOk result (λ a. AnswersThreads delay narrow bytes.now a.text.items a.status) }
{
    match threads_source(alloc, delay, narrow, bytes) {
        Ok(report) => answer_report(alloc, &report),
        Err(SourceError::Refused(refusal)) => answer_refusal(alloc, refusal),
        Err(SourceError::Memory) => Err(AllocError),
    }
}
