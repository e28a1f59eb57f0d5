// What a sample must get: what is reported about its source's report.
ghost use Rattle.std.specs.Prelude.{◌≡◌, ◌≤◌, IfOk};
ghost use Rattle.lra_report.specs.ReportText.{unknown_count};
ghost use Rattle.lra_report.specs.View as view;
ghost use Rattle.lra_sample.specs.{Sample.sample_source, Summary.summary_text};
ghost use Rattle.lra_commands.specs.{SampleAnswer.AnswersSample, SourceAnswer.report_status};

use crate::source_answer::status_of;
use lra_base::SourceError;
use lra_command_answers::{Answer, answer_refusal};
use lra_command_line::default_options;
use lra_report::Report;
use lra_sample::{program, summary};
use lra_threads_source::analyse_source;
use std::alloc::{AllocError, Global};

/// What is reported about the report of a sample source, and its status.
fn answer_summary(
    alloc: Global,
    seed: u64,
    size: u32,
    source: &[u8],
    report: &Report,
) -> Result<Answer, AllocError>
    requires { source.now ≡ sample_source seed size }
    ensures text { IfOk result (λ a. a.text.items ≡
        summary_text seed size (view.report_of report.now)) }
    ensures status { IfOk result (λ a. a.status ≡
        report_status (unknown_count (view.report_of report.now).verdicts)) }
{
    let status = status_of(report);
    Ok(Answer {
        text: summary(alloc, seed, size, source, report)?.into_bytes(),
        status,
    })
}

/// The answer to a sample of up to 400 blocks: its source is made, and analysed with the options that hold if words
/// name none.
pub fn answer_sample(alloc: Global, seed: u64, size: u32) -> Result<Answer, AllocError>
    requires { size ≤ 400 }
    ensures { IfOk result (λ a. AnswersSample seed size a.text.items a.status) }
{
    let options = default_options();
    let source = program(alloc, seed, size)?;
    match analyse_source(alloc, options, &source) {
        Ok(report) => answer_summary(alloc, seed, size, &source, &report),
        Err(SourceError::Refused(refusal)) => answer_refusal(alloc, refusal),
        Err(SourceError::Memory) => Err(AllocError),
    }
}
