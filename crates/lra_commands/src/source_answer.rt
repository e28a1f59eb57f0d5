// What a source must get: its report, as lines or as JSON, or its refusal.
ghost use Rattle.std.specs.Prelude.{◌≡◌, ◌≤◌, ◌<◌, ◌+◌, ◌^◌, length, IfOk};
ghost use Rattle.lra_report.specs.ReportText.{unknown_count};
ghost use Rattle.lra_report.specs.View as view;
ghost use Rattle.lra_commands.specs.SourceAnswer.{AnswersSource, report_status, written_report};

use lra_base::SourceError;
use lra_command_answers::{Answer, Status, answer_refusal};
use lra_command_line::Format;
use lra_report::{Options, Report, text};
use lra_report_json::json_text;
use lra_threads_source::analyse_source;
use std::alloc::{AllocError, Global};

/// The status of a report in which so many verdicts are unknown.
#[tactic(auto, using(crate::proofs::SourceOutcomes::counting))]
pub(crate) fn status_by(unknown: usize) -> Status
    ensures { result ≡ report_status unknown }
{
    if unknown == 0 {
        Status::Proved
    } else {
        Status::Unknown
    }
}

/// The status of a report.
pub(crate) fn status_of(report: &Report) -> Status
    ensures { result ≡ report_status (unknown_count (view.report_of report.now).verdicts) }
{
    status_by(report.unknown_count())
}

/// A report as it is written, a row for each output.
fn write_report(alloc: Global, format: Format, report: &Report) -> Result<Vec<u8>, AllocError>
    ensures { IfOk result (λ bytes. bytes.items ≡
        written_report format (view.report_of report.now)) }
{
    match format {
        Format::Lines => Ok(text(alloc, report)?.into_bytes()),
        Format::Json => json_text(alloc, report),
    }
}

/// A report as it is written, and its status.
fn answer_report(alloc: Global, format: Format, report: &Report) -> Result<Answer, AllocError>
    ensures text { IfOk result (λ a. a.text.items ≡
        written_report format (view.report_of report.now)) }
    ensures status { IfOk result (λ a. a.status ≡
        report_status (unknown_count (view.report_of report.now).verdicts)) }
{
    let status = status_of(report);
    Ok(Answer {
        text: write_report(alloc, format, report)?,
        status,
    })
}

/// The report or the refusal of a source, of which no more than one byte past the limit is given.
#[tactic(auto, using(crate::proofs::SourceOutcomes::deserving))]
pub fn answer_source(
    alloc: Global,
    options: Options,
    format: Format,
    bytes: &[u8],
) -> Result<Answer, AllocError>
    requires parts { 1 ≤ options.parts }
    requires bound { length bytes.now + 1 < 2 ^ 32 }
    ensures { IfOk result (λ a. AnswersSource options (written_report format) bytes.now a.text.items
        a.status) }
{
    match analyse_source(alloc, options, bytes) {
        Ok(report) => answer_report(alloc, format, &report),
        Err(SourceError::Refused(refusal)) => answer_refusal(alloc, refusal),
        Err(SourceError::Memory) => Err(AllocError),
    }
}
