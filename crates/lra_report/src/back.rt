//! What is written of going back from an assertion.

ghost use Rattle.std.specs.Prelude.{◌≡◌, ◌++◌, IfOk, OnOk, string_bytes};
ghost use Rattle.lra_report.specs.BackText as written;
ghost use Rattle.lra_report.specs.View.{back_report_of};

use crate::report::PointReport;
use crate::verdict_kinds::VerdictKind;
use crate::writing::{push_flag, push_points};
use std::alloc::{AllocError, Global};
use std::fmt::Write;

/// Of the assertion at the point of this number: at each point what is left there, and whether it is proved. `flagged`
/// is the number of the point to which the first flagged operation belongs.
pub struct BackReport {
    pub number: u32,
    pub flagged: Option<u32>,
    pub points: Vec<PointReport>,
    pub is_proved: bool,
}

impl Drop for BackReport {
    fn drop(self) {
        let BackReport {
            number: _,
            flagged: _,
            points: _,
            is_proved: _,
        } = self;
    }
}

/// Appends the first line.
fn push_back(text: &mut String, number: u32) -> Result<(), AllocError>
    ensures { OnOk result (string_bytes text.new ≡ string_bytes text.old ++
        written.back_line number) }
{
    writeln!(text, "back point {number}")
}

/// Appends the last line.
fn push_outcome(text: &mut String, number: u32, is_proved: bool) -> Result<(), AllocError>
    ensures { OnOk result (string_bytes text.new ≡ string_bytes text.old ++
        written.outcome_line number is_proved) }
{
    let word = VerdictKind::Assertion.word();
    let outcome = VerdictKind::Assertion.outcome(is_proved);
    writeln!(text, "{word} {number} {outcome}")
}

/// The text of going back.
pub fn back_text(alloc: Global, report: &BackReport) -> Result<String, AllocError>
    ensures { IfOk result (λ shown. string_bytes shown ≡
        written.back_text (back_report_of report.now)) }
{
    let mut text = String::new(alloc);
    push_back(&mut text, report.number)?;
    push_flag(&mut text, report.flagged)?;
    push_points(&mut text, alloc, report.points.as_slice())?;
    push_outcome(&mut text, report.number, report.is_proved)?;
    Ok(text)
}
