// What an input must get that is to be a certificate.
ghost use Rattle.std.specs.Fmt.{decimal};
ghost use Rattle.std.specs.Prelude.{◌≡◌, ◌++◌, codes, IfOk, OnOk, string_bytes};
ghost use Rattle.lra_commands.specs.Crates.{lra_row_text.Texts.text_line, lra_verify.RefusalViews.refusal_view};
ghost use Rattle.lra_commands.specs.CertificateAnswer.{AnswersCertificate, verify_answer_text, verified_text};

use lra_certify_source::{VerifyError, VerifyRefusal, verify};
use lra_command_answers::{Answer, Status};
use lra_report::refusal_text;
use std::alloc::{AllocError, Global};
use std::fmt::Write;

/// Adds `verified points P proved A`.
fn push_verified(text: &mut String, points: u32, proved: u32) -> Result<(), AllocError>
    ensures { OnOk result (string_bytes text.new ≡ string_bytes text.old
        ++ verified_text points proved) }
{
    writeln!(text, "verified points {points} proved {proved}")
}

/// The text of what is verified.
fn verified_text(alloc: Global, points: u32, proved: u32) -> Result<String, AllocError>
    ensures { IfOk result (λ text. string_bytes text ≡ verified_text points proved) }
{
    let mut text = String::new(alloc);
    push_verified(&mut text, points, proved)?;
    Ok(text)
}

/// Adds `refused paths at point N`.
pub(crate) fn push_paths(text: &mut String, point: usize) -> Result<(), AllocError>
    ensures { OnOk result (string_bytes text.new ≡ string_bytes text.old
        ++ text_line (codes "refused paths at point " ++ decimal point)) }
{
    writeln!(text, "refused paths at point {point}")
}

/// Adds `refused line N CAUSE`.
fn push_fault(text: &mut String, line: u32, cause: &str) -> Result<(), AllocError>
    ensures { OnOk result (string_bytes text.new ≡ string_bytes text.old
        ++ text_line (codes "refused line " ++ decimal line ++ codes " " ++ cause.now)) }
{
    writeln!(text, "refused line {line} {cause}")
}

/// The text of a refusal.
fn refused_text(alloc: Global, refusal: VerifyRefusal) -> Result<String, AllocError>
    ensures { IfOk result (λ text. string_bytes text ≡ verify_answer_text (refusal_view refusal)) }
{
    let mut text = String::new(alloc);
    match refusal {
        VerifyRefusal::Source(refusal) => return refusal_text(alloc, refusal),
        VerifyRefusal::Paths(point) => push_paths(&mut text, point as usize)?,
        VerifyRefusal::Line(line, fault) => push_fault(&mut text, line, fault.name())?,
    }
    Ok(text)
}

/// How many points and listed assertions a certificate has that meets its program, or why it is none.
#[tactic(auto, using(crate::proofs::CertificateOutcomes::deserving))]
pub fn answer_certificate(alloc: Global, bytes: &[u8]) -> Result<Answer, AllocError>
    ensures { IfOk result (λ a. AnswersCertificate bytes.now a.text.items a.status) }
{
    match verify(alloc, bytes) {
        Ok((points, proved)) => Ok(Answer {
            text: verified_text(alloc, points, proved)?.into_bytes(),
            status: Status::Proved,
        }),
        Err(VerifyError::Refused(refusal)) => Ok(Answer {
            text: refused_text(alloc, refusal)?.into_bytes(),
            status: Status::Refused,
        }),
        Err(VerifyError::Memory) => Err(AllocError),
    }
}
