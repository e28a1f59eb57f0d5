// What a source must get that is to be certified.
ghost use Rattle.std.specs.Fmt.{decimal};
ghost use Rattle.std.specs.Prelude.{◌≡◌, ◌<◌, ◌+◌, ◌++◌, ◌^◌, suc, codes, length, IfOk, OnOk, string_bytes};
ghost use Rattle.lra_commands.specs.Crates.lra_row_text.Texts.{text_line};
ghost use Rattle.lra_certify_source.specs.Certified.{HasSmallPoint};
ghost use Rattle.lra_commands.specs.CertifyAnswer.{AnswersCertify, refused_text};

use crate::certificate_answer::push_paths;
use crate::source_answer::status_by;
use lra_certify_source::{
    CertifiedReport, CertifyError, CertifyRefusal, StrainedAt, certify_source,
};
use lra_command_answers::{Answer, Status};
use lra_report::refusal_text;
use std::alloc::{AllocError, Global};
use std::fmt::Write;

/// Adds `refused strained at edge P Q`.
fn push_edge(text: &mut String, source: usize, point: usize) -> Result<(), AllocError>
    requires { point < 2 ^ 31 }
    ensures { OnOk result (string_bytes text.new ≡ string_bytes text.old ++ text_line
        (codes "refused strained at edge " ++ decimal source ++ codes " " ++ decimal (suc point))) }
{
    let number = point + 1;
    writeln!(text, "refused strained at edge {source} {number}")
}

/// Adds `refused strained at assert N`.
fn push_assertion(text: &mut String, point: usize) -> Result<(), AllocError>
    requires { point < 2 ^ 31 }
    ensures { OnOk result (string_bytes text.new ≡ string_bytes text.old
        ++ text_line (codes "refused strained at assert " ++ decimal (suc point))) }
{
    let number = point + 1;
    writeln!(text, "refused strained at assert {number}")
}

/// The text of a refusal.
fn refused_text(alloc: Global, refusal: CertifyRefusal) -> Result<String, AllocError>
    requires { HasSmallPoint refusal }
    ensures { IfOk result (λ text. string_bytes text ≡ refused_text refusal) }
{
    let mut text = String::new(alloc);
    match refusal {
        CertifyRefusal::Source(refusal) => return refusal_text(alloc, refusal),
        CertifyRefusal::Paths(point) => push_paths(&mut text, point)?,
        CertifyRefusal::Strained(StrainedAt::Edge(source, point)) => {
            push_edge(&mut text, source, point)?
        }
        CertifyRefusal::Strained(StrainedAt::Assertion(point)) => push_assertion(&mut text, point)?,
    }
    Ok(text)
}

/// The certificate or the refusal of a source, of which no more than one byte past the limit is given.
#[tactic(auto, using(crate::proofs::CertifyOutcomes::deserving))]
pub fn answer_certified(alloc: Global, bytes: &[u8]) -> Result<Answer, AllocError>
    requires { length bytes.now + 1 < 2 ^ 32 }
    ensures { IfOk result (λ a. AnswersCertify bytes.now a.text.items a.status) }
{
    match certify_source(alloc, bytes) {
        Ok(certified) => {
            let status = status_by(certified.unknown_assertions());
            let CertifiedReport { report: _, text } = certified;
            Ok(Answer { text, status })
        }
        Err(CertifyError::Refused(refusal)) => Ok(Answer {
            text: refused_text(alloc, refusal)?.into_bytes(),
            status: Status::Refused,
        }),
        Err(CertifyError::Memory) => Err(AllocError),
    }
}
