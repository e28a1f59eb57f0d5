//! The lines after those of the points, to the last.

ghost use Rattle.std.specs.Prelude.{◌≤◌, ◌<◌, ◌^◌, length};
ghost use Rattle.lra_verify.specs.EdgeViews.{IsAnnotatedProgram, rest_by};
ghost use Rattle.lra_verify.specs.Crates.{lra_certificate_spec.Judged.judged_end, lra_certificate_spec.Lines.left_at};
ghost use Rattle.lra_certificate_lines.specs.LineViews.{IsJudgedAs};

use crate::annotated::AnnotatedProgram;
use lra_certificate_lines::{LineFault, VerifyError, refuse, take_line};
use std::alloc::Global;

/// The line that begins here has to be `end`, with nothing after it.
fn take_end(bytes: &[u8], at: usize) -> Result<(), VerifyError>
    requires short { length bytes.now < 2 ^ 31 }
    requires place { at ≤ length bytes.now }
    ensures { IsJudgedAs (λ _. left_at bytes.now (length bytes.now))
        (judged_end (left_at bytes.now at)) result }
{
    let next = take_line(bytes, at, b"end")?;
    if next == bytes.len() {
        Ok(())
    } else {
        Err(refuse(bytes, next, LineFault::BadLine))
    }
}

impl AnnotatedProgram<'_> {
    /// How many points there are and how many assertions are listed, if all lines from here on are as they have to
    /// be.
    pub fn take_rest(
        &self,
        alloc: Global,
        bytes: &[u8],
        at: usize,
    ) -> Result<(u32, u32), VerifyError>
        requires ways { IsAnnotatedProgram self.now }
        requires short { length bytes.now < 2 ^ 31 }
        requires place { at ≤ length bytes.now }
        ensures { IsJudgedAs (λ r. r) (rest_by self.now (left_at bytes.now at)) result }
    {
        let next = self.take_sources(alloc, bytes, at)?;
        let listed = self.take_listed(alloc, bytes, next)?;
        take_end(bytes, listed.behind)?;
        Ok((self.sites.len() as u32, listed.proved as u32))
    }
}
