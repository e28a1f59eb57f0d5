//! The assertions that are listed: nothing goes along the paths to where they are false.

ghost use Rattle.std.specs.Prelude.{◌≡◌, ◌≤◌, ◌<◌, ◌^◌, ◌+◌, length, codes, string_bytes, IfOk};
ghost use Rattle.lra_verify.specs.Crates.lra_certificate_spec.CertificateText.{numbered_text};
ghost use Rattle.lra_verify.specs.Crates.lra_certificate_spec.Lines.{left_at};
ghost use Rattle.lra_verify.specs.EdgeViews.{IsAnnotatedProgram, assertion_by, violation_by, violations_by, listed_by};
ghost use Rattle.lra_verify.specs.EdgeViews.{listed_view, sites_in};
ghost use Rattle.lra_certificate_lines.specs.LineViews.{IsJudgedAs};

use crate::annotated::AnnotatedProgram;
use crate::edges::take_all_dead;
use lra_certificate_lines::{VerifyError, after_text};
use lra_paths::Goal;
use std::alloc::{AllocError, Global};

/// How many assertions are listed, and where the next line begins.
#[derive(Clone, Copy)]
pub struct Listed {
    pub proved: usize,
    pub behind: usize,
}

/// The text of the line that lists the assertion at the point of this number.
fn assert_text(alloc: Global, number: usize) -> Result<String, AllocError>
    ensures { IfOk result (λ text. string_bytes text ≡ numbered_text (codes "assert") number) }
{
    format!(in alloc; "assert {number}")
}

impl AnnotatedProgram<'_> {
    /// Where the next line begins after the paths from a source to where the assertion at the point is false.
    fn take_denial(
        &self,
        alloc: Global,
        bytes: &[u8],
        at: usize,
        source: usize,
        point: usize,
    ) -> Result<usize, VerifyError>
        requires ways { IsAnnotatedProgram self.now }
        requires short { length bytes.now < 2 ^ 31 }
        requires place { at ≤ length bytes.now }
        requires source { source ≤ length self.now.sites.now }
        ensures told { IsJudgedAs (left_at bytes.now)
            (violation_by self.now point source (left_at bytes.now at)) result }
        ensures within { IfOk result (λ next. next ≤ length bytes.now) }
    {
        match self.from(source) {
            None => Ok(at),
            Some(rows) => {
                let paths = self.sources[source].paths_to(alloc, Goal::Violates(point))?;
                take_all_dead(alloc, bytes, at, rows, paths.as_slice())
            }
        }
    }

    /// Where the next line begins after the paths to where the assertion at the point is false.
    fn take_denials(
        &self,
        alloc: Global,
        bytes: &[u8],
        at: usize,
        point: usize,
    ) -> Result<usize, VerifyError>
        requires ways { IsAnnotatedProgram self.now }
        requires short { length bytes.now < 2 ^ 31 }
        requires place { at ≤ length bytes.now }
        ensures told { IsJudgedAs (left_at bytes.now)
            (violations_by self.now point (left_at bytes.now at)) result }
        ensures within { IfOk result (λ next. next ≤ length bytes.now) }
    {
        let mut next = at;
        for source in 0..self.sources.len() {
            match self.take_denial(alloc, bytes, next, source, point) {
                Ok(behind) => next = behind,
                Err(error) => return Err(error),
            }
        }
        Ok(next)
    }

    /// How many assertions are listed so far, and where the next line begins, after the one at a point, if there is one
    /// and the line that begins here lists it.
    fn take_assertion(
        &self,
        alloc: Global,
        bytes: &[u8],
        so_far: Listed,
        point: usize,
        asserts: bool,
    ) -> Result<Listed, VerifyError>
        requires ways { IsAnnotatedProgram self.now }
        requires short { length bytes.now < 2 ^ 31 }
        requires place { so_far.behind ≤ length bytes.now }
        requires point { point < 2 ^ 31 }
        requires few { so_far.proved ≤ point }
        ensures told { IsJudgedAs (listed_view bytes.now)
            (assertion_by (violations_by self.now) point asserts
            (listed_view bytes.now so_far)) result }
        ensures within { IfOk result (λ r. r.behind ≤ length bytes.now) }
        ensures few { IfOk result (λ r. r.proved ≤ point + 1) }
    {
        if !asserts {
            return Ok(so_far);
        }
        let text = assert_text(alloc, point + 1)?;
        match after_text(bytes, so_far.behind, text.as_bytes()) {
            None => Ok(so_far),
            Some(next) => {
                let behind = self.take_denials(alloc, bytes, next, point)?;
                Ok(Listed {
                    proved: so_far.proved + 1,
                    behind,
                })
            }
        }
    }

    /// How many assertions are listed, and where the next line begins.
    pub fn take_listed(&self, alloc: Global, bytes: &[u8], at: usize) -> Result<Listed, VerifyError>
        requires ways { IsAnnotatedProgram self.now }
        requires short { length bytes.now < 2 ^ 31 }
        requires place { at ≤ length bytes.now }
        ensures told { IsJudgedAs (listed_view bytes.now)
            (listed_by (violations_by self.now) 0 (sites_in self.now) (left_at bytes.now at))
            result }
        ensures within { IfOk result (λ r. r.behind ≤ length bytes.now) }
        ensures few { IfOk result (λ r. r.proved ≤ length self.now.sites.now) }
    {
        let mut listed = Listed {
            proved: 0,
            behind: at,
        };
        for (point, site) in self.sites.iter().enumerate() {
            match self.take_assertion(alloc, bytes, listed, point, site.asserts) {
                Ok(next) => listed = next,
                Err(error) => return Err(error),
            }
        }
        Ok(listed)
    }
}
