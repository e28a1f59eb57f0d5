//! From the bytes of a source to its certificate.

ghost use Rattle.std.specs.Fmt.{decimal};
ghost use Rattle.std.specs.Prelude.{◌≡◌, ◌<◌, ◌+◌, ◌++◌, ◌^◌, map, length, codes, IfOk, IfErr, OnOk, string_bytes};
ghost use Rattle.lra_certify_source.specs.Crates.lra_certificate_spec.CertificateText.{numbered_text, head_text};
ghost use Rattle.lra_certify_source.specs.Crates.lra_front_end.Stages.{HasInlinedTree};
ghost use Rattle.lra_certify_source.specs.Crates.lra_operations.TreeViews.{node_view, site_view};
ghost use Rattle.lra_certify_source.specs.Crates.lra_poly_domain.Abstraction.{polyhedron_abstraction};
ghost use Rattle.lra_certify_source.specs.Crates.{lra_analysis_spec.Plan.plan_of, lra_fixpoint.Solved.IsSolved};
ghost use Rattle.lra_certify_source.specs.Crates.{lra_paths.Paths.AreFewPaths, lra_program.ProgramViews.program_view};
ghost use Rattle.lra_certify_source.specs.Crates.{lra_resolution_spec.Resolve.resolve, lra_row_text.Texts.text_line};
ghost use Rattle.lra_certify_source.specs.Crates.{lra_syntax.Labels.labels_of, lra_syntax.Views.tree_view};
ghost use Rattle.lra_certify.specs.Certified.{IsCertified, IsFailure};
ghost use Rattle.lra_report.specs.View.{report_of, verdict_of};
ghost use Rattle.lra_analyse_source.specs.SourceReports.{IsAnalysisReport};
ghost use Rattle.lra_certify_source.specs.Settings as settings;
ghost use Rattle.lra_certify_source.specs.Assertions.{is_unknown_assertion, unknown_assertions};
ghost use Rattle.lra_certify_source.specs.Certified.{IsCertificateOf, HasSmallPoint, IsCertifyRefusalOf};
ghost use Rattle.lra_certify_source.specs.{Extraction.state_by, Extraction.proved_in, Refusals.IfRefusal};

use crate::extraction::{proved_of, states_of};
use crate::refusals::CertifyError;
use crate::settings::certify_options;
use lra_analyse_source::{
    AcceptedSource, Plan, Polyhedron, Solution, read_source, report_solution, solve_front,
};
use lra_certify::{CertifyFailure, certify};
use lra_report::{Report, Verdict, VerdictKind};
use std::alloc::{AllocError, Global};
use std::fmt::Write;

/// The text of a certificate, and the report whose rows and proved assertions it has.
#[derive(Drop)]
pub struct CertifiedReport {
    pub report: Report,
    pub text: Vec<u8>,
}

/// Whether the verdict is on an assertion, and unknown.
fn is_unknown(verdict: &Verdict) -> bool
    ensures { result ≡ is_unknown_assertion (verdict_of verdict.now) }
{
    match verdict.kind {
        VerdictKind::Assertion => !verdict.holds,
        VerdictKind::Fit | VerdictKind::Access => false,
    }
}

impl CertifiedReport {
    /// How many of the report's assertions are unknown.
    pub fn unknown_assertions(&self) -> usize
        ensures { result ≡ unknown_assertions (report_of self.now.report).verdicts }
    {
        self.report
            .verdicts
            .iter()
            .filter(|v| is_unknown(v))
            .count()
    }
}

/// Adds `certificate bytes B`.
fn push_head(text: &mut String, length: usize) -> Result<(), AllocError>
    ensures { OnOk result (string_bytes text.new ≡ string_bytes text.old
        ++ text_line (numbered_text (codes "certificate bytes") length)) }
{
    writeln!(text, "certificate bytes {length}")
}

/// A certificate of a source, with these lines after it.
fn text_of(alloc: Global, source: &[u8], body: &str) -> Result<Vec<u8>, AllocError>
    ensures { IfOk result (λ text. text.items ≡ head_text source.now ++ body.now) }
{
    let mut head = String::new(alloc);
    push_head(&mut head, source.len())?;
    let mut text = head.into_bytes();
    text.extend_from_slice(source)?;
    text.push(b'\n')?;
    text.extend_from_slice(body.as_bytes())?;
    Ok(text)
}

/// The lines after the source, by what the iteration found of its program.
fn certify_solution(
    alloc: Global,
    front: &AcceptedSource,
    solution: &Solution<Polyhedron>,
) -> Result<String, CertifyFailure>
    requires graph { HasInlinedTree (tree_view front.now.tree) (node_view front.now.graph.tree)
        (map site_view front.now.graph.sites.items) }
    requires program { program_view front.now.resolution.program ≡
        resolve (tree_view front.now.tree) }
    requires solved { IsSolved polyhedron_abstraction
        (plan_of settings.certify_options front.now.constants.items)
        (resolve (tree_view front.now.tree)) (node_view front.now.graph.tree)
        solution.now.values.items solution.now.verdicts.items solution.now.flagged }
    ensures few { OnOk result (AreFewPaths (resolve (tree_view front.now.tree))
        (node_view front.now.graph.tree)) }
    ensures certified { IfOk result (λ text. IsCertified (resolve (tree_view front.now.tree))
        (node_view front.now.graph.tree) (map state_by solution.now.values.items)
        (proved_in solution.now.verdicts.items) (string_bytes text)) }
    ensures failure { IfErr result (IsFailure (resolve (tree_view front.now.tree))
        (node_view front.now.graph.tree) (map state_by solution.now.values.items)
        (proved_in solution.now.verdicts.items)) }
{
    let states = states_of(alloc, &solution.values)?;
    let proved = proved_of(alloc, &solution.verdicts)?;
    certify(
        alloc,
        &front.resolution.program,
        &front.graph,
        &states,
        &proved,
    )
}

/// What the iteration finds of the program that is read of a source.
fn solve(alloc: Global, front: &AcceptedSource) -> Result<Solution<Polyhedron>, AllocError>
    requires graph { HasInlinedTree (tree_view front.now.tree) (node_view front.now.graph.tree)
        (map site_view front.now.graph.sites.items) }
    requires program { program_view front.now.resolution.program ≡
        resolve (tree_view front.now.tree) }
    ensures { IfOk result (λ s. IsSolved polyhedron_abstraction
        (plan_of settings.certify_options front.now.constants.items)
        (resolve (tree_view front.now.tree)) (node_view front.now.graph.tree)
        s.values.items s.verdicts.items s.flagged) }
{
    let plan = Plan::of(alloc, certify_options(), &front.constants)?;
    let solution = solve_front::<Polyhedron>(alloc, &plan, front)?;
    Ok(solution)
}

/// The certificate of a source, with the report of its analysis without narrowing; or its one refusal. Memory may run
/// out. A source past the limit of 65,536 bytes is refused by its first bytes, so that no more than one byte past
/// the limit need be given.
pub fn certify_source(alloc: Global, bytes: &[u8]) -> Result<CertifiedReport, CertifyError>
    requires { length bytes.now + 1 < 2 ^ 32 }
    ensures answered { IfOk result (λ c. IsAnalysisReport settings.certify_options bytes.now
        (report_of c.report)) }
    ensures certified { IfOk result (λ c. IsCertificateOf bytes.now (report_of c.report)
        c.text.items) }
    ensures refused { IfErr result (IfRefusal (IsCertifyRefusalOf bytes.now)) }
    ensures counted { IfErr result (IfRefusal HasSmallPoint) }
{
    let front = read_source(alloc, bytes)?;
    let solution = solve(alloc, &front)?;
    let report = report_solution(alloc, certify_options(), &front, &solution)?;
    let body = certify_solution(alloc, &front, &solution)?;
    let text = text_of(alloc, bytes, body.as_str())?;
    Ok(CertifiedReport { report, text })
}
