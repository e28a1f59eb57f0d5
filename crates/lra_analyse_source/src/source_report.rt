//! From the bytes of a source to its report, or to its one refusal.

ghost use Rattle.std.specs.Prelude.{◌≡◌, ◌≤◌, ◌<◌, ◌+◌, ◌^◌, length, map, IfOk};
ghost use Rattle.lra_analyse_source.specs.Crates.lra_resolution_spec.EntryPoint.{at_main};
ghost use Rattle.lra_analyse_source.specs.Crates.lra_operations.TreeViews.{node_view, site_view};
ghost use Rattle.lra_analyse_source.specs.Crates.lra_program.ProgramViews.{program_view};
ghost use Rattle.lra_analyse_source.specs.Crates.{lra_analysis_spec.Plan.plan_of, lra_base.Refused.IfRefused};
ghost use Rattle.lra_analyse_source.specs.Crates.{lra_report.View.report_of, lra_resolution_spec.Refuse.Refuse};
ghost use Rattle.lra_analyse_source.specs.Crates.{lra_resolution_spec.Resolve.resolve, lra_syntax.Grammar.Spells};
ghost use Rattle.lra_analyse_source.specs.Crates.{lra_syntax.Labels.labels_of, lra_syntax.Views.tree_view};
ghost use Rattle.lra_analyse_source.specs.SourceReports.{IsAnalysisReportOver, WithParts, IsAnalysisReport};
ghost use Rattle.lra_analyse_source.specs.Stages.{IsReportOfTree};
ghost use Rattle.lra_front_end.specs.Stages.{HasInlinedTree};

use crate::reporting::{report_solution, solve_front};
use lra_fixpoint::Plan;
use lra_front_end::{AcceptedSource, SourceError, read_source};
use lra_options::{Domain, Options};
use lra_poly_domain::{BaseDomain, Polyhedron};
use lra_report_build::{Boxes, Octagon, PowerSet, Report, Show};
use std::alloc::{AllocError, Global};

/// The report of the iteration over the tree of operations of what is read of a source.
fn report_front<D: Show>(
    alloc: Global,
    options: Options,
    plan: &Plan,
    front: &AcceptedSource,
) -> Result<Report, AllocError>
    requires parts { 1 ≤ options.parts }
    requires named { options.domain ≡ D.named }
    requires plan { plan.now ≡ plan_of options front.now.constants.items }
    requires graph { HasInlinedTree (tree_view front.now.tree) (node_view front.now.graph.tree)
        (map site_view front.now.graph.sites.items) }
    requires labels { front.now.resolution.labels.labels ≡ labels_of (tree_view front.now.tree) }
    requires program { program_view front.now.resolution.program ≡
        resolve (tree_view front.now.tree) }
    ensures { IfOk result
        (λ r. IsReportOfTree D.abstraction D.shown options front.now.constants.items
        (tree_view front.now.tree) (report_of r)) }
{
    let solution = solve_front::<D>(alloc, plan, front)?;
    let report = report_solution(alloc, options, front, &solution)?;
    Ok(report)
}

/// The report of a source over a domain that shows its values as the options name it, or its one refusal.
fn analyse_over<D: Show>(
    alloc: Global,
    options: Options,
    bytes: &[u8],
) -> Result<Report, SourceError>
    requires parts { 1 ≤ options.parts }
    requires named { options.domain ≡ D.named }
    requires bound { length bytes.now + 1 < 2 ^ 32 }
    ensures answered { IfOk result
        (λ r. IsAnalysisReportOver D.abstraction D.shown options bytes.now
        (report_of r)) }
    ensures refused { IfRefused result (λ r. Refuse at_main Spells bytes.now r.cause r.place) }
{
    let front = read_source(alloc, bytes)?;
    let plan = Plan::of(alloc, options, &front.constants)?;
    let report = report_front::<D>(alloc, options, &plan, &front)?;
    Ok(report)
}

/// The report of a source over the sets of a domain's values if the options allow more parts than one, else over the
/// domain itself; or its one refusal.
fn analyse_parts<D: Show + BaseDomain>(
    alloc: Global,
    options: Options,
    bytes: &[u8],
) -> Result<Report, SourceError>
    requires parts { 1 ≤ options.parts }
    requires named { options.domain ≡ D.named }
    requires bound { length bytes.now + 1 < 2 ^ 32 }
    ensures answered { IfOk result (λ r. WithParts options.parts
        (λ V H m shown. IsAnalysisReportOver m shown options bytes.now (report_of r)) _ _
        D.abstraction
        D.shown) }
    ensures refused { IfRefused result (λ r. Refuse at_main Spells bytes.now r.cause r.place) }
{
    if options.parts > 1 {
        analyse_over::<PowerSet<D>>(alloc, options, bytes)
    } else {
        analyse_over::<D>(alloc, options, bytes)
    }
}

/// The report of a source over the domain and the number of parts that the options name, or its one refusal; memory may
/// run out. A source past the limit of 65,536 bytes is refused by its first bytes, so that no more than one byte
/// past the limit need be given.
pub fn analyse_source(alloc: Global, options: Options, bytes: &[u8]) -> Result<Report, SourceError>
    requires parts { 1 ≤ options.parts }
    requires bound { length bytes.now + 1 < 2 ^ 32 }
    ensures answered { IfOk result (λ r. IsAnalysisReport options bytes.now (report_of r)) }
    ensures refused { IfRefused result (λ r. Refuse at_main Spells bytes.now r.cause r.place) }
{
    match options.domain {
        Domain::Poly => analyse_parts::<Polyhedron>(alloc, options, bytes),
        Domain::Box => analyse_parts::<Boxes>(alloc, options, bytes),
        Domain::Oct => analyse_parts::<Octagon>(alloc, options, bytes),
    }
}
