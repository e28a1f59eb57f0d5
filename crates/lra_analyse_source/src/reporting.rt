//! What an iteration finds of what is read of a source, and its report.

ghost use Rattle.std.specs.Prelude.{◌≡◌, ◌≤◌, ◌<◌, None, length, map, All, IfOk};
ghost use Rattle.lra_analyse_source.specs.Crates.lra_analysis_spec.Accesses.{JudgesAccesses};
ghost use Rattle.lra_analyse_source.specs.Crates.lra_analysis_spec.Operations.{lossy_operations};
ghost use Rattle.lra_analyse_source.specs.Crates.lra_base.AccessVerdicts.{reported_view};
ghost use Rattle.lra_analyse_source.specs.Crates.lra_operations.CheckedOperations.{accessing_ops, computing_ops};
ghost use Rattle.lra_analyse_source.specs.Crates.lra_operations.TreeViews.{node_view, site_view};
ghost use Rattle.lra_analyse_source.specs.Crates.lra_program.ProgramViews.{program_view};
ghost use Rattle.lra_analyse_source.specs.Crates.{lra_analysis_spec.Fits.JudgesIf};
ghost use Rattle.lra_analyse_source.specs.Crates.{lra_analysis_spec.LiveLimit.most_live};
ghost use Rattle.lra_analyse_source.specs.Crates.{lra_analysis_spec.Plan.plan_of, lra_overflow_checks.Judged.AreBelow};
ghost use Rattle.lra_analyse_source.specs.Crates.{lra_report.View.report_of, lra_resolution_spec.Resolve.resolve};
ghost use Rattle.lra_analyse_source.specs.Crates.{lra_syntax.Labels.labels_of, lra_syntax.Views.tree_view};
ghost use Rattle.lra_fixpoint.specs.Solved.{IsSolved};
ghost use Rattle.lra_front_end.specs.Stages.{HasInlinedTree};
ghost use Rattle.lra_analyse_source.specs.Stages.{IsReportOfTree, ReportsSolution};

use lra_bounds_checks::{BoundsVerdicts, OverflowVerdicts, judge, judge_accesses};
use lra_fixpoint::{Plan, Solution, analyse};
use lra_front_end::AcceptedSource;
use lra_operations::Node;
use lra_options::Options;
use lra_poly_domain::Domain as AbstractDomain;
use lra_report_build::{Findings, Outline, Report, Show, list, states_of};
use std::alloc::{AllocError, Global};

/// Which operations of a tree fit, if it is asked for; else nothing is reported, and nothing done.
fn judge_if<D: AbstractDomain>(
    alloc: Global,
    asked: bool,
    tree: &Node,
    values: &[D],
    flagged: Option<usize>,
) -> Result<OverflowVerdicts, AllocError>
    requires few { All (λ v. D.abstraction.dims v < most_live) values.now }
    requires below { AreBelow (length values.now) (computing_ops None (node_view tree.now)) }
    ensures { IfOk result
        (λ f. JudgesIf D.abstraction (lossy_operations D.abstraction) asked (node_view tree.now)
        values.now flagged f.verdicts.items f.flagged) }
{
    if asked {
        judge(alloc, tree, values, flagged)
    } else {
        Ok(OverflowVerdicts {
            verdicts: Vec::new(alloc),
            flagged,
        })
    }
}

/// What is judged of a tree's operations, beside its assertions.
#[derive(Drop)]
struct Judged {
    fitting: OverflowVerdicts,
    inside: BoundsVerdicts,
}

/// Which operations of a tree fit, if it is asked for, and which accesses lie inside their arrays, by the values
/// that an iteration found at the points.
fn judge_solution<D: AbstractDomain>(
    alloc: Global,
    asked: bool,
    tree: &Node,
    solution: &Solution<D>,
) -> Result<Judged, AllocError>
    requires few { All (λ v. D.abstraction.dims v < most_live) solution.now.values.items }
    requires computing { AreBelow (length solution.now.values.items)
        (computing_ops None (node_view tree.now)) }
    requires accessing { AreBelow (length solution.now.values.items)
        (accessing_ops None (node_view tree.now)) }
    ensures fits { IfOk result (λ j. JudgesIf D.abstraction (lossy_operations D.abstraction) asked
        (node_view tree.now) solution.now.values.items solution.now.flagged
        j.fitting.verdicts.items j.fitting.flagged) }
    ensures accesses { IfOk result
        (λ j. JudgesAccesses D.abstraction (lossy_operations D.abstraction)
        (node_view tree.now) solution.now.values.items j.fitting.flagged
        (map reported_view j.inside.verdicts.items) j.inside.flagged) }
{
    let fitting = judge_if(alloc, asked, tree, &solution.values, solution.flagged)?;
    let inside = judge_accesses(alloc, tree, &solution.values, fitting.flagged)?;
    Ok(Judged { fitting, inside })
}

/// What an iteration over a domain finds of the program that is read of a source.
pub fn solve_front<D: AbstractDomain>(
    alloc: Global,
    plan: &Plan,
    front: &AcceptedSource,
) -> Result<Solution<D>, AllocError>
    requires parts { 1 ≤ plan.now.parts }
    requires graph { HasInlinedTree (tree_view front.now.tree) (node_view front.now.graph.tree)
        (map site_view front.now.graph.sites.items) }
    requires program { program_view front.now.resolution.program ≡
        resolve (tree_view front.now.tree) }
    ensures { IfOk result (λ s. IsSolved D.abstraction plan.now (resolve (tree_view front.now.tree))
        (node_view front.now.graph.tree) s.values.items s.verdicts.items s.flagged) }
{
    let globals = front.resolution.program.globals.as_slice();
    let solution = analyse::<D>(alloc, plan, globals, &front.graph)?;
    Ok(solution)
}

/// The report of what an iteration found of the program that is read of a source.
pub fn report_solution<D: Show>(
    alloc: Global,
    options: Options,
    front: &AcceptedSource,
    solution: &Solution<D>,
) -> Result<Report, AllocError>
    requires parts { 1 ≤ options.parts }
    requires named { options.domain ≡ D.named }
    requires graph { HasInlinedTree (tree_view front.now.tree) (node_view front.now.graph.tree)
        (map site_view front.now.graph.sites.items) }
    requires labels { front.now.resolution.labels.labels ≡ labels_of (tree_view front.now.tree) }
    requires program { program_view front.now.resolution.program ≡
        resolve (tree_view front.now.tree) }
    requires solved { IsSolved D.abstraction (plan_of options front.now.constants.items)
        (resolve (tree_view front.now.tree)) (node_view front.now.graph.tree)
        solution.now.values.items solution.now.verdicts.items solution.now.flagged }
    ensures told { IfOk result
        (λ r. IsReportOfTree D.abstraction D.shown options front.now.constants.items
        (tree_view front.now.tree) (report_of r)) }
    ensures own { IfOk result (λ r. ReportsSolution D.shown options.fits solution.now.values.items
        solution.now.verdicts.items (report_of r)) }
{
    let judged = judge_solution(alloc, options.fits, &front.graph.tree, solution)?;
    let states = states_of(alloc, &solution.values)?;
    let sites = front.graph.sites.as_slice();
    let outline = Outline {
        tree: &front.tree,
        labels: &front.resolution.labels,
        sites,
    };
    let found = Findings {
        assertions: &solution.verdicts,
        fitting: &judged.fitting.verdicts,
        inside: &judged.inside.verdicts,
        flagged: judged.inside.flagged,
    };
    let report = list(alloc, &outline, options, states, &found)?;
    Ok(report)
}
