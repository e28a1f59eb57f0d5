//! From the bytes of a source to what going back from an assertion finds.

ghost use Rattle.std.specs.Prelude.{◌≡◌, ◌<◌, ◌+◌, ◌^◌, ℕ, suc, map, length, IfOk, IfErr, Some, option_map};
ghost use Rattle.lra_back_source.specs.Crates.lra_front_end.Stages.{HasInlinedTree};
ghost use Rattle.lra_back_source.specs.Crates.lra_operations.TreeViews.{node_view, site_view};
ghost use Rattle.lra_back_source.specs.Crates.lra_poly_domain.Abstraction.{polyhedron_abstraction};
ghost use Rattle.lra_back_source.specs.Crates.lra_program.ProgramViews.{program_view};
ghost use Rattle.lra_back_source.specs.Crates.lra_syntax.Views.{tree_view};
ghost use Rattle.lra_back_source.specs.Crates.{lra_back.BackwardAnalysis.AreWide, lra_fixpoint.Solved.IsSolved};
ghost use Rattle.lra_back_source.specs.Crates.{lra_resolution_spec.Resolve.resolve, lra_syntax.Labels.labels_of};
ghost use Rattle.lra_report.specs.View.{back_report_of, point_report_of};
ghost use Rattle.lra_back_source.specs.BackReports.{IsBackReportOf, IsBackRefusalOf, IsBackwardFinding, ShowsAtPoints};
ghost use Rattle.lra_back_source.specs.Forward.{IsForward, forward_plan};
ghost use Rattle.lra_back_source.specs.Refusals.{IfRefusal, IsFailure};

use crate::refusals::BackError;
use lra_analyse_source::{
    AcceptedSource, Plan, Polyhedron, Solution, judge_accesses, list_points, names_of_globals,
    number_of, read_source, solve_front, states_of,
};
use lra_back_sound::{BackFailure, BackwardAnalysis, back};
use lra_report::{BackReport, PointReport, default_options};
use std::alloc::{AllocError, Global};

/// The values at the points, and the first flagged point.
#[derive(Drop)]
struct Forward {
    values: Vec<Polyhedron>,
    flagged: Option<usize>,
}

/// What the iteration finds of the program that is read of a source.
fn solve(alloc: Global, front: &AcceptedSource) -> Result<Solution<Polyhedron>, AllocError>
    requires graph { HasInlinedTree (tree_view front.now.tree) (node_view front.now.graph.tree)
        (map site_view front.now.graph.sites.items) }
    requires program { program_view front.now.resolution.program ≡
        resolve (tree_view front.now.tree) }
    ensures { IfOk result (λ s. IsSolved polyhedron_abstraction
        (forward_plan front.now.constants.items) (resolve (tree_view front.now.tree))
        (node_view front.now.graph.tree) s.values.items s.verdicts.items s.flagged) }
{
    let plan = Plan::of(alloc, default_options(), &front.constants)?;
    let solution = solve_front::<Polyhedron>(alloc, &plan, front)?;
    Ok(solution)
}

/// What is gone back over.
fn look_forward(alloc: Global, front: &AcceptedSource) -> Result<Forward, AllocError>
    requires graph { HasInlinedTree (tree_view front.now.tree) (node_view front.now.graph.tree)
        (map site_view front.now.graph.sites.items) }
    requires program { program_view front.now.resolution.program ≡
        resolve (tree_view front.now.tree) }
    ensures forward { IfOk result (λ f. IsForward front.now.constants.items
        (resolve (tree_view front.now.tree)) (node_view front.now.graph.tree) f.values.items
        f.flagged) }
    ensures wide { IfOk result (λ f. AreWide polyhedron_abstraction
        (map site_view front.now.graph.sites.items) f.values.items) }
    ensures flag { IfOk result (λ f. (q : ℕ) → f.flagged ≡ Some q →
        q < length front.now.graph.sites.items) }
{
    let solution = solve(alloc, front)?;
    let inside = judge_accesses(alloc, &front.graph.tree, &solution.values, solution.flagged)?;
    let Solution {
        values,
        verdicts: _,
        flagged: _,
    } = solution;
    Ok(Forward {
        values,
        flagged: inside.flagged,
    })
}

/// What going back over that from a point finds.
fn retrace(
    alloc: Global,
    front: &AcceptedSource,
    point: usize,
) -> Result<BackwardAnalysis<Polyhedron>, BackFailure>
    requires graph { HasInlinedTree (tree_view front.now.tree) (node_view front.now.graph.tree)
        (map site_view front.now.graph.sites.items) }
    requires program { program_view front.now.resolution.program ≡
        resolve (tree_view front.now.tree) }
    ensures found { IfOk result (λ b. IsBackwardFinding front.now.constants.items
        (resolve (tree_view front.now.tree)) (node_view front.now.graph.tree) point b.values.items
        b.flagged b.is_proved) }
    ensures wide { IfOk result (λ b. AreWide polyhedron_abstraction
        (map site_view front.now.graph.sites.items) b.values.items) }
    ensures flag { IfOk result (λ b. (q : ℕ) → b.flagged ≡ Some q →
        q < length front.now.graph.sites.items) }
    ensures failure { IfErr result (IsFailure (resolve (tree_view front.now.tree))
        (node_view front.now.graph.tree) point) }
{
    let forward = look_forward(alloc, front)?;
    let globals = front.resolution.program.globals.as_slice();
    back(
        alloc,
        globals,
        &front.graph,
        &forward.values,
        forward.flagged,
        point,
    )
}

/// The points of a source, each with the state that shows the value there.
fn list_states(
    alloc: Global,
    front: &AcceptedSource,
    values: &[Polyhedron],
) -> Result<Vec<PointReport>, AllocError>
    requires graph { HasInlinedTree (tree_view front.now.tree) (node_view front.now.graph.tree)
        (map site_view front.now.graph.sites.items) }
    requires labels { front.now.resolution.labels.labels ≡ labels_of (tree_view front.now.tree) }
    requires wide { AreWide polyhedron_abstraction (map site_view front.now.graph.sites.items)
        values.now }
    ensures { IfOk result (λ points. ShowsAtPoints (tree_view front.now.tree) values.now
        (map point_report_of points.items)) }
{
    let states = states_of(alloc, values)?;
    let globals = names_of_globals(alloc, &front.tree)?;
    let sites = front.graph.sites.as_slice();
    let points = list_points(alloc, &front.resolution.labels, &globals, sites, states)?;
    Ok(points)
}

/// The number of the first flagged point.
fn flag_of(flagged: Option<usize>) -> Option<u32>
    requires { (q : ℕ) → flagged ≡ Some q → suc q < 2 ^ 32 }
    ensures { result ≡ option_map suc flagged }
{
    match flagged {
        None => None,
        Some(index) => Some(number_of(index)),
    }
}

/// What going back over a source from the assertion at a point finds, or its one refusal; points are counted from 0.
/// Memory may run out. A source past the limit of 65,536 bytes is refused by its first bytes, so that no more than
/// one byte past the limit need be given.
pub fn back_source(alloc: Global, point: usize, bytes: &[u8]) -> Result<BackReport, BackError>
    requires bound { length bytes.now + 1 < 2 ^ 32 }
    requires point { point < 2 ^ 31 }
    ensures back { IfOk result (λ r. IsBackReportOf bytes.now point (back_report_of r)) }
    ensures refused { IfErr result (IfRefusal (IsBackRefusalOf bytes.now point)) }
{
    let front = read_source(alloc, bytes)?;
    let backs = retrace(alloc, &front, point)?;
    let points = list_states(alloc, &front, &backs.values)?;
    Ok(BackReport {
        number: number_of(point),
        flagged: flag_of(backs.flagged),
        points,
        is_proved: backs.is_proved,
    })
}
