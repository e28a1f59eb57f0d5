//! A worked report.

ghost use Rattle.std.specs.List.{AllByRecursion};
ghost use Rattle.std.specs.Prelude.{◌≡◌, ℕ, [], true, length, map, IfOk};
ghost use Rattle.lra_tests_operations.specs.Crates.{lra_program.Sites.sites_of, lra_resolution_spec.Resolve.resolve};
ghost use Rattle.lra_tests_operations.specs.Crates.{lra_syntax.Labels.labels_of, lra_syntax.Views.tree_view};
ghost use Rattle.lra_operations.specs.Agree.{IsInlinedTree};
ghost use Rattle.lra_operations.specs.Tree as graph;
ghost use Rattle.lra_operations.specs.TreeViews.{node_view, site_view};
ghost use Rattle.lra_report.specs.Listing.{HasWidth, accesses_at};
ghost use Rattle.lra_report_build.specs.AnalysisResults.{AreInvariants, AreVerdicts};

use crate::sources::{program_of, tree_of};
use lra_base::SourceError;
use lra_bounds_checks::{ConKind, accesses, list_operations};
use lra_inline::build;
use lra_operations::{Node, Site};
use lra_options::{DEFAULT_OPTIONS, Domain, Options};
use lra_report::{ConSys, Labels, Part, Report, TranslationUnit, text};
use lra_report_build::{Findings, Outline, Row, list};
use std::alloc::{AllocError, Global};

/// A call and an assertion after it.
const SOURCE: &str =
    "long g;\nlong f(long x) { return x; }\nint main(void) { long x = f(2); assert(x == 2); }\n";

/// The report of `SOURCE` if the two variables `x` are equal at the second point, and no run reaches another point.
const REPORT: &str =
    "analysis box parts 1 delay 1 narrow 1 limited no\nflagged at point 2\npoint 1 main 3:23\n  \
    unreachable\npoint 2 main/f@3:27 2:18\n  row x~1 - x = 0\npoint 3 main/f@3:27 2:28\n  unreachable\n\
    point 4 main 3:33\n  unreachable\npoint 5 main 3:49\n  unreachable\nassert 4 main 3:33 proved\n\
    verdicts proved 1 unknown 0\n";

const OPTIONS: Options = Options {
    domain: Domain::Box,
    ..DEFAULT_OPTIONS
};

/// Of three variables the two newest are equal.
fn x_is_x(alloc: Global) -> Result<Part, AllocError>
    ensures { IfOk result (λ p. HasWidth 3 p) }
{
    let mut rows = ConSys::new(alloc, 3);
    rows.push(Row::from_slice(alloc, &[0, 0, 1, -1])?, ConKind::Eq)?;
    Ok(Part::new(rows, None))
}

/// What holds at a point where so many variables live: at the second that two are equal; no run reaches another.
fn state_at(alloc: Global, index: usize, live: usize) -> Result<Vec<Part>, AllocError>
    ensures { IfOk result (λ s. AllByRecursion (HasWidth live) s.items) }
{
    let mut state = Vec::new(alloc);
    if index == 1 && live == 3 {
        state.push(x_is_x(alloc)?)?;
    }
    Ok(state)
}

/// What holds at each point.
fn states_at(alloc: Global, sites: &[Site]) -> Result<Vec<Vec<Part>>, AllocError>
    ensures { IfOk result (λ s. AreInvariants (map site_view sites.now) (map (λ x. x.items) s.items)) }
{
    let mut states = Vec::new(alloc);
    'sites: for site in sites {
        let state = state_at(alloc, states.len(), site.live)?;
        states.push(state)?;
    }
    Ok(states)
}

/// For each assertion the verdict that it is proved.
fn verdicts_on(alloc: Global, sites: &[Site]) -> Result<Vec<(usize, bool)>, AllocError>
    ensures { IfOk result (λ v. AreVerdicts (map site_view sites.now) v.items) }
{
    let mut verdicts = Vec::new(alloc);
    'sites: for (index, site) in sites.iter().enumerate() {
        if site.asserts {
            verdicts.push((index, true))?;
        }
    }
    Ok(verdicts)
}

/// Whether nothing in a tree accesses an array.
fn accesses_nothing(alloc: Global, tree: &Node) -> Result<bool, AllocError>
    ensures { IfOk result (λ none. none ≡ true → (q : ℕ) → accesses_at (node_view tree.now) q ≡ []) }
{
    let done = list_operations(alloc, tree)?;
    'doings: for item in &done {
        if !accesses(alloc, item.doing)?.is_empty() {
            return Ok(false);
        }
    }
    Ok(true)
}

/// The report of a source of five points in which no run reaches another than the second.
#[tactic(auto, using(crate::proofs::Given::states_there, crate::proofs::Given::verdicts_there))]
fn report_of(
    alloc: Global,
    tree: &TranslationUnit,
    labels: &Labels,
    sites: &[Site],
) -> Result<Report, AllocError>
    requires labels { labels.now.labels ≡ labels_of (tree_view tree.now) }
    requires sites { map site_view sites.now ≡ sites_of (resolve (tree_view tree.now)) }
    requires five { length sites.now ≡ 5 }
    requires graph { (g : graph.Node) × IsInlinedTree (resolve (tree_view tree.now)) g }
    requires silent { (g : graph.Node) → IsInlinedTree (resolve (tree_view tree.now)) g →
        (q : ℕ) → accesses_at g q ≡ [] }
{
    let states = states_at(alloc, sites)?;
    let verdicts = verdicts_on(alloc, sites)?;
    let outline = Outline {
        tree,
        labels,
        sites,
    };
    let found = Findings {
        assertions: &verdicts,
        fitting: &[],
        inside: &[],
        flagged: Some(1),
    };
    let report = list(alloc, &outline, OPTIONS, states, &found)?;
    Ok(report)
}

fn writes_report(alloc: Global) -> Result<bool, SourceError> {
    let tree = tree_of(alloc, SOURCE)?;
    let resolution = program_of(alloc, &tree)?;
    let Ok(graph) = build(alloc, &resolution.program) else {
        return Ok(false);
    };
    let sites = graph.sites.as_slice();
    if sites.len() != 5 || !accesses_nothing(alloc, &graph.tree)? {
        return Ok(false);
    }
    let report = report_of(alloc, &tree, &resolution.labels, sites)?;
    Ok(text(alloc, &report)?.as_str() == REPORT)
}

#[test]
fn a_call_and_an_assertion(rt: HostRuntime) {
    assert!(rt; writes_report(rt.alloc()) == Ok(true));
}
