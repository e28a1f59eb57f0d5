//! Going back from an assertion of a program.

ghost use Rattle.std.specs.Prelude.{◌≡◌, ◌≢◌, ◌↔◌, ℕ, [], true, map, Err, IfOk};
ghost use Rattle.lra_operations.specs.{Tree.Node, TreeViews.node_view, TreeViews.site_view};
ghost use Rattle.lra_back.specs.Crates.{lra_analysis_spec.Analysis.IsUnreachable, lra_path_disjuncts.Tables.IsTable};
ghost use Rattle.lra_paths.specs.{Paths.AreFewIn, Paths.HasTooManyIn, Sources.to_goal};
ghost use Rattle.lra_back.specs.Crates.lra_path_segments.TreeSegments.{AreSegmentsOf};
ghost use Rattle.lra_back.specs.Crates.{lra_path_segments.Segments.comes_to, lra_path_segments.TreeSegmentViews.seen};
ghost use Rattle.lra_back.specs.Operations as operations;
ghost use Rattle.lra_back.specs.BackwardAnalysis as traced;
ghost use Rattle.lra_program.specs.Assertions.{IsAssertion};
ghost use Rattle.lra_back.specs.BackwardAnalysis.{AreAsserted, AreWide, IsBackwardAnalysis, NothingLeftAtStart};
ghost use Rattle.lra_back.specs.BackwardAnalysis.{PathsFit};
ghost use Rattle.lra_back.specs.BackwardCalls.{AreSources, BackNeeds, IsPrepared, IsTask, asserts_at};
ghost use Rattle.lra_back.specs.declared.analysis.BackFailure.TheVariants.{NoAssertion, TooMany};

use crate::meets::BackwardValues;
use crate::seeds::{find_asserted, restrict_to_violation};
use crate::tasks::Task;
use lra_domain::{Backward, Exactness};
use lra_operations::{InlinedProgram, Site};
use lra_pass_results::note;
use lra_paths::{Goal, Paths, PathsFailure, Source, find_paths};
use lra_program::GlobalVariable;
use std::alloc::{AllocError, Global};

/// Why nothing is gone back over: no assertion has that number, more than 1,024 paths lead from the source of this
/// number to one goal, or the memory fails.
#[derive(Clone, Copy, PartialEq, Eq, Debug)]
pub enum BackFailure {
    NoAssertion,
    TooMany(usize),
    Memory,
}

impl From<AllocError> for BackFailure {
    ghost use Rattle.lra_back.specs.declared.analysis.BackFailure.TheVariants.{Memory};

    ghost from_gives = { λ _ e. e ≡ Memory };

    fn from(_: AllocError) -> Self {
        BackFailure::Memory
    }
}

impl From<PathsFailure> for BackFailure {
    ghost use Rattle.lra_back.specs.BackwardCalls.{failed_by};

    ghost from_gives = { λ failure e. e ≡ failed_by failure };

    fn from(failure: PathsFailure) -> Self {
        match failure {
            PathsFailure::TooMany(source) => BackFailure::TooMany(source),
            PathsFailure::Memory => BackFailure::Memory,
        }
    }
}

/// What is found: at each point the stores from which a run may still come to where the assertion is false; the first
/// flagged point; and whether nothing is left where runs start.
#[derive(Drop)]
pub struct BackwardAnalysis<D> {
    pub values: Vec<D>,
    pub flagged: Option<usize>,
    pub is_proved: bool,
}

/// Whether the point asserts.
fn is_assertion(sites: &[Site], point: usize) -> bool
    ensures { result ≡ asserts_at (map site_view sites.now) point }
{
    match sites.get(point) {
        None => false,
        Some(site) => site.asserts,
    }
}

/// The sources of all points, in their order.
fn sources_of(alloc: Global, paths: &Paths<'_>) -> Result<Vec<Source>, AllocError>
    ensures { (g : Node) → AreSegmentsOf (seen paths.now.segments.items) g →
        AreFewIn paths.now.globals.now (map site_view paths.now.sites.now) g →
        IfOk result (λ sources. AreSources paths.now.globals.now
        (map site_view paths.now.sites.now) g sources.items) }
{
    let mut sources = Vec::new(alloc);
    'points: for point in 0..paths.sites.len() {
        let source = paths.from(alloc, point + 1)?;
        sources.push(source)?;
    }
    Ok(sources)
}

/// Whether nothing is left at a point to which paths lead from the start.
fn is_none_left<D: Backward>(start: &Source, point: usize, value: &D) -> bool
    requires { IsTable start.now.entries.items }
    ensures { result ≡ true ↔
        (to_goal start.now.entries.items start.now.segments.items (comes_to point) ≢ [] →
        IsUnreachable D.abstraction value.now) }
{
    start.count_to(Goal::ComesTo(point)) == 0 || value.is_empty()
}

/// Whether nothing is left at the points to which paths lead from the start.
fn are_none_left<D: Backward>(
    alloc: Global,
    paths: &Paths<'_>,
    values: &[D],
) -> Result<bool, AllocError>
    ensures { (g : Node) → AreSegmentsOf (seen paths.now.segments.items) g →
        IfOk result (λ b. b ≡ true ↔
        NothingLeftAtStart D.abstraction paths.now.globals.now
        (map site_view paths.now.sites.now) g values.now) }
{
    let start = paths.from(alloc, 0)?;
    'points: for (point, value) in values.iter().enumerate() {
        if !is_none_left(&start, point, value) {
            return Ok(false);
        }
    }
    Ok(true)
}

/// What is gone back over, with the exactness of its seed.
#[derive(Drop)]
struct Prepared<'f, D> {
    task: Task<'f, D>,
    exactness: Exactness,
}

/// What is gone back over from the point.
fn prepare<'f, D: Backward>(
    alloc: Global,
    paths: &Paths<'_>,
    forward: &'f [D],
    point: usize,
) -> Result<Prepared<'f, D>, AllocError>
    requires { (g : Node) × BackNeeds D.abstraction paths.now.globals.now
        (map site_view paths.now.sites.now) (seen paths.now.segments.items) forward.now point g }
    ensures of { IfOk result (λ r.
        (r.task.forward.now ≡ forward.now) × (r.task.assertion ≡ point)) }
    ensures task { IfOk result (λ r. IsTask D.abstraction r.task) }
    ensures prepared { (g : Node) → BackNeeds D.abstraction paths.now.globals.now
        (map site_view paths.now.sites.now) (seen paths.now.segments.items) forward.now point g →
        IfOk result (λ r. IsPrepared D.abstraction D.backward_abstraction paths.now.globals.now
        (map site_view paths.now.sites.now) g forward.now point r.task r.exactness) }
{
    let Some(asserted) = find_asserted(paths.segments.as_slice(), point) else {
        unreachable!();
    };
    let seed = restrict_to_violation(alloc, asserted, &forward[point])?;
    let task = Task {
        alloc,
        sources: sources_of(alloc, paths)?,
        forward,
        assertion: point,
        seed: seed.value,
    };
    Ok(Prepared {
        task,
        exactness: seed.exactness,
    })
}

/// What was met, and whether nothing of it is left where runs start.
fn finish<D: Backward>(
    alloc: Global,
    paths: &Paths<'_>,
    met: BackwardValues<D>,
) -> Result<BackwardAnalysis<D>, AllocError>
    ensures same { IfOk result (λ r.
        (r.values.items ≡ met.values.items) × (r.flagged ≡ met.flag)) }
    ensures proved { (g : Node) → AreSegmentsOf (seen paths.now.segments.items) g →
        IfOk result (λ r.
        r.is_proved ≡ true ↔ NothingLeftAtStart D.abstraction paths.now.globals.now
        (map site_view paths.now.sites.now) g r.values.items) }
{
    let is_proved = are_none_left(alloc, paths, met.values.as_slice())?;
    let BackwardValues { values, flag } = met;
    Ok(BackwardAnalysis {
        values,
        flagged: flag,
        is_proved,
    })
}

/// What is found by going back from the point over these paths.
fn trace<D: Backward>(
    alloc: Global,
    paths: &Paths<'_>,
    forward: &[D],
    flagged: Option<usize>,
    point: usize,
) -> Result<BackwardAnalysis<D>, AllocError>
    requires { (g : Node) × BackNeeds D.abstraction paths.now.globals.now
        (map site_view paths.now.sites.now) (seen paths.now.segments.items) forward.now point g }
    ensures traced { (g : Node) → BackNeeds D.abstraction paths.now.globals.now
        (map site_view paths.now.sites.now) (seen paths.now.segments.items) forward.now point g →
        IfOk result (λ r. traced.BackwardAnalysis
        (operations.lossy_back_operations D.abstraction D.backward_abstraction)
        paths.now.globals.now (map site_view paths.now.sites.now) g
        forward.now flagged point r.values.items r.flagged) }
    ensures proved { (g : Node) → AreSegmentsOf (seen paths.now.segments.items) g →
        IfOk result (λ r.
        r.is_proved ≡ true ↔ NothingLeftAtStart D.abstraction paths.now.globals.now
        (map site_view paths.now.sites.now) g r.values.items) }
    ensures wide { IfOk result (λ r.
        AreWide D.abstraction (map site_view paths.now.sites.now) r.values.items) }
{
    let Prepared { task, exactness } = prepare(alloc, paths, forward, point)?;
    let met = task.go_back(note(point, exactness, flagged))?;
    finish(alloc, paths, met)
}

/// Goes back from the assertion at the point, counted from 0, over the values of a forward analysis and its first
/// flagged point.
pub fn back<D: Backward>(
    alloc: Global,
    globals: &[GlobalVariable],
    graph: &InlinedProgram,
    forward: &[D],
    flagged: Option<usize>,
    point: usize,
) -> Result<BackwardAnalysis<D>, BackFailure>
    requires wide { AreWide D.abstraction (map site_view graph.now.sites.items) forward.now }
    requires fit { PathsFit globals.now (map site_view graph.now.sites.items)
        (node_view graph.now.tree) }
    requires asserted { AreAsserted (map site_view graph.now.sites.items)
        (node_view graph.now.tree) }
    ensures traced { IfOk result
        (λ r. IsBackwardAnalysis D.abstraction D.backward_abstraction globals.now
        (map site_view graph.now.sites.items) (node_view graph.now.tree)
        forward.now flagged point r.values.items r.flagged) }
    ensures proved { IfOk result
        (λ r. r.is_proved ≡ true ↔ NothingLeftAtStart D.abstraction globals.now
        (map site_view graph.now.sites.items) (node_view graph.now.tree) r.values.items) }
    ensures wide { IfOk result (λ r.
        AreWide D.abstraction (map site_view graph.now.sites.items) r.values.items) }
    ensures few { IfOk result (λ r. AreFewIn globals.now (map site_view graph.now.sites.items)
        (node_view graph.now.tree)) }
    ensures asks { IfOk result (λ r.
        IsAssertion (map site_view graph.now.sites.items) point) }
    ensures none { result ≡ Err NoAssertion →
        ¬ IsAssertion (map site_view graph.now.sites.items) point }
    ensures many { (q : ℕ) → result ≡ Err (TooMany q) →
        IsAssertion (map site_view graph.now.sites.items) point × HasTooManyIn globals.now
        (map site_view graph.now.sites.items) (node_view graph.now.tree) q }
{
    if !is_assertion(graph.sites.as_slice(), point) {
        return Err(BackFailure::NoAssertion);
    }
    let paths = find_paths(alloc, globals, graph)?;
    let found = trace(alloc, &paths, forward, flagged, point)?;
    Ok(found)
}
