//! The lines of all paths, from one source after the other.

ghost use Rattle.std.specs.Prelude.{◌≤◌, ◌<◌, ◌^◌, [], ◌∷◌, map, length, OnOk, IfErr, Some, string_bytes};
ghost use Rattle.lra_certify.specs.Crates.lra_certificate_lines.PathCheckViews.{target_rows};
ghost use Rattle.lra_certify.specs.Crates.lra_path_disjuncts.TableDisjuncts.{all_done, lists_done};
ghost use Rattle.lra_certify.specs.Crates.lra_systems.LinearSystems.{constraints};
ghost use Rattle.lra_certify.specs.Crates.{lra_path_segments.Segments.comes_to, lra_paths.Paths.path_by};
ghost use Rattle.lra_verify.specs.EdgeViews.{IsAnnotatedProgram};
ghost use Rattle.lra_certify.specs.InductiveRows.{IsInductiveFrom};
ghost use Rattle.lra_certify.specs.PathFactViews.{AddsEvidence, IfStrained};
ghost use Rattle.lra_certify.specs.WrittenPaths.{FoundOn, StrainsOn, AllAreInductive, AddsPaths, SomeStops};
ghost use Rattle.lra_certify.specs.WrittenPaths.{SomePathStops, IfStopped, edge_lines, paths_to, paths_from, all_paths};

use crate::claims::push_evidence;
use crate::failures::{CertifyFailure, PathFailure, StrainedAt};
use crate::text::push_edge;
use lra_farkas::ConSys;
use lra_verify::{AnnotatedProgram, Change, Goal, PathCheck};
use std::alloc::Global;

/// Appends what is said of a path from a source with these rows to a target.
pub fn push_path(
    text: &mut String,
    alloc: Global,
    rows: &ConSys,
    path: &[&Change],
    target: Option<&ConSys>,
) -> Result<(), PathFailure>
    requires live { rows.now.dims < 2 ^ 31 }
    requires stays { IsInductiveFrom rows.now.dims (all_done path.now) (Some (constraints rows.now))
        (target_rows target) }
    ensures found { OnOk result (AddsEvidence (FoundOn rows.now.dims (all_done path.now)
        (Some (constraints rows.now)) (target_rows target.entry))
        (string_bytes text.old) (string_bytes text.new)) }
    ensures failure { IfErr result (IfStrained (StrainsOn rows.now.dims (all_done path.now)
        (Some (constraints rows.now)) (target_rows target.entry))) }
{
    let _rows = rows.rows(); // fact: the rows are in the range, each as wide as the list
    let track = PathCheck::of(alloc, rows, path)?;
    match &track.facts {
        None => Err(PathFailure::Strained),
        Some(grounds) => push_evidence(text, alloc, grounds, target),
    }
}

/// Appends the lines of a path from a source to a point.
fn push_edge_path(
    text: &mut String,
    alloc: Global,
    ways: &AnnotatedProgram<'_>,
    source: usize,
    point: usize,
    path: &[&Change],
) -> Result<(), PathFailure>
    requires ways { IsAnnotatedProgram ways.now }
    requires source { source ≤ length ways.now.sites.now }
    requires point { point < length ways.now.sites.now }
    requires stay { AllAreInductive ways.now
        (path_by source (comes_to point) (all_done path.now) ∷ []) }
    ensures adds { OnOk result (AddsPaths ways.now edge_lines
        (path_by source (comes_to point) (all_done path.now) ∷ [])
        (string_bytes text.old) (string_bytes text.new)) }
    ensures failure { IfErr result (IfStrained (SomePathStops ways.now
        (path_by source (comes_to point) (all_done path.now) ∷ []))) }
{
    push_edge(text, source, point)?;
    match ways.from(source) {
        None => Ok(()),
        Some(rows) => push_path(text, alloc, rows, path, ways.state(point)),
    }
}

/// Appends the lines of the paths from a source to a point, in order.
fn push_edge_paths(
    text: &mut String,
    alloc: Global,
    ways: &AnnotatedProgram<'_>,
    source: usize,
    point: usize,
    paths: &[Vec<&Change>],
) -> Result<(), PathFailure>
    requires ways { IsAnnotatedProgram ways.now }
    requires source { source ≤ length ways.now.sites.now }
    requires point { point < length ways.now.sites.now }
    requires stay { AllAreInductive ways.now
        (map (path_by source (comes_to point)) (lists_done paths.now)) }
    ensures adds { OnOk result (AddsPaths ways.now edge_lines
        (map (path_by source (comes_to point)) (lists_done paths.now))
        (string_bytes text.old) (string_bytes text.new)) }
    ensures failure { IfErr result (IfStrained (SomePathStops ways.now
        (map (path_by source (comes_to point)) (lists_done paths.now)))) }
{
    for path in paths.iter() {
        push_edge_path(text, alloc, ways, source, point, path.as_slice())?;
    }
    Ok(())
}

/// Appends the lines of all paths from a source to a point.
fn push_edges(
    text: &mut String,
    alloc: Global,
    ways: &AnnotatedProgram<'_>,
    source: usize,
    point: usize,
) -> Result<(), CertifyFailure>
    requires ways { IsAnnotatedProgram ways.now }
    requires source { source ≤ length ways.now.sites.now }
    requires point { point < length ways.now.sites.now }
    requires stay { AllAreInductive ways.now (paths_to ways.now source (comes_to point)) }
    ensures adds { OnOk result (AddsPaths ways.now edge_lines
        (paths_to ways.now source (comes_to point))
        (string_bytes text.old) (string_bytes text.new)) }
    ensures failure { IfErr result (IfStopped (SomeStops ways.now
        (paths_to ways.now source (comes_to point)))) }
{
    let paths = ways.sources[source].paths_to(alloc, Goal::ComesTo(point))?;
    match push_edge_paths(text, alloc, ways, source, point, paths.as_slice()) {
        Ok(()) => Ok(()),
        Err(failure) => Err(CertifyFailure::at(failure, StrainedAt::Edge(source, point))),
    }
}

/// Appends the lines of the paths from a source to all points, in order.
fn push_source(
    text: &mut String,
    alloc: Global,
    ways: &AnnotatedProgram<'_>,
    source: usize,
) -> Result<(), CertifyFailure>
    requires ways { IsAnnotatedProgram ways.now }
    requires source { source ≤ length ways.now.sites.now }
    requires stay { AllAreInductive ways.now (paths_from ways.now source) }
    ensures adds { OnOk result (AddsPaths ways.now edge_lines (paths_from ways.now source)
        (string_bytes text.old) (string_bytes text.new)) }
    ensures failure { IfErr result (IfStopped (SomeStops ways.now (paths_from ways.now source))) }
{
    for point in 0..ways.sites.len() {
        push_edges(text, alloc, ways, source, point)?;
    }
    Ok(())
}

/// Appends the lines of the paths from all sources, in order.
pub fn push_sources(
    text: &mut String,
    alloc: Global,
    ways: &AnnotatedProgram<'_>,
) -> Result<(), CertifyFailure>
    requires ways { IsAnnotatedProgram ways.now }
    requires stay { AllAreInductive ways.now (all_paths ways.now) }
    ensures adds { OnOk result (AddsPaths ways.now edge_lines (all_paths ways.now)
        (string_bytes text.old) (string_bytes text.new)) }
    ensures failure { IfErr result (IfStopped (SomeStops ways.now (all_paths ways.now))) }
{
    for source in 0..ways.sources.len() {
        push_source(text, alloc, ways, source)?;
    }
    Ok(())
}
