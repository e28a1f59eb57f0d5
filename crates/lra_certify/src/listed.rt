//! The lines of listed assertions: nothing goes along the paths to where they are false.

ghost use Rattle.std.specs.List.{All};
ghost use Rattle.std.specs.Prelude.{◌≤◌, ◌<◌, ◌^◌, ◌∷◌, [], length, OnOk, IfErr, string_bytes};
ghost use Rattle.lra_certify.specs.Crates.{lra_path_disjuncts.TableDisjuncts.lists_done};
ghost use Rattle.lra_certify.specs.Crates.{lra_path_segments.Segments.violates, lra_systems.LinearSystems.constraints};
ghost use Rattle.lra_verify.specs.EdgeViews.{IsAnnotatedProgram};
ghost use Rattle.lra_certify.specs.PathFactViews.{IfStrained};
ghost use Rattle.lra_certify.specs.WrittenPaths.{AllAreInductive, AllDead, AddsPaths, AddsDead, AddsListed};
ghost use Rattle.lra_certify.specs.WrittenPaths.{SomePathStops, SomeDeadStops, ListStops, IfStopped, violation_lines};
ghost use Rattle.lra_certify.specs.WrittenPaths.{paths_to, violating_paths, AllAssertionsInductive};

use crate::edges::push_path;
use crate::failures::{CertifyFailure, PathFailure, StrainedAt};
use crate::text::push_assertion;
use lra_farkas::ConSys;
use lra_verify::{AnnotatedProgram, Change, Goal};
use std::alloc::Global;

/// Appends the lines of paths from a source with these rows along which nothing goes.
fn push_dead_paths(
    text: &mut String,
    alloc: Global,
    rows: &ConSys,
    paths: &[Vec<&Change>],
) -> Result<(), PathFailure>
    requires live { rows.now.dims < 2 ^ 31 }
    requires stay { AllDead rows.now.dims (constraints rows.now) (lists_done paths.now) }
    ensures adds { OnOk result (AddsDead rows.now.dims (constraints rows.now) (lists_done paths.now)
        (string_bytes text.old) (string_bytes text.new)) }
    ensures failure { IfErr result (IfStrained (SomeDeadStops rows.now.dims (constraints rows.now)
        (lists_done paths.now))) }
{
    for path in paths.iter() {
        push_path(text, alloc, rows, path.as_slice(), None)?;
    }
    Ok(())
}

/// Appends the lines of the paths from a source to where the assertion at a point is false.
fn push_denials_from(
    text: &mut String,
    alloc: Global,
    ways: &AnnotatedProgram<'_>,
    source: usize,
    point: usize,
) -> Result<(), PathFailure>
    requires ways { IsAnnotatedProgram ways.now }
    requires source { source ≤ length ways.now.sites.now }
    requires stay { AllAreInductive ways.now (paths_to ways.now source (violates point)) }
    ensures adds { OnOk result (AddsPaths ways.now violation_lines
        (paths_to ways.now source (violates point))
        (string_bytes text.old) (string_bytes text.new)) }
    ensures failure { IfErr result (IfStrained (SomePathStops ways.now
        (paths_to ways.now source (violates point)))) }
{
    match ways.from(source) {
        None => Ok(()),
        Some(rows) => {
            let paths = ways.sources[source].paths_to(alloc, Goal::Violates(point))?;
            push_dead_paths(text, alloc, rows, paths.as_slice())
        }
    }
}

/// Appends the lines of the paths to where the assertion at a point is false.
fn push_denials(
    text: &mut String,
    alloc: Global,
    ways: &AnnotatedProgram<'_>,
    point: usize,
) -> Result<(), PathFailure>
    requires ways { IsAnnotatedProgram ways.now }
    requires stay { AllAreInductive ways.now (violating_paths ways.now point) }
    ensures adds { OnOk result (AddsPaths ways.now violation_lines (violating_paths ways.now point)
        (string_bytes text.old) (string_bytes text.new)) }
    ensures failure { IfErr result (IfStrained (SomePathStops ways.now
        (violating_paths ways.now point))) }
{
    for source in 0..ways.sources.len() {
        push_denials_from(text, alloc, ways, source, point)?;
    }
    Ok(())
}

/// Appends the lines of the assertion at a point.
fn push_one(
    text: &mut String,
    alloc: Global,
    ways: &AnnotatedProgram<'_>,
    point: usize,
) -> Result<(), CertifyFailure>
    requires ways { IsAnnotatedProgram ways.now }
    requires point { point < length ways.now.sites.now }
    requires stay { AllAreInductive ways.now (violating_paths ways.now point) }
    ensures adds { OnOk result (AddsListed ways.now (point ∷ [])
        (string_bytes text.old) (string_bytes text.new)) }
    ensures failure { IfErr result (IfStopped (ListStops ways.now (point ∷ []))) }
{
    push_assertion(text, point)?;
    match push_denials(text, alloc, ways, point) {
        Ok(()) => Ok(()),
        Err(failure) => Err(CertifyFailure::at(failure, StrainedAt::Assertion(point))),
    }
}

/// Appends the lines of the assertions at these points.
pub fn push_listed(
    text: &mut String,
    alloc: Global,
    ways: &AnnotatedProgram<'_>,
    proved: &[usize],
) -> Result<(), CertifyFailure>
    requires ways { IsAnnotatedProgram ways.now }
    requires points { All (λ q. q < length ways.now.sites.now) proved.now }
    requires stay { AllAssertionsInductive ways.now proved.now }
    ensures adds { OnOk result (AddsListed ways.now proved.now
        (string_bytes text.old) (string_bytes text.new)) }
    ensures failure { IfErr result (IfStopped (ListStops ways.now proved.now)) }
{
    for point in proved {
        push_one(text, alloc, ways, *point)?;
    }
    Ok(())
}
