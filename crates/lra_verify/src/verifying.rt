//! From the bytes of an input to the numbers of its points and its listed assertions, if it is a certificate that
//! meets its program.

ghost use Rattle.std.specs.List.{All};
ghost use Rattle.std.specs.Prelude.{◌≡◌, ◌≤◌, ◌<◌, ◌^◌, ℕ, suc, [], length, map, slice_get, IfOk};
ghost use Rattle.lra_verify.specs.Crates.lra_program.Program as programs;
ghost use Rattle.lra_verify.specs.Crates.{lra_program.ProgramViews.program_view, lra_program.Sites.sites_of};
ghost use Rattle.lra_operations.specs.{Tree.Node, TreeViews.node_view, TreeViews.site_view};
ghost use Rattle.lra_paths.specs.Paths.{actions_between_in};
ghost use Rattle.lra_verify.specs.Crates.lra_certificate_spec.Claims.{VerifiesTo, verified};
ghost use Rattle.lra_verify.specs.Crates.lra_path_segments.TreeSegments.{AreSegmentsOf};
ghost use Rattle.lra_verify.specs.Crates.{lra_certificate_spec.Judged.judged, lra_path_disjuncts.Tables.IsTable};
ghost use Rattle.lra_verify.specs.Crates.{lra_path_segments.Segments.Goal, lra_path_segments.TreeSegmentViews.seen};
ghost use Rattle.lra_verify.specs.SourceViews.{AreSources, IsAnswerTo, LeadAs};
ghost use Rattle.lra_verify.specs.{EdgeViews.actions_out_of, RefusalViews.IfRefused};
ghost use Rattle.lra_certificate_lines.specs.LineViews.{IsJudgedAs};

use crate::annotated::AnnotatedProgram;
use crate::head::head_of;
use crate::points::take_points;
use lra_certificate_lines::{ConSys, LineFault, VerifyError, VerifyRefusal, read_source};
use lra_operations::{InlinedProgram, Program, Site, SourceError};
use lra_paths::{Paths, PathsFailure, Source, find_paths};
use std::alloc::{AllocError, Global};

/// The most bytes of an input that is to be a certificate.
pub const GREATEST_CERTIFICATE: usize = 1 << 24;

/// The segments from all sources, the start first.
pub fn all_sources(alloc: Global, paths: &Paths<'_>) -> Result<Vec<Source>, AllocError>
    requires { length paths.now.sites.now < 2 ^ 31 }
    ensures count { IfOk result (λ v. length v.items ≡ suc (length paths.now.sites.now)) }
    ensures tables { IfOk result (λ v. All (λ s. IsTable s.entries.items) v.items) }
    ensures leads { IfOk result (λ v. (g : Node) → AreSegmentsOf (seen paths.now.segments.items) g →
        (p : ℕ) (goal : Goal) → p ≤ length paths.now.sites.now →
        actions_out_of (slice_get v.items p) goal ≡
        actions_between_in paths.now.globals.now (map site_view paths.now.sites.now) g p goal) }
{
    let mut sources = Vec::new(alloc);
    for source in 0..paths.sites.len() + 1 {
        let led = paths.from(alloc, source)?;
        sources.push(led)?;
    }
    Ok(sources)
}

/// The numbers of points and of listed assertions, if all lines after the source are as they have to be; no row is
/// said of the start.
fn take_lines(
    alloc: Global,
    bytes: &[u8],
    sites: &[Site],
    sources: &[Source],
    start: &ConSys,
) -> Result<(u32, u32), VerifyError>
    requires short { length bytes.now < 2 ^ 31 }
    requires many { length sites.now < 2 ^ 31 }
    requires live { All (λ s. s.live < 2 ^ 31) sites.now }
    requires sources { AreSources (length sites.now) sources.now }
    requires start { start.now.rows ≡ [] }
    requires dims { start.now.dims ≡ 0 }
    ensures told { (P : programs.Program) (g : Node) → map site_view sites.now ≡ sites_of P →
        LeadAs P g sources.now → IsJudgedAs (λ r. r) (judged P g bytes.now) result }
{
    let points = take_points(alloc, bytes, sites)?;
    let ways = AnnotatedProgram {
        sites,
        states: points.states.as_slice(),
        start,
        sources,
    };
    ways.take_rest(alloc, bytes, points.behind)
}

/// The numbers of points and of listed assertions of a program, if the lines after its source are as they have to
/// be; or why its paths or these lines are refused.
fn judge(
    alloc: Global,
    program: &Program,
    graph: &InlinedProgram,
    rest: &[u8],
) -> Result<(u32, u32), VerifyError>
    requires short { length rest.now < 2 ^ 31 }
    requires sites { map site_view graph.now.sites.items ≡ sites_of (program_view program.now) }
    requires many { length graph.now.sites.items < 2 ^ 31 }
    requires live { All (λ s. s.live < 2 ^ 31) graph.now.sites.items }
    ensures { IsAnswerTo (program_view program.now) (node_view graph.now.tree) rest.now result }
{
    match find_paths(alloc, program.globals.as_slice(), graph) {
        Ok(paths) => {
            let sources = all_sources(alloc, &paths)?;
            let start = ConSys::new(alloc, 0);
            take_lines(
                alloc,
                rest,
                graph.sites.as_slice(),
                sources.as_slice(),
                &start,
            )
        }
        Err(PathsFailure::TooMany(source)) => {
            Err(VerifyError::Refused(VerifyRefusal::Paths(source as u32)))
        }
        Err(PathsFailure::Memory) => Err(VerifyError::Memory),
    }
}

/// How many points the program has whose certificate the input is, and how many assertions that lists; or why the input
/// is no certificate that meets its program. Memory may run out.
pub fn verify(alloc: Global, bytes: &[u8]) -> Result<(u32, u32), VerifyError>
    ensures verified { IfOk result (λ r. VerifiesTo bytes.now (verified r.0 r.1)) }
    ensures refused { IfRefused result (VerifiesTo bytes.now) }
{
    if bytes.len() > GREATEST_CERTIFICATE {
        return Err(VerifyError::Refused(VerifyRefusal::Line(0, LineFault::TooLong)));
    }
    let Some(head) = head_of(alloc, bytes)? else {
        return Err(VerifyError::Refused(VerifyRefusal::Line(0, LineFault::BadLine)));
    };
    match read_source(alloc, head.source) {
        Ok(front) => judge(alloc, &front.resolution.program, &front.graph, head.rest),
        Err(SourceError::Refused(refusal)) => {
            Err(VerifyError::Refused(VerifyRefusal::Source(refusal)))
        }
        Err(SourceError::Memory) => Err(VerifyError::Memory),
    }
}
