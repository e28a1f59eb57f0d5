//! The lines after the source of a certificate.

ghost use Rattle.std.specs.List.{All};
ghost use Rattle.std.specs.Prelude.{◌≡◌, ◌<◌, ◌^◌, map, length, OnOk, IfOk, IfErr, string_bytes};
ghost use Rattle.lra_certify.specs.Crates.lra_operations.TreeViews.{node_view, site_view};
ghost use Rattle.lra_certify.specs.Crates.lra_program.ProgramViews.{program_view};
ghost use Rattle.lra_certify.specs.Crates.{lra_paths.Paths.AreFewPaths, lra_program.Sites.sites_of};
ghost use Rattle.lra_verify.specs.{EdgeViews.IsAnnotatedProgram, PointViews.HaveDims, PointViews.state_view};
ghost use Rattle.lra_certify.specs.Certified.{AreListable, IsCertified, IsFailure};
ghost use Rattle.lra_certify.specs.WrittenPaths.{AllAreInductive, AllAssertionsInductive, AddsBody, BodyStops};
ghost use Rattle.lra_certify.specs.{InductiveRows.AreInductiveRows, WrittenPaths.IfStopped, WrittenPaths.all_paths};

use crate::edges::push_sources;
use crate::failures::CertifyFailure;
use crate::listed::push_listed;
use crate::text::{push_end, push_states};
use lra_farkas::ConSys;
use lra_verify::{
    AnnotatedProgram, InlinedProgram, PathsFailure, Program, all_sources, find_paths,
};
use std::alloc::Global;

/// Appends all lines after the source, with these assertions listed.
fn push_body(
    text: &mut String,
    alloc: Global,
    ways: &AnnotatedProgram<'_>,
    proved: &[usize],
) -> Result<(), CertifyFailure>
    requires ways { IsAnnotatedProgram ways.now }
    requires points { All (λ q. q < length ways.now.sites.now) proved.now }
    requires stay { AllAreInductive ways.now (all_paths ways.now) }
    requires denied { AllAssertionsInductive ways.now proved.now }
    ensures adds { OnOk result (AddsBody ways.now proved.now
        (string_bytes text.old) (string_bytes text.new)) }
    ensures failure { IfErr result (IfStopped (BodyStops ways.now proved.now)) }
{
    push_states(text, ways.states)?;
    push_sources(text, alloc, ways)?;
    push_listed(text, alloc, ways, proved)?;
    push_end(text)?;
    Ok(())
}

/// The lines after the source of a certificate that has these rows at the points of the program, none if nothing
/// comes there, and lists the assertions at these points; or the first path to which no multipliers are found.
pub fn certify(
    alloc: Global,
    program: &Program,
    graph: &InlinedProgram,
    states: &[Option<ConSys>],
    proved: &[usize],
) -> Result<String, CertifyFailure>
    requires sites { map site_view graph.now.sites.items ≡ sites_of (program_view program.now) }
    requires many { length graph.now.sites.items < 2 ^ 31 }
    requires live { All (λ s. s.live < 2 ^ 31) graph.now.sites.items }
    requires states { length states.now ≡ length graph.now.sites.items }
    requires dims { HaveDims (map site_view graph.now.sites.items) states.now }
    requires proved { AreListable (sites_of (program_view program.now)) proved.now }
    requires stay { AreInductiveRows (program_view program.now) (node_view graph.now.tree)
        (map state_view states.now) proved.now }
    ensures certified { IfOk result (λ text. IsCertified (program_view program.now)
        (node_view graph.now.tree) (map state_view states.now) proved.now (string_bytes text)) }
    ensures few { OnOk result (AreFewPaths (program_view program.now) (node_view graph.now.tree)) }
    ensures failure { IfErr result (IsFailure (program_view program.now)
        (node_view graph.now.tree) (map state_view states.now) proved.now) }
{
    match find_paths(alloc, program.globals.as_slice(), graph) {
        Ok(paths) => {
            let sources = all_sources(alloc, &paths)?;
            let start = ConSys::new(alloc, 0);
            let ways = AnnotatedProgram {
                sites: graph.sites.as_slice(),
                states,
                start: &start,
                sources: sources.as_slice(),
            };
            let mut text = String::new(alloc);
            push_body(&mut text, alloc, &ways, proved)?;
            Ok(text)
        }
        Err(PathsFailure::TooMany(source)) => Err(CertifyFailure::TooMany(source)),
        Err(PathsFailure::Memory) => Err(CertifyFailure::Memory),
    }
}
