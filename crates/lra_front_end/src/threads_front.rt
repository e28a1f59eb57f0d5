//! From the bytes of a source of several threads to all that is read of it.

ghost use Rattle.std.specs.List.{AllZip};
ghost use Rattle.std.specs.Prelude.{◌≡◌, ◌<◌, ◌+◌, ◌^◌, length, IfOk};
ghost use Rattle.lra_base.specs.Refused.{IfRefused};
ghost use Rattle.lra_front_end.specs.Crates.lra_resolution_spec.EntryPoint.{at_threads};
ghost use Rattle.lra_front_end.specs.Crates.lra_resolution_spec.Refuse.{Accepts, Refuse};
ghost use Rattle.lra_front_end.specs.Crates.lra_resolution_spec.Threads.{thread_places, thread_program};
ghost use Rattle.lra_front_end.specs.Crates.{lra_program.ProgramViews.program_view, lra_syntax.Grammar.Spells};
ghost use Rattle.lra_front_end.specs.Crates.{lra_syntax.Labels.labels_of, lra_syntax.Views.tree_view};
ghost use Rattle.lra_front_end.specs.{Stages.HasConstants, ThreadsStages.IsThreadInlined};

use crate::reading::{Reading, read_text};
use crate::threads::{inline_threads, threads_of};
use lra_base::SourceError;
use lra_inline::InlinedProgram;
use lra_recursion::TranslationUnit;
use lra_resolve::{Resolution, ThreadsResolution};
use std::alloc::Global;

/// What is read of an accepted source of several threads: its tree, its constants, its program with the table of its
/// labels, and for each thread the place of its function and the tree of operations with its points. One of the threads
/// stands in the place of `main`.
pub struct AcceptedThreads {
    pub tree: TranslationUnit,
    pub constants: Vec<i64>,
    pub resolution: Resolution,
    pub threads: Vec<usize>,
    pub graphs: Vec<InlinedProgram>,
}

impl Drop for AcceptedThreads {
    fn drop(self) {
        let AcceptedThreads {
            tree: _,
            constants: _,
            resolution: _,
            threads: _,
            graphs: _,
        } = self;
    }
}

/// All that is read of a source of several threads, or its one refusal; memory may run out.
pub fn read_threads(alloc: Global, bytes: &[u8]) -> Result<AcceptedThreads, SourceError>
    requires { length bytes.now + 1 < 2 ^ 32 }
    ensures accepted { IfOk result (λ f. Accepts at_threads Spells bytes.now (tree_view f.tree)) }
    ensures constants { IfOk result (λ f. HasConstants bytes.now f.constants.items) }
    ensures program { IfOk result (λ f. program_view f.resolution.program
        ≡ thread_program (tree_view f.tree) f.resolution.program.main) }
    ensures labels { IfOk result (λ f. f.resolution.labels.labels ≡ labels_of (tree_view f.tree)) }
    ensures threads { IfOk result (λ f. f.threads.items ≡ thread_places (tree_view f.tree)) }
    ensures graphs { IfOk result (λ f. AllZip (IsThreadInlined (tree_view f.tree)) f.threads.items f.graphs.items) }
    ensures refused { IfRefused result (λ r. Refuse at_threads Spells bytes.now r.cause r.place) }
{
    let reading = read_text(alloc, bytes)?;
    let Reading { tree, constants } = reading;
    let found = threads_of(alloc, &tree)?;
    let ThreadsResolution {
        mut resolution,
        threads,
    } = found;
    let graphs = inline_threads(alloc, &tree, &mut resolution, &threads)?;
    Ok(AcceptedThreads {
        tree,
        constants,
        resolution,
        threads,
        graphs,
    })
}
