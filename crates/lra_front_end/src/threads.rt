//! From the tree of a source to its threads, and to the tree of operations of each.

ghost use Rattle.std.specs.List.{AllByRecursion, AllZip};
ghost use Rattle.std.specs.Prelude.{◌≡◌, ◌++◌, [], ℕ, List, length, IfOk, OnOk, Some, None};
ghost use Rattle.lra_base.specs.Refused.{IfRefused};
ghost use Rattle.lra_front_end.specs.Crates.lra_resolution_spec.Threads.{thread_faults, thread_places, thread_program};
ghost use Rattle.lra_front_end.specs.Crates.lra_syntax.Labels.{Labelled, labels_of};
ghost use Rattle.lra_front_end.specs.Crates.{lra_inline_steps.Inlining.points_in};
ghost use Rattle.lra_front_end.specs.Crates.{lra_program.ProgramViews.program_view, lra_program.Sites.events_of};
ghost use Rattle.lra_front_end.specs.Crates.{lra_program.Sites.sites_of, lra_program.WellFormed.IsWellFormed};
ghost use Rattle.lra_front_end.specs.Crates.{lra_resolution_spec.Refuse.limit_fault, lra_resolution_spec.Refuse.RefusesTree};
ghost use Rattle.lra_front_end.specs.Crates.lra_resolution_spec.EntryPoint.{at_threads};
ghost use Rattle.lra_front_end.specs.Crates.{lra_syntax.Reach.NotRecursive, lra_syntax.Views.tree_view};
ghost use Rattle.lra_front_end.specs.Stages.{IsFaultless};
ghost use Rattle.lra_front_end.specs.ThreadsStages.{IsInlinedOf, IsThreadInlined};

use crate::program::check_calls;
use lra_base::SourceError;
use lra_inline::{InlineError, InlinedProgram, Site, build_thread, refusal};
use lra_recursion::{Labels, Program, TranslationUnit};
use lra_resolve::{Resolution, ThreadsResolution, resolve_threads};
use std::alloc::Global;

/// The program of a source of several threads without faults of names, the table of its labels, and where the functions
/// of its threads stand; or the first such fault.
pub fn threads_of(alloc: Global, tree: &TranslationUnit) -> Result<ThreadsResolution, SourceError>
    ensures clean { OnOk result (thread_faults (tree_view tree.now) ≡ []) }
    ensures found { IfOk result (λ r. program_view r.resolution.program
        ≡ thread_program (tree_view tree.now) r.resolution.program.main) }
    ensures threads { IfOk result (λ r. r.threads.items ≡ thread_places (tree_view tree.now)) }
    ensures labelled { IfOk result (λ r. r.resolution.labels.labels ≡ labels_of (tree_view tree.now)) }
    ensures refused { IfRefused result (λ r. RefusesTree at_threads (tree_view tree.now) r.cause r.place) }
{
    let threads = resolve_threads(alloc, tree)?;
    Ok(threads)
}

/// The tree of operations of the program with the function at this place in the place of `main`, and its points, which
/// count after those of the threads before; or the refusal for the first limit that is passed.
fn graph_of(
    alloc: Global,
    program: &mut Program,
    labels: &Labels,
    thread: usize,
    before: &mut Vec<Site>,
) -> Result<InlinedProgram, SourceError>
    requires { IsWellFormed (program_view (record program.old { main = thread })) }
    ensures placed { OnOk result (program.new ≡ record program.old { main = thread }) }
    ensures graph { IfOk result
        (IsInlinedOf (program_view (record program.old { main = thread }))) }
    ensures behind { OnOk result (points_in before.new
        ≡ points_in before.old ++ sites_of (program_view (record program.old { main = thread }))) }
    ensures within { OnOk result ((ls : List Labelled) → limit_fault ls (length (points_in before.old))
        (events_of (program_view (record program.old { main = thread }))) ≡ None) }
    ensures refused { IfRefused result (λ r. limit_fault labels.now.labels (length (points_in before.old))
        (events_of (program_view (record program.old { main = thread }))) ≡ Some r) }
{
    program.main = thread;
    match build_thread(alloc, program, before) {
        Ok(graph) => Ok(graph),
        Err(InlineError::Passed(limit)) => Err(SourceError::Refused(refusal(limit, labels))),
        Err(InlineError::Memory) => Err(SourceError::Memory),
    }
}

/// The trees of operations of all threads without recursion, and their points; or the refusal for the first recursive
/// call, or for the first limit that is passed.
pub fn inline_threads(
    alloc: Global,
    tree: &TranslationUnit,
    resolution: &mut Resolution,
    threads: &[usize],
) -> Result<Vec<InlinedProgram>, SourceError>
    requires program { program_view resolution.old.program
        ≡ thread_program (tree_view tree.now) resolution.old.program.main }
    requires labels { resolution.old.labels.labels ≡ labels_of (tree_view tree.now) }
    requires threads { threads.now ≡ thread_places (tree_view tree.now) }
    requires clean { thread_faults (tree_view tree.now) ≡ [] }
    requires well { AllByRecursion (λ place. IsWellFormed (thread_program (tree_view tree.now) place)) threads.now }
    ensures program { OnOk result (program_view resolution.new.program
        ≡ thread_program (tree_view tree.now) resolution.new.program.main) }
    ensures labels { OnOk result (resolution.new.labels ≡ resolution.old.labels) }
    ensures threads { OnOk result (IsFaultless at_threads (tree_view tree.now)) }
    ensures graphs { IfOk result (λ gs. AllZip (IsThreadInlined (tree_view tree.now)) threads.now gs.items) }
    ensures refused { IfRefused result (λ r. RefusesTree at_threads (tree_view tree.now) r.cause r.place) }
{
    check_calls(alloc, tree, resolution)?;
    let mut before = Vec::new(alloc);
    let mut graphs = Vec::new(alloc);
    'threads: for thread in threads {
        let program = &mut resolution.program;
        let graph = graph_of(alloc, program, &resolution.labels, *thread, &mut before)?;
        graphs.push(graph)?;
    }
    Ok(graphs)
}
