//! From the tree of a source to its program, and to the tree of operations of that.

ghost use Rattle.std.specs.Prelude.{◌≡◌, [], map, IfOk, OnOk};
ghost use Rattle.lra_base.specs.Refused.{IfRefused};
ghost use Rattle.lra_front_end.specs.Crates.lra_operations.TreeViews.{node_view, site_view};
ghost use Rattle.lra_front_end.specs.Crates.lra_resolution_spec.EntryPoint.{at_main};
ghost use Rattle.lra_front_end.specs.Crates.lra_resolution_spec.Resolve.{resolve, resolved_functions};
ghost use Rattle.lra_front_end.specs.Crates.{lra_program.ProgramViews.program_view};
ghost use Rattle.lra_front_end.specs.Crates.{lra_program.WellFormed.IsWellFormed};
ghost use Rattle.lra_front_end.specs.Crates.{lra_resolution_spec.NameFaults.name_faults};
ghost use Rattle.lra_front_end.specs.Crates.{lra_resolution_spec.Refuse.RefusesTree, lra_syntax.Labels.labels_of};
ghost use Rattle.lra_front_end.specs.Crates.{lra_syntax.Reach.NotRecursive, lra_syntax.Views.tree_view};
ghost use Rattle.lra_front_end.specs.Stages.{HasInlinedTree, IsRecursionRefusal};

use lra_base::{Cause, Refusal, SourceError};
use lra_inline::{InlineError, InlinedProgram, build, refusal};
use lra_recursion::{TranslationUnit, first_recursive};
use lra_resolve::{Resolution, resolve};
use std::alloc::Global;

/// The program of a source without faults of names, and the table of its labels; or the first such fault.
pub fn program_of(alloc: Global, tree: &TranslationUnit) -> Result<Resolution, SourceError>
    ensures clean { OnOk result (name_faults (tree_view tree.now) ≡ []) }
    ensures found { IfOk result (λ r. program_view r.program ≡ resolve (tree_view tree.now)) }
    ensures labelled { IfOk result (λ r. r.labels.labels ≡ labels_of (tree_view tree.now)) }
    ensures refused { IfRefused result (λ r. RefusesTree at_main (tree_view tree.now) r.cause r.place) }
{
    let resolution = resolve(alloc, tree)?;
    Ok(resolution)
}

/// Checks that no function reaches itself by calls; else gives the refusal of the first call by which one does.
#[tactic(auto, using(crate::proofs::StageSteps::first_refused))]
pub fn check_calls(
    alloc: Global,
    tree: &TranslationUnit,
    resolution: &Resolution,
) -> Result<(), SourceError>
    requires functions { (program_view resolution.now.program).functions
        ≡ resolved_functions (tree_view tree.now) }
    requires labels { resolution.now.labels.labels ≡ labels_of (tree_view tree.now) }
    ensures straight { OnOk result (NotRecursive (tree_view tree.now)) }
    ensures refused { IfRefused result (IsRecursionRefusal (tree_view tree.now)) }
{
    match first_recursive(alloc, tree, &resolution.program, &resolution.labels)? {
        None => Ok(()),
        Some(place) => Err(SourceError::Refused(Refusal {
            cause: Cause::Recursive,
            place,
        })),
    }
}

/// The tree of operations of a program without recursion and its points; or the refusal for its first recursive call,
/// or for the first limit that it passes.
pub fn inline_calls(
    alloc: Global,
    tree: &TranslationUnit,
    resolution: &Resolution,
) -> Result<InlinedProgram, SourceError>
    requires program { program_view resolution.now.program ≡ resolve (tree_view tree.now) }
    requires labels { resolution.now.labels.labels ≡ labels_of (tree_view tree.now) }
    requires clean { name_faults (tree_view tree.now) ≡ [] }
    requires well { IsWellFormed (resolve (tree_view tree.now)) }
    ensures graph { IfOk result
        (λ g. HasInlinedTree (tree_view tree.now) (node_view g.tree) (map site_view g.sites.items)) }
    ensures refused { IfRefused result (λ r. RefusesTree at_main (tree_view tree.now) r.cause r.place) }
{
    check_calls(alloc, tree, resolution)?;
    match build(alloc, &resolution.program) {
        Ok(graph) => Ok(graph),
        Err(InlineError::Passed(limit)) => {
            Err(SourceError::Refused(refusal(limit, &resolution.labels)))
        }
        Err(InlineError::Memory) => Err(SourceError::Memory),
    }
}
