//! From the bytes of a source to all that is read of it.

ghost use Rattle.std.specs.Prelude.{◌≡◌, ◌<◌, ◌+◌, ◌^◌, length, map, IfOk};
ghost use Rattle.lra_base.specs.Refused.{IfRefused};
ghost use Rattle.lra_front_end.specs.Crates.lra_operations.TreeViews.{node_view, site_view};
ghost use Rattle.lra_front_end.specs.Crates.lra_resolution_spec.EntryPoint.{at_main};
ghost use Rattle.lra_front_end.specs.Crates.{lra_program.ProgramViews.program_view, lra_resolution_spec.Refuse.Refuse};
ghost use Rattle.lra_front_end.specs.Crates.{lra_resolution_spec.Resolve.resolve, lra_syntax.Grammar.Spells};
ghost use Rattle.lra_front_end.specs.Crates.{lra_syntax.Labels.labels_of, lra_syntax.Views.tree_view};
ghost use Rattle.lra_front_end.specs.Stages.{HasConstants, HasInlinedTree, HasTree};

use crate::program::{inline_calls, program_of};
use crate::reading::{Reading, read_text};
use lra_base::SourceError;
use lra_inline::InlinedProgram;
use lra_recursion::TranslationUnit;
use lra_resolve::Resolution;
use std::alloc::Global;

/// What is read of an accepted source: its tree, its constants, its program with the table of its labels, and the tree
/// of operations of that with its points.
pub struct AcceptedSource {
    pub tree: TranslationUnit,
    pub constants: Vec<i64>,
    pub resolution: Resolution,
    pub graph: InlinedProgram,
}

impl Drop for AcceptedSource {
    fn drop(self) {
        let AcceptedSource {
            tree: _,
            constants: _,
            resolution: _,
            graph: _,
        } = self;
    }
}

/// All that is read of a source, or its one refusal; memory may run out.
pub fn read_source(alloc: Global, bytes: &[u8]) -> Result<AcceptedSource, SourceError>
    requires { length bytes.now + 1 < 2 ^ 32 }
    ensures tree { IfOk result (λ f. HasTree bytes.now (tree_view f.tree)) }
    ensures constants { IfOk result (λ f. HasConstants bytes.now f.constants.items) }
    ensures program { IfOk result (λ f. program_view f.resolution.program ≡ resolve (tree_view f.tree)) }
    ensures labels { IfOk result (λ f. f.resolution.labels.labels ≡ labels_of (tree_view f.tree)) }
    ensures graph { IfOk result (λ f. HasInlinedTree (tree_view f.tree) (node_view f.graph.tree)
        (map site_view f.graph.sites.items)) }
    ensures refused { IfRefused result (λ r. Refuse at_main Spells bytes.now r.cause r.place) }
{
    let reading = read_text(alloc, bytes)?;
    let Reading { tree, constants } = reading;
    let resolution = program_of(alloc, &tree)?;
    let graph = inline_calls(alloc, &tree, &resolution)?;
    Ok(AcceptedSource {
        tree,
        constants,
        resolution,
        graph,
    })
}
