//! From the text of a source to its tree and its program.

ghost use Rattle.std.specs.Prelude.{◌≡◌, IfOk};
ghost use Rattle.lra_tests_operations.specs.Crates.lra_program.ProgramViews.{program_view};
ghost use Rattle.lra_tests_operations.specs.Crates.lra_program.WellFormed.{IsWellFormed};
ghost use Rattle.lra_tests_operations.specs.Crates.lra_syntax.Views.{tree_view};
ghost use Rattle.lra_tests_operations.specs.Crates.{lra_resolution_spec.Resolve.resolve, lra_syntax.Labels.labels_of};
ghost use Rattle.lra_front_end.specs.Literals.{HasSmallLiterals};

use lra_base::{Cause, GREATEST_LENGTH, Place, Refusal, SourceError};
use lra_front_end::{Resolution, parse, resolve, tokens};
use lra_report::TranslationUnit;
use std::alloc::Global;

/// The tree of a source.
pub fn tree_of(alloc: Global, source: &str) -> Result<TranslationUnit, SourceError>
    ensures { IfOk result (λ t. HasSmallLiterals (tree_view t)) }
{
    let bytes = source.as_bytes();
    if bytes.len() > GREATEST_LENGTH {
        return Err(SourceError::Refused(Refusal {
            cause: Cause::TooLong,
            place: Place { line: 1, column: 1 },
        }));
    }
    let tokens = tokens(alloc, bytes)?;
    let tree = parse(alloc, &tokens)?;
    Ok(tree)
}

/// The program of such a tree, and the table of its labels.
pub fn program_of(alloc: Global, tree: &TranslationUnit) -> Result<Resolution, SourceError>
    requires { HasSmallLiterals (tree_view tree.now) }
    ensures well { IfOk result (λ r. IsWellFormed (program_view r.program)) }
    ensures program { IfOk result (λ r. program_view r.program ≡ resolve (tree_view tree.now)) }
    ensures labels { IfOk result (λ r. r.labels.labels ≡ labels_of (tree_view tree.now)) }
{
    let resolution = resolve(alloc, tree)?;
    Ok(resolution)
}
