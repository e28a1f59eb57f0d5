//! The first call whose callee reaches the function that holds it.

ghost use Rattle.std.specs.List.{AllByRecursion};
ghost use Rattle.std.specs.Prelude.{◌≡◌, ◌↔◌, map, IsTrue, IfOk, MatchOption};
ghost use Rattle.lra_recursion.specs.Crates.lra_program.ProgramViews.{program_view};
ghost use Rattle.lra_recursion.specs.Crates.lra_resolution_spec.Resolve.{resolved_functions};
ghost use Rattle.lra_recursion.specs.Crates.lra_syntax.Reach.{IsFirstRecursive, NotRecursive};
ghost use Rattle.lra_recursion.specs.Crates.{lra_syntax.Labels.labels_of, lra_syntax.Views.tree_view};
ghost use Rattle.lra_recursion.specs.Recursion.{IsRecursiveCall, IsFirstRecursiveCall};

use crate::calls::{Call, find_calls};
use crate::rows::find_rows;
use crate::search::reached;
use lra_scopes::{Functions, Labels, Place, Program, TranslationUnit};
use std::alloc::{AllocError, Global};

/// Whether the callee reaches the caller.
fn is_back(alloc: Global, rows: &[Vec<usize>], call: Call) -> Result<bool, AllocError>
    ensures { IfOk result (λ b. IsTrue b ↔ IsRecursiveCall (map (λ row. row.items) rows.now) call) }
{
    let met = reached(alloc, rows, call.callee)?;
    Ok(call.caller < met.len() && met[call.caller])
}

/// The place of the first of these calls whose callee reaches its caller.
fn first_back(
    alloc: Global,
    rows: &[Vec<usize>],
    calls: &[Call],
) -> Result<Option<Place>, AllocError>
    ensures { IfOk result (λ o. MatchOption o
        (AllByRecursion (λ c. IsRecursiveCall (map (λ row. row.items) rows.now) c → ⊥) calls.now)
        (IsFirstRecursiveCall (map (λ row. row.items) rows.now) calls.now)) }
{
    'calls: for call in calls {
        if is_back(alloc, rows, *call)? {
            return Ok(Some(call.place));
        }
    }
    Ok(None)
}

/// The place of the first call, in text order, whose callee reaches the function that holds it; what is called is given
/// by the labels of the source's program.
pub fn first_recursive(
    alloc: Global,
    tree: &TranslationUnit,
    program: &Program,
    labels: &Labels,
) -> Result<Option<Place>, AllocError>
    ensures { IfOk result (λ o. (program_view program.now).functions ≡ resolved_functions (tree_view tree.now) →
        labels.now.labels ≡ labels_of (tree_view tree.now) →
        MatchOption o (NotRecursive (tree_view tree.now)) (IsFirstRecursive (tree_view tree.now))) }
{
    let index = Functions::new(alloc, &tree.items)?;
    let calls = find_calls(alloc, &index, &program.functions, labels)?;
    let rows = find_rows(alloc, program.functions.len(), &calls)?;
    first_back(alloc, &rows, &calls)
}
