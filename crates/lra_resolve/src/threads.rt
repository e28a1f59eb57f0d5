//! The threads of a source: its functions `t1`, `t2` and on.

ghost use Rattle.std.specs.Prelude.{◌≡◌, false, true, IfOk, MatchOption};
ghost use Rattle.lra_syntax.specs.{Functions.function_named, Labels.labels_of, Views.tree_view};
ghost use Rattle.lra_program.specs.ProgramViews.{program_view};
ghost use Rattle.lra_resolve.specs.Crates.lra_resolution_spec.Resolve.{function_place};
ghost use Rattle.lra_resolve.specs.Crates.lra_resolution_spec.Threads.{greatest_threads, has_no_parameters};
ghost use Rattle.lra_resolve.specs.Crates.lra_resolution_spec.Threads.{thread_faults, thread_places};
ghost use Rattle.lra_resolve.specs.Crates.lra_resolution_spec.Threads.{thread_places_from, thread_program};
ghost use Rattle.lra_scopes.specs.{Calls.functions_at, Outcome.StopsAtFirstFault};

use crate::functions::{Resolution, resolve_tree};
use lra_base::{Cause, SourceError};
use lra_scopes::refuse;
use lra_syntax::{ExternalDeclaration, TranslationUnit};
use std::alloc::{AllocError, Global};

/// The digit in the name of the first thread.
const FIRST_DIGIT: u8 = b'1';
/// The digit after that of the last thread that a program may have.
const END_DIGIT: u8 = b'9';

/// The place of the first function of this name in the list of functions, if that function has no parameters.
fn find_alone(parts: &[ExternalDeclaration], name: &[u8]) -> Option<usize>
    ensures { MatchOption result (has_no_parameters (function_named (functions_at parts.now) name.now) ≡ false)
        (λ k. (has_no_parameters (function_named (functions_at parts.now) name.now) ≡ true)
        × (k ≡ function_place (functions_at parts.now) name.now)) }
{
    let mut place = 0;
    'parts: for item in parts {
        match item {
            ExternalDeclaration::Prototype => {}
            ExternalDeclaration::Globals(_) => {}
            ExternalDeclaration::Function(function) => {
                if name == function.name.word.as_slice() {
                    return function.parameters.items.is_empty().then_some(place);
                }
                place += 1;
            }
        }
    }
    None
}

/// The places of the functions of all threads.
fn find_threads(alloc: Global, parts: &[ExternalDeclaration]) -> Result<Vec<usize>, AllocError>
    ensures { IfOk result (λ places. places.items
        ≡ thread_places_from (functions_at parts.now) greatest_threads 0) }
{
    let mut places = Vec::new(alloc);
    'threads: for digit in FIRST_DIGIT..END_DIGIT {
        let name = [b't', digit];
        match find_alone(parts, name.as_slice()) {
            Some(place) => places.push(place)?,
            None => return Ok(places),
        }
    }
    Ok(places)
}

/// What a source of several threads without faults of names means.
#[derive(Drop)]
pub struct ThreadsResolution {
    /// The first thread stands in the place of `main`.
    pub resolution: Resolution,
    /// The places of the functions of the threads among all functions.
    pub threads: Vec<usize>,
}

/// As [`resolve`](crate::resolve), if two threads are asked for in place of `main`.
pub fn resolve_threads(
    alloc: Global,
    tree: &TranslationUnit,
) -> Result<ThreadsResolution, SourceError>
    ensures told { StopsAtFirstFault (thread_faults (tree_view tree.now)) result }
    ensures found { IfOk result (λ r. program_view r.resolution.program
        ≡ thread_program (tree_view tree.now) r.resolution.program.main) }
    ensures threads { IfOk result (λ r. r.threads.items ≡ thread_places (tree_view tree.now)) }
    ensures labelled { IfOk result (λ r. r.resolution.labels.labels ≡ labels_of (tree_view tree.now)) }
{
    let resolved = resolve_tree(alloc, tree)?;
    let threads = find_threads(alloc, &tree.items)?;
    if threads.len() < 2 {
        return refuse(Cause::NoThreads, tree.end);
    }
    let resolution = resolved.into_resolution(threads[0]);
    Ok(ThreadsResolution {
        resolution,
        threads,
    })
}
