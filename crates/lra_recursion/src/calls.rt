//! The calls of a source in text order, from the table of its labels.

ghost use Rattle.std.specs.Prelude.{◌≡◌, ◌++◌, ◌∷◌, List, map, option_to_list, IfOk};
ghost use Rattle.lra_recursion.specs.Crates.{lra_program.ProgramViews.function_view, lra_syntax.Functions.functions_in};
ghost use Rattle.lra_recursion.specs.Crates.{lra_syntax.Labels.label_at, lra_syntax.Reach.called_names};
ghost use Rattle.lra_recursion.specs.Crates.{lra_syntax.Trees.ExternalTree, lra_syntax.Views.external_view};
ghost use Rattle.lra_scopes.specs.Calls.{functions_at};
ghost use Rattle.lra_recursion.specs.Calls.{first_places, called_at, calls_by, labels_between, calls_behind};

use lra_scopes::{ExternalDeclaration, Function, Functions, Labels, Place};
use std::alloc::{AllocError, Global};

/// A call: the place of the first function that has the name of the one that holds it, that of the called function,
/// and where its name stands.
#[derive(Clone, Copy)]
pub struct Call {
    pub caller: usize,
    pub callee: usize,
    pub place: Place,
}

/// The call of a label.
fn find_call(index: &Functions<'_>, labels: &Labels, caller: usize, label: usize) -> Option<Call>
    ensures { option_to_list result ≡ calls_by (functions_at index.now) caller
        (called_at (label_at labels.now.labels label)) }
{
    match labels.get(label) {
        None => None,
        Some(found) => match &found.called {
            None => None,
            Some(name) => match index.find(&name.word) {
                None => None,
                Some(signature) => Some(Call {
                    caller,
                    callee: signature.place,
                    place: name.place,
                }),
            },
        },
    }
}

/// Adds the calls of a function that ends at a label; so many labels stand before its first.
fn add_calls(
    index: &Functions<'_>,
    labels: &Labels,
    caller: usize,
    before: usize,
    end: usize,
    calls: &mut Vec<Call>,
) -> Result<(), AllocError>
    ensures { IfOk result (λ _. calls.new.items ≡ calls.old.items ++ calls_by (functions_at index.now) caller
        (called_names (labels_between labels.now.labels before end))) }
{
    'labels: for number in before..end {
        if let Some(call) = find_call(index, labels, caller, number + 1) {
            calls.push(call)?;
        }
    }
    Ok(())
}

/// Adds the place of the first function of its name, if the part is a function.
fn add_first_place(
    index: &Functions<'_>,
    item: &ExternalDeclaration,
    places: &mut Vec<usize>,
) -> Result<(), AllocError>
    ensures { IfOk result (λ _. (rest : List ExternalTree) →
        places.new.items ++ first_places (functions_at index.now) (functions_in rest) ≡
        places.old.items ++ first_places (functions_at index.now) (functions_in (external_view item.now ∷ rest))) }
{
    match item {
        ExternalDeclaration::Prototype => Ok(()),
        ExternalDeclaration::Globals(_) => Ok(()),
        ExternalDeclaration::Function(function) => match index.find(&function.name.word) {
            None => Ok(()),
            Some(signature) => {
                places.push(signature.place)?;
                Ok(())
            }
        },
    }
}

/// For each function the place of the first of its name.
fn find_first_places(alloc: Global, index: &Functions<'_>) -> Result<Vec<usize>, AllocError>
    ensures { IfOk result (λ v. v.items ≡ first_places (functions_at index.now) (functions_at index.now)) }
{
    let mut places = Vec::new(alloc);
    let parts = index.parts();
    'parts: for item in parts {
        add_first_place(index, item, &mut places)?;
    }
    Ok(places)
}

/// All calls of a source in text order.
pub fn find_calls(
    alloc: Global,
    index: &Functions<'_>,
    functions: &[Function],
    labels: &Labels,
) -> Result<Vec<Call>, AllocError>
    ensures { IfOk result (λ v. v.items ≡ calls_behind (functions_at index.now) labels.now.labels 0
        (first_places (functions_at index.now) (functions_at index.now)) (map function_view functions.now)) }
{
    let callers = find_first_places(alloc, index)?;
    let mut calls = Vec::new(alloc);
    let mut before = 0;
    'functions: for (place, function) in functions.iter().enumerate() {
        if place < callers.len() {
            add_calls(
                index,
                labels,
                callers[place],
                before,
                function.end,
                &mut calls,
            )?;
        }
        before = function.end;
    }
    Ok(calls)
}
