//! Functions, global variables and arrays, and the whole source.

ghost use Rattle.std.specs.Prelude.{◌≡◌, ◌+◌, ◌++◌, ◌∷◌, [], ℕ, List, suc, true, false, map, length, IfOk, OnOk, IfErr};
ghost use Rattle.std.specs.{List.flat_map, List.list_any, Prelude.MatchOption};
ghost use Rattle.lra_syntax.specs.Functions.{is_main, functions_in, functions_of};
ghost use Rattle.lra_syntax.specs.Trees.{GlobalTree, ExternalTree, function as part_function};
ghost use Rattle.lra_syntax.specs.Views.{global_view, globals_view, function_view as tree_function_view, external_view};
ghost use Rattle.lra_syntax.specs.{Labels.function_labels, Labels.labels_of, Views.tree_view};
ghost use Rattle.lra_program.specs.ProgramViews.{function_view, program_view};
ghost use Rattle.lra_resolve.specs.Crates.lra_resolution_spec.NameFaults.{parameters_faults, function_faults};
ghost use Rattle.lra_resolve.specs.Crates.lra_resolution_spec.NameFaults.{first_value_faults, shape_faults};
ghost use Rattle.lra_resolve.specs.Crates.lra_resolution_spec.NameFaults.{globals_faults, global_names, parts_faults};
ghost use Rattle.lra_resolve.specs.Crates.lra_resolution_spec.NameFaults.{name_faults};
ghost use Rattle.lra_resolve.specs.Crates.lra_resolution_spec.Resolve.{resolve_function, value_or_zero, variables_by};
ghost use Rattle.lra_resolve.specs.Crates.lra_resolution_spec.Resolve.{arrays_by, globals_in, arrays_in, resolve_parts};
ghost use Rattle.lra_resolve.specs.Crates.lra_resolution_spec.Resolve.{resolved_functions, items_count, resolve};
ghost use Rattle.lra_resolve.specs.Crates.lra_resolution_spec.Scope.{function_scope, binding_of, global_entry};
ghost use Rattle.lra_resolve.specs.Crates.lra_resolution_spec.Scope.{global_entries};
ghost use Rattle.lra_scopes.specs.Outcome.{IsFirstFault, StopsAtFirstFault};
ghost use Rattle.lra_scopes.specs.{Bindings.binding_view, Calls.functions_at};
ghost use Rattle.lra_resolve_simple.specs.Labelling.{labels_of_functions};
ghost use Rattle.lra_resolve.specs.Mains.{main_place};

use crate::statements::resolve_items;
use lra_base::{Cause, NumberType, SourceError};
use lra_program::{Array, GlobalVariable, Program};
use lra_resolve_simple::{Around, Labelling, Labels};
use lra_scopes::{Binding, Functions, Names, Scope, build_array, refuse};
use lra_syntax::{
    ExternalDeclaration, Function, Globals, Parameter, ScalarOrArray, SignedLiteral,
    TranslationUnit,
};
use std::alloc::{AllocError, Global};

/// Begins a function's scope with its parameters.
fn declare_parameters(
    alloc: Global,
    scope: &mut Scope,
    labels: &mut Labelling,
    parameters: &[Parameter],
) -> Result<(), SourceError>
    ensures told { StopsAtFirstFault (parameters_faults [] parameters.now) result }
    ensures declared { OnOk result (scope.new ≡ function_scope scope.old.globals parameters.now) }
    ensures lives { OnOk result (labels.new.live ≡ map (λ p. p.name.word) parameters.now) }
    ensures labelled { OnOk result (labels.new.labels ≡ labels.old.labels) }
    ensures counted { OnOk result (labels.new.next ≡ labels.old.next) }
{
    scope.begin_function();
    labels.keep_oldest(0);
    'parameters: for parameter in parameters {
        if scope.is_declared(&parameter.name.word) {
            return refuse(Cause::DuplicateName, parameter.name.place);
        }
        let meaning = Binding::Scalar(parameter.number_type);
        scope.declare(alloc, &parameter.name.word, meaning)?;
        labels.declare(alloc, &parameter.name.word)?;
    }
    Ok(())
}

/// The types of parameters.
fn types_of(alloc: Global, parameters: &[Parameter]) -> Result<Vec<NumberType>, AllocError>
    ensures { IfOk result (λ v. v.items ≡ map (λ p. p.number_type) parameters.now) }
{
    let mut types = Vec::new(alloc);
    'parameters: for parameter in parameters {
        types.push(parameter.number_type)?;
    }
    Ok(types)
}

#[tactic(auto, using(crate::proofs::FunctionLaws::function_rules))]
fn resolve_function(
    alloc: Global,
    functions: &Functions<'_>,
    scope: &mut Scope,
    labels: &mut Labelling,
    function: &Function,
) -> Result<lra_program::Function, SourceError>
    ensures told { StopsAtFirstFault (function_faults (functions_at functions.now) scope.old.globals
        (tree_function_view function.now)) result }
    ensures found { IfOk result (λ f. function_view f ≡ resolve_function
        (functions_at functions.now) scope.old.globals labels.old.next (tree_function_view function.now)) }
    ensures outside { OnOk result (scope.new.globals ≡ scope.old.globals) }
    ensures counted { OnOk result (labels.new.next ≡
        labels.old.next + suc (items_count (tree_function_view function.now).body)) }
    ensures labelled { OnOk result (labels.new.labels ≡
        labels.old.labels ++ function_labels (tree_function_view function.now)) }
{
    let parameters: &[Parameter] = &function.parameters.items;
    let types = types_of(alloc, parameters)?;
    declare_parameters(alloc, scope, labels, parameters)?;
    let around = Around {
        alloc,
        functions,
        has_result: function.result_type.is_some(),
        breaks: false,
        continues: false,
    };
    let body = resolve_items(&around, scope, labels, &function.body)?;
    let end = labels.add(function.body.end, None)?;
    Ok(lra_program::Function {
        result_type: function.result_type,
        parameters: types,
        body,
        end,
    })
}

/// What is resolved so far.
#[derive(Drop)]
pub struct Resolved {
    /// The names of the file scope.
    names: Names,
    scope: Scope,
    labels: Labelling,
    globals: Vec<GlobalVariable>,
    arrays: Vec<Array>,
    functions: Vec<lra_program::Function>,
}

/// The first value of a global of this type: its literal, or 0.
fn first_value(number_type: NumberType, value: Option<SignedLiteral>) -> Result<i64, SourceError>
    ensures told { StopsAtFirstFault (first_value_faults number_type value) result }
    ensures found { IfOk result (λ z. z ≡ value_or_zero value) }
{
    match value {
        Some(literal) => {
            if number_type.fits(i128::from(literal.value)) {
                Ok(literal.value)
            } else {
                refuse(Cause::BadLiteral, literal.place)
            }
        }
        None => Ok(0),
    }
}

/// Adds the variable or the array that a global of this type is; gives what its name means.
fn add_shape(
    globals: &mut Vec<GlobalVariable>,
    arrays: &mut Vec<Array>,
    number_type: NumberType,
    global: &lra_syntax::Global,
) -> Result<Binding, SourceError>
    ensures told { StopsAtFirstFault (shape_faults (first_value_faults number_type)
        (global_view global.now).shape) result }
    ensures found { IfOk result (λ m. binding_view m
        ≡ binding_of number_type global.now.name (global_view global.now).shape) }
    ensures valued { OnOk result (globals.new.items
        ≡ globals.old.items ++ variables_by number_type (global_view global.now).shape) }
    ensures arrayed { OnOk result (arrays.new.items ≡ arrays.old.items
        ++ arrays_by number_type global.now.name (global_view global.now).shape) }
{
    match &global.shape {
        ScalarOrArray::Scalar(value) => {
            let value = first_value(number_type, *value)?;
            globals.push(GlobalVariable { number_type, value })?;
            Ok(Binding::Scalar(number_type))
        }
        ScalarOrArray::Array(length) => {
            let array = build_array(number_type, &global.name, *length)?;
            arrays.push(array)?;
            Ok(Binding::Array(array))
        }
    }
}

#[tactic(auto, using(crate::proofs::FunctionLaws::global_rules))]
fn add_global(
    alloc: Global,
    resolved: &mut Resolved,
    number_type: NumberType,
    global: &lra_syntax::Global,
) -> Result<(), SourceError>
    ensures told { IfErr result (λ e. (rest : List GlobalTree)
        → IsFirstFault (globals_faults number_type resolved.old.names
        (global_view global.now ∷ rest)) e) }
    ensures clean { OnOk result ((rest : List GlobalTree)
        → globals_faults number_type resolved.old.names (global_view global.now ∷ rest)
        ≡ globals_faults number_type resolved.new.names rest) }
    ensures named { OnOk result (resolved.new.names ≡ resolved.old.names ++ global.now.name.word ∷ []) }
    ensures scoped { OnOk result (resolved.new.scope.globals ≡ resolved.old.scope.globals
        ++ global_entry number_type (global_view global.now) ∷ []) }
    ensures valued { OnOk result (resolved.new.globals.items ≡ resolved.old.globals.items
        ++ variables_by number_type (global_view global.now).shape) }
    ensures arrayed { OnOk result (resolved.new.arrays.items ≡ resolved.old.arrays.items
        ++ arrays_by number_type global.now.name (global_view global.now).shape) }
    ensures labels { OnOk result (resolved.new.labels ≡ resolved.old.labels) }
    ensures functions { OnOk result (resolved.new.functions.items ≡ resolved.old.functions.items) }
{
    if resolved.names.has_behind(0, &global.name.word) {
        return refuse(Cause::DuplicateName, global.name.place);
    }
    let meaning = add_shape(
        &mut resolved.globals,
        &mut resolved.arrays,
        number_type,
        global,
    )?;
    resolved.names.push(alloc, &global.name.word)?;
    resolved
        .scope
        .declare_global(alloc, &global.name.word, meaning)?;
    Ok(())
}

fn add_globals(alloc: Global, resolved: &mut Resolved, globals: &Globals) -> Result<(), SourceError>
    ensures told { StopsAtFirstFault (globals_faults globals.now.number_type resolved.old.names
        (global_view globals.now.first ∷ map global_view globals.now.rest.items)) result }
    ensures named { OnOk result (resolved.new.names ≡ resolved.old.names
        ++ global_names (global_view globals.now.first ∷ map global_view globals.now.rest.items)) }
    ensures scoped { OnOk result (resolved.new.scope.globals ≡ resolved.old.scope.globals
        ++ global_entries (globals_view globals.now)) }
    ensures valued { OnOk result (resolved.new.globals.items ≡ resolved.old.globals.items
        ++ flat_map (λ g. variables_by globals.now.number_type g.shape)
        (global_view globals.now.first ∷ map global_view globals.now.rest.items)) }
    ensures arrayed { OnOk result (resolved.new.arrays.items ≡ resolved.old.arrays.items
        ++ flat_map (λ g. arrays_by globals.now.number_type g.name g.shape)
        (global_view globals.now.first ∷ map global_view globals.now.rest.items)) }
    ensures labels { OnOk result (resolved.new.labels ≡ resolved.old.labels) }
    ensures functions { OnOk result (resolved.new.functions.items ≡ resolved.old.functions.items) }
{
    add_global(alloc, resolved, globals.number_type, &globals.first)?;
    'globals: for global in &globals.rest {
        add_global(alloc, resolved, globals.number_type, global)?;
    }
    Ok(())
}

#[tactic(auto, using(crate::proofs::FunctionLaws::part_rules))]
fn add_function(
    alloc: Global,
    functions: &Functions<'_>,
    resolved: &mut Resolved,
    function: &Function,
) -> Result<(), SourceError>
    ensures told { IfErr result (λ e. (rest : List ExternalTree)
        → IsFirstFault (parts_faults (functions_at functions.now) resolved.old.names resolved.old.scope.globals
        (part_function (tree_function_view function.now) ∷ rest)) e) }
    ensures clean { OnOk result ((rest : List ExternalTree)
        → parts_faults (functions_at functions.now) resolved.old.names resolved.old.scope.globals
        (part_function (tree_function_view function.now) ∷ rest)
        ≡ parts_faults (functions_at functions.now) resolved.new.names resolved.new.scope.globals rest) }
    ensures found { OnOk result ((rest : List ExternalTree) → map function_view resolved.old.functions.items
        ++ resolve_parts (functions_at functions.now) resolved.old.scope.globals resolved.old.labels.next
        (part_function (tree_function_view function.now) ∷ rest) ≡ map function_view resolved.new.functions.items
        ++ resolve_parts (functions_at functions.now) resolved.new.scope.globals resolved.new.labels.next rest) }
    ensures labelled { OnOk result ((rest : List ExternalTree) → resolved.new.labels.labels
        ++ labels_of_functions (functions_in rest) ≡ resolved.old.labels.labels
        ++ labels_of_functions (functions_in (part_function (tree_function_view function.now) ∷ rest))) }
    ensures valued { OnOk result (resolved.new.globals.items ≡ resolved.old.globals.items) }
    ensures arrayed { OnOk result (resolved.new.arrays.items ≡ resolved.old.arrays.items) }
{
    if resolved.names.has_behind(0, &function.name.word) {
        return refuse(Cause::DuplicateName, function.name.place);
    }
    resolved.names.push(alloc, &function.name.word)?;
    let one = resolve_function(
        alloc,
        functions,
        &mut resolved.scope,
        &mut resolved.labels,
        function,
    )?;
    resolved.functions.push(one)?;
    Ok(())
}

#[tactic(auto, using(crate::proofs::FunctionLaws::part_rules))]
fn add_part(
    alloc: Global,
    functions: &Functions<'_>,
    resolved: &mut Resolved,
    item: &ExternalDeclaration,
) -> Result<(), SourceError>
    ensures told { IfErr result (λ e. (rest : List ExternalTree)
        → IsFirstFault (parts_faults (functions_at functions.now) resolved.old.names resolved.old.scope.globals
        (external_view item.now ∷ rest)) e) }
    ensures clean { OnOk result ((rest : List ExternalTree)
        → parts_faults (functions_at functions.now) resolved.old.names resolved.old.scope.globals
        (external_view item.now ∷ rest)
        ≡ parts_faults (functions_at functions.now) resolved.new.names
        resolved.new.scope.globals rest) }
    ensures found { OnOk result ((rest : List ExternalTree) → map function_view resolved.old.functions.items
        ++ resolve_parts (functions_at functions.now) resolved.old.scope.globals resolved.old.labels.next
        (external_view item.now ∷ rest) ≡ map function_view resolved.new.functions.items
        ++ resolve_parts (functions_at functions.now) resolved.new.scope.globals resolved.new.labels.next rest) }
    ensures labelled { OnOk result ((rest : List ExternalTree) → resolved.new.labels.labels
        ++ labels_of_functions (functions_in rest) ≡ resolved.old.labels.labels
        ++ labels_of_functions (functions_in (external_view item.now ∷ rest))) }
    ensures valued { OnOk result ((rest : List ExternalTree) → resolved.old.globals.items
        ++ globals_in (external_view item.now ∷ rest) ≡ resolved.new.globals.items
        ++ globals_in rest) }
    ensures arrayed { OnOk result ((rest : List ExternalTree) → resolved.old.arrays.items
        ++ arrays_in (external_view item.now ∷ rest) ≡ resolved.new.arrays.items
        ++ arrays_in rest) }
{
    match item {
        ExternalDeclaration::Prototype => Ok(()),
        ExternalDeclaration::Globals(globals) => {
            add_globals(alloc, resolved, globals)?;
            Ok(())
        }
        ExternalDeclaration::Function(function) => {
            add_function(alloc, functions, resolved, function)?;
            Ok(())
        }
    }
}

fn is_main(function: &Function) -> bool
    ensures { result ≡ is_main (tree_function_view function.now) }
{
    b"main".as_slice() == function.name.word.as_slice() && function.parameters.items.is_empty()
}

/// The place of the first `main` without parameters in the list of functions.
fn find_main(parts: &[ExternalDeclaration]) -> Option<usize>
    ensures { MatchOption result (list_any is_main (functions_at parts.now) ≡ false)
        (λ k. (list_any is_main (functions_at parts.now) ≡ true) × (k ≡ main_place (functions_at parts.now))) }
{
    let mut place = 0;
    'parts: for item in parts {
        match item {
            ExternalDeclaration::Prototype => {}
            ExternalDeclaration::Globals(_) => {}
            ExternalDeclaration::Function(function) => {
                if is_main(function) {
                    return Some(place);
                }
                place += 1;
            }
        }
    }
    None
}

/// All parts of the source.
fn resolve_all(alloc: Global, functions: &Functions<'_>) -> Result<Resolved, SourceError>
    ensures told { StopsAtFirstFault (parts_faults (functions_at functions.now) [] [] (map external_view functions.now))
        result }
    ensures found { IfOk result (λ r. map function_view r.functions.items
        ≡ resolve_parts (functions_at functions.now) [] 1 (map external_view functions.now)) }
    ensures valued { IfOk result
        (λ r. r.globals.items ≡ globals_in (map external_view functions.now)) }
    ensures arrayed { IfOk result
        (λ r. r.arrays.items ≡ arrays_in (map external_view functions.now)) }
    ensures labelled { IfOk result (λ r. r.labels.labels ≡ labels_of_functions (functions_at functions.now)) }
{
    let mut resolved = Resolved {
        names: Names::new(alloc),
        scope: Scope::outermost(alloc),
        labels: Labelling::new(alloc),
        globals: Vec::new(alloc),
        arrays: Vec::new(alloc),
        functions: Vec::new(alloc),
    };
    let parts = functions.parts();
    'parts: for item in parts {
        add_part(alloc, functions, &mut resolved, item)?;
    }
    Ok(resolved)
}

/// All parts of a source, over the functions that it defines.
pub fn resolve_tree(alloc: Global, tree: &TranslationUnit) -> Result<Resolved, SourceError>
    ensures told { StopsAtFirstFault (parts_faults (functions_of (tree_view tree.now)) [] []
        (tree_view tree.now).parts) result }
    ensures found { IfOk result (λ r. map function_view r.functions.items
        ≡ resolved_functions (tree_view tree.now)) }
    ensures valued { IfOk result (λ r. r.globals.items ≡ globals_in (tree_view tree.now).parts) }
    ensures arrayed { IfOk result (λ r. r.arrays.items ≡ arrays_in (tree_view tree.now).parts) }
    ensures labelled { IfOk result (λ r. r.labels.labels ≡ labels_of (tree_view tree.now)) }
{
    let functions = Functions::new(alloc, &tree.items)?;
    resolve_all(alloc, &functions)
}

/// What a source without faults of names means.
pub struct Resolution {
    pub program: Program,
    /// The table of its labels: the n-th is the label n, from 1.
    pub labels: Labels,
}

impl Drop for Resolution {
    fn drop(self) {
        let Resolution {
            program: _,
            labels: _,
        } = self;
    }
}

impl Resolved {
    /// All that is resolved, with the function at this place in the place of `main`.
    pub fn into_resolution(self, main: usize) -> Resolution
        ensures program { result.program ≡ record {
          globals = self.globals;
          arrays = self.arrays;
          functions = self.functions;
          main = main;
        } }
        ensures labelled { result.labels.labels ≡ self.labels.labels }
    {
        let Resolved {
            names: _,
            scope: _,
            labels,
            globals,
            arrays,
            functions,
        } = self;
        Resolution {
            program: Program {
                globals,
                arrays,
                functions,
                main,
            },
            labels: labels.into_table(),
        }
    }
}

/// The program that a source means, with its statements labelled in text order from 1, and the table of these labels;
/// or its first fault of names, or running out of memory.
#[tactic(auto, using(crate::proofs::FunctionLaws::main_rules))]
pub fn resolve(alloc: Global, tree: &TranslationUnit) -> Result<Resolution, SourceError>
    ensures told { StopsAtFirstFault (name_faults (tree_view tree.now)) result }
    ensures found { IfOk result (λ r. program_view r.program ≡ resolve (tree_view tree.now)) }
    ensures labelled { IfOk result (λ r. r.labels.labels ≡ labels_of (tree_view tree.now)) }
{
    let resolved = resolve_tree(alloc, tree)?;
    match find_main(&tree.items) {
        None => refuse(Cause::NoMain, tree.end),
        Some(main) => Ok(resolved.into_resolution(main)),
    }
}
