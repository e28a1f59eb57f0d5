//! Declarations: a scalar or an array is in scope from its own declarator's name on.

ghost use Rattle.std.specs.Prelude.{◌≡◌, ◌+◌, ◌∷◌, [], ℕ, suc, List, map, length, option_map, IfOk, OnOk, IfErr};
ghost use Rattle.lra_program.specs.Program.{BlockItems, declaration as declaration_item, array as array_item};
ghost use Rattle.lra_program.specs.ProgramViews.{item_view};
ghost use Rattle.lra_syntax.specs.Trees.{DeclaratorTree, scalar as scalar_shape, array as array_shape};
ghost use Rattle.lra_syntax.specs.Views.{rvalue_view, declarator_view};
ghost use Rattle.lra_resolve_simple.specs.Crates.lra_resolution_spec.NameFaults.{given_faults, length_faults};
ghost use Rattle.lra_resolve_simple.specs.Crates.lra_resolution_spec.NameFaults.{declarators_faults};
ghost use Rattle.lra_resolve_simple.specs.Crates.lra_resolution_spec.Resolve.{resolve_given, resolve_declared};
ghost use Rattle.lra_resolve_simple.specs.Crates.lra_resolution_spec.Resolve.{resolve_declarators};
ghost use Rattle.lra_resolve_simple.specs.Crates.lra_resolution_spec.Scope.{with_local, array_of, declarator_entry};
ghost use Rattle.lra_resolve_simple.specs.Crates.lra_resolution_spec.Scope.{with_declarators};
ghost use Rattle.lra_scopes.specs.{Calls.functions_at, Outcome.IsFirstFault, Outcome.StopsAtFirstFault};
ghost use Rattle.lra_resolve_simple.specs.Labelling.{Declares};
ghost use Rattle.lra_resolve_simple.specs.Statements.{with_scalar, with_array, declarator_faults, followed};

use crate::called::copy_given_callee;
use crate::labelling::Labelling;
use lra_base::{Cause, NumberType, SourceError};
use lra_program::BlockItem;
use lra_scopes::{Binding, Functions, Scope, build_array, refuse, resolve_given};
use lra_syntax::{ArrayLength, Declaration, Declarator, Identifier, Rvalue, ScalarOrArray};
use std::alloc::Global;

/// A name with the type of its declaration.
#[derive(Clone, Copy)]
struct Typed<'a> {
    name: &'a Identifier,
    number_type: NumberType,
}

/// Declares the scalar, and resolves what it gets.
#[tactic(auto, using(lra_scopes::proofs::FirstFaults::telling_rules))]
fn resolve_scalar(
    alloc: Global,
    functions: &Functions<'_>,
    scope: &mut Scope,
    labels: &mut Labelling,
    typed: &Typed<'_>,
    given: &Option<Rvalue>,
) -> Result<BlockItem, SourceError>
    ensures told { StopsAtFirstFault (given_faults (functions_at functions.now)
        (with_scalar scope.old typed.now.number_type typed.now.name.now)
        (option_map rvalue_view given.now)) result }
    ensures found { IfOk result (λ i. item_view i ≡ declaration_item (record {
      label = labels.old.next;
      number_type = typed.now.number_type;
      rvalue = resolve_given (functions_at functions.now)
          (with_scalar scope.old typed.now.number_type typed.now.name.now) labels.old.next
          (option_map rvalue_view given.now);
    })) }
    ensures declared { OnOk result (scope.new ≡
        with_scalar scope.old typed.now.number_type typed.now.name.now) }
    ensures counted { OnOk result (labels.new.next ≡ suc labels.old.next) }
    ensures labelled { OnOk result (Declares labels.old labels.new (record {
      name = typed.now.name.now;
      shape = scalar_shape (option_map rvalue_view given.now);
    } ∷ [])) }
{
    let Typed { name, number_type } = *typed;
    scope.declare(alloc, &name.word, Binding::Scalar(number_type))?;
    let called = copy_given_callee(alloc, given)?;
    let label = labels.add_declarator(alloc, name, called)?;
    let rvalue = resolve_given(alloc, functions, scope, label, given)?;
    Ok(BlockItem::Declaration(lra_program::Declarator {
        label,
        number_type,
        rvalue,
    }))
}

/// Declares the array.
#[tactic(auto, using(lra_scopes::proofs::FirstFaults::telling_rules))]
fn resolve_array(
    alloc: Global,
    scope: &mut Scope,
    labels: &mut Labelling,
    typed: &Typed<'_>,
    length: ArrayLength,
) -> Result<BlockItem, SourceError>
    ensures told { StopsAtFirstFault (length_faults length) result }
    ensures found { IfOk result (λ i. item_view i ≡ array_item labels.old.next
        (array_of typed.now.number_type typed.now.name.now length)) }
    ensures declared { OnOk result (scope.new ≡
        with_array scope.old typed.now.number_type typed.now.name.now length) }
    ensures counted { OnOk result (labels.new.next ≡ suc labels.old.next) }
    ensures labelled { OnOk result (Declares labels.old labels.new (record {
      name = typed.now.name.now;
      shape = array_shape length;
    } ∷ [])) }
{
    let Typed { name, number_type } = *typed;
    let array = build_array(number_type, name, length)?;
    scope.declare(alloc, &name.word, Binding::Array(array))?;
    let label = labels.add(name.place, None)?;
    Ok(BlockItem::Array(label, array))
}

/// Declares the scalar and resolves what it gets, or declares the array.
fn resolve_declarator(
    alloc: Global,
    functions: &Functions<'_>,
    scope: &mut Scope,
    labels: &mut Labelling,
    number_type: NumberType,
    declarator: &Declarator,
) -> Result<BlockItem, SourceError>
    ensures told { StopsAtFirstFault
        (declarator_faults (functions_at functions.now) scope.old number_type
        (declarator_view declarator.now)) result }
    ensures found { IfOk result (λ i. (more : BlockItems) → item_view i more
        ≡ resolve_declared (functions_at functions.now)
        (with_local scope.old (declarator_entry number_type (declarator_view declarator.now)))
        labels.old.next number_type declarator.now.name (declarator_view declarator.now).shape more) }
    ensures declared { OnOk result (scope.new ≡
        with_local scope.old (declarator_entry number_type (declarator_view declarator.now))) }
    ensures counted { OnOk result (labels.new.next ≡ suc labels.old.next) }
    ensures labelled { OnOk result (Declares labels.old labels.new (declarator_view declarator.now ∷ [])) }
{
    let name = &declarator.name;
    if scope.is_declared(&name.word) {
        return refuse(Cause::DuplicateName, name.place);
    }
    let typed = Typed { name, number_type };
    match &declarator.shape {
        ScalarOrArray::Scalar(given) => resolve_scalar(
            alloc, functions, scope, labels, &typed, given,
        ),
        ScalarOrArray::Array(length) => resolve_array(alloc, scope, labels, &typed, *length),
    }
}

/// Resolves a declarator of this type into a further item.
#[tactic(auto, using(crate::proofs::DeclarationLaws::declarator_rules))]
fn add_declarator(
    functions: &Functions<'_>,
    scope: &mut Scope,
    labels: &mut Labelling,
    number_type: NumberType,
    declarator: &Declarator,
    items: &mut Vec<BlockItem>,
) -> Result<(), SourceError>
    ensures told { IfErr result (λ e. (rest : List DeclaratorTree)
        → IsFirstFault (declarators_faults (functions_at functions.now) scope.old number_type
        (declarator_view declarator.now ∷ rest)) e) }
    ensures clean { OnOk result ((rest : List DeclaratorTree)
        → declarators_faults (functions_at functions.now) scope.old number_type (declarator_view declarator.now ∷ rest)
        ≡ declarators_faults (functions_at functions.now) scope.new number_type rest) }
    ensures found { OnOk result ((rest : List DeclaratorTree) (more : BlockItems)
        → followed (map item_view items.old.items) (resolve_declarators
        (functions_at functions.now) scope.old labels.old.next number_type (declarator_view declarator.now ∷ rest) more)
        ≡ followed (map item_view items.new.items) (resolve_declarators
        (functions_at functions.now) scope.new labels.new.next number_type rest more)) }
    ensures declared { OnOk result (scope.new ≡
        with_local scope.old (declarator_entry number_type (declarator_view declarator.now))) }
    ensures counted { OnOk result (labels.new.next ≡ suc labels.old.next) }
    ensures labelled { OnOk result (Declares labels.old labels.new (declarator_view declarator.now ∷ [])) }
{
    let alloc = *items.allocator();
    let resolved = resolve_declarator(alloc, functions, scope, labels, number_type, declarator)?;
    items.push(resolved)?;
    Ok(())
}

/// Resolves the declarators of a declaration into further items.
pub fn add_declaration(
    functions: &Functions<'_>,
    scope: &mut Scope,
    labels: &mut Labelling,
    declaration: &Declaration,
    items: &mut Vec<BlockItem>,
) -> Result<(), SourceError>
    ensures told { StopsAtFirstFault
        (declarators_faults (functions_at functions.now) scope.old declaration.now.number_type
        (declarator_view declaration.now.first ∷ map declarator_view declaration.now.rest.items)) result }
    ensures found { OnOk result ((more : BlockItems) → followed (map item_view items.old.items)
        (resolve_declarators (functions_at functions.now) scope.old labels.old.next declaration.now.number_type
        (declarator_view declaration.now.first ∷ map declarator_view declaration.now.rest.items) more)
        ≡ followed (map item_view items.new.items) more) }
    ensures declared { OnOk result (scope.new ≡ with_declarators scope.old declaration.now.number_type
        (declarator_view declaration.now.first ∷ map declarator_view declaration.now.rest.items)) }
    ensures counted { OnOk result (labels.new.next ≡ labels.old.next + suc (length declaration.now.rest.items)) }
    ensures labelled { OnOk result (Declares labels.old labels.new
        (declarator_view declaration.now.first ∷ map declarator_view declaration.now.rest.items)) }
{
    let number_type = declaration.number_type;
    add_declarator(
        functions,
        scope,
        labels,
        number_type,
        &declaration.first,
        items,
    )?;
    'declarators: for declarator in &declaration.rest {
        add_declarator(functions, scope, labels, number_type, declarator, items)?;
    }
    Ok(())
}
