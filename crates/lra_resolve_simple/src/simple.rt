//! Statements without parts that are statements, each under its label.

ghost use Rattle.std.specs.Prelude.{◌≡◌, ◌∷◌, [], suc, not, false, Some, option_map, IfOk, OnOk};
ghost use Rattle.lra_program.specs.{Program.nothing, Program.call as call_stmt, ProgramViews.stmt_view};
ghost use Rattle.lra_syntax.specs.Labels.{plain_label, label_with, assign_label, called_of};
ghost use Rattle.lra_syntax.specs.Views.{rvalue_view, call_view, assign_view};
ghost use Rattle.lra_resolve_simple.specs.Crates.lra_resolution_spec.NameFaults.{fault_if, call_faults, assign_faults};
ghost use Rattle.lra_resolve_simple.specs.Crates.lra_resolution_spec.NameFaults.{return_faults};
ghost use Rattle.lra_resolve_simple.specs.Crates.lra_resolution_spec.Resolve.{resolve_call, resolve_assign};
ghost use Rattle.lra_resolve_simple.specs.Crates.lra_resolution_spec.Resolve.{resolve_given};
ghost use Rattle.lra_base.specs.declared.refusals.Cause.TheVariants.{Misplaced};
ghost use Rattle.lra_scopes.specs.{Calls.functions_at, Outcome.StopsAtFirstFault};
ghost use Rattle.lra_resolve_simple.specs.Labelling.{Adds};
ghost use Rattle.lra_resolve_simple.specs.Statements.{around_of, break_of, continue_of, return_of};

use crate::around::Around;
use crate::called::{copy_assigned_callee, copy_given_callee, place_of_assign};
use crate::labelling::Labelling;
use lra_base::{Cause, Place, SourceError};
use lra_scopes::{Scope, refuse, resolve_assign, resolve_call, resolve_given};
use lra_syntax::{Assign, Call, Rvalue};

/// A statement that does nothing.
#[tactic(auto, using(lra_scopes::proofs::Loops::wanting_told))]
pub fn resolve_nothing(
    labels: &mut Labelling,
    place: Place,
) -> Result<lra_program::Stmt, SourceError>
    ensures told { StopsAtFirstFault [] result }
    ensures found { IfOk result (λ s. stmt_view s ≡ nothing labels.old.next) }
    ensures counted { OnOk result (labels.new.next ≡ suc labels.old.next) }
    ensures adds { OnOk result (Adds labels.old labels.new (plain_label place labels.old.live ∷ [])) }
{
    let label = labels.add(place, None)?;
    Ok(lra_program::Stmt::Nothing(label))
}

/// An assignment under the next label.
pub fn resolve_assignment(
    around: &Around<'_>,
    scope: &Scope,
    labels: &mut Labelling,
    assign: &Assign,
) -> Result<lra_program::Stmt, SourceError>
    ensures told { StopsAtFirstFault
        (assign_faults (functions_at around.now.functions.now) scope.now (assign_view assign.now))
        result }
    ensures found { IfOk result (λ s. stmt_view s ≡ resolve_assign
        (functions_at around.now.functions.now) scope.now labels.old.next (assign_view assign.now)) }
    ensures counted { OnOk result (labels.new.next ≡ suc labels.old.next) }
    ensures adds { OnOk result (Adds labels.old labels.new
        (assign_label labels.old.live (assign_view assign.now) ∷ [])) }
{
    let called = copy_assigned_callee(around.alloc, assign)?;
    let label = labels.add(place_of_assign(assign), called)?;
    resolve_assign(around.alloc, around.functions, scope, label, assign)
}

/// A call whose result isn't used.
pub fn resolve_call_alone(
    around: &Around<'_>,
    scope: &Scope,
    labels: &mut Labelling,
    call: &Call,
) -> Result<lra_program::Stmt, SourceError>
    ensures told { StopsAtFirstFault
        (call_faults (functions_at around.now.functions.now) scope.now (call_view call.now) false)
        result }
    ensures found { IfOk result (λ s. stmt_view s ≡ call_stmt labels.old.next
        (resolve_call (functions_at around.now.functions.now) scope.now labels.old.next (call_view call.now))) }
    ensures counted { OnOk result (labels.new.next ≡ suc labels.old.next) }
    ensures adds { OnOk result (Adds labels.old labels.new
        (label_with call.now.name.place (Some call.now.name) labels.old.live ∷ [])) }
{
    let called = call.name.copy(around.alloc)?;
    let label = labels.add(call.name.place, Some(called))?;
    let call = resolve_call(around.alloc, around.functions, scope, label, call, false)?;
    Ok(lra_program::Stmt::Call(label, call))
}

/// The label of a `break` or a `continue`, which have to stand in what they leave or go on with.
fn take_jump_label(inside: bool, labels: &mut Labelling, place: Place) -> Result<usize, SourceError>
    ensures told { StopsAtFirstFault (fault_if (not inside) Misplaced place) result }
    ensures label { IfOk result (λ n. n ≡ labels.old.next) }
    ensures counted { OnOk result (labels.new.next ≡ suc labels.old.next) }
    ensures adds { OnOk result (Adds labels.old labels.new (plain_label place labels.old.live ∷ [])) }
{
    if inside {
        labels.add(place, None)
    } else {
        refuse(Cause::Misplaced, place)
    }
}

/// A `break`, in a loop or `switch` or not.
pub fn resolve_break(
    around: &Around<'_>,
    labels: &mut Labelling,
    place: Place,
) -> Result<lra_program::Stmt, SourceError>
    ensures told { StopsAtFirstFault (fault_if (not around.now.breaks) Misplaced place) result }
    ensures found { IfOk result (λ s. stmt_view s ≡ break_of labels.old.next) }
    ensures counted { OnOk result (labels.new.next ≡ suc labels.old.next) }
    ensures adds { OnOk result (Adds labels.old labels.new (plain_label place labels.old.live ∷ [])) }
{
    let label = take_jump_label(around.breaks, labels, place)?;
    Ok(lra_program::Stmt::Break(label))
}

/// A `continue`, in a loop or not.
pub fn resolve_continue(
    around: &Around<'_>,
    labels: &mut Labelling,
    place: Place,
) -> Result<lra_program::Stmt, SourceError>
    ensures told { StopsAtFirstFault (fault_if (not around.now.continues) Misplaced place) result }
    ensures found { IfOk result (λ s. stmt_view s ≡ continue_of labels.old.next) }
    ensures counted { OnOk result (labels.new.next ≡ suc labels.old.next) }
    ensures adds { OnOk result (Adds labels.old labels.new (plain_label place labels.old.live ∷ [])) }
{
    let label = take_jump_label(around.continues, labels, place)?;
    Ok(lra_program::Stmt::Continue(label))
}

/// A `return`; only a function with a result gives one.
#[tactic(auto, using(lra_scopes::proofs::FirstFaults::telling_rules))]
pub fn resolve_return(
    around: &Around<'_>,
    scope: &Scope,
    labels: &mut Labelling,
    place: Place,
    rvalue: &Option<Rvalue>,
) -> Result<lra_program::Stmt, SourceError>
    ensures told { StopsAtFirstFault
        (return_faults (around_of around.now) scope.now place (option_map rvalue_view rvalue.now))
        result }
    ensures found { IfOk result (λ s. stmt_view s ≡ return_of labels.old.next
        (resolve_given (functions_at around.now.functions.now) scope.now labels.old.next
        (option_map rvalue_view rvalue.now))) }
    ensures counted { OnOk result (labels.new.next ≡ suc labels.old.next) }
    ensures adds { OnOk result (Adds labels.old labels.new
        (label_with place (called_of (option_map rvalue_view rvalue.now)) labels.old.live ∷ [])) }
{
    if rvalue.is_some() && !around.has_result {
        return refuse(Cause::BadCall, place);
    }
    let called = copy_given_callee(around.alloc, rvalue)?;
    let label = labels.add(place, called)?;
    let rvalue = resolve_given(around.alloc, around.functions, scope, label, rvalue)?;
    Ok(lra_program::Stmt::Return(label, rvalue))
}
