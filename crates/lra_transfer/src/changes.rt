//! What a least change of the program does to a value.

ghost use Rattle.std.specs.Prelude.{◌≡◌, ◌≤◌, ◌<◌, ◌+◌, ◌-◌, Some, suc, map, length, IfOk, OnOk};
ghost use Rattle.lra_program.specs.{ProgramViews.argument_view, ProgramViews.expr_view, Step.append};
ghost use Rattle.lra_transfer.specs.Crates.lra_analysis_spec.Linearization.{linearized};
ghost use Rattle.lra_transfer.specs.Crates.lra_analysis_spec.Live.{live_after_op};
ghost use Rattle.lra_transfer.specs.Crates.lra_analysis_spec.LiveLimit.{most_live};
ghost use Rattle.lra_transfer.specs.Crates.lra_analysis_spec.MovesOf.{within_type, set_to, set_target, append_set};
ghost use Rattle.lra_transfer.specs.Crates.lra_analysis_spec.MovesOf.{push_all, drop_last};
ghost use Rattle.lra_transfer.specs.Crates.lra_analysis_spec.declared.linearization.Linearized.TheVariants.{Unseen};
ghost use Rattle.lra_transfer.specs.Crates.lra_operations.TreeViews.{op_view};
ghost use Rattle.lra_transfer.specs.Changes.{Does, OpTransfersTo, CellFits, OpFitsDims};

use crate::cases::assign_in_cases;
use crate::conditions::filter_condition;
use crate::types::hold_type;
use lra_linearize::{Domain, Exactness, Linearized, NumberType, Op, linearize, worse};
use lra_program::{Argument, Cell, Expr, Target};
use std::alloc::{AllocError, Global};

/// The variable at the place gets the expression's value, as far as it is seen: that of its form; that of a division,
/// in two cases; or any value.
fn set<D: Domain>(
    alloc: Global,
    base: usize,
    place: usize,
    e: &Expr,
    value: &mut D,
) -> Result<Exactness, AllocError>
    requires few { D.abstraction.dims value.old ≤ most_live }
    requires place { place < D.abstraction.dims value.old }
    ensures sets { IfOk result (λ a. Does D.abstraction (set_to (D.abstraction.dims value.old) place
        (linearized (D.abstraction.dims value.old) base (expr_view e.now))) value.old a value.new) }
    ensures dims { OnOk result (D.abstraction.dims value.new ≡ D.abstraction.dims value.old) }
{
    let seen = linearize(alloc, value.dims(), base, e)?;
    match &seen {
        Linearized::Unseen => {
            let exactness = value.forget(place)?;
            Ok(exactness)
        }
        Linearized::Linear(form) => {
            let exactness = value.assign(place, form)?;
            Ok(exactness)
        }
        Linearized::Divided(division, form) => {
            let exactness = assign_in_cases(alloc, place, division, form, value)?;
            Ok(exactness)
        }
    }
}

/// A new variable of its parameter's type, with the value of an argument.
fn push_one<D: Domain>(
    alloc: Global,
    base: usize,
    argument: &Argument,
    value: &mut D,
) -> Result<Exactness, AllocError>
    requires { D.abstraction.dims value.old < most_live }
    ensures pushes { IfOk result (λ a. Does D.abstraction (within_type argument.now.number_type
        (suc (D.abstraction.dims value.old)) (D.abstraction.dims value.old)
        (append_set (D.abstraction.dims value.old)
        (linearized (suc (D.abstraction.dims value.old)) base (expr_view argument.now.value))))
        value.old a value.new) }
    ensures dims { OnOk result (D.abstraction.dims value.new ≡ suc (D.abstraction.dims value.old)) }
{
    let place = value.dims();
    let one = value.embed(1)?;
    let two = set(alloc, base, place, &argument.value, value)?;
    let held = hold_type(alloc, argument.number_type, place, value, worse(one, two))?;
    Ok(held)
}

/// The arguments, each a new variable with its value.
fn push_all_of<D: Domain>(
    alloc: Global,
    base: usize,
    arguments: &[Argument],
    value: &mut D,
) -> Result<Exactness, AllocError>
    requires { D.abstraction.dims value.old + length arguments.now ≤ most_live }
    ensures pushes { IfOk result (λ a. Does D.abstraction
        (push_all (D.abstraction.dims value.old) base (map argument_view arguments.now)) value.old a value.new) }
    ensures dims { OnOk result (D.abstraction.dims value.new ≡ D.abstraction.dims value.old + length arguments.now) }
{
    let Some((first, later)) = arguments.split_first() else {
        return Ok(Exactness::Exact);
    };
    let one = push_one(alloc, base, first, value)?;
    let others = push_all_of(alloc, base, later, value)?;
    Ok(worse(one, others))
}

/// Only the oldest `n` variables stay.
fn keep<D: Domain>(n: usize, value: &mut D) -> Result<Exactness, AllocError>
    ensures keeps { IfOk result
        (λ a. Does D.abstraction (drop_last (D.abstraction.dims value.old - n)) value.old a value.new) }
    ensures dims { OnOk result
        (D.abstraction.dims value.new ≡ D.abstraction.dims value.old - (D.abstraction.dims value.old - n)) }
{
    let dims = value.dims();
    if dims <= n {
        return Ok(Exactness::Exact);
    }
    let exactness = value.remove_last(dims - n)?;
    Ok(exactness)
}

/// A new variable of this type, with any value.
fn append_any<D: Domain>(
    alloc: Global,
    number_type: NumberType,
    value: &mut D,
) -> Result<Exactness, AllocError>
    requires { D.abstraction.dims value.old < most_live }
    ensures changes { IfOk result (λ a. OpTransfersTo D.abstraction (append number_type) value.old a value.new) }
    ensures dims { OnOk result (D.abstraction.dims value.new ≡ suc (D.abstraction.dims value.old)) }
{
    let place = value.dims();
    let exactness = value.embed(1)?;
    let held = hold_type(alloc, number_type, place, value, exactness)?;
    Ok(held)
}

/// The target gets any value of its type: nothing is reported about an element.
fn give_any_value<D: Domain>(
    alloc: Global,
    target: Target,
    value: &mut D,
) -> Result<Exactness, AllocError>
    requires few { D.abstraction.dims value.old ≤ most_live }
    requires place { CellFits target.cell (D.abstraction.dims value.old) }
    ensures gives { IfOk result (λ a. Does D.abstraction
        (set_target (D.abstraction.dims value.old) (Some target) Unseen) value.old a value.new) }
    ensures dims { OnOk result (D.abstraction.dims value.new ≡ D.abstraction.dims value.old) }
{
    match target.cell {
        Cell::Waiting(_) => Ok(Exactness::Exact),
        Cell::Variable(place) => {
            let exactness = value.forget(place)?;
            let held = hold_type(alloc, target.number_type, place, value, exactness)?;
            Ok(held)
        }
    }
}

/// The target gets the expression's value, which is one of its type: nothing is reported about an element.
fn give<D: Domain>(
    alloc: Global,
    base: usize,
    target: Target,
    e: &Expr,
    value: &mut D,
) -> Result<Exactness, AllocError>
    requires few { D.abstraction.dims value.old ≤ most_live }
    requires place { CellFits target.cell (D.abstraction.dims value.old) }
    ensures gives { IfOk result (λ a. Does D.abstraction (set_target (D.abstraction.dims value.old) (Some target)
        (linearized (D.abstraction.dims value.old) base (expr_view e.now))) value.old a value.new) }
    ensures dims { OnOk result (D.abstraction.dims value.new ≡ D.abstraction.dims value.old) }
{
    match target.cell {
        Cell::Waiting(_) => Ok(Exactness::Exact),
        Cell::Variable(place) => {
            let exactness = set(alloc, base, place, e, value)?;
            let held = hold_type(alloc, target.number_type, place, value, exactness)?;
            Ok(held)
        }
    }
}

/// What the least change of the program does to the value.
pub fn transfer_op<D: Domain>(
    alloc: Global,
    op: &Op,
    value: &mut D,
) -> Result<Exactness, AllocError>
    requires few { D.abstraction.dims value.old ≤ most_live }
    requires fits { OpFitsDims (op_view op.now) (D.abstraction.dims value.old) }
    ensures changes { IfOk result (λ a. OpTransfersTo D.abstraction (op_view op.now) value.old a value.new) }
    ensures dims { OnOk result
        (D.abstraction.dims value.new ≡ live_after_op (op_view op.now) (D.abstraction.dims value.old)) }
{
    match op {
        Op::Append(number_type) => append_any(alloc, *number_type, value),
        Op::Fill(_) | Op::StoreElement(_, _, _) => Ok(Exactness::Exact),
        Op::StoreValue(base, receiver, e) => match receiver.target {
            None => Ok(Exactness::Exact),
            Some(target) => give(alloc, *base, target, e, value),
        },
        Op::Havoc(receiver) => match receiver.target {
            None => Ok(Exactness::Exact),
            Some(target) => give_any_value(alloc, target, value),
        },
        Op::Push(base, arguments) => push_all_of(alloc, *base, arguments, value),
        Op::PushFor(base, _, arguments) => push_all_of(alloc, *base, arguments, value),
        Op::TruncateTo(n) => keep(*n, value),
        Op::Test(base, condition, wanted) => {
            filter_condition(alloc, *base, condition, *wanted, value, Exactness::Exact)
        }
    }
}
