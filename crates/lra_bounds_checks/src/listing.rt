//! The accesses of arrays that an operation evaluates. They are listed from the operation alone: no value is seen.

ghost use Rattle.std.specs.Prelude.{◌≡◌, ◌++◌, map, IfOk, OnOk};
ghost use Rattle.lra_program.specs.Accesses.{expr_accesses, cond_accesses, arguments_accesses, aim_accesses};
ghost use Rattle.lra_program.specs.Accesses.{op_accesses};
ghost use Rattle.lra_program.specs.ProgramViews.{argument_view, cond_view, element_view, expr_view, operation_view};
ghost use Rattle.lra_bounds_checks.specs.Crates.lra_operations.TreeViews.{op_view};
ghost use Rattle.lra_bounds_checks.specs.Crates.lra_operations_list.TreeOperations.{op_ref_view};
ghost use Rattle.lra_bounds_checks.specs.Listed.{access_view, operand_accesses, side_accesses};

use lra_operations::Op;
use lra_overflow_checks::OpRef;
use lra_program::{Argument, Array, Cond, Element, Expr, Operation, Place};
use std::alloc::{AllocError, Global};

/// An access: the array, the place where it is named, and the index.
#[derive(Clone, Copy)]
pub struct Access<'a> {
    pub array: Array,
    pub place: Place,
    pub index: &'a Expr,
}

/// Appends the accesses of an expression.
#[cycle(expressions)]
pub fn push_accesses<'a>(e: &'a Expr, all: &mut Vec<Access<'a>>) -> Result<(), AllocError>
    ensures { OnOk result (map access_view all.new.items ≡
        map access_view all.old.items ++ expr_accesses (expr_view e.now)) }
{
    match e {
        Expr::Literal(_, _) | Expr::Read(_) | Expr::Input => Ok(()),
        Expr::Negate(inner) => push_accesses(inner, all),
        Expr::Chain(first, operations) => {
            push_accesses(first, all)?;
            push_operands(operations.as_slice(), all)
        }
        Expr::Element(array, place, index) => {
            push_accesses(index, all)?;
            all.push(Access {
                array: *array,
                place: *place,
                index,
            })?;
            Ok(())
        }
    }
}

/// Appends the accesses of a chain's operands after the first.
#[cycle(expressions)]
fn push_operands<'a>(
    operations: &'a [Operation],
    all: &mut Vec<Access<'a>>,
) -> Result<(), AllocError>
    ensures { OnOk result (map access_view all.new.items ≡
        map access_view all.old.items ++ operand_accesses (map operation_view operations.now)) }
{
    'operations: for operation in operations {
        push_accesses(&operation.operand, all)?;
    }
    Ok(())
}

/// Appends the accesses of an element that gets a value; its own comes last.
fn push_aim<'a>(element: &'a Element, all: &mut Vec<Access<'a>>) -> Result<(), AllocError>
    ensures { OnOk result (map access_view all.new.items ≡
        map access_view all.old.items ++ aim_accesses (element_view element.now)) }
{
    push_accesses(&element.index, all)?;
    all.push(Access {
        array: element.array,
        place: element.place,
        index: &element.index,
    })?;
    Ok(())
}

/// Appends the accesses of arguments.
fn push_arguments<'a>(
    arguments: &'a [Argument],
    all: &mut Vec<Access<'a>>,
) -> Result<(), AllocError>
    ensures { OnOk result (map access_view all.new.items ≡
        map access_view all.old.items ++ arguments_accesses (map argument_view arguments.now)) }
{
    'arguments: for argument in arguments {
        push_accesses(&argument.value, all)?;
    }
    Ok(())
}

/// Appends the accesses of both sides of a comparison.
fn push_both<'a>(
    left: &'a Expr,
    right: &'a Expr,
    all: &mut Vec<Access<'a>>,
) -> Result<(), AllocError>
    ensures { OnOk result (map access_view all.new.items ≡ map access_view all.old.items ++
        (expr_accesses (expr_view left.now) ++ expr_accesses (expr_view right.now))) }
{
    push_accesses(left, all)?;
    push_accesses(right, all)
}

/// Appends the accesses of a condition.
#[cycle(conditions)]
fn push_condition<'a>(condition: &'a Cond, all: &mut Vec<Access<'a>>) -> Result<(), AllocError>
    ensures { OnOk result (map access_view all.new.items ≡
        map access_view all.old.items ++ cond_accesses (cond_view condition.now)) }
{
    match condition {
        Cond::Compare(_, left, right) => push_both(left, right, all),
        Cond::Nonzero(e) => push_accesses(e, all),
        Cond::Opposite(inner) => push_condition(inner, all),
        Cond::All(first, rest) => {
            push_condition(first, all)?;
            push_sides(rest.as_slice(), all)
        }
        Cond::Any(first, rest) => {
            push_condition(first, all)?;
            push_sides(rest.as_slice(), all)
        }
    }
}

/// Appends the accesses of a chain's conditions.
#[cycle(conditions)]
fn push_sides<'a>(conditions: &'a [Cond], all: &mut Vec<Access<'a>>) -> Result<(), AllocError>
    ensures { OnOk result (map access_view all.new.items ≡
        map access_view all.old.items ++ side_accesses (map cond_view conditions.now)) }
{
    'conditions: for condition in conditions {
        push_condition(condition, all)?;
    }
    Ok(())
}

/// Appends the accesses of an operation.
fn push_change<'a>(op: &'a Op, all: &mut Vec<Access<'a>>) -> Result<(), AllocError>
    ensures { OnOk result (map access_view all.new.items ≡
        map access_view all.old.items ++ op_accesses (op_view op.now)) }
{
    match op {
        Op::Append(_) | Op::Fill(_) | Op::Havoc(_) | Op::TruncateTo(_) => Ok(()),
        Op::StoreValue(_, _, e) => push_accesses(e, all),
        Op::StoreElement(_, element, e) => {
            push_aim(element, all)?;
            push_accesses(e, all)
        }
        Op::Push(_, arguments) => push_arguments(arguments.as_slice(), all),
        Op::PushFor(_, element, arguments) => {
            push_aim(element, all)?;
            push_arguments(arguments.as_slice(), all)
        }
        Op::Test(_, condition, _) => push_condition(condition, all),
    }
}

/// The accesses of what is done, in the order in which they are evaluated.
pub fn accesses<'a>(alloc: Global, doing: OpRef<'a>) -> Result<Vec<Access<'a>>, AllocError>
    ensures { IfOk result (λ all. map access_view all.items ≡ op_accesses (op_ref_view doing.entry)) }
{
    let mut all = Vec::new(alloc);
    match doing {
        OpRef::Change(op) => push_change(op, &mut all)?,
        OpRef::Condition(_, condition) => push_condition(condition, &mut all)?,
        OpRef::Value(_, e) => push_accesses(e, &mut all)?,
    }
    Ok(all)
}
