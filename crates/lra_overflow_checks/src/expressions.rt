//! The answers on an expression: each of its operators and signs by its own form, which is made of those of its sides.
//! A chain has one form that goes along it, so its answers take as long as it does.

ghost use Rattle.std.specs.Prelude.{◌≡◌, ◌<◌, ◌^◌, ℕ, List, Bool, map, IfOk, OnOk};
ghost use Rattle.lra_program.specs.ProgramViews.{argument_view, chained, expr_view, operation_view};
ghost use Rattle.lra_program.specs.{Program.Expr as ProgramExpr, Program.negate, Program.binary, Receivers.waiting_in};
ghost use Rattle.lra_overflow_checks.specs.Crates.lra_analysis_spec.Fits.{GivenJudged, ArgumentsJudged, IndexJudged};
ghost use Rattle.lra_overflow_checks.specs.Crates.lra_analysis_spec.Linear.{form_of};
ghost use Rattle.lra_overflow_checks.specs.Crates.lra_base.OperatorViews.{operator_view};
ghost use Rattle.lra_overflow_checks.specs.Judged.{IsWide, IsComputed, HasAnswers};

use crate::answers::{combine, form_fits, negate, operator_fits};
use crate::computes::parameter;
use lra_operations_list::form_of_expression;
use lra_program::{Argument, Element, Expr, NumberType, Operation, Operator, Receiver};
use lra_transfer::{Domain, LinExpr};
use std::alloc::{AllocError, Global};

/// What is known of an expression whose answers are given: its type and its form.
pub struct Computed {
    pub number_type: NumberType,
    pub form: Option<LinExpr>,
}

impl Drop for Computed {
    fn drop(self) {
        let Computed {
            number_type: _,
            form: _,
        } = self;
    }
}

/// A literal, a variable or an input computes nothing.
fn judge_leaf<D: Domain>(
    alloc: Global,
    base: usize,
    value: &D,
    number_type: NumberType,
    e: &Expr,
) -> Result<Computed, AllocError>
    requires { D.abstraction.dims value.now < 2 ^ 62 }
    ensures { IfOk result (λ c. (c.number_type ≡ number_type) ×
        (c.form ≡ form_of (D.abstraction.dims value.now) base (expr_view e.now))) }
{
    let form = form_of_expression(alloc, value.dims(), base, e)?;
    Ok(Computed { number_type, form })
}

/// A sign before what is computed.
fn judge_sign<D: Domain>(
    alloc: Global,
    value: &D,
    inner: Computed,
    answers: &mut Vec<bool>,
) -> Result<Computed, AllocError>
    requires { IsWide (D.abstraction.dims value.now) inner.form }
    ensures { IfOk result (λ c. (base : ℕ) → (e : ProgramExpr) → (before : List Bool) →
        IsComputed D.abstraction value.now base e before inner answers.old.items →
        IsComputed D.abstraction value.now base (negate e) before c answers.new.items) }
{
    let form = negate(alloc, &inner.form)?;
    answers.push(form_fits(value, inner.number_type, &form))?;
    Ok(Computed {
        number_type: inner.number_type,
        form,
    })
}

/// An operator between what is computed.
fn judge_operator<D: Domain>(
    alloc: Global,
    value: &D,
    operator: Operator,
    left: Computed,
    right: Computed,
    answers: &mut Vec<bool>,
) -> Result<Computed, AllocError>
    requires left { IsWide (D.abstraction.dims value.now) left.form }
    requires right { IsWide (D.abstraction.dims value.now) right.form }
    ensures wide { IfOk result (λ c. IsWide (D.abstraction.dims value.now) c.form) }
    ensures computes { IfOk result (λ c. (base : ℕ) → (a b : ProgramExpr) →
        (before between : List Bool) →
        IsComputed D.abstraction value.now base a before left between →
        IsComputed D.abstraction value.now base b between right answers.old.items →
        IsComputed D.abstraction value.now base (binary (operator_view operator) a b) before c
        answers.new.items) }
{
    let number_type = left.number_type.wider(right.number_type);
    let form = combine(alloc, operator, &left.form, &right.form)?;
    answers.push(operator_fits(value, number_type, operator, &form, &right.form))?;
    Ok(Computed { number_type, form })
}

/// The answers on an expression come after the others.
#[cycle(judge)]
pub fn judge_expression<D: Domain>(
    alloc: Global,
    base: usize,
    value: &D,
    e: &Expr,
    answers: &mut Vec<bool>,
) -> Result<Computed, AllocError>
    requires { D.abstraction.dims value.now < 2 ^ 62 }
    ensures { IfOk result (λ c. IsComputed D.abstraction value.now base (expr_view e.now)
        answers.old.items c answers.new.items) }
{
    match e {
        Expr::Literal(number_type, _) => judge_leaf(alloc, base, value, *number_type, e),
        Expr::Read(variable) => judge_leaf(alloc, base, value, variable.number_type, e),
        Expr::Input => judge_leaf(alloc, base, value, NumberType::Long, e),
        Expr::Negate(inner) => {
            let computed = judge_expression(alloc, base, value, inner, answers)?;
            judge_sign(alloc, value, computed, answers)
        }
        Expr::Chain(first, operations) => {
            let computed = judge_expression(alloc, base, value, first, answers)?;
            judge_chain(alloc, base, value, computed, operations.as_slice(), answers)
        }
        Expr::Element(array, _, index) => {
            let _index = judge_expression(alloc, base, value, index, answers)?;
            Ok(Computed {
                number_type: array.number_type,
                form: None,
            })
        }
    }
}

/// Judges a chain whose first operand is computed: appends for each operation whether it fits.
#[cycle(judge)]
fn judge_chain<D: Domain>(
    alloc: Global,
    base: usize,
    value: &D,
    first: Computed,
    operations: &[Operation],
    answers: &mut Vec<bool>,
) -> Result<Computed, AllocError>
    requires few { D.abstraction.dims value.now < 2 ^ 62 }
    requires wide { IsWide (D.abstraction.dims value.now) first.form }
    ensures { IfOk result (λ c. (e : ProgramExpr) → (before : List Bool) →
        IsComputed D.abstraction value.now base e before first answers.old.items →
        IsComputed D.abstraction value.now base (chained e (map operation_view operations.now))
        before c
        answers.new.items) }
{
    let mut so_far = first;
    'operations: for operation in operations {
        let right = judge_expression(alloc, base, value, &operation.operand, answers)?;
        so_far = judge_operator(alloc, value, operation.operator, so_far, right, answers)?;
    }
    Ok(so_far)
}

/// Judges a value that a receiver gets, and its conversion: appends whether each operation fits.
pub fn judge_given<D: Domain>(
    alloc: Global,
    base: usize,
    value: &D,
    receiver: Receiver,
    e: &Expr,
    answers: &mut Vec<bool>,
) -> Result<(), AllocError>
    requires { D.abstraction.dims value.now < 2 ^ 62 }
    ensures { OnOk result (HasAnswers
        (GivenJudged D.abstraction value.now base receiver (expr_view e.now))
        answers.old.items answers.new.items) }
{
    let computed = judge_expression(alloc, base, value, e, answers)?;
    if !receiver.converts(computed.number_type) {
        return Ok(());
    }
    answers.push(form_fits(value, NumberType::Int, &computed.form))?;
    Ok(())
}

/// Judges arguments: appends whether each operation fits. No argument becomes a variable before all are computed.
pub fn judge_arguments<D: Domain>(
    alloc: Global,
    base: usize,
    value: &D,
    arguments: &[Argument],
    answers: &mut Vec<bool>,
) -> Result<(), AllocError>
    requires { D.abstraction.dims value.now < 2 ^ 62 }
    ensures { OnOk result (HasAnswers
        (ArgumentsJudged D.abstraction value.now base (map argument_view arguments.now))
        answers.old.items answers.new.items) }
{
    'arguments: for argument in arguments {
        let receiver = parameter(argument.number_type);
        judge_given(alloc, base, value, receiver, &argument.value, answers)?;
    }
    Ok(())
}

/// Judges an element's index, then the value that the element gets: appends whether each operation fits.
pub fn judge_element<D: Domain>(
    alloc: Global,
    base: usize,
    value: &D,
    element: &Element,
    e: &Expr,
    answers: &mut Vec<bool>,
) -> Result<(), AllocError>
    requires { D.abstraction.dims value.now < 2 ^ 62 }
    ensures { OnOk result (HasAnswers
        (IndexJudged D.abstraction value.now base (expr_view element.now.index)
        (GivenJudged D.abstraction value.now base (waiting_in element.now.array) (expr_view e.now)))
        answers.old.items answers.new.items) }
{
    let _index = judge_expression(alloc, base, value, &element.index, answers)?;
    let receiver = Receiver::waiting(element.array);
    judge_given(alloc, base, value, receiver, e, answers)
}

/// Judges an element's index, then the arguments of a call whose result the element gets.
pub fn judge_arguments_for<D: Domain>(
    alloc: Global,
    base: usize,
    value: &D,
    element: &Element,
    arguments: &[Argument],
    answers: &mut Vec<bool>,
) -> Result<(), AllocError>
    requires { D.abstraction.dims value.now < 2 ^ 62 }
    ensures { OnOk result (HasAnswers
        (IndexJudged D.abstraction value.now base (expr_view element.now.index)
        (ArgumentsJudged D.abstraction value.now base (map argument_view arguments.now)))
        answers.old.items answers.new.items) }
{
    let _index = judge_expression(alloc, base, value, &element.index, answers)?;
    judge_arguments(alloc, base, value, arguments, answers)
}
