//! Answers by what a value says of forms.

ghost use Rattle.std.specs.Prelude.{◌≡◌, ◌↔◌, IsTrue, IfOk};
ghost use Rattle.lra_overflow_checks.specs.Crates.lra_analysis_spec.Fits.{IsDivisor, LiesIn, OperatorFits};
ghost use Rattle.lra_overflow_checks.specs.Crates.lra_analysis_spec.Judging.{AnswersUnlessUnreachable};
ghost use Rattle.lra_overflow_checks.specs.Crates.lra_base.OperatorViews.{operator_view};
ghost use Rattle.lra_overflow_checks.specs.Judged.{IsWide, is_within};
ghost use Rattle.lra_overflow_checks.specs.Sides.{between_sides, with_other_sign};

use lra_operations_list::{apply_operator, has_no_variable, multiple_of};
use lra_program::{NumberType, Operator};
use lra_transfer::{Domain, LinExpr};
use std::alloc::{AllocError, Global};

/// Whether the bound is there and one of the type's numbers.
fn is_within(number_type: NumberType, bound: Option<i128>) -> bool
    ensures { result ≡ is_within number_type bound }
{
    match bound {
        None => false,
        Some(number) => number_type.fits(number),
    }
}

/// Whether what is reported about the form's values lies in the type.
fn lies_in<D: Domain>(value: &D, number_type: NumberType, form: &Option<LinExpr>) -> bool
    requires formed { D.abstraction.well_formed value.now }
    requires wide { IsWide (D.abstraction.dims value.now) form.now }
    ensures { IsTrue result ↔ LiesIn D.abstraction value.now number_type form.now }
{
    match form {
        None => false,
        Some(form) => {
            let (low, high) = value.bounds(form);
            is_within(number_type, low) && is_within(number_type, high)
        }
    }
}

/// Whether what is reported about the form's values lies in the type, or no run comes here.
pub fn form_fits<D: Domain>(value: &D, number_type: NumberType, form: &Option<LinExpr>) -> bool
    requires { IsWide (D.abstraction.dims value.now) form.now }
    ensures { AnswersUnlessUnreachable D.abstraction value.now result
        (LiesIn D.abstraction value.now number_type form.now) }
{
    value.is_empty() || lies_in(value, number_type, form)
}

/// Whether it is a constant by which each number of a type can be divided.
fn is_divisor(form: &Option<LinExpr>) -> bool
    ensures { IsTrue result ↔ IsDivisor form.now }
{
    match form {
        None => false,
        Some(form) => has_no_variable(form) && form.constant() != 0 && form.constant() != -1,
    }
}

/// Whether an operator with this form, whose right side has that one, fits its type, or no run comes here.
pub fn operator_fits<D: Domain>(
    value: &D,
    number_type: NumberType,
    operator: Operator,
    form: &Option<LinExpr>,
    right: &Option<LinExpr>,
) -> bool
    requires { IsWide (D.abstraction.dims value.now) form.now }
    ensures { AnswersUnlessUnreachable D.abstraction value.now result
        (OperatorFits D.abstraction value.now number_type (operator_view operator) form.now
        right.now) }
{
    match operator {
        Operator::Plus | Operator::Minus | Operator::Times => form_fits(value, number_type, form),
        Operator::Over | Operator::Modulo => value.is_empty() || is_divisor(right),
    }
}

/// What the operator makes of two forms, if both are there.
pub fn combine(
    alloc: Global,
    operator: Operator,
    left: &Option<LinExpr>,
    right: &Option<LinExpr>,
) -> Result<Option<LinExpr>, AllocError>
    ensures { IfOk result (λ o. o ≡ between_sides (operator_view operator) left.now right.now) }
{
    match left {
        None => Ok(None),
        Some(one) => match right {
            None => Ok(None),
            Some(other) => apply_operator(alloc, operator, one, other),
        },
    }
}

/// The form with the other sign, if it is there.
pub fn negate(alloc: Global, form: &Option<LinExpr>) -> Result<Option<LinExpr>, AllocError>
    ensures { IfOk result (λ o. o ≡ with_other_sign form.now) }
{
    match form {
        None => Ok(None),
        Some(form) => multiple_of(alloc, -1, form),
    }
}
