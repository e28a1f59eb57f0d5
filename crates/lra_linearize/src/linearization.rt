//! What an analysis sees of expressions: linear forms, and divisions of them by constants above 0.

ghost use Rattle.std.specs.Prelude.{◌≡◌, ◌<◌, ◌^◌, ◌&&◌, pos, None, int_le, length, map, IfOk};
ghost use Rattle.lra_base.specs.OperatorViews.{operator_view};
ghost use Rattle.lra_linearize.specs.Crates.lra_linear_forms.Form.{opposite_form};
ghost use Rattle.lra_linearize.specs.Crates.lra_program.ProgramViews.{chained, expr_view, operation_view};
ghost use Rattle.lra_analysis_spec.specs.Linear.{fitting, is_constant, constant_form, form_of};
ghost use Rattle.lra_linearize.specs.Forms as forms;
ghost use Rattle.lra_analysis_spec.specs.Linearization.{extended, behind_form, form_plus_one, division, share_form};
ghost use Rattle.lra_analysis_spec.specs.Linearization.{share_of, linearized_from, linearized, linear_if, divided_if};
ghost use Rattle.lra_analysis_spec.specs.Linearization.{subtracted, linearized_difference};
ghost use Rattle.lra_analysis_spec.specs.declared.linearization.Linearized.TheVariants.{Linear, Divided};

use crate::forms::{constant_of, form_of_chain, form_of_expression, has_no_variable, sum_of_forms};
use lra_analysis_spec::{Division, LinExpr, Linearized};
use lra_base::Operator;
use lra_program::{Expr, Operation};
use std::alloc::{AllocError, Global};

/// The form over two variables more, with these coefficients of the two.
pub fn extend_form(
    alloc: Global,
    f: &LinExpr,
    quotient: i64,
    remainder: i64,
) -> Result<LinExpr, AllocError>
    ensures { IfOk result (λ g. g ≡ extended f.now quotient remainder) }
{
    let mut coefficients = Vec::from_slice(alloc, f.coefficients())?;
    coefficients.push(quotient)?;
    coefficients.push(remainder)?;
    let form = LinExpr::new(alloc, f.constant(), coefficients.as_slice())?;
    Ok(form)
}

/// The form of a constant, and of the two variables after the live ones.
pub fn form_behind(
    alloc: Global,
    live: usize,
    constant: i64,
    quotient: i64,
    remainder: i64,
) -> Result<LinExpr, AllocError>
    requires { live < 2 ^ 62 }
    ensures { IfOk result (λ f. f ≡ behind_form live constant quotient remainder) }
{
    let front = constant_of(alloc, live, &constant)?;
    let form = extend_form(alloc, &front, quotient, remainder)?;
    Ok(form)
}

/// The form plus one, if all its numbers have 64 bits.
fn one_more_of(alloc: Global, f: &LinExpr) -> Result<Option<LinExpr>, AllocError>
    requires { length f.now.coefficients < 2 ^ 62 }
    ensures { IfOk result (λ o. o ≡ form_plus_one f.now) }
{
    let less_one = constant_of(alloc, f.coefficients().len(), &-1)?;
    let form = sum_of_forms(alloc, true, f, &less_one)?;
    Ok(form)
}

/// `-f - 1`, if all its numbers have 64 bits.
fn opposite_if_fitting(alloc: Global, f: &LinExpr) -> Result<Option<LinExpr>, AllocError>
    ensures { IfOk result (λ o. o ≡ fitting (opposite_form f.now)) }
{
    let form = f.opposite(alloc)?;
    Ok(form)
}

/// Whether the form is a number above 0.
fn is_divisor(f: &LinExpr) -> bool
    ensures { result ≡ (is_constant f.now && int_le (pos 1) f.now.constant) }
{
    has_no_variable(f) && f.constant() >= 1
}

/// The division of the one by the other, if this is a constant above 0 and the two cases fit 64 bits.
fn division_by(
    alloc: Global,
    numerator: LinExpr,
    divisor: &LinExpr,
) -> Result<Option<Division>, AllocError>
    requires { length numerator.coefficients < 2 ^ 62 }
    ensures { IfOk result (λ o. o ≡ division numerator divisor.now) }
{
    if !is_divisor(divisor) {
        return Ok(None);
    }
    let Some(_) = one_more_of(alloc, &numerator)? else {
        return Ok(None);
    };
    let Some(opposite) = opposite_if_fitting(alloc, &numerator)? else {
        return Ok(None);
    };
    Ok(Some(Division {
        numerator,
        opposite,
        divisor: divisor.constant(),
    }))
}

/// The form of what the operator gives, the quotient or what is left; none of another operator.
fn share_form_of(
    alloc: Global,
    live: usize,
    operator: Operator,
) -> Result<Option<LinExpr>, AllocError>
    requires { live < 2 ^ 62 }
    ensures { IfOk result (λ o. o ≡ share_form live (operator_view operator)) }
{
    match operator {
        Operator::Over => Ok(Some(form_behind(alloc, live, 0, 1, 0)?)),
        Operator::Modulo => Ok(Some(form_behind(alloc, live, 0, 0, 1)?)),
        Operator::Plus | Operator::Minus | Operator::Times => Ok(None),
    }
}

/// The form of what stands before the last operation.
fn form_of_front(
    alloc: Global,
    live: usize,
    base: usize,
    first: &Expr,
    operations: &[Operation],
) -> Result<Option<LinExpr>, AllocError>
    requires { live < 2 ^ 62 }
    ensures { IfOk result (λ o. o ≡
        form_of live base (chained (expr_view first.now) (map operation_view operations.now))) }
{
    match form_of_expression(alloc, live, base, first)? {
        None => Ok(None),
        Some(form) => form_of_chain(alloc, live, base, form, operations),
    }
}

/// What is seen of the numerator divided by an operand, if `form` is that of what the operator gives.
fn see_share_by(
    alloc: Global,
    live: usize,
    base: usize,
    form: LinExpr,
    numerator: LinExpr,
    operand: &Expr,
) -> Result<Linearized, AllocError>
    requires few { live < 2 ^ 62 }
    requires width { length numerator.coefficients ≡ live }
    ensures { IfOk result (λ s. s ≡
        linearized_from None (forms.share_by live base form numerator (expr_view operand.now))) }
{
    let Some(divisor) = form_of_expression(alloc, live, base, operand)? else {
        return Ok(Linearized::Unseen);
    };
    let Some(division) = division_by(alloc, numerator, &divisor)? else {
        return Ok(Linearized::Unseen);
    };
    Ok(Linearized::Divided(division, form))
}

/// The division that an expression without a linear form is; nothing if its last operator is another one, or if
/// it can't be split into two cases.
#[cycle(share)]
fn see_share(alloc: Global, live: usize, base: usize, e: &Expr) -> Result<Linearized, AllocError>
    requires { live < 2 ^ 62 }
    ensures { IfOk result (λ s. s ≡ linearized_from None (share_of live base (expr_view e.now))) }
{
    match e {
        Expr::Literal(_, _)
        | Expr::Read(_)
        | Expr::Input
        | Expr::Negate(_)
        | Expr::Element(_, _, _) => Ok(Linearized::Unseen),
        Expr::Chain(first, operations) => {
            see_last_share(alloc, live, base, first, operations.as_slice())
        }
    }
}

/// The division that a chain is, by its last operator; nothing as for `see_share`.
#[cycle(share)]
fn see_last_share(
    alloc: Global,
    live: usize,
    base: usize,
    first: &Expr,
    operations: &[Operation],
) -> Result<Linearized, AllocError>
    requires { live < 2 ^ 62 }
    ensures { IfOk result (λ s. s ≡ linearized_from None
        (share_of live base (chained (expr_view first.now) (map operation_view operations.now)))) }
{
    let Some((last, front)) = operations.split_last() else {
        return see_share(alloc, live, base, first);
    };
    let Some(form) = share_form_of(alloc, live, last.operator)? else {
        return Ok(Linearized::Unseen);
    };
    let Some(numerator) = form_of_front(alloc, live, base, first, front)? else {
        return Ok(Linearized::Unseen);
    };
    see_share_by(alloc, live, base, form, numerator, &last.operand)
}

/// What an analysis sees of an expression over so many live variables, of which the call's own begin at `base`: its
/// linear form; or the division that it is, of a linear form by a constant above 0; or nothing.
pub fn linearize(
    alloc: Global,
    live: usize,
    base: usize,
    e: &Expr,
) -> Result<Linearized, AllocError>
    requires { live < 2 ^ 62 }
    ensures { IfOk result (λ s. s ≡ linearized live base (expr_view e.now)) }
{
    match form_of_expression(alloc, live, base, e)? {
        None => see_share(alloc, live, base, e),
        Some(form) => Ok(Linearized::Linear(form)),
    }
}

/// A form as it is seen, if there is one.
fn linear_if_some(form: Option<LinExpr>) -> Linearized
    ensures { result ≡ linear_if form }
{
    match form {
        None => Linearized::Unseen,
        Some(form) => Linearized::Linear(form),
    }
}

/// A form over a division's variables as it is seen, if there is one.
fn divided_if_some(
    alloc: Global,
    division: &Division,
    form: Option<LinExpr>,
) -> Result<Linearized, AllocError>
    ensures { IfOk result (λ s. s ≡ divided_if division.now form) }
{
    match form {
        None => Ok(Linearized::Unseen),
        Some(form) => Ok(Linearized::Divided(division.copy(alloc)?, form)),
    }
}

/// A linear form minus another one.
fn linear_minus_linear(alloc: Global, f: &LinExpr, g: &LinExpr) -> Result<Linearized, AllocError>
    ensures { IfOk result (λ s. s ≡ subtracted (Linear f.now) (Linear g.now)) }
{
    let difference = sum_of_forms(alloc, true, f, g)?;
    Ok(linear_if_some(difference))
}

/// A linear form minus one over a division's variables.
fn linear_minus_divided(
    alloc: Global,
    f: &LinExpr,
    division: &Division,
    g: &LinExpr,
) -> Result<Linearized, AllocError>
    ensures { IfOk result (λ s. s ≡ subtracted (Linear f.now) (Divided division.now g.now)) }
{
    let wide = extend_form(alloc, f, 0, 0)?;
    let difference = sum_of_forms(alloc, true, &wide, g)?;
    divided_if_some(alloc, division, difference)
}

/// A form over a division's variables minus a linear one.
fn divided_minus_linear(
    alloc: Global,
    division: &Division,
    f: &LinExpr,
    g: &LinExpr,
) -> Result<Linearized, AllocError>
    ensures { IfOk result (λ s. s ≡ subtracted (Divided division.now f.now) (Linear g.now)) }
{
    let wide = extend_form(alloc, g, 0, 0)?;
    let difference = sum_of_forms(alloc, true, f, &wide)?;
    divided_if_some(alloc, division, difference)
}

/// What is seen of a linear left side minus the right one.
fn subtract_from_linear(
    alloc: Global,
    f: &LinExpr,
    right: &Linearized,
) -> Result<Linearized, AllocError>
    ensures { IfOk result (λ s. s ≡ subtracted (Linear f.now) right.now) }
{
    match right {
        Linearized::Linear(g) => linear_minus_linear(alloc, f, g),
        Linearized::Divided(division, g) => linear_minus_divided(alloc, f, division, g),
        Linearized::Unseen => Ok(Linearized::Unseen),
    }
}

/// What is seen of a left side that is a division minus the right one.
fn subtract_from_divided(
    alloc: Global,
    division: &Division,
    f: &LinExpr,
    right: &Linearized,
) -> Result<Linearized, AllocError>
    ensures { IfOk result (λ s. s ≡ subtracted (Divided division.now f.now) right.now) }
{
    match right {
        Linearized::Linear(g) => divided_minus_linear(alloc, division, f, g),
        Linearized::Divided(_, _) | Linearized::Unseen => Ok(Linearized::Unseen),
    }
}

/// What is seen of the left side minus the right one.
fn subtract(alloc: Global, left: &Linearized, right: &Linearized) -> Result<Linearized, AllocError>
    ensures { IfOk result (λ s. s ≡ subtracted left.now right.now) }
{
    match left {
        Linearized::Linear(f) => subtract_from_linear(alloc, f, right),
        Linearized::Divided(division, f) => subtract_from_divided(alloc, division, f, right),
        Linearized::Unseen => Ok(Linearized::Unseen),
    }
}

/// What an analysis sees of the left side minus the right one.
pub fn linearize_difference(
    alloc: Global,
    live: usize,
    base: usize,
    left: &Expr,
    right: &Expr,
) -> Result<Linearized, AllocError>
    requires { live < 2 ^ 62 }
    ensures { IfOk result (λ s. s ≡
        linearized_difference live base (expr_view left.now) (expr_view right.now)) }
{
    let one = linearize(alloc, live, base, left)?;
    let other = linearize(alloc, live, base, right)?;
    subtract(alloc, &one, &other)
}

/// What is seen of a value minus a number.
pub fn subtract_number(
    alloc: Global,
    live: usize,
    seen: &Linearized,
    number: &i64,
) -> Result<Linearized, AllocError>
    requires { live < 2 ^ 62 }
    ensures { IfOk result (λ s. s ≡ subtracted seen.now (Linear (constant_form live number.now))) }
{
    let form = constant_of(alloc, live, number)?;
    let right = Linearized::Linear(form);
    subtract(alloc, seen, &right)
}
