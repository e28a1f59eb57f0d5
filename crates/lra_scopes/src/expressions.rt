//! Expressions: each scalar is a place in the store, and each array is given by its declaration.

ghost use Rattle.std.specs.Prelude.{◌≡◌, ◌++◌, map, IfOk, IfErr, flat_map};
ghost use Rattle.lra_base.specs.OperatorViews.{operator_view};
ghost use Rattle.lra_syntax.specs.Views.{unary_view, term_view, factor_view, summand_view, expr_view as tree_expr_view};
ghost use Rattle.lra_program.specs.ProgramViews.{variable_view, expr_view, element_view, operation_view, chained};
ghost use Rattle.lra_resolution_spec.specs.NameFaults.{use_faults, named_faults, unary_faults, term_faults};
ghost use Rattle.lra_resolution_spec.specs.Resolve.{variable, array_named, resolve_unary, resolve_term, resolve_expr};
ghost use Rattle.lra_resolution_spec.specs.{NameFaults.expr_faults, Resolve.resolve_element};
ghost use Rattle.lra_scopes.specs.Chains.{factor_operator, sum_operator, factor_faults, resolve_factor, summand_faults};
ghost use Rattle.lra_scopes.specs.{Chains.resolve_summand, Outcome.StopsAtFirstFault};

use crate::bindings::Binding;
use crate::errors::refuse;
use crate::scopes::Scope;
use lra_base::{Cause, Operator, SourceError};
use lra_program::{Array, Element, Operation, Variable};
use lra_syntax::{Expr, Factor, FactorOperator, Identifier, SumOperator, Summand, Term, Unary};
use std::alloc::Global;

/// The scalar that a name means, with its type; `UnknownName` if nothing in scope has the name, `NotArray` if an
/// array has it.
pub fn resolve_variable(scope: &Scope, x: &Identifier) -> Result<Variable, SourceError>
    ensures told { StopsAtFirstFault (use_faults scope.now x.now) result }
    ensures found { IfOk result (λ v. variable_view v ≡ variable scope.now x.now) }
{
    match scope.find(&x.word) {
        Some(found) => match found.meaning {
            Binding::Scalar(number_type) => Ok(Variable {
                slot: found.slot,
                number_type,
            }),
            Binding::Array(_) => refuse(Cause::NotArray, x.place),
        },
        None => refuse(Cause::UnknownName, x.place),
    }
}

/// The array that a name means; `UnknownName` if nothing in scope has the name, `NotArray` if a scalar has it.
fn resolve_array(scope: &Scope, x: &Identifier) -> Result<Array, SourceError>
    ensures told { StopsAtFirstFault (named_faults scope.now x.now) result }
    ensures found { IfOk result (λ a. a ≡ array_named scope.now x.now) }
{
    match scope.find(&x.word) {
        Some(found) => match found.meaning {
            Binding::Scalar(_) => refuse(Cause::NotArray, x.place),
            Binding::Array(array) => Ok(array),
        },
        None => refuse(Cause::UnknownName, x.place),
    }
}

/// A chain, or its only operand.
fn join_operands(
    alloc: Global,
    first: lra_program::Expr,
    rest: Vec<Operation>,
) -> Result<lra_program::Expr, SourceError>
    ensures found { IfOk result (λ e. expr_view e ≡ chained (expr_view first) (map operation_view rest.items)) }
    ensures memory { IfErr result (λ e. e ≡ SourceError.Memory) }
{
    if rest.is_empty() {
        Ok(first)
    } else {
        Ok(lra_program::Expr::Chain(Box::new(alloc, first)?, rest))
    }
}

fn factor_operator(operator: FactorOperator) -> Operator
    ensures { operator_view result ≡ factor_operator operator }
{
    match operator {
        FactorOperator::Times => Operator::Times,
        FactorOperator::Over => Operator::Over,
        FactorOperator::Modulo => Operator::Modulo,
    }
}

fn sum_operator(operator: SumOperator) -> Operator
    ensures { operator_view result ≡ sum_operator operator }
{
    match operator {
        SumOperator::Plus => Operator::Plus,
        SumOperator::Minus => Operator::Minus,
    }
}

/// An operand with the signs before it; a plus sign changes nothing.
///
/// `UnknownName` or `NotArray` at the first name at fault, `Memory` if memory runs out.
#[cycle(expression)]
pub fn resolve_unary(
    alloc: Global,
    scope: &Scope,
    unary: &Unary,
) -> Result<lra_program::Expr, SourceError>
    ensures told { StopsAtFirstFault (unary_faults scope.now (unary_view unary.now)) result }
    ensures found { IfOk result (λ e. expr_view e ≡ resolve_unary scope.now (unary_view unary.now)) }
{
    match unary {
        Unary::Negated(inner) => {
            let inner = resolve_unary(alloc, scope, inner)?;
            Ok(lra_program::Expr::Negate(Box::new(alloc, inner)?))
        }
        Unary::Positive(inner) => resolve_unary(alloc, scope, inner),
        Unary::Literal(number_type, n) => Ok(lra_program::Expr::Literal(*number_type, *n)),
        Unary::Variable(x) => {
            let variable = resolve_variable(scope, x)?;
            Ok(lra_program::Expr::Read(variable))
        }
        Unary::Input => Ok(lra_program::Expr::Input),
        Unary::Group(inner) => resolve_expr(alloc, scope, inner),
        Unary::Element(x, index) => {
            let array = resolve_array(scope, x)?;
            let index = resolve_expr(alloc, scope, index)?;
            let index = Box::new(alloc, index)?;
            Ok(lra_program::Expr::Element(array, x.place, index))
        }
    }
}

#[cycle(expression)]
fn resolve_factor(alloc: Global, scope: &Scope, factor: &Factor) -> Result<Operation, SourceError>
    ensures told { StopsAtFirstFault (factor_faults scope.now (factor_view factor.now)) result }
    ensures found { IfOk result (λ o. operation_view o ≡ resolve_factor scope.now (factor_view factor.now)) }
{
    let operand = resolve_unary(alloc, scope, &factor.unary)?;
    let operator = factor_operator(factor.operator);
    Ok(Operation { operator, operand })
}

#[cycle(expression)]
fn resolve_summand(
    alloc: Global,
    scope: &Scope,
    summand: &Summand,
) -> Result<Operation, SourceError>
    ensures told { StopsAtFirstFault (summand_faults scope.now (summand_view summand.now)) result }
    ensures found { IfOk result (λ o. operation_view o ≡ resolve_summand scope.now (summand_view summand.now)) }
{
    let operand = resolve_term(alloc, scope, &summand.term)?;
    let operator = sum_operator(summand.operator);
    Ok(Operation { operator, operand })
}

#[cycle(expression)]
#[tactic(auto, using(crate::proofs::ChainLaws::term_rules))]
fn resolve_term(alloc: Global, scope: &Scope, term: &Term) -> Result<lra_program::Expr, SourceError>
    ensures told { StopsAtFirstFault (term_faults scope.now (term_view term.now)) result }
    ensures found { IfOk result (λ e. expr_view e ≡ resolve_term scope.now (term_view term.now)) }
{
    let first = resolve_unary(alloc, scope, &term.first)?;
    let mut rest = Vec::new(alloc);
    'factors: for factor in &term.rest {
        let operation = resolve_factor(alloc, scope, factor)?;
        rest.push(operation)?;
    }
    join_operands(alloc, first, rest)
}

/// A sum of products, from the left.
///
/// `UnknownName` or `NotArray` at the first name at fault, `Memory` if memory runs out.
#[cycle(expression)]
#[tactic(auto, using(crate::proofs::ChainLaws::expr_rules))]
pub fn resolve_expr(
    alloc: Global,
    scope: &Scope,
    expr: &Expr,
) -> Result<lra_program::Expr, SourceError>
    ensures told { StopsAtFirstFault (expr_faults scope.now (tree_expr_view expr.now)) result }
    ensures found { IfOk result (λ e. expr_view e ≡ resolve_expr scope.now (tree_expr_view expr.now)) }
{
    let first = resolve_term(alloc, scope, &expr.first)?;
    let mut rest = Vec::new(alloc);
    'summands: for summand in &expr.rest {
        let operation = resolve_summand(alloc, scope, summand)?;
        rest.push(operation)?;
    }
    join_operands(alloc, first, rest)
}

/// An element: the array's name, then the index.
///
/// `UnknownName` or `NotArray` at the first name at fault, `Memory` if memory runs out.
#[tactic(auto, using(crate::proofs::FirstFaults::telling_rules))]
pub fn resolve_element(
    alloc: Global,
    scope: &Scope,
    x: &Identifier,
    index: &Expr,
) -> Result<Element, SourceError>
    ensures told { StopsAtFirstFault (named_faults scope.now x.now
        ++ expr_faults scope.now (tree_expr_view index.now)) result }
    ensures found { IfOk result (λ e. element_view e
        ≡ resolve_element scope.now x.now (tree_expr_view index.now)) }
{
    let array = resolve_array(scope, x)?;
    let index = resolve_expr(alloc, scope, index)?;
    Ok(Element {
        array,
        place: x.place,
        index,
    })
}
