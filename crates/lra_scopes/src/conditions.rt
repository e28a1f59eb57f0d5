//! Conditions: chains of `&&` and of `||` over tests.

ghost use Rattle.std.specs.Prelude.{◌≡◌, map, IfOk, IfErr};
ghost use Rattle.lra_base.specs.OperatorViews.{comparison_view};
ghost use Rattle.lra_syntax.specs.Views.{expr_view, negation_view, test_view, conjunction_view};
ghost use Rattle.lra_syntax.specs.{Trees.compare, Views.cond_view as tree_cond_view};
ghost use Rattle.lra_program.specs.ProgramViews.{cond_view, all_of, any_of};
ghost use Rattle.lra_resolution_spec.specs.NameFaults.{negation_faults, test_faults, conjunction_faults, cond_faults};
ghost use Rattle.lra_resolution_spec.specs.Resolve.{resolve_negation, resolve_test, resolve_cond};
ghost use Rattle.lra_scopes.specs.{Chains.resolve_conjunction, Outcome.StopsAtFirstFault};

use crate::expressions::{resolve_expr, resolve_unary};
use crate::scopes::Scope;
use lra_base::{Comparison, SourceError};
use lra_syntax::{Cond, Conjunction, Expr, Negation, Test};
use std::alloc::Global;

/// A chain of `&&`, or its only operand.
fn join_all(
    alloc: Global,
    first: lra_program::Cond,
    rest: Vec<lra_program::Cond>,
) -> Result<lra_program::Cond, SourceError>
    ensures found { IfOk result (λ c. cond_view c ≡ all_of (cond_view first) (map cond_view rest.items)) }
    ensures memory { IfErr result (λ e. e ≡ SourceError.Memory) }
{
    if rest.is_empty() {
        Ok(first)
    } else {
        Ok(lra_program::Cond::All(Box::new(alloc, first)?, rest))
    }
}

/// A chain of `||`, or its only operand.
fn join_any(
    alloc: Global,
    first: lra_program::Cond,
    rest: Vec<lra_program::Cond>,
) -> Result<lra_program::Cond, SourceError>
    ensures found { IfOk result (λ c. cond_view c ≡ any_of (cond_view first) (map cond_view rest.items)) }
    ensures memory { IfErr result (λ e. e ≡ SourceError.Memory) }
{
    if rest.is_empty() {
        Ok(first)
    } else {
        Ok(lra_program::Cond::Any(Box::new(alloc, first)?, rest))
    }
}

/// A comparison of two expressions.
fn resolve_comparison(
    alloc: Global,
    scope: &Scope,
    left: &Expr,
    comparison: Comparison,
    right: &Expr,
) -> Result<lra_program::Cond, SourceError>
    ensures told { StopsAtFirstFault (test_faults scope.now
        (compare (expr_view left.now) (comparison_view comparison) (expr_view right.now))) result }
    ensures found { IfOk result (λ c. cond_view c ≡ resolve_test scope.now
        (compare (expr_view left.now) (comparison_view comparison) (expr_view right.now))) }
{
    let left = resolve_expr(alloc, scope, left)?;
    let right = resolve_expr(alloc, scope, right)?;
    Ok(lra_program::Cond::Compare(comparison, left, right))
}

#[cycle(condition)]
fn resolve_negation(
    alloc: Global,
    scope: &Scope,
    negation: &Negation,
) -> Result<lra_program::Cond, SourceError>
    ensures told { StopsAtFirstFault (negation_faults scope.now (negation_view negation.now))
        result }
    ensures found { IfOk result (λ c. cond_view c ≡ resolve_negation scope.now (negation_view negation.now)) }
{
    match negation {
        Negation::Again(inner) => {
            let inner = resolve_negation(alloc, scope, inner)?;
            Ok(lra_program::Cond::Opposite(Box::new(alloc, inner)?))
        }
        Negation::Operand(unary) => {
            let operand = resolve_unary(alloc, scope, unary)?;
            Ok(lra_program::Cond::Nonzero(operand))
        }
        Negation::Strict(inner) => resolve_cond(alloc, scope, inner),
    }
}

#[cycle(condition)]
fn resolve_test(alloc: Global, scope: &Scope, test: &Test) -> Result<lra_program::Cond, SourceError>
    ensures told { StopsAtFirstFault (test_faults scope.now (test_view test.now)) result }
    ensures found { IfOk result (λ c. cond_view c ≡ resolve_test scope.now (test_view test.now)) }
{
    match test {
        Test::Opposite(negation) => {
            let inner = resolve_negation(alloc, scope, negation)?;
            Ok(lra_program::Cond::Opposite(Box::new(alloc, inner)?))
        }
        Test::Value(expr) => {
            let value = resolve_expr(alloc, scope, expr)?;
            Ok(lra_program::Cond::Nonzero(value))
        }
        Test::Compare(left, comparison, right) => {
            resolve_comparison(alloc, scope, left, *comparison, right)
        }
        Test::Group(inner) => resolve_cond(alloc, scope, inner),
    }
}

#[cycle(condition)]
#[tactic(auto, using(crate::proofs::CondLaws::conjunction_rules))]
fn resolve_conjunction(
    alloc: Global,
    scope: &Scope,
    conjunction: &Conjunction,
) -> Result<lra_program::Cond, SourceError>
    ensures told { StopsAtFirstFault (conjunction_faults scope.now (conjunction_view conjunction.now)) result }
    ensures found { IfOk result (λ c. cond_view c ≡ resolve_conjunction scope.now (conjunction_view conjunction.now)) }
{
    let first = resolve_test(alloc, scope, &conjunction.first)?;
    let mut rest = Vec::new(alloc);
    'tests: for test in &conjunction.rest {
        let further = resolve_test(alloc, scope, test)?;
        rest.push(further)?;
    }
    join_all(alloc, first, rest)
}

/// A condition: its conjunctions, joined by `||` if there are several.
///
/// `UnknownName` or `NotArray` at the first name at fault, `Memory` if memory runs out.
#[cycle(condition)]
#[tactic(auto, using(crate::proofs::CondLaws::cond_rules))]
pub fn resolve_cond(
    alloc: Global,
    scope: &Scope,
    cond: &Cond,
) -> Result<lra_program::Cond, SourceError>
    ensures told { StopsAtFirstFault (cond_faults scope.now (tree_cond_view cond.now)) result }
    ensures found { IfOk result (λ c. cond_view c ≡ resolve_cond scope.now (tree_cond_view cond.now)) }
{
    let first = resolve_conjunction(alloc, scope, &cond.first)?;
    let mut rest = Vec::new(alloc);
    'conjunctions: for conjunction in &cond.rest {
        let further = resolve_conjunction(alloc, scope, conjunction)?;
        rest.push(further)?;
    }
    join_any(alloc, first, rest)
}
