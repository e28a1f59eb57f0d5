//! Expressions. A function reads if `depth` levels of nesting are left.

ghost use Rattle.std.specs.Prelude.{◌≡◌, ◌≤◌, length, IfOk};
ghost use Rattle.lra_syntax.specs.{Trees.unary, Trees.term, Views.unary_view, Views.term_view, Views.expr_view};
ghost use Rattle.lra_parser_spec.specs.Expressions.{factor_operator, sum_operator, unary_at, negated_at, positive_at};
ghost use Rattle.lra_parser_spec.specs.Expressions.{grouped_at, read_input, factors, term_of, summands, expr_at};
ghost use Rattle.lra_parser_spec.specs.{Expressions.named_unary, Expressions.index_at, Reading.ParsesAs, Tests.first};

use lra_base::Cause;
use lra_parser_spec::{Stopped, expect, next_is, next_literal, read_name, stop, tail};
use lra_syntax::{
    Expr, Factor, FactorOperator, Identifier, Mark, SumOperator, Summand, Term, Token, Unary,
};
use std::alloc::Global;

/// `*`, `/` or `%`, if it is the next token.
fn factor_operator(rest: &[Token]) -> Option<FactorOperator>
    ensures { result ≡ factor_operator (first rest.now) }
{
    if next_is(rest, Mark::Star) {
        Some(FactorOperator::Times)
    } else if next_is(rest, Mark::Slash) {
        Some(FactorOperator::Over)
    } else if next_is(rest, Mark::Percent) {
        Some(FactorOperator::Modulo)
    } else {
        None
    }
}

/// `+` or `-`, if it is the next token.
fn sum_operator(rest: &[Token]) -> Option<SumOperator>
    ensures { result ≡ sum_operator (first rest.now) }
{
    if next_is(rest, Mark::Plus) {
        Some(SumOperator::Plus)
    } else if next_is(rest, Mark::Minus) {
        Some(SumOperator::Minus)
    } else {
        None
    }
}

/// `input()`
fn read_input(rest: &[Token]) -> Result<(Unary, &[Token]), Stopped>
    ensures shorter { IfOk result (λ r. length r.1.now ≤ length rest.now) }
    ensures gives { ParsesAs (λ r. (unary_view r.0, r.1.now)) result (read_input rest.now) }
{
    let word = expect(rest, Mark::Input)?;
    let opened = expect(word, Mark::OpenParen)?;
    let closed = expect(opened, Mark::CloseParen)?;
    Ok((Unary::Input, closed))
}

/// A unary: a sign and a unary, a literal, a variable, an element, `input()`, or an expression in parentheses.
#[cycle(expression)]
pub fn read_unary(alloc: Global, rest: &[Token], depth: usize) -> Result<(Unary, &[Token]), Stopped>
    ensures shorter { IfOk result (λ r. length r.1.now ≤ length rest.now) }
    ensures gives { ParsesAs (λ r. (unary_view r.0, r.1.now)) result (unary_at depth rest.now) }
{
    if next_is(rest, Mark::Minus) {
        return read_negated(alloc, rest, depth);
    }
    if next_is(rest, Mark::Plus) {
        return read_positive(alloc, rest, depth);
    }
    if next_is(rest, Mark::OpenParen) {
        return read_group(alloc, rest, depth);
    }
    if next_is(rest, Mark::Input) {
        return read_input(rest);
    }
    if let Some(literal) = next_literal(rest) {
        let unary = Unary::Literal(literal.number_type, literal.value);
        return Ok((unary, tail(rest)));
    }
    let (name, after) = read_name(alloc, rest)?;
    read_named(alloc, name, after, depth)
}

/// The element or the variable whose name was read.
#[cycle(expression)]
pub fn read_named(
    alloc: Global,
    name: Identifier,
    rest: &[Token],
    depth: usize,
) -> Result<(Unary, &[Token]), Stopped>
    ensures shorter { IfOk result (λ r. length r.1.now ≤ length rest.now) }
    ensures gives { ParsesAs (λ r. (unary_view r.0, r.1.now)) result
        (named_unary (index_at depth) name rest.now) }
{
    if next_is(rest, Mark::OpenBracket) {
        let (index, closed) = read_index(alloc, rest, depth)?;
        return Ok((Unary::Element(name, Box::new(alloc, index)?), closed));
    }
    Ok((Unary::Variable(name), rest))
}

/// An index, with its brackets.
#[cycle(expression)]
pub fn read_index(alloc: Global, rest: &[Token], depth: usize) -> Result<(Expr, &[Token]), Stopped>
    ensures shorter { IfOk result (λ r. length r.1.now ≤ length rest.now) }
    ensures gives { ParsesAs (λ r. (expr_view r.0, r.1.now)) result (index_at depth rest.now) }
{
    if depth == 0 {
        return stop(Cause::TooDeep, rest);
    }
    let opened = expect(rest, Mark::OpenBracket)?;
    let (expr, after) = read_expr(alloc, opened, depth - 1)?;
    let closed = expect(after, Mark::CloseBracket)?;
    Ok((expr, closed))
}

#[cycle(expression)]
fn read_negated(alloc: Global, rest: &[Token], depth: usize) -> Result<(Unary, &[Token]), Stopped>
    ensures shorter { IfOk result (λ r. length r.1.now ≤ length rest.now) }
    ensures gives { ParsesAs (λ r. (unary_view r.0, r.1.now)) result (negated_at depth rest.now) }
{
    if depth == 0 {
        return stop(Cause::TooDeep, rest);
    }
    let sign = expect(rest, Mark::Minus)?;
    let (unary, after) = read_unary(alloc, sign, depth - 1)?;
    Ok((Unary::Negated(Box::new(alloc, unary)?), after))
}

#[cycle(expression)]
fn read_positive(alloc: Global, rest: &[Token], depth: usize) -> Result<(Unary, &[Token]), Stopped>
    ensures shorter { IfOk result (λ r. length r.1.now ≤ length rest.now) }
    ensures gives { ParsesAs (λ r. (unary_view r.0, r.1.now)) result (positive_at depth rest.now) }
{
    if depth == 0 {
        return stop(Cause::TooDeep, rest);
    }
    let sign = expect(rest, Mark::Plus)?;
    let (unary, after) = read_unary(alloc, sign, depth - 1)?;
    Ok((Unary::Positive(Box::new(alloc, unary)?), after))
}

#[cycle(expression)]
fn read_group(alloc: Global, rest: &[Token], depth: usize) -> Result<(Unary, &[Token]), Stopped>
    ensures shorter { IfOk result (λ r. length r.1.now ≤ length rest.now) }
    ensures gives { ParsesAs (λ r. (unary_view r.0, r.1.now)) result (grouped_at depth rest.now) }
{
    if depth == 0 {
        return stop(Cause::TooDeep, rest);
    }
    let opened = expect(rest, Mark::OpenParen)?;
    let (expr, after) = read_expr(alloc, opened, depth - 1)?;
    let closed = expect(after, Mark::CloseParen)?;
    Ok((Unary::Group(Box::new(alloc, expr)?), closed))
}

/// The term that begins with a unary, whose further factors come next.
#[cycle(expression)]
pub fn read_factors(
    alloc: Global,
    first: Unary,
    rest: &[Token],
    depth: usize,
) -> Result<(Term, &[Token]), Stopped>
    ensures shorter { IfOk result (λ r. length r.1.now ≤ length rest.now) }
    ensures gives { ParsesAs (λ r. (term_view r.0, r.1.now)) result
        (factors (unary_at depth) (unary (unary_view first)) rest.now) }
{
    let mut left = rest;
    let mut factors = Vec::new(alloc);
    'factors: while let Some(operator) = factor_operator(left) {
        let (unary, after) = read_unary(alloc, tail(left), depth)?;
        factors.push(Factor { operator, unary })?;
        left = after;
    }
    Ok((
        Term {
            first,
            rest: factors,
        },
        left,
    ))
}

#[cycle(expression)]
fn read_term(alloc: Global, rest: &[Token], depth: usize) -> Result<(Term, &[Token]), Stopped>
    ensures shorter { IfOk result (λ r. length r.1.now ≤ length rest.now) }
    ensures gives { ParsesAs (λ r. (term_view r.0, r.1.now)) result (term_of (unary_at depth) rest.now) }
{
    let (first, after) = read_unary(alloc, rest, depth)?;
    read_factors(alloc, first, after, depth)
}

/// The expression that begins with a term, whose further terms come next.
#[cycle(expression)]
pub fn read_summands(
    alloc: Global,
    first: Term,
    rest: &[Token],
    depth: usize,
) -> Result<(Expr, &[Token]), Stopped>
    ensures shorter { IfOk result (λ r. length r.1.now ≤ length rest.now) }
    ensures gives { ParsesAs (λ r. (expr_view r.0, r.1.now)) result
        (summands (unary_at depth) (term (term_view first)) rest.now) }
{
    let mut left = rest;
    let mut summands = Vec::new(alloc);
    'summands: while let Some(operator) = sum_operator(left) {
        let (term, after) = read_term(alloc, tail(left), depth)?;
        summands.push(Summand { operator, term })?;
        left = after;
    }
    Ok((
        Expr {
            first,
            rest: summands,
        },
        left,
    ))
}

/// An expression.
#[cycle(expression)]
pub fn read_expr(alloc: Global, rest: &[Token], depth: usize) -> Result<(Expr, &[Token]), Stopped>
    ensures shorter { IfOk result (λ r. length r.1.now ≤ length rest.now) }
    ensures gives { ParsesAs (λ r. (expr_view r.0, r.1.now)) result (expr_at depth rest.now) }
{
    let (first, after) = read_term(alloc, rest, depth)?;
    read_summands(alloc, first, after, depth)
}
