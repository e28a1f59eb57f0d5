//! Calls, and what a variable gets or a `return` gives. A function reads if `depth` levels of nesting are left.

ghost use Rattle.std.specs.Prelude.{◌≡◌, ◌<◌, ◌≤◌, [], ◌∷◌, length, map, IfOk};
ghost use Rattle.lra_syntax.specs.Views.{expr_view, call_view, rvalue_view};
ghost use Rattle.lra_parser_spec.specs.Statements.{commas, listed, arguments_at, call_rest, rvalue_rest, rvalue_at};
ghost use Rattle.lra_parser_spec.specs.{Expressions.expr_at, Reading.ParsesAs, Reading.map_read};

use crate::expressions::{read_expr, read_factors, read_named, read_summands};
use lra_parser_spec::{Stopped, expect, next_is, next_is_name, read_name, tail};
use lra_syntax::{Arguments, Call, Expr, Identifier, Mark, Rvalue, Token};
use std::alloc::{AllocError, Global};

/// The list of this expression.
fn start_list(alloc: Global, first: Expr) -> Result<Vec<Expr>, AllocError>
    ensures { IfOk result (λ v. v.items ≡ first ∷ []) }
{
    let mut items = Vec::new(alloc);
    items.push(first)?;
    Ok(items)
}

/// Expressions with commas between them.
fn read_many(alloc: Global, rest: &[Token], depth: usize) -> Result<(Arguments, &[Token]), Stopped>
    ensures shorter { IfOk result (λ r. length r.1.now ≤ length rest.now) }
    ensures gives { ParsesAs (λ r. (map expr_view r.0.items.items, r.1.now)) result
        (map_read listed (commas (expr_at depth)) rest.now) }
{
    let (first, mut left) = read_expr(alloc, rest, depth)?;
    let mut items = start_list(alloc, first)?;
    'many: while next_is(left, Mark::Comma) {
        let (expr, after) = read_expr(alloc, tail(left), depth)?;
        items.push(expr)?;
        left = after;
    }
    Ok((Arguments { items }, left))
}

/// The arguments of a call, after the opening parenthesis, with the closing one.
fn read_arguments(
    alloc: Global,
    rest: &[Token],
    depth: usize,
) -> Result<(Arguments, &[Token]), Stopped>
    ensures shorter { IfOk result (λ r. length r.1.now ≤ length rest.now) }
    ensures gives { ParsesAs (λ r. (map expr_view r.0.items.items, r.1.now)) result (arguments_at depth rest.now) }
{
    if next_is(rest, Mark::CloseParen) {
        let after = expect(rest, Mark::CloseParen)?;
        let items = Vec::new(alloc);
        return Ok((Arguments { items }, after));
    }
    let (arguments, behind) = read_many(alloc, rest, depth)?;
    let closed = expect(behind, Mark::CloseParen)?;
    Ok((arguments, closed))
}

/// A call, after the name of the function.
pub fn read_call(
    alloc: Global,
    name: Identifier,
    rest: &[Token],
    depth: usize,
) -> Result<(Call, &[Token]), Stopped>
    ensures shorter { IfOk result (λ r. length r.1.now < length rest.now) }
    ensures gives { ParsesAs (λ r. (call_view r.0, r.1.now)) result
        (call_rest depth name rest.now) }
{
    let opened = expect(rest, Mark::OpenParen)?;
    let (arguments, after) = read_arguments(alloc, opened, depth)?;
    Ok((Call { name, arguments }, after))
}

/// A call, or an expression, after the name that it begins with.
fn read_rvalue_rest(
    alloc: Global,
    name: Identifier,
    rest: &[Token],
    depth: usize,
) -> Result<(Rvalue, &[Token]), Stopped>
    ensures shorter { IfOk result (λ r. length r.1.now ≤ length rest.now) }
    ensures gives { ParsesAs (λ r. (rvalue_view r.0, r.1.now)) result (rvalue_rest depth name rest.now) }
{
    if next_is(rest, Mark::OpenParen) {
        let (call, closed) = read_call(alloc, name, rest, depth)?;
        return Ok((Rvalue::Result(call), closed));
    }
    let (unary, named) = read_named(alloc, name, rest, depth)?;
    let (term, behind) = read_factors(alloc, unary, named, depth)?;
    let (expr, after) = read_summands(alloc, term, behind, depth)?;
    Ok((Rvalue::Value(expr), after))
}

/// What a variable gets, or a `return` gives: a call or an expression.
pub fn read_rvalue(
    alloc: Global,
    rest: &[Token],
    depth: usize,
) -> Result<(Rvalue, &[Token]), Stopped>
    ensures shorter { IfOk result (λ r. length r.1.now ≤ length rest.now) }
    ensures gives { ParsesAs (λ r. (rvalue_view r.0, r.1.now)) result (rvalue_at depth rest.now) }
{
    if next_is_name(rest) {
        let (name, behind) = read_name(alloc, rest)?;
        return read_rvalue_rest(alloc, name, behind, depth);
    }
    let (expr, after) = read_expr(alloc, rest, depth)?;
    Ok((Rvalue::Value(expr), after))
}
