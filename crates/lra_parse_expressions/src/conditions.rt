//! Conditions. A function reads if `depth` levels of nesting are left.
//! What is read after a parenthesis stands in boxes, so that a level takes little of the stack.

ghost use Rattle.std.specs.Prelude.{◌≡◌, ◌≤◌, length, map, IfOk, MatchResult};
ghost use Rattle.lra_syntax.specs.Trees.{test, conjunction, group_of, opposite, opposite_again};
ghost use Rattle.lra_syntax.specs.Views.{all_tests, any_conjunction, expr_view, test_view, negation_view};
ghost use Rattle.lra_syntax.specs.Views.{conjunction_view, cond_view};
ghost use Rattle.lra_parser_spec.specs.Expressions.{next_comparison, unary_at, expr_at, compared, alone, after_group};
ghost use Rattle.lra_parser_spec.specs.Expressions.{opposed_at, closed_at, test_at, negation_at, negation_of};
ghost use Rattle.lra_parser_spec.specs.Expressions.{conjunction_at, cond_at};
ghost use Rattle.lra_parser_spec.specs.{Reading.ParsesAs, Reading.seq, Tests.first};

use crate::expressions::{read_expr, read_factors, read_summands, read_unary};
use lra_base::{Cause, Comparison};
use lra_parser_spec::{Stopped, expect, next_is, push_boxed, stop, tail};
use lra_syntax::{Cond, Conjunction, Expr, Mark, Negation, Test, Token, Unary};
use std::alloc::{AllocError, Global};

/// The comparison that the next token is.
fn next_comparison(rest: &[Token]) -> Option<Comparison>
    ensures { result ≡ next_comparison (first rest.now) }
{
    if next_is(rest, Mark::Less) {
        Some(Comparison::Below)
    } else if next_is(rest, Mark::AtMost) {
        Some(Comparison::AtMost)
    } else if next_is(rest, Mark::Greater) {
        Some(Comparison::Above)
    } else if next_is(rest, Mark::AtLeast) {
        Some(Comparison::AtLeast)
    } else if next_is(rest, Mark::Equal) {
        Some(Comparison::Equal)
    } else if next_is(rest, Mark::Differs) {
        Some(Comparison::Differs)
    } else {
        None
    }
}

/// The condition of these parts.
fn build_cond(first: Test, tests: Vec<Test>, rest: Vec<Conjunction>) -> Cond
    ensures { cond_view result ≡ any_conjunction (conjunction
        (all_tests (test (test_view first)) (map test_view tests.items))) (map conjunction_view rest.items) }
{
    Cond {
        first: Conjunction { first, rest: tests },
        rest,
    }
}

/// The expression that a condition is alone, or else the condition.
fn take_value(cond: Cond) -> Result<Expr, Cond>
    ensures { MatchResult result (λ e. alone (cond_view cond) ≡ Some (expr_view e))
        (λ c. (cond_view c ≡ cond_view cond) × (alone (cond_view cond) ≡ None)) }
{
    let (first, rest) = cond.into_parts();
    let (test, tests) = first.into_parts();
    if !rest.is_empty() {
        return Err(build_cond(test, tests, rest));
    }
    if !tests.is_empty() {
        return Err(build_cond(test, tests, rest));
    }
    match test.into_value() {
        Ok(expr) => Ok(expr),
        Err(other) => Err(build_cond(other, tests, rest)),
    }
}

/// The test that begins with an expression, which may be compared.
fn read_compared(
    alloc: Global,
    left: Expr,
    rest: &[Token],
    depth: usize,
) -> Result<(Box<Test>, &[Token]), Stopped>
    ensures shorter { IfOk result (λ r. length r.1.now ≤ length rest.now) }
    ensures gives { ParsesAs (λ r. (test_view r.0.value, r.1.now)) result
        (compared (unary_at depth) (expr_view left) rest.now) }
{
    match next_comparison(rest) {
        Some(comparison) => {
            let (right, after) = read_expr(alloc, tail(rest), depth)?;
            let test = Box::new(alloc, Test::Compare(left, comparison, right))?;
            Ok((test, after))
        }
        None => {
            let test = Box::new(alloc, Test::Value(left))?;
            Ok((test, rest))
        }
    }
}

/// The test that is a condition in parentheses.
fn box_group(alloc: Global, cond: Cond) -> Result<Box<Test>, AllocError>
    ensures { IfOk result (λ test. test_view test.value ≡ group_of (cond_view cond)) }
{
    let group = Test::Group(Box::new(alloc, cond)?);
    Ok(Box::new(alloc, group)?)
}

/// The test that begins with a condition in parentheses: an expression goes on if the condition is one.
#[inline(never)]
fn read_after_group(
    alloc: Global,
    cond: Box<Cond>,
    rest: &[Token],
    depth: usize,
) -> Result<(Box<Test>, &[Token]), Stopped>
    ensures shorter { IfOk result (λ r. length r.1.now ≤ length rest.now) }
    ensures gives { ParsesAs (λ r. (test_view r.0.value, r.1.now)) result
        (after_group (unary_at depth) (cond_view cond.value) rest.now) }
{
    match take_value(Box::into_inner(cond)) {
        Ok(expr) => {
            let unary = Unary::Group(Box::new(alloc, expr)?);
            let (term, factors) = read_factors(alloc, unary, rest, depth)?;
            let (expr, summands) = read_summands(alloc, term, factors, depth)?;
            read_compared(alloc, expr, summands, depth)
        }
        Err(cond) => {
            let test = box_group(alloc, cond)?;
            Ok((test, rest))
        }
    }
}

/// The test that begins with an expression outside parentheses.
#[inline(never)]
fn read_value(alloc: Global, rest: &[Token], depth: usize) -> Result<(Box<Test>, &[Token]), Stopped>
    ensures shorter { IfOk result (λ r. length r.1.now ≤ length rest.now) }
    ensures gives { ParsesAs (λ r. (test_view r.0.value, r.1.now)) result
        (seq (expr_at depth) (compared (unary_at depth)) rest.now) }
{
    let (expr, after) = read_expr(alloc, rest, depth)?;
    read_compared(alloc, expr, after, depth)
}

/// The test that is what `!` stands before, turned round.
#[inline(never)]
fn oppose(alloc: Global, negation: Negation) -> Result<Box<Test>, AllocError>
    ensures { IfOk result (λ test. test_view test.value ≡ opposite (negation_view negation)) }
{
    Ok(Box::new(alloc, Test::Opposite(negation))?)
}

/// The conjunction of these tests.
#[inline(never)]
fn build_conjunction(
    alloc: Global,
    first: Box<Test>,
    rest: Vec<Test>,
) -> Result<Box<Conjunction>, AllocError>
    ensures { IfOk result (λ conjunction. conjunction_view conjunction.value ≡
        all_tests (test (test_view first.value)) (map test_view rest.items)) }
{
    let first = Box::into_inner(first);
    Ok(Box::new(alloc, Conjunction { first, rest })?)
}

/// The condition of these conjunctions.
#[inline(never)]
fn build_disjunction(
    alloc: Global,
    first: Box<Conjunction>,
    rest: Vec<Conjunction>,
) -> Result<Box<Cond>, AllocError>
    ensures { IfOk result (λ cond. cond_view cond.value ≡
        any_conjunction (conjunction (conjunction_view first.value)) (map conjunction_view rest.items)) }
{
    let first = Box::into_inner(first);
    Ok(Box::new(alloc, Cond { first, rest })?)
}

/// What `!` stands before, if it is another `!`, and the text after it.
fn oppose_again(
    alloc: Global,
    negation: Negation,
    rest: &[Token],
) -> Result<(Negation, &[Token]), Stopped>
    ensures { MatchResult result (λ r. (negation_view r.0 ≡ opposite_again (negation_view negation)) ×
        (r.1.now ≡ rest.now)) (λ e. e ≡ Stopped.Memory) }
{
    Ok((Negation::Again(Box::new(alloc, negation)?), rest))
}

/// What `!` stands before, if it is a condition in parentheses, and the text after them.
#[inline(never)]
fn oppose_group(
    alloc: Global,
    cond: Box<Cond>,
    rest: &[Token],
) -> Result<(Negation, &[Token]), Stopped>
    ensures { MatchResult result (λ r. (negation_view r.0 ≡ negation_of (cond_view cond.value)) × (r.1.now ≡ rest.now))
        (λ e. e ≡ Stopped.Memory) }
{
    match take_value(Box::into_inner(cond)) {
        Ok(expr) => {
            let grouped = Unary::Group(Box::new(alloc, expr)?);
            Ok((Negation::Operand(grouped), rest))
        }
        Err(cond) => Ok((Negation::Strict(Box::new(alloc, cond)?), rest)),
    }
}

/// `!`, and what it stands before.
#[cycle(condition)]
fn read_opposed(
    alloc: Global,
    rest: &[Token],
    depth: usize,
) -> Result<(Negation, &[Token]), Stopped>
    ensures shorter { IfOk result (λ r. length r.1.now ≤ length rest.now) }
    ensures gives { ParsesAs (λ r. (negation_view r.0, r.1.now)) result
        (opposed_at depth rest.now) }
{
    if depth == 0 {
        return stop(Cause::TooDeep, rest);
    }
    let sign = expect(rest, Mark::Not)?;
    read_negation(alloc, sign, depth - 1)
}

/// A condition in parentheses that open a level.
#[cycle(condition)]
fn read_closed(
    alloc: Global,
    rest: &[Token],
    depth: usize,
) -> Result<(Box<Cond>, &[Token]), Stopped>
    ensures shorter { IfOk result (λ r. length r.1.now ≤ length rest.now) }
    ensures gives { ParsesAs (λ r. (cond_view r.0.value, r.1.now)) result
        (closed_at depth rest.now) }
{
    if depth == 0 {
        return stop(Cause::TooDeep, rest);
    }
    let opened = expect(rest, Mark::OpenParen)?;
    let (cond, after) = read_disjunction(alloc, opened, depth - 1)?;
    let closed = expect(after, Mark::CloseParen)?;
    Ok((cond, closed))
}

#[cycle(condition)]
fn read_negation(
    alloc: Global,
    rest: &[Token],
    depth: usize,
) -> Result<(Negation, &[Token]), Stopped>
    ensures shorter { IfOk result (λ r. length r.1.now ≤ length rest.now) }
    ensures gives { ParsesAs (λ r. (negation_view r.0, r.1.now)) result
        (negation_at depth rest.now) }
{
    if next_is(rest, Mark::Not) {
        let (negation, after) = read_opposed(alloc, rest, depth)?;
        return oppose_again(alloc, negation, after);
    }
    if next_is(rest, Mark::OpenParen) {
        let (cond, closed) = read_closed(alloc, rest, depth)?;
        return oppose_group(alloc, cond, closed);
    }
    let (unary, behind) = read_unary(alloc, rest, depth)?;
    Ok((Negation::Operand(unary), behind))
}

#[cycle(condition)]
fn read_test(alloc: Global, rest: &[Token], depth: usize) -> Result<(Box<Test>, &[Token]), Stopped>
    ensures shorter { IfOk result (λ r. length r.1.now ≤ length rest.now) }
    ensures gives { ParsesAs (λ r. (test_view r.0.value, r.1.now)) result (test_at depth rest.now) }
{
    if next_is(rest, Mark::Not) {
        let (negation, after) = read_opposed(alloc, rest, depth)?;
        let test = oppose(alloc, negation)?;
        return Ok((test, after));
    }
    if next_is(rest, Mark::OpenParen) {
        let (cond, after) = read_closed(alloc, rest, depth)?;
        return read_after_group(alloc, cond, after, depth);
    }
    read_value(alloc, rest, depth)
}

#[cycle(condition)]
fn read_conjunction(
    alloc: Global,
    rest: &[Token],
    depth: usize,
) -> Result<(Box<Conjunction>, &[Token]), Stopped>
    ensures shorter { IfOk result (λ r. length r.1.now ≤ length rest.now) }
    ensures gives { ParsesAs (λ r. (conjunction_view r.0.value, r.1.now)) result (conjunction_at depth rest.now) }
{
    let (first, mut left) = read_test(alloc, rest, depth)?;
    let mut tests = Vec::new(alloc);
    'tests: while next_is(left, Mark::And) {
        let (test, after) = read_test(alloc, tail(left), depth)?;
        push_boxed(&mut tests, test)?;
        left = after;
    }
    let conjunction = build_conjunction(alloc, first, tests)?;
    Ok((conjunction, left))
}

#[cycle(condition)]
fn read_disjunction(
    alloc: Global,
    rest: &[Token],
    depth: usize,
) -> Result<(Box<Cond>, &[Token]), Stopped>
    ensures shorter { IfOk result (λ r. length r.1.now ≤ length rest.now) }
    ensures gives { ParsesAs (λ r. (cond_view r.0.value, r.1.now)) result (cond_at depth rest.now) }
{
    let (first, mut left) = read_conjunction(alloc, rest, depth)?;
    let mut conjunctions = Vec::new(alloc);
    'conjunctions: while next_is(left, Mark::Or) {
        let (conjunction, after) = read_conjunction(alloc, tail(left), depth)?;
        push_boxed(&mut conjunctions, conjunction)?;
        left = after;
    }
    let cond = build_disjunction(alloc, first, conjunctions)?;
    Ok((cond, left))
}

/// A condition.
pub fn read_cond(alloc: Global, rest: &[Token], depth: usize) -> Result<(Cond, &[Token]), Stopped>
    ensures shorter { IfOk result (λ r. length r.1.now ≤ length rest.now) }
    ensures gives { ParsesAs (λ r. (cond_view r.0, r.1.now)) result (cond_at depth rest.now) }
{
    let (cond, after) = read_disjunction(alloc, rest, depth)?;
    Ok((Box::into_inner(cond), after))
}
