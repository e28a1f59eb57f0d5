//! Assignments and declarations. A function reads if `depth` levels of nesting are left.

ghost use Rattle.std.specs.Prelude.{◌≡◌, ◌<◌, ◌≤◌, length, IfOk};
ghost use Rattle.lra_syntax.specs.Views.{rvalue_view, assign_view, shape_view, declarator_view, declaration_view};
ghost use Rattle.lra_parser_spec.specs.Statements.{skip, commas, update_operator, next_step, variable_rest};
ghost use Rattle.lra_parser_spec.specs.Statements.{element_rest, assign_rest, step_first, assign_at, begins_type};
ghost use Rattle.lra_parser_spec.specs.Statements.{type_words, length_at, rvalue_at, shape_at, declarator_at};
ghost use Rattle.lra_parser_spec.specs.{Expressions.index_at, Reading.ParsesAs, Reading.seq, Reading.map_read};
ghost use Rattle.lra_parser_spec.specs.{Statements.declaration_of, Statements.declaration_at, Tests.first};

use crate::calls::read_rvalue;
use crate::expressions::{read_expr, read_index};
use lra_base::{Cause, NumberType, Operator, Place};
use lra_parser_spec::{Stopped, expect, next_is, next_literal, read_name, stop, tail};
use lra_syntax::{
    ArrayLength, Assign, Declaration, Declarator, Identifier, Mark, Rvalue, ScalarOrArray, Step,
    Token,
};
use std::alloc::Global;

/// The operator of `x op= e`, if it is the next token.
fn update_operator(rest: &[Token]) -> Option<Operator>
    ensures { result ≡ update_operator (first rest.now) }
{
    if next_is(rest, Mark::PlusAssign) {
        Some(Operator::Plus)
    } else if next_is(rest, Mark::MinusAssign) {
        Some(Operator::Minus)
    } else if next_is(rest, Mark::StarAssign) {
        Some(Operator::Times)
    } else if next_is(rest, Mark::SlashAssign) {
        Some(Operator::Over)
    } else if next_is(rest, Mark::PercentAssign) {
        Some(Operator::Modulo)
    } else {
        None
    }
}

/// `++` or `--`, with its place, if it is the next token.
pub fn next_step(rest: &[Token]) -> Option<(Step, Place)>
    ensures { result ≡ next_step (first rest.now) }
{
    if next_is(rest, Mark::Increment) {
        Some((Step::Increment, rest[0].place))
    } else if next_is(rest, Mark::Decrement) {
        Some((Step::Decrement, rest[0].place))
    } else {
        None
    }
}

/// What comes after the mark, if it is the next token, or else all.
fn skip(rest: &[Token], mark: Mark) -> &[Token]
    ensures shorter { length result.now ≤ length rest.now }
    ensures value { result.now ≡ skip mark rest.now }
{
    if next_is(rest, mark) {
        tail(rest)
    } else {
        rest
    }
}

/// `++x` or `--x`
fn read_step_first(alloc: Global, rest: &[Token]) -> Result<(Assign, &[Token]), Stopped>
    ensures shorter { IfOk result (λ r. length r.1.now < length rest.now) }
    ensures gives { ParsesAs (λ r. (assign_view r.0, r.1.now)) result (step_first rest.now) }
{
    match next_step(rest) {
        Some((step, place)) => {
            let (name, after) = read_name(alloc, tail(rest))?;
            Ok((Assign::Before(place, step, name), after))
        }
        None => stop(Cause::Syntax, rest),
    }
}

/// The assignment to an element of the array whose name was read.
fn read_element_rest(
    alloc: Global,
    name: Identifier,
    rest: &[Token],
    depth: usize,
) -> Result<(Assign, &[Token]), Stopped>
    ensures shorter { IfOk result (λ r. length r.1.now < length rest.now) }
    ensures gives { ParsesAs (λ r. (assign_view r.0, r.1.now)) result
        (seq (index_at depth) (element_rest depth name) rest.now) }
{
    let (index, behind) = read_index(alloc, rest, depth)?;
    let opened = expect(behind, Mark::Assign)?;
    let (rvalue, after) = read_rvalue(alloc, opened, depth)?;
    Ok((Assign::SetElement(name, index, rvalue), after))
}

/// The assignment to a variable whose name was read.
fn read_variable_rest(
    alloc: Global,
    name: Identifier,
    rest: &[Token],
    depth: usize,
) -> Result<(Assign, &[Token]), Stopped>
    ensures shorter { IfOk result (λ r. length r.1.now < length rest.now) }
    ensures gives { ParsesAs (λ r. (assign_view r.0, r.1.now)) result
        (variable_rest depth name rest.now) }
{
    if next_is(rest, Mark::Assign) {
        let (rvalue, after) = read_rvalue(alloc, tail(rest), depth)?;
        return Ok((Assign::Set(name, rvalue), after));
    }
    match update_operator(rest) {
        Some(operator) => {
            let (expr, after) = read_expr(alloc, tail(rest), depth)?;
            Ok((Assign::Update(name, operator, expr), after))
        }
        None => match next_step(rest) {
            Some((step, _place)) => Ok((Assign::After(name, step), tail(rest))),
            None => stop(Cause::Syntax, rest),
        },
    }
}

/// The assignment to what begins with the name that was read.
pub fn read_assign_rest(
    alloc: Global,
    name: Identifier,
    rest: &[Token],
    depth: usize,
) -> Result<(Assign, &[Token]), Stopped>
    ensures shorter { IfOk result (λ r. length r.1.now < length rest.now) }
    ensures gives { ParsesAs (λ r. (assign_view r.0, r.1.now)) result
        (assign_rest depth name rest.now) }
{
    if next_is(rest, Mark::OpenBracket) {
        return read_element_rest(alloc, name, rest, depth);
    }
    read_variable_rest(alloc, name, rest, depth)
}

/// An assignment, without a semicolon.
pub fn read_assign(
    alloc: Global,
    rest: &[Token],
    depth: usize,
) -> Result<(Assign, &[Token]), Stopped>
    ensures shorter { IfOk result (λ r. length r.1.now < length rest.now) }
    ensures gives { ParsesAs (λ r. (assign_view r.0, r.1.now)) result (assign_at depth rest.now) }
{
    if next_step(rest).is_some() {
        return read_step_first(alloc, rest);
    }
    let (name, after) = read_name(alloc, rest)?;
    read_assign_rest(alloc, name, after, depth)
}

/// Whether the next token begins a type.
pub fn next_is_type(rest: &[Token]) -> bool
    ensures { result ≡ begins_type (first rest.now) }
{
    if next_is(rest, Mark::Int) {
        return true;
    }
    next_is(rest, Mark::Long)
}

/// A type, and what comes after its words: `int`; or `long`, maybe `long`, maybe `int`.
#[tactic(auto, using(crate::proofs::Typed::type_rules))]
pub fn read_type(rest: &[Token]) -> Result<(NumberType, &[Token]), Stopped>
    ensures shorter { IfOk result (λ r. length r.1.now < length rest.now) }
    ensures gives { ParsesAs (λ r. (r.0, r.1.now)) result (type_words rest.now) }
{
    if next_is(rest, Mark::Int) {
        let word = expect(rest, Mark::Int)?;
        return Ok((NumberType::Int, word));
    }
    let word = expect(rest, Mark::Long)?;
    Ok((NumberType::Long, skip(skip(word, Mark::Long), Mark::Int)))
}

/// How many elements an array has: a literal in brackets.
pub fn read_length(rest: &[Token]) -> Result<(ArrayLength, &[Token]), Stopped>
    ensures shorter { IfOk result (λ r. length r.1.now ≤ length rest.now) }
    ensures gives { ParsesAs (λ r. (r.0, r.1.now)) result (length_at rest.now) }
{
    let opened = expect(rest, Mark::OpenBracket)?;
    match next_literal(opened) {
        Some(literal) => {
            let closed = expect(tail(opened), Mark::CloseBracket)?;
            let value = literal.value;
            let place = literal.place;
            Ok((ArrayLength { value, place }, closed))
        }
        None => stop(Cause::Syntax, opened),
    }
}

/// What a name is declared as.
fn read_shape(
    alloc: Global,
    rest: &[Token],
    depth: usize,
) -> Result<(ScalarOrArray<Rvalue>, &[Token]), Stopped>
    ensures shorter { IfOk result (λ r. length r.1.now ≤ length rest.now) }
    ensures gives { ParsesAs (λ r. (shape_view rvalue_view r.0, r.1.now)) result
        (shape_at (rvalue_at depth) rest.now) }
{
    if next_is(rest, Mark::OpenBracket) {
        let (elements, closed) = read_length(rest)?;
        return Ok((ScalarOrArray::Array(elements), closed));
    }
    if next_is(rest, Mark::Assign) {
        let (rvalue, after) = read_rvalue(alloc, tail(rest), depth)?;
        return Ok((ScalarOrArray::Scalar(Some(rvalue)), after));
    }
    Ok((ScalarOrArray::Scalar(None), rest))
}

/// A name, and what it is declared as.
fn read_declarator(
    alloc: Global,
    rest: &[Token],
    depth: usize,
) -> Result<(Declarator, &[Token]), Stopped>
    ensures shorter { IfOk result (λ r. length r.1.now ≤ length rest.now) }
    ensures gives { ParsesAs (λ r. (declarator_view r.0, r.1.now)) result (declarator_at depth rest.now) }
{
    let (name, behind) = read_name(alloc, rest)?;
    let (shape, after) = read_shape(alloc, behind, depth)?;
    Ok((Declarator { name, shape }, after))
}

/// Declarators of this type with commas between them.
fn read_declarators(
    alloc: Global,
    number_type: NumberType,
    rest: &[Token],
    depth: usize,
) -> Result<(Declaration, &[Token]), Stopped>
    ensures shorter { IfOk result (λ r. length r.1.now ≤ length rest.now) }
    ensures gives { ParsesAs (λ r. (declaration_view r.0, r.1.now)) result
        (map_read (declaration_of number_type) (commas (declarator_at depth)) rest.now) }
{
    let (first, mut left) = read_declarator(alloc, rest, depth)?;
    let mut declarators = Vec::new(alloc);
    'declarators: while next_is(left, Mark::Comma) {
        let (declarator, after) = read_declarator(alloc, tail(left), depth)?;
        declarators.push(declarator)?;
        left = after;
    }
    Ok((
        Declaration {
            number_type,
            first,
            rest: declarators,
        },
        left,
    ))
}

/// A declaration, with its semicolon.
pub fn read_declaration(
    alloc: Global,
    rest: &[Token],
    depth: usize,
) -> Result<(Declaration, &[Token]), Stopped>
    ensures shorter { IfOk result (λ r. length r.1.now < length rest.now) }
    ensures gives { ParsesAs (λ r. (declaration_view r.0, r.1.now)) result (declaration_at depth rest.now) }
{
    let (number_type, behind) = read_type(rest)?;
    let (declaration, after) = read_declarators(alloc, number_type, behind, depth)?;
    let end = expect(after, Mark::Semicolon)?;
    Ok((declaration, end))
}
