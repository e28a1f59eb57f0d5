//! Statements that are no block, as far as what opens a level. A function reads if `depth` levels of nesting are
//! left.

ghost use Rattle.std.specs.Prelude.{◌≡◌, ◌<◌, false, length, IfOk};
ghost use Rattle.lra_syntax.specs.declared.tokens.Mark.TheVariants.{Assert, Assume, If, While, For, Switch};
ghost use Rattle.lra_syntax.specs.{Trees.assert, Trees.assume, Views.stmt_view};
ghost use Rattle.lra_parser_spec.specs.Statements.{stmt_mark, begins_stmt, read_nothing, named_rest, read_assigned};
ghost use Rattle.lra_parser_spec.specs.Statements.{read_check, simple_at};
ghost use Rattle.lra_parser_spec.specs.{Reading.ParsesAs, Reading.has, Tests.first, Tests.is_mark};
ghost use Rattle.lra_parse_heads.specs.Begun.{GoesOn, begun_rest};

use lra_parse_expressions::{next_step, read_assign, read_assign_rest, read_call};
use lra_parse_heads::{
    Begun, begin_for, begin_if, begin_switch, begin_while, begin_whole, begins_jump, begins_loop,
    read_break, read_continue, read_parens, read_return,
};
use lra_parser_spec::{Stopped, expect, expect_at, next_is, next_is_name, read_name};
use lra_syntax::{Identifier, Mark, Stmt, Token};
use std::alloc::Global;

// Whether the next token is a mark that begins a statement which is no block, no assignment and no call.
fn begins_simple(rest: &[Token]) -> bool
    ensures { result ≡ has (stmt_mark (first rest.now)) }
{
    if next_is(rest, Mark::Semicolon) {
        return true;
    }
    if next_is(rest, Mark::If) {
        return true;
    }
    if begins_loop(rest) {
        return true;
    }
    if begins_jump(rest) {
        return true;
    }
    if next_is(rest, Mark::Assert) {
        return true;
    }
    if next_is(rest, Mark::Assume) {
        return true;
    }
    next_is(rest, Mark::Switch)
}

/// Whether the next token begins a statement.
pub fn begins_stmt(rest: &[Token]) -> bool
    ensures { result ≡ begins_stmt (first rest.now) }
{
    if next_is(rest, Mark::OpenBrace) {
        return true;
    }
    if begins_simple(rest) {
        return true;
    }
    if next_step(rest).is_some() {
        return true;
    }
    next_is_name(rest)
}

/// `;`
fn read_nothing(rest: &[Token]) -> Result<(Stmt, &[Token]), Stopped>
    ensures shorter { IfOk result (λ r. length r.1.now < length rest.now) }
    ensures gives { ParsesAs (λ r. (stmt_view r.0, r.1.now)) result (read_nothing rest.now) }
{
    let (place, after) = expect_at(rest, Mark::Semicolon)?;
    Ok((Stmt::Nothing(place), after))
}

/// A call or an assignment with its semicolon, after the name that it begins with.
fn read_named(
    alloc: Global,
    name: Identifier,
    rest: &[Token],
    depth: usize,
) -> Result<(Stmt, &[Token]), Stopped>
    ensures shorter { IfOk result (λ r. length r.1.now < length rest.now) }
    ensures gives { ParsesAs (λ r. (stmt_view r.0, r.1.now)) result
        (named_rest depth name rest.now) }
{
    if next_is(rest, Mark::OpenParen) {
        let (call, closed) = read_call(alloc, name, rest, depth)?;
        let behind = expect(closed, Mark::Semicolon)?;
        return Ok((Stmt::Call(call), behind));
    }
    let (assign, end) = read_assign_rest(alloc, name, rest, depth)?;
    let after = expect(end, Mark::Semicolon)?;
    Ok((Stmt::Assign(assign), after))
}

/// An assignment or a call, with its semicolon.
fn read_assigned(alloc: Global, rest: &[Token], depth: usize) -> Result<(Stmt, &[Token]), Stopped>
    ensures shorter { IfOk result (λ r. length r.1.now < length rest.now) }
    ensures gives { ParsesAs (λ r. (stmt_view r.0, r.1.now)) result (read_assigned depth rest.now) }
{
    if next_is_name(rest) {
        let (name, behind) = read_name(alloc, rest)?;
        return read_named(alloc, name, behind, depth);
    }
    let (assign, end) = read_assign(alloc, rest, depth)?;
    let after = expect(end, Mark::Semicolon)?;
    Ok((Stmt::Assign(assign), after))
}

/// `assert(..);`
fn read_assert(alloc: Global, rest: &[Token], depth: usize) -> Result<(Stmt, &[Token]), Stopped>
    ensures shorter { IfOk result (λ r. length r.1.now < length rest.now) }
    ensures gives { ParsesAs (λ r. (stmt_view r.0, r.1.now)) result (read_check depth Assert assert rest.now) }
{
    let (place, word) = expect_at(rest, Mark::Assert)?;
    let (cond, closed) = read_parens(alloc, word, depth)?;
    let after = expect(closed, Mark::Semicolon)?;
    Ok((Stmt::Assert(place, cond), after))
}

/// `assume(..);`
fn read_assume(alloc: Global, rest: &[Token], depth: usize) -> Result<(Stmt, &[Token]), Stopped>
    ensures shorter { IfOk result (λ r. length r.1.now < length rest.now) }
    ensures gives { ParsesAs (λ r. (stmt_view r.0, r.1.now)) result (read_check depth Assume assume rest.now) }
{
    let (place, word) = expect_at(rest, Mark::Assume)?;
    let (cond, closed) = read_parens(alloc, word, depth)?;
    let after = expect(closed, Mark::Semicolon)?;
    Ok((Stmt::Assume(place, cond), after))
}

/// A statement without branches that is no block.
fn read_leaf(alloc: Global, rest: &[Token], depth: usize) -> Result<(Stmt, &[Token]), Stopped>
    requires no_if { false ≡ is_mark If (first rest.now) }
    requires no_while { false ≡ is_mark While (first rest.now) }
    requires no_for { false ≡ is_mark For (first rest.now) }
    requires no_switch { false ≡ is_mark Switch (first rest.now) }
    ensures shorter { IfOk result (λ r. length r.1.now < length rest.now) }
    ensures gives { ParsesAs (λ r. (stmt_view r.0, r.1.now)) result (simple_at depth rest.now) }
{
    if next_is(rest, Mark::Semicolon) {
        return read_nothing(rest);
    }
    if next_is(rest, Mark::Break) {
        return read_break(rest);
    }
    if next_is(rest, Mark::Continue) {
        return read_continue(rest);
    }
    if next_is(rest, Mark::Return) {
        return read_return(alloc, rest, depth);
    }
    if next_is(rest, Mark::Assert) {
        return read_assert(alloc, rest, depth);
    }
    if next_is(rest, Mark::Assume) {
        return read_assume(alloc, rest, depth);
    }
    read_assigned(alloc, rest, depth)
}

/// A statement that is no block: whole, or up to its branch or its braces.
#[inline(never)]
pub fn begin_simple(
    alloc: Global,
    rest: &[Token],
    depth: usize,
) -> Result<(Begun, &[Token]), Stopped>
    ensures shorter { IfOk result (λ r. length r.1.now < length rest.now) }
    ensures gives { GoesOn (λ r. begun_rest depth r.0 r.1.now) result (simple_at depth rest.now) }
{
    if next_is(rest, Mark::If) {
        return begin_if(alloc, rest, depth);
    }
    if next_is(rest, Mark::While) {
        return begin_while(alloc, rest, depth);
    }
    if next_is(rest, Mark::For) {
        return begin_for(alloc, rest, depth);
    }
    if next_is(rest, Mark::Switch) {
        return begin_switch(alloc, rest, depth);
    }
    let (stmt, after) = read_leaf(alloc, rest, depth)?;
    let begun = begin_whole(alloc, stmt)?;
    Ok((begun, after))
}
