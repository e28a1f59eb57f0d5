//! Heads of loops, and the statements that leave a loop or a function. A function reads if `depth` levels of nesting
//! are left.

ghost use Rattle.std.specs.Prelude.{◌≡◌, ◌<◌, ◌≤◌, length, option_map, IfOk};
ghost use Rattle.lra_syntax.specs.Trees.{break, continue};
ghost use Rattle.lra_syntax.specs.Views.{rvalue_view, assign_view, cond_view, init_view, stmt_view};
ghost use Rattle.lra_syntax.specs.declared.tokens.Mark.TheVariants.{Break, Continue, Semicolon};
ghost use Rattle.lra_parser_spec.specs.Statements.{rvalue_at, assign_at, up_to, init_of, init_at, for_of, for_head_at};
ghost use Rattle.lra_parser_spec.specs.{Expressions.cond_at, Reading.ParsesAs, Statements.read_jump};
ghost use Rattle.lra_parser_spec.specs.{Statements.read_return, Tests.first, Tests.is_loop, Tests.is_jump};
ghost use Rattle.lra_parse_heads.specs.Heads.{head_view};

use lra_base::Place;
use lra_parse_expressions::{next_is_type, read_assign, read_cond, read_declaration, read_rvalue};
use lra_parser_spec::{Stopped, expect, expect_at, next_is, tail};
use lra_syntax::{Assign, Cond, Init, Mark, Rvalue, Stmt, Token};
use std::alloc::Global;

/// What stands in the parentheses of a `for`.
pub struct ForHead {
    pub init: Init,
    pub test: Option<Cond>,
    pub step: Option<Assign>,
}

impl Drop for ForHead {
    fn drop(self) {
        let ForHead {
            init: _,
            test: _,
            step: _,
        } = self;
    }
}

impl ForHead {
    /// The loop with this head.
    pub fn into_stmt(self, place: Place, body: Box<Stmt>) -> Stmt
        ensures { stmt_view result ≡ for_of place (head_view self) (stmt_view body.value) }
    {
        let ForHead { init, test, step } = self;
        Stmt::For(place, init, test, step, body)
    }
}

/// Whether the next token begins a loop.
pub fn begins_loop(rest: &[Token]) -> bool
    ensures { result ≡ is_loop (first rest.now) }
{
    if next_is(rest, Mark::While) {
        return true;
    }
    next_is(rest, Mark::For)
}

/// Whether the next token begins a statement that leaves a loop, a turn of it, or the function.
pub fn begins_jump(rest: &[Token]) -> bool
    ensures { result ≡ is_jump (first rest.now) }
{
    if next_is(rest, Mark::Break) {
        return true;
    }
    if next_is(rest, Mark::Continue) {
        return true;
    }
    next_is(rest, Mark::Return)
}

/// An assignment up to the mark, or the mark alone.
fn read_assign_to(
    alloc: Global,
    rest: &[Token],
    depth: usize,
    mark: Mark,
) -> Result<(Option<Assign>, &[Token]), Stopped>
    ensures shorter { IfOk result (λ r. length r.1.now ≤ length rest.now) }
    ensures gives { ParsesAs (λ r. (option_map assign_view r.0, r.1.now)) result
        (up_to mark (assign_at depth) rest.now) }
{
    if next_is(rest, mark) {
        return Ok((None, tail(rest)));
    }
    let (assign, behind) = read_assign(alloc, rest, depth)?;
    let after = expect(behind, mark)?;
    Ok((Some(assign), after))
}

/// A condition up to the semicolon, or the semicolon alone.
fn read_test_to(
    alloc: Global,
    rest: &[Token],
    depth: usize,
) -> Result<(Option<Cond>, &[Token]), Stopped>
    ensures shorter { IfOk result (λ r. length r.1.now ≤ length rest.now) }
    ensures gives { ParsesAs (λ r. (option_map cond_view r.0, r.1.now)) result
        (up_to Semicolon (cond_at depth) rest.now) }
{
    if next_is(rest, Mark::Semicolon) {
        return Ok((None, tail(rest)));
    }
    let (cond, behind) = read_cond(alloc, rest, depth)?;
    let after = expect(behind, Mark::Semicolon)?;
    Ok((Some(cond), after))
}

/// The assignment that a loop begins with, or nothing.
fn init_of(assign: Option<Assign>) -> Init
    ensures { init_view result ≡ init_of (option_map assign_view assign) }
{
    match assign {
        Some(assign) => Init::Assign(assign),
        None => Init::Nothing,
    }
}

/// What a loop begins with, and the semicolon after it.
fn read_init(alloc: Global, rest: &[Token], depth: usize) -> Result<(Init, &[Token]), Stopped>
    ensures shorter { IfOk result (λ r. length r.1.now ≤ length rest.now) }
    ensures gives { ParsesAs (λ r. (init_view r.0, r.1.now)) result (init_at depth rest.now) }
{
    if next_is_type(rest) {
        let (declaration, after) = read_declaration(alloc, rest, depth)?;
        return Ok((Init::Declaration(declaration), after));
    }
    let (assign, behind) = read_assign_to(alloc, rest, depth, Mark::Semicolon)?;
    Ok((init_of(assign), behind))
}

/// The parentheses of a `for`, and what stands between.
pub fn read_for_head(
    alloc: Global,
    rest: &[Token],
    depth: usize,
) -> Result<(ForHead, &[Token]), Stopped>
    ensures shorter { IfOk result (λ r. length r.1.now < length rest.now) }
    ensures gives { ParsesAs (λ r. (head_view r.0, r.1.now)) result (for_head_at depth rest.now) }
{
    let opened = expect(rest, Mark::OpenParen)?;
    let (init, begun) = read_init(alloc, opened, depth)?;
    let (test, tested) = read_test_to(alloc, begun, depth)?;
    let (step, closed) = read_assign_to(alloc, tested, depth, Mark::CloseParen)?;
    Ok((ForHead { init, test, step }, closed))
}

/// `break;`
pub fn read_break(rest: &[Token]) -> Result<(Stmt, &[Token]), Stopped>
    ensures shorter { IfOk result (λ r. length r.1.now < length rest.now) }
    ensures gives { ParsesAs (λ r. (stmt_view r.0, r.1.now)) result
        (read_jump Break break rest.now) }
{
    let (place, word) = expect_at(rest, Mark::Break)?;
    let after = expect(word, Mark::Semicolon)?;
    Ok((Stmt::Break(place), after))
}

/// `continue;`
pub fn read_continue(rest: &[Token]) -> Result<(Stmt, &[Token]), Stopped>
    ensures shorter { IfOk result (λ r. length r.1.now < length rest.now) }
    ensures gives { ParsesAs (λ r. (stmt_view r.0, r.1.now)) result (read_jump Continue continue rest.now) }
{
    let (place, word) = expect_at(rest, Mark::Continue)?;
    let after = expect(word, Mark::Semicolon)?;
    Ok((Stmt::Continue(place), after))
}

/// What a `return` gives up to the semicolon, or the semicolon alone.
fn read_returned(
    alloc: Global,
    rest: &[Token],
    depth: usize,
) -> Result<(Option<Rvalue>, &[Token]), Stopped>
    ensures shorter { IfOk result (λ r. length r.1.now ≤ length rest.now) }
    ensures gives { ParsesAs (λ r. (option_map rvalue_view r.0, r.1.now)) result
        (up_to Semicolon (rvalue_at depth) rest.now) }
{
    if next_is(rest, Mark::Semicolon) {
        return Ok((None, tail(rest)));
    }
    let (rvalue, behind) = read_rvalue(alloc, rest, depth)?;
    let end = expect(behind, Mark::Semicolon)?;
    Ok((Some(rvalue), end))
}

/// `return;`, or with what it gives.
pub fn read_return(alloc: Global, rest: &[Token], depth: usize) -> Result<(Stmt, &[Token]), Stopped>
    ensures shorter { IfOk result (λ r. length r.1.now < length rest.now) }
    ensures gives { ParsesAs (λ r. (stmt_view r.0, r.1.now)) result (read_return depth rest.now) }
{
    let (place, word) = expect_at(rest, Mark::Return)?;
    let (rvalue, after) = read_returned(alloc, word, depth)?;
    Ok((Stmt::Return(place, rvalue), after))
}
