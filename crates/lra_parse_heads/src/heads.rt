//! An `if`, a loop or a `switch` up to its branch or its braces. A function reads if `depth` levels of nesting are
//! left.

ghost use Rattle.std.specs.Prelude.{ℕ, ◌≡◌, ◌<◌, ◌≤◌, length, IfOk};
ghost use Rattle.lra_syntax.specs.{Trees.switch, Views.cond_view, Views.expr_view, Views.stmt_view, Views.cases_view};
ghost use Rattle.lra_parser_spec.specs.Expressions.{in_parens, cond_at, expr_at};
ghost use Rattle.lra_parser_spec.specs.Reading.{ParsesAs, done_with, seq};
ghost use Rattle.lra_parser_spec.specs.Statements.{read_if, read_while, read_for, read_switch, branch_at, braces_at};
ghost use Rattle.lra_parse_heads.specs.Begun.{GoesOn, behind_branch, branches_left, branches_of, begun_rest};

use crate::loops::{ForHead, read_for_head};
use lra_base::Place;
use lra_parse_expressions::{read_cond, read_expr};
use lra_parser_spec::{Stopped, expect, expect_at, next_is, tail};
use lra_syntax::{Cases, Cond, Expr, Mark, Stmt, Token};
use std::alloc::{AllocError, Global};

/// What stands before a branch: of an `if`, of its `else` or of a loop.
pub enum Head {
    If(Place, Cond),
    /// The `if` with its first branch, up to the second one.
    Else(Place, Cond, Box<Stmt>),
    While(Place, Cond),
    For(Place, ForHead),
}

impl Drop for Head {
    fn drop(self) {
        match self {
            Head::If(_, _) => {}
            Head::Else(_, _, _) => {}
            Head::While(_, _) => {}
            Head::For(_, _) => {}
        }
    }
}

/// What stands before the braces of a `switch`.
pub struct Switched {
    pub place: Place,
    pub value: Expr,
}

impl Drop for Switched {
    fn drop(self) {
        let Switched { place: _, value: _ } = self;
    }
}

impl Switched {
    /// The whole statement.
    fn into_stmt(self, cases: Cases) -> Stmt
        ensures { stmt_view result ≡ switch self.place (expr_view self.value) (cases_view cases) }
    {
        let Switched { place, value } = self;
        Stmt::Switch(place, value, cases)
    }
}

/// The `switch` with what stands before its braces and with what they hold.
#[inline(never)]
pub fn add_cases(alloc: Global, head: Box<Switched>, cases: Cases) -> Result<Box<Stmt>, AllocError>
    ensures { IfOk result (λ stmt. stmt_view stmt.value
        ≡ switch head.value.place (expr_view head.value.value) (cases_view cases)) }
{
    let stmt = Box::into_inner(head).into_stmt(cases);
    Ok(Box::new(alloc, stmt)?)
}

/// A statement as far as it is read. In boxes, so that a level of nesting takes little of the stack.
#[derive(Drop)]
pub enum Begun {
    Whole(Box<Stmt>),
    UpToBranch(Box<Head>),
    UpToBraces(Box<Switched>),
}

/// What is begun with this statement.
#[inline(never)]
pub fn begin_whole(alloc: Global, stmt: Stmt) -> Result<Begun, AllocError>
    ensures left { IfOk result (λ begun. branches_left begun ≡ 0) }
    ensures rest { (depth : ℕ) → IfOk result (λ begun.
        begun_rest depth begun ≡ done_with (stmt_view stmt)) }
{
    Ok(Begun::Whole(Box::new(alloc, stmt)?))
}

/// What is begun with this head.
fn begin_head(alloc: Global, head: Head) -> Result<Begun, AllocError>
    ensures left { IfOk result (λ begun. branches_left begun ≡ branches_of head) }
    ensures rest { (depth : ℕ) → IfOk result (λ begun.
        begun_rest depth begun ≡ seq (branch_at depth) (behind_branch (branch_at depth) head)) }
{
    Ok(Begun::UpToBranch(Box::new(alloc, head)?))
}

impl Head {
    /// What is begun with this head and the branch, and what comes after: after the `else` too, if the branch is the
    /// first of two.
    fn add(
        self,
        alloc: Global,
        branch: Box<Stmt>,
        rest: &[Token],
    ) -> Result<(Begun, &[Token]), AllocError>
        ensures shorter { IfOk result (λ r. length r.1.now ≤ length rest.now) }
        ensures fewer { IfOk result (λ r. branches_left r.0 < branches_of self) }
        ensures gives { (depth : ℕ) → IfOk result (λ r. behind_branch (branch_at depth) self
            (stmt_view branch.value) rest.now ≡ begun_rest depth r.0 r.1.now) }
    {
        let stmt = match self {
            Head::If(place, cond) => {
                if next_is(rest, Mark::Else) {
                    let begun = begin_head(alloc, Head::Else(place, cond, branch))?;
                    return Ok((begun, tail(rest)));
                }
                Stmt::If(place, cond, branch)
            }
            Head::Else(place, cond, first) => Stmt::IfElse(place, cond, first, branch),
            Head::While(place, cond) => Stmt::While(place, cond, branch),
            Head::For(place, head) => head.into_stmt(place, branch),
        };
        let begun = begin_whole(alloc, stmt)?;
        Ok((begun, rest))
    }
}

/// What is begun with a head in its box and the branch.
#[inline(never)]
pub fn add_branch(
    alloc: Global,
    head: Box<Head>,
    branch: Box<Stmt>,
    rest: &[Token],
) -> Result<(Begun, &[Token]), AllocError>
    ensures shorter { IfOk result (λ r. length r.1.now ≤ length rest.now) }
    ensures fewer { IfOk result (λ r. branches_left r.0 < branches_of head.value) }
    ensures gives { (depth : ℕ) → IfOk result (λ r. behind_branch (branch_at depth) head.value
        (stmt_view branch.value) rest.now ≡ begun_rest depth r.0 r.1.now) }
{
    Box::into_inner(head).add(alloc, branch, rest)
}

/// A condition in parentheses that open no level.
pub fn read_parens(alloc: Global, rest: &[Token], depth: usize) -> Result<(Cond, &[Token]), Stopped>
    ensures shorter { IfOk result (λ r. length r.1.now < length rest.now) }
    ensures gives { ParsesAs (λ r. (cond_view r.0, r.1.now)) result (in_parens (cond_at depth) rest.now) }
{
    let opened = expect(rest, Mark::OpenParen)?;
    let (cond, behind) = read_cond(alloc, opened, depth)?;
    let after = expect(behind, Mark::CloseParen)?;
    Ok((cond, after))
}

/// An `if`, up to its branch.
pub fn begin_if(alloc: Global, rest: &[Token], depth: usize) -> Result<(Begun, &[Token]), Stopped>
    ensures shorter { IfOk result (λ r. length r.1.now < length rest.now) }
    ensures gives { GoesOn (λ r. begun_rest depth r.0 r.1.now) result
        (read_if depth (branch_at depth) rest.now) }
{
    let (place, word) = expect_at(rest, Mark::If)?;
    let (cond, closed) = read_parens(alloc, word, depth)?;
    let begun = begin_head(alloc, Head::If(place, cond))?;
    Ok((begun, closed))
}

/// A `while`, up to its branch.
pub fn begin_while(
    alloc: Global,
    rest: &[Token],
    depth: usize,
) -> Result<(Begun, &[Token]), Stopped>
    ensures shorter { IfOk result (λ r. length r.1.now < length rest.now) }
    ensures gives { GoesOn (λ r. begun_rest depth r.0 r.1.now) result
        (read_while depth (branch_at depth) rest.now) }
{
    let (place, word) = expect_at(rest, Mark::While)?;
    let (cond, closed) = read_parens(alloc, word, depth)?;
    let begun = begin_head(alloc, Head::While(place, cond))?;
    Ok((begun, closed))
}

/// A `for`, up to its branch.
pub fn begin_for(alloc: Global, rest: &[Token], depth: usize) -> Result<(Begun, &[Token]), Stopped>
    ensures shorter { IfOk result (λ r. length r.1.now < length rest.now) }
    ensures gives { GoesOn (λ r. begun_rest depth r.0 r.1.now) result
        (read_for depth (branch_at depth) rest.now) }
{
    let (place, word) = expect_at(rest, Mark::For)?;
    let (head, closed) = read_for_head(alloc, word, depth)?;
    let begun = begin_head(alloc, Head::For(place, head))?;
    Ok((begun, closed))
}

/// An expression in parentheses that open no level.
fn read_switched(alloc: Global, rest: &[Token], depth: usize) -> Result<(Expr, &[Token]), Stopped>
    ensures shorter { IfOk result (λ r. length r.1.now < length rest.now) }
    ensures gives { ParsesAs (λ r. (expr_view r.0, r.1.now)) result (in_parens (expr_at depth) rest.now) }
{
    let opened = expect(rest, Mark::OpenParen)?;
    let (value, behind) = read_expr(alloc, opened, depth)?;
    let after = expect(behind, Mark::CloseParen)?;
    Ok((value, after))
}

/// A `switch`, up to its braces.
pub fn begin_switch(
    alloc: Global,
    rest: &[Token],
    depth: usize,
) -> Result<(Begun, &[Token]), Stopped>
    ensures shorter { IfOk result (λ r. length r.1.now < length rest.now) }
    ensures gives { GoesOn (λ r. begun_rest depth r.0 r.1.now) result
        (read_switch depth (braces_at depth) rest.now) }
{
    let (place, word) = expect_at(rest, Mark::Switch)?;
    let (value, closed) = read_switched(alloc, word, depth)?;
    let head = Box::new(alloc, Switched { place, value })?;
    Ok((Begun::UpToBraces(head), closed))
}
