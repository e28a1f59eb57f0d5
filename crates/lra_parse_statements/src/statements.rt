//! Blocks, and the statements that stand in them. A function reads if `depth` levels of nesting are left.

ghost use Rattle.std.specs.Prelude.{◌≡◌, ◌<◌, ◌≤◌, [], ◌++◌, length, map, IfOk, OnOk, Err};
ghost use Rattle.lra_syntax.specs.Views.{stmt_view, item_view, items_of, block_view, case_view, cases_of, cases_view};
ghost use Rattle.lra_syntax.specs.declared.tokens.Mark.TheVariants.{CloseBrace};
ghost use Rattle.lra_parser_spec.specs.Reading.{ParsesAs, expect, expect_at, map_read};
ghost use Rattle.lra_parser_spec.specs.Statements.{begins_item, begins_case, block_from, declaration_at, declared};
ghost use Rattle.lra_parser_spec.specs.Statements.{stated, branch_at, block_at, braces_at, stated_at, item_at};
ghost use Rattle.lra_parser_spec.specs.{Statements.items_at, Statements.body_of, Statements.put, Tests.first};
ghost use Rattle.lra_parse_heads.specs.Begun.{begun_rest};
ghost use Rattle.lra_parse_statements.specs.Cases.{label_parts, parts_of, first_part, opened_part, fault_at_braces};

use crate::simple::{begin_simple, begins_stmt};
use lra_parse_expressions::{next_is_type, read_declaration};
use lra_parse_heads::{Begun, add_branch, add_cases, begins_label, read_label, read_labels};
use lra_parser_spec::{Cause, Stopped, expect, expect_at, next_is, push_boxed, stop};
use lra_syntax::{Block, BlockItem, CaseItem, Cases, Mark, PlacedLabel, Stmt, Token};
use std::alloc::{AllocError, Global};

// Whether the next token begins an item of a block.
fn begins_item(rest: &[Token]) -> bool
    ensures { result ≡ begins_item (first rest.now) }
{
    if begins_stmt(rest) {
        return true;
    }
    next_is_type(rest)
}

/// The block of these items, whose brace comes next.
fn read_close(items: Vec<BlockItem>, rest: &[Token]) -> Result<(Block, &[Token]), Stopped>
    ensures shorter { IfOk result (λ r. length r.1.now < length rest.now) }
    ensures gives { ParsesAs (λ r. (block_view r.0, r.1.now)) result
        (map_read (λ end. (items_of (map item_view items.items), end)) (expect_at CloseBrace) rest.now) }
{
    let (end, behind) = expect_at(rest, Mark::CloseBrace)?;
    Ok((Block { items, end }, behind))
}

/// The block as a statement.
#[inline(never)]
fn box_block(alloc: Global, block: Block) -> Result<Box<Stmt>, AllocError>
    ensures { IfOk result (λ stmt. stmt_view stmt.value ≡ block_from (block_view block)) }
{
    Ok(Box::new(alloc, Stmt::Block(block))?)
}

/// The statement as an item.
#[inline(never)]
fn box_item(alloc: Global, stmt: Box<Stmt>) -> Result<Box<BlockItem>, AllocError>
    ensures { IfOk result (λ item. item_view item.value ≡ put (stated (stmt_view stmt.value))) }
{
    let stmt = Box::into_inner(stmt);
    Ok(Box::new(alloc, BlockItem::Statement(stmt))?)
}

/// A declaration as an item.
#[inline(never)]
fn read_declared(
    alloc: Global,
    rest: &[Token],
    depth: usize,
) -> Result<(Box<BlockItem>, &[Token]), Stopped>
    ensures shorter { IfOk result (λ r. length r.1.now < length rest.now) }
    ensures gives { ParsesAs (λ r. (item_view r.0.value, r.1.now)) result
        (map_read (λ d. put (declared d)) (declaration_at depth) rest.now) }
{
    let (declaration, after) = read_declaration(alloc, rest, depth)?;
    let item = Box::new(alloc, BlockItem::Declaration(declaration))?;
    Ok((item, after))
}

/// Whether the next token begins a label or a statement.
fn begins_case(rest: &[Token]) -> bool
    ensures { result ≡ begins_case (first rest.now) }
{
    if begins_label(rest) {
        return true;
    }
    begins_stmt(rest)
}

/// The labels, after the other items.
fn push_labels(items: &mut Vec<CaseItem>, labels: Vec<PlacedLabel>) -> Result<(), AllocError>
    ensures { OnOk result (map case_view items.new.items
        ≡ map case_view items.old.items ++ label_parts labels.items []) }
{
    'each: for label in labels {
        items.push(CaseItem::Label(label))?;
    }
    Ok(())
}

/// The labels and the statement after them, after the other items.
#[inline(never)]
fn push_labelled(
    items: &mut Vec<CaseItem>,
    labels: Vec<PlacedLabel>,
    stmt: Box<Stmt>,
) -> Result<(), AllocError>
    ensures { OnOk result (map case_view items.new.items
        ≡ map case_view items.old.items ++ parts_of (labels.items, stmt_view stmt.value)) }
{
    push_labels(items, labels)?;
    items.push(CaseItem::Stated(Box::into_inner(stmt)))?;
    Ok(())
}

/// The first label of a `switch`, if there is one, as the first of its items.
#[inline(never)]
fn begin_cases(alloc: Global, rest: &[Token]) -> Result<(Vec<CaseItem>, &[Token]), Stopped>
    ensures shorter { IfOk result (λ r. length r.1.now ≤ length rest.now) }
    ensures gives { ParsesAs (λ r. (map case_view r.0.items, r.1.now)) result
        (first_part rest.now) }
{
    let mut items = Vec::new(alloc);
    if begins_label(rest) {
        let (label, behind) = read_label(rest)?;
        items.push(CaseItem::Label(label))?;
        return Ok((items, behind));
    }
    Ok((items, rest))
}

/// The first brace of a `switch`, with its first label, and whether it has one.
#[inline(never)]
fn open_braces(alloc: Global, rest: &[Token]) -> Result<(Vec<CaseItem>, bool, &[Token]), Stopped>
    ensures shorter { IfOk result (λ r. length r.2.now < length rest.now) }
    ensures gives { ParsesAs (λ r. ((map case_view r.0.items, r.1), r.2.now)) result (opened_part rest.now) }
{
    let behind = expect(rest, Mark::OpenBrace)?;
    let labelled = begins_label(behind);
    let (items, left) = begin_cases(alloc, behind)?;
    Ok((items, labelled, left))
}

/// What the braces of a `switch` hold, whose last one comes next.
fn close_cases(items: Vec<CaseItem>, rest: &[Token]) -> Result<(Cases, &[Token]), Stopped>
    ensures shorter { IfOk result (λ r. length r.1.now < length rest.now) }
    ensures gives { ParsesAs (λ r. (cases_view r.0, r.1.now)) result
        (expect CloseBrace (cases_of (map case_view items.items)) rest.now) }
{
    let after = expect(rest, Mark::CloseBrace)?;
    Ok((Cases { items }, after))
}

/// The fault if no level is left for braces.
#[tactic(auto, using(crate::proofs::Braces::fault_rules))]
fn stop_at_braces<T>(rest: &[Token]) -> Result<T, Stopped>
    ensures { result ≡ Err (Stopped.Fault (fault_at_braces rest.now)) }
{
    if next_is(rest, Mark::OpenBrace) {
        return stop(Cause::TooDeep, rest);
    }
    stop(Cause::Syntax, rest)
}

/// A branch, whose first token opens a level.
#[cycle(statement)]
#[tactic(auto, using(crate::proofs::Stated::branch_rules))]
fn read_branch(
    alloc: Global,
    rest: &[Token],
    depth: usize,
) -> Result<(Box<Stmt>, &[Token]), Stopped>
    ensures shorter { IfOk result (λ r. length r.1.now < length rest.now) }
    ensures gives { ParsesAs (λ r. (stmt_view r.0.value, r.1.now)) result
        (branch_at depth rest.now) }
{
    if depth == 0 {
        if begins_stmt(rest) {
            return stop(Cause::TooDeep, rest);
        }
        return stop(Cause::Syntax, rest);
    }
    if next_is(rest, Mark::OpenBrace) {
        let (block, after) = read_block(alloc, rest, depth)?;
        let stmt = box_block(alloc, block)?;
        return Ok((stmt, after));
    }
    let (begun, behind) = begin_simple(alloc, rest, depth - 1)?;
    finish(alloc, begun, behind, depth - 1)
}

/// The rest of a statement that is begun: its branches, or its braces.
#[cycle(statement)]
fn finish(
    alloc: Global,
    begun: Begun,
    rest: &[Token],
    depth: usize,
) -> Result<(Box<Stmt>, &[Token]), Stopped>
    ensures shorter { IfOk result (λ r. length r.1.now ≤ length rest.now) }
    ensures gives { ParsesAs (λ r. (stmt_view r.0.value, r.1.now)) result (begun_rest depth begun rest.now) }
{
    match begun {
        Begun::Whole(stmt) => Ok((stmt, rest)),
        Begun::UpToBranch(head) => {
            let (branch, behind) = read_branch(alloc, rest, depth)?;
            let (next, after) = add_branch(alloc, head, branch, behind)?;
            finish(alloc, next, after, depth)
        }
        Begun::UpToBraces(head) => {
            let (cases, end) = read_braces(alloc, rest, depth)?;
            let whole = add_cases(alloc, head, cases)?;
            Ok((whole, end))
        }
    }
}

/// The braces of a `switch`, which open a level.
#[cycle(statement)]
#[tactic(auto, using(crate::proofs::Braces::braces_rules))]
fn read_braces(alloc: Global, rest: &[Token], depth: usize) -> Result<(Cases, &[Token]), Stopped>
    ensures shorter { IfOk result (λ r. length r.1.now < length rest.now) }
    ensures gives { ParsesAs (λ r. (cases_view r.0, r.1.now)) result (braces_at depth rest.now) }
{
    if depth == 0 {
        return stop_at_braces(rest);
    }
    let (mut items, mut more, mut left) = open_braces(alloc, rest)?;
    'cases: while more {
        let (labels, at) = read_labels(alloc, left)?;
        let (stmt, after) = read_stated(alloc, at, depth - 1)?;
        push_labelled(&mut items, labels, stmt)?;
        left = after;
        more = begins_case(left);
    }
    close_cases(items, left)
}

/// A statement among others.
#[cycle(statement)]
fn read_stated(
    alloc: Global,
    rest: &[Token],
    depth: usize,
) -> Result<(Box<Stmt>, &[Token]), Stopped>
    ensures shorter { IfOk result (λ r. length r.1.now < length rest.now) }
    ensures gives { ParsesAs (λ r. (stmt_view r.0.value, r.1.now)) result
        (stated_at depth rest.now) }
{
    if next_is(rest, Mark::OpenBrace) {
        let (block, behind) = read_block(alloc, rest, depth)?;
        let stmt = box_block(alloc, block)?;
        return Ok((stmt, behind));
    }
    let (begun, behind) = begin_simple(alloc, rest, depth)?;
    finish(alloc, begun, behind, depth)
}

/// An item of a block: a declaration or a statement.
#[cycle(statement)]
#[tactic(auto, using(crate::proofs::Stated::item_rules))]
fn read_item(
    alloc: Global,
    rest: &[Token],
    depth: usize,
) -> Result<(Box<BlockItem>, &[Token]), Stopped>
    ensures shorter { IfOk result (λ r. length r.1.now < length rest.now) }
    ensures gives { ParsesAs (λ r. (item_view r.0.value, r.1.now)) result (map_read put (item_at depth) rest.now) }
{
    if next_is_type(rest) {
        return read_declared(alloc, rest, depth);
    }
    let (stmt, left) = read_stated(alloc, rest, depth)?;
    let item = box_item(alloc, stmt)?;
    Ok((item, left))
}

/// A block inside a function, whose brace opens a level: items with the braces round them.
#[cycle(statement)]
#[tactic(auto, using(crate::proofs::Stated::block_rules))]
fn read_block(alloc: Global, rest: &[Token], depth: usize) -> Result<(Block, &[Token]), Stopped>
    ensures shorter { IfOk result (λ r. length r.1.now < length rest.now) }
    ensures gives { ParsesAs (λ r. (block_view r.0, r.1.now)) result (block_at depth rest.now) }
{
    if depth == 0 {
        return stop(Cause::TooDeep, rest);
    }
    let mut left = expect(rest, Mark::OpenBrace)?;
    let mut items = Vec::new(alloc);
    'items: while begins_item(left) {
        let (item, after) = read_item(alloc, left, depth - 1)?;
        push_boxed(&mut items, item)?;
        left = after;
    }
    read_close(items, left)
}

/// The body of a function, whose brace opens the first level.
pub fn read_body(alloc: Global, rest: &[Token]) -> Result<(Block, &[Token]), Stopped>
    ensures shorter { IfOk result (λ r. length r.1.now < length rest.now) }
    ensures gives { ParsesAs (λ r. (block_view r.0, r.1.now)) result
        (body_of (items_at 63) rest.now) }
{
    read_block(alloc, rest, 64)
}
