//! Statements, each under its label.

ghost use Rattle.std.specs.Prelude.{◌≡◌, ◌+◌, option_copied, IfOk, OnOk};
ghost use Rattle.lra_syntax.specs.Trees.{block as tree_block, switch as tree_switch};
ghost use Rattle.lra_syntax.specs.Views.{stmt_view, block_view, expr_view, cases_view};
ghost use Rattle.lra_program.specs.ProgramViews.{items_view};
ghost use Rattle.lra_resolve.specs.Crates.lra_resolution_spec.NameFaults.{items_faults};
ghost use Rattle.lra_resolve.specs.Crates.lra_resolution_spec.Resolve.{resolve_items, items_count};
ghost use Rattle.lra_scopes.specs.{Calls.functions_at, Outcome.StopsAtFirstFault, Scopes.Extends};
ghost use Rattle.lra_resolve_simple.specs.LoopHeads.{choice_of, loop_tree};
ghost use Rattle.lra_resolve_simple.specs.{Labelling.Fills, Resolved.Resolves, Statements.around_of};

use lra_base::{Place, SourceError};
use lra_resolve_simple::{
    Around, Asked, CaseList, Labelling, Rounds, add_declaration, block_of, resolve_head,
    resolve_loop_head, resolve_simple, resolve_switch_head,
};
use lra_scopes::Scope;
use lra_syntax::{Block, BlockItem, CaseItem, Cases, Expr, Stmt};

#[cycle(statement)]
fn resolve_stmt(
    around: &Around<'_>,
    scope: &mut Scope,
    labels: &mut Labelling,
    stmt: &Stmt,
) -> Result<lra_program::Stmt, SourceError>
    ensures { Resolves (around_of around.now) scope.old labels.old (stmt_view stmt.now) result scope.new labels.new }
{
    match stmt {
        Stmt::Block(block) => resolve_block(around, scope, labels, block),
        Stmt::If(place, cond, branch) => {
            let asked = Asked { place, cond };
            resolve_choice(around, scope, labels, &asked, branch, None)
        }
        Stmt::IfElse(place, cond, branch, other) => {
            let asked = Asked { place, cond };
            resolve_choice(around, scope, labels, &asked, branch, Some(other))
        }
        Stmt::While(place, cond, body) => {
            let rounds = Rounds::While(place, cond);
            resolve_loop(around, scope, labels, &rounds, body)
        }
        Stmt::For(place, init, test, step, body) => {
            let rounds = Rounds::For(place, init, test, step);
            resolve_loop(around, scope, labels, &rounds, body)
        }
        Stmt::Switch(place, value, cases) => {
            resolve_switch(around, scope, labels, *place, value, cases)
        }
        _ => resolve_simple(around, scope, labels, stmt),
    }
}

/// A choice; without a second branch nothing is done in its place.
#[cycle(statement)]
#[tactic(auto, using(lra_resolve_simple::proofs::StatementLaws::if_else_rules))]
fn resolve_choice(
    around: &Around<'_>,
    scope: &mut Scope,
    labels: &mut Labelling,
    asked: &Asked<'_>,
    branch: &Stmt,
    other: Option<&Stmt>,
) -> Result<lra_program::Stmt, SourceError>
    ensures { Resolves (around_of around.now) scope.old labels.old
        (choice_of asked.now branch.now (option_copied other.entry)) result scope.new labels.new }
{
    let head = resolve_head(around.alloc, scope, labels, *asked.place, asked.cond)?;
    let branch = resolve_stmt(around, scope, labels, branch)?;
    match other {
        None => head.choose(around.alloc, branch, lra_program::Stmt::Absent),
        Some(other) => {
            let other = resolve_stmt(around, scope, labels, other)?;
            head.choose(around.alloc, branch, other)
        }
    }
}

#[cycle(statement)]
fn resolve_loop(
    around: &Around<'_>,
    scope: &mut Scope,
    labels: &mut Labelling,
    rounds: &Rounds<'_>,
    body: &Stmt,
) -> Result<lra_program::Stmt, SourceError>
    ensures { Resolves (around_of around.now) scope.old labels.old (loop_tree rounds.now body.now) result
        scope.new labels.new }
{
    let count = scope.count();
    let outer = scope.outer();
    let live = labels.live_count();
    let head = resolve_loop_head(around, scope, labels, rounds)?;
    let body = resolve_stmt(&around.in_a_loop(), scope, labels, body)?;
    scope.leave(count, outer);
    labels.keep_oldest(live);
    head.into_loop(around.alloc, body)
}

/// A `switch`, whose labels aren't labelled themselves: they have no points.
///
/// `DuplicateCase` at a label that is like one before it.
#[cycle(statement)]
fn resolve_switch(
    around: &Around<'_>,
    scope: &mut Scope,
    labels: &mut Labelling,
    place: Place,
    value: &Expr,
    cases: &Cases,
) -> Result<lra_program::Stmt, SourceError>
    ensures { Resolves (around_of around.now) scope.old labels.old
        (tree_switch place (expr_view value.now) (cases_view cases.now))
        result scope.new labels.new }
{
    let head = resolve_switch_head(around.alloc, scope, labels, place, value)?;
    let inside = around.in_a_switch();
    let mut list = CaseList::new(around.alloc);
    'cases: for item in &cases.items {
        match item {
            CaseItem::Label(label) => list.add_label(label)?,
            CaseItem::Stated(stmt) => {
                let stmt = resolve_stmt(&inside, scope, labels, stmt)?;
                list.add_statement(stmt)?;
            }
        }
    }
    Ok(head.into_switch(list.into_items()))
}

#[cycle(statement)]
fn resolve_block(
    around: &Around<'_>,
    scope: &mut Scope,
    labels: &mut Labelling,
    block: &Block,
) -> Result<lra_program::Stmt, SourceError>
    ensures { Resolves (around_of around.now) scope.old labels.old
        (tree_block (block_view block.now).0 (block_view block.now).1) result scope.new labels.new }
{
    let count = scope.count();
    let outer = scope.outer();
    let live = labels.live_count();
    scope.enter();
    let items = resolve_items(around, scope, labels, block)?;
    let end = labels.add(block.end, None)?;
    scope.leave(count, outer);
    labels.keep_oldest(live);
    Ok(lra_program::Stmt::Block(items, end))
}

/// The items of a block, each under its labels; what they declare stays in the scope.
///
/// Refused at the first fault: `UnknownName`, `DuplicateName`, `BadCall`, or `Misplaced` for `break` and `continue`.
/// `Memory` if memory runs out.
#[cycle(statement)]
#[tactic(auto, using(lra_resolve_simple::proofs::StatementLaws::items_rules))]
pub fn resolve_items(
    around: &Around<'_>,
    scope: &mut Scope,
    labels: &mut Labelling,
    block: &Block,
) -> Result<lra_program::BlockItems, SourceError>
    ensures told { StopsAtFirstFault (items_faults (around_of around.now) scope.old (block_view block.now).0) result }
    ensures found { IfOk result (λ b. items_view b ≡ resolve_items
        (functions_at around.now.functions.now) scope.old labels.old.next (block_view block.now).0) }
    ensures extended { OnOk result (Extends scope.old scope.new) }
    ensures counted { OnOk result (labels.new.next ≡ labels.old.next + items_count (block_view block.now).0) }
    ensures fills { OnOk result (Fills labels.old labels.new (block_view block.now).0) }
{
    let mut items = Vec::new(around.alloc);
    'items: for item in &block.items {
        match item {
            BlockItem::Declaration(declaration) => {
                add_declaration(around.functions, scope, labels, declaration, &mut items)?;
            }
            BlockItem::Statement(stmt) => {
                let stmt = resolve_stmt(around, scope, labels, stmt)?;
                items.push(lra_program::BlockItem::Statement(stmt))?;
            }
        }
    }
    Ok(block_of(items))
}
