//! Statements without statements in them, by their kinds.

ghost use Rattle.lra_syntax.specs.Views.{stmt_view};
ghost use Rattle.lra_resolve_simple.specs.{Resolved.Resolves, Statements.around_of, Statements.IsSimple};

use crate::around::Around;
use crate::heads::{resolve_assert, resolve_assume};
use crate::labelling::Labelling;
use crate::simple::{
    resolve_assignment, resolve_break, resolve_call_alone, resolve_continue, resolve_nothing,
    resolve_return,
};
use lra_base::SourceError;
use lra_scopes::Scope;
use lra_syntax::Stmt;

/// A statement without statements in it.
#[inline(never)]
pub fn resolve_simple(
    around: &Around<'_>,
    scope: &Scope,
    labels: &mut Labelling,
    stmt: &Stmt,
) -> Result<lra_program::Stmt, SourceError>
    requires simple { IsSimple (stmt_view stmt.now) }
    ensures { Resolves (around_of around.now) scope.now labels.old (stmt_view stmt.now) result scope.now labels.new }
{
    match stmt {
        Stmt::Nothing(place) => resolve_nothing(labels, *place),
        Stmt::Assign(assign) => resolve_assignment(around, scope, labels, assign),
        Stmt::Call(call) => resolve_call_alone(around, scope, labels, call),
        Stmt::Break(place) => resolve_break(around, labels, *place),
        Stmt::Continue(place) => resolve_continue(around, labels, *place),
        Stmt::Return(place, rvalue) => resolve_return(around, scope, labels, *place, rvalue),
        Stmt::Assert(place, cond) => resolve_assert(around, scope, labels, *place, cond),
        Stmt::Assume(place, cond) => resolve_assume(around, scope, labels, *place, cond),
        _ => unreachable!(),
    }
}
