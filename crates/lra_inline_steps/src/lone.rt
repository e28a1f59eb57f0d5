//! Statements without parts, which make no call.

ghost use Rattle.std.specs.Prelude.{◌≡◌, ◌≤◌, ℕ, length, IfOk, Some};
ghost use Rattle.lra_program.specs.Program as resolved;
ghost use Rattle.lra_program.specs.ProgramViews.{cond_view, stmt_view};
ghost use Rattle.lra_operations.specs.TreeViews.{exit_view};
ghost use Rattle.lra_inline_steps.specs.Crates.lra_resolution_spec.Refuse.{greatest_live};
ghost use Rattle.lra_inline_steps.specs.Inlining.{points_in, own_events, assertion_events, Passes, Stops, StmtStands};
ghost use Rattle.lra_inline_steps.specs.Inlining.{StopsStmt, IsLone, IsStmtWrittenOut, IsPlain, IsExit};
ghost use Rattle.lra_inline_steps.specs.{Building.length_left, Limits.OnLimit};

use crate::frame::Around;
use crate::points::{InlineError, add_point, finish};
use lra_operations::forms::{cut_and_leave, put_point};
use lra_operations::{Exit, Node, Op, Site};
use lra_program::{Cond, Stmt};

/// The point of a statement with this label, which is no assertion.
pub fn open_point(
    around: &Around<'_>,
    label: usize,
    sites: &mut Vec<Site>,
) -> Result<usize, InlineError>
    ensures number { IfOk result (λ q. q ≡ length (points_in sites.old)) }
    ensures walked { IfOk result (λ _. Passes around.now sites.old sites.new (own_events around.now label)) }
    ensures few { IfOk result (λ _. around.now.frame.live ≤ greatest_live) }
    ensures limit { OnLimit result (Stops around.now sites.old (own_events around.now label)) }
{
    let live = around.frame.live;
    add_point(around.alloc, around.path, label, live, false, sites)
}

/// Nothing but a point.
fn lone_point(around: &Around<'_>, label: usize, sites: &mut Vec<Site>) -> Result<Node, InlineError>
    ensures written { IfOk result (IsPlain around.now sites.old sites.new (resolved.nothing label)) }
    ensures limit { OnLimit result (Stops around.now sites.old (own_events around.now label)) }
{
    let point = open_point(around, label, sites)?;
    Ok(Node::Point(point))
}

/// Out of a loop or a `switch`, or on to a loop's next round: the store is cut to what lived there.
fn leave_loop(
    around: &Around<'_>,
    label: usize,
    exit: Exit,
    sites: &mut Vec<Site>,
) -> Result<Node, InlineError>
    requires { (m : ℕ) × (length_left (exit_view exit) around.now.frame ≡ Some m) }
    ensures written { IfOk result (IsExit around.now sites.old sites.new label (exit_view exit)) }
    ensures limit { OnLimit result (Stops around.now sites.old (own_events around.now label)) }
{
    let point = open_point(around, label, sites)?;
    let frame = around.frame;
    match frame.length_left(exit) {
        Some(length) => {
            let leave = cut_and_leave(around.alloc, point, length, frame.live, exit)?;
            finish(put_point(around.alloc, point, leave))
        }
        None => unreachable!(),
    }
}

/// An assertion: a test with a verdict.
fn inline_assertion(
    around: &Around<'_>,
    label: usize,
    cond: &Cond,
    sites: &mut Vec<Site>,
) -> Result<Node, InlineError>
    ensures written { IfOk result (IsPlain around.now sites.old sites.new
        (resolved.assert label (cond_view cond.now))) }
    ensures limit { OnLimit result (Stops around.now sites.old (assertion_events around.now label)) }
{
    let frame = around.frame;
    let point = add_point(around.alloc, around.path, label, frame.live, true, sites)?;
    let cond = cond.copy(around.alloc)?;
    let check = Node::Check(point, frame.base, cond);
    finish(put_point(around.alloc, point, check))
}

/// An assumption: only if its condition is true does the run go on.
fn assumption_of(
    around: &Around<'_>,
    label: usize,
    cond: &Cond,
    sites: &mut Vec<Site>,
) -> Result<Node, InlineError>
    ensures written { IfOk result (IsPlain around.now sites.old sites.new
        (resolved.assume label (cond_view cond.now))) }
    ensures limit { OnLimit result (Stops around.now sites.old (own_events around.now label)) }
{
    let point = open_point(around, label, sites)?;
    let test = Op::Test(around.frame.base, cond.copy(around.alloc)?, true);
    finish(put_point(around.alloc, point, Node::Act(point, test)))
}

/// A statement without parts, which makes no call.
pub fn inline_lone(
    around: &Around<'_>,
    stmt: &Stmt,
    sites: &mut Vec<Site>,
) -> Result<Node, InlineError>
    requires lone { IsLone (stmt_view stmt.now) }
    requires stands { StmtStands around.now (stmt_view stmt.now) }
    ensures written { IfOk result
        (IsStmtWrittenOut around.now sites.old sites.new (stmt_view stmt.now)) }
    ensures limit { OnLimit result (StopsStmt around.now sites.old (stmt_view stmt.now)) }
{
    match stmt {
        Stmt::Absent => Ok(Node::Empty),
        Stmt::Nothing(label) => lone_point(around, *label, sites),
        Stmt::Break(label) => leave_loop(around, *label, Exit::Broken, sites),
        Stmt::Continue(label) => leave_loop(around, *label, Exit::Continued, sites),
        Stmt::Assert(label, cond) => inline_assertion(around, *label, cond, sites),
        Stmt::Assume(label, cond) => assumption_of(around, *label, cond, sites),
        _ => unreachable!(),
    }
}
