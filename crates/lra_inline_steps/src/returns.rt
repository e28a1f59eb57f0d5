//! Returns: their points, after which the store is cut to the caller's variables; in `main` the run ends.

ghost use Rattle.std.specs.Prelude.{◌≡◌, IfOk, None, Some};
ghost use Rattle.lra_program.specs.Program as resolved;
ghost use Rattle.lra_program.specs.ProgramViews.{expr_view, call_view, given_view};
ghost use Rattle.lra_operations.specs.{Tree.seq, Tree.point as own, TreeViews.node_view};
ghost use Rattle.lra_inline_steps.specs.Building.{any_left, value_left, call_left};
ghost use Rattle.lra_inline_steps.specs.Stack.{a_stmt, InlineStepLeadsFrom};
ghost use Rattle.lra_inline_steps.specs.{Inlining.StmtStands, Inlining.StopsStmt, Limits.OnLimit, Steps.FallsFrom};

use crate::frame::{Around, Caller, Frame};
use crate::lone::open_point;
use crate::points::InlineError;
use crate::stack::{InlineContext, InlineFrame, Next, Part, close};
use lra_operations::forms::{cut_and_leave, give_and_leave, put_in_turn, put_point};
use lra_operations::{Exit, Node, Op, Site};
use lra_program::{Call, Expr, Rvalue};
use std::alloc::{AllocError, Global};

/// The point of a `return` without a value, and what leaves the call.
fn leave_any(around: &Around<'_>, point: usize) -> Result<Node, AllocError>
    ensures { IfOk result (λ g. node_view g ≡ seq (own point)
        (any_left around.now.frame.back around.now.frame.receiver point around.now.frame.live)) }
{
    let alloc = around.alloc;
    let frame = around.frame;
    match frame.back {
        Some(length) => {
            let any = Op::Havoc(frame.receiver);
            let left = give_and_leave(alloc, point, any, length, frame.live)?;
            put_point(alloc, point, left)
        }
        None => put_point(alloc, point, Node::Leave(frame.live, Exit::Returned)),
    }
}

/// The point of a `return` with a value that no call gives, and what leaves the call. In `main` too the value has to be
/// one of its type.
fn leave_value(around: &Around<'_>, point: usize, value: &Expr) -> Result<Node, AllocError>
    ensures { IfOk result (λ g. node_view g ≡ seq (own point) (value_left around.now.frame.back
        around.now.frame.receiver point around.now.frame.base (expr_view value.now) around.now.frame.live)) }
{
    let alloc = around.alloc;
    let frame = around.frame;
    let give = Op::StoreValue(frame.base, frame.receiver, value.copy(alloc)?);
    match frame.back {
        Some(length) => {
            let left = give_and_leave(alloc, point, give, length, frame.live)?;
            put_point(alloc, point, left)
        }
        None => {
            let leave = Node::Leave(frame.live, Exit::Returned);
            let left = put_in_turn(alloc, Node::Act(point, give), leave)?;
            put_point(alloc, point, left)
        }
    }
}

/// The point of a `return` whose value a call gives, that call, and what leaves the call around.
pub fn leave_call(alloc: Global, frame: Frame, point: usize, call: Node) -> Result<Node, AllocError>
    ensures { IfOk result (λ g. node_view g ≡ seq (own point)
        (call_left frame.back point (node_view call) frame.live)) }
{
    match frame.back {
        Some(length) => {
            let leave = cut_and_leave(alloc, point, length, frame.live, Exit::Returned)?;
            let left = put_in_turn(alloc, call, leave)?;
            put_point(alloc, point, left)
        }
        None => {
            let left = put_in_turn(alloc, call, Node::Leave(frame.live, Exit::Returned))?;
            put_point(alloc, point, left)
        }
    }
}

/// A `return` without a value.
fn return_any<'a>(
    here: &Around<'_>,
    label: usize,
    sites: &mut Vec<Site>,
) -> Result<Next<'a>, InlineError>
    requires { StmtStands here.now (resolved.return label None) }
    ensures leads { IfOk result
        (InlineStepLeadsFrom here.now sites.old sites.new (a_stmt (resolved.return label None))) }
    ensures limit { OnLimit result (StopsStmt here.now sites.old (resolved.return label None)) }
    ensures falls { IfOk result (FallsFrom here.now (a_stmt (resolved.return label None))) }
{
    let point = open_point(here, label, sites)?;
    close(leave_any(here, point), here.frame.live)
}

/// A `return` with a value that no call gives.
fn return_value<'a>(
    here: &Around<'_>,
    label: usize,
    value: &Expr,
    sites: &mut Vec<Site>,
) -> Result<Next<'a>, InlineError>
    requires { StmtStands here.now (resolved.return label (Some (resolved.value (expr_view value.now)))) }
    ensures leads { IfOk result (InlineStepLeadsFrom here.now sites.old sites.new
        (a_stmt (resolved.return label (Some (resolved.value (expr_view value.now)))))) }
    ensures limit { OnLimit result (StopsStmt here.now sites.old
        (resolved.return label (Some (resolved.value (expr_view value.now))))) }
    ensures falls { IfOk result (FallsFrom here.now
        (a_stmt (resolved.return label (Some (resolved.value (expr_view value.now)))))) }
{
    let point = open_point(here, label, sites)?;
    close(leave_value(here, point, value), here.frame.live)
}

/// A `return` whose value a call gives: its point, and that call; what leaves the call around comes after it.
fn return_call<'a>(
    here: &Around<'_>,
    label: usize,
    call: &'a Call,
    sites: &mut Vec<Site>,
) -> Result<Next<'a>, InlineError>
    requires { StmtStands here.now (resolved.return label (Some (resolved.result (call_view call.now)))) }
    ensures leads { IfOk result (InlineStepLeadsFrom here.now sites.old sites.new
        (a_stmt (resolved.return label (Some (resolved.result (call_view call.now)))))) }
    ensures limit { OnLimit result (StopsStmt here.now sites.old
        (resolved.return label (Some (resolved.result (call_view call.now))))) }
    ensures falls { IfOk result (FallsFrom here.now
        (a_stmt (resolved.return label (Some (resolved.result (call_view call.now)))))) }
{
    let frame = here.frame;
    let point = open_point(here, label, sites)?;
    let place = InlineContext::Returned(point);
    let caller = Caller {
        point,
        receiver: frame.receiver,
        element: None,
    };
    let part = Part::Call(caller, call);
    Ok(Next::Opens(InlineFrame { frame, place }, frame, part))
}

/// A `return`: its point, and what leaves the call that runs, or `main`; a call that gives the value is made in both.
pub fn open_return<'a>(
    here: &Around<'_>,
    label: usize,
    rvalue: &'a Option<Rvalue>,
    sites: &mut Vec<Site>,
) -> Result<Next<'a>, InlineError>
    requires { StmtStands here.now (resolved.return label (given_view rvalue.now)) }
    ensures leads { IfOk result (InlineStepLeadsFrom here.now sites.old sites.new
        (a_stmt (resolved.return label (given_view rvalue.now)))) }
    ensures limit { OnLimit result (StopsStmt here.now sites.old (resolved.return label (given_view rvalue.now))) }
    ensures falls { IfOk result (FallsFrom here.now (a_stmt (resolved.return label (given_view rvalue.now)))) }
{
    match rvalue {
        None => return_any(here, label, sites),
        Some(Rvalue::Value(value)) => return_value(here, label, value, sites),
        Some(Rvalue::Result(call)) => return_call(here, label, call, sites),
    }
}
