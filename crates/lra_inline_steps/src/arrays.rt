//! The first step into an array's declarator, and into a statement that gives an element a value.

ghost use Rattle.std.specs.Prelude.{IfOk};
ghost use Rattle.lra_program.specs.Program as resolved;
ghost use Rattle.lra_program.specs.ProgramViews.{expr_view, element_view, call_view, rvalue_view};
ghost use Rattle.lra_inline_steps.specs.{Inlining.StmtStands, Inlining.StopsStmt, Inlining.StopsItem, Limits.OnLimit};
ghost use Rattle.lra_inline_steps.specs.{Stack.a_stmt, Stack.an_array, Stack.InlineStepLeadsFrom, Steps.FallsFrom};

use crate::frame::{Around, Caller};
use crate::lone::open_point;
use crate::points::InlineError;
use crate::stack::{InlineContext, InlineFrame, Next, Part, close};
use lra_operations::forms::put_point;
use lra_operations::{Node, Op, Site};
use lra_program::{Array, Call, Element, Expr, Receiver, Rvalue};

/// An array's declarator: its point, at which the elements get any values.
pub fn open_array<'a>(
    here: &Around<'_>,
    label: usize,
    array: Array,
    sites: &mut Vec<Site>,
) -> Result<Next<'a>, InlineError>
    ensures leads { IfOk result
        (InlineStepLeadsFrom here.now sites.old sites.new (an_array label array)) }
    ensures limit { OnLimit result (StopsItem here.now sites.old (resolved.array label array)) }
    ensures falls { IfOk result (FallsFrom here.now (an_array label array)) }
{
    let point = open_point(here, label, sites)?;
    let fill = Node::Act(point, Op::Fill(array));
    close(put_point(here.alloc, point, fill), here.frame.live)
}

/// An element that gets a value which no call gives.
fn write_value<'a>(
    here: &Around<'_>,
    label: usize,
    element: &Element,
    value: &Expr,
    sites: &mut Vec<Site>,
) -> Result<Next<'a>, InlineError>
    ensures leads { IfOk result (InlineStepLeadsFrom here.now sites.old sites.new (a_stmt
        (resolved.write label (element_view element.now) (resolved.value (expr_view value.now))))) }
    ensures limit { OnLimit result (StopsStmt here.now sites.old
        (resolved.write label (element_view element.now) (resolved.value (expr_view value.now)))) }
    ensures falls { IfOk result (FallsFrom here.now (a_stmt
        (resolved.write label (element_view element.now) (resolved.value (expr_view value.now))))) }
{
    let point = open_point(here, label, sites)?;
    let element = element.copy(here.alloc)?;
    let value = value.copy(here.alloc)?;
    let give = Node::Act(point, Op::StoreElement(here.frame.base, element, value));
    close(put_point(here.alloc, point, give), here.frame.live)
}

/// An element whose value a call gives: its point, and that call, for which its index waits.
fn write_result<'a>(
    here: &Around<'_>,
    label: usize,
    element: &'a Element,
    call: &'a Call,
    sites: &mut Vec<Site>,
) -> Result<Next<'a>, InlineError>
    requires { StmtStands here.now
        (resolved.write label (element_view element.now) (resolved.result (call_view call.now))) }
    ensures leads { IfOk result (InlineStepLeadsFrom here.now sites.old sites.new (a_stmt
        (resolved.write label (element_view element.now) (resolved.result (call_view call.now))))) }
    ensures limit { OnLimit result (StopsStmt here.now sites.old
        (resolved.write label (element_view element.now) (resolved.result (call_view call.now)))) }
    ensures falls { IfOk result (FallsFrom here.now (a_stmt
        (resolved.write label (element_view element.now) (resolved.result (call_view call.now))))) }
{
    let frame = here.frame;
    let point = open_point(here, label, sites)?;
    let caller = Caller {
        point,
        receiver: Receiver::waiting(element.array),
        element: Some(element),
    };
    let place = InlineContext::Given(point);
    Ok(Next::Opens(
        InlineFrame { frame, place },
        frame,
        Part::Call(caller, call),
    ))
}

/// A statement by which an element gets a value.
pub fn open_write<'a>(
    here: &Around<'_>,
    label: usize,
    element: &'a Element,
    rvalue: &'a Rvalue,
    sites: &mut Vec<Site>,
) -> Result<Next<'a>, InlineError>
    requires { StmtStands here.now
        (resolved.write label (element_view element.now) (rvalue_view rvalue.now)) }
    ensures leads { IfOk result (InlineStepLeadsFrom here.now sites.old sites.new (a_stmt
        (resolved.write label (element_view element.now) (rvalue_view rvalue.now)))) }
    ensures limit { OnLimit result (StopsStmt here.now sites.old
        (resolved.write label (element_view element.now) (rvalue_view rvalue.now))) }
    ensures falls { IfOk result (FallsFrom here.now (a_stmt
        (resolved.write label (element_view element.now) (rvalue_view rvalue.now)))) }
{
    match rvalue {
        Rvalue::Value(value) => write_value(here, label, element, value, sites),
        Rvalue::Result(call) => write_result(here, label, element, call, sites),
    }
}
