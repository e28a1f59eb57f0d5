//! The first step into a statement or a declarator: it is written, or a place opens in which a part of it is.

ghost use Rattle.std.specs.Borrow.{Bor};
ghost use Rattle.std.specs.Prelude.{◌≡◌, ◌<◌, ◌+◌, ◌^◌, ℕ, map, IfOk, MatchOption};
ghost use Rattle.lra_program.specs.Program as resolved;
ghost use Rattle.lra_program.specs.declared.program.Stmt as code;
ghost use Rattle.lra_program.specs.ProgramViews.{slot_view, variable_view, cond_view, call_view, rvalue_view};
ghost use Rattle.lra_program.specs.ProgramViews.{stmt_view, declarator_view, item_view, items_of};
ghost use Rattle.lra_program.specs.{Sites.live_after_items, Value.index_of};
ghost use Rattle.lra_inline_steps.specs.Crates.lra_resolution_spec.Refuse.{greatest_live};
ghost use Rattle.lra_inline_steps.specs.Inlining.{Points, StmtStands, ItemStands, StopsStmt, StopsItem, IsSimple};
ghost use Rattle.lra_inline_steps.specs.{Inlining.loop_of, Inlining.for_of, Inlining.switch_of, Limits.OnLimit};
ghost use Rattle.lra_inline_steps.specs.{Stack.a_stmt, Stack.a_declaration, Stack.InlineStepLeadsFrom, Steps.FallsFrom};
ghost use Rattle.lra_inline_steps.specs.declared.stack.Next.TheVariants as next;
ghost use Rattle.lra_inline_steps.specs.declared.stack.Part.TheVariants as part;
ghost use Rattle.lra_inline_steps.specs.declared.stack.InlineContext.TheVariants as place;
ghost use Rattle.lra_inline_steps.specs.declared.stack.Forked.TheVariants as forked;

use crate::arrays::open_write;
use crate::cases::next_case;
use crate::frame::{Around, Caller, Frame, Repeated};
use crate::lone::{inline_lone, open_point};
use crate::points::{InlineError, Limit, add_point};
use crate::returns::open_return;
use crate::stack::{
    Branches, CaseRow, Forked, InlineContext, InlineFrame, Next, Part, Written, close,
};
use lra_operations::forms::{declare, put_point};
use lra_operations::{Node, Op, Site};
use lra_program::{
    BlockItem, Call, CaseItem, Cond, Declarator, Expr, Receiver, Rvalue, Slot, Stmt, Variable,
};

/// Where the variable stands in the store.
fn store_index(base: usize, slot: Slot) -> usize
    requires { (k : ℕ) → slot_view slot ≡ resolved.local k → base + k < 2 ^ 64 }
    ensures { result ≡ index_of base (slot_view slot) }
{
    match slot {
        Slot::Global(place) => place,
        Slot::Local(place) => base + place,
    }
}

/// How many variables live after the items, if the number fits.
fn live_inside(live: usize, items: &[BlockItem]) -> Option<usize>
    ensures { MatchOption result (greatest_live < live_after_items live (items_of (map item_view items.now)))
        (λ n. n ≡ live_after_items live (items_of (map item_view items.now))) }
{
    let mut inside = live;
    'items: for item in items {
        match item {
            BlockItem::Declaration(_) => match inside.checked_add(1) {
                Some(more) => inside = more,
                None => return None,
            },
            BlockItem::Array(_, _) => {}
            BlockItem::Statement(_) => {}
        }
    }
    Some(inside)
}

/// A block: its items, after which the point of its end stands.
fn open_block<'a>(here: &Around<'_>, items: &'a [BlockItem], end: usize) -> Next<'a>
    requires { StmtStands here.now (resolved.block (items_of (map item_view items.now)) end) }
    ensures leads { (points : Points) → InlineStepLeadsFrom here.now points points
        (a_stmt (resolved.block (items_of (map item_view items.now)) end)) result }
    ensures falls { FallsFrom here.now
        (a_stmt (resolved.block (items_of (map item_view items.now)) end)) result }
{
    let frame = here.frame;
    let place = InlineContext::Block(end);
    Next::Opens(InlineFrame { frame, place }, frame, Part::Items(items))
}

/// A choice: its point, and its first branch, whose points come before those of the second.
fn open_if<'a>(
    here: &Around<'_>,
    label: usize,
    cond: &'a Cond,
    on_true: &'a Stmt,
    on_false: &'a Stmt,
    sites: &mut Vec<Site>,
) -> Result<Next<'a>, InlineError>
    requires { StmtStands here.now
        (resolved.if label (cond_view cond.now) (stmt_view on_true.now) (stmt_view on_false.now)) }
    ensures leads { IfOk result (InlineStepLeadsFrom here.now sites.old sites.new
        (a_stmt (resolved.if label (cond_view cond.now) (stmt_view on_true.now) (stmt_view on_false.now)))) }
    ensures limit { OnLimit result (StopsStmt here.now sites.old
        (resolved.if label (cond_view cond.now) (stmt_view on_true.now) (stmt_view on_false.now))) }
    ensures falls { IfOk result (FallsFrom here.now
        (a_stmt (resolved.if label (cond_view cond.now) (stmt_view on_true.now) (stmt_view on_false.now)))) }
{
    let frame = here.frame;
    let point = open_point(here, label, sites)?;
    let place = InlineContext::Forked(Forked::OnTrue(Branches {
        point,
        cond,
        on_false,
    }));
    Ok(Next::Opens(InlineFrame { frame, place }, frame, Part::Stmt(on_true)))
}

/// The rounds of a loop after its own point. Its step's points come before those of its body.
pub fn open_rounds<'a>(frame: Frame, point: usize, repeated: Repeated<'a>) -> Next<'a>
    ensures { (step : Bor code.Stmt) × (step.now ≡ repeated.entry.step.now.value) × (result
        ≡ next.Opens
        (record { frame = frame; place = place.Forked (forked.Step point repeated.entry) })
        (record frame { breaks = None; continues = None }) (part.Stmt step)) }
{
    let place = InlineContext::Forked(Forked::Step(point, repeated));
    let outside = Frame {
        breaks: None,
        continues: None,
        ..frame
    };
    Next::Opens(
        InlineFrame { frame, place },
        outside,
        Part::Stmt(repeated.step),
    )
}

/// A loop: its point, and its rounds.
fn open_loop<'a>(
    here: &Around<'_>,
    label: usize,
    repeated: &Repeated<'a>,
    sites: &mut Vec<Site>,
) -> Result<Next<'a>, InlineError>
    requires { StmtStands here.now (loop_of label repeated.now) }
    ensures leads { IfOk result
        (InlineStepLeadsFrom here.now sites.old sites.new (a_stmt (loop_of label repeated.now))) }
    ensures limit { OnLimit result (StopsStmt here.now sites.old (loop_of label repeated.now)) }
    ensures falls { IfOk result (FallsFrom here.now (a_stmt (loop_of label repeated.now))) }
{
    let point = open_point(here, label, sites)?;
    Ok(open_rounds(here.frame, point, *repeated))
}

/// A `switch`: its point, and its statements, which come after their labels.
fn open_switch<'a>(
    here: &Around<'_>,
    label: usize,
    value: &'a Expr,
    cases: &'a [CaseItem],
    sites: &mut Vec<Site>,
) -> Result<Next<'a>, InlineError>
    requires { StmtStands here.now (switch_of label value.now cases.now) }
    ensures leads { IfOk result (InlineStepLeadsFrom here.now sites.old sites.new
        (a_stmt (switch_of label value.now cases.now))) }
    ensures limit { OnLimit result (StopsStmt here.now sites.old
        (switch_of label value.now cases.now)) }
    ensures falls { IfOk result (FallsFrom here.now
        (a_stmt (switch_of label value.now cases.now))) }
{
    let point = open_point(here, label, sites)?;
    let row = CaseRow {
        point,
        value,
        arms: Vec::new(here.alloc),
        rest: cases,
    };
    next_case(here.alloc, here.frame, row)
}

/// A `for`: its point, at which its variables live already, and how it begins.
fn open_for<'a>(
    here: &Around<'_>,
    label: usize,
    init: &'a [BlockItem],
    repeated: &Repeated<'a>,
    sites: &mut Vec<Site>,
) -> Result<Next<'a>, InlineError>
    requires { StmtStands here.now (for_of label (items_of (map item_view init.now)) repeated.now) }
    ensures leads { IfOk result (InlineStepLeadsFrom here.now sites.old sites.new
        (a_stmt (for_of label (items_of (map item_view init.now)) repeated.now))) }
    ensures limit { OnLimit result (StopsStmt here.now sites.old
        (for_of label (items_of (map item_view init.now)) repeated.now)) }
    ensures falls { IfOk result (FallsFrom here.now
        (a_stmt (for_of label (items_of (map item_view init.now)) repeated.now))) }
{
    let frame = here.frame;
    let Some(live) = live_inside(frame.live, init) else {
        return Err(InlineError::Passed(Limit::Variables(label)));
    };
    let point = add_point(here.alloc, here.path, label, live, false, sites)?;
    let place = InlineContext::Init(point, *repeated);
    Ok(Next::Opens(InlineFrame { frame, place }, frame, Part::Items(init)))
}

/// An assignment: its point, and what the variable gets.
fn open_assign<'a>(
    here: &Around<'_>,
    label: usize,
    variable: Variable,
    rvalue: &'a Rvalue,
    sites: &mut Vec<Site>,
) -> Result<Next<'a>, InlineError>
    requires { StmtStands here.now (resolved.assign label (variable_view variable) (rvalue_view rvalue.now)) }
    ensures leads { IfOk result (InlineStepLeadsFrom here.now sites.old sites.new
        (a_stmt (resolved.assign label (variable_view variable) (rvalue_view rvalue.now)))) }
    ensures limit { OnLimit result (StopsStmt here.now sites.old
        (resolved.assign label (variable_view variable) (rvalue_view rvalue.now))) }
    ensures falls { IfOk result (FallsFrom here.now
        (a_stmt (resolved.assign label (variable_view variable) (rvalue_view rvalue.now)))) }
{
    let frame = here.frame;
    let point = open_point(here, label, sites)?;
    let place = store_index(frame.base, variable.slot);
    let receiver = Receiver::variable(place, variable.number_type);
    match rvalue {
        Rvalue::Value(value) => {
            let value = value.copy(here.alloc)?;
            let give = Op::StoreValue(frame.base, receiver, value);
            close(
                put_point(here.alloc, point, Node::Act(point, give)),
                frame.live,
            )
        }
        Rvalue::Result(call) => {
            let place = InlineContext::Given(point);
            let caller = Caller {
                point,
                receiver,
                element: None,
            };
            Ok(Next::Opens(
                InlineFrame { frame, place },
                frame,
                Part::Call(caller, call),
            ))
        }
    }
}

/// A call that is a statement: its point, and the call, whose value nothing gets.
fn open_call_statement<'a>(
    here: &Around<'_>,
    label: usize,
    call: &'a Call,
    sites: &mut Vec<Site>,
) -> Result<Next<'a>, InlineError>
    requires { StmtStands here.now (resolved.call label (call_view call.now)) }
    ensures leads { IfOk result (InlineStepLeadsFrom here.now sites.old sites.new
        (a_stmt (resolved.call label (call_view call.now)))) }
    ensures limit { OnLimit result (StopsStmt here.now sites.old (resolved.call label (call_view call.now))) }
    ensures falls { IfOk result (FallsFrom here.now (a_stmt (resolved.call label (call_view call.now)))) }
{
    let frame = here.frame;
    let point = open_point(here, label, sites)?;
    let place = InlineContext::Given(point);
    let caller = Caller {
        point,
        receiver: Receiver::nobody(),
        element: None,
    };
    let part = Part::Call(caller, call);
    Ok(Next::Opens(InlineFrame { frame, place }, frame, part))
}

/// A statement without statements in it.
fn open_simple<'a>(
    here: &Around<'_>,
    stmt: &'a Stmt,
    sites: &mut Vec<Site>,
) -> Result<Next<'a>, InlineError>
    requires simple { IsSimple (stmt_view stmt.now) }
    requires stands { StmtStands here.now (stmt_view stmt.now) }
    ensures leads { IfOk result (InlineStepLeadsFrom here.now sites.old sites.new (a_stmt (stmt_view stmt.now))) }
    ensures limit { OnLimit result (StopsStmt here.now sites.old (stmt_view stmt.now)) }
    ensures falls { IfOk result (FallsFrom here.now (a_stmt (stmt_view stmt.now))) }
{
    match stmt {
        Stmt::Assign(label, variable, rvalue) => {
            open_assign(here, *label, *variable, rvalue, sites)
        }
        Stmt::Write(label, element, rvalue) => open_write(here, *label, element, rvalue, sites),
        Stmt::Call(label, call) => open_call_statement(here, *label, call, sites),
        Stmt::Return(label, rvalue) => open_return(here, *label, rvalue, sites),
        _ => {
            let node = inline_lone(here, stmt, sites)?;
            let live = here.frame.live;
            Ok(Next::Written(Written { node, live }))
        }
    }
}

/// A statement: one with no statement and no call in it is written at once, the place of any other opens.
pub fn open_stmt<'a>(
    here: &Around<'_>,
    stmt: &'a Stmt,
    sites: &mut Vec<Site>,
) -> Result<Next<'a>, InlineError>
    requires { StmtStands here.now (stmt_view stmt.now) }
    ensures leads { IfOk result (InlineStepLeadsFrom here.now sites.old sites.new (a_stmt (stmt_view stmt.now))) }
    ensures limit { OnLimit result (StopsStmt here.now sites.old (stmt_view stmt.now)) }
    ensures falls { IfOk result (FallsFrom here.now (a_stmt (stmt_view stmt.now))) }
{
    match stmt {
        Stmt::Block(items, end) => Ok(open_block(here, &items.items, *end)),
        Stmt::If(label, cond, on_true, on_false) => {
            open_if(here, *label, cond, on_true, on_false, sites)
        }
        Stmt::Loop(label, cond, body, step) => {
            let repeated = Repeated { cond, body, step };
            open_loop(here, *label, &repeated, sites)
        }
        Stmt::Switch(label, value, cases) => open_switch(here, *label, value, cases, sites),
        Stmt::For {
            label,
            init,
            cond,
            body,
            step,
        } => {
            let repeated = Repeated { cond, body, step };
            open_for(here, *label, &init.items, &repeated, sites)
        }
        _ => open_simple(here, stmt, sites),
    }
}

/// A declarator: its point, then its variable, and what that gets.
pub fn open_declaration<'a>(
    here: &Around<'_>,
    declarator: &'a Declarator,
    sites: &mut Vec<Site>,
) -> Result<Next<'a>, InlineError>
    requires { ItemStands here.now (resolved.declaration (declarator_view declarator.now)) }
    ensures leads { IfOk result (InlineStepLeadsFrom here.now sites.old sites.new
        (a_declaration (declarator_view declarator.now))) }
    ensures limit { OnLimit result (StopsItem here.now sites.old
        (resolved.declaration (declarator_view declarator.now))) }
    ensures falls { IfOk result (FallsFrom here.now (a_declaration (declarator_view declarator.now))) }
{
    let alloc = here.alloc;
    let frame = here.frame;
    let number_type = declarator.number_type;
    let receiver = Receiver::variable(frame.live, number_type);
    let point = open_point(here, declarator.label, sites)?;
    let live = frame.live + 1;
    match &declarator.rvalue {
        None => {
            let append = Op::Append(number_type);
            close(put_point(alloc, point, Node::Act(point, append)), live)
        }
        Some(Rvalue::Value(value)) => {
            let value = value.copy(alloc)?;
            let give = Op::StoreValue(frame.base, receiver, value);
            let node = Node::Act(point, give);
            close(declare(alloc, point, number_type, node), live)
        }
        Some(Rvalue::Result(call)) => {
            let place = InlineContext::Declared(point, number_type);
            let behind_it = Frame { live, ..frame };
            let caller = Caller {
                point,
                receiver,
                element: None,
            };
            let part = Part::Call(caller, call);
            Ok(Next::Opens(InlineFrame { frame, place }, behind_it, part))
        }
    }
}
