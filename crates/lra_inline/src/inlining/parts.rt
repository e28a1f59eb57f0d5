//! The first step into a part that is to be written out.

ghost use Rattle.std.specs.Prelude.{◌≡◌, ◌+◌, ◌≤◌, ◌<◌, ℕ, List, map, IfOk};
ghost use Rattle.lra_base.specs.Limits.{greatest_live};
ghost use Rattle.lra_program.specs.Program as resolved;
ghost use Rattle.lra_program.specs.Sites as points;
ghost use Rattle.lra_program.specs.ProgramViews.{call_view, item_view, items_of};
ghost use Rattle.lra_program.specs.{Sites.call_events, WellFormed.IsWellFormed};
ghost use Rattle.lra_operations.specs.TreeViews.{node_view};
ghost use Rattle.lra_inline_steps.specs.Building as building;
ghost use Rattle.lra_inline_steps.specs.Limits.{OnLimit, add_points, stopped};
ghost use Rattle.lra_inline_steps.specs.Stack.{a_call, all_items, inline_task, part_view, ItemsLoop, InlineStepLeads};
ghost use Rattle.lra_inline_steps.specs.Stack.{StandsAs, StopsAs};
ghost use Rattle.lra_inline_steps.specs.{Inlining.points_in, Inlining.program_of, Steps.next_left, Steps.work_steps};

use super::calls::{callee, enter_call};
use lra_inline_steps::{
    Around, CalledFrom, Caller, Frame, InlineContext, InlineError, InlineFrame, ItemRow, Next,
    Part, Source, close, open_array, open_declaration, open_rounds, open_stmt,
};
use lra_operations::forms::put_in_a_row;
use lra_operations::{Node, Path, Site};
use lra_program::{BlockItem, Call};
use std::alloc::Global;
use std::mem;

/// The items that are left, after those that are written and after which so many variables live; what is written of
/// all of them is one tree.
pub fn next_item<'a>(
    alloc: Global,
    frame: Frame,
    parts: Vec<Node>,
    rest: &'a [BlockItem],
    live: usize,
) -> Result<Next<'a>, InlineError>
    ensures leads { (P : resolved.Program) (path : List ℕ) (S V : List points.Site) (all : resolved.BlockItems)
        → ItemsLoop P path frame S all (items_of (map item_view rest.now)) (map node_view parts.items) live V
        → IfOk result (λ next. InlineStepLeads P (inline_task (all_items all) path frame S) next
        path V) }
    ensures memory { OnLimit result (λ _. ⊥) }
    ensures falls { (P : resolved.Program) → IfOk result (λ next. next_left P next
        < work_steps P frame (all_items (items_of (map item_view rest.now)))) }
{
    let Some((item, behind)) = rest.split_first() else {
        return close(put_in_a_row(alloc, parts), live);
    };
    let place = InlineContext::Items(ItemRow {
        parts,
        rest: behind,
    });
    let inside = Frame { live, ..frame };
    match item {
        BlockItem::Declaration(declarator) => {
            let part = Part::Declaration(declarator);
            Ok(Next::Opens(InlineFrame { frame, place }, inside, part))
        }
        BlockItem::Array(label, array) => {
            let part = Part::Array(*label, *array);
            Ok(Next::Opens(InlineFrame { frame, place }, inside, part))
        }
        BlockItem::Statement(stmt) => {
            Ok(Next::Opens(InlineFrame { frame, place }, inside, Part::Stmt(stmt)))
        }
    }
}

/// A call: the callee's body under a path of its own.
fn open_call<'a>(
    source: Source<'a>,
    path: &mut Path,
    frame: Frame,
    caller: Caller<'a>,
    call: &'a Call,
) -> Result<Next<'a>, InlineError>
    requires well { IsWellFormed (program_of source) }
    requires stands { building.CallStands (program_of source) frame (call_view call.now) }
    requires few { frame.live ≤ greatest_live + 1 }
    ensures leads { IfOk result
        (λ next. (S : List points.Site) → InlineStepLeads (program_of source.entry)
        (inline_task (a_call caller.entry (call_view call.now)) path.old frame S) next path.new S) }
    ensures limit { OnLimit result (λ l. (S : List points.Site)
        → add_points S (call_events (program_of source.entry) frame.calls_left path.old frame.live
        (call_view call.now)) ≡ stopped l) }
    ensures falls { IfOk result (λ next. next_left (program_of source.entry) next
        < work_steps (program_of source.entry) frame (a_call caller.entry (call_view call.now))) }
{
    let here = Around {
        alloc: source.alloc,
        program: source.program,
        path: &*path,
        frame,
    };
    let function = callee(source.program, call);
    let receiver = caller.receiver.result_receiver(function.result_type);
    let (inside, within) = enter_call(&here, receiver, call)?;
    let callers = mem::replace(path, inside);
    let place = InlineContext::Callee(CalledFrom {
        path: callers,
        caller,
        call,
    });
    let body = Part::Items(&function.body.items);
    Ok(Next::Opens(InlineFrame { frame, place }, within, body))
}

/// The first step into a part.
pub fn open_part<'a>(
    source: Source<'a>,
    path: &mut Path,
    sites: &mut Vec<Site>,
    frame: Frame,
    part: Part<'a>,
) -> Result<Next<'a>, InlineError>
    requires well { IsWellFormed (program_of source) }
    requires stands { StandsAs (program_of source) (part_view part) frame }
    ensures leads { IfOk result (λ next. InlineStepLeads (program_of source.entry)
        (inline_task (part_view part.entry) path.old frame (points_in sites.old)) next path.new (points_in sites.new)) }
    ensures limit { OnLimit result (StopsAs (program_of source.entry) (part_view part.entry) path.old
        frame (points_in sites.old)) }
    ensures falls { IfOk result (λ next. next_left (program_of source.entry) next
        < work_steps (program_of source.entry) frame (part_view part.entry)) }
{
    let here = Around {
        alloc: source.alloc,
        program: source.program,
        path: &*path,
        frame,
    };
    match part {
        Part::Stmt(stmt) => open_stmt(&here, stmt, sites),
        Part::Declaration(declarator) => open_declaration(&here, declarator, sites),
        Part::Array(label, array) => open_array(&here, label, array, sites),
        Part::Items(items) => {
            let parts = Vec::new(source.alloc);
            next_item(source.alloc, frame, parts, items, frame.live)
        }
        Part::Call(caller, call) => open_call(source, path, frame, caller, call),
        Part::Rounds(point, repeated) => Ok(open_rounds(frame, point, repeated)),
    }
}
