//! The next step at a place, after what was written of the part under way there.

ghost use Rattle.std.specs.Prelude.{◌<◌, ℕ, List, IfOk};
ghost use Rattle.lra_program.specs.Program as resolved;
ghost use Rattle.lra_program.specs.Sites as points;
ghost use Rattle.lra_inline_steps.specs.Stack.{InlineTask, IsAfterFrame, InlineStepLeads, Stops};
ghost use Rattle.lra_inline_steps.specs.Steps.{next_left, kind_left, place_left};
ghost use Rattle.lra_inline_steps.specs.{Inlining.points_in, Inlining.program_of, Limits.OnLimit};
ghost use Rattle.lra_inline_steps.specs.declared.stack.InlineContext.TheVariants as place;

use super::calls::end_call;
use super::parts::next_item;
use lra_inline_steps::{
    Around, Branches, CalledFrom, Forked, Frame, InlineContext, InlineError, InlineFrame, ItemRow,
    Next, Part, Source, Written, add_point, close, go_on_cases, leave_call,
};
use lra_operations::forms::{
    add_part, choice, close_block, declare, enclose_for, put_point, rounds,
};
use lra_operations::{Path, Site};
use std::alloc::Global;
use std::mem;

/// After one of some items: it comes after those before it.
fn go_on_items<'a>(
    alloc: Global,
    frame: Frame,
    row: ItemRow<'a>,
    item: Written,
) -> Result<Next<'a>, InlineError>
    ensures leads { (P : resolved.Program) (whole under : InlineTask) (path : List ℕ) (V : List points.Site)
        → IsAfterFrame P whole under (record { frame = frame; place = place.Items row.entry }) item path V
        → IfOk result (λ next. InlineStepLeads P whole next path V) }
    ensures memory { OnLimit result (λ _. ⊥) }
    ensures falls { (P : resolved.Program) → IfOk result (λ next. next_left P next
        < kind_left P frame (place.Items row.entry)) }
{
    let ItemRow { mut parts, rest } = row;
    add_part(&mut parts, item.node)?;
    next_item(alloc, frame, parts, rest, item.live)
}

/// After one of the two parts of a choice or a loop: its other part is next, or it is written.
fn go_on_forked<'a>(
    alloc: Global,
    frame: Frame,
    forked: Forked<'a>,
    part: Written,
) -> Result<Next<'a>, InlineError>
    ensures leads { (P : resolved.Program) (whole under : InlineTask) (path : List ℕ) (V : List points.Site)
        → IsAfterFrame P whole under (record { frame = frame; place = place.Forked forked.entry }) part path V
        → IfOk result (λ next. InlineStepLeads P whole next path V) }
    ensures memory { OnLimit result (λ _. ⊥) }
    ensures falls { (P : resolved.Program) → IfOk result (λ next. next_left P next
        < kind_left P frame (place.Forked forked.entry)) }
{
    match forked {
        Forked::OnTrue(branches) => {
            let Branches {
                point,
                cond,
                on_false,
            } = branches;
            let place = InlineContext::Forked(Forked::OnFalse(point, cond, part.node));
            Ok(Next::Opens(InlineFrame { frame, place }, frame, Part::Stmt(on_false)))
        }
        Forked::OnFalse(point, cond, on_true) => {
            let all = choice(alloc, point, frame.base, cond, on_true, part.node);
            close(all, frame.live)
        }
        Forked::Step(point, repeated) => {
            let inside = Frame {
                breaks: Some(frame.live),
                continues: Some(frame.live),
                ..frame
            };
            let place = InlineContext::Forked(Forked::Body(point, repeated.cond, part.node));
            Ok(Next::Opens(
                InlineFrame { frame, place },
                inside,
                Part::Stmt(repeated.body),
            ))
        }
        Forked::Body(point, cond, step) => {
            let all = rounds(alloc, point, frame.base, cond, part.node, step);
            close(all, frame.live)
        }
    }
}

/// After the items in it, a block's end.
fn end_block<'a>(
    alloc: Global,
    path: &Path,
    frame: Frame,
    end: usize,
    items: Written,
    sites: &mut Vec<Site>,
) -> Result<Next<'a>, InlineError>
    ensures leads { (P : resolved.Program) (whole under : InlineTask) → IsAfterFrame P whole under
        (record { frame = frame; place = place.Block end }) items path.now (points_in sites.old)
        → IfOk result (λ next. InlineStepLeads P whole next path.now (points_in sites.new)) }
    ensures limit { (P : resolved.Program) (whole under : InlineTask) → IsAfterFrame P whole under
        (record { frame = frame; place = place.Block end }) items path.now (points_in sites.old)
        → OnLimit result (Stops P whole) }
    ensures falls { (P : resolved.Program) → IfOk result (λ next. next_left P next
        < kind_left P frame (place.Block end)) }
{
    let point = add_point(alloc, path, end, items.live, false, sites)?;
    close(
        close_block(alloc, point, frame.live, items.node),
        frame.live,
    )
}

/// After the body of a called function: the point of its end, under the path of that body; the caller's goes on.
fn end_callee<'a>(
    source: Source<'a>,
    path: &mut Path,
    sites: &mut Vec<Site>,
    frame: Frame,
    from: CalledFrom<'a>,
    body: Written,
) -> Result<Next<'a>, InlineError>
    requires { (whole : InlineTask) × (under : InlineTask)
        × IsAfterFrame (program_of source) whole under
        (record { frame = frame; place = place.Callee from }) body path.old (points_in sites.old) }
    ensures leads { (whole under : InlineTask) → IsAfterFrame (program_of source.entry) whole under
        (record { frame = frame; place = place.Callee from.entry }) body path.old (points_in sites.old)
        → IfOk result (λ next. InlineStepLeads (program_of source.entry) whole next path.new (points_in sites.new)) }
    ensures limit { (whole under : InlineTask) → IsAfterFrame (program_of source.entry) whole under
        (record { frame = frame; place = place.Callee from.entry }) body path.old (points_in sites.old)
        → OnLimit result (Stops (program_of source.entry) whole) }
    ensures falls { (P : resolved.Program) → IfOk result (λ next. next_left P next
        < kind_left P frame (place.Callee from.entry)) }
{
    let CalledFrom {
        path: callers,
        caller,
        call,
    } = from;
    let inside = mem::replace(path, callers);
    let here = Around {
        alloc: source.alloc,
        program: source.program,
        path: &*path,
        frame,
    };
    let node = end_call(&here, &inside, caller, call, (body.node, body.live), sites)?;
    let live = frame.live;
    Ok(Next::Written(Written { node, live }))
}

/// The next step at a place.
pub fn go_on<'a>(
    source: Source<'a>,
    path: &mut Path,
    sites: &mut Vec<Site>,
    place: InlineFrame<'a>,
    part: Written,
) -> Result<Next<'a>, InlineError>
    requires { (whole : InlineTask) × (under : InlineTask)
        × IsAfterFrame (program_of source) whole under place part path.old (points_in sites.old) }
    ensures leads { (whole under : InlineTask)
        → IsAfterFrame (program_of source.entry) whole under place.entry part path.old (points_in sites.old)
        → IfOk result (λ next. InlineStepLeads (program_of source.entry) whole next path.new (points_in sites.new)) }
    ensures limit { (whole under : InlineTask)
        → IsAfterFrame (program_of source.entry) whole under place.entry part path.old (points_in sites.old)
        → OnLimit result (Stops (program_of source.entry) whole) }
    ensures falls { (P : resolved.Program) → IfOk result (λ next. next_left P next < place_left P place.entry) }
{
    let InlineFrame { frame, place } = place;
    let alloc = source.alloc;
    match place {
        InlineContext::Items(row) => go_on_items(alloc, frame, row, part),
        InlineContext::Cases(row) => go_on_cases(alloc, frame, row, part),
        InlineContext::Forked(forked) => go_on_forked(alloc, frame, forked, part),
        InlineContext::Init(point, repeated) => {
            let Written { node, live } = part;
            let place = InlineContext::Around(point, node);
            let behind_it = Frame { live, ..frame };
            let rounds = Part::Rounds(point, repeated);
            Ok(Next::Opens(InlineFrame { frame, place }, behind_it, rounds))
        }
        InlineContext::Around(point, init) => {
            let all = enclose_for(alloc, point, frame.live, init, part.node);
            close(all, frame.live)
        }
        InlineContext::Block(end) => end_block(alloc, path, frame, end, part, sites),
        InlineContext::Given(point) => close(put_point(alloc, point, part.node), frame.live),
        InlineContext::Declared(point, number_type) => {
            close(declare(alloc, point, number_type, part.node), part.live)
        }
        InlineContext::Returned(point) => close(
            leave_call(alloc, frame, point, part.node),
            frame.live,
        ),
        InlineContext::Callee(from) => end_callee(source, path, sites, frame, from, part),
    }
}
