//! Calls written out: the tree of a program and its points. A call is written out where it stands, so a function that
//! is called twice has its points twice, under two paths.

mod calls;
mod going_on;
mod parts;
mod whole;

ghost use Rattle.std.specs.Prelude.{◌≡◌, ◌<◌, [], ◌∷◌, ◌++◌, map, IfOk};
ghost use Rattle.lra_program.specs.ProgramViews.{item_view, items_of};
ghost use Rattle.lra_program.specs.{Sites.live_after_items, WellFormed.IsWellFormed};
ghost use Rattle.lra_operations.specs.TreeViews.{node_view};
ghost use Rattle.lra_inline_steps.specs.Inlining.{points_in, program_of, program_around, ItemsStand};
ghost use Rattle.lra_inline_steps.specs.Stack.{InlineTask, inline_task, part_view, IsWritten, InlineStepLeads};
ghost use Rattle.lra_inline_steps.specs.{Inlining.AreItemsWrittenOut, Inlining.StopsItems, Limits.OnLimit};
ghost use Rattle.lra_inline_steps.specs.{Stack.StandsAs, Stack.Stops, Stack.StopsAs, Steps.next_left, Steps.work_steps};

use going_on::go_on;
use lra_inline_steps::{Around, Frame, InlineError, InlineFrame, Next, Part, Source, Written};
use lra_operations::{Path, Site};
use lra_program::BlockItem;
use parts::open_part;
use std::alloc::AllocError;
pub use whole::{build, build_thread};

/// One place more.
fn add_place<'a>(
    places: &mut Vec<InlineFrame<'a>>,
    place: InlineFrame<'a>,
) -> Result<(), AllocError>
    ensures { IfOk result (λ _. places.new.items ≡ places.old.items ++ place.entry ∷ []) }
{
    places.push(place)?;
    Ok(())
}

/// A place opens, and in it a part that stands in a frame of its own.
fn open_place<'a>(
    source: Source<'a>,
    path: &mut Path,
    sites: &mut Vec<Site>,
    places: &mut Vec<InlineFrame<'a>>,
    place: InlineFrame<'a>,
    inside: (Frame, Part<'a>),
) -> Result<Next<'a>, InlineError>
    requires well { IsWellFormed (program_of source) }
    requires stands { StandsAs (program_of source) (part_view inside.1) inside.0 }
    ensures added { IfOk result (λ _. places.new.items ≡ places.old.items ++ place.entry ∷ []) }
    ensures leads { IfOk result
        (λ next. InlineStepLeads (program_of source.entry) (inline_task (part_view inside.entry.1) path.old
        inside.entry.0 (points_in sites.old)) next path.new (points_in sites.new)) }
    ensures limit { OnLimit result (StopsAs (program_of source.entry) (part_view inside.entry.1) path.old
        inside.entry.0 (points_in sites.old)) }
    ensures falls { IfOk result (λ next. next_left (program_of source.entry) next
        < work_steps (program_of source.entry) inside.entry.0 (part_view inside.entry.1)) }
{
    let (frame, part) = inside;
    add_place(places, place)?;
    open_part(source, path, sites, frame, part)
}

/// What a first step leads to, along a list of open places.
fn write_out<'a>(
    source: Source<'a>,
    path: &mut Path,
    sites: &mut Vec<Site>,
    first: Next<'a>,
) -> Result<Written, InlineError>
    requires well { IsWellFormed (program_of source) }
    requires leads { (whole : InlineTask)
        × InlineStepLeads (program_of source) whole first path.old (points_in sites.old) }
    ensures written { (whole : InlineTask) →
        InlineStepLeads (program_of source.entry) whole first.entry path.old (points_in sites.old)
        → IfOk result (λ w. IsWritten (program_of source.entry) whole (node_view w.node) w.live (points_in sites.new)) }
    ensures limit { (whole : InlineTask) →
        InlineStepLeads (program_of source.entry) whole first.entry path.old (points_in sites.old)
        → OnLimit result (Stops (program_of source.entry) whole) }
{
    let mut places = Vec::new(source.alloc);
    let mut next = first;
    'places: loop {
        next = match next {
            Next::Opens(place, inside, inner) => {
                open_place(source, path, sites, &mut places, place, (inside, inner))?
            }
            Next::Written(part) => match places.pop() {
                Some(place) => go_on(source, path, sites, place, part)?,
                None => return Ok(part),
            },
        };
    }
}

/// The items, and how many variables live after them.
fn inline_items<'a>(
    around: &Around<'a>,
    items: &'a [BlockItem],
    sites: &mut Vec<Site>,
) -> Result<Written, InlineError>
    requires well { IsWellFormed (program_around around.now) }
    requires stands { ItemsStand around.now (items_of (map item_view items.now)) }
    ensures last { IfOk result (λ w. w.live ≡ live_after_items around.now.frame.live
        (items_of (map item_view items.now))) }
    ensures written { IfOk result (λ w. AreItemsWrittenOut around.now sites.old sites.new
        (items_of (map item_view items.now)) w.node) }
    ensures limit { OnLimit result (StopsItems around.now sites.old (items_of (map item_view items.now))) }
{
    let source = Source {
        alloc: around.alloc,
        program: around.program,
    };
    let mut path = around.path.copy(around.alloc)?;
    let first = open_part(source, &mut path, sites, around.frame, Part::Items(items))?;
    write_out(source, &mut path, sites, first)
}
