//! The paths of a program, from one source after the other: they are counted, and each source's moves are put into a
//! table, out of which its paths are written.

ghost use Rattle.std.specs.Prelude.{◌≡◌, ◌<◌, ℕ, length, map, slice_get, Err, IfOk, OnOk};
ghost use Rattle.lra_operations.specs.{Tree.Node, TreeViews.node_view, TreeViews.site_view};
ghost use Rattle.lra_paths.specs.Paths.{AreFewIn, HasTooManyIn, actions_between_in, live_of};
ghost use Rattle.lra_paths.specs.Sources as sources;
ghost use Rattle.lra_paths.specs.Sources.{Adds, IsDeparture, IsSource, all_departing, departing, ending, same_point};
ghost use Rattle.lra_paths.specs.Sources.{to_goal};
ghost use Rattle.lra_paths.specs.Crates.lra_path_segments.TreeSegments as ways;
ghost use Rattle.lra_paths.specs.Crates.lra_path_segments.TreeSegmentViews.{end_view, goal_view, move_view, seen};
ghost use Rattle.lra_paths.specs.Crates.lra_path_segments.TreeSegmentViews.{tree_segment_view};
ghost use Rattle.lra_paths.specs.Crates.lra_path_segments.TreeSegments.{AreSegmentsOf};
ghost use Rattle.lra_path_disjuncts.specs.Tables.{IsTable, moves_at};
ghost use Rattle.lra_paths.specs.Crates.lra_path_segments.Segments as trees;
ghost use Rattle.lra_paths.specs.declared.paths.PathsFailure.TheVariants.{TooMany};

use crate::sources::{Source, SourceSegment};
use lra_operations::{GlobalVariable, InlinedProgram, Site};
use lra_path_disjuncts::{
    End, Goal, Move, MovesEntry, TreeSegment, push_first_then, push_globals, push_segment,
    push_stay, segments_of,
};
use std::alloc::{AllocError, Global};

/// The globals and the points of a program, and all its segments.
#[derive(Drop)]
pub struct Paths<'g> {
    pub globals: &'g [GlobalVariable],
    pub sites: &'g [Site],
    pub segments: Vec<TreeSegment<'g>>,
}

/// Why a program has no paths: more than 1,024 lead from the source of this number to one goal, or the memory fails.
#[derive(Clone, Copy, PartialEq, Eq, Debug)]
pub enum PathsFailure {
    TooMany(usize),
    Memory,
}

impl From<AllocError> for PathsFailure {
    ghost use Rattle.lra_paths.specs.declared.paths.PathsFailure.TheVariants.{Memory};

    ghost from_gives = { λ _ e. e ≡ Memory };

    fn from(_: AllocError) -> Self {
        PathsFailure::Memory
    }
}

/// Where segments begin: at a point, or at the start if there is none; how many variables live there, and the place
/// of what is done before.
#[derive(Clone, Copy)]
struct Departure {
    point: Option<usize>,
    live: usize,
    before: usize,
}

fn is_same_point(one: Option<usize>, other: Option<usize>) -> bool
    ensures { result ≡ same_point one other }
{
    match one {
        None => other.is_none(),
        Some(point) => match other {
            None => false,
            Some(wanted) => point == wanted,
        },
    }
}

// segments ----------------------------------------------------------------------------------------

/// A segment to the goal by these moves comes after the others.
fn push_source_way(
    alloc: Global,
    departure: Departure,
    goal: Goal,
    moves: &[Move<'_>],
    source: &mut Source,
) -> Result<(), AllocError>
    requires is { IsSource source.old }
    requires before { departure.before < length source.old.entries.items }
    ensures { OnOk result (Adds source.old source.new (λ g.
        ending (moves_at source.old.entries.items departure.before) departure.live g
        (map move_view moves.now) (ways.reaches (goal_view goal)))) }
{
    let way = push_segment(alloc, departure.live, moves, &mut source.entries)?;
    let place = push_first_then(&mut source.entries, departure.before, way)?;
    source.segments.push(SourceSegment { goal, place })?;
    Ok(())
}

/// If a goal is met, the segment comes after the others.
fn push_meeting(
    alloc: Global,
    departure: Departure,
    stretch: &TreeSegment<'_>,
    source: &mut Source,
) -> Result<(), AllocError>
    requires is { IsSource source.old }
    requires before { departure.before < length source.old.entries.items }
    ensures { OnOk result (Adds source.old source.new (λ g.
        ending (moves_at source.old.entries.items departure.before) departure.live g
        (map move_view stretch.now.moves.items) (end_view stretch.now.end))) }
{
    match stretch.end {
        End::Exits(_) => Ok(()),
        End::Reaches(goal) => push_source_way(
            alloc,
            departure,
            goal,
            stretch.moves.as_slice(),
            source,
        ),
    }
}

/// If the tree segment is from there, its segment comes after the others.
fn push_departing(
    alloc: Global,
    departure: Departure,
    stretch: &TreeSegment<'_>,
    source: &mut Source,
) -> Result<(), AllocError>
    requires is { IsSource source.old }
    requires before { departure.before < length source.old.entries.items }
    ensures { OnOk result (Adds source.old source.new (λ g.
        departing (moves_at source.old.entries.items departure.before) departure.live
        departure.point g (tree_segment_view stretch.now))) }
{
    if is_same_point(stretch.source, departure.point) {
        push_meeting(alloc, departure, stretch, source)
    } else {
        Ok(())
    }
}

/// All segments from there come after the others, in their order.
fn push_all_departing(
    alloc: Global,
    departure: Departure,
    ways: &[TreeSegment<'_>],
    source: &mut Source,
) -> Result<(), AllocError>
    requires is { IsSource source.old }
    requires before { departure.before < length source.old.entries.items }
    ensures { OnOk result (Adds source.old source.new (all_departing
        (moves_at source.old.entries.items departure.before) departure.live departure.point
        (seen ways.now))) }
{
    'ways: for stretch in ways {
        push_departing(alloc, departure, stretch, source)?;
    }
    Ok(())
}

// sources -----------------------------------------------------------------------------------------

/// How many variables live at the point.
fn live_at(sites: &[Site], point: usize) -> usize
    ensures { result ≡ live_of (slice_get (map site_view sites.now) point) }
{
    match sites.get(point) {
        None => 0,
        Some(site) => site.live,
    }
}

impl Paths<'_> {
    /// The start is the source 0; what is done first there is that the globals get their first values.
    fn depart(
        &self,
        alloc: Global,
        source: usize,
        entries: &mut Vec<MovesEntry>,
    ) -> Result<Departure, AllocError>
        requires { IsTable entries.old.items }
        ensures table { OnOk result (IsTable entries.new.items) }
        ensures is { IfOk result (λ d. IsDeparture self.now.globals.now
            (map site_view self.now.sites.now) source entries.new.items d) }
    {
        match source.checked_sub(1) {
            None => Ok(Departure {
                point: None,
                live: self.globals.len(),
                before: push_globals(alloc, self.globals, entries)?,
            }),
            Some(point) => Ok(Departure {
                point: Some(point),
                live: live_at(self.sites, point),
                before: push_stay(entries)?,
            }),
        }
    }

    /// The segments from the source of this number: 0 is the start, and the points have the numbers from 1 on.
    pub fn from(&self, alloc: Global, source: usize) -> Result<Source, AllocError>
        ensures table { IfOk result (λ s. IsTable s.entries.items) }
        ensures leads { IfOk result
            (λ s. (g : Node) → AreSegmentsOf (seen self.now.segments.items) g →
            (goal : trees.Goal) → to_goal s.entries.items s.segments.items goal ≡ actions_between_in
            self.now.globals.now (map site_view self.now.sites.now) g source goal) }
    {
        let mut entries = Vec::new(alloc);
        let departure = self.depart(alloc, source, &mut entries)?;
        let mut found = Source {
            entries,
            segments: Vec::new(alloc),
        };
        push_all_departing(alloc, departure, self.segments.as_slice(), &mut found)?;
        Ok(found)
    }
}

/// All segments of the program, of which no more than 1,024 paths may lead from one source to one goal.
pub fn find_paths<'g>(
    alloc: Global,
    globals: &'g [GlobalVariable],
    graph: &'g InlinedProgram,
) -> Result<Paths<'g>, PathsFailure>
    ensures few { IfOk result (λ p. AreFewIn globals.now (map site_view graph.now.sites.items)
        (node_view graph.now.tree)) }
    ensures of { IfOk result (λ p. (p.globals.now ≡ globals.now) ×
        (p.sites.now ≡ graph.now.sites.items) ×
        AreSegmentsOf (seen p.segments.items) (node_view graph.now.tree)) }
    ensures many { (q : ℕ) → result ≡ Err (TooMany q) → HasTooManyIn globals.now
        (map site_view graph.now.sites.items) (node_view graph.now.tree) q }
{
    let paths = Paths {
        globals,
        sites: graph.sites.as_slice(),
        segments: segments_of(alloc, &graph.tree)?,
    };
    'sources: for source in 0..=graph.sites.len() {
        let found = paths.from(alloc, source)?;
        if found.has_too_many() {
            return Err(PathsFailure::TooMany(source));
        }
    }
    Ok(paths)
}
