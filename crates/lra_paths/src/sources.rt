//! The paths from one source, written out for one goal at a time.

ghost use Rattle.std.specs.Prelude.{[], ◌≡◌, ◌≤◌, ◌++◌, length, cond, true, false, OnOk, IfOk};
ghost use Rattle.lra_path_disjuncts.specs.Tables.{IsTable, capped, count_of, moves_at};
ghost use Rattle.lra_path_disjuncts.specs.{Disjuncts.greatest_paths, Disjuncts.disjuncts, TableDisjuncts.lists_done};
ghost use Rattle.lra_paths.specs.{Paths.same_goal, Sources.AreFewTo, Sources.AreManyTo, Sources.to_goal};
ghost use Rattle.lra_paths.specs.Crates.lra_path_segments.TreeSegmentViews.{goal_view};

use lra_path_disjuncts::{
    Change, GREATEST_PATHS, Goal, MovesEntry, add_capped, disjuncts_at, write_disjuncts,
};
use std::alloc::{AllocError, Global};

/// A segment from the source: its goal, and where its moves stand in the source's table.
#[derive(Clone, Copy)]
pub struct SourceSegment {
    pub goal: Goal,
    pub place: usize,
}

/// All segments from one source, with a table of their moves.
#[derive(Drop)]
pub struct Source {
    pub entries: Vec<MovesEntry>,
    pub segments: Vec<SourceSegment>,
}

fn is_same_goal(one: Goal, other: Goal) -> bool
    ensures { result ≡ same_goal (goal_view one) (goal_view other) }
{
    match one {
        Goal::ComesTo(point) => match other {
            Goal::ComesTo(wanted) => point == wanted,
            Goal::Violates(_) => false,
        },
        Goal::Violates(point) => match other {
            Goal::ComesTo(_) => false,
            Goal::Violates(wanted) => point == wanted,
        },
    }
}

/// The paths of a segment that is to be written come after the others.
fn write_if<'s>(
    alloc: Global,
    entries: &'s [MovesEntry],
    place: usize,
    is: bool,
    all: &mut Vec<Vec<&'s Change>>,
) -> Result<(), AllocError>
    requires table { IsTable entries.now }
    requires few { length (cond is (disjuncts (moves_at entries.now place)) []) ≤ greatest_paths }
    ensures { OnOk result (lists_done all.new.items ≡
        lists_done all.old.items ++ cond is (disjuncts (moves_at entries.now place)) []) }
{
    if is {
        write_disjuncts(alloc, entries, place, all)
    } else {
        Ok(())
    }
}

/// How many paths a segment has that is to be counted, else none.
fn count_if(entries: &[MovesEntry], place: usize, is: bool) -> usize
    requires { IsTable entries.now }
    ensures { result ≡ capped (length (cond is (disjuncts (moves_at entries.now place)) [])) }
{
    if is { disjuncts_at(entries, place) } else { 0 }
}

impl Source {
    /// How many paths lead to the goal, counted no further than to 1,025.
    pub fn count_to(&self, goal: Goal) -> usize
        requires { IsTable self.now.entries.items }
        ensures { result ≡ capped (length (to_goal self.now.entries.items self.now.segments.items
            (goal_view goal))) }
    {
        let mut count = 0;
        'ways: for way in &self.segments {
            let is = is_same_goal(way.goal, goal);
            count = add_capped(count, count_if(self.entries.as_slice(), way.place, is));
        }
        count
    }

    /// Whether more than 1,024 paths lead to one goal.
    pub fn has_too_many(&self) -> bool
        requires { IsTable self.now.entries.items }
        ensures many { result ≡ true → AreManyTo self.now.entries.items self.now.segments.items }
        ensures few { result ≡ false → AreFewTo self.now.entries.items self.now.segments.items }
    {
        'ways: for way in &self.segments {
            if self.count_to(way.goal) > GREATEST_PATHS {
                return true;
            }
        }
        false
    }

    /// The paths to the goal, in order, as lists of changes.
    pub fn paths_to<'s>(
        &'s self,
        alloc: Global,
        goal: Goal,
    ) -> Result<Vec<Vec<&'s Change>>, AllocError>
        requires table { IsTable self.now.entries.items }
        requires few { length (to_goal self.now.entries.items self.now.segments.items
            (goal_view goal)) ≤ greatest_paths }
        ensures { IfOk result (λ v. lists_done v.items ≡
            to_goal self.now.entries.items self.now.segments.items (goal_view goal)) }
    {
        let mut all = Vec::new(alloc);
        'ways: for way in &self.segments {
            let is = is_same_goal(way.goal, goal);
            write_if(alloc, self.entries.as_slice(), way.place, is, &mut all)?;
        }
        Ok(all)
    }
}
