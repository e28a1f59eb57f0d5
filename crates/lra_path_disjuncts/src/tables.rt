//! Moves in a table, each after those of which it is made, so that what stands in several of them stands there once;
//! and their disjuncts, which are counted before they are written out.

ghost use Rattle.std.specs.Prelude.{[], ◌∷◌, ◌≡◌, ◌<◌, ◌≤◌, ◌+◌, ◌*◌, ◌++◌, length, IfOk, OnOk};
ghost use Rattle.lra_path_disjuncts.specs.Crates.lra_domain.Changes.{action_of};
ghost use Rattle.lra_path_disjuncts.specs.Crates.lra_domain.Moves.{stay, make, first_then, join_of};
ghost use Rattle.lra_path_disjuncts.specs.Disjuncts.{greatest_paths, disjuncts};
ghost use Rattle.lra_path_disjuncts.specs.TableDisjuncts.{all_done, all_pending, pending_disjuncts_size, pending_size};
ghost use Rattle.lra_path_disjuncts.specs.TableDisjuncts.{lists_done, one_of, disjunct_pending};
ghost use Rattle.lra_path_disjuncts.specs.Tables.{all_moves, capped, count_of, made_of, moves_at, disjunct_at};
ghost use Rattle.lra_path_disjuncts.specs.Tables.{IsMadeOfEarlier, IsTable, Has, Grows};

use lra_linearize::Change;
use std::alloc::{AllocError, Global};

/// How moves are made: of nothing, of a change, or of the moves at two places before them, the one after the other or
/// joined.
pub enum MovesNode {
    Stay,
    Make(Change),
    FirstThen(usize, usize),
    JoinOf(usize, usize),
}

impl Drop for MovesNode {
    fn drop(self) {
        match self {
            MovesNode::Stay => {}
            MovesNode::Make(_) => {}
            MovesNode::FirstThen(_, _) => {}
            MovesNode::JoinOf(_, _) => {}
        }
    }
}

/// Moves, and how many disjuncts they have, counted no further than to one more than the greatest number of paths.
pub struct MovesEntry {
    pub disjuncts: usize,
    pub moves: MovesNode,
}

impl Drop for MovesEntry {
    fn drop(self) {
        let MovesEntry {
            disjuncts: _,
            moves: _,
        } = self;
    }
}

// counts ------------------------------------------------------------------------------------------

/// No more paths than these may lead from one source to one goal.
pub const GREATEST_PATHS: usize = 1024;

/// The product of two counts of disjuncts, capped.
fn multiply_capped(one: usize, other: usize) -> usize
    ensures { result ≡ capped (one * other) }
{
    one.saturating_mul(other).min(GREATEST_PATHS + 1)
}

/// The sum of two counts of disjuncts, capped.
pub fn add_capped(one: usize, other: usize) -> usize
    ensures { result ≡ capped (one + other) }
{
    one.saturating_add(other).min(GREATEST_PATHS + 1)
}

/// How many disjuncts the moves at the place have.
pub fn disjuncts_at(entries: &[MovesEntry], place: usize) -> usize
    requires { IsTable entries.now }
    ensures { result ≡ capped (count_of (moves_at entries.now place)) }
{
    match entries.get(place) {
        Some(entry) => entry.disjuncts,
        None => 1,
    }
}

// entries -----------------------------------------------------------------------------------------

/// Moves after all others, at the place that is given.
fn push_entry(
    entries: &mut Vec<MovesEntry>,
    sides: usize,
    moves: MovesNode,
) -> Result<usize, AllocError>
    requires table { IsTable entries.old.items }
    requires behind { IsMadeOfEarlier (length entries.old.items) moves }
    requires count { sides ≡ capped (count_of (made_of (all_moves entries.old.items) moves)) }
    ensures table { OnOk result (IsTable entries.new.items) }
    ensures grows { OnOk result (Grows entries.old.items entries.new.items) }
    ensures has { IfOk result (λ i. Has entries.new.items i
        (made_of (all_moves entries.old.items) moves)) }
{
    let place = entries.len();
    entries.push(MovesEntry {
        disjuncts: sides,
        moves,
    })?;
    Ok(place)
}

/// Nothing is done.
pub fn push_stay(entries: &mut Vec<MovesEntry>) -> Result<usize, AllocError>
    requires { IsTable entries.old.items }
    ensures table { OnOk result (IsTable entries.new.items) }
    ensures grows { OnOk result (Grows entries.old.items entries.new.items) }
    ensures has { IfOk result (λ i. Has entries.new.items i stay) }
{
    push_entry(entries, 1, MovesNode::Stay)
}

/// One change.
pub fn push_make(entries: &mut Vec<MovesEntry>, change: Change) -> Result<usize, AllocError>
    requires { IsTable entries.old.items }
    ensures table { OnOk result (IsTable entries.new.items) }
    ensures grows { OnOk result (Grows entries.old.items entries.new.items) }
    ensures has { IfOk result (λ i. Has entries.new.items i (make (action_of change))) }
{
    push_entry(entries, 1, MovesNode::Make(change))
}

/// The moves at the one place, and then those at the other.
pub fn push_first_then(
    entries: &mut Vec<MovesEntry>,
    first: usize,
    then: usize,
) -> Result<usize, AllocError>
    requires table { IsTable entries.old.items }
    requires first { first < length entries.old.items }
    requires then { then < length entries.old.items }
    ensures table { OnOk result (IsTable entries.new.items) }
    ensures grows { OnOk result (Grows entries.old.items entries.new.items) }
    ensures has { IfOk result (λ i. Has entries.new.items i
        (first_then (moves_at entries.old.items first) (moves_at entries.old.items then))) }
{
    let one = disjuncts_at(entries.as_slice(), first);
    let other = disjuncts_at(entries.as_slice(), then);
    push_entry(
        entries,
        multiply_capped(one, other),
        MovesNode::FirstThen(first, then),
    )
}

/// What the moves at the one place leave, joined with what those at the other leave.
pub fn push_join(
    entries: &mut Vec<MovesEntry>,
    one: usize,
    other: usize,
) -> Result<usize, AllocError>
    requires table { IsTable entries.old.items }
    requires one { one < length entries.old.items }
    requires other { other < length entries.old.items }
    ensures table { OnOk result (IsTable entries.new.items) }
    ensures grows { OnOk result (Grows entries.old.items entries.new.items) }
    ensures has { IfOk result (λ i. Has entries.new.items i
        (join_of (moves_at entries.old.items one) (moves_at entries.old.items other))) }
{
    let ours = disjuncts_at(entries.as_slice(), one);
    let theirs = disjuncts_at(entries.as_slice(), other);
    push_entry(
        entries,
        add_capped(ours, theirs),
        MovesNode::JoinOf(one, other),
    )
}

// disjuncts ---------------------------------------------------------------------------------------

/// A disjunct that is still to be written: this one of the moves at the place.
#[derive(Clone, Copy)]
pub struct PendingDisjunct {
    pub place: usize,
    pub number: usize,
}

/// What is done first of a disjunct comes after what is written; the rest of it is due.
fn write_next<'t>(
    entries: &'t [MovesEntry],
    due: PendingDisjunct,
    left: &mut Vec<PendingDisjunct>,
    side: &mut Vec<&'t Change>,
) -> Result<(), AllocError>
    requires { IsTable entries.now }
    ensures writes { OnOk result (all_done side.new.items ++ all_pending entries.now left.new.items ≡
        all_done side.old.items ++
        (disjunct_pending entries.now due ++ all_pending entries.now left.old.items)) }
    ensures falls { OnOk result (pending_disjuncts_size entries.now left.new.items <
        pending_disjuncts_size entries.now left.old.items + pending_size entries.now due) }
{
    match entries.get(due.place) {
        None => Ok(()),
        Some(entry) => match &entry.moves {
            MovesNode::Stay => Ok(()),
            MovesNode::Make(change) => push_change(change, side),
            MovesNode::FirstThen(first, then) => {
                let count = disjuncts_at(entries, *first);
                push_two(
                    PendingDisjunct {
                        place: *then,
                        number: due.number / count,
                    },
                    PendingDisjunct {
                        place: *first,
                        number: due.number % count,
                    },
                    left,
                )
            }
            MovesNode::JoinOf(one, other) => push_one_of(
                disjuncts_at(entries, *one),
                *one,
                *other,
                due.number,
                left,
            ),
        },
    }
}

fn push_change<'t>(change: &'t Change, side: &mut Vec<&'t Change>) -> Result<(), AllocError>
    ensures { OnOk result (all_done side.new.items ≡
        all_done side.old.items ++ action_of change.now ∷ []) }
{
    side.push(change)?;
    Ok(())
}

/// Both are due, the second of them first.
fn push_two(
    later: PendingDisjunct,
    sooner: PendingDisjunct,
    left: &mut Vec<PendingDisjunct>,
) -> Result<(), AllocError>
    ensures { OnOk result (left.new.items ≡ left.old.items ++ later ∷ sooner ∷ []) }
{
    left.push(later)?;
    left.push(sooner)?;
    Ok(())
}

/// The one disjunct of a join is due, of which there are so many, or the other.
fn push_one_of(
    count: usize,
    one: usize,
    other: usize,
    number: usize,
    left: &mut Vec<PendingDisjunct>,
) -> Result<(), AllocError>
    ensures { OnOk result (left.new.items ≡ left.old.items ++ one_of count one other number ∷ []) }
{
    let due = if number < count {
        PendingDisjunct { place: one, number }
    } else {
        PendingDisjunct {
            place: other,
            number: number - count,
        }
    };
    left.push(due)?;
    Ok(())
}

/// The changes of one disjunct of the moves at the place.
pub fn write_disjunct<'t>(
    alloc: Global,
    entries: &'t [MovesEntry],
    place: usize,
    number: usize,
) -> Result<Vec<&'t Change>, AllocError>
    requires { IsTable entries.now }
    ensures { IfOk result
        (λ v. all_done v.items ≡ disjunct_at (moves_at entries.now place) number) }
{
    let mut side = Vec::new(alloc);
    let mut left = Vec::new(alloc);
    left.push(PendingDisjunct { place, number })?;
    'left: while let Some(due) = left.pop() {
        write_next(entries, due, &mut left, &mut side)?;
    }
    Ok(side)
}

/// All disjuncts of the moves at the place, in order, after others.
pub fn write_disjuncts<'t>(
    alloc: Global,
    entries: &'t [MovesEntry],
    place: usize,
    all: &mut Vec<Vec<&'t Change>>,
) -> Result<(), AllocError>
    requires table { IsTable entries.now }
    requires few { count_of (moves_at entries.now place) ≤ greatest_paths }
    ensures { OnOk result (lists_done all.new.items ≡
        lists_done all.old.items ++ disjuncts (moves_at entries.now place)) }
{
    let count = disjuncts_at(entries, place);
    'sides: for number in 0..count {
        let side = write_disjunct(alloc, entries, place, number)?;
        all.push(side)?;
    }
    Ok(())
}
