//! All segments of a tree in one list: from its start, or from a point in it, to where it is left or a goal is met.
//! What trees make of the lists of the trees in them.

ghost use Rattle.std.specs.Prelude.{◌≡◌, [], ◌∷◌, ◌++◌, cond, map, option_to_list, IfOk, OnOk};
ghost use Rattle.lra_path_segments.specs.Crates.lra_program.ProgramViews.{cond_view};
ghost use Rattle.lra_operations.specs.{Tree.normal, TreeViews.exit_view};
ghost use Rattle.lra_path_segments.specs.TreeSegments as ways;
ghost use Rattle.lra_path_segments.specs.TreeSegmentViews.{end_view, completion_view, kind_view, move_view, seen};
ghost use Rattle.lra_path_segments.specs.TreeSegments.{all_joined, body_order, exits_as, segments_not_of_kind};
ghost use Rattle.lra_path_segments.specs.TreeSegments.{tree_segment, segments_of_kind};
ghost use Rattle.lra_path_segments.specs.{Segments.same_exit, TreeSegmentViews.tree_segment_view};

use lra_operations::{Arm, Exit, Op};
use lra_program::{CaseLabel, Cond, Expr};
use std::alloc::{AllocError, Global};

/// The value of a `switch` and its arms; the base is where the variables of its call begin.
#[derive(Clone, Copy)]
pub struct Selection<'g> {
    pub base: usize,
    pub value: &'g Expr,
    pub arms: &'g [Arm],
}

/// What is done on a segment: a least change, nothing if the condition has this value, or a value is computed that
/// goes to this label.
#[derive(Clone, Copy)]
pub enum Move<'g> {
    Change(&'g Op),
    Test(usize, &'g Cond, bool),
    Select(Selection<'g>, CaseLabel),
}

/// Where a segment leads: to a point, or to where the assertion at a point is false.
#[derive(Clone, Copy, PartialEq, Eq, Debug)]
pub enum Goal {
    ComesTo(usize),
    Violates(usize),
}

/// How a tree is left.
#[derive(Clone, Copy)]
pub enum Completion {
    Normal,
    Jump(Exit),
}

/// Where a segment ends: the tree is left so, or a goal is met.
#[derive(Clone, Copy)]
pub enum End {
    Exits(Completion),
    Reaches(Goal),
}

/// A segment, or a part of one: from the tree's start if there is no source, else from this point in it.
#[derive(Drop)]
pub struct TreeSegment<'g> {
    pub source: Option<usize>,
    pub moves: Vec<Move<'g>>,
    pub end: End,
}

/// What segments are distinguished by: whether they begin at the tree's start, or whether they leave it so.
#[derive(Clone, Copy)]
enum Kind {
    Starting,
    Leaving(Completion),
}

/// Segments by kind: those of one kind, and the others, each in their order.
#[derive(Drop)]
struct Parted<'g> {
    those: Vec<TreeSegment<'g>>,
    others: Vec<TreeSegment<'g>>,
}

// kinds -------------------------------------------------------------------------------------------

fn is_same_exit(one: Exit, other: Exit) -> bool
    ensures { result ≡ same_exit (exit_view one) (exit_view other) }
{
    match one {
        Exit::Broken => matches!(other, Exit::Broken),
        Exit::Continued => matches!(other, Exit::Continued),
        Exit::Returned => matches!(other, Exit::Returned),
    }
}

fn exits_as(how: Completion, end: End) -> bool
    ensures { result ≡ exits_as (completion_view how) (end_view end) }
{
    match end {
        End::Reaches(_) => false,
        End::Exits(Completion::Normal) => matches!(how, Completion::Normal),
        End::Exits(Completion::Jump(exit)) => match how {
            Completion::Normal => false,
            Completion::Jump(wanted) => is_same_exit(wanted, exit),
        },
    }
}

fn is_of(kind: Kind, stretch: &TreeSegment<'_>) -> bool
    ensures { result ≡ ways.is_of (kind_view kind) (tree_segment_view stretch.now) }
{
    match kind {
        Kind::Starting => stretch.source.is_none(),
        Kind::Leaving(how) => exits_as(how, stretch.end),
    }
}

fn put_part<'g>(
    parts: &mut Parted<'g>,
    stretch: TreeSegment<'g>,
    is: bool,
) -> Result<(), AllocError>
    ensures those { OnOk result (parts.new.those.items ≡
        parts.old.those.items ++ cond is (stretch.entry ∷ []) []) }
    ensures others { OnOk result (parts.new.others.items ≡
        parts.old.others.items ++ cond is [] (stretch.entry ∷ [])) }
{
    if is {
        parts.those.push(stretch)?;
    } else {
        parts.others.push(stretch)?;
    }
    Ok(())
}

fn part<'g>(
    alloc: Global,
    stretches: Vec<TreeSegment<'g>>,
    kind: Kind,
) -> Result<Parted<'g>, AllocError>
    ensures those { IfOk result (λ p. seen p.those.items ≡
        segments_of_kind (kind_view kind) (seen stretches.entry.items)) }
    ensures others { IfOk result (λ p. seen p.others.items ≡
        segments_not_of_kind (kind_view kind) (seen stretches.entry.items)) }
{
    let mut parts = Parted {
        those: Vec::new(alloc),
        others: Vec::new(alloc),
    };
    'each: for stretch in stretches {
        let is = is_of(kind, &stretch);
        put_part(&mut parts, stretch, is)?;
    }
    Ok(parts)
}

// one tree and then another -----------------------------------------------------------------------

/// The first segment followed by the second.
fn join<'g>(
    alloc: Global,
    one: &TreeSegment<'g>,
    other: &TreeSegment<'g>,
) -> Result<TreeSegment<'g>, AllocError>
    ensures { IfOk result (λ s. tree_segment_view s ≡
        ways.joined_segments (tree_segment_view one.now) (tree_segment_view other.now)) }
{
    let mut moves = Vec::new(alloc);
    moves.extend_from_slice(one.moves.as_slice())?;
    moves.extend_from_slice(other.moves.as_slice())?;
    Ok(TreeSegment {
        source: one.source,
        moves,
        end: other.end,
    })
}

/// Appends to `all` each of the first segments followed by the other.
fn push_joined<'g>(
    alloc: Global,
    ones: &[TreeSegment<'g>],
    other: &TreeSegment<'g>,
    all: &mut Vec<TreeSegment<'g>>,
) -> Result<(), AllocError>
    ensures { OnOk result (seen all.new.items ≡ seen all.old.items
        ++ map (λ x. ways.joined_segments x (tree_segment_view other.now)) (seen ones.now)) }
{
    'ones: for one in ones {
        let whole = join(alloc, one, other)?;
        all.push(whole)?;
    }
    Ok(())
}

/// Appends to `all` each of the first segments followed by each of the others.
fn push_all_joined<'g>(
    alloc: Global,
    ones: &[TreeSegment<'g>],
    others: &[TreeSegment<'g>],
    all: &mut Vec<TreeSegment<'g>>,
) -> Result<(), AllocError>
    ensures { OnOk result (seen all.new.items ≡
        seen all.old.items ++ all_joined (seen ones.now) (seen others.now)) }
{
    'others: for other in others {
        push_joined(alloc, ones, other, all)?;
    }
    Ok(())
}

/// Each segment that ends the first tree, followed by each that begins the second. Those that leave the first tree
/// elsewhere come before them, those that begin later in the second come after them.
fn join_parts<'g>(
    alloc: Global,
    first: Parted<'g>,
    second: Parted<'g>,
) -> Result<Vec<TreeSegment<'g>>, AllocError>
    ensures { IfOk result (λ v. seen v.items ≡ seen first.entry.others.items ++
        all_joined (seen first.entry.those.items) (seen second.entry.those.items) ++
        seen second.entry.others.items) }
{
    let Parted {
        those: ending,
        others: mut all,
    } = first;
    let Parted {
        those: starting,
        others: mut later,
    } = second;
    push_all_joined(alloc, ending.as_slice(), starting.as_slice(), &mut all)?;
    all.append(&mut later)?;
    Ok(all)
}

/// The segments of one tree and then another.
pub fn sequence<'g>(
    alloc: Global,
    first: Vec<TreeSegment<'g>>,
    second: Vec<TreeSegment<'g>>,
) -> Result<Vec<TreeSegment<'g>>, AllocError>
    ensures { IfOk result (λ v. seen v.items ≡
        ways.sequenced (seen first.entry.items) (seen second.entry.items)) }
{
    let ones = part(alloc, first, Kind::Leaving(Completion::Normal))?;
    let twos = part(alloc, second, Kind::Starting)?;
    join_parts(alloc, ones, twos)
}

// choices -----------------------------------------------------------------------------------------

/// The segment with the move before it, if it begins at the tree's start.
fn prefix<'g>(first: Move<'g>, stretch: TreeSegment<'g>) -> Result<TreeSegment<'g>, AllocError>
    ensures { IfOk result (λ s. tree_segment_view s ≡
        ways.prefixed (move_view first.entry) (tree_segment_view stretch.entry)) }
{
    let TreeSegment {
        source,
        mut moves,
        end,
    } = stretch;
    match source {
        Some(_) => Ok(TreeSegment { source, moves, end }),
        None => {
            moves.insert(0, first)?;
            Ok(TreeSegment { source, moves, end })
        }
    }
}

/// Appends to `all` each segment, with the move before it if it begins at the tree's start.
fn push_prefixed<'g>(
    first: Move<'g>,
    stretches: Vec<TreeSegment<'g>>,
    all: &mut Vec<TreeSegment<'g>>,
) -> Result<(), AllocError>
    ensures { OnOk result (seen all.new.items ≡ seen all.old.items
        ++ map (λ s. ways.prefixed (move_view first.entry) s) (seen stretches.entry.items)) }
{
    'each: for stretch in stretches {
        let prefixed = prefix(first, stretch)?;
        all.push(prefixed)?;
    }
    Ok(())
}

/// The segments of a choice.
pub fn choose<'g>(
    alloc: Global,
    base: usize,
    condition: &'g Cond,
    on_true: Vec<TreeSegment<'g>>,
    on_false: Vec<TreeSegment<'g>>,
) -> Result<Vec<TreeSegment<'g>>, AllocError>
    ensures { IfOk result (λ v. seen v.items
        ≡ ways.chosen_segments base (cond_view condition.now) (seen on_true.entry.items)
        (seen on_false.entry.items)) }
{
    let mut all = Vec::new(alloc);
    push_prefixed(Move::Test(base, condition, true), on_true, &mut all)?;
    push_prefixed(Move::Test(base, condition, false), on_false, &mut all)?;
    Ok(all)
}

// switches ----------------------------------------------------------------------------------------

/// After a move, which the segment stays without.
fn push_led<'g>(
    alloc: Global,
    first: Move<'g>,
    stretch: &TreeSegment<'g>,
    all: &mut Vec<TreeSegment<'g>>,
) -> Result<(), AllocError>
    ensures { OnOk result (seen all.new.items ≡ seen all.old.items
        ++ ways.prefixed (move_view first.entry) (tree_segment_view stretch.now) ∷ []) }
{
    let mut moves = Vec::new(alloc);
    moves.extend_from_slice(stretch.moves.as_slice())?;
    let copy = TreeSegment {
        source: stretch.source,
        moves,
        end: stretch.end,
    };
    let led = prefix(first, copy)?;
    all.push(led)?;
    Ok(())
}

/// After the move, if it begins at the start.
fn push_if_starting<'g>(
    alloc: Global,
    first: Move<'g>,
    stretch: &TreeSegment<'g>,
    all: &mut Vec<TreeSegment<'g>>,
) -> Result<(), AllocError>
    ensures { OnOk result (seen all.new.items ≡ seen all.old.items ++ map
        (λ s. ways.prefixed (move_view first.entry) s)
        (segments_of_kind ways.starting (tree_segment_view stretch.now ∷ []))) }
{
    if is_of(Kind::Starting, stretch) {
        push_led(alloc, first, stretch, all)
    } else {
        Ok(())
    }
}

/// After the move come those that begin at the start.
fn push_entering<'g>(
    alloc: Global,
    first: Move<'g>,
    row: &[TreeSegment<'g>],
    all: &mut Vec<TreeSegment<'g>>,
) -> Result<(), AllocError>
    ensures { OnOk result (seen all.new.items ≡ seen all.old.items
        ++ map (λ s. ways.prefixed (move_view first.entry) s) (segments_of_kind ways.starting (seen row.now))) }
{
    'row: for stretch in row {
        push_if_starting(alloc, first, stretch, all)?;
    }
    Ok(())
}

/// From a label those that begin the trees after it, before those from the later ones.
pub fn enter_row<'g>(
    alloc: Global,
    first: Move<'g>,
    row: &[TreeSegment<'g>],
    later: Vec<TreeSegment<'g>>,
) -> Result<Vec<TreeSegment<'g>>, AllocError>
    ensures { IfOk result (λ v. seen v.items ≡
        ways.labelled (move_view first.entry) (seen row.now) (seen later.entry.items)) }
{
    let mut all = Vec::new(alloc);
    let mut rest = later;
    push_entering(alloc, first, row, &mut all)?;
    all.append(&mut rest)?;
    Ok(all)
}

/// The segments of a `switch`: those from its labels, and those that begin in its trees.
pub fn select<'g>(
    alloc: Global,
    row: Vec<TreeSegment<'g>>,
    from_labels: Vec<TreeSegment<'g>>,
) -> Result<Vec<TreeSegment<'g>>, AllocError>
    ensures { IfOk result (λ v. seen v.items ≡
        ways.selected (seen row.entry.items) (seen from_labels.entry.items)) }
{
    let Parted {
        those: _,
        others: mut later,
    } = part(alloc, row, Kind::Starting)?;
    let mut all = from_labels;
    all.append(&mut later)?;
    Ok(all)
}

// loops -------------------------------------------------------------------------------------------

fn at_most_one<'g>(alloc: Global, only: Option<Move<'g>>) -> Result<Vec<Move<'g>>, AllocError>
    ensures { IfOk result (λ v. v.items ≡ option_to_list only.entry) }
{
    let mut moves = Vec::new(alloc);
    match only {
        None => Ok(moves),
        Some(one) => {
            moves.push(one)?;
            Ok(moves)
        }
    }
}

/// Appends to `all` a segment of at most one move.
pub fn push_short<'g>(
    alloc: Global,
    source: Option<usize>,
    only: Option<Move<'g>>,
    end: End,
    all: &mut Vec<TreeSegment<'g>>,
) -> Result<(), AllocError>
    ensures { OnOk result (seen all.new.items ≡ seen all.old.items
        ++ tree_segment source (map move_view (option_to_list only.entry)) (end_view end) ∷ []) }
{
    let moves = at_most_one(alloc, only)?;
    all.push(TreeSegment { source, moves, end })?;
    Ok(())
}

/// The end of a loop's body is the loop's point.
fn back_to(point: usize, end: End) -> End
    ensures { end_view result ≡ ways.back_to point (end_view end) }
{
    match end {
        End::Exits(Completion::Normal) => End::Reaches(Goal::ComesTo(point)),
        End::Exits(Completion::Jump(exit)) => End::Exits(Completion::Jump(exit)),
        End::Reaches(goal) => End::Reaches(goal),
    }
}

/// A segment of a loop's body, which is entered from the loop's point after its test.
fn turn<'g>(
    point: usize,
    first: Move<'g>,
    stretch: TreeSegment<'g>,
) -> Result<TreeSegment<'g>, AllocError>
    ensures { IfOk result (λ s. tree_segment_view s ≡
        ways.turned point (move_view first.entry) (tree_segment_view stretch.entry)) }
{
    let TreeSegment { source, moves, end } = prefix(first, stretch)?;
    Ok(TreeSegment {
        source: Some(source.unwrap_or(point)),
        moves,
        end: back_to(point, end),
    })
}

fn push_turned<'g>(
    point: usize,
    first: Move<'g>,
    stretches: Vec<TreeSegment<'g>>,
    all: &mut Vec<TreeSegment<'g>>,
) -> Result<(), AllocError>
    ensures { OnOk result (seen all.new.items ≡ seen all.old.items
        ++ map (λ s. ways.turned point (move_view first.entry) s) (seen stretches.entry.items)) }
{
    'each: for stretch in stretches {
        let turned = turn(point, first, stretch)?;
        all.push(turned)?;
    }
    Ok(())
}

/// The segments, with those that leave the tree at its end put last.
fn ending_last<'g>(
    alloc: Global,
    stretches: Vec<TreeSegment<'g>>,
) -> Result<Vec<TreeSegment<'g>>, AllocError>
    ensures { IfOk result (λ v. seen v.items ≡
        segments_not_of_kind (ways.leaving normal) (seen stretches.entry.items)
        ++ segments_of_kind (ways.leaving normal) (seen stretches.entry.items)) }
{
    let Parted {
        those: mut ending,
        others: mut all,
    } = part(alloc, stretches, Kind::Leaving(Completion::Normal))?;
    all.append(&mut ending)?;
    Ok(all)
}

fn ending_first<'g>(
    alloc: Global,
    stretches: Vec<TreeSegment<'g>>,
) -> Result<Vec<TreeSegment<'g>>, AllocError>
    ensures { IfOk result (λ v. seen v.items ≡
        segments_of_kind (ways.leaving normal) (seen stretches.entry.items)
        ++ segments_not_of_kind (ways.leaving normal) (seen stretches.entry.items)) }
{
    let Parted {
        those: mut all,
        others: mut rest,
    } = part(alloc, stretches, Kind::Leaving(Completion::Normal))?;
    all.append(&mut rest)?;
    Ok(all)
}

/// The segments of a loop's body in order: into it, through it, out of it at its end, all others.
fn order_body<'g>(
    alloc: Global,
    body: Vec<TreeSegment<'g>>,
) -> Result<Vec<TreeSegment<'g>>, AllocError>
    ensures { IfOk result (λ v. seen v.items ≡ body_order (seen body.entry.items)) }
{
    let Parted {
        those: starting,
        others: later,
    } = part(alloc, body, Kind::Starting)?;
    let mut all = ending_last(alloc, starting)?;
    let mut rest = ending_first(alloc, later)?;
    all.append(&mut rest)?;
    Ok(all)
}

/// The segments of a loop.
pub fn go_round<'g>(
    alloc: Global,
    point: usize,
    base: usize,
    condition: &'g Cond,
    body: Vec<TreeSegment<'g>>,
) -> Result<Vec<TreeSegment<'g>>, AllocError>
    ensures { IfOk result (λ v. seen v.items ≡
        ways.looped point base (cond_view condition.now) (seen body.entry.items)) }
{
    let mut all = Vec::new(alloc);
    push_short(
        alloc,
        None,
        None,
        End::Reaches(Goal::ComesTo(point)),
        &mut all,
    )?;
    let past = Move::Test(base, condition, false);
    push_short(
        alloc,
        Some(point),
        Some(past),
        End::Exits(Completion::Normal),
        &mut all,
    )?;
    let ordered = order_body(alloc, body)?;
    push_turned(point, Move::Test(base, condition, true), ordered, &mut all)?;
    Ok(all)
}

// jumps -------------------------------------------------------------------------------------------

/// Appends to `all` each segment, which then ends the tree.
fn push_ended<'g>(
    stretches: Vec<TreeSegment<'g>>,
    all: &mut Vec<TreeSegment<'g>>,
) -> Result<(), AllocError>
    ensures { OnOk result (seen all.new.items ≡
        seen all.old.items ++ map (λ s. ways.ended s) (seen stretches.entry.items)) }
{
    'each: for stretch in stretches {
        let TreeSegment {
            source,
            moves,
            end: _,
        } = stretch;
        let end = End::Exits(Completion::Normal);
        all.push(TreeSegment { source, moves, end })?;
    }
    Ok(())
}

/// The segments of a tree after which jumps of this kind come out.
pub fn catch_jumps<'g>(
    alloc: Global,
    exit: Exit,
    body: Vec<TreeSegment<'g>>,
) -> Result<Vec<TreeSegment<'g>>, AllocError>
    ensures { IfOk result (λ v. seen v.items ≡
        ways.caught (exit_view exit) (seen body.entry.items)) }
{
    let Parted {
        those: jumping,
        others: mut all,
    } = part(alloc, body, Kind::Leaving(Completion::Jump(exit)))?;
    push_ended(jumping, &mut all)?;
    Ok(all)
}
