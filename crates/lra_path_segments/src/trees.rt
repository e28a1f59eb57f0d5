//! The segments of a tree, from its leaves up. The tree is gone along by a list of what is due, and not by calls, so it
//! may be as deep as memory allows.

ghost use Rattle.std.specs.List.{list_any};
ghost use Rattle.std.specs.Prelude.{◌≡◌, ◌<◌, ◌+◌, ◌||◌, [], ◌∷◌, IfOk, OnOk, List, None, map, option_to_list};
ghost use Rattle.lra_path_segments.specs.Crates.lra_base.CaseLabels.{is_same_case};
ghost use Rattle.lra_path_segments.specs.Crates.lra_base.declared.case_labels.CaseLabel.TheVariants.{Default};
ghost use Rattle.lra_path_segments.specs.Crates.lra_program.ProgramViews.{cond_view};
ghost use Rattle.lra_operations.specs.Tree as graph;
ghost use Rattle.lra_operations.specs.TreeViews.{arm_view, arms_of, exit_view, node_view};
ghost use Rattle.lra_path_segments.specs.Labels.{label_at, labels_in};
ghost use Rattle.lra_path_segments.specs.Tasks.{all_left, below, task_size, effect, row_on, row_size, run, stack};
ghost use Rattle.lra_path_segments.specs.Tasks.{steps_of, arm_steps, arms_on, arms_size, labelled_last, top};
ghost use Rattle.lra_path_segments.specs.TreeSegments as ways;
ghost use Rattle.lra_path_segments.specs.TreeSegmentViews.{arms_seen, end_view, move_view, seen, selection_view};
ghost use Rattle.lra_path_segments.specs.TreeSegments.{AreSegmentsOf, nothing_done, past_all, tree_segment};
ghost use Rattle.lra_path_segments.specs.TreeSegments.{tree_segments};

use crate::segments::{
    Completion, End, Goal, Move, Selection, TreeSegment, catch_jumps, choose, enter_row, go_round,
    push_short, select, sequence,
};
use lra_operations::{Arm, Exit, Node, any_default};
use lra_program::{CaseLabel, Cond};
use std::alloc::{AllocError, Global};

/// What is still to be done with the segments that are there, of which the last are the newest.
#[derive(Clone, Copy)]
pub enum Task<'g> {
    /// The segments of the tree come after.
    Tree(&'g Node),
    /// The trees of a row, which stand before the tree of the last segments.
    Row(&'g [Node]),
    /// The tree of the last segments stands before that of those before them.
    Sequence,
    /// The last segments are those where the condition is true, those before them where it is false.
    Choice(usize, &'g Cond),
    /// The last segments are those of the body of a loop with this point.
    Round(usize, usize, &'g Cond),
    /// Jumps of this kind come out after the tree of the last segments.
    Catch(Exit),
    /// The trees of these arms stand before that of the last segments, and segments from their labels before those from
    /// later labels, which are there below.
    LabelledArms(Selection<'g>, &'g [Arm]),
    /// This move leads to where the last segments begin, before the segments from later labels.
    Label(Move<'g>),
    /// The last segments are those of the trees of a `switch`, those before them the segments from its labels.
    Select,
}

// the segments that are there ---------------------------------------------------------------------

/// The last segments.
fn take_last<'g>(alloc: Global, done: &mut Vec<Vec<TreeSegment<'g>>>) -> Vec<TreeSegment<'g>>
    ensures top { seen result.items ≡ top (stack done.old.items) }
    ensures below { stack done.new.items ≡ below (stack done.old.items) }
{
    match done.pop() {
        Some(last) => last,
        None => Vec::new(alloc),
    }
}

/// Puts segments on top of those that are there.
fn put_last<'g>(
    done: &mut Vec<Vec<TreeSegment<'g>>>,
    last: Vec<TreeSegment<'g>>,
) -> Result<(), AllocError>
    ensures { OnOk result (stack done.new.items ≡ seen last.entry.items ∷ stack done.old.items) }
{
    done.push(last)?;
    Ok(())
}

/// A tree with one segment of at most one move.
fn put_short<'g>(
    alloc: Global,
    only: Option<Move<'g>>,
    end: End,
    done: &mut Vec<Vec<TreeSegment<'g>>>,
) -> Result<(), AllocError>
    ensures { OnOk result (stack done.new.items
        ≡ (tree_segment None (map move_view (option_to_list only.entry)) (end_view end) ∷ []) ∷
        stack done.old.items) }
{
    let mut all = Vec::new(alloc);
    push_short(alloc, None, only, end, &mut all)?;
    put_last(done, all)
}

fn put_point<'g>(
    alloc: Global,
    point: usize,
    done: &mut Vec<Vec<TreeSegment<'g>>>,
) -> Result<(), AllocError>
    ensures { OnOk result (stack done.new.items ≡
        tree_segments (graph.point point) ∷ stack done.old.items) }
{
    let mut all = Vec::new(alloc);
    push_short(
        alloc,
        None,
        None,
        End::Reaches(Goal::ComesTo(point)),
        &mut all,
    )?;
    push_short(
        alloc,
        Some(point),
        None,
        End::Exits(Completion::Normal),
        &mut all,
    )?;
    put_last(done, all)
}

fn put_check<'g>(
    alloc: Global,
    point: usize,
    base: usize,
    condition: &'g Cond,
    done: &mut Vec<Vec<TreeSegment<'g>>>,
) -> Result<(), AllocError>
    ensures { OnOk result (stack done.new.items
        ≡ tree_segments (graph.check point base (cond_view condition.now)) ∷ stack done.old.items) }
{
    let mut all = Vec::new(alloc);
    let so = Move::Test(base, condition, true);
    push_short(
        alloc,
        None,
        Some(so),
        End::Exits(Completion::Normal),
        &mut all,
    )?;
    let not_so = Move::Test(base, condition, false);
    push_short(
        alloc,
        None,
        Some(not_so),
        End::Reaches(Goal::Violates(point)),
        &mut all,
    )?;
    put_last(done, all)
}

fn join_last<'g>(alloc: Global, done: &mut Vec<Vec<TreeSegment<'g>>>) -> Result<(), AllocError>
    ensures { OnOk result (stack done.new.items ≡ ways.sequenced (top (stack done.old.items))
        (top (below (stack done.old.items))) ∷ below (below (stack done.old.items))) }
{
    let first = take_last(alloc, done);
    let second = take_last(alloc, done);
    let whole = sequence(alloc, first, second)?;
    put_last(done, whole)
}

fn choose_last<'g>(
    alloc: Global,
    base: usize,
    condition: &'g Cond,
    done: &mut Vec<Vec<TreeSegment<'g>>>,
) -> Result<(), AllocError>
    ensures { OnOk result (stack done.new.items ≡
        ways.chosen_segments base (cond_view condition.now) (top (stack done.old.items))
        (top (below (stack done.old.items))) ∷ below (below (stack done.old.items))) }
{
    let on_true = take_last(alloc, done);
    let on_false = take_last(alloc, done);
    let whole = choose(alloc, base, condition, on_true, on_false)?;
    put_last(done, whole)
}

fn go_round_last<'g>(
    alloc: Global,
    point: usize,
    base: usize,
    condition: &'g Cond,
    done: &mut Vec<Vec<TreeSegment<'g>>>,
) -> Result<(), AllocError>
    ensures { OnOk result (stack done.new.items
        ≡ ways.looped point base (cond_view condition.now) (top (stack done.old.items)) ∷
        below (stack done.old.items)) }
{
    let body = take_last(alloc, done);
    let whole = go_round(alloc, point, base, condition, body)?;
    put_last(done, whole)
}

fn catch_last<'g>(
    alloc: Global,
    exit: Exit,
    done: &mut Vec<Vec<TreeSegment<'g>>>,
) -> Result<(), AllocError>
    ensures { OnOk result (stack done.new.items
        ≡ ways.caught (exit_view exit) (top (stack done.old.items)) ∷
        below (stack done.old.items)) }
{
    let body = take_last(alloc, done);
    let whole = catch_jumps(alloc, exit, body)?;
    put_last(done, whole)
}

/// The last segments stay, and their beginnings are after the label.
fn label_last<'g>(
    alloc: Global,
    first: Move<'g>,
    done: &mut Vec<Vec<TreeSegment<'g>>>,
) -> Result<(), AllocError>
    ensures { OnOk result (stack done.new.items ≡
        labelled_last (move_view first.entry) (stack done.old.items)) }
{
    let row = take_last(alloc, done);
    let later = take_last(alloc, done);
    let all = enter_row(alloc, first, row.as_slice(), later)?;
    put_last(done, all)?;
    put_last(done, row)
}

fn select_last<'g>(alloc: Global, done: &mut Vec<Vec<TreeSegment<'g>>>) -> Result<(), AllocError>
    ensures { OnOk result (stack done.new.items ≡ ways.selected (top (stack done.old.items))
        (top (below (stack done.old.items))) ∷ below (below (stack done.old.items))) }
{
    let row = take_last(alloc, done);
    let from_labels = take_last(alloc, done);
    let whole = select(alloc, row, from_labels)?;
    put_last(done, whole)
}

// what is due -------------------------------------------------------------------------------------

/// This is due before the others.
fn push_task<'g>(left: &mut Vec<Task<'g>>, due: Task<'g>) -> Result<(), AllocError>
    ensures runs { OnOk result ((s : List (List ways.TreeSegment)) → run left.new.items s ≡
        run left.old.items (effect due.entry s)) }
    ensures size { OnOk result (all_left left.new.items ≡
        all_left left.old.items + task_size due.entry) }
{
    left.push(due)?;
    Ok(())
}

/// The tree, and then this, are due before the others.
fn push_both<'g>(
    left: &mut Vec<Task<'g>>,
    first: &'g Node,
    then: Task<'g>,
) -> Result<(), AllocError>
    ensures runs { OnOk result ((s : List (List ways.TreeSegment)) → run left.new.items s ≡
        run left.old.items (effect then.entry (tree_segments (node_view first.now) ∷ s))) }
    ensures size { OnOk result (all_left left.new.items ≡
        all_left left.old.items + task_size then.entry + steps_of first.now) }
{
    push_task(left, then)?;
    push_task(left, Task::Tree(first))
}

/// The trees in a row, the last of them first: each stands before those after it.
fn open_row<'g>(trees: &'g [Node], left: &mut Vec<Task<'g>>) -> Result<(), AllocError>
    ensures runs { OnOk result ((s : List (List ways.TreeSegment)) →
        run left.new.items s ≡ run left.old.items (row_on (map node_view trees.now) s)) }
    ensures falls { OnOk result (all_left left.new.items <
        all_left left.old.items + row_size trees.now) }
{
    match trees.split_last() {
        None => Ok(()),
        Some((last, before)) => {
            push_task(left, Task::Row(before))?;
            push_task(left, Task::Sequence)?;
            push_task(left, Task::Tree(last))
        }
    }
}

/// The branches of a choice are due, that where the condition is false first.
fn open_choice<'g>(
    base: usize,
    condition: &'g Cond,
    on_true: &'g Node,
    on_false: &'g Node,
    left: &mut Vec<Task<'g>>,
) -> Result<(), AllocError>
    ensures runs { OnOk result ((s : List (List ways.TreeSegment)) → run left.new.items s ≡
        run left.old.items (ways.chosen_segments base (cond_view condition.now)
        (tree_segments (node_view on_true.now)) (tree_segments (node_view on_false.now)) ∷ s)) }
    ensures size { OnOk result (all_left left.new.items ≡
        all_left left.old.items + (1 + steps_of on_true.now + steps_of on_false.now)) }
{
    push_both(left, on_true, Task::Choice(base, condition))?;
    push_task(left, Task::Tree(on_false))
}

/// The segment past all labels comes last, if there is one.
fn put_past<'g>(
    alloc: Global,
    selection: Selection<'g>,
    done: &mut Vec<Vec<TreeSegment<'g>>>,
) -> Result<(), AllocError>
    ensures { OnOk result (stack done.new.items ≡ past_all (selection_view selection.entry)
        (list_any (is_same_case Default) (labels_in selection.entry.arms.now)) ∷ stack done.old.items) }
{
    if any_default(selection.arms) {
        put_last(done, Vec::new(alloc))
    } else {
        let past = Move::Select(selection, CaseLabel::Default);
        put_short(alloc, Some(past), End::Exits(Completion::Normal), done)
    }
}

/// An arm is due, before those after it.
fn push_arm<'g>(
    selection: Selection<'g>,
    arm: &'g Arm,
    left: &mut Vec<Task<'g>>,
) -> Result<(), AllocError>
    ensures runs { OnOk result ((s : List (List ways.TreeSegment)) → run left.new.items s ≡
        run left.old.items (arms_on (selection_view selection.entry) (arm_view arm.now graph.no_arms) s)) }
    ensures size { OnOk result (all_left left.new.items ≡ all_left left.old.items + (1 + arm_steps arm.now)) }
{
    match arm {
        Arm::Entry(label) => push_task(left, Task::Label(Move::Select(selection, *label))),
        Arm::Tree(tree) => push_both(left, tree, Task::Sequence),
    }
}

/// The arms of a `switch`, the last of them first: each stands before those after it.
fn open_arms<'g>(
    selection: Selection<'g>,
    arms: &'g [Arm],
    left: &mut Vec<Task<'g>>,
) -> Result<(), AllocError>
    ensures runs { OnOk result ((s : List (List ways.TreeSegment)) → run left.new.items s ≡ run left.old.items
        (arms_on (selection_view selection.entry) (arms_of (map arm_view arms.now)) s)) }
    ensures falls { OnOk result (all_left left.new.items <
        all_left left.old.items + arms_size arms.now) }
{
    match arms.split_last() {
        None => Ok(()),
        Some((last, before)) => {
            push_task(left, Task::LabelledArms(selection, before))?;
            push_arm(selection, last, left)
        }
    }
}

/// The arms of a `switch` are due; after the last of them there is nothing to do, and no label is left.
fn open_selection<'g>(
    alloc: Global,
    selection: Selection<'g>,
    left: &mut Vec<Task<'g>>,
    done: &mut Vec<Vec<TreeSegment<'g>>>,
) -> Result<(), AllocError>
    ensures runs { OnOk result (run left.new.items (stack done.new.items)
        ≡ run left.old.items (ways.selected (ways.arms_segments (arms_seen selection.entry))
        (ways.from_labels (selection_view selection.entry) (past_all (selection_view selection.entry)
        (list_any (is_same_case Default) (labels_in selection.entry.arms.now))) (arms_seen selection.entry)) ∷
        stack done.old.items)) }
    ensures size { OnOk result (all_left left.new.items ≡
        all_left left.old.items + (1 + arms_size selection.entry.arms.now)) }
{
    put_past(alloc, selection, done)?;
    put_short(alloc, None, End::Exits(Completion::Normal), done)?;
    push_task(left, Task::Select)?;
    push_task(left, Task::LabelledArms(selection, selection.arms))
}

/// The segments of a tree with no tree in it come last.
fn put_leaf<'g>(
    alloc: Global,
    node: &'g Node,
    done: &mut Vec<Vec<TreeSegment<'g>>>,
) -> Result<(), AllocError>
    requires { steps_of node.now ≡ 1 }
    ensures { OnOk result (stack done.new.items ≡
        tree_segments (node_view node.now) ∷ stack done.old.items) }
{
    match node {
        Node::Empty => put_short(alloc, None, End::Exits(Completion::Normal), done),
        Node::Point(point) => put_point(alloc, *point, done),
        Node::Probe(_, _) => put_short(alloc, None, End::Exits(Completion::Normal), done),
        Node::Act(_, op) => put_short(
            alloc,
            Some(Move::Change(op)),
            End::Exits(Completion::Normal),
            done,
        ),
        Node::Check(point, base, condition) => put_check(alloc, *point, *base, condition, done),
        Node::Leave(_, exit) => put_short(alloc, None, End::Exits(Completion::Jump(*exit)), done),
        _ => unreachable!(),
    }
}

/// The trees in a tree are due, or its segments come last.
fn open_node<'g>(
    alloc: Global,
    node: &'g Node,
    left: &mut Vec<Task<'g>>,
    done: &mut Vec<Vec<TreeSegment<'g>>>,
) -> Result<(), AllocError>
    ensures runs { OnOk result (run left.new.items (stack done.new.items)
        ≡ run left.old.items (tree_segments (node_view node.now) ∷ stack done.old.items)) }
    ensures falls { OnOk result (all_left left.new.items <
        all_left left.old.items + steps_of node.now) }
{
    match node {
        Node::Seq(trees, last) => push_both(left, last, Task::Row(trees.as_slice())),
        Node::Choose(_, base, condition, on_true, on_false) => {
            open_choice(*base, condition, on_true, on_false, left)
        }
        Node::Iterate(point, base, condition, body) => {
            push_both(left, body, Task::Round(*point, *base, condition))
        }
        Node::Catch(_, exit, body) => push_both(left, body, Task::Catch(*exit)),
        Node::Select(_, base, value, arms) => {
            let selection = Selection {
                base: *base,
                value,
                arms: arms.as_slice(),
            };
            open_selection(alloc, selection, left, done)
        }
        _ => put_leaf(alloc, node, done),
    }
}

/// One step.
fn do_next<'g>(
    alloc: Global,
    due: Task<'g>,
    left: &mut Vec<Task<'g>>,
    done: &mut Vec<Vec<TreeSegment<'g>>>,
) -> Result<(), AllocError>
    ensures runs { OnOk result (run left.new.items (stack done.new.items)
        ≡ run left.old.items (effect due.entry (stack done.old.items))) }
    ensures falls { OnOk result (all_left left.new.items <
        all_left left.old.items + task_size due.entry) }
{
    match due {
        Task::Tree(node) => open_node(alloc, node, left, done),
        Task::Row(trees) => open_row(trees, left),
        Task::Sequence => join_last(alloc, done),
        Task::Choice(base, condition) => choose_last(alloc, base, condition, done),
        Task::Round(point, base, condition) => go_round_last(alloc, point, base, condition, done),
        Task::Catch(exit) => catch_last(alloc, exit, done),
        Task::LabelledArms(selection, arms) => open_arms(selection, arms, left),
        Task::Label(first) => label_last(alloc, first, done),
        Task::Select => select_last(alloc, done),
    }
}

/// The segments of a tree.
pub fn segments_of<'g>(alloc: Global, node: &'g Node) -> Result<Vec<TreeSegment<'g>>, AllocError>
    ensures are { IfOk result (λ v. seen v.items ≡ tree_segments (node_view node.now)) }
    ensures ways { IfOk result (λ v. AreSegmentsOf (seen v.items) (node_view node.now)) }
{
    let mut left = Vec::new(alloc);
    left.push(Task::Tree(node))?;
    let mut done = Vec::new(alloc);
    'trees: while let Some(due) = left.pop() {
        do_next(alloc, due, &mut left, &mut done)?;
    }
    Ok(take_last(alloc, &mut done))
}
