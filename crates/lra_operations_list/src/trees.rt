//! All that is done in a tree of operations.

ghost use Rattle.std.specs.List.{sum_by};
ghost use Rattle.std.specs.Prelude.{◌≡◌, ◌<◌, ◌+◌, ◌*◌, ◌++◌, None, map, IfOk, OnOk};
ghost use Rattle.lra_operations_list.specs.Crates.lra_operations.Sizes.{whole_size, arm_sizes, arms_tree_sizes};
ghost use Rattle.lra_operations_list.specs.Crates.lra_operations.TreeViews.{node_view, op_view, row, arm_view, arms_of};
ghost use Rattle.lra_operations_list.specs.Crates.{lra_operations.CheckedOperations.fresh_of, lra_operations.Tree.seq};
ghost use Rattle.lra_operations_list.specs.Due.{all_due, all_left, apart_before, due_size, due_view, fresh_at};
ghost use Rattle.lra_operations_list.specs.Due.{own_done, trees_of, IsOnWay, IsOpened};
ghost use Rattle.lra_operations_list.specs.TreeOperations.{op_ref_view, done_in, done_of, op_at_point_view};

use crate::tree_operations::{OpRef, OpRefAtPoint};
use lra_linearize::NumberType;
use lra_operations::{Arm, Node, Op};
use std::alloc::{AllocError, Global};

/// The type of the variable that is new after a least change.
fn fresh_of(op: &Op) -> Option<NumberType>
    ensures { result ≡ fresh_of (op_view op.now) }
{
    match op {
        Op::Append(number_type) => Some(*number_type),
        _ => None,
    }
}

/// What is still to be listed. The listing goes along the tree by a list of these, and not by calls, so a tree may be
/// as deep as memory allows.
#[derive(Clone, Copy)]
pub enum Due<'a> {
    Tree(&'a Node),
    /// The trees one after the other, and then the last.
    Row(&'a [Node], &'a Node),
    /// The trees in arms one after the other.
    Arms(&'a [Arm]),
    /// Nothing: after it no variable is new.
    Apart,
}

/// A tree is due before the others, and after it no variable is new.
fn push_apart<'a>(left: &mut Vec<Due<'a>>, node: &'a Node) -> Result<(), AllocError>
    ensures is { OnOk result (all_due left.new.items ≡
        apart_before (node_view node.now) (all_due left.old.items)) }
    ensures size { OnOk result (all_left left.new.items ≡
        all_left left.old.items + 1 + 2 * whole_size node.now) }
{
    left.push(Due::Apart)?;
    left.push(Due::Tree(node))?;
    Ok(())
}

/// Two such trees are due, the first before the second.
fn push_both<'a>(
    left: &mut Vec<Due<'a>>,
    first: &'a Node,
    second: &'a Node,
) -> Result<(), AllocError>
    ensures is { OnOk result (all_due left.new.items ≡ apart_before (node_view first.now)
        (apart_before (node_view second.now) (all_due left.old.items))) }
    ensures size { OnOk result (all_left left.new.items ≡ all_left left.old.items + 2 +
        2 * (whole_size first.now + whole_size second.now)) }
{
    push_apart(left, second)?;
    push_apart(left, first)
}

/// Trees one after the other are due before the others, and then the last.
fn push_row<'a>(
    left: &mut Vec<Due<'a>>,
    trees: &'a [Node],
    last: &'a Node,
) -> Result<(), AllocError>
    ensures is { OnOk result (all_due left.new.items ≡
        seq (row (map node_view trees.now) (node_view last.now)) (all_due left.old.items)) }
    ensures size { OnOk result (all_left left.new.items ≡ all_left left.old.items + 1 +
        2 * (sum_by whole_size trees.now + whole_size last.now)) }
{
    left.push(Due::Row(trees, last))?;
    Ok(())
}

/// The trees in arms are due before the others.
fn push_arms<'a>(left: &mut Vec<Due<'a>>, arms: &'a [Arm]) -> Result<(), AllocError>
    ensures is { OnOk result (all_due left.new.items ≡
        seq (trees_of (arms_of (map arm_view arms.now))) (all_due left.old.items)) }
    ensures size { OnOk result (all_left left.new.items ≡
        all_left left.old.items + 1 + 2 * arms_tree_sizes (map arm_sizes arms.now)) }
{
    left.push(Due::Arms(arms))?;
    Ok(())
}

/// The trees in a `switch`'s arms are due before the others; after them no variable is new.
fn push_selection<'a>(left: &mut Vec<Due<'a>>, arms: &'a [Arm]) -> Result<(), AllocError>
    ensures is { OnOk result (all_due left.new.items ≡
        apart_before (trees_of (arms_of (map arm_view arms.now))) (all_due left.old.items)) }
    ensures size { OnOk result (all_left left.new.items ≡
        all_left left.old.items + 2 + 2 * arms_tree_sizes (map arm_sizes arms.now)) }
{
    left.push(Due::Apart)?;
    push_arms(left, arms)
}

/// The trees in a tree are due before the others.
fn open_node<'a>(left: &mut Vec<Due<'a>>, node: &'a Node) -> Result<(), AllocError>
    ensures is { OnOk result (IsOpened node.now left.old.items left.new.items) }
    ensures falls { OnOk result (all_left left.new.items <
        all_left left.old.items + 2 * whole_size node.now) }
{
    match node {
        Node::Seq(trees, last) => push_row(left, trees.as_slice(), last),
        Node::Choose(_, _, _, on_true, on_false) => push_both(left, on_true, on_false),
        Node::Iterate(_, _, _, body) => push_apart(left, body),
        Node::Catch(_, _, body) => push_apart(left, body),
        Node::Select(_, _, _, arms) => push_selection(left, arms.as_slice()),
        Node::Empty => Ok(()),
        Node::Point(_) => Ok(()),
        Node::Probe(_, _) => Ok(()),
        Node::Act(_, _) => Ok(()),
        Node::Check(_, _, _) => Ok(()),
        Node::Leave(_, _) => Ok(()),
    }
}

/// The type of the variable that is new after what a tree does itself.
fn fresh_at(fresh: Option<NumberType>, node: &Node) -> Option<NumberType>
    ensures { result ≡ fresh_at fresh node.now }
{
    match node {
        Node::Empty => fresh,
        Node::Seq(_, _) => fresh,
        Node::Act(_, op) => fresh_of(op),
        Node::Probe(_, _) => fresh,
        Node::Point(_) => None,
        Node::Check(_, _, _) => None,
        Node::Choose(_, _, _, _, _) => None,
        Node::Iterate(_, _, _, _) => None,
        Node::Catch(_, _, _) => None,
        Node::Leave(_, _) => None,
        Node::Select(_, _, _, _) => None,
    }
}

/// What is done at a point comes after the others.
fn push_done<'a>(
    point: usize,
    fresh: Option<NumberType>,
    doing: OpRef<'a>,
    done: &mut Vec<OpRefAtPoint<'a>>,
) -> Result<(), AllocError>
    ensures { OnOk result (map op_at_point_view done.new.items ≡
        map op_at_point_view done.old.items ++ done_of point fresh (op_ref_view doing.entry)) }
{
    done.push(OpRefAtPoint {
        point,
        fresh,
        doing,
    })?;
    Ok(())
}

/// What a tree does itself comes after the others.
fn list_own<'a>(
    fresh: Option<NumberType>,
    node: &'a Node,
    done: &mut Vec<OpRefAtPoint<'a>>,
) -> Result<(), AllocError>
    ensures { OnOk result (map op_at_point_view done.new.items ≡
        map op_at_point_view done.old.items ++ own_done fresh node.now) }
{
    match node {
        Node::Act(point, op) => push_done(*point, fresh, OpRef::Change(op), done),
        Node::Check(point, base, condition) => {
            push_done(*point, None, OpRef::Condition(*base, condition), done)
        }
        Node::Choose(point, base, condition, _, _) => {
            push_done(*point, None, OpRef::Condition(*base, condition), done)
        }
        Node::Iterate(point, base, condition, _) => {
            push_done(*point, None, OpRef::Condition(*base, condition), done)
        }
        Node::Select(point, base, value, _) => {
            push_done(*point, None, OpRef::Value(*base, value), done)
        }
        Node::Empty => Ok(()),
        Node::Point(_) => Ok(()),
        Node::Probe(_, _) => Ok(()),
        Node::Seq(_, _) => Ok(()),
        Node::Catch(_, _, _) => Ok(()),
        Node::Leave(_, _) => Ok(()),
    }
}

/// What a tree does itself comes after the others, and the trees in it are due before the others; the type of the
/// variable that is new then.
fn list_node<'a>(
    fresh: Option<NumberType>,
    node: &'a Node,
    left: &mut Vec<Due<'a>>,
    done: &mut Vec<OpRefAtPoint<'a>>,
) -> Result<Option<NumberType>, AllocError>
    ensures way { IfOk result (λ later. IsOnWay fresh (seq (node_view node.now)
        (all_due left.old.items)) later (all_due left.new.items)
        (map op_at_point_view done.old.items) (map op_at_point_view done.new.items)) }
    ensures falls { OnOk result (all_left left.new.items <
        all_left left.old.items + 2 * whole_size node.now) }
{
    open_node(left, node)?;
    list_own(fresh, node, done)?;
    Ok(fresh_at(fresh, node))
}

/// The first of the arms: what its tree does itself comes after the others, and the trees in it and the other arms are
/// due before the others.
fn list_arms<'a>(
    fresh: Option<NumberType>,
    arms: &'a [Arm],
    left: &mut Vec<Due<'a>>,
    done: &mut Vec<OpRefAtPoint<'a>>,
) -> Result<Option<NumberType>, AllocError>
    ensures way { IfOk result (λ later. IsOnWay fresh
        (seq (trees_of (arms_of (map arm_view arms.now))) (all_due left.old.items)) later
        (all_due left.new.items) (map op_at_point_view done.old.items)
        (map op_at_point_view done.new.items)) }
    ensures falls { OnOk result (all_left left.new.items <
        all_left left.old.items + (1 + 2 * arms_tree_sizes (map arm_sizes arms.now))) }
{
    let Some((arm, behind)) = arms.split_first() else {
        return Ok(fresh);
    };
    push_arms(left, behind)?;
    match arm {
        Arm::Entry(_) => Ok(fresh),
        Arm::Tree(node) => list_node(fresh, node, left, done),
    }
}

/// A step: what is due is opened; the type of that which is new after.
fn list_next<'a>(
    fresh: Option<NumberType>,
    due: Due<'a>,
    left: &mut Vec<Due<'a>>,
    done: &mut Vec<OpRefAtPoint<'a>>,
) -> Result<Option<NumberType>, AllocError>
    ensures way { IfOk result (λ later. IsOnWay fresh (seq (due_view due.entry)
        (all_due left.old.items)) later (all_due left.new.items)
        (map op_at_point_view done.old.items) (map op_at_point_view done.new.items)) }
    ensures falls { OnOk result (all_left left.new.items <
        all_left left.old.items + due_size due.entry) }
{
    match due {
        Due::Apart => Ok(None),
        Due::Tree(node) => list_node(fresh, node, left, done),
        Due::Arms(arms) => list_arms(fresh, arms, left, done),
        Due::Row(trees, last) => match trees.split_first() {
            None => list_node(fresh, last, left, done),
            Some((first, behind)) => {
                push_row(left, behind, last)?;
                list_node(fresh, first, left, done)
            }
        },
    }
}

/// What is done in a tree, in the order of the tree: of a loop the body before the step.
pub fn list_operations<'a>(
    alloc: Global,
    node: &'a Node,
) -> Result<Vec<OpRefAtPoint<'a>>, AllocError>
    ensures { IfOk result
        (λ done. map op_at_point_view done.items ≡ done_in None (node_view node.now)) }
{
    let mut done = Vec::new(alloc);
    let mut left = Vec::new(alloc);
    left.push(Due::Tree(node))?;
    let mut fresh = None;
    'trees: while let Some(due) = left.pop() {
        fresh = list_next(fresh, due, &mut left, &mut done)?;
    }
    Ok(done)
}
