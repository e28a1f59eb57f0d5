//! A small tree, instrumented.

use lra_operations::forms::put_in_turn;
use lra_operations::{Node, Op, Probe};
use lra_program::{NumberType, Receiver};
use lra_threads_instrument::instrument_tree;
use std::alloc::{AllocError, Global};

/// The variable at the place gets any value.
fn give(place: usize) -> Node {
    Node::Act(1, Op::Havoc(Receiver::variable(place, NumberType::Int)))
}

/// A point, and then two writes, with what others do if one variable is theirs.
fn opened(alloc: Global) -> Result<Node, AllocError> {
    let gifts = put_in_turn(alloc, give(0), give(1))?;
    let tree = put_in_turn(alloc, Node::Point(1), gifts)?;
    instrument_tree(alloc, 1, tree)
}

/// Whether the tree begins with one in which others act before the point.
fn enters_first(tree: &Node) -> bool {
    let Node::Seq(before, _) = tree else {
        return false;
    };
    let [Node::Seq(entering, point)] = before.as_slice() else {
        return false;
    };
    let [Node::Probe(place, Probe::InterferencePoint)] = entering.as_slice() else {
        return false;
    };
    *place == 1 && matches!(&**point, Node::Point(1))
}

/// Whether after it the first write is noted.
fn notes_first(tree: &Node) -> bool {
    let Node::Seq(_, gifts) = tree else {
        return false;
    };
    let Node::Seq(before, _) = &**gifts else {
        return false;
    };
    let [Node::Seq(_, noting)] = before.as_slice() else {
        return false;
    };
    matches!(&**noting, Node::Probe(1, Probe::RecordWrite(0)))
}

#[test]
fn a_tree_is_opened(rt: HostRuntime) -> Result<(), AllocError> {
    let tree = opened(rt.alloc())?;
    assert!(rt; enters_first(&tree));
    assert!(rt; notes_first(&tree));
    Ok(())
}
