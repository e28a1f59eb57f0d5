//! Trees of operations by what stands in them.

ghost use Rattle.lra_pass_results.specs.Crates.lra_analysis_spec.Plan.{Plan};
ghost use Rattle.lra_pass_results.specs.TreeForms.{IsTreeForm};

use crate::plan::Plan;
use lra_operations::{Arm, Exit, Node, Op, Probe};
use lra_program::{Cond, Expr};

/// A tree with no tree in it.
#[derive(Clone, Copy)]
pub enum Leaf<'a> {
    Empty,
    Point(usize),
    Act(usize, &'a Op),
    Check(usize, usize, &'a Cond),
    Leave(usize, Exit),
}

/// Trees one after the other, and then the last, and how they are passed.
#[derive(Clone, Copy)]
pub struct Row<'a> {
    pub plan: &'a Plan,
    pub trees: &'a [Node],
    pub last: &'a Node,
}

/// A choice, and how it is passed.
#[derive(Clone, Copy)]
pub struct Choice<'a> {
    pub plan: &'a Plan,
    pub point: usize,
    pub base: usize,
    pub condition: &'a Cond,
    pub yes: &'a Node,
    pub no: &'a Node,
}

/// A loop, and how it is passed.
#[derive(Clone, Copy)]
pub struct Loop<'a> {
    pub plan: &'a Plan,
    pub point: usize,
    pub base: usize,
    pub condition: &'a Cond,
    pub body: &'a Node,
}

/// A tree whose jumps of this kind come out at this point.
#[derive(Clone, Copy)]
pub struct Catch<'a> {
    pub point: usize,
    pub exit: Exit,
    pub body: &'a Node,
}

/// A `switch`: its value and its arms, and how it is passed.
#[derive(Clone, Copy)]
pub struct Selection<'a> {
    pub plan: &'a Plan,
    pub point: usize,
    pub base: usize,
    pub value: &'a Expr,
    pub arms: &'a [Arm],
}

/// A tree by the trees in it.
#[derive(Clone, Copy)]
pub enum TreeForm<'a> {
    Leaf(Leaf<'a>),
    /// What is done at the point beside the program's own operations.
    Probe(usize, Probe),
    Row(Row<'a>),
    Choice(Choice<'a>),
    Loop(Loop<'a>),
    Catch(Catch<'a>),
    Select(Selection<'a>),
}

impl<'a> TreeForm<'a> {
    /// The shape of the tree, which is passed by this plan.
    pub fn of(plan: &'a Plan, node: &'a Node) -> TreeForm<'a>
        ensures { IsTreeForm plan.now node.now result }
    {
        match node {
            Node::Empty => TreeForm::Leaf(Leaf::Empty),
            Node::Point(point) => TreeForm::Leaf(Leaf::Point(*point)),
            Node::Probe(point, what) => TreeForm::Probe(*point, *what),
            Node::Act(point, op) => TreeForm::Leaf(Leaf::Act(*point, op)),
            Node::Check(point, base, test) => TreeForm::Leaf(Leaf::Check(*point, *base, test)),
            Node::Seq(trees, last) => TreeForm::Row(Row {
                plan,
                trees: trees.as_slice(),
                last,
            }),
            Node::Choose(point, base, condition, yes, no) => TreeForm::Choice(Choice {
                plan,
                point: *point,
                base: *base,
                condition,
                yes,
                no,
            }),
            Node::Iterate(point, base, condition, body) => TreeForm::Loop(Loop {
                plan,
                point: *point,
                base: *base,
                condition,
                body,
            }),
            Node::Catch(point, exit, body) => TreeForm::Catch(Catch {
                point: *point,
                exit: *exit,
                body,
            }),
            Node::Leave(live, exit) => TreeForm::Leaf(Leaf::Leave(*live, *exit)),
            Node::Select(point, base, value, arms) => TreeForm::Select(Selection {
                plan,
                point: *point,
                base: *base,
                value,
                arms: arms.as_slice(),
            }),
        }
    }
}
