//! A program with its calls written out, as a tree of operations, and its points. Points are numbered from 0 here.

ghost use Rattle.std.specs.Prelude.{◌≡◌, ◌+◌, ◌<◌, ◌∷◌, [], IfOk, IfSome, MatchOption};
ghost use Rattle.lra_operations.specs.{Parts.whole_of, Parts.whole_arm_of, Sizes.whole_size, Sizes.hung_size};
ghost use Rattle.lra_operations.specs.declared.tree.Arm.TheVariants as arm;

use crate::probes::Probe;
use lra_program::{Argument, Array, CaseLabel, Cond, Element, Expr, NumberType, Receiver};
use std::alloc::{AllocError, Global};
use std::marker::Model;
use std::mem;

/// Why a tree is left before its end: by `break`, `continue`, `return`.
#[derive(Clone, Copy, PartialEq, Eq, Debug)]
pub enum Exit {
    Broken,
    Continued,
    Returned,
}

/// A least change of the state: a number is a place in the store, or its length. The first number before an element, an
/// expression, arguments or a condition is where the variables of the call that runs begin.
pub enum Op {
    /// A new variable of this type, of any value.
    Append(NumberType),
    /// The array's elements get any values.
    Fill(Array),
    /// The receiver gets the value.
    StoreValue(usize, Receiver, Expr),
    /// The element gets the value; its index is computed first.
    StoreElement(usize, Element, Expr),
    /// The receiver gets any value.
    Havoc(Receiver),
    /// The arguments' values, as new variables.
    Push(usize, Vec<Argument>),
    /// The element's index is computed, and waits for a call's result; then the arguments' values, as new variables.
    PushFor(usize, Element, Vec<Argument>),
    /// Only the oldest so many variables stay.
    TruncateTo(usize),
    /// Nothing, if the condition has this value.
    Test(usize, Cond, bool),
}

impl Drop for Op {
    fn drop(self) {
        match self {
            Op::Append(_) => {}
            Op::Fill(_) => {}
            Op::StoreValue(_, _, _) => {}
            Op::StoreElement(_, _, _) => {}
            Op::Havoc(_) => {}
            Op::Push(_, _) => {}
            Op::PushFor(_, _, _) => {}
            Op::TruncateTo(_) => {}
            Op::Test(_, _, _) => {}
        }
    }
}

/// A tree of operations. The first number is that of the point to which an operation belongs; the number before a
/// condition or an expression is where the variables of its call begin.
#[cycle(tree)]
pub enum Node {
    Empty,
    Point(usize),
    /// What is done there beside the program's own operations.
    Probe(usize, Probe),
    Act(usize, Op),
    /// An assertion: a test with a verdict.
    Check(usize, usize, Cond),
    /// The trees one after the other, and then the last.
    Seq(Vec<Node>, Box<Node>),
    /// The tree for a true condition, then the tree for a false one.
    Choose(usize, usize, Cond, Box<Node>, Box<Node>),
    /// A loop: its point stands before the test, at each round.
    Iterate(usize, usize, Cond, Box<Node>),
    /// Jumps of this kind come out after it.
    Catch(usize, Exit, Box<Node>),
    /// The tree is left; so many variables live where the jump's statement stands, before what it cuts.
    Leave(usize, Exit),
    /// The trees after the label to which the value goes, one after the other.
    Select(usize, usize, Expr, Vec<Arm>),
}

/// A label of a `switch`, or a tree after labels.
#[cycle(tree)]
pub enum Arm {
    Entry(CaseLabel),
    Tree(Node),
}

/// What a tree is made of.
#[derive(Drop)]
pub enum Parts {
    Empty,
    Point(usize),
    Probe(usize, Probe),
    Act(usize, Op),
    Check(usize, usize, Cond),
    Seq(Vec<Node>, Box<Node>),
    Choose(usize, usize, Cond, Box<Node>, Box<Node>),
    Iterate(usize, usize, Cond, Box<Node>),
    Catch(usize, Exit, Box<Node>),
    Leave(usize, Exit),
    Select(usize, usize, Expr, Vec<Arm>),
}

/// What an arm is made of.
#[derive(Drop)]
pub enum ArmParts {
    Entry(CaseLabel),
    Tree(Node),
}

impl Drop for Arm {
    fn drop(self) {
        match self {
            Arm::Entry(_) => {}
            Arm::Tree(_) => {}
        }
    }
}

impl Arm {
    /// The label, or the tree.
    pub fn into_parts(self) -> ArmParts
        ensures { whole_arm_of result ≡ self }
    {
        match self {
            Arm::Entry(label) => ArmParts::Entry(label),
            Arm::Tree(tree) => ArmParts::Tree(tree),
        }
    }

    /// The arm's tree; a label has none.
    fn into_tree(self) -> Option<Node>
        ensures { MatchOption result ((l : CaseLabel) × (self ≡ arm.Entry l))
            (λ g. self ≡ arm.Tree g) }
    {
        match self {
            Arm::Entry(_) => None,
            Arm::Tree(tree) => Some(tree),
        }
    }
}

impl Drop for Node {
    /// Goes along the tree without a call for each level: what is left hangs in boxes of the tree itself.
    fn drop(mut self) {
        let mut rest = Node::Empty;
        'trees: loop {
            match self.take_apart(rest) {
                Some((tree, others)) => {
                    self = tree;
                    rest = others;
                }
                None => return,
            }
        }
    }
}

impl Node {
    /// The trees right in this one, and what stands beside them.
    pub fn into_parts(self) -> Parts
        ensures { whole_of result ≡ self }
    {
        match self {
            Node::Empty => Parts::Empty,
            Node::Point(point) => Parts::Point(point),
            Node::Probe(point, what) => Parts::Probe(point, what),
            Node::Act(point, op) => Parts::Act(point, op),
            Node::Check(point, base, condition) => Parts::Check(point, base, condition),
            Node::Seq(trees, last) => Parts::Seq(trees, last),
            Node::Choose(point, base, condition, yes, no) => {
                Parts::Choose(point, base, condition, yes, no)
            }
            Node::Iterate(point, base, condition, body) => {
                Parts::Iterate(point, base, condition, body)
            }
            Node::Catch(point, exit, body) => Parts::Catch(point, exit, body),
            Node::Leave(live, exit) => Parts::Leave(live, exit),
            Node::Select(point, base, value, arms) => Parts::Select(point, base, value, arms),
        }
    }

    /// A tree of those in this one that is next, and what is left: the others hang before the rest, in the box of the
    /// tree that is next, or in place of the last arm. None if nothing is left.
    fn take_apart(self, rest: Node) -> Option<(Node, Node)>
        ensures { IfSome result (λ r. whole_size r.0 + hung_size r.1 < whole_size self + hung_size rest) }
    {
        match self {
            Node::Seq(trees, last) => {
                let mut hook = last;
                let tree = mem::replace(&mut *hook, rest);
                Some((tree, Node::Seq(trees, hook)))
            }
            Node::Choose(point, base, condition, yes, no) => {
                let mut hook = yes;
                let tree = mem::replace(&mut *hook, rest);
                Some((tree, Node::Choose(point, base, condition, hook, no)))
            }
            Node::Select(point, base, value, mut arms) => match arms.pop() {
                Some(arm) => match arm.into_tree() {
                    Some(tree) => {
                        arms.push_reserved(Arm::Tree(rest));
                        Some((tree, Node::Select(point, base, value, arms)))
                    }
                    None => Some((Node::Select(point, base, value, arms), rest)),
                },
                None => {
                    arms.destroy_empty();
                    rest.take_next()
                }
            },
            Node::Iterate(_, _, _, body) => Some((Box::into_inner(body), rest)),
            Node::Catch(_, _, body) => Some((Box::into_inner(body), rest)),
            Node::Empty => rest.take_next(),
            Node::Point(_) => rest.take_next(),
            Node::Probe(_, _) => rest.take_next(),
            Node::Act(_, _) => rest.take_next(),
            Node::Check(_, _, _) => rest.take_next(),
            Node::Leave(_, _) => rest.take_next(),
        }
    }

    /// Of trees that hang before each other the one that is next, and the others.
    fn take_next(self) -> Option<(Node, Node)>
        ensures { IfSome result (λ r. whole_size r.0 + hung_size r.1 < 1 + hung_size self) }
    {
        match self {
            Node::Seq(mut trees, rest) => match trees.pop() {
                Some(tree) => Some((tree, Node::Seq(trees, rest))),
                None => {
                    trees.destroy_empty();
                    Some((Node::Empty, Box::into_inner(rest)))
                }
            },
            Node::Choose(_, _, _, rest, tree) => {
                Some((Box::into_inner(tree), Box::into_inner(rest)))
            }
            Node::Select(point, base, value, mut arms) => match arms.pop() {
                Some(arm) => match arm.into_tree() {
                    Some(rest) => Some((Node::Select(point, base, value, arms), rest)),
                    None => Some((Node::Select(point, base, value, arms), Node::Empty)),
                },
                None => {
                    arms.destroy_empty();
                    None
                }
            },
            Node::Iterate(_, _, _, tree) => Some((Box::into_inner(tree), Node::Empty)),
            Node::Catch(_, _, tree) => Some((Box::into_inner(tree), Node::Empty)),
            Node::Empty => None,
            Node::Point(_) => None,
            Node::Probe(_, _) => None,
            Node::Act(_, _) => None,
            Node::Check(_, _, _) => None,
            Node::Leave(_, _) => None,
        }
    }
}

/// The labels of the calls that lead to a point, the innermost first.
pub struct Path {
    calls: Vec<usize>,
}

impl Drop for Path {
    fn drop(self) {
        let Path { calls: _ } = self;
    }
}

impl Model for Path {
    ghost use Rattle.std.specs.Prelude.{ℕ, List};

    ghost Value = { List ℕ };

    ghost view = { λ p. p.calls.items };
}

/// A point.
pub struct Site {
    pub path: Path,
    pub label: usize,
    /// How many variables live there.
    pub live: usize,
    /// Whether it is an assertion.
    pub asserts: bool,
}

impl Drop for Site {
    fn drop(self) {
        let Site {
            path: _,
            label: _,
            live: _,
            asserts: _,
        } = self;
    }
}

/// The tree of a program, and its points in the order of their numbers.
pub struct InlinedProgram {
    pub tree: Node,
    pub sites: Vec<Site>,
}

impl Drop for InlinedProgram {
    fn drop(self) {
        let InlinedProgram { tree: _, sites: _ } = self;
    }
}

impl Path {
    /// The path of `main` itself.
    pub fn empty(alloc: Global) -> Path
        ensures { result ≡ [] }
    {
        Path {
            calls: Vec::new(alloc),
        }
    }

    /// The path of a further call, from a point on this one.
    pub fn with_call(&self, alloc: Global, label: usize) -> Result<Path, AllocError>
        ensures { IfOk result (λ p. p ≡ label ∷ self.now) }
    {
        let mut calls = Vec::new(alloc);
        calls.push(label)?;
        calls.extend_from_slice(&self.calls)?;
        Ok(Path { calls })
    }

    /// A copy, equal to this path.
    pub fn copy(&self, alloc: Global) -> Result<Path, AllocError>
        ensures { IfOk result (λ p. p ≡ self.now) }
    {
        let mut calls = Vec::new(alloc);
        calls.extend_from_slice(&self.calls)?;
        Ok(Path { calls })
    }

    /// The labels as a slice, the innermost first.
    pub fn as_slice(&self) -> &[usize]
        ensures { result.now ≡ self.now }
    {
        &self.calls
    }
}
