//! Where a tree is being instrumented: the open places, and what comes next. The tree is gone along by a list of these,
//! and not by calls, so it may be as deep as memory allows.

use lra_operations::{Arm, Exit, Node};
use lra_program::{Cond, Expr};

/// A tree of a row is being instrumented: those before it are instrumented, those after it are left, the next of them
/// last.
#[derive(Drop)]
pub struct Row {
    pub done: Vec<Node>,
    pub left: Vec<Node>,
    pub last: Box<Node>,
}

/// The arms of a `switch` are gone through: these are instrumented, those are left, the next of them last.
#[derive(Drop)]
pub struct Selection {
    pub point: usize,
    pub base: usize,
    pub value: Expr,
    pub done: Vec<Arm>,
    pub left: Vec<Arm>,
}

/// What is around a tree that is being instrumented.
#[derive(Drop)]
pub enum InstrumentFrame {
    Row(Row),
    /// The last of a row, after these.
    Last(Vec<Node>),
    /// The first branch of a choice, before the other, which is left.
    First(usize, usize, Cond, Box<Node>),
    /// The second branch of a choice, after the first, which is instrumented.
    Second(usize, usize, Cond, Box<Node>),
    /// The body of a loop.
    Body(usize, usize, Cond),
    Catch(usize, Exit),
    /// The next arm's tree.
    Arm(Selection),
}

/// What comes next.
#[derive(Drop)]
pub enum Next {
    /// A tree that is to be instrumented.
    Opens(Node),
    /// A tree that is instrumented.
    Gives(Node),
    /// The arms that are left are to be instrumented.
    Selects(Selection),
}

/// What a step leads to: the whole tree is instrumented, or this comes next.
#[derive(Drop)]
pub enum Step {
    Ended(Node),
    Goes(Next),
}
