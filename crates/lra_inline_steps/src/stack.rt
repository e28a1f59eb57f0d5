//! Where a program is being written out: the open places, from the outermost to the innermost. The writing goes along
//! the program by a list of these, and not by calls, so a tree may be as deep as memory allows.

ghost use Rattle.std.specs.Prelude.{◌≡◌, Ok, IfOk};
ghost use Rattle.lra_inline_steps.specs.Limits.{OnLimit};
ghost use Rattle.lra_inline_steps.specs.declared.stack.Next.TheVariants as next;

use crate::frame::{Caller, Frame, Repeated};
use crate::points::InlineError;
use lra_operations::{Arm, Node, Path};
use lra_program::{Array, BlockItem, Call, CaseItem, Cond, Declarator, Expr, NumberType, Stmt};
use std::alloc::AllocError;

/// What is to be written out.
#[derive(Clone, Copy)]
pub enum Part<'a> {
    Stmt(&'a Stmt),
    Declaration(&'a Declarator),
    /// A declarator's label, and its array.
    Array(usize, Array),
    Items(&'a [BlockItem]),
    Call(Caller<'a>, &'a Call),
    /// A loop after its own point.
    Rounds(usize, Repeated<'a>),
}

/// What is written of a part: its tree, and how many variables live after it.
#[derive(Drop)]
pub struct Written {
    pub node: Node,
    pub live: usize,
}

/// Items of which one is under way: what is written of those before it, and those after it.
#[derive(Drop)]
pub struct ItemRow<'a> {
    pub parts: Vec<Node>,
    pub rest: &'a [BlockItem],
}

/// A `switch` of which one statement is under way: its point and its expression, what is written of its labels and of
/// the statements before that one, and what comes after it.
#[derive(Drop)]
pub struct CaseRow<'a> {
    pub point: usize,
    pub value: &'a Expr,
    pub arms: Vec<Arm>,
    pub rest: &'a [CaseItem],
}

/// The next statement of a `switch`, and what comes after it.
#[derive(Clone, Copy)]
pub struct NextCase<'a> {
    pub stmt: &'a Stmt,
    pub rest: &'a [CaseItem],
}

/// A choice after its own point, and the branch where its condition is false.
#[derive(Clone, Copy)]
pub struct Branches<'a> {
    pub point: usize,
    pub cond: &'a Cond,
    pub on_false: &'a Stmt,
}

/// What a called function's body goes back to: the path that the call stands on, what calls, and the call.
#[derive(Drop)]
pub struct CalledFrom<'a> {
    pub path: Path,
    pub caller: Caller<'a>,
    pub call: &'a Call,
}

/// A choice or a loop one of whose two parts is under way; the first one's tree stands with the second.
#[derive(Drop)]
pub enum Forked<'a> {
    /// A choice's first branch.
    OnTrue(Branches<'a>),
    /// The second branch of a choice with this point.
    OnFalse(usize, &'a Cond, Node),
    /// The step of a loop with this point.
    Step(usize, Repeated<'a>),
    /// The body of a loop with this point.
    Body(usize, &'a Cond, Node),
}

/// A place where a part is under way, and what is still to be written there.
#[derive(Drop)]
pub enum InlineContext<'a> {
    Items(ItemRow<'a>),
    Cases(CaseRow<'a>),
    Forked(Forked<'a>),
    /// How a `for` with this point begins is under way.
    Init(usize, Repeated<'a>),
    /// The loop of a `for` with this point is under way, after this tree of how it begins.
    Around(usize, Node),
    /// A block's items are under way: the label of its end.
    Block(usize),
    /// The call of a statement with this point is under way.
    Given(usize),
    /// The call of a declarator with this point is under way, for a variable of this type.
    Declared(usize, NumberType),
    /// The call of a `return` with this point is under way.
    Returned(usize),
    /// A called function's body is under way.
    Callee(CalledFrom<'a>),
}

/// An open place, and where it stands.
#[derive(Drop)]
pub struct InlineFrame<'a> {
    pub frame: Frame,
    pub place: InlineContext<'a>,
}

/// What comes next.
#[derive(Drop)]
pub enum Next<'a> {
    Written(Written),
    /// A place opens, and in it this part is to be written out, which stands in this frame.
    Opens(InlineFrame<'a>, Frame, Part<'a>),
}

/// What is written, if only the memory may fail.
pub fn close<'a>(tree: Result<Node, AllocError>, live: usize) -> Result<Next<'a>, InlineError>
    ensures written { IfOk result (λ n. (g : Node) × (tree ≡ Ok g)
        × (n ≡ next.Written (record { node = g; live = live }))) }
    ensures memory { OnLimit result (λ _. ⊥) }
{
    let node = tree?;
    Ok(Next::Written(Written { node, live }))
}
