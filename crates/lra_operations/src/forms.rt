//! The forms of which a program's tree is made, from their parts.

ghost use Rattle.std.specs.Prelude.{◌≡◌, ◌+◌, ◌<◌, ◌^◌, ◌++◌, ◌∷◌, [], length, map, IfOk};
ghost use Rattle.lra_program.specs.Step as step;
ghost use Rattle.lra_program.specs.Step.{arguments_for};
ghost use Rattle.lra_operations.specs.Tree as graph;
ghost use Rattle.lra_operations.specs.Inlined.{loop_node, switch_node, callee_node, call_node, return_node};
ghost use Rattle.lra_operations.specs.TreeViews.{op_view, exit_view, node_view, row, arm_view, arms_of};
ghost use Rattle.lra_program.specs.ProgramViews.{expr_view, element_view, cond_view};

use crate::{Arm, Exit, Node, Op};
use lra_program::{Cond, Element, Expr, NumberType, Receiver, pair_arguments};
use std::alloc::{AllocError, Global};

/// The one, then the other.
pub fn put_in_turn(alloc: Global, first: Node, second: Node) -> Result<Node, AllocError>
    ensures { IfOk result (λ g. node_view g ≡ graph.seq (node_view first) (node_view second)) }
{
    let mut before = Vec::new(alloc);
    before.push(first)?;
    Ok(Node::Seq(before, Box::new(alloc, second)?))
}

/// One part more, after the others.
pub fn add_part(parts: &mut Vec<Node>, part: Node) -> Result<(), AllocError>
    ensures { IfOk result (λ _. parts.new.items ≡ parts.old.items ++ part ∷ []) }
{
    parts.push(part)?;
    Ok(())
}

/// The parts one after the other, after the last of which nothing is done.
pub fn put_in_a_row(alloc: Global, parts: Vec<Node>) -> Result<Node, AllocError>
    ensures { IfOk result (λ g. node_view g ≡ row (map node_view parts.items) graph.empty) }
{
    Ok(Node::Seq(parts, Box::new(alloc, Node::Empty)?))
}

fn catch_exit(alloc: Global, point: usize, exit: Exit, body: Node) -> Result<Node, AllocError>
    ensures { IfOk result (λ g. node_view g ≡ graph.catch point (exit_view exit) (node_view body)) }
{
    Ok(Node::Catch(point, exit, Box::new(alloc, body)?))
}

/// The point, then the tree.
pub fn put_point(alloc: Global, point: usize, node: Node) -> Result<Node, AllocError>
    ensures { IfOk result (λ g. node_view g ≡ graph.seq (graph.point point) (node_view node)) }
{
    put_in_turn(alloc, Node::Point(point), node)
}

/// The operation, then the tree.
fn put_act(alloc: Global, point: usize, op: Op, node: Node) -> Result<Node, AllocError>
    ensures { IfOk result (λ g. node_view g ≡ graph.seq (graph.act point (op_view op)) (node_view node)) }
{
    put_in_turn(alloc, Node::Act(point, op), node)
}

/// A declarator whose variable gets a value: its point, the new variable of this type, and what gives the value.
pub fn declare(
    alloc: Global,
    point: usize,
    number_type: NumberType,
    given: Node,
) -> Result<Node, AllocError>
    ensures { IfOk result (λ g. node_view g ≡ graph.seq (graph.point point)
        (graph.seq (graph.act point (step.append number_type)) (node_view given))) }
{
    let variable = put_act(alloc, point, Op::Append(number_type), given)?;
    put_point(alloc, point, variable)
}

/// A block: its items, then the point of its end, where its variables go.
pub fn close_block(
    alloc: Global,
    point: usize,
    live: usize,
    items: Node,
) -> Result<Node, AllocError>
    ensures { IfOk result (λ g. node_view g
        ≡ graph.seq (node_view items) (graph.seq (graph.point point) (graph.act point (step.truncate_to live)))) }
{
    let end = put_point(alloc, point, Node::Act(point, Op::TruncateTo(live)))?;
    put_in_turn(alloc, items, end)
}

/// A `for` after its point: its beginning, then its loop, then its variables go.
pub fn enclose_for(
    alloc: Global,
    point: usize,
    live: usize,
    init: Node,
    rounds: Node,
) -> Result<Node, AllocError>
    ensures { IfOk result (λ g. node_view g
        ≡ graph.seq (node_view init) (graph.seq (node_view rounds) (graph.act point (step.truncate_to live)))) }
{
    let rest = put_in_turn(alloc, rounds, Node::Act(point, Op::TruncateTo(live)))?;
    put_in_turn(alloc, init, rest)
}

/// The point, then the one where the condition is true, the other where it is false.
pub fn choice(
    alloc: Global,
    point: usize,
    base: usize,
    cond: &Cond,
    on_true: Node,
    on_false: Node,
) -> Result<Node, AllocError>
    ensures { IfOk result (λ g. node_view g ≡ graph.seq (graph.point point)
        (graph.choose point base (cond_view cond.now) (node_view on_true) (node_view on_false))) }
{
    let cond = cond.copy(alloc)?;
    let on_true = Box::new(alloc, on_true)?;
    let on_false = Box::new(alloc, on_false)?;
    put_point(
        alloc,
        point,
        Node::Choose(point, base, cond, on_true, on_false),
    )
}

/// A loop: `break` comes out after it, `continue` after the body and before the step.
pub fn rounds(
    alloc: Global,
    point: usize,
    base: usize,
    cond: &Cond,
    body: Node,
    step: Node,
) -> Result<Node, AllocError>
    ensures { IfOk result (λ g. node_view g
        ≡ loop_node point base (cond_view cond.now) (node_view body) (node_view step)) }
{
    let cond = cond.copy(alloc)?;
    let body = catch_exit(alloc, point, Exit::Continued, body)?;
    let round = put_in_turn(alloc, body, step)?;
    let all = Node::Iterate(point, base, cond, Box::new(alloc, round)?);
    catch_exit(alloc, point, Exit::Broken, all)
}

/// One arm more, after the others.
pub fn add_arm(arms: &mut Vec<Arm>, arm: Arm) -> Result<(), AllocError>
    ensures { IfOk result (λ _. arms.new.items ≡ arms.old.items ++ arm ∷ []) }
{
    arms.push(arm)?;
    Ok(())
}

/// A `switch`: the point, then the arms after the label to which the value goes; `break` comes out after them.
pub fn selection(
    alloc: Global,
    point: usize,
    base: usize,
    value: &Expr,
    arms: Vec<Arm>,
) -> Result<Node, AllocError>
    ensures { IfOk result (λ g. node_view g ≡ graph.seq (graph.point point)
        (switch_node point base (expr_view value.now) (arms_of (map arm_view arms.items)))) }
{
    let value = value.copy(alloc)?;
    let select = Node::Select(point, base, value, arms);
    let all = catch_exit(alloc, point, Exit::Broken, select)?;
    put_point(alloc, point, all)
}

/// A jump, which first cuts the store.
pub fn cut_and_leave(
    alloc: Global,
    point: usize,
    length: usize,
    live: usize,
    exit: Exit,
) -> Result<Node, AllocError>
    ensures { IfOk result (λ g. node_view g
        ≡ graph.seq (graph.act point (step.truncate_to length))
        (graph.leave live (exit_view exit))) }
{
    put_act(
        alloc,
        point,
        Op::TruncateTo(length),
        Node::Leave(live, exit),
    )
}

/// A `return` that gives its value, then cuts the store.
pub fn give_and_leave(
    alloc: Global,
    point: usize,
    op: Op,
    length: usize,
    live: usize,
) -> Result<Node, AllocError>
    ensures { IfOk result (λ g. node_view g ≡ return_node point (op_view op) length live) }
{
    let leave = cut_and_leave(alloc, point, length, live, Exit::Returned)?;
    put_act(alloc, point, op, leave)
}

/// The end of a called function: its body's variables go, the receiver gets any value, the parameters go.
fn call_end(
    alloc: Global,
    end: usize,
    live: usize,
    parameters: usize,
    receiver: Receiver,
) -> Result<Node, AllocError>
    requires { live + parameters < 2 ^ 64 }
    ensures { IfOk result (λ g. node_view g
        ≡ graph.seq (graph.point end)
        (graph.seq (graph.act end (step.truncate_to (live + parameters)))
        (graph.seq (graph.act end (step.havoc receiver))
        (graph.act end (step.truncate_to live))))) }
{
    let last = Node::Act(end, Op::TruncateTo(live));
    let given = put_act(alloc, end, Op::Havoc(receiver), last)?;
    let cut = put_act(alloc, end, Op::TruncateTo(live + parameters), given)?;
    put_point(alloc, end, cut)
}

/// What a call is: its arguments become the callee's first variables, after the `live` that live at the call.
#[derive(Clone, Copy)]
pub struct CallPlace {
    /// The call's own point.
    pub point: usize,
    /// The point of the callee's end.
    pub end: usize,
    /// Where the caller's variables begin.
    pub base: usize,
    /// How many variables live there.
    pub live: usize,
    /// What gets the result, after the type that the callee gives it.
    pub receiver: Receiver,
}

/// A called function with so many parameters and this body, whose arguments the operation gives.
fn enclose_callee(
    alloc: Global,
    place: CallPlace,
    gives: Op,
    parameters: usize,
    body: Node,
) -> Result<Node, AllocError>
    requires { place.live + parameters < 2 ^ 64 }
    ensures { IfOk result (λ g. node_view g
        ≡ callee_node place.point place.end place.live place.receiver (op_view gives) parameters (node_view body)) }
{
    let end = call_end(alloc, place.end, place.live, parameters, place.receiver)?;
    let whole = put_in_turn(alloc, body, end)?;
    let inside = catch_exit(alloc, place.point, Exit::Returned, whole)?;
    put_act(alloc, place.point, gives, inside)
}

/// A call of a function with parameters of these types and this body.
pub fn enclose_call(
    alloc: Global,
    place: CallPlace,
    parameters: &[NumberType],
    arguments: &[Expr],
    body: Node,
) -> Result<Node, AllocError>
    requires { place.live + length parameters.now < 2 ^ 64 }
    ensures { IfOk result (λ g. node_view g
        ≡ call_node place.point place.end place.base place.live place.receiver
        (arguments_for parameters.now (map expr_view arguments.now)) (length parameters.now) (node_view body)) }
{
    let arguments = pair_arguments(alloc, parameters, arguments)?;
    let gives = Op::Push(place.base, arguments);
    enclose_callee(alloc, place, gives, parameters.len(), body)
}

/// A call of a function with parameters of these types and this body, whose result an array's element gets.
pub fn enclose_call_for(
    alloc: Global,
    place: CallPlace,
    element: &Element,
    parameters: &[NumberType],
    arguments: &[Expr],
    body: Node,
) -> Result<Node, AllocError>
    requires { place.live + length parameters.now < 2 ^ 64 }
    ensures { IfOk result (λ g. node_view g
        ≡ callee_node place.point place.end place.live place.receiver (step.push_for place.base
        (element_view element.now) (arguments_for parameters.now (map expr_view arguments.now)))
        (length parameters.now) (node_view body)) }
{
    let element = element.copy(alloc)?;
    let arguments = pair_arguments(alloc, parameters, arguments)?;
    let gives = Op::PushFor(place.base, element, arguments);
    enclose_callee(alloc, place, gives, parameters.len(), body)
}
