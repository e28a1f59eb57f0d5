//! What others do is written into a tree, along a list of open places.

ghost use Rattle.std.specs.{List.sum_by, Prelude.◌≡◌, Prelude.◌+◌, Prelude.◌*◌, Prelude.ℕ, Prelude.map, Prelude.IfOk};
ghost use Rattle.lra_program.specs.ProgramViews.{cond_view, expr_view};
ghost use Rattle.lra_operations.specs.declared.probes.Probe.TheVariants.{InterferencePoint};
ghost use Rattle.lra_operations.specs.Tree as graph;
ghost use Rattle.lra_operations.specs.Sizes.{arm_sizes, arms_tree_sizes, whole_size};
ghost use Rattle.lra_operations.specs.TreeViews.{arm_view, arms_of, node_view, op_view, row};
ghost use Rattle.lra_threads_instrument.specs.Crates.lra_analysis_spec.Instrumented.{with_interference, with_recording};
ghost use Rattle.lra_threads_instrument.specs.Crates.lra_analysis_spec.Instrumented.{instrumented, instrumented_arms};
ghost use Rattle.lra_program.specs.WrittenVariables.{written_variable, target_variable};
ghost use Rattle.lra_threads_instrument.specs.Instrumented.{around, row_whole, selection_whole};
ghost use Rattle.lra_threads_instrument.specs.StepsLeft.{place_left, row_left, selection_left, tree_left};
ghost use Rattle.lra_threads_instrument.specs.StepsLeft.{InstrumentStepLeads, InstrumentStepReaches};

use crate::stack::{InstrumentFrame, Next, Row, Selection, Step};
use lra_operations::forms::put_in_turn;
use lra_operations::{Arm, ArmParts, InlinedProgram, Node, Op, Parts, Probe};
use lra_program::{Cell, Cond, Expr, Receiver};
use std::alloc::{AllocError, Global};
use std::mem;

// one operation, one loop -------------------------------------------------------------------------

/// The place of the variable that the receiver is, if it is one.
fn variable_of(receiver: &Receiver) -> Option<usize>
    ensures { result ≡ target_variable receiver.now.target }
{
    match receiver.target {
        Some(target) => match target.cell {
            Cell::Variable(place) => Some(place),
            Cell::Waiting(_) => None,
        },
        None => None,
    }
}

/// The place of the variable to which the operation gives a value.
fn find_written(op: &Op) -> Option<usize>
    ensures { result ≡ written_variable (op_view op.now) }
{
    match op {
        Op::Append(_) => None,
        Op::Fill(_) => None,
        Op::StoreValue(_, receiver, _) => variable_of(receiver),
        Op::StoreElement(_, _, _) => None,
        Op::Havoc(receiver) => variable_of(receiver),
        Op::Push(_, _) => None,
        Op::PushFor(_, _, _) => None,
        Op::TruncateTo(_) => None,
        Op::Test(_, _, _) => None,
    }
}

/// The operation, and after it what it gives to one of the first variables.
fn record_write(alloc: Global, globals: usize, point: usize, op: Op) -> Result<Node, AllocError>
    ensures { IfOk result (λ g. node_view g ≡
        with_recording globals point (written_variable (op_view op))
        (graph.act point (op_view op))) }
{
    match find_written(&op) {
        Some(place) => {
            if place < globals {
                let noting = Node::Probe(point, Probe::RecordWrite(place));
                put_in_turn(alloc, Node::Act(point, op), noting)
            } else {
                Ok(Node::Act(point, op))
            }
        }
        None => Ok(Node::Act(point, op)),
    }
}

/// Others act, and then the tree.
fn enter(alloc: Global, point: usize, tree: Node) -> Result<Node, AllocError>
    ensures { IfOk result (λ g. node_view g ≡ with_interference point (node_view tree)) }
{
    put_in_turn(alloc, Node::Probe(point, Probe::InterferencePoint), tree)
}

/// A loop whose body is instrumented: others act before it, and at the body's end.
fn enter_loop(
    alloc: Global,
    point: usize,
    base: usize,
    condition: Cond,
    body: Node,
) -> Result<Node, AllocError>
    ensures { IfOk result (λ g. node_view g ≡ with_interference point
        (graph.iterate point base (cond_view condition)
        (graph.seq (node_view body) (graph.probe point InterferencePoint)))) }
{
    let round = put_in_turn(alloc, body, Node::Probe(point, Probe::InterferencePoint))?;
    let body = Box::new(alloc, round)?;
    enter(alloc, point, Node::Iterate(point, base, condition, body))
}

// what comes next ---------------------------------------------------------------------------------

/// Opens this frame, in which the tree is next.
fn open_in(
    places: &mut Vec<InstrumentFrame>,
    place: InstrumentFrame,
    tree: Node,
) -> Result<Next, AllocError>
    ensures { (n : ℕ) → IfOk result (λ next. InstrumentStepLeads n places.old.items
        (around n place (instrumented n (node_view tree)))
        (1 + place_left place + tree_left tree) places.new.items next) }
{
    places.push(place)?;
    Ok(Next::Opens(tree))
}

/// The next tree of a row.
fn go_on_row(places: &mut Vec<InstrumentFrame>, mut row: Row) -> Result<Next, AllocError>
    ensures { (n : ℕ) → IfOk result
        (λ next. InstrumentStepLeads n places.old.items (row_whole n row)
        (1 + row_left row) places.new.items next) }
{
    match row.left.pop() {
        Some(tree) => open_in(places, InstrumentFrame::Row(row), tree),
        None => {
            let Row {
                done,
                left: _,
                last,
            } = row;
            open_in(places, InstrumentFrame::Last(done), Box::into_inner(last))
        }
    }
}

/// The next arm of a `switch`.
fn go_on_arms(
    places: &mut Vec<InstrumentFrame>,
    mut selection: Selection,
) -> Result<Next, AllocError>
    ensures { (n : ℕ) → IfOk result
        (λ next. InstrumentStepLeads n places.old.items (selection_whole n selection)
        (selection_left selection) places.new.items next) }
{
    match selection.left.pop() {
        Some(arm) => match arm.into_parts() {
            ArmParts::Entry(label) => {
                selection.done.push(Arm::Entry(label))?;
                Ok(Next::Selects(selection))
            }
            ArmParts::Tree(tree) => open_in(places, InstrumentFrame::Arm(selection), tree),
        },
        None => {
            let Selection {
                point,
                base,
                value,
                done,
                left: _,
            } = selection;
            Ok(Next::Gives(Node::Select(point, base, value, done)))
        }
    }
}

/// The first step into a row.
fn open_row(
    alloc: Global,
    places: &mut Vec<InstrumentFrame>,
    mut trees: Vec<Node>,
    last: Box<Node>,
) -> Result<Next, AllocError>
    ensures { (n : ℕ) → IfOk result (λ next. InstrumentStepLeads n places.old.items
        (instrumented n (row (map node_view trees.items) (node_view last.value)))
        (3 + 2 * (sum_by whole_size trees.items + whole_size last.value)) places.new.items next) }
{
    trees.reverse();
    let done = Vec::new(alloc);
    let row = Row {
        done,
        left: trees,
        last,
    };
    go_on_row(places, row)
}

/// The arms of a `switch`, none of which is instrumented.
fn select(alloc: Global, point: usize, base: usize, value: Expr, mut arms: Vec<Arm>) -> Selection
    ensures whole { (n : ℕ) → selection_whole n result ≡
        graph.select point base (expr_view value)
        (instrumented_arms n (arms_of (map arm_view arms.items))) }
    ensures steps { selection_left result ≡ 2 + 2 * arms_tree_sizes (map arm_sizes arms.items) }
{
    arms.reverse();
    let done = Vec::new(alloc);
    Selection {
        point,
        base,
        value,
        done,
        left: arms,
    }
}

/// The first step into a tree.
fn open_parts(
    alloc: Global,
    globals: usize,
    places: &mut Vec<InstrumentFrame>,
    tree: Node,
) -> Result<Next, AllocError>
    ensures { IfOk result
        (λ next. InstrumentStepLeads globals places.old.items
        (instrumented globals (node_view tree))
        (tree_left tree) places.new.items next) }
{
    match tree.into_parts() {
        Parts::Empty => Ok(Next::Gives(Node::Empty)),
        Parts::Point(point) => {
            let entered = enter(alloc, point, Node::Point(point))?;
            Ok(Next::Gives(entered))
        }
        Parts::Probe(point, what) => Ok(Next::Gives(Node::Probe(point, what))),
        Parts::Act(point, op) => {
            let noted = record_write(alloc, globals, point, op)?;
            Ok(Next::Gives(noted))
        }
        Parts::Check(point, base, test) => Ok(Next::Gives(Node::Check(point, base, test))),
        Parts::Seq(trees, last) => open_row(alloc, places, trees, last),
        Parts::Choose(point, base, condition, yes, no) => {
            let place = InstrumentFrame::First(point, base, condition, no);
            open_in(places, place, Box::into_inner(yes))
        }
        Parts::Iterate(point, base, condition, body) => {
            let place = InstrumentFrame::Body(point, base, condition);
            open_in(places, place, Box::into_inner(body))
        }
        Parts::Catch(point, exit, body) => {
            open_in(
                places,
                InstrumentFrame::Catch(point, exit),
                Box::into_inner(body),
            )
        }
        Parts::Leave(live, exit) => Ok(Next::Gives(Node::Leave(live, exit))),
        Parts::Select(point, base, value, arms) => {
            let selection = select(alloc, point, base, value, arms);
            Ok(Next::Selects(selection))
        }
    }
}

/// The tree, which is instrumented, comes into this place.
fn fill(
    alloc: Global,
    places: &mut Vec<InstrumentFrame>,
    place: InstrumentFrame,
    tree: Node,
) -> Result<Next, AllocError>
    ensures { (n : ℕ) → IfOk result (λ next. InstrumentStepLeads n places.old.items
        (around n place (node_view tree)) (1 + place_left place) places.new.items next) }
{
    match place {
        InstrumentFrame::Row(mut row) => {
            row.done.push(tree)?;
            go_on_row(places, row)
        }
        InstrumentFrame::Last(done) => {
            let last = Box::new(alloc, tree)?;
            Ok(Next::Gives(Node::Seq(done, last)))
        }
        InstrumentFrame::First(point, base, condition, second) => {
            let place = InstrumentFrame::Second(point, base, condition, Box::new(alloc, tree)?);
            open_in(places, place, Box::into_inner(second))
        }
        InstrumentFrame::Second(point, base, condition, first) => {
            let second = Box::new(alloc, tree)?;
            Ok(Next::Gives(Node::Choose(point, base, condition, first, second)))
        }
        InstrumentFrame::Body(point, base, condition) => {
            let entered = enter_loop(alloc, point, base, condition, tree)?;
            Ok(Next::Gives(entered))
        }
        InstrumentFrame::Catch(point, exit) => {
            let body = Box::new(alloc, tree)?;
            Ok(Next::Gives(Node::Catch(point, exit, body)))
        }
        InstrumentFrame::Arm(mut selection) => {
            selection.done.push(Arm::Tree(tree))?;
            Ok(Next::Selects(selection))
        }
    }
}

/// One step.
fn take_step(
    alloc: Global,
    globals: usize,
    places: &mut Vec<InstrumentFrame>,
    next: Next,
) -> Result<Step, AllocError>
    ensures { IfOk result
        (λ s. InstrumentStepReaches globals places.old.items next places.new.items s) }
{
    match next {
        Next::Opens(tree) => {
            let first = open_parts(alloc, globals, places, tree)?;
            Ok(Step::Goes(first))
        }
        Next::Selects(selection) => {
            let arm = go_on_arms(places, selection)?;
            Ok(Step::Goes(arm))
        }
        Next::Gives(tree) => match places.pop() {
            Some(place) => {
                let behind = fill(alloc, places, place, tree)?;
                Ok(Step::Goes(behind))
            }
            None => Ok(Step::Ended(tree)),
        },
    }
}

// the whole tree ----------------------------------------------------------------------------------

/// The tree with what others do: they act before each point, before a loop and at its body's end; what the first so
/// many variables get is noted.
pub fn instrument_tree(alloc: Global, globals: usize, tree: Node) -> Result<Node, AllocError>
    ensures { IfOk result (λ g. node_view g ≡ instrumented globals (node_view tree)) }
{
    let mut places = Vec::new(alloc);
    let mut next = Next::Opens(tree);
    'steps: loop {
        match take_step(alloc, globals, &mut places, next)? {
            Step::Ended(whole) => return Ok(whole),
            Step::Goes(more) => next = more,
        }
    }
}

/// The program with its tree instrumented by `instrument_tree`; its points stay the same.
pub fn instrument_program(
    alloc: Global,
    globals: usize,
    graph: InlinedProgram,
) -> Result<InlinedProgram, AllocError>
    ensures tree { IfOk result
        (λ g. node_view g.tree ≡ instrumented globals (node_view graph.tree)) }
    ensures sites { IfOk result (λ g. g.sites ≡ graph.sites) }
{
    let mut graph = graph;
    let tree = mem::replace(&mut graph.tree, Node::Empty);
    graph.tree = instrument_tree(alloc, globals, tree)?;
    Ok(graph)
}
