//! The pass over a tree of operations.

ghost use Rattle.std.specs.Prelude.{◌≡◌, ◌≤◌, ◌<◌, ◌^◌, Ok, Err, IfOk, MatchResult};
ghost use Rattle.lra_fixpoint.specs.Crates.{lra_analysis_spec.LiveLimit.most_live, lra_analysis_spec.Plan.Plan};
ghost use Rattle.lra_operations.specs.TreeViews.{node_view};
ghost use Rattle.lra_pass_results.specs.Outcome.{outcome_view, IsPassed};
ghost use Rattle.lra_pass_results.specs.{Dimensions.TreeFits, LoopCache.Remembers, LoopCache.StaysKept};
ghost use Rattle.lra_pass_stack.specs.Stack.{PassTask, pass_task, PassIsUnderWay, IsMade, IsPassFrame, PassStepLeads};
ghost use Rattle.lra_pass_stack.specs.Stack.{MayBePassed, PassStepReaches};
ghost use Rattle.lra_pass_stack.specs.StepsLeft.{all_left, next_left, place_left, tree_steps, TakesFewer};
ghost use Rattle.lra_pass_stack.specs.declared.stack.Step.TheVariants.{Goes};

use crate::catches::catch_jumps;
use crate::loops::{go_on_growing, go_on_narrowing, open_loop};
use crate::probes::pass_probe;
use lra_interference_sound::{Domain, Interfere};
use lra_pass_results::{LoopCache, PassOutcome, Plan, TreeForm, pass_leaf};
use lra_pass_stack::{
    Entering, Next, PassFrame, PassStack, Step, go_on_choice, go_on_row, go_on_selection,
    join_branches, open_choice, open_row, open_selection, passed,
};
use std::alloc::{AllocError, Global};

/// The first step into a tree: a tree with none in it is passed, and of any other a place opens.
fn open_tree<'a, D: Domain, F: Interfere<D>>(
    alloc: Global,
    plan: &'a Plan,
    others: &F,
    memory: &mut LoopCache<D>,
    tree: Entering<'a, D>,
) -> Result<Next<'a, D, D::Head>, AllocError>
    requires parts { 1 ≤ plan.now.parts }
    requires may { MayBePassed (F.interference others.now) D.abstraction plan.now
        (pass_task tree memory.old) }
    ensures leads { IfOk result
        (λ next. PassStepLeads (F.interference others.now) D.abstraction plan.entry.now
        (pass_task tree.entry memory.old) next memory.new) }
    ensures falls { IfOk result (λ next. next_left D.abstraction (2 ^ 64) plan.entry.now next
        < tree_steps D.abstraction (2 ^ 64) plan.entry.now tree.entry.node.now) }
{
    let Entering { node, value, flag } = tree;
    match TreeForm::of(plan, node) {
        TreeForm::Leaf(leaf) => passed::<D, F>(pass_leaf(alloc, plan, &leaf, value, flag)),
        TreeForm::Probe(point, what) => {
            passed::<D, F>(pass_probe(alloc, others, point, what, value, flag))
        }
        TreeForm::Row(row) => open_row::<D, F>(alloc, row, value, flag),
        TreeForm::Choice(choice) => open_choice::<D, F>(alloc, choice, value, flag),
        TreeForm::Loop(the_loop) => open_loop::<D, F>(alloc, memory, the_loop, value, flag),
        TreeForm::Select(selection) => open_selection::<D, F>(alloc, selection, value, flag),
        TreeForm::Catch(catch) => {
            let node = catch.body;
            let place = PassFrame::Catch(catch.point, catch.exit);
            Ok(Next::Opens(place, Entering { node, value, flag }))
        }
    }
}

/// The next step at a place, after what the tree under way there gave.
fn go_on<'a, D: Domain, F: Interfere<D>>(
    alloc: Global,
    memory: &mut LoopCache<D>,
    place: PassFrame<'a, D, D::Head>,
    outcome: PassOutcome<D>,
) -> Result<Next<'a, D, D::Head>, AllocError>
    requires { (others : F) × (set : Plan) × (whole : PassTask D) × (part : PassTask D) ×
        MayBePassed (F.interference others) D.abstraction set whole
        × IsPassFrame (F.interference others) D.abstraction set
        place whole part × IsMade (F.interference others) D.abstraction set part
        (outcome_view outcome) memory.old ×
        (1 ≤ set.parts) }
    ensures leads { (others : F) (set : Plan) (whole part : PassTask D) →
        MayBePassed (F.interference others) D.abstraction set whole →
        IsPassFrame (F.interference others) D.abstraction set
        place.entry whole part →
        IsMade (F.interference others) D.abstraction set part (outcome_view outcome)
        memory.old → IfOk result
        (λ next. PassStepLeads (F.interference others) D.abstraction set whole next
        memory.new) }
    ensures falls { (others : F) (set : Plan) (whole part : PassTask D) →
        IsPassFrame (F.interference others) D.abstraction set place.entry whole part →
        IfOk result (λ next. next_left D.abstraction (2 ^ 64) set next < place_left D.abstraction
        (2 ^ 64)
        set place.entry) }
{
    match place {
        PassFrame::Row(row) => go_on_row::<D, F>(alloc, row, outcome),
        PassFrame::Last(found) => passed::<D, F>(found.follow_with(outcome)),
        PassFrame::Choice(choice) => go_on_choice::<D, F>(alloc, choice, outcome),
        PassFrame::Branch(branch) => passed::<D, F>(join_branches(
            Box::into_inner(branch),
            outcome,
        )),
        PassFrame::Growing(growing) => {
            go_on_growing::<D, F>(alloc, memory, Box::into_inner(growing), outcome)
        }
        PassFrame::Narrowing(narrowing) => {
            go_on_narrowing::<D, F>(alloc, memory, Box::into_inner(narrowing), outcome)
        }
        PassFrame::Catch(point, exit) => passed::<D, F>(catch_jumps(alloc, point, exit, outcome)),
        PassFrame::Select(place) => go_on_selection::<D, F>(alloc, Box::into_inner(place), outcome),
    }
}

/// The pass goes on with what comes next.
fn goes<'a, D: Domain>(
    given: Result<Next<'a, D, D::Head>, AllocError>,
) -> Result<Step<'a, D, D::Head>, AllocError>
    ensures { MatchResult given.entry (λ next. result ≡ Ok (Goes next)) (λ e. result ≡ Err e) }
{
    match given {
        Ok(next) => Ok(Step::Goes(next)),
        Err(e) => Err(e),
    }
}

/// One step: it goes on at the innermost place, or opens one. If none is open, the whole tree is passed.
fn take_step<'a, D: Domain, F: Interfere<D>>(
    alloc: Global,
    plan: &'a Plan,
    others: &F,
    memory: &mut LoopCache<D>,
    places: &mut PassStack<'a, D, D::Head>,
    next: Next<'a, D, D::Head>,
) -> Result<Step<'a, D, D::Head>, AllocError>
    requires parts { 1 ≤ plan.now.parts }
    requires way { (whole : PassTask D)
        × PassIsUnderWay (F.interference others.now) D.abstraction plan.now
        places.old.open.items whole next memory.old }
    ensures leads { (whole : PassTask D) →
        PassIsUnderWay (F.interference others.now) D.abstraction plan.entry.now
        places.old.open.items whole next.entry memory.old →
        IfOk result (λ s. PassStepReaches (F.interference others.now) D.abstraction plan.entry.now
        places.new.open.items whole s memory.new) }
    ensures falls { (whole : PassTask D) →
        PassIsUnderWay (F.interference others.now) D.abstraction plan.entry.now
        places.old.open.items whole next.entry memory.old →
        IfOk result (λ s. TakesFewer D.abstraction (2 ^ 64) plan.entry.now places.new.open.items s
        (all_left D.abstraction (2 ^ 64) plan.entry.now places.old.open.items next.entry)) }
{
    match next {
        Next::Passed(outcome) => match places.pop() {
            Some(place) => goes(go_on::<D, F>(alloc, memory, place, outcome)),
            None => Ok(Step::Ended(outcome)),
        },
        Next::Again(place, outcome) => {
            goes(go_on::<D, F>(alloc, memory, Box::into_inner(place), outcome))
        }
        Next::Opens(place, tree) => {
            places.push(place)?;
            goes(open_tree(alloc, plan, others, memory, tree))
        }
    }
}

/// The pass over the tree, along a list of open places.
pub fn pass<'a, D: Domain, F: Interfere<D>>(
    alloc: Global,
    plan: &'a Plan,
    others: &F,
    memory: &mut LoopCache<D>,
    tree: Entering<'a, D>,
) -> Result<PassOutcome<D>, AllocError>
    requires parts { 1 ≤ plan.now.parts }
    requires few { D.abstraction.dims tree.value ≤ most_live }
    requires fits { TreeFits (node_view tree.node.now) (D.abstraction.dims tree.value) }
    requires remembers { Remembers (F.interference others.now) D.abstraction plan.now
        (node_view tree.node.now) tree.flag memory.old }
    ensures passed { IfOk result (λ r. IsPassed (F.interference others.now) D.abstraction plan.now
        (node_view tree.entry.node.now) tree.entry.flag tree.entry.value (outcome_view r)) }
    ensures stays { IfOk result (λ r. StaysKept (F.interference others.now) D.abstraction plan.now
        (node_view tree.entry.node.now) tree.entry.flag memory.old r.flag memory.new) }
{
    let mut places = PassStack::none(alloc);
    let mut next = open_tree(alloc, plan, others, memory, tree)?;
    'steps: loop {
        match take_step(alloc, plan, others, memory, &mut places, next)? {
            Step::Ended(outcome) => return Ok(outcome),
            Step::Goes(more) => next = more,
        }
    }
}
