//! Choices.

ghost use Rattle.std.specs.Prelude.{◌≡◌, ◌≤◌, ◌<◌, ◌+◌, ℕ, true, false, IfOk};
ghost use Rattle.lra_pass_stack.specs.Crates.lra_domain.declared.Exactness.{Exactness};
ghost use Rattle.lra_operations.specs.{Tree.choose, TreeViews.node_view};
ghost use Rattle.lra_pass_stack.specs.Crates.{lra_analysis_spec.LiveLimit.most_live, lra_analysis_spec.Plan.Plan};
ghost use Rattle.lra_pass_stack.specs.Crates.{lra_program.ProgramViews.cond_view, lra_transfer.Splits.SplitsBy};
ghost use Rattle.lra_pass_results.specs.Outcome.{outcome_view, AreBranchesJoined};
ghost use Rattle.lra_pass_results.specs.declared.loop_cache.LoopCache.{LoopCache};
ghost use Rattle.lra_pass_stack.specs.Stack.{PassTask, IsChoice, IsMade, PassStepLeads, MayBePassed};
ghost use Rattle.lra_pass_stack.specs.StepsLeft.{next_left, place_left, tree_steps};
ghost use Rattle.lra_pass_stack.specs.declared.stack.PassFrame.TheVariants.{Choice as choice_place};

use crate::stack::{BranchFrame, ChoiceFrame, Entering, Next, PassFrame};
use lra_pass_results::{
    Choice, ConditionSplit, Domain, Exactness, Interfere, Kept, PassOutcome, note, split,
};
use std::alloc::{AllocError, Global};

/// What a choice's condition leaves of the value: if it is true, and if it is false.
fn sides_of<D: Domain>(
    alloc: Global,
    choice: &Choice<'_>,
    value: D,
) -> Result<ConditionSplit<D>, AllocError>
    requires { D.abstraction.dims value ≤ most_live }
    ensures { IfOk result (λ s. SplitsBy D.abstraction choice.now.base true (cond_view choice.now.condition.now)
        (record { value = value; exactness = Exactness.Exact }) s) }
{
    let from = Kept {
        value,
        exactness: Exactness::Exact,
    };
    split(alloc, choice.base, choice.condition, from)
}

/// The branch where the condition is true is next.
pub fn open_choice<'a, D: Domain, F: Interfere<D>>(
    alloc: Global,
    choice: Choice<'a>,
    value: D,
    flag: Option<usize>,
) -> Result<Next<'a, D, D::Head>, AllocError>
    requires { D.abstraction.dims value ≤ most_live }
    ensures leads { (others : F) (set : Plan) (whole : PassTask D) → choice.entry.plan.now ≡ set →
        whole.tree ≡ choose choice.entry.point choice.entry.base (cond_view choice.entry.condition.now)
        (node_view choice.entry.yes.now) (node_view choice.entry.no.now) →
        whole.value ≡ value → whole.flag ≡ flag →
        MayBePassed (F.interference others) D.abstraction set whole →
        IfOk result (λ next. PassStepLeads (F.interference others) D.abstraction set whole next
        whole.memory) }
    ensures steps { (b : ℕ) (set : Plan) → IfOk result (λ next. next_left D.abstraction b set next
        ≡ 2 + (tree_steps D.abstraction b set choice.entry.no.now + tree_steps D.abstraction b set
        choice.entry.yes.now)) }
{
    let sides = sides_of(alloc, &choice, value)?;
    let on = sides.on;
    let off = sides.off;
    let branch = Entering {
        node: choice.yes,
        value: on.value,
        flag: note(choice.point, on.exactness, flag),
    };
    Ok(Next::Opens(PassFrame::Choice(ChoiceFrame { choice, off }), branch))
}

/// After the first branch, the one where the condition is false is next.
pub fn go_on_choice<'a, D: Domain, F: Interfere<D>>(
    alloc: Global,
    place: ChoiceFrame<'a, D>,
    first: PassOutcome<D>,
) -> Result<Next<'a, D, D::Head>, AllocError>
    ensures leads { (others : F) (set : Plan) (whole part : PassTask D) (memory : LoopCache D) →
        MayBePassed (F.interference others) D.abstraction set whole →
        IsChoice (F.interference others) D.abstraction set place.entry whole part →
        IsMade (F.interference others) D.abstraction set part (outcome_view first) memory →
        IfOk result (λ next. PassStepLeads (F.interference others) D.abstraction set whole next
        memory) }
    ensures falls { (b : ℕ) (set : Plan) → IfOk result (λ next. next_left D.abstraction b set next
        < place_left D.abstraction b set (choice_place place.entry)) }
{
    let ChoiceFrame { choice, off } = place;
    let branch = Entering {
        node: choice.no,
        value: off.value,
        flag: note(choice.point, off.exactness, first.flag),
    };
    let point = choice.point;
    let place = Box::new(alloc, BranchFrame { point, first })?;
    Ok(Next::Opens(PassFrame::Branch(place), branch))
}

/// Both branches of a choice, whose ends are joined at its point.
pub fn join_branches<D: Domain>(
    place: BranchFrame<D>,
    second: PassOutcome<D>,
) -> Result<PassOutcome<D>, AllocError>
    requires { D.abstraction.dims place.first.normal ≡ D.abstraction.dims second.normal }
    ensures joined { IfOk result
        (λ r. AreBranchesJoined D.abstraction place.point (outcome_view place.first) (outcome_view second)
        (outcome_view r)) }
    ensures dims { IfOk result
        (λ r. D.abstraction.dims r.normal ≡ D.abstraction.dims place.first.normal) }
{
    let BranchFrame {
        point,
        first: mut both,
    } = place;
    let mut more = second;
    let exactness = both.normal.join(&more.normal)?;
    both.flag = note(point, exactness, more.flag);
    both.found.append(&mut more.found)?;
    Ok(both)
}
