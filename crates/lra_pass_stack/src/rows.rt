//! Trees one after the other.

ghost use Rattle.std.specs.Prelude.{◌≡◌, ◌<◌, ◌≤◌, ◌∷◌, [], ℕ, List, map, IfOk};
ghost use Rattle.lra_pass_stack.specs.Crates.{lra_analysis_spec.LiveLimit.most_live, lra_analysis_spec.Plan.Plan};
ghost use Rattle.lra_operations.specs.{TreeViews.node_view, TreeViews.row, declared.tree.Node.Node};
ghost use Rattle.lra_pass_results.specs.Outcome.{outcome_view};
ghost use Rattle.lra_pass_results.specs.{Dimensions.TreeFits, Steps.row_steps, declared.loop_cache.LoopCache.LoopCache};
ghost use Rattle.lra_pass_stack.specs.Stack.{PassTask, IsMade, IsRow, PassStepLeads, MayBePassed, RowLoop};
ghost use Rattle.lra_pass_stack.specs.StepsLeft.{most_rounds, next_left, place_left};
ghost use Rattle.lra_pass_stack.specs.declared.stack.PassFrame.TheVariants.{Row as row_place};

use crate::stack::{Entering, Next, PassFrame, RowFrame};
use lra_operations::Node;
use lra_pass_results::{Domain, Flat, Interfere, PassOutcome, Plan, Row};
use std::alloc::{AllocError, Global};

/// The first of the trees after which these stand is next: what was found before it stays at its place.
fn open_first<'a, D: Domain, F: Interfere<D>>(
    behind: Row<'a>,
    node: &'a Node,
    so_far: PassOutcome<D>,
) -> Next<'a, D, D::Head>
    ensures leads { (others : F) (set : Plan) (whole : PassTask D) (memory : LoopCache D)
        (gs : List Node) →
        behind.entry.plan.now ≡ set → gs ≡ node.now ∷ behind.entry.trees.now →
        MayBePassed (F.interference others) D.abstraction set whole →
        RowLoop (F.interference others) D.abstraction set whole.tree whole.flag whole.value
        (row (map node_view gs) (node_view behind.entry.last.now)) so_far.found
        so_far.normal so_far.flag whole.memory memory →
        PassStepLeads (F.interference others) D.abstraction set whole result memory }
    ensures steps { (b : ℕ) (set : Plan) (gs : List Node) → gs ≡ node.now ∷ behind.entry.trees.now →
        next_left D.abstraction b set result
        ≡ row_steps (most_rounds b set) gs behind.entry.last.now }
{
    let PassOutcome {
        found,
        normal: value,
        flag,
    } = so_far;
    let place = PassFrame::Row(RowFrame { behind, found });
    Next::Opens(place, Entering { node, value, flag })
}

/// The last of the trees is passed, or next.
fn next_of_last<'a, D: Domain, F: Interfere<D>>(
    alloc: Global,
    plan: &'a Plan,
    node: &'a Node,
    mut so_far: PassOutcome<D>,
) -> Result<Next<'a, D, D::Head>, AllocError>
    requires parts { 1 ≤ plan.now.parts }
    requires few { D.abstraction.dims so_far.normal ≤ most_live }
    requires fits { TreeFits (node_view node.now) (D.abstraction.dims so_far.normal) }
    ensures leads { (others : F) (set : Plan) (whole : PassTask D) (memory : LoopCache D) →
        plan.now ≡ set → MayBePassed (F.interference others) D.abstraction set whole →
        RowLoop (F.interference others) D.abstraction set whole.tree whole.flag whole.value
        (node_view node.now) so_far.found so_far.normal so_far.flag whole.memory memory →
        IfOk result (λ next. PassStepLeads (F.interference others) D.abstraction set whole next
        memory) }
    ensures falls { (b : ℕ) (set : Plan) → IfOk result (λ next. next_left D.abstraction b set next
        ≤ row_steps (most_rounds b set) [] node.now) }
{
    if let Some(flat) = Flat::of(plan, node) {
        flat.pass_on(alloc, plan, &mut so_far)?;
        return Ok(Next::Passed(so_far));
    }
    let PassOutcome {
        found,
        normal: value,
        flag,
    } = so_far;
    Ok(Next::Opens(PassFrame::Last(found), Entering { node, value, flag }))
}

/// Flat trees are passed, up to the first that isn't flat: that one is next.
fn next_of_row<'a, D: Domain, F: Interfere<D>>(
    alloc: Global,
    the_row: Row<'a>,
    mut so_far: PassOutcome<D>,
) -> Result<Next<'a, D, D::Head>, AllocError>
    requires parts { 1 ≤ the_row.plan.now.parts }
    requires way { (others : F) × (whole : PassTask D) × (memory : LoopCache D) ×
        MayBePassed (F.interference others) D.abstraction the_row.plan.now whole ×
        RowLoop (F.interference others) D.abstraction the_row.plan.now whole.tree whole.flag
        whole.value
        (row (map node_view the_row.trees.now) (node_view the_row.last.now)) so_far.found
        so_far.normal so_far.flag whole.memory memory }
    ensures leads { (others : F) (set : Plan) (whole : PassTask D) (memory : LoopCache D) →
        the_row.entry.plan.now ≡ set → MayBePassed (F.interference others) D.abstraction set whole →
        RowLoop (F.interference others) D.abstraction set whole.tree whole.flag whole.value
        (row (map node_view the_row.entry.trees.now) (node_view the_row.entry.last.now)) so_far.found
        so_far.normal so_far.flag whole.memory memory →
        IfOk result (λ next. PassStepLeads (F.interference others) D.abstraction set whole next
        memory) }
    ensures falls { (b : ℕ) (set : Plan) → IfOk result (λ next. next_left D.abstraction b set next
        ≤ row_steps (most_rounds b set) the_row.entry.trees.now the_row.entry.last.now) }
{
    let Row { plan, trees, last } = the_row;
    let mut left = trees;
    'leaves: while let Some((node, behind)) = left.split_first() {
        let Some(flat) = Flat::of(plan, node) else {
            let trees = behind;
            return Ok(open_first::<D, F>(Row { plan, trees, last }, node, so_far));
        };
        flat.pass_on(alloc, plan, &mut so_far)?;
        left = behind;
    }
    next_of_last::<D, F>(alloc, plan, last, so_far)
}

/// The first of the trees that isn't flat is next, after those before it.
pub fn open_row<'a, D: Domain, F: Interfere<D>>(
    alloc: Global,
    the_row: Row<'a>,
    value: D,
    flag: Option<usize>,
) -> Result<Next<'a, D, D::Head>, AllocError>
    requires parts { 1 ≤ the_row.plan.now.parts }
    requires way { (others : F) × (whole : PassTask D) ×
        MayBePassed (F.interference others) D.abstraction the_row.plan.now whole ×
        (whole.tree ≡ row (map node_view the_row.trees.now) (node_view the_row.last.now)) ×
        (whole.value ≡ value) × (whole.flag ≡ flag) }
    ensures leads { (others : F) (set : Plan) (whole : PassTask D) → the_row.entry.plan.now ≡ set →
        whole.tree ≡ row (map node_view the_row.entry.trees.now) (node_view the_row.entry.last.now) →
        whole.value ≡ value → whole.flag ≡ flag →
        MayBePassed (F.interference others) D.abstraction set whole →
        IfOk result (λ next. PassStepLeads (F.interference others) D.abstraction set whole next
        whole.memory) }
    ensures falls { (b : ℕ) (set : Plan) → IfOk result (λ next. next_left D.abstraction b set next
        ≤ row_steps (most_rounds b set) the_row.entry.trees.now the_row.entry.last.now) }
{
    next_of_row::<D, F>(alloc, the_row, PassOutcome::nothing_yet(alloc, value, flag))
}

/// What the tree under way found comes after what was found before it, and the next one begins with its end.
pub fn go_on_row<'a, D: Domain, F: Interfere<D>>(
    alloc: Global,
    place: RowFrame<'a, D>,
    outcome: PassOutcome<D>,
) -> Result<Next<'a, D, D::Head>, AllocError>
    requires { (others : F) × (set : Plan) × (whole : PassTask D) × (part : PassTask D) ×
        (memory : LoopCache D) × (1 ≤ set.parts)
        × MayBePassed (F.interference others) D.abstraction set whole ×
        IsRow (F.interference others) D.abstraction set place whole part ×
        IsMade (F.interference others) D.abstraction set part (outcome_view outcome) memory }
    ensures leads { (others : F) (set : Plan) (whole part : PassTask D) (memory : LoopCache D) →
        MayBePassed (F.interference others) D.abstraction set whole →
        IsRow (F.interference others) D.abstraction set place.entry whole part →
        IsMade (F.interference others) D.abstraction set part (outcome_view outcome) memory →
        IfOk result (λ next. PassStepLeads (F.interference others) D.abstraction set whole next
        memory) }
    ensures falls { (b : ℕ) (set : Plan) → IfOk result (λ next. next_left D.abstraction b set next
        < place_left D.abstraction b set (row_place place.entry)) }
{
    let RowFrame { behind, found } = place;
    let so_far = found.follow_with(outcome)?;
    next_of_row::<D, F>(alloc, behind, so_far)
}
