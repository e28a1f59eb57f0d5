//! `switch`es: the value of no match, then the arms in text order. A label's entry is made from the value at the
//! `switch`, and joins what runs there.

ghost use Rattle.std.specs.Prelude.{◌≡◌, ◌≤◌, ◌+◌, ◌∷◌, ℕ, true, map, List, IfOk, OnOk};
ghost use Rattle.lra_pass_stack.specs.Crates.lra_analysis_spec.Linearization.{LinearizedFits, linearized};
ghost use Rattle.lra_pass_stack.specs.Crates.lra_analysis_spec.MovesOf.{number_moves};
ghost use Rattle.lra_pass_stack.specs.Crates.lra_analysis_spec.Operations.{lossy_operations};
ghost use Rattle.lra_pass_stack.specs.Crates.lra_analysis_spec.Pass.{MatchesNone, Enters, RunsFrom};
ghost use Rattle.lra_pass_stack.specs.Crates.{lra_analysis_spec.LiveLimit.most_live, lra_analysis_spec.Plan.Plan};
ghost use Rattle.lra_pass_stack.specs.Crates.{lra_base.declared.case_labels.CaseLabel.CaseLabel};
ghost use Rattle.lra_pass_stack.specs.Crates.{lra_domain.declared.Exactness.Exactness, lra_program.Program.Expr};
ghost use Rattle.lra_pass_stack.specs.Crates.{lra_program.ProgramViews.expr_view, lra_transfer.Changes.Does};
ghost use Rattle.lra_operations.specs.Tree.{Arms, arm, select, entries_of};
ghost use Rattle.lra_operations.specs.TreeViews.{node_view, arm_view, arms_of};
ghost use Rattle.lra_pass_results.specs.Outcome.{outcome_view, running_on};
ghost use Rattle.lra_pass_results.specs.{Steps.arms_steps, declared.loop_cache.LoopCache.LoopCache};
ghost use Rattle.lra_pass_stack.specs.Stack.{PassTask, IsMade, IsSelect, IsSelecting, PassStepLeads, MayBePassed};
ghost use Rattle.lra_pass_stack.specs.Stack.{SelectsOn, ComesOutAt, EntersAt, JoinsAt, NoneSoFar, RunHas};
ghost use Rattle.lra_pass_stack.specs.StepsLeft.{most_rounds, next_left, tree_steps};

use crate::stack::{Entering, Next, PassFrame, SelectFrame, Selecting, passed};
use lra_operations::{Arm, CaseLabel, Node, any_default};
use lra_pass_results::{
    Domain, Exactness, Interfere, Kept, Linearized, PassOutcome, Running, Selection, filter_number,
    linearize, note, worse,
};
use std::alloc::{AllocError, Global};

// no match ------------------------------------------------------------------------------------------------------------

/// What is left of the value if the label doesn't name what is seen, after what led to it; all of it for `default`.
fn leave_label<D: Domain>(
    alloc: Global,
    seen: &Linearized,
    label: &CaseLabel,
    value: &mut D,
    before: Exactness,
) -> Result<Exactness, AllocError>
    requires few { D.abstraction.dims value.old ≤ most_live }
    requires width { LinearizedFits seen.now (D.abstraction.dims value.old) }
    ensures leaves { (base : ℕ) (e : Expr) (labels : List CaseLabel) (last : D) (all : Exactness) →
        seen.now ≡ linearized (D.abstraction.dims value.old) base e → IfOk result (λ x.
        NoneSoFar D.abstraction base e labels value.new x last all →
        NoneSoFar D.abstraction base e (label.now ∷ labels) value.old before last all) }
    ensures dims { OnOk result (D.abstraction.dims value.new ≡ D.abstraction.dims value.old) }
{
    match label {
        CaseLabel::Default => Ok(before),
        CaseLabel::Case(number) => {
            let exactness = filter_number(alloc, seen, number, false, value)?;
            Ok(worse(before, exactness))
        }
    }
}

/// What an arm leaves of the value for later labels: all of it if the arm is no label.
fn leave_arm<D: Domain>(
    alloc: Global,
    seen: &Linearized,
    arm: &Arm,
    value: &mut D,
    before: Exactness,
) -> Result<Exactness, AllocError>
    requires few { D.abstraction.dims value.old ≤ most_live }
    requires width { LinearizedFits seen.now (D.abstraction.dims value.old) }
    ensures leaves { (base : ℕ) (e : Expr) (behind : Arms) (last : D) (all : Exactness) →
        seen.now ≡ linearized (D.abstraction.dims value.old) base e → IfOk result (λ x.
        NoneSoFar D.abstraction base e (entries_of behind) value.new x last all →
        NoneSoFar D.abstraction base e (entries_of
        (arm_view arm.now behind)) value.old before last all) }
    ensures dims { OnOk result (D.abstraction.dims value.new ≡ D.abstraction.dims value.old) }
{
    match arm {
        Arm::Entry(label) => leave_label(alloc, seen, label, value, before),
        Arm::Tree(_) => Ok(before),
    }
}

/// What is left of the value if no label names what is seen: for one label after the other.
fn leave_all<D: Domain>(
    alloc: Global,
    seen: &Linearized,
    arms: &[Arm],
    value: &mut D,
) -> Result<Exactness, AllocError>
    requires few { D.abstraction.dims value.old ≤ most_live }
    requires width { LinearizedFits seen.now (D.abstraction.dims value.old) }
    ensures leaves { (base : ℕ) (e : Expr) →
        seen.now ≡ linearized (D.abstraction.dims value.old) base e →
        IfOk result (λ x. MatchesNone (lossy_operations D.abstraction) base e (entries_of (arms_of
        (map arm_view arms.now)))
        value.old x value.new) }
    ensures dims { OnOk result (D.abstraction.dims value.new ≡ D.abstraction.dims value.old) }
{
    let mut exactness = Exactness::Exact;
    let mut left = arms;
    'arms: while let Some((arm, behind)) = left.split_first() {
        exactness = leave_arm(alloc, seen, arm, value, exactness)?;
        left = behind;
    }
    Ok(exactness)
}

/// What is left of a copy of the value if no label names what is seen.
fn match_none<D: Domain>(
    alloc: Global,
    seen: &Linearized,
    arms: &[Arm],
    from: &D,
) -> Result<Kept<D>, AllocError>
    requires few { D.abstraction.dims from.now ≤ most_live }
    requires width { LinearizedFits seen.now (D.abstraction.dims from.now) }
    ensures leaves { (base : ℕ) (e : Expr) →
        seen.now ≡ linearized (D.abstraction.dims from.now) base e →
        IfOk result (λ k. MatchesNone (lossy_operations D.abstraction) base e (entries_of (arms_of
        (map arm_view arms.now)))
        from.now k.exactness k.value) }
    ensures dims { IfOk result (λ k. D.abstraction.dims k.value ≡ D.abstraction.dims from.now) }
{
    let mut value = from.copy(alloc)?;
    let exactness = leave_all(alloc, seen, arms, &mut value)?;
    Ok(Kept { value, exactness })
}

// arms ----------------------------------------------------------------------------------------------------------------

/// What is left of a copy of the value if what is seen has this number.
fn enter_case<D: Domain>(
    alloc: Global,
    seen: &Linearized,
    from: &D,
    number: &i64,
) -> Result<Kept<D>, AllocError>
    requires few { D.abstraction.dims from.now ≤ most_live }
    requires width { LinearizedFits seen.now (D.abstraction.dims from.now) }
    ensures leaves { IfOk result (λ k. Does D.abstraction
        (number_moves (D.abstraction.dims from.now) true seen.now number.now) from.now k.exactness
        k.value) }
    ensures dims { IfOk result (λ k. D.abstraction.dims k.value ≡ D.abstraction.dims from.now) }
{
    let mut value = from.copy(alloc)?;
    let exactness = filter_number(alloc, seen, number, true, &mut value)?;
    Ok(Kept { value, exactness })
}

/// A copy of the value of no match.
fn enter_default<D: Domain>(alloc: Global, other: &D) -> Result<Kept<D>, AllocError>
    ensures { IfOk result (λ k. k ≡ record { value = other.now; exactness = Exactness.Exact }) }
{
    let value = other.copy(alloc)?;
    let exactness = Exactness::Exact;
    Ok(Kept { value, exactness })
}

/// What comes in at the label: from the value at the `switch`, or the value of no match.
fn enter_at<D: Domain>(
    alloc: Global,
    selecting: &Selecting<'_, D>,
    label: &CaseLabel,
) -> Result<Kept<D>, AllocError>
    requires few { D.abstraction.dims selecting.now.from ≤ most_live }
    requires width { LinearizedFits selecting.now.seen (D.abstraction.dims selecting.now.from) }
    requires other { D.abstraction.dims selecting.now.other
        ≡ D.abstraction.dims selecting.now.from }
    ensures enters { (base : ℕ) (e : Expr) →
        selecting.now.seen ≡ linearized (D.abstraction.dims selecting.now.from) base e →
        IfOk result (λ k. Enters
        (lossy_operations D.abstraction) base e label.now selecting.now.from selecting.now.other
        k.exactness k.value) }
    ensures dims { IfOk result
        (λ k. D.abstraction.dims k.value ≡ D.abstraction.dims selecting.now.from) }
{
    match label {
        CaseLabel::Default => enter_default(alloc, &selecting.other),
        CaseLabel::Case(number) => enter_case(alloc, &selecting.seen, &selecting.from, number),
    }
}

/// What comes in at a label joins what runs there.
fn join_running<D: Domain>(
    point: usize,
    so_far: Running<D>,
    entered: Kept<D>,
) -> Result<Running<D>, AllocError>
    requires { RunHas D.abstraction (D.abstraction.dims entered.value) so_far.normal }
    ensures { IfOk result (λ r. JoinsAt D.abstraction point entered so_far r) }
{
    let Running {
        found,
        normal,
        flag: before,
    } = so_far;
    let flag = note(point, entered.exactness, before);
    match normal {
        None => {
            let normal = Some(entered.value);
            Ok(Running {
                found,
                normal,
                flag,
            })
        }
        Some(mut value) => {
            let joined = value.join(&entered.value)?;
            let last = note(point, joined, flag);
            let normal = Some(value);
            Ok(Running {
                found,
                normal,
                flag: last,
            })
        }
    }
}

/// The label is entered.
fn enter<D: Domain>(
    alloc: Global,
    selecting: &Selecting<'_, D>,
    label: &CaseLabel,
    so_far: Running<D>,
) -> Result<Running<D>, AllocError>
    requires few { D.abstraction.dims selecting.now.from ≤ most_live }
    requires width { LinearizedFits selecting.now.seen (D.abstraction.dims selecting.now.from) }
    requires other { D.abstraction.dims selecting.now.other
        ≡ D.abstraction.dims selecting.now.from }
    requires running { RunHas D.abstraction (D.abstraction.dims selecting.now.from) so_far.normal }
    ensures { (base : ℕ) (e : Expr) →
        selecting.now.seen ≡ linearized (D.abstraction.dims selecting.now.from) base e →
        IfOk result (λ r. EntersAt D.abstraction selecting.now.selection.point base e label.now
        selecting.now.from
        selecting.now.other so_far r) }
{
    let entered = enter_at(alloc, selecting, label)?;
    join_running(selecting.selection.point, so_far, entered)
}

/// What runs in the arms; if nothing does, a value that no store has.
fn value_of_run<D: Domain>(
    alloc: Global,
    selecting: &Selecting<'_, D>,
    normal: Option<D>,
) -> Result<D, AllocError>
    requires parts { 1 ≤ selecting.now.selection.plan.now.parts }
    requires few { D.abstraction.dims selecting.now.from ≤ most_live }
    ensures from { IfOk result (λ v. RunsFrom (lossy_operations D.abstraction)
        (D.abstraction.dims selecting.now.from)
        selecting.now.selection.plan.now.parts normal v) }
    ensures dims { RunHas D.abstraction (D.abstraction.dims selecting.now.from) normal →
        IfOk result (λ v. D.abstraction.dims v ≡ D.abstraction.dims selecting.now.from) }
{
    match normal {
        Some(value) => Ok(value),
        None => D::empty(
            alloc,
            selecting.from.dims(),
            selecting.selection.plan.parts(),
        ),
    }
}

/// The tree of an arm is next: the arms after it, and what was found before it, stay at its place.
fn open_arm<'a, D: Domain, F: Interfere<D>>(
    alloc: Global,
    selecting: Selecting<'a, D>,
    node: &'a Node,
    behind: &'a [Arm],
    so_far: Running<D>,
) -> Result<Next<'a, D, D::Head>, AllocError>
    requires parts { 1 ≤ selecting.selection.plan.now.parts }
    requires few { D.abstraction.dims selecting.from ≤ most_live }
    ensures leads { (others : F) (set : Plan) (whole : PassTask D) (memory : LoopCache D) →
        selecting.entry.selection.plan.now ≡ set →
        MayBePassed (F.interference others) D.abstraction set whole →
        IsSelecting (F.interference others) D.abstraction set selecting.entry whole →
        SelectsOn (F.interference others) D.abstraction set selecting.entry whole
        (arm (node_view node.now) (arms_of (map arm_view behind.now)))
        so_far.found so_far.normal so_far.flag memory →
        IfOk result (λ next. PassStepLeads (F.interference others) D.abstraction set whole next
        memory) }
    ensures steps { (b : ℕ) (set : Plan) → IfOk result (λ next. next_left D.abstraction b set next
        ≡ (1 + arms_steps (most_rounds b set) behind.now) + tree_steps D.abstraction b set
        node.now) }
{
    let Running {
        found,
        normal,
        flag,
    } = so_far;
    let value = value_of_run(alloc, &selecting, normal)?;
    let place = SelectFrame {
        selecting,
        behind,
        found,
    };
    let place = Box::new(alloc, place)?;
    Ok(Next::Opens(PassFrame::Select(place), Entering { node, value, flag }))
}

/// What runs after the last arm; if no label is `default`, what has no match joins it.
fn join_other<D: Domain>(
    point: usize,
    has_default: bool,
    other: &D,
    running: PassOutcome<D>,
) -> Result<PassOutcome<D>, AllocError>
    requires { D.abstraction.dims running.normal ≡ D.abstraction.dims other.now }
    ensures { IfOk result (λ r. ComesOutAt D.abstraction point has_default other.now
        (running_on running) r) }
{
    if has_default {
        return Ok(running);
    }
    let PassOutcome {
        found,
        mut normal,
        flag,
    } = running;
    let exactness = normal.join(other)?;
    Ok(PassOutcome {
        found,
        normal,
        flag: note(point, exactness, flag),
    })
}

/// What comes out after the last arm; if nothing runs there, what has no match.
fn come_out<D: Domain>(
    selecting: Selecting<'_, D>,
    so_far: Running<D>,
) -> Result<PassOutcome<D>, AllocError>
    requires { RunHas D.abstraction (D.abstraction.dims selecting.other) so_far.normal }
    ensures { IfOk result (λ r. ComesOutAt D.abstraction selecting.entry.selection.point
        selecting.entry.has_default
        selecting.entry.other so_far r) }
{
    let point = selecting.selection.point;
    let has_default = selecting.has_default;
    let other = selecting.other;
    let Running {
        found,
        normal: running,
        flag,
    } = so_far;
    match running {
        None => Ok(PassOutcome {
            found,
            normal: other,
            flag,
        }),
        Some(normal) => {
            let running = PassOutcome {
                found,
                normal,
                flag,
            };
            join_other(point, has_default, &other, running)
        }
    }
}

/// The labels that come next are entered, then the tree after them is next; if no arm is left, the whole is passed.
fn next_of_arms<'a, D: Domain, F: Interfere<D>>(
    alloc: Global,
    selecting: Selecting<'a, D>,
    arms: &'a [Arm],
    so_far: Running<D>,
) -> Result<Next<'a, D, D::Head>, AllocError>
    requires parts { 1 ≤ selecting.selection.plan.now.parts }
    requires way { (others : F) × (whole : PassTask D) × (memory : LoopCache D) ×
        MayBePassed (F.interference others) D.abstraction selecting.selection.plan.now whole ×
        IsSelecting (F.interference others) D.abstraction selecting.selection.plan.now selecting
        whole ×
        SelectsOn (F.interference others) D.abstraction selecting.selection.plan.now selecting whole
        (arms_of (map arm_view arms.now)) so_far.found so_far.normal so_far.flag memory }
    ensures leads { (others : F) (set : Plan) (whole : PassTask D) (memory : LoopCache D) →
        selecting.entry.selection.plan.now ≡ set →
        MayBePassed (F.interference others) D.abstraction set whole →
        IsSelecting (F.interference others) D.abstraction set selecting.entry whole →
        SelectsOn (F.interference others) D.abstraction set selecting.entry whole
        (arms_of (map arm_view arms.now)) so_far.found so_far.normal so_far.flag memory →
        IfOk result (λ next. PassStepLeads (F.interference others) D.abstraction set whole next
        memory) }
    ensures falls { (b : ℕ) (set : Plan) → IfOk result (λ next. next_left D.abstraction b set next
        ≤ arms_steps (most_rounds b set) arms.now) }
{
    let mut running = so_far;
    let mut left = arms;
    'arms: while let Some((arm, behind)) = left.split_first() {
        match arm {
            Arm::Entry(label) => running = enter(alloc, &selecting, label, running)?,
            Arm::Tree(node) => {
                return open_arm::<D, F>(alloc, selecting, node, behind, running);
            }
        }
        left = behind;
    }
    passed::<D, F>(come_out(selecting, running))
}

/// What a `switch` begins with: what is seen of the value, and what no label matches. Nothing runs in its arms yet.
fn begin_selection<'a, D: Domain, F: Interfere<D>>(
    alloc: Global,
    selection: Selection<'a>,
    value: D,
    flag: Option<usize>,
) -> Result<(Selecting<'a, D>, Running<D>), AllocError>
    requires { D.abstraction.dims value ≤ most_live }
    ensures { (others : F) (set : Plan) (whole : PassTask D) → selection.entry.plan.now ≡ set →
        whole.tree ≡ select selection.entry.point selection.entry.base
        (expr_view selection.entry.value.now)
        (arms_of (map arm_view selection.entry.arms.now)) → whole.value ≡ value →
        whole.flag ≡ flag → MayBePassed (F.interference others) D.abstraction set whole →
        IfOk result (λ r. IsSelecting (F.interference others) D.abstraction set r.0 whole ×
        SelectsOn (F.interference others) D.abstraction set r.0 whole
        (arms_of (map arm_view selection.entry.arms.now))
        r.1.found r.1.normal r.1.flag whole.memory) }
{
    let seen = linearize(alloc, value.dims(), selection.base, selection.value)?;
    let none = match_none(alloc, &seen, selection.arms, &value)?;
    let flagged = note(selection.point, none.exactness, flag);
    let selecting = Selecting {
        selection,
        seen,
        has_default: any_default(selection.arms),
        from: value,
        other: none.value,
    };
    Ok((selecting, Running::nothing(alloc, flagged)))
}

/// The first tree in the `switch` is next: first comes the value of no match, then the labels before that tree.
pub fn open_selection<'a, D: Domain, F: Interfere<D>>(
    alloc: Global,
    selection: Selection<'a>,
    value: D,
    flag: Option<usize>,
) -> Result<Next<'a, D, D::Head>, AllocError>
    requires parts { 1 ≤ selection.plan.now.parts }
    requires way { (others : F) × (whole : PassTask D) ×
        MayBePassed (F.interference others) D.abstraction selection.plan.now whole ×
        (whole.tree ≡ select selection.point selection.base (expr_view selection.value.now)
        (arms_of (map arm_view selection.arms.now))) × (whole.value ≡ value) × (whole.flag ≡ flag) }
    ensures leads { (others : F) (set : Plan) (whole : PassTask D) →
        selection.entry.plan.now ≡ set →
        whole.tree ≡ select selection.entry.point selection.entry.base
        (expr_view selection.entry.value.now)
        (arms_of (map arm_view selection.entry.arms.now)) → whole.value ≡ value →
        whole.flag ≡ flag →
        MayBePassed (F.interference others) D.abstraction set whole →
        IfOk result (λ next. PassStepLeads (F.interference others) D.abstraction set whole next
        whole.memory) }
    ensures falls { (b : ℕ) (set : Plan) → IfOk result (λ next. next_left D.abstraction b set next
        ≤ arms_steps (most_rounds b set) selection.entry.arms.now) }
{
    let (selecting, so_far) = begin_selection::<D, F>(alloc, selection, value, flag)?;
    next_of_arms::<D, F>(alloc, selecting, selection.arms, so_far)
}

/// What the tree of an arm gave comes after what was found before it, and runs on in the later arms.
pub fn go_on_selection<'a, D: Domain, F: Interfere<D>>(
    alloc: Global,
    place: SelectFrame<'a, D>,
    outcome: PassOutcome<D>,
) -> Result<Next<'a, D, D::Head>, AllocError>
    requires { (others : F) × (set : Plan) × (whole : PassTask D) × (part : PassTask D) ×
        (memory : LoopCache D) × (1 ≤ set.parts)
        × MayBePassed (F.interference others) D.abstraction set whole ×
        IsSelect (F.interference others) D.abstraction set place whole part ×
        IsMade (F.interference others) D.abstraction set part (outcome_view outcome) memory }
    ensures leads { (others : F) (set : Plan) (whole part : PassTask D) (memory : LoopCache D) →
        MayBePassed (F.interference others) D.abstraction set whole →
        IsSelect (F.interference others) D.abstraction set place.entry whole part →
        IsMade (F.interference others) D.abstraction set part (outcome_view outcome) memory →
        IfOk result (λ next. PassStepLeads (F.interference others) D.abstraction set whole next
        memory) }
    ensures falls { (b : ℕ) (set : Plan) → IfOk result (λ next. next_left D.abstraction b set next
        ≤ arms_steps (most_rounds b set) place.entry.behind.now) }
{
    let SelectFrame {
        selecting,
        behind,
        found,
    } = place;
    let so_far = found.follow_with(outcome)?;
    next_of_arms::<D, F>(alloc, selecting, behind, Running::after(so_far))
}
