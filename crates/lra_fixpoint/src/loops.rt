//! Loops: a head that grows, is narrowed, and is left if the condition is false.

ghost use Rattle.std.specs.Prelude.{◌≡◌, ◌≤◌, ◌<◌, ◌^◌, ◌+◌, ◌*◌, ℕ, suc, Option, true, false, IfOk};
ghost use Rattle.lra_fixpoint.specs.Crates.lra_domain.declared.Exactness.{Exactness};
ghost use Rattle.lra_operations.specs.Tree as graph;
ghost use Rattle.lra_fixpoint.specs.Crates.lra_analysis_spec.Operations.{lossy_operations};
ghost use Rattle.lra_fixpoint.specs.Crates.{lra_analysis_spec.LiveLimit.most_live, lra_analysis_spec.Pass.noted};
ghost use Rattle.lra_fixpoint.specs.Crates.{lra_analysis_spec.Plan.Plan, lra_program.ProgramViews.cond_view};
ghost use Rattle.lra_operations.specs.TreeViews.{node_view};
ghost use Rattle.lra_pass_results.specs.LoopCache.{MayRecall};
ghost use Rattle.lra_pass_results.specs.Outcome.{ended, headed, outcome_view, AreKept, IsEntered, IsKept, LeavesWith};
ghost use Rattle.lra_pass_stack.specs.Stack.{PassTask, IsMade, PassStepLeads, MayBePassed, IsGrowing, IsHead};
ghost use Rattle.lra_pass_stack.specs.Stack.{IsLoopDue, IsNarrowed, IsNarrowing, IsWaiting};
ghost use Rattle.lra_pass_stack.specs.StepsLeft.{next_left, most_rounds, rounds_left, tree_steps, turns_left};

use lra_interference_sound::{Domain, Interfere};
use lra_pass_results::{
    Entered, Exactness, Growing, HeadRound, Loop, LoopCache, LoopRound, PassEntry, PassFindings,
    PassOutcome, enter_with, filter_condition, grow_by, note, start,
};
use lra_pass_stack::{Entering, GrowingFrame, Narrowing, NarrowingFrame, Next};
use std::alloc::{AllocError, Global};

/// The first value joined with what a round left, and the first flagged point so far.
fn join_round<D: Domain>(
    alloc: Global,
    point: usize,
    first: &D,
    last: &PassOutcome<D>,
) -> Result<(D, Option<usize>), AllocError>
    requires { D.abstraction.dims last.now.normal ≡ D.abstraction.dims first.now }
    ensures { IfOk result
        (λ r. (e : Exactness) × (lossy_operations D.abstraction).joined first.now last.now.normal e r.0 ×
        (r.1 ≡ noted point e last.now.flag)) }
{
    let mut next = first.copy(alloc)?;
    let exactness = next.join(&last.normal)?;
    Ok((next, note(point, exactness, last.flag)))
}

/// The value at a loop's point comes before what its last round found.
fn head_first<D: Domain>(
    alloc: Global,
    point: usize,
    value: &D,
    found: PassFindings<D>,
) -> Result<PassFindings<D>, AllocError>
    ensures { IfOk result (λ r. (v : D) (f : Option ℕ) → ended r v f ≡ headed point value.now (ended found v f)) }
{
    let mut all = found;
    let at_head = value.copy(alloc)?;
    all.entries.insert(0, PassEntry::Value(point, at_head))?;
    Ok(all)
}

/// The value at the head and what its round found, and after it what that value leaves if the condition is false.
fn leave_loop<D: Domain>(
    alloc: Global,
    the_loop: &Loop<'_>,
    top: D,
    last: PassOutcome<D>,
) -> Result<PassOutcome<D>, AllocError>
    requires { D.abstraction.dims top ≤ most_live }
    ensures left { IfOk result (λ r. LeavesWith D.abstraction the_loop.now.point the_loop.now.base
        (cond_view the_loop.now.condition.now) top (outcome_view last) (outcome_view r)) }
    ensures dims { IfOk result (λ r. D.abstraction.dims r.normal ≡ D.abstraction.dims top) }
{
    let found = head_first(alloc, the_loop.point, &top, last.found)?;
    let mut out = top;
    let exactness = filter_condition(
        alloc,
        the_loop.base,
        the_loop.condition,
        false,
        &mut out,
        Exactness::Exact,
    )?;
    Ok(PassOutcome {
        found,
        normal: out,
        flag: note(the_loop.point, exactness, last.flag),
    })
}

/// The loop is left with the value at its head and its last round, and may be kept.
fn finish<D: Domain, F: Interfere<D>>(
    alloc: Global,
    memory: &mut LoopCache<D>,
    the_loop: &Loop<'_>,
    first: D,
    last: HeadRound<D>,
) -> Result<PassOutcome<D>, AllocError>
    requires { D.abstraction.dims last.value ≤ most_live }
    ensures left { IfOk result (λ r. LeavesWith D.abstraction the_loop.now.point the_loop.now.base
        (cond_view the_loop.now.condition.now) last.value (outcome_view last.turn.outcome)
        (outcome_view r)) }
    ensures dims { IfOk result (λ r. D.abstraction.dims r.normal ≡ D.abstraction.dims last.value) }
    ensures keeps { (others : F) (plan : Plan) (loops : ℕ → graph.Node) → IfOk result (λ r.
        MayRecall (F.interference others) D.abstraction plan loops last.turn.outcome.flag
        memory.old →
        IsKept (F.interference others) D.abstraction plan (loops the_loop.now.point) r.flag first
        (outcome_view r) →
        MayRecall (F.interference others) D.abstraction plan loops r.flag memory.new) }
{
    let HeadRound { value, turn } = last;
    let outcome = leave_loop(alloc, the_loop, value, turn.into_outcome())?;
    memory.end::<F>(alloc, the_loop.point, first, &outcome)?;
    Ok(outcome)
}

/// What comes into a loop's body from the value at its head: what the condition leaves, or the kept round, if that
/// entered it last.
fn enter<D: Domain, F: Interfere<D>>(
    alloc: Global,
    the_loop: &Loop<'_>,
    value: &D,
    flag: Option<usize>,
    kept: Option<LoopRound<D>>,
) -> Result<Entered<D>, AllocError>
    requires { D.abstraction.dims value.now ≤ most_live }
    ensures { (others : F) → AreKept (F.interference others) D.abstraction the_loop.now.plan.now
        (node_view the_loop.now.body.now) flag kept →
        IfOk result (IsEntered (F.interference others) D.abstraction the_loop.now.plan.now
        the_loop.now.point
        the_loop.now.base (cond_view the_loop.now.condition.now) (node_view the_loop.now.body.now)
        flag value.now) }
{
    let mut on = value.copy(alloc)?;
    let exactness = filter_condition(
        alloc,
        the_loop.base,
        the_loop.condition,
        true,
        &mut on,
        Exactness::Exact,
    )?;
    let inside = note(the_loop.point, exactness, flag);
    enter_with::<D, F>(alloc, kept, on, inside)
}

/// Once round a loop whose head grows, from its value.
fn turn_growing<'a, D: Domain, F: Interfere<D>>(
    alloc: Global,
    the_loop: Loop<'a>,
    first: D,
    growing: Growing<D, D::Head>,
    kept: Option<LoopRound<D>>,
) -> Result<Next<'a, D, D::Head>, AllocError>
    requires { (others : F) × (set : Plan) × (whole : PassTask D) × (memory : LoopCache D) ×
        MayBePassed (F.interference others) D.abstraction set whole
        × IsHead (F.interference others) D.abstraction set
        the_loop whole first growing kept memory }
    ensures leads { (others : F) (set : Plan) (whole : PassTask D) (memory : LoopCache D) →
        MayBePassed (F.interference others) D.abstraction set whole →
        IsHead (F.interference others) D.abstraction set
        the_loop.entry whole first growing kept memory →
        IfOk result (λ next. PassStepLeads (F.interference others) D.abstraction set whole next
        memory) }
    ensures steps { (b : ℕ) (set : Plan) → IfOk result (λ next. next_left D.abstraction b set next
        < turns_left D.abstraction b set the_loop.entry
        (suc (set.narrow + rounds_left b growing.left (D.abstraction.rank growing.head)))) }
{
    match enter::<D, F>(alloc, &the_loop, &growing.value, growing.flag, kept)? {
        Entered::Again(turn) => {
            let (entered, outcome) = turn.into_parts();
            let place = GrowingFrame {
                the_loop,
                first,
                growing,
                entered,
            };
            place.again(alloc, outcome)
        }
        Entered::Anew(entered, value, flag) => {
            let place = GrowingFrame {
                the_loop,
                first,
                growing,
                entered,
            };
            let body = Entering {
                node: the_loop.body,
                value,
                flag,
            };
            place.opens(alloc, body)
        }
    }
}

/// A loop's head starts, unless what the loop gave for this value is kept.
pub fn open_loop<'a, D: Domain, F: Interfere<D>>(
    alloc: Global,
    memory: &mut LoopCache<D>,
    the_loop: Loop<'a>,
    value: D,
    flag: Option<usize>,
) -> Result<Next<'a, D, D::Head>, AllocError>
    requires { (others : F) × (set : Plan) × (whole : PassTask D)
        × IsLoopDue (F.interference others) D.abstraction
        set the_loop whole value flag memory.old }
    ensures leads { (others : F) (set : Plan) (whole : PassTask D) →
        IsLoopDue (F.interference others) D.abstraction set the_loop.entry whole value flag
        memory.old →
        IfOk result (λ next. PassStepLeads (F.interference others) D.abstraction set whole next
        memory.new) }
    ensures steps { (set : Plan) → the_loop.entry.plan.now ≡ set → IfOk result (λ next.
        next_left D.abstraction (2 ^ 64) set next
        < 2 + most_rounds (2 ^ 64) set * suc (tree_steps D.abstraction (2 ^ 64) set the_loop.entry.body.now)) }
{
    if let Some(given) = memory.begin::<F>(alloc, the_loop.point, &value, flag)? {
        return Ok(Next::Passed(given));
    }
    let growing = start(alloc, &the_loop, &value, flag)?;
    turn_growing::<D, F>(alloc, the_loop, value, growing, None)
}

/// Once round a loop that is narrowed, from the value at its head.
fn turn_narrowing<'a, D: Domain, F: Interfere<D>>(
    alloc: Global,
    narrowing: Narrowing<'a, D>,
    flag: Option<usize>,
    kept: LoopRound<D>,
) -> Result<Next<'a, D, D::Head>, AllocError>
    requires { (others : F) × (set : Plan) × (whole : PassTask D) × (memory : LoopCache D) ×
        MayBePassed (F.interference others) D.abstraction set whole ×
        IsWaiting (F.interference others) D.abstraction set narrowing whole flag memory }
    ensures leads { (others : F) (set : Plan) (whole : PassTask D) (memory : LoopCache D) →
        MayBePassed (F.interference others) D.abstraction set whole →
        IsWaiting (F.interference others) D.abstraction set narrowing.entry whole flag memory →
        IsKept (F.interference others) D.abstraction set
        (node_view narrowing.entry.the_loop.body.now) flag
        kept.entered (outcome_view kept.outcome) →
        IfOk result (λ next. PassStepLeads (F.interference others) D.abstraction set whole next
        memory) }
    ensures steps { (b : ℕ) (set : Plan) → IfOk result (λ next. next_left D.abstraction b set next
        < turns_left D.abstraction b set narrowing.entry.the_loop (suc narrowing.entry.left)) }
{
    match enter::<D, F>(alloc, &narrowing.the_loop, &narrowing.top, flag, Some(kept))? {
        Entered::Again(turn) => {
            let (entered, outcome) = turn.into_parts();
            let place = NarrowingFrame { narrowing, entered };
            place.again(alloc, outcome)
        }
        Entered::Anew(entered, value, flag) => {
            let node = narrowing.the_loop.body;
            let place = NarrowingFrame { narrowing, entered };
            place.opens(alloc, Entering { node, value, flag })
        }
    }
}

/// The loop is left with its last round if no round of narrowing is left. Else the value at its head becomes the
/// join of the first one with what that round left, and is passed again.
fn narrow_on<'a, D: Domain, F: Interfere<D>>(
    alloc: Global,
    memory: &mut LoopCache<D>,
    the_loop: Loop<'a>,
    first: D,
    last: HeadRound<D>,
    left: u32,
) -> Result<Next<'a, D, D::Head>, AllocError>
    requires { (others : F) × (set : Plan) × (whole : PassTask D) ×
        MayBePassed (F.interference others) D.abstraction set whole
        × IsNarrowed (F.interference others) D.abstraction
        set the_loop whole first last left memory.old }
    ensures leads { (others : F) (set : Plan) (whole : PassTask D) →
        MayBePassed (F.interference others) D.abstraction set whole →
        IsNarrowed (F.interference others) D.abstraction
        set the_loop.entry whole first last left memory.old →
        IfOk result (λ next. PassStepLeads (F.interference others) D.abstraction set whole next
        memory.new) }
    ensures steps { (b : ℕ) (set : Plan) → IfOk result (λ next. next_left D.abstraction b set next
        < turns_left D.abstraction b set the_loop.entry left) }
{
    if left == 0 {
        let outcome = finish::<D, F>(alloc, memory, &the_loop, first, last)?;
        return Ok(Next::Passed(outcome));
    }
    let HeadRound { value: _, turn } = last;
    let (top, flag) = join_round(alloc, the_loop.point, &first, &turn.outcome)?;
    let narrowing = Narrowing {
        the_loop,
        first,
        top,
        left: left - 1,
    };
    turn_narrowing::<D, F>(alloc, narrowing, flag, turn)
}

/// After a round of a loop whose head grows: it is narrowed if it is stable, and else turned again.
pub fn go_on_growing<'a, D: Domain, F: Interfere<D>>(
    alloc: Global,
    memory: &mut LoopCache<D>,
    place: GrowingFrame<'a, D, D::Head>,
    outcome: PassOutcome<D>,
) -> Result<Next<'a, D, D::Head>, AllocError>
    requires { (others : F) × (set : Plan) × (whole : PassTask D) × (part : PassTask D) ×
        MayBePassed (F.interference others) D.abstraction set whole
        × IsGrowing (F.interference others) D.abstraction
        set place whole part ×
        IsMade (F.interference others) D.abstraction set part (outcome_view outcome)
        memory.old }
    ensures leads { (others : F) (set : Plan) (whole part : PassTask D) →
        MayBePassed (F.interference others) D.abstraction set whole →
        IsGrowing (F.interference others) D.abstraction
        set place.entry whole part →
        IsMade (F.interference others) D.abstraction set part (outcome_view outcome)
        memory.old → IfOk result
        (λ next. PassStepLeads (F.interference others) D.abstraction set whole next
        memory.new) }
    ensures falls { (set : Plan) → place.entry.the_loop.plan.now ≡ set → IfOk result (λ next.
        next_left D.abstraction (2 ^ 64) set next < turns_left D.abstraction (2 ^ 64) set place.entry.the_loop
        (set.narrow + rounds_left (2 ^ 64) place.entry.growing.left (D.abstraction.rank place.entry.growing.head))) }
{
    let GrowingFrame {
        the_loop,
        first,
        mut growing,
        entered,
    } = place;
    let turn = LoopRound { entered, outcome };
    let stable = grow_by(alloc, &the_loop, &mut growing, &turn.outcome)?;
    if stable {
        let left = the_loop.plan.narrow();
        let value = growing.into_value();
        let last = HeadRound { value, turn };
        return narrow_on::<D, F>(alloc, memory, the_loop, first, last, left);
    }
    turn_growing::<D, F>(alloc, the_loop, first, growing, Some(turn))
}

/// After a round of a loop that is narrowed.
pub fn go_on_narrowing<'a, D: Domain, F: Interfere<D>>(
    alloc: Global,
    memory: &mut LoopCache<D>,
    place: NarrowingFrame<'a, D>,
    outcome: PassOutcome<D>,
) -> Result<Next<'a, D, D::Head>, AllocError>
    requires { (others : F) × (set : Plan) × (whole : PassTask D) × (part : PassTask D) ×
        MayBePassed (F.interference others) D.abstraction set whole
        × IsNarrowing (F.interference others) D.abstraction
        set place whole part ×
        IsMade (F.interference others) D.abstraction set part (outcome_view outcome)
        memory.old }
    ensures leads { (others : F) (set : Plan) (whole part : PassTask D) →
        MayBePassed (F.interference others) D.abstraction set whole →
        IsNarrowing (F.interference others) D.abstraction
        set place.entry whole part →
        IsMade (F.interference others) D.abstraction set part (outcome_view outcome)
        memory.old → IfOk result
        (λ next. PassStepLeads (F.interference others) D.abstraction set whole next
        memory.new) }
    ensures falls { (set : Plan) → place.entry.narrowing.the_loop.plan.now ≡ set → IfOk result (λ next.
        next_left D.abstraction (2 ^ 64) set next
        < turns_left D.abstraction (2 ^ 64) set place.entry.narrowing.the_loop place.entry.narrowing.left) }
{
    let NarrowingFrame { narrowing, entered } = place;
    let Narrowing {
        the_loop,
        first,
        top: value,
        left,
    } = narrowing;
    let turn = LoopRound { entered, outcome };
    let last = HeadRound { value, turn };
    narrow_on::<D, F>(alloc, memory, the_loop, first, last, left)
}
