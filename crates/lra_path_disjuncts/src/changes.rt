//! The moves of the program's least changes in a table, those of segments, and those of the globals' first values.

ghost use Rattle.std.specs.Prelude.{◌≡◌, ◌<◌, ◌^◌, ◌-◌, ◌+◌, pos, suc, length, map, replicate, slice_set, Some, IfOk};
ghost use Rattle.std.specs.Prelude.{OnOk};
ghost use Rattle.lra_path_disjuncts.specs.Crates.lra_analysis_spec.Linear.{constant_form};
ghost use Rattle.lra_path_disjuncts.specs.Crates.lra_analysis_spec.Linearization.{LinearizedFits, linearized};
ghost use Rattle.lra_path_disjuncts.specs.Crates.lra_analysis_spec.Live.{live_after_op};
ghost use Rattle.lra_path_disjuncts.specs.Crates.lra_analysis_spec.MovesOf.{append_set, drop_last, first_values, guard};
ghost use Rattle.lra_path_disjuncts.specs.Crates.lra_analysis_spec.MovesOf.{moves_of, push_all, set_target, set_to};
ghost use Rattle.lra_path_disjuncts.specs.Crates.lra_analysis_spec.MovesOf.{above_least, below_greatest, within_type};
ghost use Rattle.lra_path_disjuncts.specs.Crates.lra_analysis_spec.declared.linearization.Linearized.TheVariants.{Linear};
ghost use Rattle.lra_path_disjuncts.specs.Crates.lra_analysis_spec.declared.linearization.Linearized.TheVariants.{Unseen};
ghost use Rattle.lra_path_disjuncts.specs.Crates.lra_base.declared.number_types.NumberType.TheVariants.{Int};
ghost use Rattle.lra_path_disjuncts.specs.Crates.lra_domain.Actions.{embed, test};
ghost use Rattle.lra_path_disjuncts.specs.Crates.lra_domain.Moves.{first_then, make};
ghost use Rattle.lra_path_disjuncts.specs.Crates.lra_linear_spec.declared.ConKind.TheVariants.{Ge};
ghost use Rattle.lra_path_disjuncts.specs.Crates.lra_operations.TreeViews.{op_view};
ghost use Rattle.lra_path_disjuncts.specs.Tables.{Grows, Has, IsTable, moves_at};
ghost use Rattle.lra_path_disjuncts.specs.{SegmentMoves.segment_moves, StepMoves.dims_after_step, StepMoves.step_moves};
ghost use Rattle.lra_path_segments.specs.TreeSegmentViews.{move_view};
ghost use Rattle.lra_program.specs.ProgramViews.{argument_view, cond_view, expr_view};

use crate::conditions::{ConditionContext, push_cases};
use crate::guards::push_guards;
use crate::selections::push_selection;
use crate::tables::{MovesEntry, push_first_then, push_make, push_stay};
use lra_linearize::{
    Change, ConKind, Linearized, NumberType, Test, constant_of, form_of_one, linearize,
};
use lra_operations::Op;
use lra_path_segments::Move;
use lra_program::{Argument, Cell, Cond, Expr, GlobalVariable, Target};
use std::alloc::{AllocError, Global};

// values ------------------------------------------------------------------------------------------

/// The variable at the place gets the value that is seen, or any.
fn push_set(
    frame: ConditionContext,
    place: usize,
    seen: &Linearized,
    entries: &mut Vec<MovesEntry>,
) -> Result<usize, AllocError>
    requires table { IsTable entries.old.items }
    requires few { frame.live < 2 ^ 62 - 2 }
    requires width { LinearizedFits seen.now frame.live }
    ensures table { OnOk result (IsTable entries.new.items) }
    ensures grows { OnOk result (Grows entries.old.items entries.new.items) }
    ensures has { IfOk result (λ i. Has entries.new.items i (set_to frame.live place seen.now)) }
{
    match seen {
        Linearized::Unseen => push_make(entries, Change::Forget(place)),
        Linearized::Linear(form) => {
            let copy = form.copy(frame.alloc)?;
            push_make(entries, Change::Assign(place, copy))
        }
        Linearized::Divided(division, form) => {
            let copy = form.copy(frame.alloc)?;
            let change = Change::Assign(place, copy);
            push_cases(frame.alloc, entries, frame.live, division, change)
        }
    }
}

/// `c*x + k >= 0` of the variable at the place.
fn push_bound(
    frame: ConditionContext,
    place: usize,
    coefficient: i64,
    constant: i64,
    entries: &mut Vec<MovesEntry>,
) -> Result<usize, AllocError>
    requires table { IsTable entries.old.items }
    requires few { frame.live < 2 ^ 62 - 2 }
    ensures table { OnOk result (IsTable entries.new.items) }
    ensures grows { OnOk result (Grows entries.old.items entries.new.items) }
    ensures has { IfOk result (λ i. Has entries.new.items i (make (test Ge (record {
      constant = constant;
      coefficients = slice_set (replicate frame.live (pos 0)) place coefficient;
    })))) }
{
    let expr = form_of_one(frame.alloc, frame.live, place, coefficient, constant)?;
    push_make(
        entries,
        Change::Test(Test {
            expr,
            kind: ConKind::Ge,
        }),
    )
}

/// The variable at the place lies within 32 bits: `x + 2^31 >= 0`, then `2^31 - 1 - x >= 0`.
fn push_bounds(
    frame: ConditionContext,
    place: usize,
    entries: &mut Vec<MovesEntry>,
) -> Result<usize, AllocError>
    requires table { IsTable entries.old.items }
    requires few { frame.live < 2 ^ 62 - 2 }
    ensures table { OnOk result (IsTable entries.new.items) }
    ensures grows { OnOk result (Grows entries.old.items entries.new.items) }
    ensures has { IfOk result (λ i. Has entries.new.items i (first_then
        (make (test Ge (above_least Int frame.live place)))
        (make (test Ge (below_greatest Int frame.live place))))) }
{
    let low = push_bound(frame, place, 1, 2_147_483_648, entries)?;
    let high = push_bound(frame, place, -1, 2_147_483_647, entries)?;
    push_first_then(entries, low, high)
}

/// The moves at the place `before`, and then, of an `int`, that the variable lies within 32 bits.
fn push_within(
    frame: ConditionContext,
    place: usize,
    number_type: NumberType,
    before: usize,
    entries: &mut Vec<MovesEntry>,
) -> Result<usize, AllocError>
    requires table { IsTable entries.old.items }
    requires few { frame.live < 2 ^ 62 - 2 }
    requires before { before < length entries.old.items }
    ensures table { OnOk result (IsTable entries.new.items) }
    ensures grows { OnOk result (Grows entries.old.items entries.new.items) }
    ensures has { IfOk result (λ i. Has entries.new.items i (within_type number_type
        frame.live place (moves_at entries.old.items before))) }
{
    match number_type {
        NumberType::Long => Ok(before),
        NumberType::Int => {
            let bounds = push_bounds(frame, place, entries)?;
            push_first_then(entries, before, bounds)
        }
    }
}

/// The target, if it is a variable, gets the value that is seen, or any, of its type.
fn push_target(
    frame: ConditionContext,
    target: Target,
    seen: &Linearized,
    entries: &mut Vec<MovesEntry>,
) -> Result<usize, AllocError>
    requires table { IsTable entries.old.items }
    requires few { frame.live < 2 ^ 62 - 2 }
    requires width { LinearizedFits seen.now frame.live }
    ensures table { OnOk result (IsTable entries.new.items) }
    ensures grows { OnOk result (Grows entries.old.items entries.new.items) }
    ensures has { IfOk result (λ i. Has entries.new.items i
        (set_target frame.live (Some target) seen.now)) }
{
    match target.cell {
        Cell::Waiting(_) => push_stay(entries),
        Cell::Variable(place) => {
            let set = push_set(frame, place, seen, entries)?;
            push_within(frame, place, target.number_type, set, entries)
        }
    }
}

// new variables -----------------------------------------------------------------------------------

/// A variable more, which comes last and gets the value that is seen: so many live with it.
fn push_appended(
    frame: ConditionContext,
    place: usize,
    seen: &Linearized,
    entries: &mut Vec<MovesEntry>,
) -> Result<usize, AllocError>
    requires table { IsTable entries.old.items }
    requires few { frame.live < 2 ^ 62 - 2 }
    requires last { frame.live ≡ suc place }
    requires width { LinearizedFits seen.now frame.live }
    ensures table { OnOk result (IsTable entries.new.items) }
    ensures grows { OnOk result (Grows entries.old.items entries.new.items) }
    ensures has { IfOk result (λ i. Has entries.new.items i (append_set place seen.now)) }
{
    let made = push_make(entries, Change::Embed(1))?;
    let set = push_set(frame, place, seen, entries)?;
    push_first_then(entries, made, set)
}

/// A variable more, which comes last and gets the value that is seen, of its type.
fn push_new(
    frame: ConditionContext,
    place: usize,
    number_type: NumberType,
    seen: &Linearized,
    entries: &mut Vec<MovesEntry>,
) -> Result<usize, AllocError>
    requires table { IsTable entries.old.items }
    requires few { frame.live < 2 ^ 62 - 2 }
    requires last { frame.live ≡ suc place }
    requires width { LinearizedFits seen.now frame.live }
    ensures table { OnOk result (IsTable entries.new.items) }
    ensures grows { OnOk result (Grows entries.old.items entries.new.items) }
    ensures has { IfOk result (λ i. Has entries.new.items i (within_type number_type
        (suc place) place (append_set place seen.now))) }
{
    let appended = push_appended(frame, place, seen, entries)?;
    push_within(frame, place, number_type, appended, entries)
}

/// The number of live variables after a new one. An error if forms over so many don't fit in memory.
fn one_more(live: usize) -> Result<usize, AllocError>
    ensures is { IfOk result (λ n. n ≡ suc live) }
    ensures few { OnOk result (live < 2 ^ 62 - 3) }
{
    if live < (1 << 62) - 3 {
        Ok(live + 1)
    } else {
        Err(AllocError)
    }
}

/// A new variable of its parameter's type, with the argument's value.
fn push_argument(
    frame: ConditionContext,
    argument: &Argument,
    entries: &mut Vec<MovesEntry>,
) -> Result<usize, AllocError>
    requires { IsTable entries.old.items }
    ensures table { OnOk result (IsTable entries.new.items) }
    ensures grows { OnOk result (Grows entries.old.items entries.new.items) }
    ensures has { IfOk result (λ i. Has entries.new.items i (within_type argument.now.number_type
        (suc frame.live) frame.live (append_set frame.live
        (linearized (suc frame.live) frame.base (expr_view argument.now.value))))) }
{
    let live = one_more(frame.live)?;
    let ConditionContext {
        alloc,
        live: place,
        base,
    } = frame;
    let seen = linearize(alloc, live, base, &argument.value)?;
    let number_type = argument.number_type;
    push_new(
        ConditionContext { alloc, live, base },
        place,
        number_type,
        &seen,
        entries,
    )
}

/// The arguments, each a new variable with its value.
fn push_arguments(
    frame: ConditionContext,
    arguments: &[Argument],
    entries: &mut Vec<MovesEntry>,
) -> Result<usize, AllocError>
    requires { IsTable entries.old.items }
    ensures table { OnOk result (IsTable entries.new.items) }
    ensures grows { OnOk result (Grows entries.old.items entries.new.items) }
    ensures has { IfOk result (λ i. Has entries.new.items i
        (push_all frame.live frame.base (map argument_view arguments.now))) }
{
    let Some((first, later)) = arguments.split_first() else {
        return push_stay(entries);
    };
    let one = push_argument(frame, first, entries)?;
    let next = ConditionContext {
        alloc: frame.alloc,
        live: one_more(frame.live)?,
        base: frame.base,
    };
    let others = push_arguments(next, later, entries)?;
    push_first_then(entries, one, others)
}

/// A new variable, with the global's first value.
fn push_global(
    alloc: Global,
    place: usize,
    global: &GlobalVariable,
    entries: &mut Vec<MovesEntry>,
) -> Result<usize, AllocError>
    requires { IsTable entries.old.items }
    ensures table { OnOk result (IsTable entries.new.items) }
    ensures grows { OnOk result (Grows entries.old.items entries.new.items) }
    ensures has { IfOk result (λ i. Has entries.new.items i (within_type global.now.number_type
        (suc place) place (append_set place
        (Linear (constant_form (suc place) global.now.value))))) }
{
    let live = one_more(place)?;
    let form = constant_of(alloc, live, &global.value)?;
    let number_type = global.number_type;
    let frame = ConditionContext {
        alloc,
        live,
        base: 0,
    };
    push_new(
        frame,
        place,
        number_type,
        &Linearized::Linear(form),
        entries,
    )
}

/// The global variables after so many, each with its first value.
fn push_globals_from(
    alloc: Global,
    live: usize,
    globals: &[GlobalVariable],
    entries: &mut Vec<MovesEntry>,
) -> Result<usize, AllocError>
    requires { IsTable entries.old.items }
    ensures table { OnOk result (IsTable entries.new.items) }
    ensures grows { OnOk result (Grows entries.old.items entries.new.items) }
    ensures has { IfOk result (λ i. Has entries.new.items i (first_values live globals.now)) }
{
    let Some((first, later)) = globals.split_first() else {
        return push_stay(entries);
    };
    let one = push_global(alloc, live, first, entries)?;
    let next = one_more(live)?;
    let others = push_globals_from(alloc, next, later, entries)?;
    push_first_then(entries, one, others)
}

/// The globals at their first values, one after the other.
pub fn push_globals(
    alloc: Global,
    globals: &[GlobalVariable],
    entries: &mut Vec<MovesEntry>,
) -> Result<usize, AllocError>
    requires { IsTable entries.old.items }
    ensures table { OnOk result (IsTable entries.new.items) }
    ensures grows { OnOk result (Grows entries.old.items entries.new.items) }
    ensures has { IfOk result (λ i. Has entries.new.items i (first_values 0 globals.now)) }
{
    push_globals_from(alloc, 0, globals, entries)
}

// least changes -----------------------------------------------------------------------------------

/// If forms over so many variables have no room, nothing can be made.
fn ensure_room(live: usize) -> Result<(), AllocError>
    ensures { OnOk result (live < 2 ^ 62 - 3) }
{
    one_more(live)?;
    Ok(())
}

/// A new variable of this type, with any value.
fn push_any(
    frame: ConditionContext,
    number_type: NumberType,
    entries: &mut Vec<MovesEntry>,
) -> Result<usize, AllocError>
    requires { IsTable entries.old.items }
    ensures table { OnOk result (IsTable entries.new.items) }
    ensures grows { OnOk result (Grows entries.old.items entries.new.items) }
    ensures has { IfOk result (λ i. Has entries.new.items i
        (within_type number_type (suc frame.live) frame.live (make (embed 1)))) }
{
    let live = one_more(frame.live)?;
    let ConditionContext {
        alloc,
        live: place,
        base,
    } = frame;
    let made = push_make(entries, Change::Embed(1))?;
    push_within(
        ConditionContext { alloc, live, base },
        place,
        number_type,
        made,
        entries,
    )
}

/// The target, if there is one, gets the expression's value, which is one of its type.
fn push_give(
    frame: ConditionContext,
    target: Option<Target>,
    e: &Expr,
    entries: &mut Vec<MovesEntry>,
) -> Result<usize, AllocError>
    requires { IsTable entries.old.items }
    ensures table { OnOk result (IsTable entries.new.items) }
    ensures grows { OnOk result (Grows entries.old.items entries.new.items) }
    ensures has { IfOk result (λ i. Has entries.new.items i (set_target frame.live target
        (linearized frame.live frame.base (expr_view e.now)))) }
{
    ensure_room(frame.live)?;
    match target {
        None => push_stay(entries),
        Some(target) => {
            let seen = linearize(frame.alloc, frame.live, frame.base, e)?;
            push_target(frame, target, &seen, entries)
        }
    }
}

/// The target, if there is one, gets any value of its type.
fn push_give_any(
    frame: ConditionContext,
    target: Option<Target>,
    entries: &mut Vec<MovesEntry>,
) -> Result<usize, AllocError>
    requires { IsTable entries.old.items }
    ensures table { OnOk result (IsTable entries.new.items) }
    ensures grows { OnOk result (Grows entries.old.items entries.new.items) }
    ensures has { IfOk result (λ i. Has entries.new.items i (set_target frame.live target Unseen)) }
{
    ensure_room(frame.live)?;
    match target {
        None => push_stay(entries),
        Some(target) => push_target(frame, target, &Linearized::Unseen, entries),
    }
}

/// Only the oldest `n` variables stay.
fn push_keep(live: usize, n: usize, entries: &mut Vec<MovesEntry>) -> Result<usize, AllocError>
    requires { IsTable entries.old.items }
    ensures table { OnOk result (IsTable entries.new.items) }
    ensures grows { OnOk result (Grows entries.old.items entries.new.items) }
    ensures has { IfOk result (λ i. Has entries.new.items i (drop_last (live - n))) }
{
    if live <= n {
        push_stay(entries)
    } else {
        push_make(entries, Change::RemoveLast(live - n))
    }
}

/// The condition if it is as wanted.
fn push_guard(
    frame: ConditionContext,
    condition: &Cond,
    wanted: bool,
    entries: &mut Vec<MovesEntry>,
) -> Result<usize, AllocError>
    requires { IsTable entries.old.items }
    ensures table { OnOk result (IsTable entries.new.items) }
    ensures grows { OnOk result (Grows entries.old.items entries.new.items) }
    ensures has { IfOk result (λ i. Has entries.new.items i
        (guard frame.live frame.base wanted (cond_view condition.now))) }
{
    ensure_room(frame.live)?;
    let both = push_guards(frame, condition, entries)?;
    Ok(if wanted { both.so } else { both.not })
}

/// The moves of a least change of the program.
fn push_op(
    alloc: Global,
    live: usize,
    op: &Op,
    entries: &mut Vec<MovesEntry>,
) -> Result<usize, AllocError>
    requires { IsTable entries.old.items }
    ensures table { OnOk result (IsTable entries.new.items) }
    ensures grows { OnOk result (Grows entries.old.items entries.new.items) }
    ensures has { IfOk result (λ i. Has entries.new.items i (moves_of live (op_view op.now))) }
{
    let frame = |base| ConditionContext { alloc, live, base };
    match op {
        Op::Append(number_type) => push_any(frame(0), *number_type, entries),
        Op::Fill(_) => push_stay(entries),
        Op::StoreValue(base, receiver, e) => push_give(frame(*base), receiver.target, e, entries),
        Op::StoreElement(_, _, _) => push_stay(entries),
        Op::Havoc(receiver) => push_give_any(frame(0), receiver.target, entries),
        Op::Push(base, arguments) => push_arguments(frame(*base), arguments.as_slice(), entries),
        Op::PushFor(base, _, arguments) => {
            push_arguments(frame(*base), arguments.as_slice(), entries)
        }
        Op::TruncateTo(n) => push_keep(live, *n, entries),
        Op::Test(base, condition, wanted) => push_guard(frame(*base), condition, *wanted, entries),
    }
}

// segments ----------------------------------------------------------------------------------------

/// The moves of what is done on a segment.
fn push_move(
    alloc: Global,
    live: usize,
    step: Move,
    entries: &mut Vec<MovesEntry>,
) -> Result<usize, AllocError>
    requires { IsTable entries.old.items }
    ensures table { OnOk result (IsTable entries.new.items) }
    ensures grows { OnOk result (Grows entries.old.items entries.new.items) }
    ensures has { IfOk result (λ i. Has entries.new.items i
        (step_moves live (move_view step.entry))) }
{
    match step {
        Move::Change(op) => push_op(alloc, live, op, entries),
        Move::Test(base, condition, wanted) => {
            push_guard(
                ConditionContext { alloc, live, base },
                condition,
                wanted,
                entries,
            )
        }
        Move::Select(selection, label) => {
            ensure_room(live)?;
            push_selection(alloc, live, selection, &label, entries)
        }
    }
}

fn sum_of(live: usize, more: usize) -> Result<usize, AllocError>
    ensures { IfOk result (λ n. n ≡ live + more) }
{
    match live.checked_add(more) {
        None => Err(AllocError),
        Some(sum) => Ok(sum),
    }
}

/// How many variables live after the least change.
fn live_behind_op(live: usize, op: &Op) -> Result<usize, AllocError>
    ensures { IfOk result (λ n. n ≡ live_after_op (op_view op.now) live) }
{
    match op {
        Op::Append(_) => sum_of(live, 1),
        Op::Push(_, arguments) => sum_of(live, arguments.len()),
        Op::PushFor(_, _, arguments) => sum_of(live, arguments.len()),
        Op::TruncateTo(n) => Ok(live - live.saturating_sub(*n)),
        Op::Fill(_) | Op::StoreValue(_, _, _) | Op::StoreElement(_, _, _) => Ok(live),
        Op::Havoc(_) | Op::Test(_, _, _) => Ok(live),
    }
}

/// How many variables live after what is done.
fn live_behind_move(live: usize, step: Move) -> Result<usize, AllocError>
    ensures { IfOk result (λ n. n ≡ dims_after_step (move_view step.entry) live) }
{
    match step {
        Move::Change(op) => live_behind_op(live, op),
        Move::Test(_, _, _) | Move::Select(_, _) => Ok(live),
    }
}

/// The moves of a segment, one after the other, over so many variables.
pub fn push_segment(
    alloc: Global,
    live: usize,
    moves: &[Move],
    entries: &mut Vec<MovesEntry>,
) -> Result<usize, AllocError>
    requires { IsTable entries.old.items }
    ensures table { OnOk result (IsTable entries.new.items) }
    ensures grows { OnOk result (Grows entries.old.items entries.new.items) }
    ensures has { IfOk result (λ i. Has entries.new.items i
        (segment_moves live (map move_view moves.now))) }
{
    let mut place = push_stay(entries)?;
    let mut alive = live;
    'moves: for step in moves {
        let next = push_move(alloc, alive, *step, entries)?;
        place = push_first_then(entries, place, next)?;
        alive = live_behind_move(alive, *step)?;
    }
    Ok(place)
}
