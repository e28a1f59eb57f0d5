//! The moves of a condition in a table: if it is true and if it is false, each of its comparisons taken once.

ghost use Rattle.std.specs.Prelude.{◌≡◌, ◌<◌, ◌^◌, ◌-◌, length, map, true, false, IfOk, OnOk};
ghost use Rattle.lra_path_disjuncts.specs.Crates.lra_analysis_spec.Linear.{comparison_test};
ghost use Rattle.lra_path_disjuncts.specs.Crates.lra_base.OperatorViews.{comparison_view};
ghost use Rattle.lra_path_disjuncts.specs.Crates.lra_domain.Changes.{action_of, actions_of};
ghost use Rattle.lra_path_disjuncts.specs.Crates.lra_domain.Moves.{make, first_then, join_of};
ghost use Rattle.lra_path_disjuncts.specs.Crates.{lra_base.Operators.differs, lra_domain.Actions.remove_last};
ghost use Rattle.lra_path_disjuncts.specs.Crates.lra_analysis_spec.MovesOf as moves;
ghost use Rattle.lra_path_disjuncts.specs.Crates.lra_analysis_spec.Linearization.{Divides, LinearizedFits};
ghost use Rattle.lra_path_disjuncts.specs.Crates.lra_analysis_spec.Linearization.{linearized_difference};
ghost use Rattle.lra_path_disjuncts.specs.Crates.lra_analysis_spec.MovesOf.{comparison_moves, in_cases, in_turn};
ghost use Rattle.lra_path_disjuncts.specs.Crates.lra_analysis_spec.MovesOf.{linearized_moves, test_moves};
ghost use Rattle.lra_path_disjuncts.specs.Conditions.{AreIn, HasBoth};
ghost use Rattle.lra_path_disjuncts.specs.Tables.{Grows, Has, IsTable, moves_at};
ghost use Rattle.lra_program.specs.Program.{compare, nonzero};
ghost use Rattle.lra_program.specs.ProgramViews.{all_of, any_of, cond_view, expr_view};

use crate::tables::{MovesEntry, push_first_then, push_join, push_make, push_stay};
use lra_linearize::{
    Change, Division, Linearized, NumberType, Test, first_case, linearize_difference, opposite_of,
    second_case, test_of,
};
use lra_program::{Comparison, Cond, Expr};
use std::alloc::{AllocError, Global};

/// In what moves are made: the allocator, how many variables live, and where those of the call begin.
#[derive(Clone, Copy)]
pub struct ConditionContext {
    pub alloc: Global,
    pub live: usize,
    pub base: usize,
}

/// Where the moves of a condition stand: if it is true, and if it is false.
#[derive(Clone, Copy)]
pub struct Both {
    pub so: usize,
    pub not: usize,
}

// divisions ---------------------------------------------------------------------------------------

/// The changes, one after the other.
fn push_in_turn(entries: &mut Vec<MovesEntry>, changes: Vec<Change>) -> Result<usize, AllocError>
    requires { IsTable entries.old.items }
    ensures table { OnOk result (IsTable entries.new.items) }
    ensures grows { OnOk result (Grows entries.old.items entries.new.items) }
    ensures has { IfOk result (λ i. Has entries.new.items i (in_turn (actions_of changes.items))) }
{
    let mut left = changes;
    let mut place = push_stay(entries)?;
    'changes: while let Some(change) = left.pop() {
        let first = push_make(entries, change)?;
        place = push_first_then(entries, first, place)?;
    }
    Ok(place)
}

/// One case: it begins so, and ends with the moves at the place.
fn push_case(
    entries: &mut Vec<MovesEntry>,
    begun: Vec<Change>,
    end: usize,
) -> Result<usize, AllocError>
    requires table { IsTable entries.old.items }
    requires end { end < length entries.old.items }
    ensures table { OnOk result (IsTable entries.new.items) }
    ensures grows { OnOk result (Grows entries.old.items entries.new.items) }
    ensures has { IfOk result (λ i. Has entries.new.items i
        (first_then (in_turn (actions_of begun.items)) (moves_at entries.old.items end))) }
{
    let first = push_in_turn(entries, begun)?;
    push_first_then(entries, first, end)
}

/// The change, and then the two variables of the case go.
fn push_end(entries: &mut Vec<MovesEntry>, change: Change) -> Result<usize, AllocError>
    requires { IsTable entries.old.items }
    ensures table { OnOk result (IsTable entries.new.items) }
    ensures grows { OnOk result (Grows entries.old.items entries.new.items) }
    ensures has { IfOk result (λ i. Has entries.new.items i
        (first_then (make (action_of change)) (make (remove_last 2)))) }
{
    let made = push_make(entries, change)?;
    let gone = push_make(entries, Change::RemoveLast(2))?;
    push_first_then(entries, made, gone)
}

/// The change in both cases of the division, joined in order.
pub fn push_cases(
    alloc: Global,
    entries: &mut Vec<MovesEntry>,
    live: usize,
    division: &Division,
    change: Change,
) -> Result<usize, AllocError>
    requires table { IsTable entries.old.items }
    requires few { live < 2 ^ 62 }
    requires divides { Divides division.now live }
    ensures table { OnOk result (IsTable entries.new.items) }
    ensures grows { OnOk result (Grows entries.old.items entries.new.items) }
    ensures has { IfOk result (λ i. Has entries.new.items i
        (in_cases live division.now (action_of change))) }
{
    let end = push_end(entries, change)?;
    let first = first_case(alloc, live, division)?;
    let one = push_case(entries, first, end)?;
    let second = second_case(alloc, live, division)?;
    let two = push_case(entries, second, end)?;
    push_join(entries, one, two)
}

// comparisons -------------------------------------------------------------------------------------

fn push_test(entries: &mut Vec<MovesEntry>, test: Option<Test>) -> Result<usize, AllocError>
    requires { IsTable entries.old.items }
    ensures table { OnOk result (IsTable entries.new.items) }
    ensures grows { OnOk result (Grows entries.old.items entries.new.items) }
    ensures has { IfOk result (λ i. Has entries.new.items i (test_moves test)) }
{
    match test {
        None => push_stay(entries),
        Some(test) => push_make(entries, Change::Test(test)),
    }
}

fn push_test_in_cases(
    alloc: Global,
    entries: &mut Vec<MovesEntry>,
    live: usize,
    division: &Division,
    test: Option<Test>,
) -> Result<usize, AllocError>
    requires table { IsTable entries.old.items }
    requires few { live < 2 ^ 62 }
    requires divides { Divides division.now live }
    ensures table { OnOk result (IsTable entries.new.items) }
    ensures grows { OnOk result (Grows entries.old.items entries.new.items) }
    ensures has { IfOk result (λ i. Has entries.new.items i
        (moves.case_moves live division.now test)) }
{
    match test {
        None => push_stay(entries),
        Some(test) => push_cases(alloc, entries, live, division, Change::Test(test)),
    }
}

/// The test of the comparison, by what is seen of its difference.
fn push_seen(
    alloc: Global,
    entries: &mut Vec<MovesEntry>,
    live: usize,
    op: Comparison,
    seen: &Linearized,
) -> Result<usize, AllocError>
    requires table { IsTable entries.old.items }
    requires few { live < 2 ^ 62 - 2 }
    requires width { LinearizedFits seen.now live }
    ensures table { OnOk result (IsTable entries.new.items) }
    ensures grows { OnOk result (Grows entries.old.items entries.new.items) }
    ensures has { IfOk result (λ i. Has entries.new.items i
        (linearized_moves live (comparison_view op) seen.now)) }
{
    match seen {
        Linearized::Unseen => push_stay(entries),
        Linearized::Linear(d) => {
            let test = test_of(alloc, op, d)?;
            push_test(entries, test)
        }
        Linearized::Divided(division, d) => {
            let test = test_of(alloc, op, d)?;
            push_test_in_cases(alloc, entries, live, division, test)
        }
    }
}

/// `!=` joins `<` with `>`, in this order.
fn push_differs(
    alloc: Global,
    entries: &mut Vec<MovesEntry>,
    live: usize,
    seen: &Linearized,
) -> Result<usize, AllocError>
    requires table { IsTable entries.old.items }
    requires few { live < 2 ^ 62 - 2 }
    requires width { LinearizedFits seen.now live }
    ensures table { OnOk result (IsTable entries.new.items) }
    ensures grows { OnOk result (Grows entries.old.items entries.new.items) }
    ensures has { IfOk result (λ i. Has entries.new.items i
        (moves.split_moves live differs seen.now)) }
{
    let less = push_seen(alloc, entries, live, Comparison::Below, seen)?;
    let more = push_seen(alloc, entries, live, Comparison::Above, seen)?;
    push_join(entries, less, more)
}

/// A comparison of which nothing is seen does nothing.
pub fn push_comparison(
    alloc: Global,
    entries: &mut Vec<MovesEntry>,
    live: usize,
    op: Comparison,
    seen: &Linearized,
) -> Result<usize, AllocError>
    requires table { IsTable entries.old.items }
    requires few { live < 2 ^ 62 - 2 }
    requires width { LinearizedFits seen.now live }
    ensures table { OnOk result (IsTable entries.new.items) }
    ensures grows { OnOk result (Grows entries.old.items entries.new.items) }
    ensures has { IfOk result (λ i. Has entries.new.items i
        (comparison_moves live (comparison_view op) seen.now)) }
{
    match seen {
        Linearized::Unseen => push_stay(entries),
        _ => match op {
            Comparison::Differs => push_differs(alloc, entries, live, seen),
            _ => push_seen(alloc, entries, live, op, seen),
        },
    }
}

/// Both sides of a comparison.
pub fn push_comparison_guards(
    frame: ConditionContext,
    op: Comparison,
    left: &Expr,
    right: &Expr,
    entries: &mut Vec<MovesEntry>,
) -> Result<Both, AllocError>
    requires table { IsTable entries.old.items }
    requires few { frame.live < 2 ^ 62 - 2 }
    ensures table { OnOk result (IsTable entries.new.items) }
    ensures grows { OnOk result (Grows entries.old.items entries.new.items) }
    ensures has { IfOk result (λ b. HasBoth entries.new.items frame.live frame.base
        (compare (comparison_view op) (expr_view left.now) (expr_view right.now)) b) }
{
    let seen = linearize_difference(frame.alloc, frame.live, frame.base, left, right)?;
    let so = push_comparison(frame.alloc, entries, frame.live, op, &seen)?;
    let not = push_comparison(frame.alloc, entries, frame.live, opposite_of(op), &seen)?;
    Ok(Both { so, not })
}

// conditions --------------------------------------------------------------------------------------

/// The comparison the other way round.
pub fn opposite_both(both: Both) -> Both
    ensures so { result.so ≡ both.not }
    ensures not { result.not ≡ both.so }
{
    Both {
        so: both.not,
        not: both.so,
    }
}

/// `&&`: the one after the other; if it is false, the first is, or the first is true and the second is false.
pub fn both_of(one: Both, other: Both, entries: &mut Vec<MovesEntry>) -> Result<Both, AllocError>
    requires table { IsTable entries.old.items }
    requires one { AreIn entries.old.items one }
    requires other { AreIn entries.old.items other }
    ensures table { OnOk result (IsTable entries.new.items) }
    ensures grows { OnOk result (Grows entries.old.items entries.new.items) }
    ensures so { IfOk result (λ b. Has entries.new.items b.so
        (first_then (moves_at entries.old.items one.so) (moves_at entries.old.items other.so))) }
    ensures not { IfOk result (λ b. Has entries.new.items b.not
        (join_of (moves_at entries.old.items one.not)
        (first_then (moves_at entries.old.items one.so) (moves_at entries.old.items other.not)))) }
{
    let so = push_first_then(entries, one.so, other.so)?;
    let last = push_first_then(entries, one.so, other.not)?;
    let not = push_join(entries, one.not, last)?;
    Ok(Both { so, not })
}

/// `||`: the first, or the second if the first is false; if it is false, both are.
pub fn either_of(one: Both, other: Both, entries: &mut Vec<MovesEntry>) -> Result<Both, AllocError>
    requires table { IsTable entries.old.items }
    requires one { AreIn entries.old.items one }
    requires other { AreIn entries.old.items other }
    ensures table { OnOk result (IsTable entries.new.items) }
    ensures grows { OnOk result (Grows entries.old.items entries.new.items) }
    ensures so { IfOk result (λ b. Has entries.new.items b.so
        (join_of (moves_at entries.old.items one.so)
        (first_then (moves_at entries.old.items one.not) (moves_at entries.old.items other.so)))) }
    ensures not { IfOk result (λ b. Has entries.new.items b.not
        (first_then (moves_at entries.old.items one.not) (moves_at entries.old.items other.not))) }
{
    let whole = both_of(opposite_both(one), opposite_both(other), entries)?;
    Ok(opposite_both(whole))
}

/// Both sides of `e != 0`.
pub fn push_nonzero_guards(
    frame: ConditionContext,
    e: &Expr,
    entries: &mut Vec<MovesEntry>,
) -> Result<Both, AllocError>
    requires table { IsTable entries.old.items }
    requires few { frame.live < 2 ^ 62 - 2 }
    ensures table { OnOk result (IsTable entries.new.items) }
    ensures grows { OnOk result (Grows entries.old.items entries.new.items) }
    ensures has { IfOk result (λ b. HasBoth entries.new.items frame.live frame.base
        (nonzero (expr_view e.now)) b) }
{
    let zero = Expr::Literal(NumberType::Int, 0);
    push_comparison_guards(frame, Comparison::Differs, e, &zero, entries)
}
