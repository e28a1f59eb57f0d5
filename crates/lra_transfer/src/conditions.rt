//! What a condition leaves of a value. What is never inlined is there so that the functions that call themselves at
//! each level of nesting take little of the stack.

ghost use Rattle.std.specs.Prelude.{◌≡◌, ◌≤◌, ◌∷◌, [], map, length, slice_index_or, IfOk, OnOk};
ghost use Rattle.lra_program.specs.Program.{nonzero};
ghost use Rattle.lra_program.specs.ProgramViews.{all_of, any_of, cond_view, expr_view};
ghost use Rattle.lra_transfer.specs.Crates.lra_analysis_spec.LiveLimit.{most_live};
ghost use Rattle.lra_transfer.specs.Crates.lra_analysis_spec.Operations.{lossy_operations};
ghost use Rattle.lra_transfer.specs.Crates.{lra_analysis_spec.Moves.Takes, lra_analysis_spec.MovesOf.guard};
ghost use Rattle.lra_linearize.specs.Conditions.{in_turn_of, either_of};
ghost use Rattle.lra_transfer.specs.Splits.{AreJoinedBack, AllKeptHave, IsEitherSoFar};

use crate::comparisons::{Surroundings, filter_comparison};
use crate::splits::{Kept, divide, join_back};
use lra_linearize::{Domain, Exactness, NumberType, comparison_where};
use lra_program::{Comparison, Cond, Expr};
use std::alloc::{AllocError, Global};

/// What `e != 0`, wanted true or false, leaves of the value.
fn leave_nonzero<D: Domain>(
    around: Surroundings,
    e: &Expr,
    wanted: bool,
    value: &mut D,
    before: Exactness,
) -> Result<Exactness, AllocError>
    requires { D.abstraction.dims value.old ≤ most_live }
    ensures leaves { IfOk result (λ a. Takes (lossy_operations D.abstraction)
        (guard (D.abstraction.dims value.old) around.base wanted (nonzero (expr_view e.now)))
        value.old before value.new a) }
    ensures dims { OnOk result (D.abstraction.dims value.new ≡ D.abstraction.dims value.old) }
{
    let zero = Expr::Literal(NumberType::Int, 0);
    let op = comparison_where(Comparison::Differs, wanted);
    filter_comparison(around, op, e, &zero, value, before)
}

/// A copy of the value, with what led to it.
#[inline(never)]
fn copy_kept<D: Domain>(
    alloc: Global,
    value: &D,
    exactness: Exactness,
) -> Result<Kept<D>, AllocError>
    ensures { IfOk result (λ k. k ≡ record { value = value.now; exactness = exactness }) }
{
    let value = value.copy(alloc)?;
    Ok(Kept { value, exactness })
}

/// A chain whose operands before the last are divided: what each of them left, what is there for the last, and it.
#[derive(Drop)]
struct Apart<'a, D> {
    lefts: Vec<Kept<D>>,
    off: Kept<D>,
    last: &'a Cond,
}

/// What each operand but the last leaves if those before it aren't so.
#[inline(never)]
fn divide_lefts<'a, D: Domain>(
    around: Surroundings,
    first: &'a Cond,
    rest: &'a [Cond],
    wanted: bool,
    from: Kept<D>,
) -> Result<Apart<'a, D>, AllocError>
    requires { D.abstraction.dims from.value ≤ most_live }
    ensures apart { IfOk result (λ a. IsEitherSoFar D.abstraction around.base wanted (cond_view first.now)
        (map cond_view rest.now) from a.lefts.items a.off (cond_view a.last.now) []) }
    ensures last { IfOk result (λ a. a.last.now ≡ slice_index_or (first.now ∷ rest.now) (length rest.now) a.last.now) }
{
    let mut lefts = Vec::new(around.alloc);
    let mut off = from;
    let mut last = first;
    'operands: for next in rest {
        let sides = divide(around.alloc, around.base, last, wanted, off)?;
        lefts.push(sides.on)?;
        off = sides.off;
        last = next;
    }
    Ok(Apart { lefts, off, last })
}

/// The value becomes the lefts joined with the right: each with what those after it give.
#[inline(never)]
fn join_lefts<D: Domain>(
    lefts: Vec<Kept<D>>,
    right: D,
    exactness: Exactness,
    value: &mut D,
) -> Result<Exactness, AllocError>
    requires { AllKeptHave D.abstraction (D.abstraction.dims right) lefts.items }
    ensures joined { IfOk result (λ e. AreJoinedBack D.abstraction lefts.items
        (record { value = right; exactness = exactness }) (record { value = value.new; exactness = e })) }
    ensures dims { OnOk result (D.abstraction.dims value.new ≡ D.abstraction.dims right) }
{
    let last = Kept {
        value: right,
        exactness,
    };
    let joined = join_back(lefts, last)?;
    *value = joined.value;
    Ok(joined.exactness)
}

/// What `condition`, wanted true or false, leaves of the value: `!` is pushed to the comparisons; `&&` is the one after
/// the other; `||` joins what its left side leaves with what the right one leaves if the left one is false.
#[cycle(filter_condition)]
pub fn filter_condition<D: Domain>(
    alloc: Global,
    base: usize,
    condition: &Cond,
    wanted: bool,
    value: &mut D,
    before: Exactness,
) -> Result<Exactness, AllocError>
    requires { D.abstraction.dims value.old ≤ most_live }
    ensures leaves { IfOk result (λ e. Takes (lossy_operations D.abstraction)
        (guard (D.abstraction.dims value.old) base wanted (cond_view condition.now)) value.old before value.new e) }
    ensures dims { OnOk result (D.abstraction.dims value.new ≡ D.abstraction.dims value.old) }
{
    let around = Surroundings { alloc, base };
    match condition {
        Cond::Compare(op, left, right) => {
            let wanted_one = comparison_where(*op, wanted);
            filter_comparison(around, wanted_one, left, right, value, before)
        }
        Cond::Nonzero(e) => leave_nonzero(around, e, wanted, value, before),
        Cond::Opposite(inner) => filter_condition(alloc, base, inner, !wanted, value, before),
        Cond::All(first, rest) => {
            leave_all(around, first, rest.as_slice(), wanted, value, before)
        }
        Cond::Any(first, rest) => {
            leave_any(around, first, rest.as_slice(), wanted, value, before)
        }
    }
}

/// What a chain of `&&`, wanted true or false, leaves of the value.
#[cycle(filter_condition)]
fn leave_all<D: Domain>(
    around: Surroundings,
    first: &Cond,
    rest: &[Cond],
    wanted: bool,
    value: &mut D,
    before: Exactness,
) -> Result<Exactness, AllocError>
    requires { D.abstraction.dims value.old ≤ most_live }
    ensures leaves { IfOk result (λ e. Takes (lossy_operations D.abstraction)
        (guard (D.abstraction.dims value.old) around.base wanted
        (all_of (cond_view first.now) (map cond_view rest.now)))
        value.old before value.new e) }
    ensures dims { OnOk result (D.abstraction.dims value.new ≡ D.abstraction.dims value.old) }
{
    if wanted {
        leave_in_turn(around, first, rest, true, value, before)
    } else {
        leave_either(around, first, rest, false, value, before)
    }
}

/// What a chain of `||`, wanted true or false, leaves of the value.
#[cycle(filter_condition)]
fn leave_any<D: Domain>(
    around: Surroundings,
    first: &Cond,
    rest: &[Cond],
    wanted: bool,
    value: &mut D,
    before: Exactness,
) -> Result<Exactness, AllocError>
    requires { D.abstraction.dims value.old ≤ most_live }
    ensures leaves { IfOk result (λ e. Takes (lossy_operations D.abstraction)
        (guard (D.abstraction.dims value.old) around.base wanted
        (any_of (cond_view first.now) (map cond_view rest.now)))
        value.old before value.new e) }
    ensures dims { OnOk result (D.abstraction.dims value.new ≡ D.abstraction.dims value.old) }
{
    if wanted {
        leave_either(around, first, rest, true, value, before)
    } else {
        leave_in_turn(around, first, rest, false, value, before)
    }
}

/// What all of the conditions leave, one after the other.
#[cycle(filter_condition)]
fn leave_in_turn<D: Domain>(
    around: Surroundings,
    first: &Cond,
    rest: &[Cond],
    wanted: bool,
    value: &mut D,
    before: Exactness,
) -> Result<Exactness, AllocError>
    requires { D.abstraction.dims value.old ≤ most_live }
    ensures leaves { IfOk result (λ e. Takes (lossy_operations D.abstraction)
        (in_turn_of (D.abstraction.dims value.old) around.base wanted (cond_view first.now) (map cond_view rest.now))
        value.old before value.new e) }
    ensures dims { OnOk result (D.abstraction.dims value.new ≡ D.abstraction.dims value.old) }
{
    let mut exactness = filter_condition(around.alloc, around.base, first, wanted, value, before)?;
    'rest: for next in rest {
        exactness = filter_condition(around.alloc, around.base, next, wanted, value, exactness)?;
    }
    Ok(exactness)
}

/// What the first of the conditions leaves, joined with what the others leave if it isn't so.
#[cycle(filter_condition)]
fn leave_either<D: Domain>(
    around: Surroundings,
    first: &Cond,
    rest: &[Cond],
    wanted: bool,
    value: &mut D,
    before: Exactness,
) -> Result<Exactness, AllocError>
    requires { D.abstraction.dims value.old ≤ most_live }
    ensures leaves { IfOk result (λ e. Takes (lossy_operations D.abstraction)
        (either_of (D.abstraction.dims value.old) around.base wanted (cond_view first.now) (map cond_view rest.now))
        value.old before value.new e) }
    ensures dims { OnOk result (D.abstraction.dims value.new ≡ D.abstraction.dims value.old) }
{
    let from = copy_kept(around.alloc, value, before)?;
    let apart = divide_lefts(around, first, rest, wanted, from)?;
    let Apart { lefts, off, last } = apart;
    let Kept {
        value: mut right,
        exactness: so_far,
    } = off;
    let exactness = filter_condition(around.alloc, around.base, last, wanted, &mut right, so_far)?;
    join_lefts(lefts, right, exactness, value)
}
