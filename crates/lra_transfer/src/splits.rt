//! What a condition leaves of a value if it is true, together with what it leaves if it is false.
//! What is never inlined holds nothing while the function for a condition inside this one runs.

ghost use Rattle.std.specs.Prelude.{◌≡◌, ◌≤◌, map, true, IfOk};
ghost use Rattle.lra_transfer.specs.Crates.lra_analysis_spec.LiveLimit.{most_live};
ghost use Rattle.lra_transfer.specs.Crates.lra_base.OperatorViews.{comparison_view};
ghost use Rattle.lra_program.specs.Program.{compare, nonzero};
ghost use Rattle.lra_program.specs.ProgramViews.{all_of, any_of, expr_view, cond_view};
ghost use Rattle.lra_transfer.specs.Splits.{SplitsBy, AreJoinedTo, AreJoinedBack, AllKeptHave};

use crate::comparisons::{Surroundings, filter_comparison};
use lra_linearize::{Domain, Exactness, NumberType, opposite_of, worse};
use lra_program::{Comparison, Cond, Expr};
use std::alloc::{AllocError, Global};

/// A value, with the exactness of what led to it.
#[derive(Drop)]
pub struct Kept<D> {
    pub value: D,
    pub exactness: Exactness,
}

/// What a condition leaves of a value: if it is true, and if it is false. The flags of the one aren't those of
/// the other.
#[derive(Drop)]
pub struct ConditionSplit<D> {
    pub on: Kept<D>,
    pub off: Kept<D>,
}

/// The first joined with the second.
pub fn join_kept<D: Domain>(one: Kept<D>, two: Kept<D>) -> Result<Kept<D>, AllocError>
    requires { D.abstraction.dims one.value ≡ D.abstraction.dims two.value }
    ensures { IfOk result (λ r. AreJoinedTo D.abstraction one two r) }
{
    let Kept {
        mut value,
        exactness,
    } = one;
    let joined = value.join(&two.value)?;
    Ok(Kept {
        value,
        exactness: worse(worse(exactness, two.exactness), joined),
    })
}

/// Each of these joined with what those after it give, the last with this one.
pub fn join_back<D: Domain>(before: Vec<Kept<D>>, last: Kept<D>) -> Result<Kept<D>, AllocError>
    requires { AllKeptHave D.abstraction (D.abstraction.dims last.value) before.items }
    ensures { IfOk result (λ r. AreJoinedBack D.abstraction before.items last r) }
{
    let mut left = before;
    let mut joined = last;
    'joins: while let Some(one) = left.pop() {
        joined = join_kept(one, joined)?;
    }
    Ok(joined)
}

/// The side where the last operand is false, joined with those before it from the right.
#[inline(never)]
fn join_off<D: Domain>(
    before: Vec<Kept<D>>,
    last: ConditionSplit<D>,
) -> Result<ConditionSplit<D>, AllocError>
    requires { AllKeptHave D.abstraction (D.abstraction.dims last.off.value) before.items }
    ensures on { IfOk result (λ s. s.on ≡ last.on) }
    ensures off { IfOk result (λ s. AreJoinedBack D.abstraction before.items last.off s.off) }
{
    let ConditionSplit { on, off } = last;
    let joined = join_back(before, off)?;
    Ok(ConditionSplit { on, off: joined })
}

/// The side where the last operand is true, joined likewise.
#[inline(never)]
fn join_on<D: Domain>(
    before: Vec<Kept<D>>,
    last: ConditionSplit<D>,
) -> Result<ConditionSplit<D>, AllocError>
    requires { AllKeptHave D.abstraction (D.abstraction.dims last.on.value) before.items }
    ensures on { IfOk result (λ s. AreJoinedBack D.abstraction before.items last.on s.on) }
    ensures off { IfOk result (λ s. s.off ≡ last.off) }
{
    let ConditionSplit { on, off } = last;
    let joined = join_back(before, on)?;
    Ok(ConditionSplit { on: joined, off })
}

/// Both sides of a comparison.
#[inline(never)]
fn split_comparison<D: Domain>(
    alloc: Global,
    base: usize,
    op: Comparison,
    left: &Expr,
    right: &Expr,
    from: Kept<D>,
) -> Result<ConditionSplit<D>, AllocError>
    requires { D.abstraction.dims from.value ≤ most_live }
    ensures { IfOk result (λ s. SplitsBy D.abstraction base true
        (compare (comparison_view op) (expr_view left.now) (expr_view right.now)) from s) }
{
    let Kept {
        value: mut on,
        exactness: before,
    } = from;
    let mut off = on.copy(alloc)?;
    let around = Surroundings { alloc, base };
    let one = filter_comparison(around, op, left, right, &mut on, before)?;
    let two = filter_comparison(around, opposite_of(op), left, right, &mut off, before)?;
    Ok(ConditionSplit {
        on: Kept {
            value: on,
            exactness: one,
        },
        off: Kept {
            value: off,
            exactness: two,
        },
    })
}

/// Both sides of `e != 0`.
#[inline(never)]
fn split_nonzero<D: Domain>(
    alloc: Global,
    base: usize,
    e: &Expr,
    from: Kept<D>,
) -> Result<ConditionSplit<D>, AllocError>
    requires { D.abstraction.dims from.value ≤ most_live }
    ensures { IfOk result
        (λ s. SplitsBy D.abstraction base true (nonzero (expr_view e.now)) from s) }
{
    let zero = Expr::Literal(NumberType::Int, 0);
    split_comparison(alloc, base, Comparison::Differs, e, &zero, from)
}

/// Both sides of `condition`, each of its comparisons taken once: `&&` goes on with what its left side leaves, `||`
/// with what that leaves if it is false; the other side of each is a join.
#[cycle(split)]
pub fn split<D: Domain>(
    alloc: Global,
    base: usize,
    condition: &Cond,
    from: Kept<D>,
) -> Result<ConditionSplit<D>, AllocError>
    requires { D.abstraction.dims from.value ≤ most_live }
    ensures { IfOk result (λ s. SplitsBy D.abstraction base true (cond_view condition.now) from s) }
{
    match condition {
        Cond::Compare(op, left, right) => split_comparison(alloc, base, *op, left, right, from),
        Cond::Nonzero(e) => split_nonzero(alloc, base, e, from),
        Cond::Opposite(inner) => {
            let ConditionSplit { on, off } = split(alloc, base, inner, from)?;
            Ok(ConditionSplit { on: off, off: on })
        }
        Cond::All(first, rest) => split_all(alloc, base, first, rest.as_slice(), from),
        Cond::Any(first, rest) => split_any(alloc, base, first, rest.as_slice(), from),
    }
}

/// Both sides of a chain of `&&`.
#[cycle(split)]
fn split_all<D: Domain>(
    alloc: Global,
    base: usize,
    first: &Cond,
    rest: &[Cond],
    from: Kept<D>,
) -> Result<ConditionSplit<D>, AllocError>
    requires { D.abstraction.dims from.value ≤ most_live }
    ensures { IfOk result (λ s. SplitsBy D.abstraction base true
        (all_of (cond_view first.now) (map cond_view rest.now)) from s) }
{
    let mut sides = split(alloc, base, first, from)?;
    let mut before = Vec::new(alloc);
    'rest: for next in rest {
        let ConditionSplit { on, off } = sides;
        before.push(off)?;
        sides = split(alloc, base, next, on)?;
    }
    join_off(before, sides)
}

/// Both sides of a chain of `||`.
#[cycle(split)]
fn split_any<D: Domain>(
    alloc: Global,
    base: usize,
    first: &Cond,
    rest: &[Cond],
    from: Kept<D>,
) -> Result<ConditionSplit<D>, AllocError>
    requires { D.abstraction.dims from.value ≤ most_live }
    ensures { IfOk result (λ s. SplitsBy D.abstraction base true
        (any_of (cond_view first.now) (map cond_view rest.now)) from s) }
{
    let mut sides = split(alloc, base, first, from)?;
    let mut before = Vec::new(alloc);
    'rest: for next in rest {
        let ConditionSplit { on, off } = sides;
        before.push(on)?;
        sides = split(alloc, base, next, off)?;
    }
    join_on(before, sides)
}

/// The side where the condition is as wanted comes first, as if that were true.
pub fn divide<D: Domain>(
    alloc: Global,
    base: usize,
    condition: &Cond,
    wanted: bool,
    from: Kept<D>,
) -> Result<ConditionSplit<D>, AllocError>
    requires { D.abstraction.dims from.value ≤ most_live }
    ensures { IfOk result
        (λ s. SplitsBy D.abstraction base wanted (cond_view condition.now) from s) }
{
    let sides = split(alloc, base, condition, from)?;
    if wanted {
        Ok(sides)
    } else {
        Ok(ConditionSplit {
            on: sides.off,
            off: sides.on,
        })
    }
}
