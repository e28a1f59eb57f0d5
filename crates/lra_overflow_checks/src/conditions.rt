//! What is reported about a condition: on the right of `&&` and `||` by what the left side leaves.

ghost use Rattle.std.specs.Prelude.{◌≡◌, ◌≤◌, ℕ, List, map, IfOk, OnOk};
ghost use Rattle.lra_overflow_checks.specs.Crates.lra_domain.declared.Exactness.{Exactness};
ghost use Rattle.lra_program.specs.{Program.Expr as ProgramExpr, ProgramViews.cond_view, ProgramViews.expr_view};
ghost use Rattle.lra_overflow_checks.specs.Crates.lra_analysis_spec.LiveLimit.{most_live};
ghost use Rattle.lra_overflow_checks.specs.Crates.lra_analysis_spec.Operations.{lossy_operations};
ghost use Rattle.lra_overflow_checks.specs.{Judged.HasAnswers, Judged.IsCondJudged, Judged.sides_of, Operands.IsPassed};

use lra_program::{Cond, Expr};
use lra_transfer::{Domain, Exactness, filter_condition, worse};
use std::alloc::{AllocError, Global};

/// In what a condition is read: the allocator of what is built for it, and where the variables of its call begin.
#[derive(Clone, Copy)]
pub struct Surroundings {
    pub alloc: Global,
    pub base: usize,
}

/// What is reported about a condition's leaves, its comparisons and what it compares with 0, by the value that each
/// has.
pub trait Leaf<D: Domain> {
    /// One of what is reported.
    type Told: Drop;

    /// What is reported about both sides of a comparison, if the variables of its call begin there.
    ghost both: { ℕ → ProgramExpr → ProgramExpr → D → List Self.Told → Exactness → Type 0 };

    /// What is reported about what is compared with 0.
    ghost one: { ℕ → ProgramExpr → D → List Self.Told → Exactness → Type 0 };

    /// What is reported about both sides of a comparison comes after the others; what had to be made for it may be
    /// flagged.
    fn tell_both(
        around: Surroundings,
        left: &Expr,
        right: &Expr,
        value: &D,
        told: &mut Vec<Self::Told>,
    ) -> Result<Exactness, AllocError>
        requires { D.abstraction.dims value.now ≤ most_live }
        ensures { IfOk result (λ e. HasAnswers
            (λ xs. both around.base (expr_view left.now) (expr_view right.now) value.now xs e)
            told.old.items told.new.items) };

    /// What is reported about what is compared with 0 comes after the others.
    fn tell_one(
        around: Surroundings,
        e: &Expr,
        value: &D,
        told: &mut Vec<Self::Told>,
    ) -> Result<Exactness, AllocError>
        requires { D.abstraction.dims value.now ≤ most_live }
        ensures { IfOk result (λ a. HasAnswers (λ xs. one around.base (expr_view e.now) value.now xs a)
            told.old.items told.new.items) };
}

/// What is reported about `condition` comes after the others; what had to be made for it may be flagged.
#[cycle(judge)]
pub fn judge_condition<D: Domain, L: Leaf<D>>(
    around: Surroundings,
    condition: &Cond,
    value: &D,
    told: &mut Vec<L::Told>,
) -> Result<Exactness, AllocError>
    requires { D.abstraction.dims value.now ≤ most_live }
    ensures { IfOk result
        (λ e. IsCondJudged (lossy_operations D.abstraction) L.both L.one around.base
        (cond_view condition.now) value.now told.old.items e told.new.items) }
{
    match condition {
        Cond::Compare(_, left, right) => L::tell_both(around, left, right, value, told),
        Cond::Nonzero(e) => L::tell_one(around, e, value, told),
        Cond::Opposite(inner) => judge_condition::<D, L>(around, inner, value, told),
        Cond::All(first, rest) => {
            judge_sides::<D, L>(around, first, rest.as_slice(), true, value, told)
        }
        Cond::Any(first, rest) => {
            judge_sides::<D, L>(around, first, rest.as_slice(), false, value, told)
        }
    }
}

/// What is reported about an operand of a chain; the value is then what is left of it if the operand is as `wanted`.
#[cycle(judge)]
fn pass_operand<D: Domain, L: Leaf<D>>(
    around: Surroundings,
    operand: &Cond,
    wanted: bool,
    value: &mut D,
    before: Exactness,
    told: &mut Vec<L::Told>,
) -> Result<Exactness, AllocError>
    requires { D.abstraction.dims value.old ≤ most_live }
    ensures passed { IfOk result
        (λ e. IsPassed (lossy_operations D.abstraction) L.both L.one around.base
        (cond_view operand.now) wanted value.old before told.old.items value.new e told.new.items) }
    ensures dims { OnOk result (D.abstraction.dims value.new ≡ D.abstraction.dims value.old) }
{
    let judged = judge_condition::<D, L>(around, operand, value, told)?;
    filter_condition(
        around.alloc,
        around.base,
        operand,
        wanted,
        value,
        worse(before, judged),
    )
}

/// What is reported about a chain: of each operand by what those before it leave, if they are as `wanted`.
#[cycle(judge)]
fn judge_sides<D: Domain, L: Leaf<D>>(
    around: Surroundings,
    first: &Cond,
    rest: &[Cond],
    wanted: bool,
    from: &D,
    told: &mut Vec<L::Told>,
) -> Result<Exactness, AllocError>
    requires { D.abstraction.dims from.now ≤ most_live }
    ensures { IfOk result
        (λ e. IsCondJudged (lossy_operations D.abstraction) L.both L.one around.base
        (sides_of wanted (cond_view first.now) (map cond_view rest.now))
        from.now told.old.items e told.new.items) }
{
    let mut value = from.copy(around.alloc)?;
    let mut so_far = Exactness::Exact;
    let mut last = first;
    'rest: for next in rest {
        so_far = pass_operand::<D, L>(around, last, wanted, &mut value, so_far, told)?;
        last = next;
    }
    let judged = judge_condition::<D, L>(around, last, &value, told)?;
    Ok(worse(so_far, judged))
}
