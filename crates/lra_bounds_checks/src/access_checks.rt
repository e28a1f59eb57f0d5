//! Whether accesses are inside their arrays, by the value that they have.

ghost use Rattle.std.specs.Prelude.{◌≡◌, ◌≤◌, ◌↔◌, length, map, IsTrue, IfOk};
ghost use Rattle.lra_program.specs.Accesses.{expr_accesses, op_accesses, op_accesses_any};
ghost use Rattle.lra_program.specs.ProgramViews.{expr_view};
ghost use Rattle.lra_bounds_checks.specs.Crates.lra_analysis_spec.Accesses.{outside_of, BothInside, OneInside};
ghost use Rattle.lra_bounds_checks.specs.Crates.lra_analysis_spec.Accesses.{OpInside, AccessJudged, IndexJudged};
ghost use Rattle.lra_bounds_checks.specs.Crates.lra_analysis_spec.Analysis.{IsUnreachable};
ghost use Rattle.lra_bounds_checks.specs.Crates.lra_analysis_spec.LiveLimit.{most_live};
ghost use Rattle.lra_bounds_checks.specs.Crates.lra_analysis_spec.MovesOf.{test_action};
ghost use Rattle.lra_bounds_checks.specs.Crates.lra_analysis_spec.Operations.{lossy_operations};
ghost use Rattle.lra_bounds_checks.specs.Crates.lra_operations.TreeViews.{op_view};
ghost use Rattle.lra_bounds_checks.specs.Crates.lra_operations_list.TreeOperations.{op_ref_view};
ghost use Rattle.lra_bounds_checks.specs.BoundsChecks.{AreWide, IsEachTold, IsOpTold};
ghost use Rattle.lra_bounds_checks.specs.Listed.{access_view};
ghost use Rattle.lra_overflow_checks.specs.Judged.{IsWide};

use crate::bounds::outside;
use crate::listing::{Access, accesses, push_accesses};
use lra_domain::{Domain, Exactness, LinExpr, Test, worse};
use lra_operations::Op;
use lra_overflow_checks::{
    Leaf, OpRef, Question, Surroundings, Verdict, form_of_expression, judge_condition,
};
use lra_program::{Expr, Place};
use std::alloc::{AllocError, Global};

/// Of accesses it is reported which lie inside their arrays: of each the place where its array is named, and whether it
/// is inside.
pub struct BoundsCheck;

/// Whether nothing is left of the value if the test holds, and whether what is left is exact.
fn rule_out<D: Domain>(
    alloc: Global,
    value: &D,
    test: &Test,
) -> Result<(bool, Exactness), AllocError>
    requires { length test.now.expr.coefficients ≡ D.abstraction.dims value.now }
    ensures { IfOk result (λ r. (left : D) ×
        (lossy_operations D.abstraction).changed (test_action test.now) value.now r.1 left ×
        (IsTrue r.0 ↔ IsUnreachable D.abstraction left)) }
{
    let mut left = value.copy(alloc)?;
    let exactness = left.test(test)?;
    Ok((left.is_empty(), exactness))
}

/// Whether an index isn't outside of which these are the tests that it is. Each of the two is made, of the value
/// itself, also if the answer is known without it.
fn judge_tests<D: Domain>(
    alloc: Global,
    value: &D,
    tests: &Option<(Test, Test)>,
) -> Result<(bool, Exactness), AllocError>
    requires { AreWide (D.abstraction.dims value.now) tests.now }
    ensures { IfOk result
        (λ r. IndexJudged D.abstraction (lossy_operations D.abstraction) value.now tests.now
        r.0 r.1) }
{
    match tests {
        None => Ok((value.is_empty(), Exactness::Exact)),
        Some((under, over)) => {
            let (never_under, one) = rule_out(alloc, value, under)?;
            let (never_over, two) = rule_out(alloc, value, over)?;
            let inside = value.is_empty() || (never_under && never_over);
            Ok((inside, worse(one, two)))
        }
    }
}

/// The tests that an index with this form is outside; of one that isn't linear there are none.
fn tests_of(
    alloc: Global,
    form: &Option<LinExpr>,
    count: u32,
    live: usize,
) -> Result<Option<(Test, Test)>, AllocError>
    requires few { live ≤ most_live }
    requires wide { IsWide live form.now }
    ensures are { IfOk result (λ tests. tests ≡ outside_of form.now count) }
    ensures wide { IfOk result (λ tests. AreWide live tests) }
{
    match form {
        None => Ok(None),
        Some(index) => outside(alloc, index, count),
    }
}

/// Whether an access is inside.
fn judge_access<D: Domain>(
    around: Surroundings,
    value: &D,
    access: &Access<'_>,
) -> Result<(bool, Exactness), AllocError>
    requires { D.abstraction.dims value.now ≤ most_live }
    ensures { IfOk result
        (λ r. AccessJudged D.abstraction (lossy_operations D.abstraction) value.now around.base
        (access_view access.now) r.0 r.1) }
{
    let live = value.dims();
    let form = form_of_expression(around.alloc, live, around.base, access.index)?;
    let tests = tests_of(around.alloc, &form, access.array.length, live)?;
    judge_tests(around.alloc, value, &tests)
}

/// What is reported about each access comes after the others.
fn judge_each<D: Domain>(
    around: Surroundings,
    value: &D,
    accesses: &[Access<'_>],
    told: &mut Vec<(Place, bool)>,
) -> Result<Exactness, AllocError>
    requires { D.abstraction.dims value.now ≤ most_live }
    ensures { IfOk result (λ e. IsEachTold D.abstraction value.now around.base
        (map access_view accesses.now) told.old.items e told.new.items) }
{
    let mut so_far = Exactness::Exact;
    'accesses: for access in accesses {
        let (inside, exactness) = judge_access(around, value, access)?;
        told.push((access.place, inside))?;
        so_far = worse(so_far, exactness);
    }
    Ok(so_far)
}

/// What is reported about the accesses of an expression comes after the others.
fn judge_expression<D: Domain>(
    around: Surroundings,
    e: &Expr,
    value: &D,
    told: &mut Vec<(Place, bool)>,
) -> Result<Exactness, AllocError>
    requires { D.abstraction.dims value.now ≤ most_live }
    ensures { IfOk result (λ a. IsEachTold D.abstraction value.now around.base
        (expr_accesses (expr_view e.now)) told.old.items a told.new.items) }
{
    let mut all = Vec::new(around.alloc);
    push_accesses(e, &mut all)?;
    judge_each(around, value, all.as_slice(), told)
}

impl<D: Domain> Leaf<D> for BoundsCheck {
    type Told = (Place, bool);

    ghost both = { BothInside D.abstraction (lossy_operations D.abstraction) };

    ghost one = { OneInside D.abstraction (lossy_operations D.abstraction) };

    fn tell_both(
        around: Surroundings,
        left: &Expr,
        right: &Expr,
        value: &D,
        told: &mut Vec<(Place, bool)>,
    ) -> Result<Exactness, AllocError> {
        let mut all = Vec::new(around.alloc);
        push_accesses(left, &mut all)?;
        push_accesses(right, &mut all)?;
        judge_each(around, value, all.as_slice(), told)
    }

    fn tell_one(
        around: Surroundings,
        e: &Expr,
        value: &D,
        told: &mut Vec<(Place, bool)>,
    ) -> Result<Exactness, AllocError> {
        judge_expression(around, e, value, told)
    }
}

/// All accesses of a least change by one value, if the variables of its call begin at `base`.
fn judge_all<D: Domain>(
    around: Surroundings,
    op: &Op,
    value: &D,
    told: &mut Vec<(Place, bool)>,
) -> Result<Exactness, AllocError>
    requires { D.abstraction.dims value.now ≤ most_live }
    ensures { IfOk result (λ e. IsEachTold D.abstraction value.now around.base
        (op_accesses (op_view op.now)) told.old.items e told.new.items) }
{
    let all = accesses(around.alloc, OpRef::Change(op))?;
    judge_each(around, value, all.as_slice(), told)
}

/// What is reported about the accesses of a least change comes after the others.
fn judge_change<D: Domain>(
    alloc: Global,
    op: &Op,
    value: &D,
    told: &mut Vec<(Place, bool)>,
) -> Result<Exactness, AllocError>
    requires { D.abstraction.dims value.now ≤ most_live }
    ensures { IfOk result (λ e. IsOpTold D.abstraction (op_view op.now)
        value.now told.old.items e told.new.items) }
{
    match op {
        Op::Append(_) | Op::Fill(_) | Op::Havoc(_) | Op::TruncateTo(_) => Ok(Exactness::Exact),
        Op::StoreValue(base, _, _) => judge_all(
            Surroundings { alloc, base: *base },
            op,
            value,
            told,
        ),
        Op::StoreElement(base, _, _) => {
            judge_all(Surroundings { alloc, base: *base }, op, value, told)
        }
        Op::Push(base, _) => judge_all(Surroundings { alloc, base: *base }, op, value, told),
        Op::PushFor(base, _, _) => judge_all(Surroundings { alloc, base: *base }, op, value, told),
        Op::Test(base, condition, _) => {
            let around = Surroundings { alloc, base: *base };
            judge_condition::<D, BoundsCheck>(around, condition, value, told)
        }
    }
}

/// What is reported about the accesses of what is done comes after the others.
fn judge_doing<D: Domain>(
    alloc: Global,
    doing: OpRef<'_>,
    value: &D,
    told: &mut Vec<(Place, bool)>,
) -> Result<Exactness, AllocError>
    requires { D.abstraction.dims value.now ≤ most_live }
    ensures { IfOk result (λ e. IsOpTold D.abstraction (op_ref_view doing.entry)
        value.now told.old.items e told.new.items) }
{
    match doing {
        OpRef::Change(op) => judge_change(alloc, op, value, told),
        OpRef::Condition(base, condition) => {
            judge_condition::<D, BoundsCheck>(Surroundings { alloc, base }, condition, value, told)
        }
        OpRef::Value(base, e) => judge_expression(Surroundings { alloc, base }, e, value, told),
    }
}

impl<D: Domain> Question<D> for BoundsCheck {
    type Answer = Vec<(Place, bool)>;

    ghost asks = { op_accesses_any };

    ghost told = { λ op v js e. OpInside D.abstraction (lossy_operations D.abstraction) op v js.items e };

    fn is_asked(alloc: Global, doing: OpRef<'_>) -> Result<bool, AllocError> {
        let all = accesses(alloc, doing)?;
        Ok(!all.is_empty())
    }

    fn answer(
        alloc: Global,
        doing: OpRef<'_>,
        value: &D,
    ) -> Result<Verdict<Vec<(Place, bool)>>, AllocError> {
        let mut answer = Vec::new(alloc);
        let exactness = judge_doing(alloc, doing, value, &mut answer)?;
        Ok(Verdict { answer, exactness })
    }
}
