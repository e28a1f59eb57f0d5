//! What a comparison leaves of a value.

ghost use Rattle.std.specs.Prelude.{◌≡◌, ◌≤◌, ◌+◌, length, IfOk, OnOk};
ghost use Rattle.lra_transfer.specs.Crates.lra_analysis_spec.Linear.{comparison_test};
ghost use Rattle.lra_transfer.specs.Crates.lra_analysis_spec.Linearization.{Divides, LinearizedFits};
ghost use Rattle.lra_transfer.specs.Crates.lra_analysis_spec.Linearization.{linearized_difference};
ghost use Rattle.lra_transfer.specs.Crates.lra_analysis_spec.MovesOf.{test_moves, case_moves, linearized_moves};
ghost use Rattle.lra_transfer.specs.Crates.lra_analysis_spec.MovesOf.{split_moves, comparison_moves, number_moves};
ghost use Rattle.lra_transfer.specs.Crates.lra_analysis_spec.Operations.{lossy_operations};
ghost use Rattle.lra_transfer.specs.Crates.lra_base.OperatorViews.{comparison_view};
ghost use Rattle.lra_transfer.specs.Crates.lra_base.Operators.{below, differs};
ghost use Rattle.lra_transfer.specs.Crates.{lra_analysis_spec.LiveLimit.most_live, lra_analysis_spec.Moves.Takes};
ghost use Rattle.lra_program.specs.ProgramViews.{expr_view};
ghost use Rattle.lra_transfer.specs.Changes.{Does};

use crate::cases::change_in_cases;
use lra_linearize::{
    Change, Division, Domain, Exactness, LinExpr, Linearized, comparison_where,
    linearize_difference, subtract_number, test_of, worse,
};
use lra_program::{Comparison, Expr};
use std::alloc::{AllocError, Global};

/// What the comparison's test leaves of the value, by what is seen of its difference; all of it if there is none.
fn leave_test<D: Domain>(
    alloc: Global,
    op: Comparison,
    seen: &Linearized,
    value: &mut D,
    before: Exactness,
) -> Result<Exactness, AllocError>
    requires few { D.abstraction.dims value.old ≤ most_live }
    requires width { LinearizedFits seen.now (D.abstraction.dims value.old) }
    ensures leaves { IfOk result (λ e. Takes (lossy_operations D.abstraction)
        (linearized_moves (D.abstraction.dims value.old) (comparison_view op) seen.now)
        value.old before value.new e) }
    ensures dims { OnOk result (D.abstraction.dims value.new ≡ D.abstraction.dims value.old) }
{
    match seen {
        Linearized::Unseen => Ok(before),
        Linearized::Linear(d) => leave_linear(alloc, op, d, value, before),
        Linearized::Divided(division, d) => leave_divided(alloc, op, division, d, value, before),
    }
}

/// What the test of a linear difference leaves.
fn leave_linear<D: Domain>(
    alloc: Global,
    op: Comparison,
    d: &LinExpr,
    value: &mut D,
    before: Exactness,
) -> Result<Exactness, AllocError>
    requires few { D.abstraction.dims value.old ≤ most_live }
    requires width { length d.now.coefficients ≡ D.abstraction.dims value.old }
    ensures leaves { IfOk result (λ e. Takes (lossy_operations D.abstraction)
        (test_moves (comparison_test (comparison_view op) d.now)) value.old before value.new e) }
    ensures dims { OnOk result (D.abstraction.dims value.new ≡ D.abstraction.dims value.old) }
{
    match test_of(alloc, op, d)? {
        None => Ok(before),
        Some(test) => {
            let exactness = value.test(&test)?;
            Ok(worse(before, exactness))
        }
    }
}

/// What the test of a difference leaves that is linear over a division's variables, too: in both cases, joined.
fn leave_divided<D: Domain>(
    alloc: Global,
    op: Comparison,
    division: &Division,
    d: &LinExpr,
    value: &mut D,
    before: Exactness,
) -> Result<Exactness, AllocError>
    requires few { D.abstraction.dims value.old ≤ most_live }
    requires divides { Divides division.now (D.abstraction.dims value.old) }
    requires width { length d.now.coefficients ≡ D.abstraction.dims value.old + 2 }
    ensures leaves { IfOk result (λ e. Takes (lossy_operations D.abstraction)
        (case_moves (D.abstraction.dims value.old) division.now
        (comparison_test (comparison_view op) d.now))
        value.old before value.new e) }
    ensures dims { OnOk result (D.abstraction.dims value.new ≡ D.abstraction.dims value.old) }
{
    match test_of(alloc, op, d)? {
        None => Ok(before),
        Some(test) => {
            let exactness = change_in_cases(alloc, division, &Change::Test(test), value)?;
            Ok(worse(before, exactness))
        }
    }
}

/// What `<` leaves of the value, which itself stays.
fn leave_below<D: Domain>(
    alloc: Global,
    seen: &Linearized,
    value: &D,
    before: Exactness,
) -> Result<(D, Exactness), AllocError>
    requires few { D.abstraction.dims value.now ≤ most_live }
    requires width { LinearizedFits seen.now (D.abstraction.dims value.now) }
    ensures leaves { IfOk result (λ r. Takes (lossy_operations D.abstraction)
        (linearized_moves (D.abstraction.dims value.now) below seen.now) value.now before r.0 r.1) }
    ensures dims { IfOk result (λ r. D.abstraction.dims r.0 ≡ D.abstraction.dims value.now) }
{
    let mut less = value.copy(alloc)?;
    let exactness = leave_test(alloc, Comparison::Below, seen, &mut less, before)?;
    Ok((less, exactness))
}

/// What `<` or `>` leaves of the value.
fn leave_differs<D: Domain>(
    alloc: Global,
    seen: &Linearized,
    value: &mut D,
    before: Exactness,
) -> Result<Exactness, AllocError>
    requires few { D.abstraction.dims value.old ≤ most_live }
    requires width { LinearizedFits seen.now (D.abstraction.dims value.old) }
    ensures leaves { IfOk result (λ e. Takes (lossy_operations D.abstraction)
        (split_moves (D.abstraction.dims value.old) differs seen.now) value.old before value.new
        e) }
    ensures dims { OnOk result (D.abstraction.dims value.new ≡ D.abstraction.dims value.old) }
{
    let (mut less, one) = leave_below(alloc, seen, value, before)?;
    let two = leave_test(alloc, Comparison::Above, seen, value, before)?;
    let joined = less.join(value)?;
    *value = less;
    Ok(worse(worse(one, two), joined))
}

/// What a comparison leaves of the value, by what is seen of its difference; `!=` is `<` or `>`.
fn leave_seen<D: Domain>(
    alloc: Global,
    op: Comparison,
    seen: &Linearized,
    value: &mut D,
    before: Exactness,
) -> Result<Exactness, AllocError>
    requires few { D.abstraction.dims value.old ≤ most_live }
    requires width { LinearizedFits seen.now (D.abstraction.dims value.old) }
    ensures leaves { IfOk result (λ e. Takes (lossy_operations D.abstraction)
        (split_moves (D.abstraction.dims value.old) (comparison_view op) seen.now)
        value.old before value.new e) }
    ensures dims { OnOk result (D.abstraction.dims value.new ≡ D.abstraction.dims value.old) }
{
    match op {
        Comparison::Differs => leave_differs(alloc, seen, value, before),
        _ => leave_test(alloc, op, seen, value, before),
    }
}

/// What a comparison leaves of the value: all of it if the difference of its sides isn't linear.
fn leave_difference<D: Domain>(
    alloc: Global,
    op: Comparison,
    seen: &Linearized,
    value: &mut D,
    before: Exactness,
) -> Result<Exactness, AllocError>
    requires few { D.abstraction.dims value.old ≤ most_live }
    requires width { LinearizedFits seen.now (D.abstraction.dims value.old) }
    ensures leaves { IfOk result (λ e. Takes (lossy_operations D.abstraction)
        (comparison_moves (D.abstraction.dims value.old) (comparison_view op) seen.now)
        value.old before value.new e) }
    ensures dims { OnOk result (D.abstraction.dims value.new ≡ D.abstraction.dims value.old) }
{
    match seen {
        Linearized::Unseen => Ok(before),
        _ => leave_seen(alloc, op, seen, value, before),
    }
}

/// In what a condition is read: the allocator of what is built for it, and where the variables of its call begin.
#[derive(Clone, Copy)]
pub struct Surroundings {
    pub alloc: Global,
    pub base: usize,
}

/// What a comparison leaves of the value.
pub fn filter_comparison<D: Domain>(
    around: Surroundings,
    op: Comparison,
    left: &Expr,
    right: &Expr,
    value: &mut D,
    before: Exactness,
) -> Result<Exactness, AllocError>
    requires { D.abstraction.dims value.old ≤ most_live }
    ensures leaves { IfOk result (λ e. Takes (lossy_operations D.abstraction)
        (comparison_moves (D.abstraction.dims value.old) (comparison_view op)
        (linearized_difference (D.abstraction.dims value.old) around.base
        (expr_view left.now) (expr_view right.now)))
        value.old before value.new e) }
    ensures dims { OnOk result (D.abstraction.dims value.new ≡ D.abstraction.dims value.old) }
{
    let seen = linearize_difference(around.alloc, value.dims(), around.base, left, right)?;
    leave_difference(around.alloc, op, &seen, value, before)
}

/// What is left of the value if an expression has this number or, if it is not wanted, another one, by what is
/// seen of the expression.
pub fn filter_number<D: Domain>(
    alloc: Global,
    seen: &Linearized,
    number: &i64,
    wanted: bool,
    value: &mut D,
) -> Result<Exactness, AllocError>
    requires few { D.abstraction.dims value.old ≤ most_live }
    requires width { LinearizedFits seen.now (D.abstraction.dims value.old) }
    ensures leaves { IfOk result (λ e. Does D.abstraction
        (number_moves (D.abstraction.dims value.old) wanted seen.now number.now) value.old e value.new) }
    ensures dims { OnOk result (D.abstraction.dims value.new ≡ D.abstraction.dims value.old) }
{
    let op = comparison_where(Comparison::Equal, wanted);
    let difference = subtract_number(alloc, value.dims(), seen, number)?;
    leave_difference(alloc, op, &difference, value, Exactness::Exact)
}
