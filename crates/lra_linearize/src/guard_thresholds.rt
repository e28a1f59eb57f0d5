//! The rows that a loop's condition gives to its head.

ghost use Rattle.std.specs.Prelude.{◌≡◌, ◌<◌, ◌^◌, ℤ, pos, ◌+ℤ◌, ◌≤ℤ◌, neg_ℤ, ◌∷◌, ◌++◌, [], suc, map, length, IfOk};
ghost use Rattle.std.specs.{List.All, Prelude.OnOk, Prelude.Some, Prelude.option_map, Prelude.if◌then◌else◌};
ghost use Rattle.lra_linearize.specs.Crates.lra_linear_spec.Range.{InRange};
ghost use Rattle.lra_linearize.specs.Crates.lra_program.ProgramViews.{all_of, expr_view, cond_view};
ghost use Rattle.lra_base.specs.OperatorViews.{comparison_view};
ghost use Rattle.lra_analysis_spec.specs.GuardThresholds.{row_of, opposite_row, test_rows, comparison_rows, guard_rows};
ghost use Rattle.lra_analysis_spec.specs.GuardThresholds.{guard_thresholds};
ghost use Rattle.lra_analysis_spec.specs.Linear.{difference_form, comparison_test};
ghost use Rattle.lra_linearize.specs.GuardThresholds.{HasMore};

use crate::comparisons::{comparison_where, difference_of, test_of};
use lra_analysis_spec::{ConKind, ConSys, LinExpr, Row};
use lra_base::{Comparison, NumberType};
use lra_program::{Cond, Expr};
use std::alloc::{AllocError, Global};

/// The number times -1 comes last.
pub fn push_negated(numbers: &mut Vec<i128>, number: &i64) -> Result<(), AllocError>
    ensures items { OnOk result (numbers.new.items ≡ numbers.old.items ++ neg_ℤ number.now ∷ []) }
    ensures range { InRange (neg_ℤ number.now) }
{
    numbers.push(-(*number as i128))?;
    Ok(())
}

/// The row `-form >= 0`.
fn opposite_row_of(alloc: Global, form: &LinExpr) -> Result<Row, AllocError>
    ensures { IfOk result (λ r. r ≡ opposite_row form.now) }
{
    let mut numbers = Vec::new(alloc);
    push_negated(&mut numbers, &form.constant())?;
    let mut left = form.coefficients();
    while let Some((coefficient, behind)) = left.split_first() {
        push_negated(&mut numbers, coefficient)?;
        left = behind;
    }
    let row = Row::from_slice(alloc, numbers.as_slice())?;
    Ok(row)
}

/// The rows of a test `e >= 0`: e >= 0 and e + 1 >= 0.
fn give_test(
    alloc: Global,
    op: Comparison,
    d: &LinExpr,
    rows: &mut ConSys,
) -> Result<(), AllocError>
    requires few { length d.now.coefficients < 2 ^ 62 }
    requires width { length d.now.coefficients ≡ rows.old.dims }
    ensures { OnOk result (HasMore rows.old rows.new (test_rows
        (comparison_test (comparison_view op) d.now))) }
{
    let Some(test) = test_of(alloc, op, d)? else {
        return Ok(());
    };
    rows.push(test.expr.to_row_plus(alloc, false)?, ConKind::Ge)?;
    rows.push(test.expr.to_row_plus(alloc, true)?, ConKind::Ge)?;
    Ok(())
}

/// The rows of `==` and `!=`: d >= 0 and -d >= 0.
fn give_difference(alloc: Global, d: &LinExpr, rows: &mut ConSys) -> Result<(), AllocError>
    requires { length d.now.coefficients ≡ rows.old.dims }
    ensures { OnOk result (HasMore rows.old rows.new (row_of d.now (pos 0) ∷
        opposite_row d.now ∷ [])) }
{
    rows.push(d.to_row_plus(alloc, false)?, ConKind::Ge)?;
    rows.push(opposite_row_of(alloc, d)?, ConKind::Ge)?;
    Ok(())
}

/// The rows of a comparison; none if its difference isn't linear.
fn give_comparison(
    alloc: Global,
    base: usize,
    op: Comparison,
    left: &Expr,
    right: &Expr,
    rows: &mut ConSys,
) -> Result<(), AllocError>
    requires { rows.old.dims < 2 ^ 62 }
    ensures { OnOk result (HasMore rows.old rows.new (comparison_rows (comparison_view op)
        (difference_form rows.old.dims base (expr_view left.now) (expr_view right.now)))) }
{
    let Some(d) = difference_of(alloc, rows.dims(), base, left, right)? else {
        return Ok(());
    };
    match op {
        Comparison::Equal | Comparison::Differs => {
            give_difference(alloc, &d, rows)?;
            Ok(())
        }
        _ => {
            give_test(alloc, op, &d, rows)?;
            Ok(())
        }
    }
}

/// The rows of a condition, wanted true or false: those of its comparisons in text order.
#[cycle(give)]
fn give(
    alloc: Global,
    base: usize,
    condition: &Cond,
    wanted: bool,
    rows: &mut ConSys,
) -> Result<(), AllocError>
    requires { rows.old.dims < 2 ^ 62 }
    ensures { OnOk result (HasMore rows.old rows.new (guard_rows rows.old.dims base wanted
        (cond_view condition.now))) }
{
    match condition {
        Cond::Compare(op, left, right) => {
            let op = comparison_where(*op, wanted);
            give_comparison(alloc, base, op, left, right, rows)
        }
        Cond::Nonzero(e) => {
            let op = comparison_where(Comparison::Differs, wanted);
            let zero = Expr::Literal(NumberType::Int, 0);
            give_comparison(alloc, base, op, e, &zero, rows)
        }
        Cond::Opposite(inner) => give(alloc, base, inner, !wanted, rows),
        Cond::All(first, rest) => give_chain(alloc, base, first, rest.as_slice(), wanted, rows),
        Cond::Any(first, rest) => give_chain(alloc, base, first, rest.as_slice(), wanted, rows),
    }
}

/// The rows of a chain of conditions: those of `&&` and `||` are the same.
#[cycle(give)]
fn give_chain(
    alloc: Global,
    base: usize,
    first: &Cond,
    rest: &[Cond],
    wanted: bool,
    rows: &mut ConSys,
) -> Result<(), AllocError>
    requires { rows.old.dims < 2 ^ 62 }
    ensures { OnOk result (HasMore rows.old rows.new (guard_rows rows.old.dims base wanted
        (all_of (cond_view first.now) (map cond_view rest.now)))) }
{
    give(alloc, base, first, wanted, rows)?;
    'rest: for next in rest {
        give(alloc, base, next, wanted, rows)?;
    }
    Ok(())
}

/// The rows that the condition of a loop gives to its head, over so many live variables.
pub fn guard_thresholds_of(
    alloc: Global,
    live: usize,
    base: usize,
    condition: &Cond,
) -> Result<ConSys, AllocError>
    requires { live < 2 ^ 62 }
    ensures { IfOk result (λ s. s ≡ guard_thresholds live base (cond_view condition.now)) }
{
    let mut rows = ConSys::new(alloc, live);
    give(alloc, base, condition, true, &mut rows)?;
    Ok(rows)
}
