//! The test of a comparison, and the comparison that is true when it is false.

ghost use Rattle.std.specs.Prelude.{◌≡◌, ◌<◌, ◌^◌, length, IfOk};
ghost use Rattle.lra_base.specs.OperatorViews.{comparison_view};
ghost use Rattle.lra_linearize.specs.Crates.lra_program.ProgramViews.{expr_view};
ghost use Rattle.lra_analysis_spec.specs.Linear.{difference_form, comparison_test, less_by, at_least_zero};
ghost use Rattle.lra_analysis_spec.specs.MovesOf.{comparison_as, opposite_comparison};

use crate::forms::{constant_of, form_of_expression, multiple_of, sum_of_forms};
use lra_analysis_spec::{ConKind, LinExpr, Test};
use lra_base::Comparison;
use lra_program::Expr;
use std::alloc::{AllocError, Global};

/// The form minus a number, if all its numbers have 64 bits.
pub fn less_by(alloc: Global, d: &LinExpr, number: u32) -> Result<Option<LinExpr>, AllocError>
    requires { length d.now.coefficients < 2 ^ 62 }
    ensures { IfOk result (λ o. o ≡ less_by number d.now) }
{
    let constant = constant_of(alloc, d.coefficients().len(), &(number as i64))?;
    let form = sum_of_forms(alloc, true, d, &constant)?;
    Ok(form)
}

fn at_least_zero_of(form: Option<LinExpr>) -> Option<Test>
    ensures { result ≡ at_least_zero form }
{
    match form {
        None => None,
        Some(expr) => Some(Test {
            expr,
            kind: ConKind::Ge,
        }),
    }
}

/// The test of a comparison whose left side minus its right one is `d`; none of `!=`, nor if a number passes 64
/// bits.
pub fn test_of(alloc: Global, op: Comparison, d: &LinExpr) -> Result<Option<Test>, AllocError>
    requires { length d.now.coefficients < 2 ^ 62 }
    ensures { IfOk result (λ o. o ≡ comparison_test (comparison_view op) d.now) }
{
    match op {
        Comparison::Below => {
            let form = d.opposite(alloc)?;
            Ok(at_least_zero_of(form))
        }
        Comparison::AtMost => {
            let form = multiple_of(alloc, -1, d)?;
            Ok(at_least_zero_of(form))
        }
        Comparison::Above => {
            let form = less_by(alloc, d, 1)?;
            Ok(at_least_zero_of(form))
        }
        Comparison::AtLeast => Ok(Some(Test {
            expr: d.copy(alloc)?,
            kind: ConKind::Ge,
        })),
        Comparison::Equal => Ok(Some(Test {
            expr: d.copy(alloc)?,
            kind: ConKind::Eq,
        })),
        Comparison::Differs => Ok(None),
    }
}

/// The form of the left side minus the right one.
pub fn difference_of(
    alloc: Global,
    live: usize,
    base: usize,
    left: &Expr,
    right: &Expr,
) -> Result<Option<LinExpr>, AllocError>
    requires { live < 2 ^ 62 }
    ensures { IfOk result (λ o. o ≡ difference_form live base (expr_view left.now) (expr_view right.now)) }
{
    let Some(one) = form_of_expression(alloc, live, base, left)? else {
        return Ok(None);
    };
    let Some(other) = form_of_expression(alloc, live, base, right)? else {
        return Ok(None);
    };
    let form = sum_of_forms(alloc, true, &one, &other)?;
    Ok(form)
}

/// The comparison that is true when this one is false.
pub fn opposite_of(op: Comparison) -> Comparison
    ensures { comparison_view result ≡ opposite_comparison (comparison_view op) }
{
    match op {
        Comparison::Below => Comparison::AtLeast,
        Comparison::AtMost => Comparison::Above,
        Comparison::Above => Comparison::AtMost,
        Comparison::AtLeast => Comparison::Below,
        Comparison::Equal => Comparison::Differs,
        Comparison::Differs => Comparison::Equal,
    }
}

/// The comparison, or its opposite if it isn't wanted.
pub fn comparison_where(op: Comparison, wanted: bool) -> Comparison
    ensures { comparison_view result ≡ comparison_as wanted (comparison_view op) }
{
    if wanted { op } else { opposite_of(op) }
}
