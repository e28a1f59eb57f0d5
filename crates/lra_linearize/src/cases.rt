//! The two cases in which a division is done.

ghost use Rattle.std.specs.Prelude.{◌≡◌, ◌<◌, ◌≤ℤ◌, ◌^◌, pos, IfOk};
ghost use Rattle.lra_linearize.specs.Crates.lra_linear_spec.declared.ConKind.TheVariants.{Ge, Eq};
ghost use Rattle.lra_linearize.specs.Crates.lra_domain.Actions as action;
ghost use Rattle.lra_linearize.specs.Crates.lra_domain.Changes.{action_of, actions_of};
ghost use Rattle.lra_analysis_spec.specs.Linearization.{behind_form, left_over};
ghost use Rattle.lra_analysis_spec.specs.MovesOf as moves;

use crate::linearization::{extend_form, form_behind};
use lra_analysis_spec::{Change, ConKind, Division, LinExpr, Test};
use std::alloc::{AllocError, Global};

/// The test that the form is at least 0.
fn test_sign(alloc: Global, form: &LinExpr) -> Result<Change, AllocError>
    ensures { IfOk result (λ change. action_of change ≡ action.test Ge form.now) }
{
    let expr = form.copy(alloc)?;
    let kind = ConKind::Ge;
    Ok(Change::Test(Test { expr, kind }))
}

/// The test that the constant and the factor times the remainder sum to at least 0.
fn test_remainder(
    alloc: Global,
    live: usize,
    constant: i64,
    factor: i64,
) -> Result<Change, AllocError>
    requires { live < 2 ^ 62 }
    ensures { IfOk result (λ change. action_of change ≡
        action.test Ge (behind_form live constant (pos 0) factor)) }
{
    let expr = form_behind(alloc, live, constant, 0, factor)?;
    let kind = ConKind::Ge;
    Ok(Change::Test(Test { expr, kind }))
}

/// The test that `A - k*t - r` is 0, as it is in both cases.
fn test_left_over(alloc: Global, division: &Division) -> Result<Change, AllocError>
    requires { pos 1 ≤ℤ division.now.divisor }
    ensures { IfOk result (λ change. action_of change ≡ action.test Eq (left_over division.now)) }
{
    let expr = extend_form(alloc, &division.numerator, -division.divisor, -1)?;
    let kind = ConKind::Eq;
    Ok(Change::Test(Test { expr, kind }))
}

/// How the case begins in which what is divided is at least 0: that is tested, the two variables come, then their
/// bounds and the equation are tested.
pub fn first_case(
    alloc: Global,
    live: usize,
    division: &Division,
) -> Result<Vec<Change>, AllocError>
    requires few { live < 2 ^ 62 }
    requires some { pos 1 ≤ℤ division.now.divisor }
    ensures { IfOk result (λ v. actions_of v.items ≡ moves.first_case live division.now) }
{
    let sign = test_sign(alloc, &division.numerator)?;
    let low = test_remainder(alloc, live, 0, 1)?;
    let high = test_remainder(alloc, live, division.divisor - 1, -1)?;
    let left = test_left_over(alloc, division)?;
    Ok(vec![in alloc; sign, Change::Embed(2), low, high, left]?)
}

/// How the case begins in which it is below 0.
pub fn second_case(
    alloc: Global,
    live: usize,
    division: &Division,
) -> Result<Vec<Change>, AllocError>
    requires few { live < 2 ^ 62 }
    requires some { pos 1 ≤ℤ division.now.divisor }
    ensures { IfOk result (λ v. actions_of v.items ≡ moves.second_case live division.now) }
{
    let sign = test_sign(alloc, &division.opposite)?;
    let low = test_remainder(alloc, live, division.divisor - 1, 1)?;
    let high = test_remainder(alloc, live, 0, -1)?;
    let left = test_left_over(alloc, division)?;
    Ok(vec![in alloc; sign, Change::Embed(2), low, high, left]?)
}
