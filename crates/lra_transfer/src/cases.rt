//! What is done to a value in a division's two cases.

ghost use Rattle.std.specs.Prelude.{◌≡◌, ◌≤◌, ◌<◌, ◌+◌, length, IfOk, OnOk};
ghost use Rattle.lra_transfer.specs.Crates.lra_analysis_spec.LiveLimit.{most_live};
ghost use Rattle.lra_transfer.specs.Crates.lra_analysis_spec.MovesOf.{in_turn, first_case, second_case, in_case};
ghost use Rattle.lra_transfer.specs.Crates.lra_analysis_spec.MovesOf.{in_cases};
ghost use Rattle.lra_transfer.specs.Crates.lra_domain.Changes.{action_of, actions_of, AllCanBeMade, dims_after_actions};
ghost use Rattle.lra_transfer.specs.Crates.{lra_analysis_spec.Linearization.Divides, lra_domain.Actions.assign};
ghost use Rattle.lra_transfer.specs.Changes.{Does, Stays};

use lra_linearize::{Change, Division, Domain, Exactness, LinExpr, first_case, second_case, worse};
use std::alloc::{AllocError, Global};

/// Makes the changes, one after the other.
fn change_in_turn<D: Domain>(changes: &[Change], value: &mut D) -> Result<Exactness, AllocError>
    requires { AllCanBeMade (actions_of changes.now) (D.abstraction.dims value.old) }
    ensures changes { IfOk result (λ a.
        Does D.abstraction (in_turn (actions_of changes.now)) value.old a value.new) }
    ensures dims { OnOk result (D.abstraction.dims value.new ≡
        dims_after_actions (actions_of changes.now) (D.abstraction.dims value.old)) }
{
    let Some((first, later)) = changes.split_first() else {
        return Ok(Exactness::Exact);
    };
    let one = value.change(first)?;
    let others = change_in_turn(later, value)?;
    Ok(worse(one, others))
}

/// One case: it begins so, then comes the change, then the two variables of the case go.
fn change_in_case<D: Domain>(
    begun: &[Change],
    step: &Change,
    value: &mut D,
) -> Result<Exactness, AllocError>
    requires begins { AllCanBeMade (actions_of begun.now) (D.abstraction.dims value.old) }
    requires two { dims_after_actions (actions_of begun.now) (D.abstraction.dims value.old) ≡
        D.abstraction.dims value.old + 2 }
    requires stays { Stays (action_of step.now) (D.abstraction.dims value.old + 2) }
    ensures changes { IfOk result (λ a. Does D.abstraction
        (in_case (actions_of begun.now) (action_of step.now)) value.old a value.new) }
    ensures dims { OnOk result (D.abstraction.dims value.new ≡ D.abstraction.dims value.old) }
{
    let one = change_in_turn(begun, value)?;
    let two = value.change(step)?;
    let three = value.remove_last(2)?;
    Ok(worse(one, worse(two, three)))
}

/// The change in the division's first case.
fn change_in_first_case<D: Domain>(
    alloc: Global,
    division: &Division,
    step: &Change,
    value: &mut D,
) -> Result<Exactness, AllocError>
    requires few { D.abstraction.dims value.old ≤ most_live }
    requires divides { Divides division.now (D.abstraction.dims value.old) }
    requires stays { Stays (action_of step.now) (D.abstraction.dims value.old + 2) }
    ensures changes { IfOk result (λ a. Does D.abstraction
        (in_case (first_case (D.abstraction.dims value.old) division.now) (action_of step.now))
        value.old a value.new) }
    ensures dims { OnOk result (D.abstraction.dims value.new ≡ D.abstraction.dims value.old) }
{
    let begun = first_case(alloc, value.dims(), division)?;
    change_in_case(begun.as_slice(), step, value)
}

/// The change in its second one.
fn change_in_second_case<D: Domain>(
    alloc: Global,
    division: &Division,
    step: &Change,
    value: &mut D,
) -> Result<Exactness, AllocError>
    requires few { D.abstraction.dims value.old ≤ most_live }
    requires divides { Divides division.now (D.abstraction.dims value.old) }
    requires stays { Stays (action_of step.now) (D.abstraction.dims value.old + 2) }
    ensures changes { IfOk result (λ a. Does D.abstraction
        (in_case (second_case (D.abstraction.dims value.old) division.now) (action_of step.now))
        value.old a value.new) }
    ensures dims { OnOk result (D.abstraction.dims value.new ≡ D.abstraction.dims value.old) }
{
    let begun = second_case(alloc, value.dims(), division)?;
    change_in_case(begun.as_slice(), step, value)
}

/// The change in both cases of the division, joined in order.
pub fn change_in_cases<D: Domain>(
    alloc: Global,
    division: &Division,
    step: &Change,
    value: &mut D,
) -> Result<Exactness, AllocError>
    requires few { D.abstraction.dims value.old ≤ most_live }
    requires divides { Divides division.now (D.abstraction.dims value.old) }
    requires stays { Stays (action_of step.now) (D.abstraction.dims value.old + 2) }
    ensures changes { IfOk result (λ a. Does D.abstraction
        (in_cases (D.abstraction.dims value.old) division.now (action_of step.now))
        value.old a value.new) }
    ensures dims { OnOk result (D.abstraction.dims value.new ≡ D.abstraction.dims value.old) }
{
    let mut other = value.copy(alloc)?;
    let one = change_in_first_case(alloc, division, step, value)?;
    let two = change_in_second_case(alloc, division, step, &mut other)?;
    let joined = value.join(&other)?;
    Ok(worse(worse(one, two), joined))
}

/// The variable at the place gets the form's value in both cases of the division, joined in order.
pub fn assign_in_cases<D: Domain>(
    alloc: Global,
    place: usize,
    division: &Division,
    form: &LinExpr,
    value: &mut D,
) -> Result<Exactness, AllocError>
    requires few { D.abstraction.dims value.old ≤ most_live }
    requires place { place < D.abstraction.dims value.old }
    requires divides { Divides division.now (D.abstraction.dims value.old) }
    requires width { length form.now.coefficients ≡ D.abstraction.dims value.old + 2 }
    ensures changes { IfOk result (λ a. Does D.abstraction
        (in_cases (D.abstraction.dims value.old) division.now (assign place form.now))
        value.old a value.new) }
    ensures dims { OnOk result (D.abstraction.dims value.new ≡ D.abstraction.dims value.old) }
{
    let copy = form.copy(alloc)?;
    let step = Change::Assign(place, copy);
    change_in_cases(alloc, division, &step, value)
}
