//! Changes that are kept as values, and lists of them.

ghost use Rattle.std.specs.Prelude.{◌≡◌, ℤ, List, IfOk, OnOk};
ghost use Rattle.lra_domain.specs.Changes.{AllCanBeMade, TransfersAllTo, actions_of, dims_after_actions};
ghost use Rattle.lra_domain.specs.{Gammas.InGamma, Moves.LeadsAll, Parts.CapsWithin};

use crate::{Domain, Exactness, worse};
use lra_linear_forms::{LinExpr, Test};
use std::alloc::AllocError;

/// A least change of a value, as a call of `Domain` makes it.
pub enum Change {
    /// The dimension gets the value of the form.
    Assign(usize, LinExpr),
    /// The dimension gets any value.
    Forget(usize),
    /// Only stores that pass need stay.
    Test(Test),
    /// Appends so many dimensions, of any value.
    Embed(usize),
    /// Removes so many dimensions, the last ones.
    RemoveLast(usize),
}

impl Drop for Change {
    fn drop(self) {
        match self {
            Change::Assign(_, _) => {}
            Change::Forget(_) => {}
            Change::Test(_) => {}
            Change::Embed(_) => {}
            Change::RemoveLast(_) => {}
        }
    }
}

/// Makes the changes, one after the other: each store to which they may lead is kept. Flagged if one of them is.
/// If one answers an error, those before it stay made.
pub fn change_all<D: Domain>(value: &mut D, changes: &[Change]) -> Result<Exactness, AllocError>
    requires { AllCanBeMade (actions_of changes.now) (D.abstraction.dims value.old) }
    ensures stores { OnOk result ((s t : List ℤ) → InGamma D.abstraction value.old s →
        LeadsAll (actions_of changes.now) s t → InGamma D.abstraction value.new t) }
    ensures meets { IfOk result (λ a.
        TransfersAllTo D.abstraction (actions_of changes.now) value.old a value.new) }
    ensures dims { OnOk result
        (D.abstraction.dims value.new ≡
        dims_after_actions (actions_of changes.now) (D.abstraction.dims value.old)) }
    ensures capped { OnOk result
        (CapsWithin (D.abstraction.capped value.old) (D.abstraction.capped value.new)) }
{
    let Some((first, later)) = changes.split_first() else {
        return Ok(Exactness::Exact);
    };
    let one = value.change(first)?;
    let others = change_all(value, later)?;
    Ok(worse(one, others))
}
