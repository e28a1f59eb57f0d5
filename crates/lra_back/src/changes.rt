//! Going back over one change.

ghost use Rattle.std.specs.Prelude.{◌≡◌, IfOk, OnOk};
ghost use Rattle.lra_domain.specs.{Actions.dims_after, Changes.CanBeMade, Changes.action_of};
ghost use Rattle.lra_back.specs.{BackwardCalls.reversed, Operations.PreOfAction, Operations.lossy_back_operations};

use lra_domain::{Backward, Change, Exactness};
use std::alloc::AllocError;

/// From the value after the change to the one before it: what was forgotten may have been anything, what was embedded
/// goes, what was removed comes again with any value.
pub fn pre_of_action<D: Backward>(value: &mut D, change: &Change) -> Result<Exactness, AllocError>
    requires { CanBeMade (reversed (action_of change.now)) (D.abstraction.dims value.old) }
    ensures undoes { IfOk result
        (λ e. PreOfAction (lossy_back_operations D.abstraction D.backward_abstraction)
        (action_of change.now) value.old e value.new) }
    ensures dims { OnOk result (D.abstraction.dims value.new ≡
        dims_after (reversed (action_of change.now)) (D.abstraction.dims value.old)) }
{
    match change {
        Change::Assign(place, form) => value.before_assign(*place, form),
        Change::Forget(place) => value.forget(*place),
        Change::Test(test) => value.before_test(test),
        Change::Embed(count) => value.remove_last(*count),
        Change::RemoveLast(count) => value.embed(*count),
    }
}
