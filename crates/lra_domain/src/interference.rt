ghost use Rattle.std.specs.Prelude.{◌≡◌, IfOk, OnErr};
ghost use Rattle.lra_domain.specs.Interference.{Absorbs, Interference, no_interference};
ghost use Rattle.lra_domain.specs.Parts.{CapsWithin};

use crate::Exactness;
use crate::domain::Domain;
use std::alloc::AllocError;

/// What others may do while a program runs: between two of its steps they may change its store, as `others` says, any
/// number of times. An author says what one change may be, which value a value becomes for all of them by definition,
/// and when that may be flagged; and gives the call that makes it.
pub trait Interfere<D: Domain> {
    /// One change of a store; the defined result; when it may be flagged.
    ghost interference: { Self → Interference D };

    /// The value takes in what any number of changes makes of its stores; its own stores stay.
    fn apply(&self, value: &mut D) -> Result<Exactness, AllocError>
        ensures admits { IfOk result (λ e. Absorbs (interference self.now) D.abstraction value.old e value.new) }
        ensures dims { D.abstraction.dims value.new ≡ D.abstraction.dims value.old }
        ensures capped { CapsWithin (D.abstraction.capped value.old)
            (D.abstraction.capped value.new) }
        ensures err { OnErr result (value.new ≡ value.old) };
}

/// There are no others: nothing is done, and no change is allowed.
pub struct NoInterference;

impl<D: Domain> Interfere<D> for NoInterference {
    ghost interference = { λ x. no_interference };

    fn apply(&self, value: &mut D) -> Result<Exactness, AllocError> {
        // a value that is held is formed
        let _ = value.is_empty();
        Ok(Exactness::Exact)
    }
}
