//! Domains that go back.

ghost use Rattle.std.specs.Prelude.{◌≡◌, ◌<◌, length, IfOk, OnErr};
ghost use Rattle.lra_domain.specs.Backward.{TransfersBackTo, MeetsBoth, BackwardAbstraction};
ghost use Rattle.lra_domain.specs.{Actions.assign, Actions.test, Parts.CapsWithin};

use crate::{Domain, Exactness};
use lra_linear_forms::{LinExpr, Test};
use std::alloc::AllocError;

/// A domain that also goes back: from what is so after an assignment or a test to what was so before it.
///
/// Give one record, `backward_abstraction`: the defined results as relations on contents, and when each call may exceed
/// a limit.
/// Each call keeps every store from which its change may lead into the value, and `meet` each store of both. Each
/// result covers the defined one; an `Exact` one is the defined one, a `Flagged` one comes only if the call exceeds
/// a limit on its operands. The other changes go back by `Domain` itself: a forgotten dimension is forgotten, embedded
/// ones are removed, removed ones embedded. An `AllocError` can come from each call.
pub trait Backward: Domain {
    /// What the calls that go back give, and when they exceed a limit.
    ghost backward_abstraction: { BackwardAbstraction Self };

    /// What was so before dimension `x` got the value of the form.
    fn before_assign(&mut self, x: usize, e: &LinExpr) -> Result<Exactness, AllocError>
        requires place { x < Self.abstraction.dims self.old }
        requires width { length e.now.coefficients ≡ Self.abstraction.dims self.old }
        ensures back { IfOk result
            (λ a. TransfersBackTo Self.abstraction backward_abstraction (assign x e.now) self.old a self.new) }
        ensures dims { Self.abstraction.dims self.new ≡ Self.abstraction.dims self.old }
        ensures capped { CapsWithin (Self.abstraction.capped self.old)
            (Self.abstraction.capped self.new) }
        ensures err { OnErr result (self.new ≡ self.old) };

    /// What was so before the test passed.
    fn before_test(&mut self, t: &Test) -> Result<Exactness, AllocError>
        requires { length t.now.expr.coefficients ≡ Self.abstraction.dims self.old }
        ensures back { IfOk result (λ a.
            TransfersBackTo Self.abstraction backward_abstraction (test t.now.kind t.now.expr)
            self.old a self.new) }
        ensures dims { Self.abstraction.dims self.new ≡ Self.abstraction.dims self.old }
        ensures capped { CapsWithin (Self.abstraction.capped self.old)
            (Self.abstraction.capped self.new) }
        ensures err { OnErr result (self.new ≡ self.old) };

    /// Only stores that are in both need stay.
    fn meet(&mut self, other: &Self) -> Result<Exactness, AllocError>
        requires { Self.abstraction.dims self.old ≡ Self.abstraction.dims other.now }
        ensures meets { IfOk result
            (λ a. MeetsBoth Self.abstraction backward_abstraction self.old other.now a self.new) }
        ensures dims { Self.abstraction.dims self.new ≡ Self.abstraction.dims self.old }
        ensures capped { CapsWithin (λ c. Self.abstraction.capped self.old c × Self.abstraction.capped other.now c)
            (Self.abstraction.capped self.new) }
        ensures err { OnErr result (self.new ≡ self.old) };
}
