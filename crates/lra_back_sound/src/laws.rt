//! Laws: each of these does nothing, and its contract is the theorem.

ghost use Rattle.lra_back_sound.specs.Fitting.{AssertionsHaveViolations, NothingLeftAtFirst, OnePointIsFirst};
ghost use Rattle.lra_back_sound.specs.{FailingRuns.BackwardIsSound, Fitting.TreesHavePathsThatFit};

use lra_back::Backward;
use lra_fixpoint::Domain;

/// What is found by going back over values that hold in all runs has each store with which a run is at a point from
/// which it goes on to fail; if it leaves nothing at the start, no run fails.
pub fn backward_is_sound<D: Backward>()
    ensures { BackwardIsSound D.abstraction D.backward_abstraction }
{}

/// A tree whose operations can be made, and which reaches its points with as many variables as live there, has paths
/// that can be made if the globals are no more than may live.
pub fn paths_fit()
    ensures { TreesHavePathsThatFit }
{}

/// Each point that asserts has one segment to where its condition is false, right after it.
pub fn assertions_have_violations()
    ensures { AssertionsHaveViolations }
{}

/// Paths from the start of a program lead to exactly one of its points.
#[tactic(auto, using(crate::proofs::FirstPoints::one_first))]
pub fn one_point_is_first()
    ensures { OnePointIsFirst }
{}

/// Nothing is left at the start exactly if the value at that point has nothing.
pub fn nothing_left_at_first<D: Domain>()
    ensures { NothingLeftAtFirst D.abstraction }
{}
