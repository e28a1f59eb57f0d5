//! A law: it does nothing, and its contract is the theorem.

ghost use Rattle.lra_sample.specs.Accepted.{SamplesAreAccepted};

/// Every sample source of at most 400 blocks is accepted: it has a tree, no fault of names, no recursion, and keeps
/// within the limits of variables and of points.
pub fn samples_are_accepted()
    ensures { SamplesAreAccepted }
{}
