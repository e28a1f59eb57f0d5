//! Laws: each of these does nothing, and its contract is the theorem.

ghost use Rattle.lra_paths.specs.Covers.{AllPathsCover, SegmentsCover, InductiveHolds};
ghost use Rattle.lra_paths.specs.{FewPaths.FewExcludeMany, Violations.ViolationsAreOwn};

/// What a run of a tree has done since the last point that it met goes along a segment of the tree.
pub fn segments_cover()
    ensures { SegmentsCover }
{}

/// Each piece of a run, from its start or a point to the next point or to where an assertion is false, goes along a
/// path.
#[tactic(auto, using(crate::proofs::LawsOfPaths::all_paths_cover))]
pub fn paths_cover()
    ensures { AllPathsCover }
{}

/// What the paths from the start give and the paths between points keep holds in all runs.
#[tactic(auto, using(crate::proofs::LawsOfPaths::what_is_kept))]
pub fn inductive_holds()
    ensures { InductiveHolds }
{}

/// No program has few paths and too many.
#[tactic(auto, using(crate::proofs::ManyPaths::not_both))]
pub fn few_exclude_many()
    ensures { FewExcludeMany }
{}

/// Where the assertion at a point is false, no paths lead but those from that point.
#[tactic(auto, using(crate::proofs::OwnDenials::violations_are_own))]
pub fn violations_are_own()
    ensures { ViolationsAreOwn }
{}
