//! Laws: each of these does nothing, and its contract is the theorem.

ghost use Rattle.lra_path_segments.specs.TreeSegments.{TreeSegmentsAreExact};

/// The tree segments, which are made in one list from the leaves up, are the segments of the tree, each kind in its
/// order.
pub fn tree_segments_are_exact()
    ensures { TreeSegmentsAreExact }
{}
