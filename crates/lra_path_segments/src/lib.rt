//! Segments of a tree of operations, from its start or from a point in it to the next point or to where an assertion is
//! false: all of them in one list, made from the tree's leaves up.
#![tactic(auto)]

mod laws;
mod segments;
mod trees;

pub use laws::tree_segments_are_exact;
pub use segments::{Completion, End, Goal, Move, Selection, TreeSegment};
pub use trees::segments_of;
