//! Paths of a program: from its start or from a point to the next one, or to where an assertion is false, with all that
//! is done between.
//!
//! `specs/` is to be read in the order of `specs/Lib.antt`, after those of `lra_path_segments` and
//! `lra_path_disjuncts`: paths, and what these must guarantee to runs. A checker of rows at points asks of each path
//! alone.
#![tactic(auto)]

mod laws;
mod paths;
mod sources;

pub use laws::{
    few_exclude_many, inductive_holds, paths_cover, segments_cover, violations_are_own,
};
pub use lra_path_disjuncts::{End, Goal, Move, TreeSegment};
pub use paths::{Paths, PathsFailure, find_paths};
pub use sources::{Source, SourceSegment};
