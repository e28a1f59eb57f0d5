//! The moves of what is done on a segment of a tree, in tables in which what stands in several of them stands once, and
//! their disjuncts: counted before they are written.
#![tactic(auto)]

mod changes;
mod conditions;
mod guards;
mod laws;
mod selections;
mod tables;

pub use changes::{push_globals, push_segment};
pub use conditions::{
    Both, ConditionContext, both_of, either_of, push_cases, push_comparison_guards,
    push_nonzero_guards,
};
pub use laws::{disjuncts_are_cases, disjuncts_are_made, disjuncts_lead, written_lead};
pub use lra_linearize::Change;
pub use lra_path_segments::{End, Goal, Move, TreeSegment, segments_of};
pub use tables::{
    GREATEST_PATHS, MovesEntry, MovesNode, add_capped, disjuncts_at, push_first_then, push_join,
    push_make, push_stay, write_disjuncts,
};
