//! What a pass over a program's tree of operations gives and keeps: outcomes, turns of loops, heads while they grow.
//! And the trees that are passed where they stand. If a function has a type parameter `F: Interfere<D>`, its
//! contract speaks of passes among others of that type, whichever they are: nothing here calls them.
#![tactic(auto)]

mod flat;
mod heads;
mod leaves;
mod loop_cache;
mod outcome;
mod plan;
mod tree_forms;

pub use flat::Flat;
pub use heads::{Growing, grow_by, start};
pub use leaves::pass_leaf;
pub use loop_cache::{CachedLoop, LoopCache};
pub use lra_transfer::{
    ConditionSplit, Domain, Exactness, Interfere, Kept, Linearized, append_globals,
    filter_condition, filter_number, linearize, split, worse,
};
pub use outcome::{
    Entered, HeadRound, LoopRound, PassEntry, PassFindings, PassOutcome, Running, enter_with,
    join_all, note,
};
pub use plan::Plan;
pub use tree_forms::{Catch, Choice, Leaf, Loop, Row, Selection, TreeForm};
