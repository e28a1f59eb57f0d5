//! Sets of parts, over any domain of one part: lists of non-empty parts, reduced and kept within a cap.
#![tactic(auto)]

mod answers;
mod changes;
mod growth;
mod heads;
mod joins;
mod reduction;
mod set;

pub use heads::PowerSetHead;
pub use set::PowerSet;
