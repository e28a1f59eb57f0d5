//! Large sources from a number, and what is reported about their reports.
//!
//! [`program`] makes the source of a seed and a size, [`summary`] says of its report in five lines.
//! [`samples_are_accepted`] is the law that up to 400 blocks no such source is refused.
#![tactic(auto)]

mod block;
mod draws;
mod laws;
mod source;
mod summaries;

pub use laws::samples_are_accepted;
pub use lra_options::DEFAULT_OPTIONS;
pub use source::program;
pub use summaries::summary;
