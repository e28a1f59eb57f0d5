//! What a command answers: a text, and the status with which it is written. To a source of which something is reported,
//! that is what is reported about it, or its refusal.
#![tactic(auto)]

mod answer;
mod status;

pub use answer::{Answer, answer_refusal};
pub use lra_front_end::one_answer;
pub use status::Status;
