//! The check of a certificate: from the bytes of an input to the numbers of its points and of its listed assertions, or
//! why it is no certificate that meets its program.
//!
//! Nothing here stands on a domain's values, on conversions or on an iteration.
#![tactic(auto)]

mod annotated;
mod body;
mod edges;
mod head;
mod listed;
mod points;
mod verifying;

pub use annotated::AnnotatedProgram;
pub use lra_certificate_lines::{
    Change, LineFault, Multipliers, PathCheck, PathFacts, VerifyError, VerifyRefusal,
};
pub use lra_operations::{InlinedProgram, Program};
pub use lra_paths::{Goal, PathsFailure, find_paths};
pub use verifying::{GREATEST_CERTIFICATE, all_sources, verify};
