//! Certificates written: from rows that are inductive along paths, and assertions to whose negation no path leads, to
//! the text of a certificate that meets its program, with the first multipliers in each line.
//!
//! `specs/` is to be read in the order of `specs/Lib.antt`: points along paths, rows that are closed, what is written
//! of a path, and of a program. Nothing here stands on an iteration.
#![tactic(auto)]

mod certifying;
mod claims;
mod edges;
mod failures;
mod laws;
mod listed;
mod text;

pub use certifying::certify;
pub use failures::{CertifyFailure, PathFailure, StrainedAt};
pub use laws::symbols_give_points;
pub use lra_verify::{GREATEST_CERTIFICATE, VerifyError, VerifyRefusal, verify};
