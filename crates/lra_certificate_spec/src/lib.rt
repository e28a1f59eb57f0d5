//! Certificates of a program: rows at its points with the multipliers that show them, their text, the first line that
//! is refused, and what holds in all runs if a certificate meets its program.
//!
//! `specs/` is to be read in the order of `specs/Lib.antt`: certificates and when one meets its program, their text,
//! the first refused line, and what then holds in all runs. What answers by them is `lra_verify`.
#![tactic(auto)]

mod laws;

pub use laws::{certificates_are_inductive, certificates_hold, judged_exactly, one_certificate};
pub use lra_front_end::{Refusal, read_source};
pub use lra_script::{Constraint, number_of};
