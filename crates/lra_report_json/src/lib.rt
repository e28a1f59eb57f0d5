//! Reports as JSON (RFC 8259).
//!
//! [`to_value`] gives the JSON value of a report, [`json_text`] its bytes: one compact object with its keys in byte
//! order, and a line feed.
#![tactic(auto)]

pub mod law;
mod lists;
mod object;
mod parts;
mod whole;

pub use lra_report::Row;
pub use whole::{json_text, to_value};
