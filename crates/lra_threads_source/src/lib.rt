//! From the bytes of a source of several threads to what is found of them, and its text: rounds of boxes over the
//! graphs of the threads, among what the others write, and one report of all of them; or the one refusal.
#![tactic(auto)]

mod laws;
mod listing;
mod text;
mod threads_report;

pub use laws::threads_are_right;
pub use listing::{ThreadsOutline, list};
pub use lra_analyse_source::analyse_source;
pub use text::{ThreadsReport, Writes, threads_text};
pub use threads_report::threads_source;
