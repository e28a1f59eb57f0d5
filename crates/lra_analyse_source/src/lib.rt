//! What a source must get: its one refusal, or its report.
//!
//! [`analyse_source`] goes on from the tree of operations that `lra_front_end` reads: iteration, states, report.
//! `proofs/` joins the laws of the parts: the text of an answer makes one report; the tree of operations of a
//! well-formed program fits the iteration, and has each point once; so what an iteration finds holds in all runs.
#![tactic(auto)]

mod laws;
mod reporting;
mod source_report;

pub use laws::{
    accesses_are_sound, analyses_are_right, fitting_is_sound, forms_are_right, one_answered_text,
    one_unflagged_report, solved_are_sound, trees_fit,
};
pub use lra_bounds_checks::judge_accesses;
pub use lra_fixpoint::{Plan, Solution};
pub use lra_front_end::{
    AcceptedSource, AcceptedThreads, Refusal, SourceError, read_source, read_threads,
};
pub use lra_options::Domain;
pub use lra_poly_domain::Polyhedron;
pub use lra_report_build::{
    Findings, Names, list_points, list_verdicts, names_of_globals, number_of, states_of,
};
pub use reporting::{report_solution, solve_front};
pub use source_report::analyse_source;
