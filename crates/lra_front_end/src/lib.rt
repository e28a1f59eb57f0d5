//! The front end: from the bytes of a source, of one thread or of several, to the tree of operations of each thread and
//! its points, or to the source's one refusal.
//!
//! [`read_source`] and [`read_threads`] go through the stages: tokens, tree, program, trees of operations; what is made
//! of these stands in the crates above, and each stage can be called alone. A thread's program is the source's program
//! with the thread's function in the place of `main`, so its points, its tree and its runs are those of that program;
//! each thread's points are numbered from 0, and all of them count against the limit on points.
//!
//! `proofs/` joins the laws of the parts: one reading and one tree make one answer, and every list of bytes has one;
//! and programs of sources without faults of names are well-formed, have the arrays that they name, and have at each
//! point a name for each variable.
#![tactic(auto)]

mod front;
mod laws;
mod program;
mod reading;
mod resolution_laws;
mod threads;
mod threads_front;

pub use front::{AcceptedSource, read_source};
pub use laws::{each_answer, one_answer, one_constants};
pub use lra_base::{GREATEST_LENGTH, Refusal, SourceError};
pub use lra_lex::tokens;
pub use lra_parse::parse;
pub use lra_resolve::{Resolution, resolve};
pub use program::{check_calls, inline_calls, program_of};
pub use reading::{Reading, read_text};
pub use resolution_laws::{arrays_are_there, faultless_are_well_formed, names_are_as_many};
pub use threads::{inline_threads, threads_of};
pub use threads_front::{AcceptedThreads, read_threads};
