//! The names of a source: each is a variable or a function, or the source is refused.
#![tactic(auto)]

mod functions;
mod statements;
mod threads;

pub use functions::{Resolution, resolve};
pub use lra_resolve_simple::Labelling;
pub use threads::{ThreadsResolution, resolve_threads};
