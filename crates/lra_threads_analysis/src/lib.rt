//! Programs of several threads: the rounds in which they are analysed, and the law that what these find of each thread
//! holds in every interleaving of them.
#![tactic(auto)]

mod found;
mod graphs;
mod laws;

pub use found::ThreadResult;
pub use graphs::{InlinedThreads, analyse_threads};
pub use laws::threads_hold;
pub use lra_threads_fixpoint::{FixpointRound, Interval, Intervals, Threads};
pub use lra_threads_instrument::{InlinedProgram, instrument_program};
