//! What is found of a thread.

use lra_bounds_checks::BoundsVerdicts;
use lra_threads_fixpoint::Boxes;
use lra_threads_instrument::NotedSolution;

/// What is found of a thread: of the iteration over it among others, and which of its accesses lie inside their arrays.
/// The flags of accesses come after those of the iteration.
#[derive(Drop)]
pub struct ThreadResult {
    pub noted: NotedSolution<Boxes>,
    pub inside: BoundsVerdicts,
}
