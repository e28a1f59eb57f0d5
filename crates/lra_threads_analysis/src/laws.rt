//! Laws: each of these does nothing, and its contract is the theorem.

ghost use Rattle.lra_threads_analysis.specs.Interleaved.{ThreadsHold};

/// What the rounds of threads end with holds of all that the threads do beside each other, step by step in any order:
/// the values at their points, what is reported about assertions and accesses, and the intervals of what they give to
/// globals.
///
/// Does nothing: its contract is the theorem.
pub fn threads_hold()
    ensures { ThreadsHold }
{}
