//! Programs of several threads: what the threads do beside each other, and that each of them runs as its program does
//! if others may change the global variables between two of its steps.
#![tactic(auto)]

ghost use Rattle.lra_interleavings.specs.ThreadModular.{TestedThreadsAreModular};

/// Whatever the threads do beside each other, each of them runs as one among others.
///
/// Does nothing: its contract is the theorem.
pub fn threads_are_modular()
    ensures theorem { TestedThreadsAreModular }
{}
