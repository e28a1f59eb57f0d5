//! Laws: each of these does nothing, and its contract is the theorem.

ghost use Rattle.lra_threads_source.specs.ThreadsReports.{FlaggedThreadsStrain, ThreadsAreSound};
ghost use Rattle.lra_threads_source.specs.ThreadsReports.{UnflaggedThreadsAreDefined};

/// Whatever the threads do beside each other, what is reported about them holds. Without a flag it is what is defined;
/// the number of a flag is that of a thread's point of which an operation exceeds a limit, and all before it is exact.
pub fn threads_are_right()
    ensures sound { ThreadsAreSound }
    ensures unflagged { UnflaggedThreadsAreDefined }
    ensures flagged { FlaggedThreadsStrain }
{}
