//! Laws: each of these does nothing, and its contract is the theorem.

ghost use Rattle.lra_back_source.specs.BackReports.{BacksAreProvedAtFirst, BacksAreSound, BacksHaveSamePoints};
ghost use Rattle.lra_back_source.specs.BackReports.{BackOrRefused, FlaggedBacksStrain, UnflaggedBacksAreDefined};

/// What is shown at a point has each store from which a run goes on to fail at the assertion; if it is proved, no run
/// fails, and that is so exactly if the first point is shown as unreachable.
pub fn backs_are_sound()
    ensures sound { BacksAreSound }
    ensures first { BacksAreProvedAtFirst }
{}

/// Without a flag what is shown is what is defined, over the values of the written iteration; the number of a flag is
/// that of a point of which an operation exceeds a limit.
pub fn backs_are_defined()
    ensures unflagged { UnflaggedBacksAreDefined }
    ensures flagged { FlaggedBacksStrain }
{}

/// The rows and the generators of each state describe the same points.
pub fn backs_have_same_points()
    ensures { BacksHaveSamePoints }
{}

/// A source that can be gone back over isn't refused.
pub fn back_or_refused()
    ensures { BackOrRefused }
{}
