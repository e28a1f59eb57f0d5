//! The laws of the polyhedron of all multipliers: they do nothing, and their contracts are the theorems.

ghost use Rattle.lra_farkas.specs.MultiplierRows.{PointsShow, WhatHoldsIsShown, WhatHoldsAtPointsIsShown};
ghost use Rattle.lra_farkas.specs.MultiplierRows.{NoPointIsShown};

/// The points of the polyhedron are the multipliers that show the claim.
pub fn multipliers_are_points()
    ensures { PointsShow }
{}

/// A claim that holds wherever the premises do has multipliers; if no point meets the premises, `-1 >= 0` has.
pub fn what_holds_is_shown()
    ensures everywhere { WhatHoldsIsShown }
    ensures at_points { WhatHoldsAtPointsIsShown }
    ensures nowhere { NoPointIsShown }
{}
