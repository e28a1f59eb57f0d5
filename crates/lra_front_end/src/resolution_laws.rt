//! Laws: each of these does nothing, and its contract is the theorem.

ghost use Rattle.lra_front_end.specs.Crates.lra_resolution_spec.Refuse.{AcceptedAreWellFormed};
ghost use Rattle.lra_front_end.specs.Crates.lra_syntax.Grammar.{Spells};
ghost use Rattle.lra_front_end.specs.ResolutionClaims.{FaultlessAreWellFormed, LiteralsAreSmall, ReadAreWellFormed};
ghost use Rattle.lra_front_end.specs.ResolutionClaims.{FaultlessHaveArrays, NamesAreAsMany, ShownNamesAreAsMany};

/// The program of a source without faults of names is well-formed.
pub fn faultless_are_well_formed()
    ensures trees { FaultlessAreWellFormed }
    ensures literals { LiteralsAreSmall Spells }
    ensures read { ReadAreWellFormed Spells }
    ensures accepted { AcceptedAreWellFormed }
{}

/// In the program of a source without faults of names each array that is named is there.
pub fn arrays_are_there()
    ensures { FaultlessHaveArrays }
{}

/// At each point of a source as many names are printed as variables live there.
pub fn names_are_as_many()
    ensures live { NamesAreAsMany }
    ensures shown { ShownNamesAreAsMany }
{}
