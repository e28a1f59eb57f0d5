//! Laws: each of these does nothing, and its contract is the theorem.

ghost use Rattle.lra_interference_sound.specs.CoversUnder.{PassesCoverUnder};
ghost use Rattle.lra_interference_sound.specs.WritesAgree.{WritesAgree, OthersWritesAgree};
ghost use Rattle.lra_interference_sound.specs.Crates.lra_program.Traces.{NoChange};

use lra_analysis_spec::{Domain, Interfere};

/// A pass among others over a tree with their places in it has, from a value's stores, the stores of all runs of the
/// tree among these others: after it, at its jumps and points, where an assertion fails, and where a variable gets a
/// value.
pub fn passes_cover_under<D: Domain, F: Interfere<D>>()
    ensures { (others : F) → PassesCoverUnder (F.interference others) D.abstraction }
{}

/// Each value that a run of a program gives to a variable, a run of the program's tree gives to it.
///
/// Does nothing: its contract is the theorem.
pub fn writes_agree()
    ensures alone { WritesAgree NoChange }
    ensures others { OthersWritesAgree }
{}
