//! The law of multipliers: it does nothing, and its contract is the theorem.

ghost use Rattle.lra_multipliers.specs.Multipliers.{MultipliersShow};

/// If the premises hold that multipliers add up, the claim does.
#[tactic(auto, using(crate::proofs::ShownRows::shown_holds))]
pub fn multipliers_show()
    ensures { MultipliersShow }
{}
