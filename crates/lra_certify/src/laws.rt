//! Laws: each of these does nothing, and its contract is the theorem.

ghost use Rattle.lra_certify.specs.SymbolPoints.{SymbolsGivePoints};

/// Values of the symbols at which the tests of a path hold are a point of its source, from which the path leads to the
/// values of its forms.
#[tactic(auto, using(crate::proofs::WalkedBack::walked_back))]
pub fn symbols_give_points()
    ensures { SymbolsGivePoints }
{}
