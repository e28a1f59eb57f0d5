//! What the calls that make or change a polyhedron report.

ghost use Rattle.std.specs.Prelude.{◌≡◌, ◌↔◌, IsTrue};
ghost use Rattle.lra_poly.specs.Outcomes.{first_loss, first_of};

use lra_description_pair::Loss;

/// Whether the result is the exact one; or what was lost first, and then the result may have more points.
pub enum Outcome {
    Exact,
    Flagged(Loss),
}

impl Drop for Outcome {
    fn drop(self) {
        match self {
            Outcome::Exact => {}
            Outcome::Flagged(_) => {}
        }
    }
}

impl Outcome {
    /// Whether nothing was lost.
    pub fn is_exact(&self) -> bool
        ensures { IsTrue result ↔ (self.now ≡ Outcome.Exact) }
    {
        match self {
            Outcome::Exact => true,
            Outcome::Flagged(_) => false,
        }
    }

    /// What is reported about this call and of a later one together: the first loss.
    #[tactic(auto, using(crate::proofs::OutcomeLemmas::later_told, crate::proofs::OutcomeLemmas::own_told))]
    pub fn and(self, later: Outcome) -> Outcome
        ensures first { result ≡ first_of self later }
        ensures exact { (result ≡ Outcome.Exact) ↔ ((self ≡ Outcome.Exact) ×
            (later ≡ Outcome.Exact)) }
    {
        if self.is_exact() { later } else { self }
    }
}

/// What is reported about the losses: the first of them.
pub fn outcome_of(losses: Vec<Loss>) -> Outcome
    ensures { result ≡ first_loss losses.items }
{
    match losses.into_iter().next() {
        None => Outcome::Exact,
        Some(loss) => Outcome::Flagged(loss),
    }
}
