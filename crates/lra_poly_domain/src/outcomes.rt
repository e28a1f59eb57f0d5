//! What the operations report, in the words of a domain.

ghost use Rattle.std.specs.Prelude.{◌≡◌, neg_ℤ, option_map, IfSome};
ghost use Rattle.lra_linear_spec.specs.Range.{InRange};
ghost use Rattle.lra_duality.specs.Maxima.{ValueInRange};
ghost use Rattle.lra_poly_domain.specs.{Bounded.rounded_down, Content.PolyhedronAnswers, Growth.exactness_of};

use lra_domain::{Exactness, Included};
use lra_duality::{Inclusion, Maximum};
use lra_poly_widening::{Outcome, Poly};
use lra_row::opposite;

/// Exact if nothing was lost.
pub fn exactness_of(outcome: &Outcome) -> Exactness
    ensures { result ≡ exactness_of outcome.now }
{
    match outcome {
        Outcome::Exact => Exactness::Exact,
        Outcome::Flagged(_) => Exactness::Flagged,
    }
}

/// Whether the first lies in the second.
#[tactic(auto, using(crate::proofs::InsideLemmas::outside))]
pub fn included(p: &Poly, q: &Poly) -> Included
    requires { q.now.dims ≡ p.now.dims }
    ensures { PolyhedronAnswers p.now q.now result }
{
    let _canonical = p.rows(); // fact: p's lists are canonical
    match p.included(q) {
        Inclusion::Yes => Included::Yes,
        Inclusion::No(_) => Included::No,
        Inclusion::Wide(_, _) => Included::Wide,
    }
}

/// The greatest whole number that isn't above the greatest value, if there is such a value.
pub fn rounded_down(maximum: Maximum) -> Option<i128>
    requires { ValueInRange maximum }
    ensures down { result ≡ rounded_down maximum }
    ensures range { IfSome result InRange }
{
    match maximum {
        Maximum::At { num, den, place: _ } => Some(num.div_euclid(den)),
        Maximum::Empty => None,
        Maximum::Wide { place: _ } => None,
        Maximum::Unbounded { place: _ } => None,
    }
}

/// The number with its sign turned, if there is one.
pub fn opposite_of(number: Option<i128>) -> Option<i128>
    requires { IfSome number InRange }
    ensures { result ≡ option_map neg_ℤ number }
{
    match number {
        Some(number) => Some(opposite(number)),
        None => None,
    }
}
