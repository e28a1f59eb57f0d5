//! Flags of results that are taken together.

ghost use Rattle.std.specs.Prelude.{◌≡◌, ◌⊎◌};
ghost use Rattle.lra_domain.specs.Abstraction.{worse};
ghost use Rattle.lra_domain.specs.declared.Exactness.TheVariants.{Exact, Flagged};

use crate::Exactness;

/// Flagged if one of the two is.
pub fn worse(one: Exactness, two: Exactness) -> Exactness
    ensures is { result ≡ worse one two }
    ensures exact { result ≡ Exact → (one ≡ Exact) × (two ≡ Exact) }
    ensures flagged { result ≡ Flagged → (one ≡ Flagged) ⊎ ((one ≡ Exact) × (two ≡ Flagged)) }
{
    match one {
        Exactness::Flagged => Exactness::Flagged,
        Exactness::Exact => two,
    }
}
