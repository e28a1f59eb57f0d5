//! Answers, taken together.

ghost use Rattle.std.specs.Prelude.{◌≡◌};
ghost use Rattle.lra_powerset.specs.Outcomes.{all_decided, both, either};

use lra_domain::{Exactness, Included};

/// Whether one of two is so.
pub fn either(one: Included, two: Included) -> Included
    ensures { result ≡ either one two }
{
    match (one, two) {
        (Included::Yes, _) | (_, Included::Yes) => Included::Yes,
        (Included::No, Included::No) => Included::No,
        _ => Included::Wide,
    }
}

/// Whether both are so.
pub fn both(one: Included, two: Included) -> Included
    ensures { result ≡ both one two }
{
    match (one, two) {
        (Included::No, _) | (_, Included::No) => Included::No,
        (Included::Yes, Included::Yes) => Included::Yes,
        _ => Included::Wide,
    }
}

/// Flagged if one of the answers is `Wide`.
pub fn exactness_of(answers: &[Included]) -> Exactness
    ensures { result ≡ all_decided answers.now }
{
    let Some((first, others)) = answers.split_first() else {
        return Exactness::Exact;
    };
    match *first {
        Included::Wide => Exactness::Flagged,
        Included::Yes | Included::No => exactness_of(others),
    }
}
