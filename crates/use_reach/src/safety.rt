//! Whether a run of steps reaches a bad store, given by an invariant.

ghost use Rattle.std.specs.Prelude.{◌≡◌, ◌≤◌, ◌^◌, ℤ, List, [], ◌∷◌, map, IfOk};
ghost use Rattle.guzhtarel.specs.Domains.Changes.{AllReturn, actions_of, actions_of_steps};
ghost use Rattle.use_reach.specs.Runs.{IsGiven, Reaches};

use guzhtarel::{Backward, Change, Domain, change_all};
use std::alloc::{AllocError, Global};
use use_fixpoint::invariant;

/// What is known of the bad stores.
#[derive(Clone, Copy, Debug, PartialEq, Eq)]
pub enum Answer {
    /// No run reaches one.
    Safe,
    /// One lies in the invariant, perhaps.
    Unknown,
}

/// A value of all stores to which the changes may lead from any store of `n` numbers.
fn given<D: Domain>(alloc: Global, n: usize, changes: &[Change]) -> Result<D, AllocError>
    requires few { n ≤ 2 ^ 30 }
    requires fit { AllReturn n (actions_of changes.now ∷ []) }
    ensures dims { IfOk result (λ v. D.abstraction.dims v ≡ n) }
    ensures stores { IfOk result (λ v. (s : List ℤ) → IsGiven n (actions_of changes.now) s → D.abstraction.gamma v s) }
{
    let mut value = D::universe(alloc, n, 1)?;
    change_all(&mut value, changes)?;
    Ok(value)
}

/// Whether a run of the steps leads from a store that `first` gives to one that `bad` gives, and the value that was
/// found to decide it; `delay` rounds join before others widen.
pub fn reach<D: Backward>(
    alloc: Global,
    n: usize,
    first: &[Change],
    steps: &[Vec<Change>],
    bad: &[Change],
    delay: u32,
) -> Result<(Answer, D), AllocError>
    requires few { n ≤ 2 ^ 30 }
    requires fit_first { AllReturn n (actions_of first.now ∷ []) }
    requires fit_steps { AllReturn n (actions_of_steps (map (λ p. p.items) steps.now)) }
    requires fit_bad { AllReturn n (actions_of bad.now ∷ []) }
    ensures dims { IfOk result (λ r. D.abstraction.dims r.1 ≡ n) }
    ensures safe { IfOk result (λ r. r.0 ≡ Answer.Safe → (s t : List ℤ) → IsGiven n (actions_of first.now) s →
        Reaches (actions_of_steps (map (λ p. p.items) steps.now)) s t →
        ¬ IsGiven n (actions_of bad.now) t) }
{
    let start = given::<D>(alloc, n, first)?;
    let value = invariant(alloc, &start, steps, delay)?;
    let mut met = given::<D>(alloc, n, bad)?;
    met.meet(&value)?;
    if met.is_empty() {
        return Ok((Answer::Safe, value));
    }
    Ok((Answer::Unknown, value))
}
