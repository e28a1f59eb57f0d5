//! What is gone back over, and the next value of a point.

ghost use Rattle.std.specs.Prelude.{◌≡◌, ◌≤◌, ◌<◌, ◌^◌, ℕ, length, Some, None, slice_get, IfOk};
ghost use Rattle.lra_domain.specs.{Abstraction.worse, declared.Exactness.Exactness};
ghost use Rattle.lra_back.specs.Crates.lra_analysis_spec.Pass.{RunsFrom};
ghost use Rattle.lra_back.specs.BackwardCalls.{AreHeads, IfThereHas, IsNextAt, IsTask, task_view};
ghost use Rattle.lra_back.specs.{Operations.lossy_back_operations, Preconditions.JoinsSeed, Rounds.seed_at};

use crate::paths::{Joined, PreValue, join_to, pre_of_all_points};
use lra_domain::{Backward, worse};
use lra_paths::Source;
use std::alloc::{AllocError, Global};

/// What is gone back over: the paths from each point, the forward values at the points, and the assertion with the
/// value at which it is false.
#[derive(Drop)]
pub struct Task<'g, D> {
    pub alloc: Global,
    pub sources: Vec<Source>,
    pub forward: &'g [D],
    pub assertion: usize,
    pub seed: D,
}

/// What was found, or the empty value of so many dimensions if nothing was.
fn or_empty<D: Backward>(alloc: Global, dims: usize, found: Option<D>) -> Result<D, AllocError>
    requires few { dims ≤ 2 ^ 30 }
    requires has { IfThereHas D.abstraction dims found }
    ensures runs { IfOk result (λ v.
        RunsFrom (lossy_back_operations D.abstraction D.backward_abstraction).forward dims 1 found
        v) }
    ensures dims { IfOk result (λ v. D.abstraction.dims v ≡ dims) }
{
    match found {
        None => D::empty(alloc, dims, 1),
        Some(value) => Ok(value),
    }
}

impl<D: Backward> Task<'_, D> {
    /// At the assertion the seed comes last.
    fn join_seed(&self, point: usize, so_far: Joined<D>) -> Result<Joined<D>, AllocError>
        requires { point ≡ self.now.assertion →
            IfThereHas D.abstraction (D.abstraction.dims self.now.seed) so_far.value }
        ensures joins { IfOk result (λ r. (e : Exactness) ×
            JoinsSeed (lossy_back_operations D.abstraction D.backward_abstraction)
            (seed_at (task_view self.now) point)
            so_far.value e r.value ×
            (r.exactness ≡ worse so_far.exactness e)) }
        ensures dims { (n : ℕ) → IfThereHas D.abstraction n so_far.value →
            (point ≡ self.now.assertion → D.abstraction.dims self.now.seed ≡ n) →
            IfOk result (λ r. IfThereHas D.abstraction n r.value) }
    {
        if point != self.assertion {
            return Ok(so_far);
        }
        let Joined { value, exactness } = so_far;
        let seed = self.seed.copy(self.alloc)?;
        let all = join_to(value, seed)?;
        Ok(Joined {
            exactness: worse(exactness, all.exactness),
            value: Some(all.value),
        })
    }

    /// The next value of the point, over the heads as they are: what its paths bring back, and last the seed; if there
    /// is none of both, it is empty.
    pub fn next(&self, point: usize, heads: &[D::Head]) -> Result<PreValue<D>, AllocError>
        requires task { IsTask D.abstraction self.now }
        requires heads { AreHeads D.abstraction self.now.forward.now heads.now }
        requires point { point < length self.now.forward.now }
        ensures next { IfOk result
            (λ r. IsNextAt (lossy_back_operations D.abstraction D.backward_abstraction)
            (task_view self.now) point heads.now r.exactness r.value) }
        ensures dims { (h : D.Head) → slice_get heads.now point ≡ Some h → IfOk result (λ r.
            D.abstraction.dims r.value ≡ D.abstraction.head_dims h) }
    {
        let forward = &self.forward[point];
        let joined = pre_of_all_points(self.alloc, &self.sources[point], heads, forward)?;
        let Joined { value, exactness } = self.join_seed(point, joined)?;
        let value = or_empty(self.alloc, forward.dims(), value)?;
        Ok(PreValue { value, exactness })
    }
}
