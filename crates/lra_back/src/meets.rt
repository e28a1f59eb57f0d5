//! The last heads' values, met with the forward values.

ghost use Rattle.std.specs.Prelude.{◌≡◌, ◌≢◌, ℕ, true, length, Some, slice_get, IfOk};
ghost use Rattle.lra_domain.specs.{Abstraction.worse, declared.Exactness.Exactness};
ghost use Rattle.lra_back.specs.BackwardCalls.{AreHeads, IsBackwardSolution, IsTask, task_view};
ghost use Rattle.lra_back.specs.{Operations.lossy_back_operations, Rounds.AreBackwardValues};

use crate::heads::start_all;
use crate::paths::PreValue;
use crate::rounds::BackwardState;
use crate::tasks::Task;
use lra_domain::{Backward, worse};
use lra_pass_results::note;
use std::alloc::{AllocError, Global};

/// The values at the points, and the first flagged point.
#[derive(Drop)]
pub struct BackwardValues<D> {
    pub values: Vec<D>,
    pub flag: Option<usize>,
}

/// The head's value, met with the forward value.
fn meet_one<D: Backward>(
    alloc: Global,
    head: &D::Head,
    forward: &D,
) -> Result<PreValue<D>, AllocError>
    requires { D.abstraction.head_dims head.now ≡ D.abstraction.dims forward.now }
    ensures met { IfOk result (λ r. (v : D) × (c d : Exactness) ×
        (lossy_back_operations D.abstraction D.backward_abstraction).forward.valued head.now c v ×
        (lossy_back_operations D.abstraction D.backward_abstraction).meet v forward.now d r.value
        × (r.exactness ≡ worse c d)) }
    ensures dims { IfOk result (λ r. D.abstraction.dims r.value ≡ D.abstraction.dims forward.now) }
{
    let (mut value, valued) = D::value(alloc, head)?;
    let met = value.meet(forward)?;
    Ok(PreValue {
        value,
        exactness: worse(valued, met),
    })
}

/// The value of each head, met with the forward value at its point, from the first point to the last.
pub fn meet_all<D: Backward>(
    alloc: Global,
    going: &BackwardState<D::Head>,
    forward: &[D],
) -> Result<BackwardValues<D>, AllocError>
    requires { AreHeads D.abstraction forward.now going.now.heads.items }
    ensures met { IfOk result
        (λ r. AreBackwardValues (lossy_back_operations D.abstraction D.backward_abstraction) 0
        going.now.flag
        going.now.heads.items forward.now r.flag r.values.items) }
    ensures count { IfOk result (λ r. length r.values.items ≡ length forward.now) }
    ensures dims { IfOk result (λ r. (p : ℕ) (x v : D) → slice_get forward.now p ≡ Some x →
        slice_get r.values.items p ≡ Some v → D.abstraction.dims v ≡ D.abstraction.dims x) }
{
    let mut values = Vec::new(alloc);
    let mut flag = going.flag;
    'points: for (point, value) in forward.iter().enumerate() {
        let found = meet_one(alloc, &going.heads[point], value)?;
        flag = note(point, found.exactness, flag);
        values.push(found.value)?;
    }
    Ok(BackwardValues { values, flag })
}

/// For so many points, that none of them is settled.
fn none_settled(alloc: Global, count: usize) -> Result<Vec<bool>, AllocError>
    ensures count { IfOk result (λ v. length v.items ≡ count) }
    ensures none { IfOk result (λ v. (p : ℕ) → slice_get v.items p ≢ Some true) }
{
    let mut settled = Vec::new(alloc);
    'points: for _point in 0..count {
        settled.push(false)?;
    }
    Ok(settled)
}

impl<D: Backward> Task<'_, D> {
    /// All rounds, and then the meets, from heads that start with nothing.
    pub fn go_back(&self, flag: Option<usize>) -> Result<BackwardValues<D>, AllocError>
        requires { IsTask D.abstraction self.now }
        ensures gone { IfOk result
            (λ r. IsBackwardSolution (lossy_back_operations D.abstraction D.backward_abstraction)
            (task_view self.now) flag r.values.items r.flag) }
        ensures count { IfOk result (λ r.
            length r.values.items ≡ length self.now.forward.now) }
        ensures dims { IfOk result (λ r. (p : ℕ) (x v : D) →
            slice_get self.now.forward.now p ≡ Some x →
            slice_get r.values.items p ≡ Some v → D.abstraction.dims v ≡ D.abstraction.dims x) }
    {
        let mut going = BackwardState {
            heads: start_all(self.alloc, self.forward)?,
            flag,
            settled: none_settled(self.alloc, self.forward.len())?,
        };
        self.iterate_rounds(&mut going)?;
        meet_all(self.alloc, &going, self.forward)
    }
}
