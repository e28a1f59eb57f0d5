//! Heads: one for each point, which starts with nothing and grows by the point's next values.

ghost use Rattle.std.specs.Prelude.{◌≡◌, ◌≢◌, ◌≤◌, ◌<◌, ◌^◌, ℕ, true, false, Some, slice_get, IfOk, OnOk};
ghost use Rattle.lra_domain.specs.{Rank.RankFits, declared.Mode.TheVariants.Join};
ghost use Rattle.lra_back.specs.Rounds.{AreStarted, StaysOrGrows, no_rows};
ghost use Rattle.lra_back.specs.{BackwardCalls.AreHeads, BackwardCalls.rank_of, Operations.lossy_back_operations};

use lra_domain::{Backward, ConSys, Exactness, Grown, Mode};
use std::alloc::{AllocError, Global};

/// How a head took a value: whether it was stable, and the exactness of its growth.
#[derive(Clone, Copy)]
pub struct Growth {
    pub is_stable: bool,
    pub exactness: Exactness,
}

/// A head that starts with an empty value of so many dimensions.
fn start<D: Backward>(alloc: Global, dims: usize) -> Result<D::Head, AllocError>
    requires { dims ≤ 2 ^ 30 }
    ensures starts { IfOk result (λ h. (v : D) ×
        (lossy_back_operations D.abstraction D.backward_abstraction).forward.bottom dims 1 v ×
        (lossy_back_operations D.abstraction D.backward_abstraction).forward.started v
        (no_rows dims) h) }
    ensures dims { IfOk result (λ h. D.abstraction.head_dims h ≡ dims) }
    ensures fits { IfOk result (λ h. RankFits (D.abstraction.rank h)) }
{
    let nothing = D::empty(alloc, dims, 1)?;
    let given = ConSys::new(alloc, dims);
    let head = D::start(alloc, &nothing, &given)?;
    Ok(head)
}

/// The heads of all points.
pub fn start_all<D: Backward>(alloc: Global, forward: &[D]) -> Result<Vec<D::Head>, AllocError>
    requires { (p : ℕ) (x : D) → slice_get forward.now p ≡ Some x → D.abstraction.dims x ≤ 2 ^ 30 }
    ensures started { IfOk result (λ heads.
        AreStarted (lossy_back_operations D.abstraction D.backward_abstraction) forward.now
        heads.items) }
    ensures heads { IfOk result (λ heads. AreHeads D.abstraction forward.now heads.items) }
{
    let mut heads = Vec::new(alloc);
    'points: for value in forward {
        let head = start::<D>(alloc, value.dims())?;
        heads.push(head)?;
    }
    Ok(heads)
}

/// The head grows by the value, unless it is stable under it.
pub fn grow<D: Backward>(head: &mut D::Head, next: &D, mode: Mode) -> Result<Growth, AllocError>
    requires { D.abstraction.dims next.now ≡ D.abstraction.head_dims head.old }
    ensures grows { IfOk result
        (λ g. StaysOrGrows (lossy_back_operations D.abstraction D.backward_abstraction)
        mode head.old next.now g.exactness g.is_stable head.new) }
    ensures dims { D.abstraction.head_dims head.new ≡ D.abstraction.head_dims head.old }
    ensures fits { OnOk result (RankFits (D.abstraction.rank head.new)) }
    ensures stable { IfOk result (λ g. g.is_stable ≡ true → head.new ≡ head.old) }
    ensures falls { IfOk result (λ g. g.is_stable ≡ false → mode ≢ Join →
        rank_of D.abstraction head.new < rank_of D.abstraction head.old) }
{
    match D::grow(head, next, mode)? {
        Grown::Stable => Ok(Growth {
            is_stable: true,
            exactness: Exactness::Exact,
        }),
        Grown::Grew(exactness) => Ok(Growth {
            is_stable: false,
            exactness,
        }),
    }
}
