//! Going back over paths: from the head of their target to their source, from the last change of each to its first.

ghost use Rattle.std.specs.Prelude.{◌≡◌, Some, IfOk, OnOk};
ghost use Rattle.lra_domain.specs.{Abstraction.worse, declared.Exactness.Exactness};
ghost use Rattle.lra_back.specs.Crates.lra_analysis_spec.Pass.{JoinsRunning};
ghost use Rattle.lra_back.specs.Crates.lra_path_disjuncts.TableDisjuncts.{all_done, lists_done};
ghost use Rattle.lra_back.specs.BackwardCalls.{AllFit, PreAlongMet, FitHeads, Fits, IfThereHas, IsWritable, paths_from};
ghost use Rattle.lra_back.specs.Operations.{lossy_back_operations};
ghost use Rattle.lra_back.specs.Preconditions.{PreOfPaths, PreOfPath, PreOfAllPoints};

use crate::changes::pre_of_action;
use lra_domain::{Backward, Change, Exactness, worse};
use lra_paths::{Goal, Source};
use std::alloc::{AllocError, Global};

/// A value, with the exactness of what led to it.
#[derive(Drop)]
pub struct PreValue<D> {
    pub value: D,
    pub exactness: Exactness,
}

/// What is joined so far, if something is, with the exactness of all of it.
#[derive(Drop)]
pub struct Joined<D> {
    pub value: Option<D>,
    pub exactness: Exactness,
}

/// From the value after the path to the one before it, met with the forward value there.
fn go_over<D: Backward>(
    value: &mut D,
    path: &[&Change],
    forward: &D,
) -> Result<Exactness, AllocError>
    requires { Fits (all_done path.now) (D.abstraction.dims forward.now)
        (D.abstraction.dims value.old) }
    ensures comes { IfOk result
        (λ e. PreAlongMet (lossy_back_operations D.abstraction D.backward_abstraction)
        forward.now value.old (all_done path.now) e value.new) }
    ensures dims { OnOk result (D.abstraction.dims value.new ≡ D.abstraction.dims forward.now) }
{
    let mut all = Exactness::Exact;
    'changes: for index in (0..path.len()).rev() {
        let one = pre_of_action(value, path[index])?;
        all = worse(all, one);
    }
    let met = value.meet(forward)?;
    Ok(worse(all, met))
}

/// What the path brings back from its target's head.
fn come_back<D: Backward>(
    alloc: Global,
    target: &D::Head,
    path: &[&Change],
    forward: &D,
) -> Result<PreValue<D>, AllocError>
    requires { Fits (all_done path.now) (D.abstraction.dims forward.now)
        (D.abstraction.head_dims target.now) }
    ensures comes { IfOk result
        (λ r. PreOfPath (lossy_back_operations D.abstraction D.backward_abstraction)
        forward.now target.now (all_done path.now) r.exactness r.value) }
    ensures dims { IfOk result (λ r. D.abstraction.dims r.value ≡ D.abstraction.dims forward.now) }
{
    let (mut value, valued) = D::value(alloc, target)?;
    let gone = go_over(&mut value, path, forward)?;
    Ok(PreValue {
        value,
        exactness: worse(valued, gone),
    })
}

/// Joined to what came before, if something did.
pub fn join_to<D: Backward>(so_far: Option<D>, value: D) -> Result<PreValue<D>, AllocError>
    requires { IfThereHas D.abstraction (D.abstraction.dims value) so_far }
    ensures joins { IfOk result
        (λ r. JoinsRunning (lossy_back_operations D.abstraction D.backward_abstraction).forward
        so_far value r.exactness r.value) }
    ensures dims { IfOk result (λ r. D.abstraction.dims r.value ≡ D.abstraction.dims value) }
{
    match so_far {
        None => Ok(PreValue {
            value,
            exactness: Exactness::Exact,
        }),
        Some(mut all) => {
            let exactness = all.join(&value)?;
            Ok(PreValue {
                value: all,
                exactness,
            })
        }
    }
}

/// What the path brings back comes to what is joined so far.
fn join_path<D: Backward>(
    alloc: Global,
    target: &D::Head,
    path: &[&Change],
    forward: &D,
    so_far: Joined<D>,
) -> Result<Joined<D>, AllocError>
    requires fits { Fits (all_done path.now) (D.abstraction.dims forward.now)
        (D.abstraction.head_dims target.now) }
    requires so_far { IfThereHas D.abstraction (D.abstraction.dims forward.now) so_far.value }
    ensures joins { IfOk result (λ r. (u w : D) × (c d : Exactness) ×
        PreOfPath (lossy_back_operations D.abstraction D.backward_abstraction) forward.now
        target.now (all_done path.now) c u ×
        JoinsRunning (lossy_back_operations D.abstraction D.backward_abstraction).forward
        so_far.value u d w ×
        (r.value ≡ Some w) × (r.exactness ≡ worse so_far.exactness (worse c d))) }
    ensures dims { IfOk result
        (λ r. IfThereHas D.abstraction (D.abstraction.dims forward.now) r.value) }
{
    let found = come_back(alloc, target, path, forward)?;
    let Joined { value, exactness } = so_far;
    let all = join_to(value, found.value)?;
    Ok(Joined {
        exactness: worse(exactness, worse(found.exactness, all.exactness)),
        value: Some(all.value),
    })
}

/// What the paths bring back comes to what is joined so far, one after the other.
fn join_paths<D: Backward>(
    alloc: Global,
    target: &D::Head,
    paths: &[Vec<&Change>],
    forward: &D,
    so_far: Joined<D>,
) -> Result<Joined<D>, AllocError>
    requires fit { AllFit (lists_done paths.now) (D.abstraction.dims forward.now)
        (D.abstraction.head_dims target.now) }
    requires so_far { IfThereHas D.abstraction (D.abstraction.dims forward.now) so_far.value }
    ensures joins { IfOk result
        (λ r. (e : Exactness)
        × PreOfPaths (lossy_back_operations D.abstraction D.backward_abstraction)
        forward.now target.now (lists_done paths.now) so_far.value e r.value ×
        (r.exactness ≡ worse so_far.exactness e)) }
    ensures dims { IfOk result
        (λ r. IfThereHas D.abstraction (D.abstraction.dims forward.now) r.value) }
{
    let mut joined = so_far;
    'paths: for path in paths {
        joined = join_path(alloc, target, path.as_slice(), forward, joined)?;
    }
    Ok(joined)
}

/// What a source's paths bring back from the heads of all points, by the numbers of these.
pub fn pre_of_all_points<D: Backward>(
    alloc: Global,
    source: &Source,
    heads: &[D::Head],
    forward: &D,
) -> Result<Joined<D>, AllocError>
    requires writable { IsWritable source.now }
    requires fit { FitHeads D.abstraction source.now (D.abstraction.dims forward.now) heads.now }
    ensures comes { IfOk result
        (λ r. PreOfAllPoints (lossy_back_operations D.abstraction D.backward_abstraction)
        (paths_from source.now) forward.now 0 heads.now None r.exactness r.value) }
    ensures dims { IfOk result
        (λ r. IfThereHas D.abstraction (D.abstraction.dims forward.now) r.value) }
{
    let mut joined = Joined {
        value: None,
        exactness: Exactness::Exact,
    };
    'targets: for (point, target) in heads.iter().enumerate() {
        let paths = source.paths_to(alloc, Goal::ComesTo(point))?;
        joined = join_paths(alloc, target, paths.as_slice(), forward, joined)?;
    }
    Ok(joined)
}
