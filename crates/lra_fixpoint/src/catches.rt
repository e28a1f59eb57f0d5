//! Jumps that come out of a tree.

ghost use Rattle.std.specs.Prelude.{◌≡◌, IfOk};
ghost use Rattle.lra_operations.specs.{Tree.broken, Tree.continued, Tree.returned, TreeViews.exit_view};
ghost use Rattle.lra_fixpoint.specs.Crates.lra_analysis_spec.Pass.{jumps_of};
ghost use Rattle.lra_pass_results.specs.Outcome.{outcome_view, AllHave, Catches};

use lra_interference_sound::Domain;
use lra_operations::Exit;
use lra_pass_results::{PassOutcome, join_all, note};
use std::alloc::{AllocError, Global};

/// `break` comes out here.
fn catch_breaks<D: Domain>(
    alloc: Global,
    point: usize,
    inner: PassOutcome<D>,
) -> Result<PassOutcome<D>, AllocError>
    requires { AllHave D.abstraction (D.abstraction.dims inner.normal) inner.found.breaks.items }
    ensures caught { IfOk result
        (λ r. Catches D.abstraction point broken (outcome_view inner) (outcome_view r)) }
    ensures dims { IfOk result
        (λ r. D.abstraction.dims r.normal ≡ D.abstraction.dims inner.normal) }
{
    let PassOutcome {
        mut found,
        mut normal,
        flag,
    } = inner;
    let jumps = found.take_breaks(alloc);
    let exactness = join_all(&mut normal, jumps.as_slice())?;
    Ok(PassOutcome {
        found,
        normal,
        flag: note(point, exactness, flag),
    })
}

/// `continue` comes out here.
fn catch_continues<D: Domain>(
    alloc: Global,
    point: usize,
    inner: PassOutcome<D>,
) -> Result<PassOutcome<D>, AllocError>
    requires { AllHave D.abstraction (D.abstraction.dims inner.normal) inner.found.continues.items }
    ensures caught { IfOk result
        (λ r. Catches D.abstraction point continued (outcome_view inner) (outcome_view r)) }
    ensures dims { IfOk result
        (λ r. D.abstraction.dims r.normal ≡ D.abstraction.dims inner.normal) }
{
    let PassOutcome {
        mut found,
        mut normal,
        flag,
    } = inner;
    let jumps = found.take_continues(alloc);
    let exactness = join_all(&mut normal, jumps.as_slice())?;
    Ok(PassOutcome {
        found,
        normal,
        flag: note(point, exactness, flag),
    })
}

/// `return` comes out here: what returned comes before the end of the call's body.
fn catch_returns<D: Domain>(
    alloc: Global,
    point: usize,
    inner: PassOutcome<D>,
) -> Result<PassOutcome<D>, AllocError>
    requires { AllHave D.abstraction (D.abstraction.dims inner.normal) inner.found.returns.items }
    ensures caught { IfOk result
        (λ r. Catches D.abstraction point returned (outcome_view inner) (outcome_view r)) }
    ensures dims { IfOk result
        (λ r. D.abstraction.dims r.normal ≡ D.abstraction.dims inner.normal) }
{
    let PassOutcome {
        mut found,
        normal,
        flag,
    } = inner;
    let mut jumps = found.take_returns(alloc);
    jumps.push(normal)?;
    let mut first = jumps.remove(0);
    let exactness = join_all(&mut first, jumps.as_slice())?;
    Ok(PassOutcome {
        found,
        normal: first,
        flag: note(point, exactness, flag),
    })
}

/// Jumps of this kind come out here, and are joined at this point.
pub fn catch_jumps<D: Domain>(
    alloc: Global,
    point: usize,
    exit: Exit,
    inner: PassOutcome<D>,
) -> Result<PassOutcome<D>, AllocError>
    requires { AllHave D.abstraction (D.abstraction.dims inner.normal)
        (jumps_of (exit_view exit) (outcome_view inner)) }
    ensures caught { IfOk result
        (λ r. Catches D.abstraction point (exit_view exit) (outcome_view inner) (outcome_view r)) }
    ensures dims { IfOk result
        (λ r. D.abstraction.dims r.normal ≡ D.abstraction.dims inner.normal) }
{
    match exit {
        Exit::Broken => catch_breaks(alloc, point, inner),
        Exit::Continued => catch_continues(alloc, point, inner),
        Exit::Returned => catch_returns(alloc, point, inner),
    }
}
