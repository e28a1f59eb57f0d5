//! A loop's head while it grows.

ghost use Rattle.std.specs.Prelude.{◌≡◌, ◌<◌, ◌≤◌, ◌^◌, true, false, IfOk};
ghost use Rattle.lra_pass_results.specs.Crates.lra_analysis_spec.Operations.{lossy_operations};
ghost use Rattle.lra_pass_results.specs.Crates.lra_analysis_spec.Thresholds.{loop_thresholds};
ghost use Rattle.lra_pass_results.specs.Crates.lra_program.ProgramViews.{cond_view};
ghost use Rattle.lra_pass_results.specs.Crates.{lra_analysis_spec.LiveLimit.most_live, lra_analysis_spec.Plan.mode_at};
ghost use Rattle.lra_pass_results.specs.Crates.{lra_domain.Rank.RankFits, lra_domain.declared.Exactness.Exactness};
ghost use Rattle.lra_operations.specs.TreeViews.{node_view};
ghost use Rattle.lra_pass_results.specs.{Heads.IsValued, Heads.GrowsBy, Outcome.outcome_view};

use crate::outcome::{PassOutcome, note};
use crate::plan::Plan;
use crate::tree_forms::Loop;
use lra_transfer::{ConSys, Domain, Grown, Mode, guard_thresholds_of, thresholds_of};
use std::alloc::{AllocError, Global};

/// How a round grows the head, by how many rounds of joining are left.
fn mode_of(plan: &Plan, left: u32) -> Mode
    ensures { result ≡ mode_at plan.now.widening left }
{
    if left > 0 { Mode::Join } else { plan.mode() }
}

/// The rows that the loop's head is given, over so many live variables.
fn rows_of(alloc: Global, the_loop: &Loop<'_>, live: usize) -> Result<ConSys, AllocError>
    requires { live < 2 ^ 62 }
    ensures { IfOk result
        (λ s. s ≡ loop_thresholds the_loop.now.plan.now.widening live the_loop.now.base
        (cond_view the_loop.now.condition.now) (node_view the_loop.now.body.now)) }
{
    let (base, condition) = (the_loop.base, the_loop.condition);
    match the_loop.plan.thresholds() {
        None => guard_thresholds_of(alloc, live, base, condition),
        Some(constants) => thresholds_of(alloc, live, base, condition, the_loop.body, constants),
    }
}

/// A loop's head while it grows, its value, the first flagged point so far, and how many rounds of joining are left.
pub struct Growing<D, H> {
    pub head: H,
    pub value: D,
    pub flag: Option<usize>,
    pub left: u32,
}

impl<D: Drop, H: Drop> Drop for Growing<D, H> {
    fn drop(self) {
        let Growing {
            head: _,
            value: _,
            flag: _,
            left: _,
        } = self;
    }
}

impl<D: Drop, H: Drop> Growing<D, H> {
    /// The value alone.
    pub fn into_value(self) -> D
        ensures { result ≡ self.value }
    {
        let Growing {
            head: _,
            value,
            flag: _,
            left: _,
        } = self;
        value
    }
}

/// The head's value, and the first flagged point so far.
fn value_of<D: Domain>(
    alloc: Global,
    point: usize,
    head: &D::Head,
    flag: Option<usize>,
) -> Result<(D, Option<usize>), AllocError>
    ensures { IfOk result (λ r. IsValued D.abstraction point flag head.now r.0 r.1) }
{
    let (value, exactness) = D::value(alloc, head)?;
    Ok((value, note(point, exactness, flag)))
}

/// A loop's head, from its first value.
pub fn start<D: Domain>(
    alloc: Global,
    the_loop: &Loop<'_>,
    first: &D,
    flag: Option<usize>,
) -> Result<Growing<D, D::Head>, AllocError>
    requires { D.abstraction.dims first.now ≤ most_live }
    ensures started { IfOk result (λ h. (lossy_operations D.abstraction).started first.now
        (loop_thresholds the_loop.now.plan.now.widening (D.abstraction.dims first.now)
        the_loop.now.base
        (cond_view the_loop.now.condition.now) (node_view the_loop.now.body.now)) h.head) }
    ensures fits { IfOk result (λ h. RankFits (D.abstraction.rank h.head)) }
    ensures valued { IfOk result (λ h. IsValued D.abstraction the_loop.now.point flag h.head h.value h.flag) }
    ensures left { IfOk result (λ h. h.left ≡ the_loop.now.plan.now.delay) }
{
    let given = rows_of(alloc, the_loop, first.dims())?;
    let head = D::start(alloc, first, &given)?;
    let (value, inside) = value_of(alloc, the_loop.point, &head, flag)?;
    Ok(Growing {
        head,
        value,
        flag: inside,
        left: the_loop.plan.delay(),
    })
}

/// The head grows by what its round left, unless it is stable under that: whether it is.
pub fn grow_by<D: Domain>(
    alloc: Global,
    the_loop: &Loop<'_>,
    growing: &mut Growing<D, D::Head>,
    last: &PassOutcome<D>,
) -> Result<bool, AllocError>
    requires { D.abstraction.head_dims growing.old.head ≡ D.abstraction.dims last.now.normal }
    ensures same { IfOk result (λ stable. stable ≡ true → growing.new.value ≡ growing.old.value) }
    ensures stays { IfOk result (λ stable. stable ≡ true → (lossy_operations D.abstraction).stays growing.old.head
        last.now.normal (mode_at the_loop.now.plan.now.widening growing.old.left)) }
    ensures grew { IfOk result (λ stable. stable ≡ false → (a : Exactness) ×
        GrowsBy D.abstraction the_loop.now.plan.now.widening the_loop.now.point a growing.old (outcome_view last.now)
        growing.new) }
{
    let mode = mode_of(the_loop.plan, growing.left);
    match D::grow(&mut growing.head, &last.normal, mode)? {
        Grown::Stable => Ok(true),
        Grown::Grew(exactness) => {
            let so_far = note(the_loop.point, exactness, last.flag);
            let (value, inside) = value_of(alloc, the_loop.point, &growing.head, so_far)?;
            growing.value = value;
            growing.flag = inside;
            growing.left = growing.left.saturating_sub(1);
            Ok(false)
        }
    }
}
