//! The pass over trees with no tree in them: others don't act there, so that it is the same among any.

ghost use Rattle.std.specs.Prelude.{◌≡◌, ◌≤◌, IfOk, OnOk};
ghost use Rattle.lra_pass_results.specs.Crates.lra_domain.Interference.{no_interference};
ghost use Rattle.lra_pass_results.specs.Crates.lra_program.ProgramViews.{cond_view};
ghost use Rattle.lra_pass_results.specs.Crates.{lra_analysis_spec.LiveLimit.most_live, lra_analysis_spec.Plan.Plan};
ghost use Rattle.lra_operations.specs.Tree.{act, check, leave, point as point_node};
ghost use Rattle.lra_operations.specs.TreeViews.{exit_view, op_view};
ghost use Rattle.lra_transfer.specs.Changes.{OpFitsDims};
ghost use Rattle.lra_pass_results.specs.Outcome.{outcome_view, IsPassed};
ghost use Rattle.lra_pass_results.specs.{Dimensions.TreeFits, Flat.Follows, TreeForms.leaf_view};

use crate::outcome::{PassEntry, PassOutcome, note};
use crate::plan::Plan;
use crate::tree_forms::Leaf;
use lra_operations::{Exit, Op};
use lra_program::Cond;
use lra_transfer::{Domain, Exactness, Kept, split, transfer_op};
use std::alloc::{AllocError, Global};

/// A point: its value is found.
fn pass_point<D: Domain>(
    alloc: Global,
    point: usize,
    so_far: &mut PassOutcome<D>,
) -> Result<(), AllocError>
    ensures { (plan : Plan) →
        OnOk result (Follows no_interference D.abstraction plan (point_node point)
        so_far.old so_far.new) }
{
    let value = so_far.normal.copy(alloc)?;
    so_far.found.entries.push(PassEntry::Value(point, value))?;
    Ok(())
}

/// A least change.
fn pass_act<D: Domain>(
    alloc: Global,
    point: usize,
    op: &Op,
    so_far: &mut PassOutcome<D>,
) -> Result<(), AllocError>
    requires few { D.abstraction.dims so_far.old.normal ≤ most_live }
    requires fits { OpFitsDims (op_view op.now) (D.abstraction.dims so_far.old.normal) }
    ensures { (plan : Plan) → OnOk result (Follows no_interference D.abstraction plan
        (act point (op_view op.now)) so_far.old so_far.new) }
{
    let exactness = transfer_op(alloc, op, &mut so_far.normal)?;
    so_far.flag = note(point, exactness, so_far.flag);
    Ok(())
}

/// An assertion: where its condition is false, and then where it is true.
fn pass_check<D: Domain>(
    alloc: Global,
    point: usize,
    base: usize,
    condition: &Cond,
    so_far: &mut PassOutcome<D>,
) -> Result<(), AllocError>
    requires { D.abstraction.dims so_far.old.normal ≤ most_live }
    ensures { (plan : Plan) → OnOk result (Follows no_interference D.abstraction plan
        (check point base (cond_view condition.now)) so_far.old so_far.new) }
{
    let from = Kept {
        value: so_far.normal.copy(alloc)?,
        exactness: Exactness::Exact,
    };
    let sides = split(alloc, base, condition, from)?;
    let on = sides.on;
    let off = sides.off;
    so_far
        .found
        .entries
        .push(PassEntry::Failing(point, off.value))?;
    so_far.normal = on.value;
    so_far.flag = note(point, on.exactness, note(point, off.exactness, so_far.flag));
    Ok(())
}

/// A jump: it takes the value.
fn pass_leave<D: Domain>(
    alloc: Global,
    plan: &Plan,
    live: usize,
    exit: Exit,
    so_far: &mut PassOutcome<D>,
) -> Result<(), AllocError>
    requires parts { 1 ≤ plan.now.parts }
    requires few { live ≤ most_live }
    ensures { OnOk result
        (Follows no_interference D.abstraction plan.now (leave live (exit_view exit))
        so_far.old so_far.new) }
{
    let nothing = D::empty(alloc, live, plan.parts())?;
    so_far.jump(exit, nothing)?;
    Ok(())
}

/// What the pass of a tree with no tree in it finds comes after what was found before it.
pub fn pass_on<D: Domain>(
    alloc: Global,
    plan: &Plan,
    leaf: &Leaf<'_>,
    so_far: &mut PassOutcome<D>,
) -> Result<(), AllocError>
    requires parts { 1 ≤ plan.now.parts }
    requires few { D.abstraction.dims so_far.old.normal ≤ most_live }
    requires fits { TreeFits (leaf_view leaf.now) (D.abstraction.dims so_far.old.normal) }
    ensures { OnOk result (Follows no_interference D.abstraction plan.now (leaf_view leaf.now)
        so_far.old so_far.new) }
{
    match leaf {
        Leaf::Empty => Ok(()),
        Leaf::Point(point) => pass_point(alloc, *point, so_far),
        Leaf::Act(point, op) => pass_act(alloc, *point, op, so_far),
        Leaf::Check(point, base, condition) => pass_check(alloc, *point, *base, condition, so_far),
        Leaf::Leave(live, exit) => pass_leave(alloc, plan, *live, *exit, so_far),
    }
}

/// The pass over a tree with no tree in it.
pub fn pass_leaf<D: Domain>(
    alloc: Global,
    plan: &Plan,
    leaf: &Leaf<'_>,
    value: D,
    flag: Option<usize>,
) -> Result<PassOutcome<D>, AllocError>
    requires parts { 1 ≤ plan.now.parts }
    requires few { D.abstraction.dims value ≤ most_live }
    requires fits { TreeFits (leaf_view leaf.now) (D.abstraction.dims value) }
    ensures { IfOk result
        (λ r. IsPassed no_interference D.abstraction plan.now (leaf_view leaf.now) flag value
        (outcome_view r)) }
{
    let mut outcome = PassOutcome::nothing_yet(alloc, value, flag);
    pass_on(alloc, plan, leaf, &mut outcome)?;
    Ok(outcome)
}
