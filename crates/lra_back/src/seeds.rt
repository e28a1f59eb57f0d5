//! Where going back begins: what an assertion's forward value leaves if its condition is false.

ghost use Rattle.std.specs.Prelude.{◌≡◌, ◌≤◌, ℕ, [], ◌∷◌, map, false, Some, IfOk};
ghost use Rattle.lra_program.specs.Program as program;
ghost use Rattle.lra_program.specs.{ProgramViews.cond_view, Step.test};
ghost use Rattle.lra_operations.specs.Tree.{Node};
ghost use Rattle.lra_back.specs.Crates.lra_path_segments.TreeSegmentViews.{move_view, seen, tree_segment_view};
ghost use Rattle.lra_back.specs.Crates.{lra_analysis_spec.LiveLimit.most_live, lra_analysis_spec.Pass.Filters};
ghost use Rattle.lra_back.specs.Crates.{lra_path_segments.Segments.does, lra_path_segments.TreeSegments.AreSegmentsOf};
ghost use Rattle.lra_back.specs.BackwardCalls.{is_violation, condition_seen};
ghost use Rattle.lra_back.specs.{BackwardAnalysis.IsAsserted, Operations.lossy_back_operations};

use crate::paths::PreValue;
use lra_domain::{Backward, Exactness};
use lra_operations::Op;
use lra_pass_results::filter_condition;
use lra_paths::{End, Goal, Move, TreeSegment};
use lra_program::Cond;
use std::alloc::{AllocError, Global};

/// A condition; the base is where the variables of its call begin.
#[derive(Clone, Copy)]
pub struct Asserted<'g> {
    pub base: usize,
    pub condition: &'g Cond,
}

/// Whether the segment leads from the point to where its assertion is false.
fn is_violation(stretch: &TreeSegment<'_>, point: usize) -> bool
    ensures { result ≡ is_violation point (tree_segment_view stretch.now) }
{
    if stretch.source != Some(point) {
        return false;
    }
    match stretch.end {
        End::Exits(_) => false,
        End::Reaches(Goal::ComesTo(_)) => false,
        End::Reaches(Goal::Violates(denied)) => denied == point,
    }
}

/// The condition that the move tests, if it does.
fn tested<'g>(step: Move<'g>) -> Option<Asserted<'g>>
    ensures { (base : ℕ) (c : program.Cond) → move_view step.entry ≡ does (test base c false) →
        condition_seen result ≡ Some (base, c) }
{
    match step {
        Move::Test(base, condition, _) => Some(Asserted { base, condition }),
        Move::Change(Op::Test(base, condition, _)) => Some(Asserted {
            base: *base,
            condition,
        }),
        _ => None,
    }
}

/// The condition that the first of the moves tests, if it does.
fn first_tested<'g>(moves: &[Move<'g>]) -> Option<Asserted<'g>>
    ensures { (base : ℕ) (c : program.Cond) →
        map move_view moves.now ≡ does (test base c false) ∷ [] →
        condition_seen result ≡ Some (base, c) }
{
    match moves.first() {
        None => None,
        Some(step) => tested(*step),
    }
}

/// The condition that is asserted at the point.
pub fn find_asserted<'g>(ways: &[TreeSegment<'g>], point: usize) -> Option<Asserted<'g>>
    ensures { (g : Node) (base : ℕ) (c : program.Cond) → AreSegmentsOf (seen ways.now) g →
        IsAsserted g point base c → condition_seen result ≡ Some (base, c) }
{
    'ways: for stretch in ways {
        if is_violation(stretch, point) {
            return first_tested(stretch.moves.as_slice());
        }
    }
    None
}

/// What the value leaves if the condition is false.
pub fn restrict_to_violation<D: Backward>(
    alloc: Global,
    asserted: Asserted<'_>,
    value: &D,
) -> Result<PreValue<D>, AllocError>
    requires { D.abstraction.dims value.now ≤ most_live }
    ensures leaves { IfOk result
        (λ r. Filters (lossy_back_operations D.abstraction D.backward_abstraction).forward
        asserted.entry.base (cond_view asserted.entry.condition.now) false
        value.now r.exactness r.value) }
    ensures dims { IfOk result (λ r. D.abstraction.dims r.value ≡ D.abstraction.dims value.now) }
{
    let Asserted { base, condition } = asserted;
    let mut seed = value.copy(alloc)?;
    let exactness = filter_condition(alloc, base, condition, false, &mut seed, Exactness::Exact)?;
    Ok(PreValue {
        value: seed,
        exactness,
    })
}
