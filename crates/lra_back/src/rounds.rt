//! Rounds of going back: in each, from the last point to the first, the point's head grows by its next value.

ghost use Rattle.std.specs.Prelude.{◌≡◌, ◌≢◌, ◌≤◌, ◌<◌, ℕ, [], true, false, length, Some, slice_get, slice_set, IfOk};
ghost use Rattle.std.specs.Prelude.{OnOk};
ghost use Rattle.lra_domain.specs.declared.Mode.TheVariants.{Join, Widen};
ghost use Rattle.lra_back.specs.BackwardCalls.{AreHeads, IsTask, paths_from, ranks_of, task_view};
ghost use Rattle.lra_back.specs.Rounds.{IsUpdated, Round, Rounds, Widens};
ghost use Rattle.lra_back.specs.{Operations.lossy_back_operations, Settled.IsBackwardState, Settled.Settles};
ghost use Rattle.lra_back.specs.Crates.lra_path_disjuncts.Tables.{IsTable};

use crate::heads::grow;
use crate::tasks::Task;
use lra_domain::{Backward, Mode};
use lra_pass_results::note;
use lra_paths::{Goal, Source};
use std::alloc::AllocError;

/// The heads of the points, the first flagged point so far, and which points are settled: stable in a round that
/// widens, while no head to which their paths lead has grown since.
#[derive(Drop)]
pub struct BackwardState<H> {
    pub heads: Vec<H>,
    pub flag: Option<usize>,
    pub settled: Vec<bool>,
}

fn is_widening(mode: Mode) -> bool
    ensures widens { result ≡ true → mode ≡ Widen }
    ensures other { result ≡ false → mode ≢ Widen }
{
    match mode {
        Mode::Widen => true,
        Mode::Join => false,
        Mode::Limited => false,
        Mode::Tightest => false,
    }
}

/// Whether the point needs no turn in such a round.
fn is_settled(mode: Mode, point: usize, settled: &[bool]) -> bool
    ensures { result ≡ true → (mode ≡ Widen) × (slice_get settled.now point ≡ Some true) }
{
    if !is_widening(mode) {
        return false;
    }
    match settled.get(point) {
        None => false,
        Some(is) => *is,
    }
}

/// Whether paths lead from the source to the point.
fn leads_to(source: &Source, point: usize) -> bool
    requires { IsTable source.now.entries.items }
    ensures { result ≡ false → paths_from source.now point ≡ [] }
{
    source.count_to(Goal::ComesTo(point)) > 0
}

impl<D: Backward> Task<'_, D> {
    /// The point's head grows by the point's next value: whether it is stable.
    fn turn(
        &self,
        mode: Mode,
        point: usize,
        going: &mut BackwardState<D::Head>,
    ) -> Result<bool, AllocError>
        requires task { IsTask D.abstraction self.now }
        requires heads { AreHeads D.abstraction self.now.forward.now going.old.heads.items }
        requires point { point < length self.now.forward.now }
        ensures turns { IfOk result (λ stable. (k : D.Head) ×
            IsUpdated (lossy_back_operations D.abstraction D.backward_abstraction)
            (task_view self.now) mode point
            going.old.flag going.old.heads.items going.new.flag stable k ×
            (going.new.heads.items ≡ slice_set going.old.heads.items point k)) }
        ensures heads { OnOk result
            (AreHeads D.abstraction self.now.forward.now going.new.heads.items) }
        ensures settled { going.new.settled ≡ going.old.settled }
        ensures falls { IfOk result (λ stable. mode ≢ Join →
            (ranks_of D.abstraction going.new.heads.items ≤ ranks_of D.abstraction
            going.old.heads.items) ×
            (stable ≡ false →
            ranks_of D.abstraction going.new.heads.items < ranks_of D.abstraction
            going.old.heads.items)) }
    {
        let next = self.next(point, going.heads.as_slice())?;
        let growth = grow(&mut going.heads[point], &next.value, mode)?;
        let inside = note(point, next.exactness, going.flag);
        going.flag = note(point, growth.exactness, inside);
        Ok(growth.is_stable)
    }

    /// The point is settled no longer, nor is any point from which paths lead to it.
    fn unsettle(&self, point: usize, settled: &mut Vec<bool>)
        requires task { IsTask D.abstraction self.now }
        requires count { length settled.old.items ≡ length self.now.sources.items }
        ensures { Settles (task_view self.now) Widen point false
            settled.old.items settled.new.items }
    {
        'sources: for (other, source) in self.sources.iter().enumerate() {
            if other == point || leads_to(source, point) {
                settled[other] = false;
            }
        }
    }

    /// After a turn of the point, which left its head stable or not.
    fn settle(&self, mode: Mode, point: usize, stable: bool, settled: &mut Vec<bool>)
        requires task { IsTask D.abstraction self.now }
        requires count { length settled.old.items ≡ length self.now.sources.items }
        requires point { point < length settled.old.items }
        ensures { Settles (task_view self.now) mode point stable
            settled.old.items settled.new.items }
    {
        if !stable {
            self.unsettle(point, settled);
        } else if is_widening(mode) {
            settled[point] = true;
        }
    }

    /// The point is turned, unless it is settled: whether its head is stable.
    fn turn_unsettled(
        &self,
        mode: Mode,
        point: usize,
        going: &mut BackwardState<D::Head>,
    ) -> Result<bool, AllocError>
        requires task { IsTask D.abstraction self.now }
        requires going { IsBackwardState D.abstraction D.backward_abstraction self.now going.old }
        requires point { point < length self.now.forward.now }
        ensures turns { IfOk result (λ stable. (k : D.Head) ×
            IsUpdated (lossy_back_operations D.abstraction D.backward_abstraction)
            (task_view self.now) mode point
            going.old.flag going.old.heads.items going.new.flag stable k ×
            (going.new.heads.items ≡ slice_set going.old.heads.items point k)) }
        ensures going { OnOk result
            (IsBackwardState D.abstraction D.backward_abstraction self.now going.new) }
        ensures falls { IfOk result (λ stable. mode ≢ Join →
            (ranks_of D.abstraction going.new.heads.items ≤ ranks_of D.abstraction
            going.old.heads.items) ×
            (stable ≡ false →
            ranks_of D.abstraction going.new.heads.items < ranks_of D.abstraction
            going.old.heads.items)) }
    {
        if is_settled(mode, point, going.settled.as_slice()) {
            return Ok(true);
        }
        let stable = self.turn(mode, point, going)?;
        self.settle(mode, point, stable, &mut going.settled);
        Ok(stable)
    }

    /// All heads grow, from the last point to the first: whether all are stable.
    fn round(&self, mode: Mode, going: &mut BackwardState<D::Head>) -> Result<bool, AllocError>
        requires task { IsTask D.abstraction self.now }
        requires going { IsBackwardState D.abstraction D.backward_abstraction self.now going.old }
        ensures round { IfOk result (λ stable.
            Round (lossy_back_operations D.abstraction D.backward_abstraction) (task_view self.now)
            mode
            (length self.now.forward.now) going.old.flag going.old.heads.items
            going.new.flag stable going.new.heads.items) }
        ensures going { OnOk result
            (IsBackwardState D.abstraction D.backward_abstraction self.now going.new) }
        ensures falls { IfOk result (λ stable. mode ≢ Join → stable ≡ false →
            ranks_of D.abstraction going.new.heads.items < ranks_of D.abstraction
            going.old.heads.items) }
    {
        let mut all = true;
        'points: for point in (0..self.forward.len()).rev() {
            let own = self.turn_unsettled(mode, point, going)?;
            all = all && own;
        }
        Ok(all)
    }

    /// Rounds that widen, until all heads are stable in one.
    fn widen(&self, going: &mut BackwardState<D::Head>) -> Result<(), AllocError>
        requires task { IsTask D.abstraction self.now }
        requires going { IsBackwardState D.abstraction D.backward_abstraction self.now going.old }
        ensures widens { OnOk result ((more : ℕ) ×
            Widens (lossy_back_operations D.abstraction D.backward_abstraction) (task_view self.now)
            (length self.now.forward.now) more going.old.flag going.old.heads.items
            going.new.flag going.new.heads.items) }
        ensures going { OnOk result
            (IsBackwardState D.abstraction D.backward_abstraction self.now going.new) }
    {
        'rounds: loop {
            if self.round(Mode::Widen, going)? {
                return Ok(());
            }
        }
    }

    /// A round that joins, and then such that widen, until all heads are stable.
    pub fn iterate_rounds(&self, going: &mut BackwardState<D::Head>) -> Result<(), AllocError>
        requires task { IsTask D.abstraction self.now }
        requires going { IsBackwardState D.abstraction D.backward_abstraction self.now going.old }
        ensures rounds { OnOk result
            (Rounds (lossy_back_operations D.abstraction D.backward_abstraction)
            (task_view self.now)
            (length self.now.forward.now) going.old.flag going.old.heads.items
            going.new.flag going.new.heads.items) }
        ensures going { OnOk result
            (IsBackwardState D.abstraction D.backward_abstraction self.now going.new) }
    {
        if self.round(Mode::Join, going)? {
            Ok(())
        } else {
            self.widen(going)
        }
    }
}
