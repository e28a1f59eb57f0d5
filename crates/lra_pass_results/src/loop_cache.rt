//! What is kept of loops that stand inside others.

ghost use Rattle.std.specs.Prelude.{◌≡◌, ◌<◌, ℕ, [], Option, Some, length, slice_index_or, IfOk, OnOk};
ghost use Rattle.lra_operations.specs.Tree.{Node};
ghost use Rattle.lra_pass_results.specs.Crates.lra_analysis_spec.Plan.{Plan};
ghost use Rattle.lra_pass_results.specs.LoopCache.{IsRecalled, AreRecalled, MayRecall};
ghost use Rattle.lra_pass_results.specs.Outcome.{outcome_view, IsKept};
ghost use Rattle.lra_pass_results.specs.declared.loop_cache.CachedLoop.{CachedLoop};

use crate::outcome::PassOutcome;
use lra_transfer::{Domain, Interfere};
use std::alloc::{AllocError, Global};

/// A loop's last pass: the number of its point, its first value, and what it gave.
pub struct CachedLoop<D> {
    pub point: usize,
    pub first: D,
    pub outcome: PassOutcome<D>,
}

impl<D: Drop> Drop for CachedLoop<D> {
    fn drop(self) {
        let CachedLoop {
            point: _,
            first: _,
            outcome: _,
        } = self;
    }
}

/// The last passes of loops that stand inside one that is under way, and how many are under way.
pub struct LoopCache<D> {
    pub kept: Vec<CachedLoop<D>>,
    pub depth: usize,
}

impl<D: Drop> Drop for LoopCache<D> {
    fn drop(self) {
        let LoopCache { kept: _, depth: _ } = self;
    }
}

/// Where the loop of this point is among the kept ones.
fn find_kept<D: Drop>(kept: &[CachedLoop<D>], point: usize) -> Option<usize>
    ensures inside { (place : ℕ) → result ≡ Some place → place < length kept.now }
    ensures point { (place : ℕ) (none : CachedLoop D) → result ≡ Some place →
        (slice_index_or kept.now place none).point ≡ point }
{
    for (place, one) in kept.iter().enumerate() {
        if one.point == point {
            return Some(place);
        }
    }
    None
}

impl<D: Drop> LoopCache<D> {
    /// No loop is under way.
    pub fn nothing(alloc: Global) -> LoopCache<D>
        ensures { result.kept.items ≡ [] }
    {
        LoopCache {
            kept: Vec::new(alloc),
            depth: 0,
        }
    }
}

impl<D: Domain> LoopCache<D> {
    /// This pass takes the place of the same loop's last one.
    fn keep<F: Interfere<D>>(&mut self, one: CachedLoop<D>) -> Result<(), AllocError>
        ensures { (others : F) (plan : Plan) (loops : ℕ → Node) (f : Option ℕ) →
            MayRecall (F.interference others) D.abstraction plan loops f self.old →
            IsRecalled (F.interference others) D.abstraction plan loops f one →
            OnOk result (MayRecall (F.interference others) D.abstraction plan loops f self.new) }
    {
        match find_kept(&self.kept, one.point) {
            Some(place) => self.kept[place] = one,
            None => self.kept.push(one)?,
        }
        Ok(())
    }

    /// What the loop of this point gave, if it began with the same value: passed again it would give the same, but
    /// for what is flagged so far.
    fn recall<F: Interfere<D>>(
        &self,
        alloc: Global,
        point: usize,
        first: &D,
        flag: Option<usize>,
    ) -> Result<Option<PassOutcome<D>>, AllocError>
        ensures { (others : F) (plan : Plan) (loops : ℕ → Node) →
            MayRecall (F.interference others) D.abstraction plan loops flag self.now →
            IfOk result (λ r. AreRecalled (F.interference others) D.abstraction plan (loops point)
            flag
            first.now r) }
    {
        let Some(place) = find_kept(&self.kept, point) else {
            return Ok(None);
        };
        let one = &self.kept[place];
        if !one.first.same(first) {
            return Ok(None);
        }
        let outcome = one.outcome.copy(alloc, flag)?;
        Ok(Some(outcome))
    }

    /// What is kept of this loop, if it began with the same value; else it is under way from now on.
    pub fn begin<F: Interfere<D>>(
        &mut self,
        alloc: Global,
        point: usize,
        first: &D,
        flag: Option<usize>,
    ) -> Result<Option<PassOutcome<D>>, AllocError>
        ensures given { (others : F) (plan : Plan) (loops : ℕ → Node) →
            MayRecall (F.interference others) D.abstraction plan loops flag self.old →
            IfOk result (λ r. AreRecalled (F.interference others) D.abstraction plan (loops point)
            flag
            first.now r) }
        ensures kept { self.new.kept ≡ self.old.kept }
    {
        let given = self.recall::<F>(alloc, point, first, flag)?;
        if given.is_none() {
            self.depth = self.depth.saturating_add(1);
        }
        Ok(given)
    }

    /// The loop of this point is left: what it gave is kept if it stands inside another, and else nothing is.
    pub fn end<F: Interfere<D>>(
        &mut self,
        alloc: Global,
        point: usize,
        first: D,
        outcome: &PassOutcome<D>,
    ) -> Result<(), AllocError>
        ensures { (others : F) (plan : Plan) (loops : ℕ → Node) →
            MayRecall (F.interference others) D.abstraction plan loops outcome.now.flag self.old →
            IsKept (F.interference others) D.abstraction plan (loops point) outcome.now.flag first
            (outcome_view outcome.now) →
            OnOk result (MayRecall (F.interference others) D.abstraction plan loops outcome.now.flag
            self.new) }
    {
        self.depth = self.depth.saturating_sub(1);
        if self.depth == 0 {
            self.kept = Vec::new(alloc);
            return Ok(());
        }
        let outcome = outcome.copy(alloc, outcome.flag)?;
        self.keep::<F>(CachedLoop {
            point,
            first,
            outcome,
        })
    }
}
