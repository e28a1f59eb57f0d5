//! Boxes as a domain.

ghost use Rattle.std.specs.Prelude.{◌≡◌, ◌↔◌, ◌≤◌, ◌<◌, ◌^◌, refl, IsTrue, ℤ, List, [], None, Some, slice_get};
ghost use Rattle.std.specs.Prelude.{slice_set};
ghost use Rattle.lra_box.specs.Abstraction.{box_abstraction, BoxGamma};
ghost use Rattle.lra_box.specs.Bounds.{EndsInRange, InInterval};
ghost use Rattle.lra_box.specs.{Tables.admitted, Tables.bound_at, declared.interval.Interval.Interval};

use crate::bounds::{
    Bounds, admit_in, assign_in, bounds_of, copy_bounds, embed_in, find_bound, forget_in,
    grow_bounds, is_same, is_within, join_bounds, rank_of, test_in, truncate_in, universe,
    wide_row,
};
use crate::interval::Interval;
use crate::parts::system_of;
use lra_domain::{
    BaseDomain, ConSys, Domain, ExactParts, Exactness, Grown, Included, LinExpr, Mode, Rank, Test,
};
use std::alloc::{AllocError, Global};
use std::marker::Model;

/// A box: empty, or an interval for each dimension, whose lower bound is at most its upper one.
pub struct Boxes {
    alloc: Global,
    dims: usize,
    bounds: Bounds,
}

impl Drop for Boxes {
    fn drop(self) {
        let Boxes {
            alloc: _,
            dims: _,
            bounds: _,
        } = self;
    }
}

impl Model for Boxes {
    ghost use Rattle.std.specs.Prelude.{◌≤◌, ◌^◌};
    ghost use Rattle.lra_box.specs.Content.{BoxContent, BoundsFit, BoundsAreValid, bounds_view};

    ghost Value = { BoxContent };

    ghost view = { λ b. record { dims = b.dims; bounds = bounds_view b.bounds } };

    ghost invariant = { λ b. (b.dims ≤ 2 ^ 30) × BoundsFit b.dims (bounds_view b.bounds)
        × BoundsAreValid (bounds_view b.bounds) };
}

impl Boxes {
    /// The bounds of dimension `x`; none exactly if the box is empty.
    pub fn bound(&self, x: usize) -> Option<Interval>
        requires { x < self.now.dims }
        ensures bound { result ≡ bound_at x self.now.bounds }
        ensures empty { (result ≡ None) ↔ ((s : List ℤ) → ¬ BoxGamma self.now s) }
        ensures holds { (i : Interval) (s : List ℤ) (z : ℤ) → result ≡ Some i →
            BoxGamma self.now s →
            slice_get s x ≡ Some z → InInterval i z }
    {
        find_bound(&self.bounds, x)
    }

    /// Dimension `x` may also have each value of the interval; an empty box stays empty.
    pub fn admit(&mut self, x: usize, interval: &Interval)
        requires place { x < self.old.dims }
        requires range { EndsInRange interval.now }
        ensures admitted { self.new ≡ admitted x interval.now self.old }
        ensures stores { (s : List ℤ) → BoxGamma self.old s → BoxGamma self.new s }
        ensures values { (s : List ℤ) (z : ℤ) → BoxGamma self.old s → InInterval interval.now z →
            BoxGamma self.new (slice_set s x z) }
    {
        admit_in(&mut self.bounds, x, interval);
    }
}

impl Domain for Boxes {
    type Head = Boxes;

    ghost abstraction = { box_abstraction };

    ghost use Rattle.lra_box.specs.Laws.{box_laws};

    ghost laws = { box_laws };

    fn universe(alloc: Global, n: usize, _cap: u32) -> Result<Self, AllocError> {
        Ok(Boxes {
            alloc,
            dims: n,
            bounds: universe(alloc, n)?,
        })
    }

    fn empty(alloc: Global, n: usize, _cap: u32) -> Result<Self, AllocError> {
        Ok(Boxes {
            alloc,
            dims: n,
            bounds: None,
        })
    }

    fn copy(&self, alloc: Global) -> Result<Self, AllocError> {
        Ok(Boxes {
            alloc,
            dims: self.dims,
            bounds: copy_bounds(alloc, &self.bounds)?,
        })
    }

    fn dims(&self) -> usize {
        self.dims
    }

    fn most_parts(&self) -> u32 {
        1
    }

    /// Yes exactly if there is no part, and exactly if there is no store.
    fn is_empty(&self) -> bool
        ensures formed { box_abstraction.well_formed self.now }
        ensures parts { IsTrue result ↔ (box_abstraction.parts self.now ≡ []) }
        ensures stores { IsTrue result ↔ ((s : List ℤ) → ¬ box_abstraction.gamma self.now s) }
    {
        self.bounds.is_none()
    }

    /// The bounds that an assignment of the form would give.
    fn bounds(&self, e: &LinExpr) -> (Option<i128>, Option<i128>) {
        bounds_of(&self.bounds, e)
    }

    fn included(&self, other: &Self) -> Included {
        if is_within(&self.bounds, &other.bounds) {
            Included::Yes
        } else {
            Included::No
        }
    }

    fn same(&self, other: &Self) -> bool {
        self.dims == other.dims && is_same(&self.bounds, &other.bounds)
    }

    fn assign(&mut self, x: usize, e: &LinExpr) -> Result<Exactness, AllocError> {
        let row = wide_row(self.alloc, e)?;
        Ok(assign_in(&mut self.bounds, x, e.constant() as i128, row.as_slice()))
    }

    fn forget(&mut self, x: usize) -> Result<Exactness, AllocError> {
        forget_in(&mut self.bounds, x);
        Ok(Exactness::Exact)
    }

    fn test(&mut self, t: &Test) -> Result<Exactness, AllocError> {
        let exactness = test_in(self.alloc, &mut self.bounds, t)?;
        Ok(exactness)
    }

    fn join(&mut self, other: &Self) -> Result<Exactness, AllocError> {
        let joined = join_bounds(self.alloc, &self.bounds, &other.bounds)?;
        self.bounds = joined;
        Ok(Exactness::Exact)
    }

    fn embed(&mut self, k: usize) -> Result<Exactness, AllocError> {
        embed_in(&mut self.bounds, k)?;
        self.dims += k;
        Ok(Exactness::Exact)
    }

    fn remove_last(&mut self, k: usize) -> Result<Exactness, AllocError> {
        self.dims -= k;
        truncate_in(&mut self.bounds, self.dims);
        Ok(Exactness::Exact)
    }

    fn parts(&self, alloc: Global) -> Result<Vec<ConSys>, AllocError> {
        let mut parts = Vec::new(alloc);
        if let Some(intervals) = &self.bounds {
            parts.push(system_of(alloc, intervals.as_slice())?)?;
        }
        Ok(parts)
    }

    fn start(alloc: Global, first: &Self, _given: &ConSys) -> Result<Boxes, AllocError> {
        Ok(Boxes {
            alloc,
            dims: first.dims,
            bounds: copy_bounds(alloc, &first.bounds)?,
        })
    }

    fn grow(head: &mut Boxes, next: &Self, mode: Mode) -> Result<Grown, AllocError> {
        if is_within(&next.bounds, &head.bounds) {
            return Ok(Grown::Stable);
        }
        let grown = grow_bounds(head.alloc, &head.bounds, &next.bounds, mode)?;
        head.bounds = grown;
        Ok(Grown::Grew(Exactness::Exact))
    }

    fn value(alloc: Global, head: &Boxes) -> Result<(Self, Exactness), AllocError> {
        let value = Boxes {
            alloc,
            dims: head.dims,
            bounds: copy_bounds(alloc, &head.bounds)?,
        };
        Ok((value, Exactness::Exact))
    }

    fn rank(head: &Boxes) -> Rank {
        rank_of(head.dims, &head.bounds)
    }
}

impl BaseDomain for Boxes {
    ghost use Rattle.lra_box.specs.Laws.{box_base};

    ghost base_laws = { box_base };
}

impl ExactParts for Boxes {
    fn parts_are_exact(&self) {
        let _fit = &self.bounds; // fact: the box's invariant
    }
}
