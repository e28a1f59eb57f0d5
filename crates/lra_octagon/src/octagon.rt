//! Octagons as a domain.

ghost use Rattle.std.specs.Prelude.{◌≡◌, ◌↔◌, IsTrue, IfOk, OnOk, OnErr, ℤ, List, []};
ghost use Rattle.lra_domain.specs.{Abstraction.Joins, Actions.Within, Parts.CapsWithin};
ghost use Rattle.lra_octagon.specs.{Abstraction.octagon_abstraction, Least.IsTightOctagon, Least.LeastOctagon};

use crate::assigning::assign_in;
use crate::bounds::{
    Bounds, copy_bounds, copy_closed, embed_in, forget_in, grow_bounds, is_same, is_within,
    join_bounds, octagon_rank, remove_in, universe,
};
use crate::form_bounds::bounds_of;
use crate::parts::parts_of;
use crate::testing::test_in;
use crate::tightness::{assignment_closes, makes_tight, passes_all, test_closes};
use lra_domain::{
    BaseDomain, ConSys, Domain, ExactParts, Exactness, Grown, Included, LinExpr, Mode, Rank, Test,
};
use std::alloc::{AllocError, Global};
use std::marker::Model;

/// An octagon: empty, or a matrix of bounds. As a head it keeps a matrix that is never closed after its start.
///
/// A mark says that it is known to be tight: then a test that lowers no entry changes nothing, and costs neither a copy
/// nor a closing. If an entry is past half of the range it is closed all the same, since what closing forms of the
/// entries may pass there and flag.
pub struct Octagon {
    alloc: Global,
    dims: usize,
    matrix: Bounds,
    is_tight: bool,
}

impl Drop for Octagon {
    fn drop(self) {
        let Octagon {
            alloc: _,
            dims: _,
            matrix: _,
            is_tight: _,
        } = self;
    }
}

impl Model for Octagon {
    ghost use Rattle.std.specs.Prelude.{◌≤◌, ◌^◌, IsTrue};
    ghost use Rattle.lra_octagon.specs.Content.{OctagonContent, DimsFit, CellsFit, matrix_view};
    ghost use Rattle.lra_octagon.specs.Least.{IsTightOrNone};

    ghost Value = { OctagonContent };

    ghost view = { λ o. record { dims = o.dims; cells = matrix_view o.matrix } };

    ghost invariant = { λ o. (o.dims ≤ 2 ^ 30) × DimsFit o.dims o.matrix × CellsFit o.dims (matrix_view o.matrix)
        × (IsTrue o.is_tight → IsTightOrNone o.dims (matrix_view o.matrix)) };
}

impl Domain for Octagon {
    type Head = Octagon;

    ghost abstraction = { octagon_abstraction };

    ghost use Rattle.lra_octagon.specs.Laws.{octagon_laws};

    ghost laws = { octagon_laws };

    fn universe(alloc: Global, n: usize, _cap: u32) -> Result<Self, AllocError> {
        let matrix = universe(alloc, n)?;
        Ok(Octagon {
            alloc,
            dims: n,
            matrix: Some(matrix),
            is_tight: true,
        })
    }

    fn empty(alloc: Global, n: usize, _cap: u32) -> Result<Self, AllocError> {
        Ok(Octagon {
            alloc,
            dims: n,
            matrix: None,
            is_tight: true,
        })
    }

    fn copy(&self, alloc: Global) -> Result<Self, AllocError> {
        Ok(Octagon {
            alloc,
            dims: self.dims,
            matrix: copy_bounds(alloc, &self.matrix)?,
            is_tight: self.is_tight,
        })
    }

    fn dims(&self) -> usize {
        self.dims
    }

    fn most_parts(&self) -> u32 {
        1
    }

    /// Yes exactly if there is no part; of a tight octagon, exactly if there is no store.
    fn is_empty(&self) -> bool
        ensures formed { octagon_abstraction.well_formed self.now }
        ensures parts { IsTrue result ↔ (octagon_abstraction.parts self.now ≡ []) }
        ensures stores { IsTrue result → (s : List ℤ) → ¬ octagon_abstraction.gamma self.now s }
        ensures tight { IsTightOctagon self.now →
            (IsTrue result ↔ ((s : List ℤ) → ¬ octagon_abstraction.gamma self.now s)) }
    {
        self.matrix.is_none()
    }

    /// By the entries, which are closed if nothing was flagged, if the form has one coefficient of 1 or -1, or two;
    /// else by the unary bounds, as over boxes.
    fn bounds(&self, e: &LinExpr) -> (Option<i128>, Option<i128>) {
        bounds_of(self.dims, &self.matrix, e)
    }

    /// Entry by entry; of a tight octagon, No only if a store lies beyond the other.
    fn included(&self, other: &Self) -> Included
        requires { octagon_abstraction.dims self.now ≡ octagon_abstraction.dims other.now }
        ensures stores { result ≡ Included.Yes →
            Within (octagon_abstraction.gamma self.now) (octagon_abstraction.gamma other.now) }
        ensures yes { result ≡ Included.Yes → octagon_abstraction.included self.now other.now }
        ensures no { result ≡ Included.No → ¬ octagon_abstraction.included self.now other.now }
        ensures wide { result ≡ Included.Wide →
            octagon_abstraction.inclusion_strains self.now other.now }
        ensures tight { result ≡ Included.No → IsTightOctagon self.now →
            ¬ Within (octagon_abstraction.gamma self.now) (octagon_abstraction.gamma other.now) }
    {
        if is_within(self.dims, &self.matrix, &other.matrix) {
            Included::Yes
        } else {
            Included::No
        }
    }

    fn same(&self, other: &Self) -> bool {
        self.dims == other.dims && is_same(self.dims, &self.matrix, &other.matrix)
    }

    fn assign(&mut self, x: usize, e: &LinExpr) -> Result<Exactness, AllocError> {
        let (assigned, exactness) = assign_in(self.alloc, self.dims, &self.matrix, x, e)?;
        self.is_tight = makes_tight(exactness, self.is_tight, assignment_closes(x, e));
        self.matrix = assigned;
        Ok(exactness)
    }

    fn forget(&mut self, x: usize) -> Result<Exactness, AllocError> {
        forget_in(self.dims, &mut self.matrix, x);
        Ok(Exactness::Exact)
    }

    fn test(&mut self, t: &Test) -> Result<Exactness, AllocError> {
        if self.is_tight && passes_all(self.dims, &self.matrix, t) {
            return Ok(Exactness::Exact);
        }
        let (tested, exactness) = test_in(self.alloc, self.dims, &self.matrix, t)?;
        self.is_tight = makes_tight(exactness, self.is_tight, test_closes(&t.expr));
        self.matrix = tested;
        Ok(exactness)
    }

    /// Of tight octagons, the least with the stores of both.
    fn join(&mut self, other: &Self) -> Result<Exactness, AllocError>
        requires { octagon_abstraction.dims self.old ≡ octagon_abstraction.dims other.now }
        ensures joins { IfOk result (λ a. Joins octagon_abstraction self.old other.now a self.new) }
        ensures dims { octagon_abstraction.dims self.new ≡ octagon_abstraction.dims self.old }
        ensures capped { CapsWithin
            (λ c. octagon_abstraction.capped self.old c × octagon_abstraction.capped other.now c)
            (octagon_abstraction.capped self.new) }
        ensures err { OnErr result (self.new ≡ self.old) }
        ensures least { OnOk result (LeastOctagon self.old other.now self.new) }
    {
        let joined = join_bounds(self.alloc, self.dims, &self.matrix, &other.matrix)?;
        self.is_tight = self.is_tight && other.is_tight;
        self.matrix = joined;
        Ok(Exactness::Exact)
    }

    fn embed(&mut self, k: usize) -> Result<Exactness, AllocError> {
        embed_in(self.dims, &mut self.matrix, k)?;
        self.dims += k;
        Ok(Exactness::Exact)
    }

    fn remove_last(&mut self, k: usize) -> Result<Exactness, AllocError> {
        remove_in(self.dims, &mut self.matrix, k);
        self.dims -= k;
        Ok(Exactness::Exact)
    }

    fn parts(&self, alloc: Global) -> Result<Vec<ConSys>, AllocError> {
        let parts = parts_of(alloc, self.dims, &self.matrix)?;
        Ok(parts)
    }

    fn start(alloc: Global, first: &Self, _given: &ConSys) -> Result<Octagon, AllocError> {
        Ok(Octagon {
            alloc,
            dims: first.dims,
            matrix: copy_bounds(alloc, &first.matrix)?,
            is_tight: false,
        })
    }

    fn grow(head: &mut Octagon, next: &Self, mode: Mode) -> Result<Grown, AllocError> {
        if is_within(head.dims, &next.matrix, &head.matrix) {
            return Ok(Grown::Stable);
        }
        let grown = grow_bounds(head.alloc, head.dims, &head.matrix, &next.matrix, mode)?;
        head.is_tight = false;
        head.matrix = grown;
        Ok(Grown::Grew(Exactness::Exact))
    }

    /// The closure of the head's matrix.
    fn value(alloc: Global, head: &Octagon) -> Result<(Self, Exactness), AllocError> {
        let (matrix, exactness) = copy_closed(alloc, head.dims, &head.matrix)?;
        let value = Octagon {
            alloc,
            dims: head.dims,
            matrix,
            is_tight: exactness == Exactness::Exact,
        };
        Ok((value, exactness))
    }

    fn rank(head: &Octagon) -> Rank {
        octagon_rank(head.dims, &head.matrix)
    }
}

impl BaseDomain for Octagon {
    ghost use Rattle.lra_octagon.specs.Laws.{octagon_base};

    ghost base_laws = { octagon_base };
}

impl ExactParts for Octagon {
    fn parts_are_exact(&self) {
        let _fit = &self.matrix; // fact: the octagon's invariant
    }
}
