//! Gauges as a domain.

ghost use Rattle.std.specs.Prelude.{◌≡◌, ℤ, List};
ghost use Rattle.lra_example_domain.specs.Abstraction.{example_abstraction};

use crate::bounds::{UNBOUNDED, compare, grow_bounds, join_bounds};
use lra_domain::{
    BaseDomain, ConSys, Domain, ExactParts, Exactness, Grown, Included, LinExpr, Mode, Rank, Test,
};
use std::alloc::{AllocError, Global};

/// All stores of some dimensions, or none if the bound is 0; the bound is of a number beside the stores.
#[derive(Drop)]
pub struct ExampleDomain {
    pub dims: u32,
    pub bound: u8,
}

impl Domain for ExampleDomain {
    type Head = ExampleDomain;

    ghost abstraction = { example_abstraction };

    ghost use Rattle.lra_example_domain.specs.Laws.{example_laws};

    ghost laws = { example_laws };

    fn universe(_alloc: Global, n: usize, _cap: u32) -> Result<Self, AllocError> {
        Ok(ExampleDomain {
            dims: n as u32,
            bound: UNBOUNDED,
        })
    }

    fn empty(_alloc: Global, n: usize, _cap: u32) -> Result<Self, AllocError> {
        Ok(ExampleDomain {
            dims: n as u32,
            bound: 0,
        })
    }

    fn copy(&self, _alloc: Global) -> Result<Self, AllocError> {
        Ok(ExampleDomain {
            dims: self.dims,
            bound: self.bound,
        })
    }

    fn dims(&self) -> usize {
        self.dims as usize
    }

    fn most_parts(&self) -> u32 {
        1
    }

    fn is_empty(&self) -> bool {
        self.bound == 0
    }

    /// The example gives no bounds of forms.
    fn bounds(&self, _e: &LinExpr) -> (Option<i128>, Option<i128>) {
        (None, None)
    }

    fn included(&self, other: &Self) -> Included {
        compare(other.bound, self.bound)
    }

    fn same(&self, other: &Self) -> bool {
        self.dims == other.dims && self.bound == other.bound
    }

    fn assign(&mut self, _x: usize, _e: &LinExpr) -> Result<Exactness, AllocError> {
        Ok(Exactness::Exact)
    }

    fn forget(&mut self, _x: usize) -> Result<Exactness, AllocError> {
        Ok(Exactness::Exact)
    }

    fn test(&mut self, _t: &Test) -> Result<Exactness, AllocError> {
        Ok(Exactness::Exact)
    }

    fn join(&mut self, other: &Self) -> Result<Exactness, AllocError> {
        let (bound, exactness) = join_bounds(self.bound, other.bound);
        self.bound = bound;
        Ok(exactness)
    }

    fn embed(&mut self, k: usize) -> Result<Exactness, AllocError> {
        self.dims += k as u32;
        Ok(Exactness::Exact)
    }

    fn remove_last(&mut self, k: usize) -> Result<Exactness, AllocError> {
        let dims = self.dims;
        self.dims = dims - k as u32;
        Ok(Exactness::Exact)
    }

    fn parts(&self, alloc: Global) -> Result<Vec<ConSys>, AllocError> {
        let mut parts = Vec::new(alloc);
        if self.bound > 0 {
            parts.push(ConSys::new(alloc, self.dims as usize))?;
        }
        Ok(parts)
    }

    fn start(_alloc: Global, first: &Self, _given: &ConSys) -> Result<ExampleDomain, AllocError> {
        Ok(ExampleDomain {
            dims: first.dims,
            bound: first.bound,
        })
    }

    fn grow(head: &mut ExampleDomain, next: &Self, mode: Mode) -> Result<Grown, AllocError> {
        match compare(head.bound, next.bound) {
            Included::Yes => Ok(Grown::Stable),
            Included::No => {
                let (bound, exactness) = grow_bounds(mode, head.bound, next.bound);
                head.bound = bound;
                Ok(Grown::Grew(exactness))
            }
            Included::Wide => {
                head.bound = UNBOUNDED;
                Ok(Grown::Grew(Exactness::Flagged))
            }
        }
    }

    fn value(_alloc: Global, head: &ExampleDomain) -> Result<(Self, Exactness), AllocError> {
        let value = ExampleDomain {
            dims: head.dims,
            bound: head.bound,
        };
        Ok((value, Exactness::Exact))
    }

    fn rank(head: &ExampleDomain) -> Rank {
        Rank {
            first: 1,
            second: 0,
            third: 0,
            fourth: (UNBOUNDED - head.bound) as u64,
        }
    }
}

impl BaseDomain for ExampleDomain {
    ghost use Rattle.lra_example_domain.specs.Laws.{example_base};

    ghost base_laws = { example_base };
}

impl ExactParts for ExampleDomain {
    #[tactic(auto, using(crate::proofs::ExactParts::parts_tell))]
    fn parts_are_exact(&self) {}
}
