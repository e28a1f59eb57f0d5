//! Signs as a domain.

ghost use Rattle.std.specs.Prelude.{◌≡◌, IfOk, IsTrue, length};
ghost use Rattle.guzhtarel.specs.EntryDomains.{lies_in, of_entries, system_of_entries};
ghost use Rattle.guzhtarel.specs.{Domains.ExactDomains.abstraction_of, Domains.Rank.RankFits};
ghost use Rattle.use_signs.specs.Signs.{sign};

use crate::lists::{count_known, is_implied, is_sum_known, keep_both, push_signs};
use guzhtarel::{
    ConSys, Domain, ExactParts, Exactness, Grown, Included, LinExpr, Mode, Rank, Test,
};
use std::alloc::{AllocError, Global};
use std::marker::Model;

/// No store, or those in which each variable that is known is at least 0.
#[derive(Drop)]
pub struct Signs {
    nothing: bool,
    known: Vec<bool>,
}

impl Model for Signs {
    ghost use Rattle.std.specs.Prelude.{Bool, ◌≤◌, ◌^◌, length};
    ghost use Rattle.guzhtarel.specs.EntryDomains.{EntriesContent};

    ghost Value = { EntriesContent Bool };

    ghost view = { λ s. record { nothing = s.nothing; entries = s.known.items } };

    ghost invariant = { λ s. length s.known.items ≤ 2 ^ 30 };
}

impl Domain for Signs {
    type Head = Signs;

    ghost abstraction = { abstraction_of (of_entries sign) };

    ghost use Rattle.use_signs.specs.Laws.{signs_laws};

    ghost laws = { signs_laws };

    fn universe(alloc: Global, n: usize, _cap: u32) -> Result<Self, AllocError> {
        let known = vec![in alloc; false; n]?;
        Ok(Signs {
            nothing: false,
            known,
        })
    }

    fn empty(alloc: Global, n: usize, _cap: u32) -> Result<Self, AllocError> {
        let known = vec![in alloc; true; n]?;
        Ok(Signs {
            nothing: true,
            known,
        })
    }

    fn copy(&self, alloc: Global) -> Result<Self, AllocError> {
        Ok(Signs {
            nothing: self.nothing,
            known: Vec::from_slice(alloc, self.known.as_slice())?,
        })
    }

    fn dims(&self) -> usize {
        self.known.len()
    }

    fn most_parts(&self) -> u32 {
        1
    }

    fn is_empty(&self) -> bool {
        self.nothing
    }

    fn bounds(&self, _e: &LinExpr) -> (Option<i128>, Option<i128>) {
        (None, None)
    }

    #[tactic(auto, using(crate::proofs::SignLemmas::covers))]
    fn included(&self, other: &Self) -> Included {
        if self.lies_in(other) {
            Included::Yes
        } else {
            Included::No
        }
    }

    fn same(&self, other: &Self) -> bool {
        self.nothing == other.nothing && self.known.as_slice() == other.known.as_slice()
    }

    fn assign(&mut self, x: usize, e: &LinExpr) -> Result<Exactness, AllocError> {
        let known = 0 <= e.constant() && is_sum_known(e.coefficients(), self.known.as_slice());
        self.known[x] = known;
        Ok(Exactness::Exact)
    }

    fn forget(&mut self, x: usize) -> Result<Exactness, AllocError> {
        self.known[x] = false;
        Ok(Exactness::Exact)
    }

    fn test(&mut self, _t: &Test) -> Result<Exactness, AllocError> {
        Ok(Exactness::Exact)
    }

    fn join(&mut self, other: &Self) -> Result<Exactness, AllocError> {
        self.keep_both(other);
        Ok(Exactness::Exact)
    }

    fn embed(&mut self, k: usize) -> Result<Exactness, AllocError> {
        let mut more = vec![in *self.known.allocator(); false; k]?;
        self.known.append(&mut more)?;
        Ok(Exactness::Exact)
    }

    fn remove_last(&mut self, k: usize) -> Result<Exactness, AllocError> {
        let left = self.known.len() - k;
        self.known.truncate(left);
        Ok(Exactness::Exact)
    }

    fn parts(&self, alloc: Global) -> Result<Vec<ConSys>, AllocError> {
        let mut parts = Vec::new(alloc);
        if !self.nothing {
            parts.push(self.system(alloc)?)?;
        }
        Ok(parts)
    }

    fn start(alloc: Global, first: &Self, _given: &ConSys) -> Result<Signs, AllocError> {
        let _fits = first.number(); // fact: the rank fits
        let head = first.copy(alloc)?;
        Ok(head)
    }

    fn grow(head: &mut Signs, next: &Self, _mode: Mode) -> Result<Grown, AllocError> {
        let _fits = head.number(); // fact: the rank fits
        if next.lies_in(head) {
            return Ok(Grown::Stable);
        }
        head.keep_both(next);
        Ok(Grown::Grew(Exactness::Exact))
    }

    fn value(alloc: Global, head: &Signs) -> Result<(Self, Exactness), AllocError> {
        let value = head.copy(alloc)?;
        Ok((value, Exactness::Exact))
    }

    fn rank(head: &Signs) -> Rank {
        Rank {
            first: 1,
            second: 0,
            third: 0,
            fourth: head.number(),
        }
    }
}

impl ExactParts for Signs {
    #[tactic(auto, using(crate::proofs::SignLemmas::parts_tell))]
    fn parts_are_exact(&self) {}
}

impl Signs {
    // Whether the other has no store less and knows no more.
    fn lies_in(&self, other: &Signs) -> bool
        ensures { result ≡ lies_in sign self.now other.now }
    {
        (self.nothing || !other.nothing)
            && is_implied(self.known.as_slice(), other.known.as_slice())
    }

    // Leaves what both know.
    fn keep_both(&mut self, other: &Signs)
        requires { length self.old.entries ≡ length other.now.entries }
        ensures joined { self.new ≡ (of_entries sign).joined self.old other.now }
        ensures dims { length self.new.entries ≡ length self.old.entries }
        ensures fits { RankFits ((abstraction_of (of_entries sign)).rank self.new) }
    {
        self.nothing = self.nothing && other.nothing;
        keep_both(self.known.as_mut_slice(), other.known.as_slice());
        let _fits = self.number(); // fact: the rank fits
    }

    // How much is known.
    #[tactic(auto, using(crate::proofs::SignLemmas::rank_fits))]
    fn number(&self) -> u64
        ensures number { result ≡ (of_entries sign).number self.now }
        ensures fits { RankFits ((abstraction_of (of_entries sign)).rank self.now) }
    {
        self.nothing as u64 + count_known(self.known.as_slice())
    }

    // The rows of the variables that are known.
    fn system(&self, alloc: Global) -> Result<ConSys, AllocError>
        ensures { IfOk result (λ list. list ≡ system_of_entries sign self.now.entries) }
    {
        let mut list = ConSys::new(alloc, self.known.len());
        push_signs(alloc, &mut list, 1, self.known.as_slice())?;
        Ok(list)
    }
}
