//! The heads of sets.

ghost use Rattle.std.specs.Prelude.{◌≡◌, ◌≢◌, ◌≤◌, List, length, IfOk, OnErr, OnOk};
ghost use Rattle.lra_domain.specs.{Abstraction.Starts, Abstraction.Values, declared.Mode.TheVariants.Join};
ghost use Rattle.lra_powerset.specs.Content.{PartFits, one, many};
ghost use Rattle.lra_powerset.specs.Growth.{HasAll, HasGrown, LiesIn, SingleAnswers, StartsAnew, valued_set};
ghost use Rattle.lra_powerset.specs.{Abstraction.set_abstraction, Forms.HeadFits, Lists.EachPart, Values.PartsIncluded};

use crate::growth::{Held, become_one, grow_one, start_anew, start_with, value_one};
use crate::reduction::all_lie_in;
use crate::set::{PowerSet, copy_alone, copy_parts};
use lra_domain::{BaseDomain, ConSys, Domain, Exactness, Grown, Included, Mode, Rank};
use std::alloc::{AllocError, Global};
use std::marker::Model;

/// The head of a set: its dimensions, the most parts of its values, the rows that limit its growth, and the parts or
/// the single part's head that were reached.
pub struct PowerSetHead<D: BaseDomain> {
    alloc: Global,
    dims: usize,
    cap: u32,
    thresholds: ConSys,
    held: Held<D, D::Head>,
}

impl<D: BaseDomain> Drop for PowerSetHead<D> {
    fn drop(self) {
        let PowerSetHead {
            alloc: _,
            dims: _,
            cap: _,
            thresholds: _,
            held: _,
        } = self;
    }
}

impl<D: BaseDomain> Model for PowerSetHead<D> {
    ghost use Rattle.lra_powerset.specs.Content.{SetHead};

    ghost Value = { SetHead D D.Head };

    ghost use Rattle.lra_powerset.specs.Forms.{HeadFits, form_of};

    ghost view = { λ h. record { dims = h.dims; cap = h.cap; thresholds = h.thresholds; form = form_of h.held } };

    ghost invariant = { λ h. HeadFits D.abstraction (record {
      dims = h.dims;
      cap = h.cap;
      thresholds = h.thresholds;
      form = form_of h.held;
    }) };
}

impl<D: BaseDomain> PowerSetHead<D> {
    /// The head's rank.
    pub fn rank(&self) -> Rank
        ensures fits { HeadFits D.abstraction self.now }
        ensures rank { result ≡ (set_abstraction D.abstraction).rank self.now }
    {
        match &self.held {
            Held::Many(parts) => Rank {
                first: if parts.is_empty() {
                    17
                } else {
                    parts.len() as u64
                },
                second: 0,
                third: 0,
                fourth: 0,
            },
            Held::One(one) => Rank {
                first: 1,
                ..D::rank(one)
            },
            Held::Whole(_) => Rank {
                first: 0,
                second: 0,
                third: 0,
                fourth: 0,
            },
        }
    }
}

impl<D: BaseDomain> PowerSetHead<D> {
    // The head that starts with the set.
    pub(crate) fn start(
        alloc: Global,
        first: &PowerSet<D>,
        given: &ConSys,
    ) -> Result<PowerSetHead<D>, AllocError>
        requires { given.now.dims ≡ first.now.dims }
        ensures starts { IfOk result
            (λ h. Starts (set_abstraction D.abstraction) first.now given.now h) }
        ensures dims { IfOk result (λ h. h.dims ≡ first.now.dims) }
        ensures cap { IfOk result (λ h. h.cap ≡ first.now.cap) }
        ensures fit { IfOk result (λ h. HeadFits D.abstraction h) }
    {
        let parts = copy_parts(alloc, first.items())?;
        let held = start_with(alloc, parts, given)?;
        let given = given.copy()?;
        Ok(PowerSetHead {
            alloc,
            dims: first.dims(),
            cap: first.cap(),
            thresholds: given,
            held,
        })
    }

    // The parts of its value.
    fn parts(&self, alloc: Global) -> Result<(Vec<D>, Exactness), AllocError>
        ensures values { IfOk result (λ r.
            Values (set_abstraction D.abstraction) self.now r.1 (valued_set self.now r.0.items)) }
        ensures fit { IfOk result (λ r. EachPart (PartFits D.abstraction self.now.dims) r.0.items) }
        ensures few { IfOk result (λ r. length r.0.items ≤ self.now.cap) }
    {
        match &self.held {
            Held::Many(held) => {
                let parts = copy_parts(alloc, held.as_slice())?;
                Ok((parts, Exactness::Exact))
            }
            Held::One(one) => {
                let (parts, exactness) = value_one(alloc, one)?;
                Ok((parts, exactness))
            }
            Held::Whole(part) => {
                let parts = copy_alone(alloc, part)?;
                Ok((parts, Exactness::Exact))
            }
        }
    }

    // The head's value.
    pub(crate) fn value(&self, alloc: Global) -> Result<(PowerSet<D>, Exactness), AllocError>
        ensures values { IfOk result
            (λ r. Values (set_abstraction D.abstraction) self.now r.1 r.0) }
        ensures few { IfOk result (λ r. length r.0.parts ≤ self.now.cap) }
        ensures cap { IfOk result (λ r. r.0.cap ≡ self.now.cap) }
        ensures dims { IfOk result (λ r. r.0.dims ≡ self.now.dims) }
    {
        let (parts, exactness) = self.parts(alloc)?;
        let value = PowerSet::new(alloc, self.dims, self.cap, parts);
        Ok((value, exactness))
    }

    // In joining, whether next lies in it, whose value has these parts.
    fn lies_in(&self, parts: &[D], exactness: Exactness, next: &PowerSet<D>) -> Included
        requires dims { next.now.dims ≡ self.now.dims }
        requires values { Values (set_abstraction D.abstraction) self.now exactness (valued_set self.now parts.now) }
        requires fit { EachPart (PartFits D.abstraction self.now.dims) parts.now }
        ensures { LiesIn D.abstraction self.now parts.now next.now result }
    {
        match &self.held {
            Held::Whole(_) => Included::Yes,
            Held::Many(_) => all_lie_in(next.items(), parts),
            Held::One(_) => match exactness {
                Exactness::Exact => all_lie_in(next.items(), parts),
                Exactness::Flagged => Included::Wide,
            },
        }
    }

    // These parts and next's, reduced and kept within the cap, take the place of what it has.
    fn restart(&mut self, parts: Vec<D>, next: &[D]) -> Result<Exactness, AllocError>
        requires fit { EachPart (PartFits D.abstraction self.old.dims) parts.items }
        requires next { EachPart (PartFits D.abstraction self.old.dims) next.now }
        ensures starts { IfOk result (λ e. StartsAnew D.abstraction
            self.old.thresholds self.old.dims self.old.cap parts.items next.now e self.new.form) }
        ensures dims { self.new.dims ≡ self.old.dims }
        ensures cap { self.new.cap ≡ self.old.cap }
        ensures given { self.new.thresholds ≡ self.old.thresholds }
        ensures err { OnErr result (self.new ≡ self.old) }
    {
        let cap = self.cap as usize;
        let (held, exactness) = start_anew(self.alloc, cap, &self.thresholds, parts, next)?;
        self.held = held;
        Ok(exactness)
    }

    // It is given up: it has all stores.
    fn give_up(&mut self) -> Result<(), AllocError>
        ensures given_up { OnOk result (HasAll D.abstraction self.old self.new) }
        ensures dims { self.new.dims ≡ self.old.dims }
        ensures cap { self.new.cap ≡ self.old.cap }
        ensures err { OnErr result (self.new ≡ self.old) }
    {
        let all = D::universe(self.alloc, self.dims, self.cap)?;
        self.held = Held::Whole(all);
        Ok(())
    }

    // The join with next, if it is reported whether next lies in it, whose value has these parts.
    fn join_told(
        &mut self,
        parts: Vec<D>,
        lies: Included,
        next: &PowerSet<D>,
    ) -> Result<Grown, AllocError>
        requires dims { next.now.dims ≡ self.old.dims }
        requires values { (e : Exactness) ×
            Values (set_abstraction D.abstraction) self.old e (valued_set self.old parts.items) }
        requires fit { EachPart (PartFits D.abstraction self.old.dims) parts.items }
        requires lies { LiesIn D.abstraction self.old parts.items next.now lies }
        ensures grown { IfOk result
            (λ g. HasGrown D.abstraction self.old next.now Join g self.new) }
        ensures dims { self.new.dims ≡ self.old.dims }
        ensures cap { self.new.cap ≡ self.old.cap }
        ensures err { OnErr result (self.new ≡ self.old) }
    {
        match lies {
            Included::Yes => Ok(Grown::Stable),
            Included::No => {
                let exactness = self.restart(parts, next.items())?;
                Ok(Grown::Grew(exactness))
            }
            Included::Wide => {
                self.give_up()?;
                Ok(Grown::Grew(Exactness::Flagged))
            }
        }
    }

    // It becomes the set's join with next, unless next lies in it.
    fn join(&mut self, next: &PowerSet<D>) -> Result<Grown, AllocError>
        requires { next.now.dims ≡ self.old.dims }
        ensures grown { IfOk result
            (λ g. HasGrown D.abstraction self.old next.now Join g self.new) }
        ensures dims { self.new.dims ≡ self.old.dims }
        ensures cap { self.new.cap ≡ self.old.cap }
        ensures err { OnErr result (self.new ≡ self.old) }
    {
        let (parts, exactness) = self.parts(self.alloc)?;
        let lies = self.lies_in(parts.as_slice(), exactness, next);
        self.join_told(parts, lies, next)
    }

    // The head of its single part grows by next's parts, or nothing is known of it.
    fn grow_single(&mut self, next: &PowerSet<D>, mode: Mode) -> Result<Option<Grown>, AllocError>
        requires dims { next.now.dims ≡ self.old.dims }
        requires widens { mode ≢ Join }
        requires single { (h : D.Head) × (self.old.form ≡ one h) }
        ensures answers { IfOk result (λ o. SingleAnswers D.abstraction self.old next.now.parts mode o self.new) }
        ensures dims { self.new.dims ≡ self.old.dims }
        ensures cap { self.new.cap ≡ self.old.cap }
        ensures given { self.new.thresholds ≡ self.old.thresholds }
        ensures err { OnErr result (self.new ≡ self.old) }
    {
        match &mut self.held {
            Held::One(one) => grow_one(self.alloc, one, next.items(), mode),
            Held::Many(_) => unreachable!(),
            Held::Whole(_) => unreachable!(),
        }
    }

    // The head of its single part grows, unless next lies in it.
    fn widen_one(&mut self, next: &PowerSet<D>, mode: Mode) -> Result<Grown, AllocError>
        requires dims { next.now.dims ≡ self.old.dims }
        requires widens { mode ≢ Join }
        requires single { (h : D.Head) × (self.old.form ≡ one h) }
        ensures grown { IfOk result
            (λ g. HasGrown D.abstraction self.old next.now mode g self.new) }
        ensures dims { self.new.dims ≡ self.old.dims }
        ensures cap { self.new.cap ≡ self.old.cap }
        ensures err { OnErr result (self.new ≡ self.old) }
    {
        let all = D::universe(self.alloc, self.dims, self.cap)?;
        match self.grow_single(next, mode)? {
            Some(grown) => Ok(grown),
            None => {
                self.held = Held::Whole(all);
                Ok(Grown::Grew(Exactness::Flagged))
            }
        }
    }

    // The parts that it has, if it isn't one.
    fn held_parts(&self) -> &[D]
        requires { (ps : List D) × (self.now.form ≡ many ps) }
        ensures form { self.now.form ≡ many result.now }
        ensures fits { HeadFits D.abstraction self.now }
    {
        match &self.held {
            Held::Many(parts) => parts.as_slice(),
            Held::One(_) => unreachable!(),
            Held::Whole(_) => unreachable!(),
        }
    }

    // The head's parts, in which next doesn't lie, become one, which grows.
    fn unite(&mut self, next: &PowerSet<D>, mode: Mode) -> Result<Grown, AllocError>
        requires dims { next.now.dims ≡ self.old.dims }
        requires widens { mode ≢ Join }
        requires parts { (ps : List D) × (self.old.form ≡ many ps)
            × ¬ PartsIncluded D.abstraction.included next.now.parts ps }
        ensures grown { IfOk result
            (λ g. HasGrown D.abstraction self.old next.now mode g self.new) }
        ensures dims { self.new.dims ≡ self.old.dims }
        ensures cap { self.new.cap ≡ self.old.cap }
        ensures err { OnErr result (self.new ≡ self.old) }
    {
        let parts = self.held_parts();
        match become_one(self.alloc, &self.thresholds, parts, next.items(), mode)? {
            None => {
                self.give_up()?;
                Ok(Grown::Grew(Exactness::Flagged))
            }
            Some(head) => {
                self.held = Held::One(head);
                Ok(Grown::Grew(Exactness::Exact))
            }
        }
    }

    // The head's parts become one, which grows, unless next lies in them.
    fn widen_many(&mut self, next: &PowerSet<D>, mode: Mode) -> Result<Grown, AllocError>
        requires dims { next.now.dims ≡ self.old.dims }
        requires widens { mode ≢ Join }
        requires parts { (ps : List D) × (self.old.form ≡ many ps) }
        ensures grown { IfOk result
            (λ g. HasGrown D.abstraction self.old next.now mode g self.new) }
        ensures dims { self.new.dims ≡ self.old.dims }
        ensures cap { self.new.cap ≡ self.old.cap }
        ensures err { OnErr result (self.new ≡ self.old) }
    {
        match all_lie_in(next.items(), self.held_parts()) {
            Included::Yes => Ok(Grown::Stable),
            Included::Wide => {
                self.give_up()?;
                Ok(Grown::Grew(Exactness::Flagged))
            }
            Included::No => self.unite(next, mode),
        }
    }

    // It becomes one part, which grows, unless next lies in it.
    fn widen(&mut self, next: &PowerSet<D>, mode: Mode) -> Result<Grown, AllocError>
        requires dims { next.now.dims ≡ self.old.dims }
        requires widens { mode ≢ Join }
        ensures grown { IfOk result
            (λ g. HasGrown D.abstraction self.old next.now mode g self.new) }
        ensures dims { self.new.dims ≡ self.old.dims }
        ensures cap { self.new.cap ≡ self.old.cap }
        ensures err { OnErr result (self.new ≡ self.old) }
    {
        match &self.held {
            Held::Whole(_) => Ok(Grown::Stable),
            Held::One(_) => self.widen_one(next, mode),
            Held::Many(_) => self.widen_many(next, mode),
        }
    }

    // It grows so that it has the stores of next, unless it has them.
    pub(crate) fn grow(&mut self, next: &PowerSet<D>, mode: Mode) -> Result<Grown, AllocError>
        requires { next.now.dims ≡ self.old.dims }
        ensures grown { IfOk result
            (λ g. HasGrown D.abstraction self.old next.now mode g self.new) }
        ensures dims { self.new.dims ≡ self.old.dims }
        ensures cap { self.new.cap ≡ self.old.cap }
        ensures err { OnErr result (self.new ≡ self.old) }
    {
        match mode {
            Mode::Join => self.join(next),
            Mode::Widen => self.widen(next, Mode::Widen),
            Mode::Limited => self.widen(next, Mode::Limited),
            Mode::Tightest => self.widen(next, Mode::Tightest),
        }
    }

    // How many dimensions it has, and what is so of every head.
    pub(crate) fn dims(&self) -> usize
        ensures dims { result ≡ self.now.dims }
        ensures fit { HeadFits D.abstraction self.now }
    {
        self.dims
    }
}
