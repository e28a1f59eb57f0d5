//! Sets of parts as a domain.

ghost use Rattle.std.specs.Prelude.{◌≡◌, ◌≤◌, ◌++◌, ◌∷◌, ◌^◌, ◌↔◌, ℕ, ℤ, List, [], length, flat_map, IfOk, IsTrue};
ghost use Rattle.std.specs.{List.All, Prelude.OnErr, Prelude.OnOk};
ghost use Rattle.lra_domain.specs.{Abstraction.TransfersTo, Actions.dims_after, Parts.SomePartHolds};
ghost use Rattle.lra_powerset.specs.Changes.{ChangeFits, borrowed_action};
ghost use Rattle.lra_powerset.specs.Values.{PartsBounded, PartsIncluded};
ghost use Rattle.lra_powerset.specs.{Abstraction.set_abstraction, Content.PartFits, Lists.EachPart, Lists.SomePart};
ghost use Rattle.lra_powerset.specs.{Outcomes.HaveDims, Reduction.Reduces, Reduction.ReduceStrains};

use crate::changes::{BorrowedChange, append_changed, dims_behind};
use crate::heads::PowerSetHead;
use crate::joins::collapse;
use crate::reduction::{all_lie_in, reduce};
use lra_domain::bounds::{join_highs, join_lows};
use lra_domain::{
    BaseDomain, ConSys, Domain, ExactParts, Exactness, Grown, Included, LinExpr, Mode, Rank, Test,
    worse,
};
use std::alloc::{AllocError, Global};
use std::marker::Model;

/// A set of parts: a list of at most `cap` of them, of the same dimensions each, none of them empty. Its stores are
/// those of any part.
pub struct PowerSet<D: BaseDomain> {
    alloc: Global,
    dims: usize,
    cap: u32,
    parts: Vec<D>,
}

impl<D: BaseDomain> Drop for PowerSet<D> {
    fn drop(self) {
        let PowerSet {
            alloc: _,
            dims: _,
            cap: _,
            parts: _,
        } = self;
    }
}

impl<D: BaseDomain> Model for PowerSet<D> {
    ghost use Rattle.std.specs.Prelude.{◌≤◌, ◌^◌, length};
    ghost use Rattle.lra_powerset.specs.{Content.SetContent, Content.PartFits, Lists.EachPart};

    ghost Value = { SetContent D };

    ghost view = { λ v. record { dims = v.dims; cap = v.cap; parts = v.parts.items } };

    ghost invariant = { λ v. (v.dims ≤ 2 ^ 30) × (1 ≤ v.cap) × (length v.parts.items ≤ v.cap) ×
        EachPart (PartFits D.abstraction v.dims) v.parts.items };
}

/// Appends copies of the parts.
pub fn append_copies<D: BaseDomain>(
    alloc: Global,
    all: &mut Vec<D>,
    parts: &[D],
) -> Result<(), AllocError>
    ensures { OnOk result (all.new.items ≡ all.old.items ++ parts.now) }
{
    let Some((first, later)) = parts.split_first() else {
        return Ok(());
    };
    all.push(first.copy(alloc)?)?;
    append_copies(alloc, all, later)?;
    Ok(())
}

/// The parts again.
pub fn copy_parts<D: BaseDomain>(alloc: Global, parts: &[D]) -> Result<Vec<D>, AllocError>
    ensures { IfOk result (λ copies. copies.items ≡ parts.now) }
{
    let mut copies = Vec::new(alloc);
    append_copies(alloc, &mut copies, parts)?;
    Ok(copies)
}

/// The parts and then the others.
fn copy_both<D: BaseDomain>(alloc: Global, parts: &[D], others: &[D]) -> Result<Vec<D>, AllocError>
    ensures { IfOk result (λ both. both.items ≡ parts.now ++ others.now) }
{
    let mut both = copy_parts(alloc, parts)?;
    append_copies(alloc, &mut both, others)?;
    Ok(both)
}

/// The part alone.
pub fn list_alone<D: BaseDomain>(alloc: Global, part: D) -> Result<Vec<D>, AllocError>
    ensures { IfOk result (λ parts. parts.items ≡ part ∷ []) }
{
    let mut parts = Vec::new(alloc);
    parts.push(part)?;
    Ok(parts)
}

/// The part again, alone.
pub fn copy_alone<D: BaseDomain>(alloc: Global, part: &D) -> Result<Vec<D>, AllocError>
    ensures { IfOk result (λ parts. parts.items ≡ part.now ∷ []) }
{
    list_alone(alloc, part.copy(alloc)?)
}

/// The lowest of what the parts say of the form from below and the highest from above; nothing of no parts.
fn bounds_of<D: BaseDomain>(parts: &[D], e: &LinExpr) -> (Option<i128>, Option<i128>)
    requires { HaveDims D.abstraction (length e.now.coefficients) parts.now }
    ensures { PartsBounded D.abstraction parts.now e.now result.0 result.1 }
{
    let Some((first, later)) = parts.split_first() else {
        return (None, None);
    };
    let (low, high) = first.bounds(e);
    if later.is_empty() {
        return (low, high);
    }
    let (other_low, other_high) = bounds_of(later, e);
    (join_lows(low, other_low), join_highs(high, other_high))
}

/// Appends what rows say of the parts.
fn append_rows<D: BaseDomain>(
    alloc: Global,
    all: &mut Vec<ConSys>,
    parts: &[D],
) -> Result<(), AllocError>
    ensures rows { OnOk result (all.new.items ≡ all.old.items ++ flat_map D.abstraction.parts parts.now) }
    ensures dims { OnOk result ((n : ℕ) → HaveDims D.abstraction n parts.now →
        All (λ p. p.dims ≡ n) (flat_map D.abstraction.parts parts.now)) }
    ensures hold { OnOk result ((s : List ℤ) → SomePart (λ p. D.abstraction.gamma p s) parts.now →
        SomePartHolds (flat_map D.abstraction.parts parts.now) s) }
{
    let Some((first, later)) = parts.split_first() else {
        return Ok(());
    };
    let mut rows = first.parts(alloc)?;
    all.append(&mut rows)?;
    append_rows(alloc, all, later)?;
    Ok(())
}

/// Does nothing: what the rows of the parts report is all of them.
fn tell_each<D: BaseDomain + ExactParts>(parts: &[D])
    ensures { (n : ℕ) → HaveDims D.abstraction n parts.now → (s : List ℤ) → length s ≡ n →
        SomePartHolds (flat_map D.abstraction.parts parts.now) s →
        SomePart (λ p. D.abstraction.gamma p s) parts.now }
{
    let Some((first, later)) = parts.split_first() else {
        return;
    };
    first.parts_are_exact();
    tell_each(later);
}

/// Whether the parts are the same, in the same order.
fn are_same<D: BaseDomain>(parts: &[D], others: &[D]) -> bool
    ensures { IsTrue result ↔ (parts.now ≡ others.now) }
{
    let Some((first, later)) = parts.split_first() else {
        return others.is_empty();
    };
    let Some((other, more)) = others.split_first() else {
        return false;
    };
    first.same(other) && are_same(later, more)
}

impl<D: BaseDomain> PowerSet<D> {
    // The set with these parts.
    pub(crate) fn new(alloc: Global, dims: usize, cap: u32, parts: Vec<D>) -> Self
        requires few { dims ≤ 2 ^ 30 }
        requires cap { 1 ≤ cap }
        requires capped { length parts.items ≤ cap }
        requires fit { EachPart (PartFits D.abstraction dims) parts.items }
        ensures { result ≡ record { dims = dims; cap = cap; parts = parts.items } }
    {
        PowerSet {
            alloc,
            dims,
            cap,
            parts,
        }
    }

    /// The most parts that it may have.
    pub fn cap(&self) -> u32
        ensures cap { result ≡ self.now.cap }
        ensures some { 1 ≤ result }
    {
        let _parts = &self.parts; // fact: the set's invariant: the cap is at least 1
        self.cap
    }

    /// The parts, in order; none of them is empty, and each has the set's dimensions.
    pub fn items(&self) -> &[D]
        ensures parts { result.now ≡ self.now.parts }
        ensures fit { EachPart (PartFits D.abstraction self.now.dims) self.now.parts }
        ensures capped { length self.now.parts ≤ self.now.cap }
        ensures few { self.now.dims ≤ 2 ^ 30 }
    {
        self.parts.as_slice()
    }

    /// The parts are reduced: one that lies in another goes; of two that lie in each other the first stays. Each call
    /// that changes the set does this by itself. A part of which it isn't reported whether it goes stays, and flags.
    pub fn reduce(&mut self) -> Result<Exactness, AllocError>
        ensures covers { OnOk result
            (PartsIncluded D.abstraction.leq self.old.parts self.new.parts) }
        ensures exact { IfOk result (λ e. e ≡ Exactness.Exact → Reduces D.abstraction self.old.parts self.new.parts) }
        ensures flagged { IfOk result (λ e. e ≡ Exactness.Flagged → ReduceStrains D.abstraction self.old.parts) }
        ensures dims { self.new.dims ≡ self.old.dims }
        ensures cap { self.new.cap ≡ self.old.cap }
        ensures err { OnErr result (self.new ≡ self.old) }
    {
        reduce(self.alloc, &mut self.parts)
    }

    /// Each part is changed; those that became empty are left out, and the others are reduced.
    fn change_each(&mut self, change: &BorrowedChange<'_>) -> Result<Exactness, AllocError>
        requires { ChangeFits change.now self.old.dims }
        ensures meets { IfOk result
            (λ a. TransfersTo (set_abstraction D.abstraction) (borrowed_action change.now) self.old a self.new) }
        ensures dims { OnOk result (self.new.dims ≡ dims_after (borrowed_action change.now) self.old.dims) }
        ensures cap { self.new.cap ≡ self.old.cap }
        ensures capped { length self.new.parts ≤ self.new.cap }
        ensures err { OnErr result (self.new ≡ self.old) }
    {
        let mut changed = Vec::new(self.alloc);
        let one = append_changed(self.alloc, self.parts.as_slice(), change, &mut changed)?;
        let (settled, two) = collapse(self.alloc, self.cap as usize, changed)?;
        self.dims = dims_behind(change, self.dims);
        self.parts = settled;
        Ok(worse(one, two))
    }
}

impl<D: BaseDomain> Domain for PowerSet<D> {
    type Head = PowerSetHead<D>;

    ghost abstraction = { set_abstraction D.abstraction };

    ghost use Rattle.lra_powerset.specs.Laws.{set_laws};

    ghost laws = { set_laws D.abstraction D.laws D.base_laws };

    fn universe(alloc: Global, n: usize, cap: u32) -> Result<Self, AllocError> {
        let parts = list_alone(alloc, D::universe(alloc, n, cap)?)?;
        Ok(PowerSet {
            alloc,
            dims: n,
            cap,
            parts,
        })
    }

    fn empty(alloc: Global, n: usize, cap: u32) -> Result<Self, AllocError> {
        Ok(PowerSet {
            alloc,
            dims: n,
            cap,
            parts: Vec::new(alloc),
        })
    }

    fn copy(&self, alloc: Global) -> Result<Self, AllocError> {
        let parts = copy_parts(alloc, self.parts.as_slice())?;
        Ok(PowerSet {
            alloc,
            dims: self.dims,
            cap: self.cap,
            parts,
        })
    }

    fn dims(&self) -> usize {
        self.dims
    }

    fn most_parts(&self) -> u32 {
        self.cap
    }

    /// Yes exactly if there is no part.
    fn is_empty(&self) -> bool {
        self.parts.is_empty()
    }

    /// The lowest and the highest that the parts report.
    fn bounds(&self, e: &LinExpr) -> (Option<i128>, Option<i128>) {
        bounds_of(self.parts.as_slice(), e)
    }

    /// Yes if each part lies in some part of the other.
    fn included(&self, other: &Self) -> Included {
        all_lie_in(self.parts.as_slice(), other.parts.as_slice())
    }

    fn same(&self, other: &Self) -> bool {
        self.dims == other.dims
            && self.cap == other.cap
            && are_same(self.parts.as_slice(), other.parts.as_slice())
    }

    fn assign(&mut self, x: usize, e: &LinExpr) -> Result<Exactness, AllocError> {
        self.change_each(&BorrowedChange::Assign(x, e))
    }

    fn forget(&mut self, x: usize) -> Result<Exactness, AllocError> {
        self.change_each(&BorrowedChange::Forget(x))
    }

    fn test(&mut self, t: &Test) -> Result<Exactness, AllocError> {
        self.change_each(&BorrowedChange::Test(t))
    }

    /// The join: the other's parts are appended, and the list is reduced and kept within the cap.
    fn join(&mut self, other: &Self) -> Result<Exactness, AllocError> {
        let both = copy_both(self.alloc, self.parts.as_slice(), other.parts.as_slice())?;
        let (settled, exactness) = collapse(self.alloc, self.cap as usize, both)?;
        self.parts = settled;
        Ok(exactness)
    }

    fn embed(&mut self, k: usize) -> Result<Exactness, AllocError> {
        self.change_each(&BorrowedChange::Embed(k))
    }

    fn remove_last(&mut self, k: usize) -> Result<Exactness, AllocError> {
        self.change_each(&BorrowedChange::RemoveLast(k))
    }

    fn parts(&self, alloc: Global) -> Result<Vec<ConSys>, AllocError> {
        let mut all = Vec::new(alloc);
        append_rows(alloc, &mut all, self.parts.as_slice())?;
        Ok(all)
    }

    /// A single part becomes a head of its own; otherwise the head has the parts.
    fn start(alloc: Global, first: &Self, given: &ConSys) -> Result<PowerSetHead<D>, AllocError> {
        PowerSetHead::start(alloc, first, given)
    }

    /// In joining it becomes the set's join with next. Otherwise a head that isn't one part becomes one, the join of
    /// its parts in order, and that part grows by the join of next's parts in order. If that can't be reported, it
    /// is given up.
    fn grow(head: &mut PowerSetHead<D>, next: &Self, mode: Mode) -> Result<Grown, AllocError> {
        let (_before, _next) = (head.dims(), next.items()); // fact: the head fits, and so does each part of next
        let grown = head.grow(next, mode)?;
        let _dims = head.dims(); // fact: the head fits (`HeadFits`)
        Ok(grown)
    }

    /// The parts that were reached; those of a single part are its value, unless that is empty.
    fn value(alloc: Global, head: &PowerSetHead<D>) -> Result<(Self, Exactness), AllocError> {
        let (value, exactness) = head.value(alloc)?;
        Ok((value, exactness))
    }

    fn rank(head: &PowerSetHead<D>) -> Rank {
        head.rank()
    }
}

impl<D: BaseDomain + ExactParts> ExactParts for PowerSet<D> {
    fn parts_are_exact(&self) {
        tell_each(self.parts.as_slice());
    }
}
