ghost use Rattle.std.specs.Prelude.{◌≡◌, ◌≢◌, ◌+◌, ◌-◌, ◌^◌, ◌≤◌, ◌<◌, ◌↔◌, ℕ, ℤ, List, [], length, All, IfOk, OnErr};
ghost use Rattle.std.specs.Prelude.{OnOk, IsTrue};
ghost use Rattle.lra_domain.specs.Abstraction.{Abstraction, TransfersTo, Joins, Starts, Grew, Values};
ghost use Rattle.lra_domain.specs.Actions.{Within, assign, dims_after, forget, test, embed, remove_last};
ghost use Rattle.lra_domain.specs.{Changes.CanBeMade, Changes.action_of, Laws.Laws, Laws.PartsAreExact, Laws.BaseLaws};
ghost use Rattle.lra_domain.specs.{Parts.SomePartHolds, Parts.CapsWithin, Rank.RankBelow, Rank.RankFits};

use crate::{Change, Exactness, Grown, Included, Mode, Rank};
use lra_linear_forms::{LinExpr, Test};
use lra_systems::ConSys;
use std::alloc::{AllocError, Global};

/// An abstract domain: its values stand for sets of stores, its heads for values that grow at the head of a loop.
///
/// A store is a list of whole numbers, one for each dimension. An author of a further domain must guarantee the
/// following.
///
/// **Contents.** Give `Self` and `Head` an `impl Model` whose `Value` is exactly the content: the dimensions, and
/// what distinguishes the value (bounds, canonical rows and generators, entries, parts with their cap; for a head its
/// thresholds too). Then equal contents are equal values: `copy` gives the same content, `same` says whether two are
/// equal, `Stable` leaves the head's, and a call that answers an error leaves its value's. Leave allocators and spare
/// room out of the view.
///
/// **Meaning.** Give one record, `abstraction`: which contents values and heads have (`well_formed`,
/// `head_well_formed`), which stores a value or head stands for (`gamma`, `head_gamma`), how many dimensions, the
/// `parts` (lists of rows), the defined result of each call as a relation on contents, when each call may exceed a
/// limit, which content lies below another (`leq`), and the `rank` of a head. Every call gives a well-formed value or
/// head, and `is_empty` and `rank` say so of the one at hand: what the type's invariant says belongs there.
///
/// **Laws.** Give one record, `laws`, that this meaning keeps. What it says of stores and of bounds it says of
/// well-formed contents; what relates dimensions, caps, parts and answers it says of all. A store has as many numbers
/// as there are dimensions. What `top` allows has `n` dimensions and all their stores, what `bottom` allows has `n` and
/// no store, and a value without parts has no store. What lies below another content, or in a head, has no store beyond
/// those of that content, or of the head. What is `bounded` is one thing, within which a form's value at each store
/// lies. The value of a head that is given up is one that `top` allows.
///
/// **Points.** `universe` has all lists of `n` numbers, `empty` none. Say by `keeps` that a change's result has all
/// points to which it leads: `assign` those with `x` replaced by the form's value there, `forget` those with `x`
/// replaced by anything, `test` those that pass, `embed` those with `k` numbers of any kind appended, `remove_last`
/// those without their last `k` numbers; and by `holds_both` that a grown head has all of the old head and of next.
/// Points are stores, unless the domain knows others (a polyhedron's are rational); the laws `kept_stores`,
/// `old_stores` and `next_stores` lead to stores. `join` covers both operands; `start` keeps the first value's stores,
/// `value` the head's; `Stable` comes only if next lies in the head. `included` says `Yes`, and `is_empty` true,
/// only if it is so.
///
/// **Bounds.** `bounds` reports a lower and an upper bound of a form's values, as `bounded` says of the content; it
/// takes no memory.
///
/// **Exactness.** Each result covers the defined one, and that of a join both operands. An `Exact` one is the defined
/// one; a `Flagged` one comes only if the call exceeds a limit on its operands. `included` answers `Yes` and `No` by
/// what is so, `Wide` only if it exceeds a limit.
///
/// **Heads.** `answers` says what the inclusion of next in a head may answer: `Yes` only if next lies in it, `No`
/// only if it doesn't, `Wide` only if it exceeds a limit. `grow` answers `Stable` only with `Yes`, `Grew(Exact)`
/// only with `No`. `Grew(Flagged)` comes with `Wide`, and then the head is given up: it has all stores, as a content
/// that `given_up` allows; or with `No`, if the join or the widening exceeds a limit. Which thresholds are `left` is
/// reported of each growth, flagged or not.
///
/// **Ranks.** After `Grew` in another mode than `Join` the rank is lower than before, also when flagged: this is why
/// an iteration ends. Each number of a rank is below 2^62, so that two ranks can be added, with carries.
///
/// **Parts.** `parts` gives what rows say of the value: at each store all rows of some part hold; each row has one
/// column more than `dims`. That nothing else meets them is guaranteed by `ExactParts` alone: a domain of congruences,
/// or of what is odd, has its bounds as rows, and stores fewer. `is_empty` says yes exactly if there is no part.
///
/// **Caps.** A value may have several caps, numbers of parts that it never passes; `capped` names them, `head_capped`
/// those of a head. What `top` and `bottom` allow with a cap of at least 1 has that cap. Each call keeps the caps:
/// of two operands those that both have. A domain of one part at most takes all numbers from 1 on, and its `most_parts`
/// is 1.
///
/// **Given by the trait itself.** `change` makes a change that is kept as a value (`Change`); `empty_like` and
/// `universe_like` give values with the dimensions and the caps of the one at hand.
///
/// The calls' only conditions are equal dimensions, places in range, at most 2^30 dimensions, and a `cap` (of use to
/// powersets alone) of at least 1. An `AllocError` can come from any call that answers a `Result`.
pub trait Domain: Sized + Drop {
    /// A value that grows at the head of a loop.
    type Head: Drop;

    /// What values and heads mean.
    ghost abstraction: { Abstraction Self Self.Head };

    /// The value of `n` dimensions with all stores.
    fn universe(alloc: Global, n: usize, cap: u32) -> Result<Self, AllocError>
        requires few { n ≤ 2 ^ 30 }
        requires cap { 1 ≤ cap }
        ensures formed { IfOk result (λ v. abstraction.well_formed v) }
        ensures stores { IfOk result
            (λ v. (s : List ℤ) → (abstraction.gamma v s ↔ (length s ≡ n))) }
        ensures defined { IfOk result (λ v. abstraction.top n cap v) }
        ensures dims { IfOk result (λ v. abstraction.dims v ≡ n) };

    /// The value of `n` dimensions with no store.
    fn empty(alloc: Global, n: usize, cap: u32) -> Result<Self, AllocError>
        requires few { n ≤ 2 ^ 30 }
        requires cap { 1 ≤ cap }
        ensures formed { IfOk result (λ v. abstraction.well_formed v) }
        ensures stores { IfOk result (λ v. (s : List ℤ) → ¬ abstraction.gamma v s) }
        ensures defined { IfOk result (λ v. abstraction.bottom n cap v) }
        ensures dims { IfOk result (λ v. abstraction.dims v ≡ n) };

    /// A copy of the value.
    fn copy(&self, alloc: Global) -> Result<Self, AllocError>
        ensures { IfOk result (λ v. v ≡ self.now) };

    /// How many dimensions its stores have.
    fn dims(&self) -> usize
        ensures { result ≡ abstraction.dims self.now };

    /// How many parts it may have, for a value that is to have its caps; of use to sets alone.
    fn most_parts(&self) -> u32
        ensures some { 1 ≤ result }
        ensures empty { (n : ℕ) (v : Self) → abstraction.bottom n result v →
            CapsWithin (abstraction.capped self.now) (abstraction.capped v) }
        ensures universe { (n : ℕ) (v : Self) → abstraction.top n result v →
            CapsWithin (abstraction.capped self.now) (abstraction.capped v) };

    /// Whether the value has no part, and so no store; a value that is held is well-formed.
    fn is_empty(&self) -> bool
        ensures formed { abstraction.well_formed self.now }
        ensures parts { IsTrue result ↔ (abstraction.parts self.now ≡ []) }
        ensures stores { IsTrue result → (s : List ℤ) → ¬ abstraction.gamma self.now s };

    /// A lower and an upper bound of the form's values, as the content states them; none if it says none.
    fn bounds(&self, e: &LinExpr) -> (Option<i128>, Option<i128>)
        requires { length e.now.coefficients ≡ abstraction.dims self.now }
        ensures { abstraction.bounded self.now e.now result.0 result.1 };

    /// Whether this value lies in the other.
    fn included(&self, other: &Self) -> Included
        requires { abstraction.dims self.now ≡ abstraction.dims other.now }
        ensures stores { result ≡ Included.Yes → Within (abstraction.gamma self.now) (abstraction.gamma other.now) }
        ensures yes { result ≡ Included.Yes → abstraction.included self.now other.now }
        ensures no { result ≡ Included.No → ¬ abstraction.included self.now other.now }
        ensures wide { result ≡ Included.Wide → abstraction.inclusion_strains self.now other.now };

    /// Whether the two have the same content.
    fn same(&self, other: &Self) -> bool
        ensures { IsTrue result ↔ (self.now ≡ other.now) };

    /// Dimension `x` gets the value of the form.
    fn assign(&mut self, x: usize, e: &LinExpr) -> Result<Exactness, AllocError>
        requires place { x < abstraction.dims self.old }
        requires width { length e.now.coefficients ≡ abstraction.dims self.old }
        ensures meets { IfOk result
            (λ a. TransfersTo abstraction (assign x e.now) self.old a self.new) }
        ensures dims { abstraction.dims self.new ≡ abstraction.dims self.old }
        ensures capped { CapsWithin (abstraction.capped self.old) (abstraction.capped self.new) }
        ensures err { OnErr result (self.new ≡ self.old) };

    /// Dimension `x` gets any value.
    fn forget(&mut self, x: usize) -> Result<Exactness, AllocError>
        requires { x < abstraction.dims self.old }
        ensures meets { IfOk result (λ a. TransfersTo abstraction (forget x) self.old a self.new) }
        ensures dims { abstraction.dims self.new ≡ abstraction.dims self.old }
        ensures capped { CapsWithin (abstraction.capped self.old) (abstraction.capped self.new) }
        ensures err { OnErr result (self.new ≡ self.old) };

    /// Only stores that pass the test need stay.
    fn test(&mut self, t: &Test) -> Result<Exactness, AllocError>
        requires { length t.now.expr.coefficients ≡ abstraction.dims self.old }
        ensures meets { IfOk result (λ a. TransfersTo abstraction (test t.now.kind t.now.expr) self.old a self.new) }
        ensures dims { abstraction.dims self.new ≡ abstraction.dims self.old }
        ensures capped { CapsWithin (abstraction.capped self.old) (abstraction.capped self.new) }
        ensures err { OnErr result (self.new ≡ self.old) };

    /// The join: the value gets the stores of the other.
    fn join(&mut self, other: &Self) -> Result<Exactness, AllocError>
        requires { abstraction.dims self.old ≡ abstraction.dims other.now }
        ensures joins { IfOk result (λ a. Joins abstraction self.old other.now a self.new) }
        ensures dims { abstraction.dims self.new ≡ abstraction.dims self.old }
        ensures capped { CapsWithin
            (λ c. abstraction.capped self.old c × abstraction.capped other.now c)
            (abstraction.capped self.new) }
        ensures err { OnErr result (self.new ≡ self.old) };

    /// Appends `k` new dimensions, of any value.
    fn embed(&mut self, k: usize) -> Result<Exactness, AllocError>
        requires { abstraction.dims self.old + k ≤ 2 ^ 30 }
        ensures meets { IfOk result (λ a. TransfersTo abstraction (embed k) self.old a self.new) }
        ensures dims { OnOk result (abstraction.dims self.new ≡ abstraction.dims self.old + k) }
        ensures capped { CapsWithin (abstraction.capped self.old) (abstraction.capped self.new) }
        ensures err { OnErr result (self.new ≡ self.old) };

    /// Removes the last `k` dimensions.
    fn remove_last(&mut self, k: usize) -> Result<Exactness, AllocError>
        requires { k ≤ abstraction.dims self.old }
        ensures meets { IfOk result
            (λ a. TransfersTo abstraction (remove_last k) self.old a self.new) }
        ensures dims { OnOk result (abstraction.dims self.new ≡ abstraction.dims self.old - k) }
        ensures capped { CapsWithin (abstraction.capped self.old) (abstraction.capped self.new) }
        ensures err { OnErr result (self.new ≡ self.old) };

    /// What rows say of the value, part by part.
    fn parts(&self, alloc: Global) -> Result<Vec<ConSys>, AllocError>
        ensures parts { IfOk result (λ ps. ps.items ≡ abstraction.parts self.now) }
        ensures dims { IfOk result (λ ps. All (λ p. p.dims ≡ abstraction.dims self.now) ps.items) }
        ensures hold { IfOk result (λ ps. (s : List ℤ) → abstraction.gamma self.now s →
            SomePartHolds ps.items s) };

    /// Makes the change.
    fn change(&mut self, change: &Change) -> Result<Exactness, AllocError>
        requires { CanBeMade (action_of change.now) (abstraction.dims self.old) }
        ensures meets { IfOk result (λ a.
            TransfersTo abstraction (action_of change.now) self.old a self.new) }
        ensures dims { OnOk result
            (abstraction.dims self.new
            ≡ dims_after (action_of change.now) (abstraction.dims self.old)) }
        ensures capped { CapsWithin (abstraction.capped self.old) (abstraction.capped self.new) }
        ensures err { OnErr result (self.new ≡ self.old) }
    {
        match change {
            Change::Assign(x, e) => self.assign(*x, e),
            Change::Forget(x) => self.forget(*x),
            Change::Test(t) => self.test(t),
            Change::Embed(k) => self.embed(*k),
            Change::RemoveLast(k) => self.remove_last(*k),
        }
    }

    /// The value of the same dimensions and caps with no store.
    fn empty_like(&self, alloc: Global) -> Result<Self, AllocError>
        requires { abstraction.dims self.now ≤ 2 ^ 30 }
        ensures formed { IfOk result (λ v. abstraction.well_formed v) }
        ensures stores { IfOk result (λ v. (s : List ℤ) → ¬ abstraction.gamma v s) }
        ensures defined { IfOk result (λ v. (cap : ℕ) ×
            abstraction.bottom (abstraction.dims self.now) cap v) }
        ensures dims { IfOk result (λ v. abstraction.dims v ≡ abstraction.dims self.now) }
        ensures capped { IfOk result (λ v.
            CapsWithin (abstraction.capped self.now) (abstraction.capped v)) }
    {
        let (dims, cap) = (self.dims(), self.most_parts());
        let value = Self::empty(alloc, dims, cap)?;
        Ok(value)
    }

    /// The value of the same dimensions and caps with all stores.
    fn universe_like(&self, alloc: Global) -> Result<Self, AllocError>
        requires { abstraction.dims self.now ≤ 2 ^ 30 }
        ensures formed { IfOk result (λ v. abstraction.well_formed v) }
        ensures stores { IfOk result (λ v. (s : List ℤ) →
            (abstraction.gamma v s ↔ (length s ≡ abstraction.dims self.now))) }
        ensures defined { IfOk result (λ v. (cap : ℕ) ×
            abstraction.top (abstraction.dims self.now) cap v) }
        ensures dims { IfOk result (λ v. abstraction.dims v ≡ abstraction.dims self.now) }
        ensures capped { IfOk result (λ v.
            CapsWithin (abstraction.capped self.now) (abstraction.capped v)) }
    {
        let (dims, cap) = (self.dims(), self.most_parts());
        let value = Self::universe(alloc, dims, cap)?;
        Ok(value)
    }

    /// The head that starts with the value; `given` are the thresholds of its widening.
    fn start(alloc: Global, first: &Self, given: &ConSys) -> Result<Self::Head, AllocError>
        requires { given.now.dims ≡ abstraction.dims first.now }
        ensures starts { IfOk result (λ h. Starts abstraction first.now given.now h) }
        ensures dims { IfOk result (λ h. abstraction.head_dims h ≡ abstraction.dims first.now) }
        ensures capped { IfOk result (λ h. CapsWithin (abstraction.capped first.now) (abstraction.head_capped h)) }
        ensures fits { IfOk result (λ h. RankFits (abstraction.rank h)) };

    /// Grows the head so that it has the stores of next, unless it has them.
    fn grow(head: &mut Self::Head, next: &Self, mode: Mode) -> Result<Grown, AllocError>
        requires { abstraction.head_dims head.old ≡ abstraction.dims next.now }
        ensures dims { abstraction.head_dims head.new ≡ abstraction.head_dims head.old }
        ensures capped { CapsWithin (λ c. abstraction.head_capped head.old c × abstraction.capped next.now c)
            (abstraction.head_capped head.new) }
        ensures stable { IfOk result (λ g. g ≡ Grown.Stable → head.new ≡ head.old) }
        ensures stays { IfOk result (λ g. g ≡ Grown.Stable → abstraction.answers head.old next.now mode Included.Yes) }
        ensures grew { IfOk result (λ g. (a : Exactness) → g ≡ Grown.Grew a →
            Grew abstraction head.old next.now mode a head.new) }
        ensures lower { IfOk result (λ g. (a : Exactness) → g ≡ Grown.Grew a → mode ≢ Mode.Join →
            RankBelow (abstraction.rank head.new) (abstraction.rank head.old)) }
        ensures fits { OnOk result (RankFits (abstraction.rank head.new)) }
        ensures err { OnErr result (head.new ≡ head.old) };

    /// The value of the head.
    fn value(alloc: Global, head: &Self::Head) -> Result<(Self, Exactness), AllocError>
        ensures values { IfOk result (λ r. Values abstraction head.now r.1 r.0) }
        ensures dims { IfOk result (λ r. abstraction.dims r.0 ≡ abstraction.head_dims head.now) }
        ensures capped { IfOk result (λ r. CapsWithin (abstraction.head_capped head.now) (abstraction.capped r.0)) };

    /// The rank of the head; a head that is held is well-formed.
    fn rank(head: &Self::Head) -> Rank
        ensures formed { abstraction.head_well_formed head.now }
        ensures rank { result ≡ abstraction.rank head.now };

    /// What the meaning keeps.
    ghost laws: { Laws abstraction };
}

/// A domain whose values are what their parts report: each list of `dims` numbers at which all rows of some part hold
/// is a store. Boxes, octagons, polyhedra and sets of them are such: their rows alone can stand for them.
pub trait ExactParts: Domain {
    /// Does nothing: its contract is the way back from the parts of the value to its stores.
    fn parts_are_exact(&self)
        ensures { PartsAreExact Self.abstraction self.now };
}

/// A domain whose values have one part at most: polyhedra, boxes, octagons. Its ranks begin with 1. Its meaning allows
/// one top value, one join of two values, one head that starts with a value, and one value of a head.
pub trait BaseDomain: Domain {
    /// What the meaning keeps further, so that sets of such values can be made.
    ghost base_laws: { BaseLaws Self.abstraction };
}
