//! What is held at a loop's head.

ghost use Rattle.std.specs.Prelude.{◌≡◌, ◌≢◌, IfOk};
ghost use Rattle.lra_domain.specs.{Abstraction.Grew, Rank.RankBelow, Rank.RankFits};
ghost use Rattle.lra_domain.specs.{declared.Exactness.TheVariants.Flagged, declared.Mode.TheVariants.Join};
ghost use Rattle.lra_linear_spec.specs.declared.Excess as E;
ghost use Rattle.lra_linear_spec.specs.OperationStrain.{InclusionStrains};
ghost use Rattle.lra_poly_domain.specs.Crates.lra_systems.LinearSystems.{constraints};
ghost use Rattle.lra_poly_domain.specs.Content.{PolyhedronLeq, WellFormedHead};
ghost use Rattle.lra_poly_domain.specs.{Abstraction.polyhedron_abstraction, Growth.head, Heads.head_rank};

use crate::growth::{give_up, grow_value};
use lra_domain::{ConSys, Exactness, Mode, Rank};
use lra_poly_widening::{Poly, rank};
use std::alloc::{AllocError, Global};
use std::marker::Model;

/// A head: the polyhedron that was reached, the widening thresholds that no growth has struck, and its rank.
pub struct PolyhedronHead {
    value: Poly,
    thresholds: ConSys,
    rank: Rank,
}

impl Drop for PolyhedronHead {
    fn drop(self) {
        let PolyhedronHead {
            value: _,
            thresholds: _,
            rank: _,
        } = self;
    }
}

impl Model for PolyhedronHead {
    ghost use Rattle.std.specs.Prelude.{◌≡◌};
    ghost use Rattle.lra_domain.specs.Rank.{RankFits};
    ghost use Rattle.lra_poly_domain.specs.Crates.lra_systems.LinearSystems.{constraints};
    ghost use Rattle.lra_poly_domain.specs.{Content.HeadContent, Heads.head_rank};

    ghost Value = { HeadContent };

    ghost view = { λ h. record { value = h.value; thresholds = constraints h.thresholds } };

    ghost invariant = { λ h. (h.thresholds.dims ≡ h.value.dims)
        × (h.rank ≡ head_rank (record { value = h.value; thresholds = constraints h.thresholds })) × RankFits h.rank };
}

// No memory holds so many rows.
const TOO_MANY_ROWS: u64 = 1 << 62;

// The rank over the widening thresholds.
fn rank_of(value: &Poly, given: &ConSys) -> Result<Rank, AllocError>
    requires { given.now.dims ≡ value.now.dims }
    ensures rank { IfOk result (λ r. r ≡ head_rank (head value.now (constraints given.now))) }
    ensures fits { IfOk result RankFits }
{
    let (equalities, held, free) = rank(value, given);
    if equalities >= TOO_MANY_ROWS || held >= TOO_MANY_ROWS || free >= TOO_MANY_ROWS {
        return Err(AllocError);
    }
    Ok(Rank {
        first: 1,
        second: equalities,
        third: held,
        fourth: free,
    })
}

impl PolyhedronHead {
    // The head with this value and these widening thresholds.
    pub(crate) fn new(value: Poly, given: ConSys) -> Result<PolyhedronHead, AllocError>
        requires { given.dims ≡ value.dims }
        ensures content { IfOk result (λ h. h ≡ head value (constraints given)) }
        ensures fits { IfOk result (λ h. RankFits (head_rank h)) }
        ensures formed { IfOk result WellFormedHead }
    {
        // fact: the value is representable, the thresholds are in the range
        let (_formed, _rows) = (value.rows(), given.rows());
        let rank = rank_of(&value, &given)?;
        Ok(PolyhedronHead {
            value,
            thresholds: given,
            rank,
        })
    }

    /// The polyhedron that was reached.
    pub fn value(&self) -> &Poly
        ensures value { result.now ≡ self.now.value }
        ensures fits { RankFits (head_rank self.now) }
    {
        &self.value
    }

    /// The widening thresholds that are left.
    pub fn thresholds(&self) -> &ConSys
        ensures rows { constraints result.now ≡ self.now.thresholds }
        ensures dims { result.now.dims ≡ self.now.value.dims }
    {
        &self.thresholds
    }

    /// The head's rank.
    pub fn rank(&self) -> Rank
        ensures formed { WellFormedHead self.now }
        ensures rank { result ≡ head_rank self.now }
        ensures fits { RankFits result }
    {
        // fact: the value is representable, the thresholds are in the range
        let (_formed, _rows) = (self.value.rows(), self.thresholds.rows());
        self.rank
    }

    // What it becomes by next, which isn't in its value.
    pub(crate) fn grow_value(
        &self,
        alloc: Global,
        next: &Poly,
        mode: Mode,
    ) -> Result<(PolyhedronHead, Exactness), AllocError>
        requires dims { next.now.dims ≡ self.now.value.dims }
        requires outside { ¬ (PolyhedronLeq next.now self.now.value) }
        ensures grew { IfOk result
            (λ r. Grew polyhedron_abstraction self.now next.now mode r.1 r.0) }
        ensures dims { IfOk result (λ r. r.0.value.dims ≡ self.now.value.dims) }
        ensures lower { IfOk result (λ r. mode ≢ Join → RankBelow (head_rank r.0) (head_rank self.now)) }
        ensures fits { IfOk result (λ r. RankFits (head_rank r.0)) }
    {
        let (_rows, _others) = (self.value.rows(), next.rows()); // fact: both polyhedra are representable
        let growth = grow_value(alloc, &self.value, next, &self.thresholds, mode)?;
        let exactness = growth.exactness;
        let new = PolyhedronHead::new(growth.value, growth.thresholds)?;
        Ok((new, exactness))
    }

    // What it becomes if it isn't decided whether next lies in its value: all points.
    pub(crate) fn give_up(&self, alloc: Global, next: &Poly) -> Result<PolyhedronHead, AllocError>
        requires dims { next.now.dims ≡ self.now.value.dims }
        requires strains { (e : E.Excess) × InclusionStrains next.now self.now.value e }
        ensures grew { IfOk result (λ h. (mode : Mode) → Grew polyhedron_abstraction self.now next.now mode Flagged h) }
        ensures dims { IfOk result (λ h. h.value.dims ≡ self.now.value.dims) }
        ensures lower { IfOk result (λ h. RankBelow (head_rank h) (head_rank self.now)) }
        ensures fits { IfOk result (λ h. RankFits (head_rank h)) }
    {
        // fact: both polyhedra are representable, the thresholds in the range
        let (_rows, _others, _given) = (self.value.rows(), next.rows(), self.thresholds.rows());
        let all = give_up(alloc, &self.value, &self.thresholds)?;
        let new = PolyhedronHead::new(all.value, all.thresholds)?;
        Ok(new)
    }
}
