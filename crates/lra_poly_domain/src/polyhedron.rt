//! Closed polyhedra as a domain.

ghost use Rattle.std.specs.Prelude.{◌≡◌, ◌≢◌, IfOk, OnErr, OnOk};
ghost use Rattle.lra_domain.specs.{Abstraction.Grew, Parts.CapsWithin, Rank.RankBelow, Rank.RankFits};
ghost use Rattle.lra_linear_spec.specs.{Polyhedra.IsPolyhedron, Representable.IsRepresentable};
ghost use Rattle.lra_poly_domain.specs.Crates.lra_systems.LinearSystems.{constraints, generators, FitKinds};
ghost use Rattle.lra_poly_domain.specs.Abstraction.{polyhedron_abstraction};

use crate::head::PolyhedronHead;
use crate::outcomes::{exactness_of, included, opposite_of, rounded_down};
use lra_domain::{
    Backward, BaseDomain, ConSys, Domain, ExactParts, Exactness, Grown, Included, LinExpr, Mode,
    Rank, Test,
};
use lra_duality::GenSys;
use lra_poly_images::{embed, forget, image, preimage, remove_last};
use lra_poly_widening::Poly;
use std::alloc::{AllocError, Global};
use std::marker::Model;

/// A closed polyhedron: its canonical constraints and its canonical generators, which have the same points. Its stores
/// are the lists of whole numbers among them.
pub struct Polyhedron {
    poly: Poly,
}

impl Drop for Polyhedron {
    fn drop(self) {
        let Polyhedron { poly: _ } = self;
    }
}

impl Model for Polyhedron {
    ghost use Rattle.lra_linear_spec.specs.Polyhedra.{Polyhedron as Content};

    ghost Value = { Content };

    ghost view = { λ p. p.poly };
}

impl Polyhedron {
    /// A value of the domain: this polyhedron.
    pub fn of(poly: Poly) -> Polyhedron
        ensures { result ≡ poly }
    {
        Polyhedron { poly }
    }

    /// The polyhedron of the value, with all operations of polyhedra.
    pub fn as_poly(&self) -> &Poly
        ensures { result.now ≡ self.now }
    {
        &self.poly
    }

    /// The polyhedron of the value, moved out.
    pub fn into_poly(self) -> Poly
        ensures { result ≡ self }
    {
        let Polyhedron { poly } = self;
        poly
    }

    /// The constraints, in canonical order.
    pub fn rows(&self) -> &ConSys
        ensures dims { result.now.dims ≡ self.now.dims }
        ensures rows { constraints result.now ≡ self.now.rows }
        ensures canonical { IsPolyhedron self.now }
        ensures formed { IsRepresentable self.now }
    {
        self.poly.rows()
    }

    /// The points, rays and lines, in canonical order; none if there is no point.
    pub fn generators(&self) -> &GenSys
        ensures dims { result.now.dims ≡ self.now.dims }
        ensures generators { generators result.now ≡ self.now.generators }
        ensures kinds { FitKinds result.now.rows result.now.kinds }
        ensures canonical { IsPolyhedron self.now }
        ensures formed { IsRepresentable self.now }
    {
        self.poly.generators()
    }
}

impl Domain for Polyhedron {
    type Head = PolyhedronHead;

    ghost abstraction = { polyhedron_abstraction };

    ghost use Rattle.lra_poly_domain.specs.Laws.{polyhedron_laws};

    ghost laws = { polyhedron_laws };

    fn universe(alloc: Global, n: usize, _cap: u32) -> Result<Self, AllocError> {
        let poly = Poly::universe(alloc, n)?;
        let _formed = poly.rows(); // fact: the polyhedron is representable
        Ok(Polyhedron { poly })
    }

    fn empty(alloc: Global, n: usize, _cap: u32) -> Result<Self, AllocError> {
        let poly = Poly::empty(alloc, n)?;
        let _formed = poly.rows(); // fact: the polyhedron is representable
        Ok(Polyhedron { poly })
    }

    fn copy(&self, _alloc: Global) -> Result<Self, AllocError> {
        let poly = self.poly.copy()?;
        Ok(Polyhedron { poly })
    }

    fn dims(&self) -> usize {
        self.poly.dims()
    }

    fn most_parts(&self) -> u32 {
        1
    }

    /// Yes exactly if there is no rational point.
    fn is_empty(&self) -> bool {
        let _canonical = self.poly.rows(); // fact: both lists are canonical
        self.poly.is_empty()
    }

    /// The least and the greatest value on the rational points, rounded inwards to whole numbers. None of the two if
    /// a product of the form with a generator passes the range, or there is no point.
    fn bounds(&self, e: &LinExpr) -> (Option<i128>, Option<i128>) {
        let least = rounded_down(self.poly.maximise_opposite(e));
        let greatest = rounded_down(self.poly.maximise(e));
        (opposite_of(least), greatest)
    }

    fn included(&self, other: &Self) -> Included {
        included(&self.poly, &other.poly)
    }

    fn same(&self, other: &Self) -> bool {
        self.poly.same(&other.poly)
    }

    fn assign(&mut self, x: usize, e: &LinExpr) -> Result<Exactness, AllocError> {
        let outcome = image(&mut self.poly, x, e)?;
        let _formed = self.poly.rows(); // fact: the polyhedron is representable
        Ok(exactness_of(&outcome))
    }

    fn forget(&mut self, x: usize) -> Result<Exactness, AllocError> {
        let outcome = forget(&mut self.poly, x)?;
        let _formed = self.poly.rows(); // fact: the polyhedron is representable
        Ok(exactness_of(&outcome))
    }

    fn test(&mut self, t: &Test) -> Result<Exactness, AllocError> {
        let outcome = self.poly.add_test(t)?;
        let _formed = self.poly.rows(); // fact: the polyhedron is representable
        Ok(exactness_of(&outcome))
    }

    /// The hull: the least closed polyhedron with the points of both.
    fn join(&mut self, other: &Self) -> Result<Exactness, AllocError> {
        let (_rows, _others) = (self.poly.rows(), other.poly.rows()); // fact: both polyhedra are representable
        let outcome = self.poly.hull(&other.poly)?;
        let _formed = self.poly.rows(); // fact: the polyhedron is representable
        Ok(exactness_of(&outcome))
    }

    fn embed(&mut self, k: usize) -> Result<Exactness, AllocError> {
        let outcome = embed(&mut self.poly, k)?;
        let _formed = self.poly.rows(); // fact: the polyhedron is representable
        Ok(exactness_of(&outcome))
    }

    fn remove_last(&mut self, k: usize) -> Result<Exactness, AllocError> {
        let outcome = remove_last(&mut self.poly, k)?;
        let _formed = self.poly.rows(); // fact: the polyhedron is representable
        Ok(exactness_of(&outcome))
    }

    fn parts(&self, alloc: Global) -> Result<Vec<ConSys>, AllocError> {
        let rows = self.poly.rows();
        let _kinds = rows.kinds(); // fact: as many kinds as rows
        let mut parts = Vec::new(alloc);
        if self.poly.is_empty() {
            return Ok(parts);
        }
        parts.push(rows.copy()?)?;
        Ok(parts)
    }

    fn start(_alloc: Global, first: &Self, given: &ConSys) -> Result<PolyhedronHead, AllocError> {
        let head = PolyhedronHead::new(first.poly.copy()?, given.copy()?)?;
        Ok(head)
    }

    /// Grows by the join with next, or by the widening with that join; is given up if the inclusion is wide. A
    /// widening leaves of the thresholds those that hold on the old value and on the new one, with each product in the
    /// range.
    fn grow(head: &mut PolyhedronHead, next: &Self, mode: Mode) -> Result<Grown, AllocError>
        requires { polyhedron_abstraction.head_dims head.old
            ≡ polyhedron_abstraction.dims next.now }
        ensures dims { polyhedron_abstraction.head_dims head.new ≡ polyhedron_abstraction.head_dims head.old }
        ensures capped { CapsWithin (λ c. polyhedron_abstraction.head_capped head.old c ×
            polyhedron_abstraction.capped next.now c)
            (polyhedron_abstraction.head_capped head.new) }
        ensures stable { IfOk result (λ g. g ≡ Grown.Stable → head.new ≡ head.old) }
        ensures stays { IfOk result (λ g. g ≡ Grown.Stable →
            polyhedron_abstraction.answers head.old next.now mode Included.Yes) }
        ensures grew { IfOk result (λ g. (a : Exactness) → g ≡ Grown.Grew a →
            Grew polyhedron_abstraction head.old next.now mode a head.new) }
        ensures lower { IfOk result (λ g. (a : Exactness) → g ≡ Grown.Grew a → mode ≢ Mode.Join →
            RankBelow (polyhedron_abstraction.rank head.new)
            (polyhedron_abstraction.rank head.old)) }
        ensures fits { OnOk result (RankFits (polyhedron_abstraction.rank head.new)) }
        ensures err { OnErr result (head.new ≡ head.old) }
    {
        let alloc = next.poly.allocator();
        match included(&next.poly, head.value()) {
            Included::Yes => Ok(Grown::Stable),
            Included::No => {
                let (new, exactness) = head.grow_value(alloc, &next.poly, mode)?;
                *head = new;
                Ok(Grown::Grew(exactness))
            }
            Included::Wide => {
                let all = head.give_up(alloc, &next.poly)?;
                *head = all;
                Ok(Grown::Grew(Exactness::Flagged))
            }
        }
    }

    fn value(_alloc: Global, head: &PolyhedronHead) -> Result<(Self, Exactness), AllocError> {
        let _formed = head.value().rows(); // fact: the polyhedron is representable
        let poly = head.value().copy()?;
        Ok((Polyhedron { poly }, Exactness::Exact))
    }

    fn rank(head: &PolyhedronHead) -> Rank {
        head.rank()
    }
}

impl BaseDomain for Polyhedron {
    ghost use Rattle.lra_poly_domain.specs.Laws.{polyhedron_base};

    ghost base_laws = { polyhedron_base };
}

impl ExactParts for Polyhedron {
    #[tactic(auto, using(crate::proofs::PartLemmas::parts_tell))]
    fn parts_are_exact(&self) {}
}

impl Backward for Polyhedron {
    ghost use Rattle.lra_poly_domain.specs.Backward.{polyhedron_backward};

    ghost backward_abstraction = { polyhedron_backward };

    fn before_assign(&mut self, x: usize, e: &LinExpr) -> Result<Exactness, AllocError> {
        let outcome = preimage(&mut self.poly, x, e)?;
        let _formed = self.poly.rows(); // fact: the polyhedron is representable
        Ok(exactness_of(&outcome))
    }

    /// The test itself: what passed it was there before.
    fn before_test(&mut self, t: &Test) -> Result<Exactness, AllocError> {
        let told = self.poly.add_test(t)?;
        let _formed = self.poly.rows(); // fact: the polyhedron is representable
        Ok(exactness_of(&told))
    }

    fn meet(&mut self, other: &Self) -> Result<Exactness, AllocError> {
        let outcome = self.poly.meet(&other.poly)?;
        let _formed = self.poly.rows(); // fact: the polyhedron is representable
        Ok(exactness_of(&outcome))
    }
}
