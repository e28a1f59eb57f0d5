//! Closed polyhedra.

ghost use Rattle.std.specs.Prelude.{◌≡◌, ◌↔◌, ◌<◌, ◌∷◌, ◌++◌, [], length, drop, IsTrue, IfOk, IfSome, IsSome, IfNone};
ghost use Rattle.std.specs.Prelude.{OnErr};
ghost use Rattle.lra_poly.specs.Crates.lra_linear_spec.Descriptions.{AreGenerators, Con, Gen, Holds};
ghost use Rattle.lra_poly.specs.Crates.lra_linear_spec.OperationStrain.{AddTestStrains, MeetStrains, HullStrains};
ghost use Rattle.lra_poly.specs.Crates.lra_linear_spec.OperationStrain.{with_positivity};
ghost use Rattle.lra_poly.specs.Crates.lra_linear_spec.Points.{IsEmptySet, IsWithin, SameSet};
ghost use Rattle.lra_poly.specs.Crates.lra_linear_spec.Polyhedra.{IsPolyhedron, IsPolyhedronOf};
ghost use Rattle.lra_poly.specs.Crates.lra_linear_spec.Representable.{IsRepresentable, KeepsLimit};
ghost use Rattle.lra_poly.specs.Crates.lra_linear_spec.SetOperations.{Meet, Union, Hull};
ghost use Rattle.lra_poly.specs.Crates.lra_linear_spec.Vectors.{negated};
ghost use Rattle.lra_poly.specs.Crates.lra_systems.Dimensions.{too_many_dimensions};
ghost use Rattle.lra_poly.specs.Crates.lra_systems.LinearSystems.{constraints, generators, FitKinds};
ghost use Rattle.lra_description_pair.specs.{KeptRows.IsOfSome, OwnLists.IsPositive, TriedRows.StrainsWhenTried};
ghost use Rattle.lra_duality.specs.{Inclusions.IsInclusion, Inclusions.TellsInclusion, Maxima.IsMaximum};
ghost use Rattle.lra_duality.specs.{Maxima.ReportsMaximum, Maxima.ValueInRange, Rows.test_row, Saturations.saturation_of};
ghost use Rattle.lra_poly.specs.Outcomes.{Becomes, IfFlagged, IsOfGenerators, IsOfRows};
ghost use Rattle.lra_poly.specs.Restricted.{IsMetWith, IsRestricted, IsSeenWithin, IsTried};
ghost use Rattle.lra_poly.specs.United.{AreTriedPoints, CannotExtend, UnitesAnew};
ghost use Rattle.lra_poly.specs.declared.outcome.Outcome.TheVariants.{Exact};
ghost use Rattle.lra_poly.specs.Crates.lra_linear_forms.Form.{form_row};

use crate::outcome::{Outcome, outcome_of};
use lra_description_pair::{DescriptionPair, nothing};
use lra_duality::{
    ConSys, Cone, GenSys, Inclusion, LinExpr, Maximum, SatMatrix, Test, are_same, cone_of,
    facet_cone, inclusion_of, join_generators, join_rows, list_test, maximum_of, saturation_matrix,
};
use std::alloc::{AllocError, Global};
use std::marker::Model;

/// A closed polyhedron: its canonical constraints and its canonical generators. Two with the same points have equal
/// lists. Which of the ones are tight at which of the others is kept beside them.
pub struct Poly {
    alloc: Global,
    rows: ConSys,
    by_generators: GenSys,
    saturation: SatMatrix,
}

impl Drop for Poly {
    fn drop(self) {
        let Poly {
            alloc: _,
            rows: _,
            by_generators: _,
            saturation: _,
        } = self;
    }
}

impl Model for Poly {
    ghost use Rattle.std.specs.Prelude.{◌≡◌};
    ghost use Rattle.lra_poly.specs.Crates.lra_linear_spec.Polyhedra.{Polyhedron, IsPolyhedron};
    ghost use Rattle.lra_poly.specs.Crates.lra_linear_spec.Representable.{KeepsLimit};
    ghost use Rattle.lra_poly.specs.Crates.lra_systems.LinearSystems.{constraints, generators, FitKinds};
    ghost use Rattle.lra_duality.specs.Saturations.{saturation_of};

    ghost Value = { Polyhedron };

    ghost view = { λ s.
        record { dims = s.rows.dims; rows = constraints s.rows; generators = generators s.by_generators } };

    ghost invariant = { λ s.
        IsPolyhedron (record { dims = s.rows.dims; rows = constraints s.rows; generators = generators s.by_generators })
        × (s.by_generators.dims ≡ s.rows.dims) × FitKinds s.by_generators.rows s.by_generators.kinds
        × (s.saturation ≡ saturation_of (constraints s.rows) (generators s.by_generators))
        × KeepsLimit
        (record { dims = s.rows.dims; rows = constraints s.rows; generators = generators s.by_generators }) };
}

// The polyhedron of the pair.
fn of_pair(alloc: Global, pair: DescriptionPair) -> Poly
    ensures { result ≡ pair }
{
    let (rows, by_generators, saturation) = pair.into_parts();
    Poly {
        alloc,
        rows,
        by_generators,
        saturation,
    }
}

// The polyhedron of the constraints that were added to the cone after the positivity row, and of further ones.
fn of_cone(alloc: Global, cone: Cone, more: &ConSys) -> Result<(Poly, Outcome), AllocError>
    requires small { more.now.dims < too_many_dimensions }
    requires dims { cone.dims ≡ more.now.dims }
    requires positive { IsPositive more.now.dims cone.taken }
    ensures { IfOk result (λ r. IsTried more.now.dims cone.taken (constraints more.now) r.0 r.1) }
{
    let (pair, losses) = lra_description_pair::from_cone(alloc, cone, more)?;
    let made = of_pair(alloc, pair);
    Ok((made, outcome_of(losses)))
}

// The polyhedron of the generators that were added to the cone, and of further ones, if none of these is left out.
fn of_facets(alloc: Global, cone: Cone, more: &GenSys) -> Result<Option<Poly>, AllocError>
    requires small { more.now.dims < too_many_dimensions }
    requires dims { cone.dims ≡ more.now.dims }
    requires kinds { FitKinds more.now.rows more.now.kinds }
    requires columns { AreGenerators cone.taken }
    requires some { ¬ (IsEmptySet more.now.dims (Gen (cone.taken ++ generators more.now))) }
    ensures made { IfOk result (λ made. IfSome made
        (IsPolyhedronOf more.now.dims (Gen (cone.taken ++ generators more.now)))) }
    ensures none { IfOk result (λ made. IfNone made
        (StrainsWhenTried more.now.dims cone.taken (generators more.now))) }
{
    match lra_description_pair::with_generators(alloc, cone, more)? {
        Some(pair) => {
            let made = of_pair(alloc, pair);
            Ok(Some(made))
        }
        None => Ok(None),
    }
}

impl Poly {
    /// All points of n dimensions.
    pub fn universe(alloc: Global, n: usize) -> Result<Poly, AllocError>
        requires { n < too_many_dimensions }
        ensures { IfOk result (IsPolyhedronOf n (Con [])) }
    {
        let pair = lra_description_pair::universe(alloc, n)?;
        let all = of_pair(alloc, pair);
        Ok(all)
    }

    /// No point, in n dimensions.
    pub fn empty(alloc: Global, n: usize) -> Result<Poly, AllocError>
        requires { n < too_many_dimensions }
        ensures dims { IfOk result (λ p. p.dims ≡ n) }
        ensures none { IfOk result (λ p. IsEmptySet n (Con p.rows)) }
        ensures canonical { IfOk result IsPolyhedron }
    {
        let rows = nothing(alloc, n)?;
        let by_generators = GenSys::new(alloc, n);
        let saturation = saturation_matrix(alloc, &rows, &by_generators)?;
        Ok(Poly {
            alloc,
            rows,
            by_generators,
            saturation,
        })
    }

    /// The polyhedron of the constraints. If it is flagged, it has at least the points of the constraints.
    pub fn from_rows(alloc: Global, rows: &ConSys) -> Result<(Poly, Outcome), AllocError>
        ensures becomes { IfOk result (λ r. IsOfRows rows.now.dims (constraints rows.now) r.0 r.1) }
        ensures some { IfOk result (λ r. IsOfSome rows.now.dims (constraints rows.now) r.0) }
        ensures tried { IfOk result (λ r.
            IsTried rows.now.dims (with_positivity rows.now.dims []) (constraints rows.now) r.0 r.1) }
    {
        let (pair, losses) = lra_description_pair::from_rows(alloc, rows)?;
        let made = of_pair(alloc, pair);
        Ok((made, outcome_of(losses)))
    }

    /// The polyhedron of the generators. If it is flagged, it has at least the points of the generators.
    pub fn from_generators(alloc: Global, given: &GenSys) -> Result<(Poly, Outcome), AllocError>
        requires { FitKinds given.now.rows given.now.kinds }
        ensures becomes { IfOk result (λ r. IsOfGenerators given.now.dims (generators given.now) r.0 r.1) }
        ensures tried { IfOk result (λ r.
            IfFlagged (λ _. AreTriedPoints given.now.dims (generators given.now) r.0 r.1) r.1) }
    {
        let (pair, losses) = lra_description_pair::from_generators(alloc, given)?;
        let made = of_pair(alloc, pair);
        Ok((made, outcome_of(losses)))
    }

    /// The polyhedron with these two lists, which are its canonical ones.
    pub fn from_canonical(
        alloc: Global,
        rows: ConSys,
        by_generators: GenSys,
    ) -> Result<Poly, AllocError>
        requires canonical { IsPolyhedron (record {
          dims = rows.dims;
          rows = constraints rows;
          generators = generators by_generators;
        }) }
        requires limit { KeepsLimit (record {
          dims = rows.dims;
          rows = constraints rows;
          generators = generators by_generators;
        }) }
        requires dims { by_generators.dims ≡ rows.dims }
        requires kinds { FitKinds by_generators.rows by_generators.kinds }
        ensures { IfOk result (λ p. p ≡ record {
          dims = rows.dims;
          rows = constraints rows;
          generators = generators by_generators;
        }) }
    {
        let saturation = saturation_matrix(alloc, &rows, &by_generators)?;
        Ok(Poly {
            alloc,
            rows,
            by_generators,
            saturation,
        })
    }

    /// A copy of the polyhedron.
    pub fn copy(&self) -> Result<Poly, AllocError>
        ensures { IfOk result (λ p. p ≡ self.now) }
    {
        Ok(Poly {
            alloc: self.alloc,
            rows: self.rows.copy()?,
            by_generators: self.by_generators.copy()?,
            saturation: self.saturation.copy()?,
        })
    }

    /// Where it takes memory.
    pub fn allocator(&self) -> Global {
        self.alloc
    }

    /// The number of dimensions.
    pub fn dims(&self) -> usize
        ensures { result ≡ self.now.dims }
    {
        self.rows.dims()
    }

    /// The constraints, in canonical order.
    pub fn rows(&self) -> &ConSys
        ensures dims { result.now.dims ≡ self.now.dims }
        ensures rows { constraints result.now ≡ self.now.rows }
        ensures canonical { IsPolyhedron self.now }
        ensures formed { IsRepresentable self.now }
    {
        let (_rows, _others) = (self.rows.rows(), self.by_generators.rows()); // fact: both lists are in the range
        &self.rows
    }

    /// The points, rays and lines, in canonical order; none if there is no point.
    pub fn generators(&self) -> &GenSys
        ensures dims { result.now.dims ≡ self.now.dims }
        ensures generators { generators result.now ≡ self.now.generators }
        ensures kinds { FitKinds result.now.rows result.now.kinds }
        ensures canonical { IsPolyhedron self.now }
        ensures formed { IsRepresentable self.now }
    {
        let (_rows, _others) = (self.rows.rows(), self.by_generators.rows()); // fact: both lists are in the range
        &self.by_generators
    }

    /// Both lists, given up: the constraints and the generators, in canonical order. `from_canonical` takes them back.
    pub fn into_parts(self) -> (ConSys, GenSys)
        ensures dims { result.0.dims ≡ self.dims }
        ensures rows { constraints result.0 ≡ self.rows }
        ensures generator_dims { result.1.dims ≡ self.dims }
        ensures generators { generators result.1 ≡ self.generators }
        ensures kinds { FitKinds result.1.rows result.1.kinds }
        ensures canonical { IsPolyhedron self }
        ensures limit { KeepsLimit self }
    {
        let Poly {
            alloc: _,
            rows,
            by_generators,
            saturation: _,
        } = self;
        (rows, by_generators)
    }

    /// Which constraints are tight at which generators: a row for each constraint with a column for each generator,
    /// true exactly if their product is 0. It is made with the two lists, so there always is one.
    pub fn saturation(&self) -> Option<&SatMatrix>
        ensures some { IsSome result }
        ensures matrix { IfSome result (λ m. m.now ≡ saturation_of self.now.rows self.now.generators) }
    {
        Some(&self.saturation)
    }

    /// Whether it has no point.
    pub fn is_empty(&self) -> bool
        ensures { IsTrue result ↔ IsEmptySet self.now.dims (Con self.now.rows) }
    {
        self.by_generators.kinds().is_empty()
    }

    /// Whether each point is in the other.
    pub fn included(&self, other: &Poly) -> Inclusion
        requires { other.now.dims ≡ self.now.dims }
        ensures first { IsInclusion other.now.rows self.now.generators result }
        ensures tells { TellsInclusion self.now other.now result }
    {
        inclusion_of(&self.by_generators, &other.rows)
    }

    /// The greatest value of the form, and the first point that has it; or why there is none.
    pub fn maximise(&self, form: &LinExpr) -> Maximum
        requires { length form.now.coefficients ≡ self.now.dims }
        ensures first { IsMaximum (form_row form.now) self.now.generators result }
        ensures tells { ReportsMaximum self.now (form_row form.now) result }
        ensures range { ValueInRange result }
    {
        let _kinds = self.by_generators.kinds(); // fact: as many kinds as generators
        maximum_of(form, false, &self.by_generators)
    }

    /// The greatest value of the form's opposite: with its sign turned, the least value of the form.
    pub fn maximise_opposite(&self, form: &LinExpr) -> Maximum
        requires { length form.now.coefficients ≡ self.now.dims }
        ensures first { IsMaximum (negated (form_row form.now)) self.now.generators result }
        ensures tells { ReportsMaximum self.now (negated (form_row form.now)) result }
        ensures range { ValueInRange result }
    {
        let _kinds = self.by_generators.kinds(); // fact: as many kinds as generators
        maximum_of(form, true, &self.by_generators)
    }

    /// Whether both have the same dimensions and the same points, which is given by their lists alone.
    pub fn same(&self, other: &Poly) -> bool
        ensures lists { IsTrue result ↔ (self.now ≡ other.now) }
        ensures points { self.now.dims ≡ other.now.dims →
            (IsTrue result ↔ SameSet self.now.dims (Con self.now.rows) (Con other.now.rows)) }
    {
        if self.dims() != other.dims() {
            return false;
        }
        are_same(self.rows(), other.rows())
    }

    // Whether it is known that each point is in the other.
    fn lies_in(&self, other: &Poly) -> bool
        requires { other.now.dims ≡ self.now.dims }
        ensures within { IsTrue result → IsWithin self.now.dims (Con self.now.rows) (Con other.now.rows) }
        ensures first { IsTrue result ↔ IsSeenWithin self.now other.now.rows }
    {
        match self.included(other) {
            Inclusion::Yes => true,
            Inclusion::No(_) => false,
            Inclusion::Wide(_, _) => false,
        }
    }

    // Whether it is known that each point meets each of the constraints.
    fn meets(&self, list: &ConSys) -> bool
        requires { list.now.dims ≡ self.now.dims }
        ensures within { IsTrue result → IsWithin self.now.dims (Con self.now.rows) (Con (constraints list.now)) }
        ensures first { IsTrue result ↔ IsSeenWithin self.now (constraints list.now) }
        ensures canonical { IsPolyhedron self.now }
    {
        match inclusion_of(&self.by_generators, list) {
            Inclusion::Yes => true,
            Inclusion::No(_) => false,
            Inclusion::Wide(_, _) => false,
        }
    }

    // The polyhedron of the constraints and of these, converted from nothing. If it is flagged, it has at least their
    // points.
    fn meet_rows_anew(&self, more: &ConSys) -> Result<(Poly, Outcome), AllocError>
        requires { more.now.dims ≡ self.now.dims }
        ensures { IfOk result (λ r. IsTried self.now.dims (with_positivity self.now.dims [])
            (self.now.rows ++ constraints more.now) r.0 r.1) }
    {
        let list = join_rows(&self.rows, more)?;
        let (made, outcome) = Poly::from_rows(self.alloc, &list)?;
        Ok((made, outcome))
    }

    // The polyhedron of the constraints and of these, which are added after them, by the lists at hand.
    fn meet_rows(&self, more: &ConSys) -> Result<(Poly, Outcome), AllocError>
        requires { more.now.dims ≡ self.now.dims }
        ensures becomes { IfOk result (λ r.
            IsOfRows self.now.dims (self.now.rows ++ constraints more.now) r.0 r.1) }
        ensures met { IfOk result (λ r. IsMetWith self.now (constraints more.now) r.0 r.1) }
    {
        match cone_of(
            self.alloc,
            &self.rows,
            &self.by_generators,
            &self.saturation,
        )? {
            Some(cone) => {
                let (made, outcome) = of_cone(self.alloc, cone, more)?;
                Ok((made, outcome))
            }
            None => {
                let (made, outcome) = self.meet_rows_anew(more)?;
                Ok((made, outcome))
            }
        }
    }

    /// Takes these constraints in: keeps the points that meet each of them. If each point is seen to meet them,
    /// nothing changes. If it is flagged, it has at least those points, and no point that it hadn't before: what was
    /// made comes in only if it is known to lie in the old value.
    pub fn add_rows(&mut self, more: &ConSys) -> Result<Outcome, AllocError>
        requires { more.now.dims ≡ self.old.dims }
        ensures dims { self.new.dims ≡ self.old.dims }
        ensures becomes { IfOk result
            (IsOfRows self.old.dims (self.old.rows ++ constraints more.now) self.new) }
        ensures inside { IfOk result (λ _. IsWithin self.old.dims (Con self.new.rows) (Con self.old.rows)) }
        ensures unchanged { OnErr result (self.new ≡ self.old) }
        ensures met { IsSeenWithin self.old (constraints more.now) →
            (self.new ≡ self.old) × IfOk result (λ o. o ≡ Exact) }
        ensures kept { IfOk result (IsRestricted self.old (constraints more.now) self.new) }
    {
        if self.meets(more) {
            return Ok(Outcome::Exact);
        }
        let (made, outcome) = self.meet_rows(more)?;
        match &outcome {
            Outcome::Exact => *self = made,
            Outcome::Flagged(_) => {
                if made.lies_in(self) {
                    *self = made;
                }
            }
        }
        Ok(outcome)
    }

    /// Becomes the meet with the other: the points of both. If it is flagged, it has at least those, and no point
    /// that it hadn't before: the rows that strained when they were tried are left out. If each point is seen to be
    /// in the other, nothing changes.
    pub fn meet(&mut self, other: &Poly) -> Result<Outcome, AllocError>
        requires { other.now.dims ≡ self.old.dims }
        ensures dims { self.new.dims ≡ self.old.dims }
        ensures becomes { IfOk result (Becomes self.old.dims
            (Meet (Con self.old.rows) (Con other.now.rows)) (MeetStrains self.old other.now) self.new) }
        ensures inside { IfOk result (λ _. IsWithin self.old.dims (Con self.new.rows) (Con self.old.rows)) }
        ensures unchanged { OnErr result (self.new ≡ self.old) }
        ensures met { IsSeenWithin self.old other.now.rows →
            (self.new ≡ self.old) × IfOk result (λ o. o ≡ Exact) }
        ensures kept { IfOk result (IsRestricted self.old other.now.rows self.new) }
    {
        let rows = other.rows();
        let outcome = self.add_rows(rows)?;
        Ok(outcome)
    }

    /// Keeps the points that pass the test. If it is flagged, it has at least those, and no point that it hadn't
    /// before. If each point is seen to pass, nothing changes.
    pub fn add_test(&mut self, test: &Test) -> Result<Outcome, AllocError>
        requires { length test.now.expr.coefficients ≡ self.old.dims }
        ensures dims { self.new.dims ≡ self.old.dims }
        ensures becomes { IfOk result (Becomes self.old.dims
            (Meet (Con self.old.rows) (Holds (test_row test.now.kind test.now.expr)))
            (AddTestStrains self.old (test_row test.now.kind test.now.expr)) self.new) }
        ensures inside { IfOk result (λ _. IsWithin self.old.dims (Con self.new.rows) (Con self.old.rows)) }
        ensures unchanged { OnErr result (self.new ≡ self.old) }
        ensures met { IsSeenWithin self.old (test_row test.now.kind test.now.expr ∷ []) →
            (self.new ≡ self.old) × IfOk result (λ o. o ≡ Exact) }
        ensures kept { IfOk result (IsRestricted self.old (test_row test.now.kind test.now.expr ∷ []) self.new) }
    {
        let row = list_test(self.alloc, test)?;
        let outcome = self.add_rows(&row)?;
        Ok(outcome)
    }

    /// The polyhedron of its generators and of these, which are added after them, by the lists at hand. None if
    /// one of these isn't added, or if a number passes in the canonical generators, or there are too many, or
    /// there are no lists to go on from.
    pub fn extend(&self, more: &GenSys) -> Result<Option<Poly>, AllocError>
        requires dims { more.now.dims ≡ self.now.dims }
        requires kinds { FitKinds more.now.rows more.now.kinds }
        ensures made { IfOk result (λ made. IfSome made
            (IsPolyhedronOf self.now.dims (Gen (self.now.generators ++ generators more.now)))) }
        ensures none { IfOk result (λ made. IfNone made (CannotExtend self.now (generators more.now))) }
    {
        match facet_cone(
            self.alloc,
            &self.rows,
            &self.by_generators,
            &self.saturation,
        )? {
            Some(cone) => {
                let made = of_facets(self.alloc, cone, more)?;
                Ok(made)
            }
            None => Ok(None),
        }
    }

    // The polyhedron of its generators and of these, converted from nothing. If it is flagged, it has at least their
    // points.
    fn unite_anew(&self, more: &GenSys) -> Result<(Poly, Outcome), AllocError>
        requires dims { more.now.dims ≡ self.now.dims }
        requires kinds { FitKinds more.now.rows more.now.kinds }
        ensures becomes { IfOk result (λ r.
            IsOfGenerators self.now.dims (self.now.generators ++ generators more.now) r.0 r.1) }
        ensures tried { IfOk result (λ r. IfFlagged (λ _.
            AreTriedPoints self.now.dims (self.now.generators ++ generators more.now) r.0
            r.1) r.1) }
    {
        let all = join_generators(&self.by_generators, more)?;
        let (made, outcome) = Poly::from_generators(self.alloc, &all)?;
        Ok((made, outcome))
    }

    // The polyhedron of its generators and of these, by the lists at hand if these can be extended.
    fn unite(&self, more: &GenSys) -> Result<(Poly, Outcome), AllocError>
        requires dims { more.now.dims ≡ self.now.dims }
        requires kinds { FitKinds more.now.rows more.now.kinds }
        ensures becomes { IfOk result (λ r.
            IsOfGenerators self.now.dims (self.now.generators ++ generators more.now) r.0 r.1) }
        ensures anew { IfOk result (λ r. IfFlagged (λ _.
            UnitesAnew self.now (generators more.now) r.0 r.1) r.1) }
    {
        match self.extend(more)? {
            Some(made) => Ok((made, Outcome::Exact)),
            None => {
                let (made, outcome) = self.unite_anew(more)?;
                Ok((made, outcome))
            }
        }
    }

    /// Takes these generators in: becomes the polyhedron of its own and of these, which are added after them, by the
    /// lists at hand if these can be gone on from. If it is flagged, it has at least their points.
    pub fn add_generators(&mut self, more: &GenSys) -> Result<Outcome, AllocError>
        requires dims { more.now.dims ≡ self.old.dims }
        requires kinds { FitKinds more.now.rows more.now.kinds }
        ensures dims { self.new.dims ≡ self.old.dims }
        ensures becomes { IfOk result
            (IsOfGenerators self.old.dims (self.old.generators ++ generators more.now) self.new) }
        ensures anew { IfOk result (λ o. IfFlagged (λ _.
            UnitesAnew self.old (generators more.now) self.new o) o) }
        ensures unchanged { OnErr result (self.new ≡ self.old) }
    {
        let (made, outcome) = self.unite(more)?;
        *self = made;
        Ok(outcome)
    }

    /// Becomes the hull with the other: the least closed polyhedron that has the points of both. If the other is seen
    /// to lie in it, nothing changes. If it is flagged, it has at least its points: then the generators of both
    /// were converted from nothing, since it can't be gone on from the lists at hand, or one exceeds a limit after
    /// them.
    pub fn hull(&mut self, other: &Poly) -> Result<Outcome, AllocError>
        requires { other.now.dims ≡ self.old.dims }
        ensures dims { self.new.dims ≡ self.old.dims }
        ensures becomes { IfOk result (Becomes self.old.dims
            (Hull self.old.dims (Union (Con self.old.rows) (Con other.now.rows)))
            (HullStrains self.old other.now) self.new) }
        ensures anew { IfOk result (λ o. IfFlagged (λ _.
            UnitesAnew self.old other.now.generators self.new o) o) }
        ensures met { IsSeenWithin other.now self.old.rows →
            (self.new ≡ self.old) × IfOk result (λ o. o ≡ Exact) }
        ensures unchanged { OnErr result (self.new ≡ self.old) }
    {
        let (_rows, _others) = (self.rows(), other.rows()); // fact: both polyhedra are representable
        if other.lies_in(self) {
            return Ok(Outcome::Exact);
        }
        let more = other.generators();
        let (made, outcome) = self.unite(more)?;
        *self = made;
        Ok(outcome)
    }
}
