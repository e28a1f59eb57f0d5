//! The first multipliers that show a claim.

ghost use Rattle.std.specs.Prelude.{◌≡◌, ◌<◌, suc, length, IfOk, IfErr, Some, slice_get};
ghost use Rattle.lra_farkas.specs.Crates.lra_linear_spec.Descriptions.{Con, generator};
ghost use Rattle.lra_farkas.specs.Crates.{lra_linear_spec.Points.IsEmptySet, lra_linear_spec.Polyhedra.IsPolyhedronOf};
ghost use Rattle.lra_systems.specs.{Dimensions.too_many_dimensions, LinearSystems.constraints};
ghost use Rattle.lra_multipliers.specs.{MultiplierViews.multipliers_view, Multipliers.IsAnswer, Multipliers.yes};
ghost use Rattle.lra_farkas.specs.FirstMultipliers.{AreFirst, MultipliersInRange, IsMultipliersFailure};
ghost use Rattle.lra_farkas.specs.{MultiplierRows.point_of, RowsByKinds.HasNoFirst, RowsByKinds.HasNoPoint};

use crate::orders::{Order, reorder};
use crate::rows::list_rows;
use lra_multipliers::{Answer, Multipliers, check};
use lra_poly::Poly;
use lra_systems::{ConSys, Row};
use std::alloc::{AllocError, Global};

/// Why there are no multipliers.
#[derive(Clone, Copy, Debug, PartialEq, Eq)]
pub enum MultipliersFailure {
    /// No multipliers show the claim.
    NotImplied,
    /// Converting the rows of the polyhedron of all multipliers exceeds a limit in each order that is tried, or a
    /// number passes as the first are checked.
    Strained,
    Memory,
}

impl From<AllocError> for MultipliersFailure {
    ghost use Rattle.std.specs.Prelude.{◌≡◌};
    ghost use Rattle.lra_farkas.specs.declared.first.MultipliersFailure.TheVariants.{Memory};

    ghost from_gives = { λ _ e. e ≡ Memory };

    fn from(_failed: AllocError) -> MultipliersFailure {
        MultipliersFailure::Memory
    }
}

/// The polyhedron of the rows, which has a point.
fn convert(alloc: Global, rows: &ConSys) -> Result<Poly, MultipliersFailure>
    ensures is { IfOk result (IsPolyhedronOf rows.now.dims (Con (constraints rows.now))) }
    ensures some { IfOk result (λ p. ¬ (IsEmptySet p.dims (Con p.rows))) }
    ensures failure { IfErr result (HasNoFirst rows.now.dims (constraints rows.now)) }
{
    let (made, outcome) = Poly::from_rows(alloc, rows)?;
    if made.is_empty() {
        return Err(MultipliersFailure::NotImplied);
    }
    if !outcome.is_exact() {
        return Err(MultipliersFailure::Strained);
    }
    Ok(made)
}

/// The polyhedron of the rows, which has a point, as they are converted in another order.
fn convert_reordered(alloc: Global, rows: &ConSys, order: Order) -> Result<Poly, MultipliersFailure>
    requires small { rows.now.dims < too_many_dimensions }
    ensures is { IfOk result (IsPolyhedronOf rows.now.dims (Con (constraints rows.now))) }
    ensures some { IfOk result (λ p. ¬ (IsEmptySet p.dims (Con p.rows))) }
    ensures failure { IfErr result (HasNoPoint rows.now.dims (constraints rows.now)) }
{
    let reordered = reorder(alloc, rows, order)?;
    convert(alloc, &reordered)
}

/// The polyhedron of the rows, which has a point, by the first of the other orders that doesn't exceed a limit.
fn convert_otherwise(alloc: Global, rows: &ConSys) -> Result<Poly, MultipliersFailure>
    requires small { rows.now.dims < too_many_dimensions }
    ensures is { IfOk result (IsPolyhedronOf rows.now.dims (Con (constraints rows.now))) }
    ensures some { IfOk result (λ p. ¬ (IsEmptySet p.dims (Con p.rows))) }
    ensures failure { IfErr result (HasNoPoint rows.now.dims (constraints rows.now)) }
{
    match convert_reordered(alloc, rows, Order::InequalitiesFirst) {
        Err(MultipliersFailure::Strained) => {
            convert_reordered(alloc, rows, Order::EqualitiesFirst)
        }
        Err(failure) => Err(failure),
        Ok(made) => Ok(made),
    }
}

/// The polyhedron of the rows, which has a point, if the order of the list exceeds a limit by another order.
fn convert_by_any(alloc: Global, rows: &ConSys) -> Result<Poly, MultipliersFailure>
    requires small { rows.now.dims < too_many_dimensions }
    ensures is { IfOk result (IsPolyhedronOf rows.now.dims (Con (constraints rows.now))) }
    ensures some { IfOk result (λ p. ¬ (IsEmptySet p.dims (Con p.rows))) }
    ensures failure { IfErr result (HasNoFirst rows.now.dims (constraints rows.now)) }
{
    match convert(alloc, rows) {
        Err(MultipliersFailure::Strained) => convert_otherwise(alloc, rows),
        Err(failure) => Err(failure),
        Ok(made) => Ok(made),
    }
}

/// The first generator of a polyhedron with a point, as multipliers.
fn first_multipliers(alloc: Global, all: &Poly) -> Result<Multipliers, AllocError>
    requires some { ¬ (IsEmptySet all.now.dims (Con all.now.rows)) }
    requires dims { 0 < all.now.dims }
    ensures first { IfOk result (λ m. slice_get all.now.generators 0 ≡
        Some (generator (point_of (multipliers_view m)))) }
    ensures numbers { IfOk result (λ m. MultipliersInRange (multipliers_view m)) }
{
    let (point, _kind) = all.generators().at(0);
    let (_, factors) = point.entries().split_at(2);
    let factors = Vec::from_slice(alloc, factors)?;
    Multipliers::new(alloc, point.get(0), point.get(1), factors)
}

/// The first generator of the polyhedron of all multipliers that show the claim by the premises.
fn find_first(
    alloc: Global,
    premises: &ConSys,
    claim: &Row,
) -> Result<Multipliers, MultipliersFailure>
    requires width { length claim.now ≡ suc premises.now.dims }
    ensures first { IfOk result (λ m.
        AreFirst (constraints premises.now) claim.now (multipliers_view m)) }
    ensures numbers { IfOk result (λ m. MultipliersInRange (multipliers_view m)) }
    ensures failure { IfErr result (IsMultipliersFailure (constraints premises.now) claim.now) }
{
    let rows = list_rows(alloc, premises, claim)?;
    let all = convert_by_any(alloc, &rows)?;
    Ok(first_multipliers(alloc, &all)?)
}

/// The first multipliers that show the claim by the premises: the first generator of the polyhedron of all that do.
pub fn multipliers(
    alloc: Global,
    premises: &ConSys,
    claim: &Row,
) -> Result<Multipliers, MultipliersFailure>
    requires width { length claim.now ≡ suc premises.now.dims }
    ensures first { IfOk result (λ m.
        AreFirst (constraints premises.now) claim.now (multipliers_view m)) }
    ensures numbers { IfOk result (λ m. MultipliersInRange (multipliers_view m)) }
    ensures shows { IfOk result (λ m.
        IsAnswer (constraints premises.now) claim.now (multipliers_view m) yes) }
    ensures failure { IfErr result (IsMultipliersFailure (constraints premises.now) claim.now) }
{
    // fact: the premises are in the range, with as many kinds as rows
    let (_rows, _kinds) = (premises.rows(), premises.kinds());
    let first = find_first(alloc, premises, claim)?;
    match check(premises, claim, &first) {
        Answer::Wide => Err(MultipliersFailure::Strained),
        Answer::Yes | Answer::No => Ok(first),
    }
}
