//! Constraints without those that a context gives.

ghost use Rattle.std.specs.Prelude.{◌≡◌, ◌∷◌, ◌++◌, ◌<◌, ◌≤◌, List, [], suc, drop, length, IfOk};
ghost use Rattle.lra_poly_queries.specs.Crates.lra_linear_spec.Descriptions.{LinearRow};
ghost use Rattle.lra_poly_queries.specs.Crates.lra_linear_spec.Kinds.{is_equality};
ghost use Rattle.lra_poly_queries.specs.Crates.lra_linear_spec.declared.Cause.TheVariants as of_cause;
ghost use Rattle.lra_systems.specs.LinearSystems.{constraints};
ghost use Rattle.lra_poly_queries.specs.Simplified.{IsSimplified, TellsRedundant};

use crate::relation::relate;
use lra_poly::{Loss, Outcome, Poly};
use lra_systems::{Cause, ConKind, ConSys, Excess, Row, TOO_MANY_DIMENSIONS};
use std::alloc::{AllocError, Global};

// No constraint. Memory runs out from 2^62 dimensions on.
fn no_rows(alloc: Global, n: usize) -> Result<ConSys, AllocError>
    ensures dims { IfOk result (λ list. list.dims ≡ n) }
    ensures rows { IfOk result (λ list. list.rows ≡ []) }
    ensures kinds { IfOk result (λ list. list.kinds ≡ []) }
{
    if n >= TOO_MANY_DIMENSIONS {
        return Err(AllocError);
    }
    Ok(ConSys::new(alloc, n))
}

// The constraints, then those of the list from the place on.
fn join_from(front: &ConSys, list: &ConSys, start: usize) -> Result<ConSys, AllocError>
    requires dims { list.now.dims ≡ front.now.dims }
    requires start { start ≤ length list.now.rows }
    ensures dims { IfOk result (λ all. all.dims ≡ front.now.dims) }
    ensures rows { IfOk result (λ all.
        constraints all ≡ constraints front.now ++ drop start (constraints list.now)) }
{
    let mut all = front.copy()?;
    let _kinds = all.kinds(); // fact: as many kinds as rows
    for place in start..list.len() {
        let (row, kind) = list.at(place);
        all.push_copy(row, kind)?;
    }
    Ok(all)
}

// The loss of a constraint of which a product passes the range.
fn product_loss(p: &Poly, row: &Row, kind: ConKind, excess: Excess) -> Result<Loss, AllocError>
    ensures { IfOk result (λ loss. loss ≡ record {
      chosen = [];
      further = record { row = row.now; equal = is_equality kind };
      cause = of_cause.Excess excess;
    }) }
{
    let nothing = ConSys::new(p.allocator(), 0);
    let loss = Loss::new(p.allocator(), &nothing, row, kind, Cause::Excess(excess))?;
    Ok(loss)
}

// Nothing if the constraint is known to hold at each point of the context at which the others hold; else what was
// lost as it was tried.
fn try_given(
    context: &Poly,
    others: &ConSys,
    row: &Row,
    kind: ConKind,
) -> Result<Option<Outcome>, AllocError>
    requires dims { others.now.dims ≡ context.now.dims }
    requires width { length row.now ≡ suc context.now.dims }
    ensures { IfOk result (TellsRedundant context.now.dims context.now.rows (constraints others.now)
        (record { row = row.now; equal = is_equality kind })) }
{
    let mut around = context.copy()?;
    let outcome = around.add_rows(others)?;
    match relate(&around, row, kind) {
        Ok(relation) => {
            if relation.holds_on_all {
                return Ok(None);
            }
            Ok(Some(outcome))
        }
        Err(excess) => {
            let loss = product_loss(context, row, kind, excess)?;
            Ok(Some(outcome.and(Outcome::Flagged(loss))))
        }
    }
}

// Tries the constraint at the place: the others are those kept, and those after the place.
fn try_at(
    context: &Poly,
    kept: &ConSys,
    list: &ConSys,
    place: usize,
) -> Result<Option<Outcome>, AllocError>
    requires kept { kept.now.dims ≡ context.now.dims }
    requires list { list.now.dims ≡ context.now.dims }
    requires place { place < length list.now.rows }
    ensures { IfOk result (λ told. (g : LinearRow) (later : List LinearRow) →
        drop place (constraints list.now) ≡ g ∷ later →
        TellsRedundant context.now.dims context.now.rows (constraints kept.now ++ later) g told) }
{
    let _end = list.len(); // fact: as many kinds as rows
    let (row, kind) = list.at(place);
    let others = join_from(kept, list, place + 1)?;
    let told = try_given(context, &others, row, kind)?;
    Ok(told)
}

/// Simplifies a polyhedron's constraints: keeps, in their order, those that describe its points within the context.
/// From the first on, each that the context, those kept before it and those after it imply is left out. If the outcome
/// is flagged, a constraint that they imply may be among those kept.
pub fn simplify(p: &Poly, context: &Poly) -> Result<(ConSys, Outcome), AllocError>
    requires { context.now.dims ≡ p.now.dims }
    ensures dims { IfOk result (λ r. r.0.dims ≡ p.now.dims) }
    ensures simplified { IfOk result (λ r. IsSimplified p.now context.now (constraints r.0) r.1) }
{
    let list = p.rows();
    let mut kept = no_rows(p.allocator(), p.dims())?;
    let mut outcome = Outcome::Exact;
    for place in 0..list.len() {
        if let Some(told) = try_at(context, &kept, list, place)? {
            let (row, kind) = list.at(place);
            kept.push_copy(row, kind)?;
            outcome = outcome.and(told);
        }
    }
    Ok((kept, outcome))
}
