//! The constraints that widenings take in.

ghost use Rattle.std.specs.Prelude.{◌≡◌, ◌++◌, ◌∷◌, [], suc, cond, length, map, Bool, List, IfOk, OnOk};
ghost use Rattle.lra_poly_widening.specs.Crates.lra_linear_spec.Descriptions.{Con, LinearRow};
ghost use Rattle.lra_poly_widening.specs.Crates.lra_linear_spec.Kinds.{is_equality};
ghost use Rattle.lra_poly_widening.specs.Crates.lra_linear_spec.OperationStrain.{tight_on, valid_on};
ghost use Rattle.lra_poly_widening.specs.Crates.lra_linear_spec.Polyhedra.{IsPolyhedronOf};
ghost use Rattle.lra_poly_widening.specs.Crates.lra_linear_spec.declared.Cause.TheVariants as of_cause;
ghost use Rattle.lra_systems.specs.LinearSystems.{constraints};
ghost use Rattle.lra_poly_widening.specs.Crates.{lra_duality.Inclusions.IsInclusion, lra_duality.Saturations.saturated};
ghost use Rattle.lra_poly_widening.specs.Crates.{lra_duality.declared.inclusion.Inclusion.TheVariants.Wide};
ghost use Rattle.lra_poly_widening.specs.Crates.{lra_linear_spec.Widening.is_tight};
ghost use Rattle.lra_poly.specs.Outcomes.{IfExact, IfFlagged};
ghost use Rattle.lra_poly_widening.specs.{Rank.kept_thresholds, Widenings.PassesOnBoth};

use crate::saturation::{all_saturated, is_full_or_among};
use crate::validity::{holds_on_both, validity_on_both};
use lra_poly::{BitRow, Loss, Outcome, Poly, mark_saturated};
use lra_systems::{Cause, ConKind, ConSys, Excess, Row, TOO_MANY_DIMENSIONS};
use std::alloc::{AllocError, Global};

/// No constraint in n dimensions.
pub fn no_rows(alloc: Global, n: usize) -> Result<ConSys, AllocError>
    ensures dims { IfOk result (λ list. list.dims ≡ n) }
    ensures none { IfOk result (λ list. constraints list ≡ []) }
{
    if n >= TOO_MANY_DIMENSIONS {
        return Err(AllocError);
    }
    Ok(ConSys::new(alloc, n))
}

/// All points of n dimensions.
pub fn universe(alloc: Global, n: usize) -> Result<Poly, AllocError>
    ensures { IfOk result (IsPolyhedronOf n (Con [])) }
{
    if n >= TOO_MANY_DIMENSIONS {
        return Err(AllocError);
    }
    Poly::universe(alloc, n)
}

// Puts a copy of the row after the others.
fn push_copy(list: &mut ConSys, row: &Row, kind: ConKind) -> Result<(), AllocError>
    requires { length row.now ≡ suc list.old.dims }
    ensures dims { list.new.dims ≡ list.old.dims }
    ensures rows { OnOk result (constraints list.new ≡
        constraints list.old ++ record { row = row.now; equal = is_equality kind } ∷ []) }
{
    let _kinds = list.kinds(); // fact: as many kinds as rows
    let copied = row.copy()?;
    list.push(copied, kind)?;
    Ok(())
}

/// Puts a copy of the row after the others if it is wanted.
pub fn push_if(list: &mut ConSys, row: &Row, kind: ConKind, wanted: bool) -> Result<(), AllocError>
    requires { length row.now ≡ suc list.old.dims }
    ensures dims { list.new.dims ≡ list.old.dims }
    ensures rows { OnOk result (constraints list.new ≡
        constraints list.old ++ cond wanted (record { row = row.now; equal = is_equality kind } ∷ []) []) }
{
    if wanted {
        push_copy(list, row, kind)?;
    }
    Ok(())
}

// Whether the row is tight on the polyhedron, whose constraints saturate these generators.
fn is_tight(alloc: Global, p: &Poly, row: &Row, classes: &[BitRow]) -> Result<bool, AllocError>
    requires width { length row.now ≡ suc p.now.dims }
    requires classes { classes.now ≡ map (λ s. saturated p.now.generators s.row) p.now.rows }
    ensures { IfOk result (λ b. (equal : Bool) → b ≡ is_tight p.now (record { row = row.now; equal = equal })) }
{
    let bits = mark_saturated(alloc, row, p.generators())?;
    let stays = is_full_or_among(&bits, classes);
    Ok(stays)
}

/// The constraints of the second that are tight on the first.
pub fn tight_rows(alloc: Global, p: &Poly, q: &Poly) -> Result<ConSys, AllocError>
    requires { q.now.dims ≡ p.now.dims }
    ensures dims { IfOk result (λ list. list.dims ≡ p.now.dims) }
    ensures rows { IfOk result (λ list. constraints list ≡ tight_on p.now q.now) }
{
    let (own, generators, list) = (p.rows(), p.generators(), q.rows());
    let classes = all_saturated(alloc, own, generators)?;
    let (rows, kinds) = (list.rows(), list.kinds());
    let mut tight = no_rows(alloc, p.dims())?;
    for place in 0..rows.len() {
        let row = &rows[place];
        let wanted = is_tight(alloc, p, row, &classes)?;
        push_if(&mut tight, row, kinds[place], wanted)?;
    }
    Ok(tight)
}

/// Puts the given constraints that hold in the range on both after the others.
pub fn add_held(list: &mut ConSys, p: &Poly, q: &Poly, given: &ConSys) -> Result<(), AllocError>
    requires second { q.now.dims ≡ p.now.dims }
    requires given { given.now.dims ≡ p.now.dims }
    requires dims { list.old.dims ≡ p.now.dims }
    ensures dims { list.new.dims ≡ p.now.dims }
    ensures rows { OnOk result (constraints list.new ≡
        constraints list.old ++ kept_thresholds p.now q.now (constraints given.now)) }
{
    let (rows, kinds) = (given.rows(), given.kinds());
    for place in 0..rows.len() {
        let row = &rows[place];
        let wanted = holds_on_both(row, kinds[place], p, q);
        push_if(list, row, kinds[place], wanted)?;
    }
    Ok(())
}

/// The given constraints that hold on both, with each product in the range: those that are left to a head whose value
/// was the first and became the second.
pub fn held_on_both(alloc: Global, p: &Poly, q: &Poly, given: &ConSys) -> Result<ConSys, AllocError>
    requires second { q.now.dims ≡ p.now.dims }
    requires given { given.now.dims ≡ p.now.dims }
    ensures dims { IfOk result (λ list. list.dims ≡ p.now.dims) }
    ensures rows { IfOk result (λ list. constraints list ≡ kept_thresholds p.now q.now (constraints given.now)) }
{
    let mut list = no_rows(alloc, p.dims())?;
    add_held(&mut list, p, q, given)?;
    Ok(list)
}

// The loss of a row of which a product passes the range.
fn product_loss(alloc: Global, row: &Row, kind: ConKind, excess: Excess) -> Result<Loss, AllocError>
    ensures { IfOk result (λ loss. loss ≡ record {
      chosen = [];
      further = record { row = row.now; equal = is_equality kind };
      cause = of_cause.Excess excess;
    }) }
{
    let nothing = no_rows(alloc, 0)?;
    Loss::new(alloc, &nothing, row, kind, Cause::Excess(excess))
}

/// The loss of the first given constraint that isn't known to fail and a product of which passes the range.
pub fn given_loss(alloc: Global, p: &Poly, q: &Poly, given: &ConSys) -> Result<Outcome, AllocError>
    requires second { q.now.dims ≡ p.now.dims }
    requires given { given.now.dims ≡ p.now.dims }
    ensures exact { IfOk result (IfExact (kept_thresholds p.now q.now (constraints given.now) ≡
        valid_on p.now q.now (constraints given.now))) }
    ensures flagged { IfOk result (IfFlagged (PassesOnBoth p.now q.now (constraints given.now))) }
{
    let (rows, kinds) = (given.rows(), given.kinds());
    for place in 0..rows.len() {
        let row = &rows[place];
        match validity_on_both(row, kinds[place], p, q).excess() {
            Some(excess) => {
                let loss = product_loss(alloc, row, kinds[place], excess)?;
                return Ok(Outcome::Flagged(loss));
            }
            None => {}
        }
    }
    Ok(Outcome::Exact)
}

/// The loss of the constraint of the second, at the place, whose product with the generator of the first passes.
pub fn inclusion_loss(
    alloc: Global,
    p: &Poly,
    q: &Poly,
    generator: usize,
    row: usize,
) -> Result<Loss, AllocError>
    requires dims { q.now.dims ≡ p.now.dims }
    requires wide { IsInclusion q.now.rows p.now.generators (Wide generator row) }
    ensures { IfOk result (λ loss. (given : List LinearRow) → PassesOnBoth p.now q.now given loss) }
{
    let (list, generators) = (q.rows(), p.generators());
    let (rows, kinds) = (list.rows(), list.kinds());
    let (columns, _kinds) = (generators.rows(), generators.kinds());
    let broken = &rows[row];
    match broken.dot(&columns[generator]) {
        Ok(_) => unreachable!(),
        Err(excess) => product_loss(alloc, broken, kinds[row], excess),
    }
}
