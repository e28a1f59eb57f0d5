//! The widening that is limited by the tightest of given constraints.

ghost use Rattle.std.specs.{List.list_any, Prelude.◌≡◌, Prelude.◌≢◌, Prelude.ℕ, Prelude.IfErr, Prelude.IfOk};
ghost use Rattle.lra_poly_widening.specs.Crates.lra_linear_spec.Kinds.{is_equality};
ghost use Rattle.lra_poly_widening.specs.Crates.lra_linear_spec.Widening.{LimitedWidening};
ghost use Rattle.lra_poly_widening.specs.Crates.{lra_linear_spec.Descriptions.Con, lra_linear_spec.Points.IsWithin};
ghost use Rattle.lra_systems.specs.LinearSystems.{constraints};
ghost use Rattle.lra_poly.specs.Outcomes.{Becomes};
ghost use Rattle.lra_poly_widening.specs.Tightest.{is_loose, is_lower, tightest, TightestStrains};
ghost use Rattle.lra_poly_widening.specs.{Rank.Falls, Widenings.IsOutside, Widenings.IsRefusal};

use crate::error::WidenError;
use crate::lists::{given_loss, held_on_both, no_rows, push_if};
use crate::widening::widen_limited_by;
use lra_poly::{Outcome, Poly};
use lra_systems::{ConKind, ConSys, Row};
use std::alloc::{AllocError, Global};

// Whether the rows have equal coefficients, and the constant of the first is lower.
fn is_lower(one: &Row, two: &Row) -> bool
    ensures { result ≡ is_lower one.now two.now }
{
    let Some((constant, coefficients)) = one.entries().split_first() else {
        return false;
    };
    let Some((other, others)) = two.entries().split_first() else {
        return false;
    };
    *constant < *other && coefficients == others
}

// Whether one of the rows has the same coefficients and a lower constant.
fn has_lower(rows: &[Row], row: &Row) -> bool
    ensures { result ≡ list_any (λ s. is_lower s row.now) rows.now }
{
    for other in rows {
        if is_lower(other, row) {
            return true;
        }
    }
    false
}

// Whether one of the constraints is tighter than this one, which is of this kind.
fn is_loose(list: &ConSys, row: &Row, kind: ConKind) -> bool
    ensures { result ≡ is_loose (constraints list.now) (record { row = row.now; equal = is_equality kind }) }
{
    let _kinds = list.kinds(); // fact: as many kinds as rows
    match kind {
        ConKind::Eq => false,
        ConKind::Ge => has_lower(list.rows(), row),
    }
}

// Of the constraints those than which none of the others is tighter.
fn tightest(alloc: Global, list: &ConSys) -> Result<ConSys, AllocError>
    ensures dims { IfOk result (λ few. few.dims ≡ list.now.dims) }
    ensures rows { IfOk result (λ few. constraints few ≡ tightest (constraints list.now)) }
{
    let (rows, kinds) = (list.rows(), list.kinds());
    let mut few = no_rows(alloc, list.dims())?;
    for place in 0..rows.len() {
        let row = &rows[place];
        let wanted = !is_loose(list, row, kinds[place]);
        push_if(&mut few, row, kinds[place], wanted)?;
    }
    Ok(few)
}

/// The standard widening of P by Q, which P lies in, met with each given constraint that is valid on both; the tightest
/// of them alone are added. If it is flagged, it has at least those points.
pub fn limited_by_tightest(
    alloc: Global,
    p: &Poly,
    q: &Poly,
    given: &ConSys,
) -> Result<(Poly, Outcome), WidenError>
    requires second { q.now.dims ≡ p.now.dims }
    requires given { given.now.dims ≡ p.now.dims }
    requires within { IsWithin p.now.dims (Con p.now.rows) (Con q.now.rows) }
    ensures becomes { IfOk result (λ r. Becomes p.now.dims (LimitedWidening p.now q.now (constraints given.now))
        (TightestStrains p.now q.now (constraints given.now)) r.0 r.1) }
    ensures old { IfOk result (λ r. IsWithin p.now.dims (Con p.now.rows) (Con r.0.rows)) }
    ensures falls { IfOk result (λ r. r.0 ≢ p.now → Falls p.now r.0 (constraints given.now)) }
    ensures refused { IfErr result (IsRefusal p.now q.now) }
    ensures inside { IfOk result (λ _. (place : ℕ) → ¬ (IsOutside p.now q.now place)) }
{
    // fact: p and q are representable, the thresholds in the range
    let (_rows, _others, _given) = (p.rows(), q.rows(), given.rows());
    let held = held_on_both(alloc, p, q, given)?;
    let few = tightest(alloc, &held)?;
    let lost = given_loss(alloc, p, q, given)?;
    let (made, outcome) = widen_limited_by(alloc, p, q, &few)?;
    if lost.is_exact() {
        Ok((made, outcome))
    } else {
        Ok((made, lost))
    }
}
