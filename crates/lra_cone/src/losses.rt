//! Rows that were left out.

ghost use Rattle.std.specs.Prelude.{◌≡◌, IfOk};
ghost use Rattle.lra_systems.specs.LinearSystems.{constraints};
ghost use Rattle.lra_cone.specs.Crates.lra_linear_spec.Kinds.{is_equality};
ghost use Rattle.lra_cone.specs.Crates.lra_linear_spec.Strain as told;

use lra_systems::{Cause, ConKind, ConSys, Row};
use std::alloc::{AllocError, Global};
use std::marker::Model;

/// A row of a list: an inequality or an equality; or a point or a ray, or a line.
#[derive(Drop)]
pub struct LossRow {
    row: Row,
    equal: bool,
}

impl Model for LossRow {
    ghost use Rattle.lra_cone.specs.Crates.lra_linear_spec.Descriptions.{LinearRow};

    ghost Value = { LinearRow };

    ghost view = { λ g. record { row = g.row; equal = g.equal } };
}

impl LossRow {
    /// The row's numbers.
    pub fn row(&self) -> &Row
        ensures { result.now ≡ self.now.row }
    {
        &self.row
    }
}

/// What is reported about a row that was left out.
#[derive(Drop)]
pub struct Loss {
    chosen: Vec<LossRow>,
    further: LossRow,
    cause: Cause,
}

impl Model for Loss {
    ghost use Rattle.lra_cone.specs.Crates.lra_linear_spec.Strain as told;

    ghost Value = { told.Loss };

    ghost view = { λ l. record { chosen = l.chosen.items; further = l.further; cause = l.cause } };
}

impl Loss {
    /// The loss of this row, with these rows taken before it.
    pub fn new(
        alloc: Global,
        taken: &ConSys,
        row: &Row,
        kind: ConKind,
        cause: Cause,
    ) -> Result<Loss, AllocError>
        ensures { IfOk result (λ l. l ≡
            record {
              chosen = constraints taken.now;
              cause = cause;
              further = record { row = row.now; equal = is_equality kind };
            }) }
    {
        let chosen = given_rows(alloc, taken)?;
        let further = given_row(row, kind)?;
        Ok(Loss {
            chosen,
            further,
            cause,
        })
    }

    /// The rows taken before it.
    pub fn chosen(&self) -> &[LossRow]
        ensures { result.now ≡ self.now.chosen }
    {
        self.chosen.as_slice()
    }

    /// The row that with these passes a limit: the next one, or one of these.
    pub fn further(&self) -> &LossRow
        ensures { result.now ≡ self.now.further }
    {
        &self.further
    }

    /// What passes.
    pub fn cause(&self) -> Cause
        ensures { result ≡ self.now.cause }
    {
        self.cause
    }
}

fn given_row(row: &Row, kind: ConKind) -> Result<LossRow, AllocError>
    ensures { IfOk result (λ g. g ≡ record { row = row.now; equal = is_equality kind }) }
{
    let row = row.copy()?;
    let equal = kind == ConKind::Eq;
    Ok(LossRow { row, equal })
}

// The rows of the list.
fn given_rows(alloc: Global, list: &ConSys) -> Result<Vec<LossRow>, AllocError>
    ensures { IfOk result (λ rows. rows.items ≡ constraints list.now) }
{
    let (listed, kinds) = (list.rows(), list.kinds());
    let mut rows = Vec::with_capacity(alloc, listed.len())?;
    for place in 0..listed.len() {
        rows.push(given_row(&listed[place], kinds[place])?)?;
    }
    Ok(rows)
}
