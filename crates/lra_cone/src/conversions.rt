//! Rows added one by one; those that exceed a limit of the cone are left out.

ghost use Rattle.std.specs.Prelude.{◌≡◌, ◌++◌, ◌∷◌, [], List, suc, length, ◌<◌, IfOk, OnOk};
ghost use Rattle.lra_cone.specs.Crates.{lra_linear_spec.Descriptions.LinearRow, lra_linear_spec.Kinds.is_equality};
ghost use Rattle.lra_systems.specs.{Dimensions.too_many_dimensions, LinearSystems.constraints};
ghost use Rattle.lra_cone.specs.Conversions.{IsConversion};

use crate::cone::Cone;
use crate::losses::Loss;
use lra_double_description::ConeError;
use lra_systems::{ConKind, ConSys, Row};
use std::alloc::{AllocError, Global};

/// The cone of the rows that were added, those of them that came after its first, and the losses of the others.
#[derive(Drop)]
pub struct Conversion {
    pub cone: Cone,
    pub kept: ConSys,
    pub losses: Vec<Loss>,
}

impl Conversion {
    // Takes a row in, or leaves it out if it exceeds a limit of the cone.
    fn take_row(&mut self, alloc: Global, row: &Row, kind: ConKind) -> Result<(), AllocError>
        requires width { length row.now ≡ suc self.old.cone.dims }
        requires dims { self.old.kept.dims ≡ self.old.cone.dims }
        ensures dims { OnOk result (self.new.cone.dims ≡ self.old.cone.dims) }
        ensures kept_dims { OnOk result (self.new.kept.dims ≡ self.old.kept.dims) }
        ensures taken { OnOk result ((first all : List LinearRow) →
            IsConversion first all (constraints self.old.kept) self.old.cone self.old.losses.items →
            IsConversion first (all ++ record { row = row.now; equal = is_equality kind } ∷ [])
            (constraints self.new.kept)
            self.new.cone self.new.losses.items) }
    {
        match self.cone.add_row(row, kind) {
            Ok(()) => {
                let _kinds = self.kept.kinds(); // fact: as many kinds as rows
                self.kept.push_copy(row, kind)?;
                Ok(())
            }
            Err(ConeError::Memory) => Err(AllocError),
            Err(ConeError::Strained(strained)) => {
                let loss = Loss::new(alloc, self.cone.taken(), row, kind, strained.cause())?;
                self.losses.push(loss)?;
                Ok(())
            }
        }
    }
}

/// Takes the rows into the cone in their order. One that exceeds a limit is left out, and the next is tried.
pub fn take_rows(alloc: Global, start: Cone, rows: &ConSys) -> Result<Conversion, AllocError>
    requires small { rows.now.dims < too_many_dimensions }
    requires dims { rows.now.dims ≡ start.dims }
    ensures dims { IfOk result (λ c. c.cone.dims ≡ start.dims) }
    ensures kept_dims { IfOk result (λ c. c.kept.dims ≡ start.dims) }
    ensures taken { IfOk result (λ c.
        IsConversion start.taken (constraints rows.now) (constraints c.kept) c.cone c.losses.items) }
{
    let mut conversion = Conversion {
        cone: start,
        kept: ConSys::new(alloc, rows.dims()),
        losses: Vec::new(alloc),
    };
    let (listed, kinds) = (rows.rows(), rows.kinds());
    for place in 0..listed.len() {
        conversion.take_row(alloc, &listed[place], kinds[place])?;
    }
    Ok(conversion)
}
