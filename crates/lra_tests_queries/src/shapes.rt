//! Sets in two dimensions, made of small tables.

ghost use Rattle.std.specs.Prelude.{◌≡◌, length, IfOk};

use lra_poly_domain::Row;
use lra_poly_queries::Poly;
use lra_systems::{ConKind, ConSys};
use std::alloc::{AllocError, Global};

/// Nothing is asked.
pub const NONE: Constraint = ([0, 0, 0], ConKind::Ge);

/// x at least 0.
pub const RIGHT: Constraint = ([0, 1, 0], ConKind::Ge);

/// x at least 1.
pub const RIGHT_OF_ONE: Constraint = ([-1, 1, 0], ConKind::Ge);

/// No point.
pub const NOWHERE: Constraint = ([-1, 0, 0], ConKind::Ge);

/// x = 2^126.
pub const FAR: Constraint = ([-(1 << 126), 1, 0], ConKind::Eq);

/// A constraint's three numbers, the constant first.
pub type Constraint = ([i128; 3], ConKind);

/// Why a set isn't made.
#[derive(Clone, Copy, PartialEq, Eq)]
pub enum Unfit {
    Memory,
    /// A number passes the range.
    Range,
    /// A row has another width.
    Width,
    /// A row or a generator is lost.
    Lost,
}

impl From<AllocError> for Unfit {
    fn from(_: AllocError) -> Unfit {
        Unfit::Memory
    }
}

pub fn row_of(alloc: Global, numbers: &[i128; 3]) -> Result<Row, Unfit>
    ensures { IfOk result (λ row. length row ≡ 3) }
{
    let [constant, first, second] = *numbers;
    if constant == i128::MIN || first == i128::MIN || second == i128::MIN {
        return Err(Unfit::Range);
    }
    let row = Row::from_slice(alloc, &[constant, first, second])?;
    Ok(row)
}

pub fn list_of(alloc: Global, constraints: &[Constraint]) -> Result<ConSys, Unfit>
    ensures { IfOk result (λ list. list.dims ≡ 2) }
{
    let mut list = ConSys::new(alloc, 2);
    for &(numbers, kind) in constraints.iter() {
        list.push(row_of(alloc, &numbers)?, kind)?;
    }
    Ok(list)
}

/// The set where they hold.
pub fn set_of(alloc: Global, constraints: &[Constraint]) -> Result<Poly, Unfit>
    ensures { IfOk result (λ p. p.dims ≡ 2) }
{
    let list = list_of(alloc, constraints)?;
    let (set, _) = Poly::from_rows(alloc, &list)?;
    Ok(set)
}
