//! Sets in two dimensions, made of small tables and compared with them.

ghost use Rattle.std.specs.Prelude.{◌≡◌, length, IfOk};

use lra_poly_domain::Row;
use lra_poly_widening::Poly;
use lra_systems::{ConKind, ConSys};
use std::alloc::{AllocError, Global};

/// A constraint's three numbers, the constant first.
pub type Constraint = ([i128; 3], ConKind);

/// Why a set isn't made.
#[derive(Clone, Copy, PartialEq, Eq)]
pub enum Unfit {
    Memory,
    /// A number passes the range.
    Range,
    /// A row has another width.
    Width,
    /// A row or a generator is lost.
    Lost,
}

impl From<AllocError> for Unfit {
    fn from(_: AllocError) -> Unfit {
        Unfit::Memory
    }
}

pub fn row_of(alloc: Global, numbers: &[i128; 3]) -> Result<Row, Unfit>
    ensures { IfOk result (λ row. length row ≡ 3) }
{
    let [constant, first, second] = *numbers;
    if constant == i128::MIN || first == i128::MIN || second == i128::MIN {
        return Err(Unfit::Range);
    }
    let row = Row::from_slice(alloc, &[constant, first, second])?;
    Ok(row)
}

pub fn list_of(alloc: Global, constraints: &[Constraint]) -> Result<ConSys, Unfit>
    ensures { IfOk result (λ list. list.dims ≡ 2) }
{
    let mut list = ConSys::new(alloc, 2);
    for &(numbers, kind) in constraints.iter() {
        list.push(row_of(alloc, &numbers)?, kind)?;
    }
    Ok(list)
}

/// The set where they hold.
pub fn set_of(alloc: Global, constraints: &[Constraint]) -> Result<Poly, Unfit>
    ensures { IfOk result (λ p. p.dims ≡ 2) }
{
    let list = list_of(alloc, constraints)?;
    let (set, _) = Poly::from_rows(alloc, &list)?;
    Ok(set)
}

fn are(rows: &[Row], want: &[[i128; 3]]) -> bool {
    if rows.len() != want.len() {
        return false;
    }
    for (row, numbers) in rows.iter().zip(want) {
        if row.entries() != numbers.as_slice() {
            return false;
        }
    }
    true
}

/// Whether these are its constraints and its generators.
pub fn shows(p: &Poly, rows: &[[i128; 3]], generators: &[[i128; 3]]) -> bool {
    are(p.rows().rows(), rows) && are(p.generators().rows(), generators)
}
