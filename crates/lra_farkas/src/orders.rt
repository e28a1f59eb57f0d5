//! The rows of a list in other orders.

ghost use Rattle.std.specs.Prelude.{◌≡◌, ◌<◌, suc, map, length, IfOk};
ghost use Rattle.std.specs.{List.All, List.Sorted.IsPermutation};
ghost use Rattle.lra_systems.specs.{Dimensions.too_many_dimensions, LinearSystems.constraints};
ghost use Rattle.lra_farkas.specs.KeyedRows.{row_of_keyed};

use lra_systems::{ConKind, ConSys, Row};
use std::alloc::{AllocError, Global};

/// Which rows come first: inequalities keep their order, equalities are put in the order of their largest entries.
#[derive(Clone, Copy, Debug, PartialEq, Eq)]
pub enum Order {
    InequalitiesFirst,
    EqualitiesFirst,
}

/// A row, and what decides its place: whether its kind comes last, and its largest entry.
#[derive(Drop)]
pub struct Keyed {
    pub key: (bool, u128),
    pub row: Row,
    pub kind: ConKind,
}

/// The largest absolute value of an entry.
fn largest_entry(row: &Row) -> u128 {
    let mut largest = 0;
    for entry in row.entries() {
        largest = largest.max(entry.unsigned_abs());
    }
    largest
}

/// What decides the place of a row.
fn key_of(order: Order, row: &Row, kind: ConKind) -> (bool, u128) {
    if kind.is_equality() {
        return (order == Order::InequalitiesFirst, largest_entry(row));
    }
    (order == Order::EqualitiesFirst, 0)
}

/// The rows in their order, each with what decides its place in another.
fn key_rows(alloc: Global, rows: &ConSys, order: Order) -> Result<Vec<Keyed>, AllocError>
    ensures rows { IfOk result (λ keyed. map row_of_keyed keyed.items ≡ constraints rows.now) }
    ensures widths { IfOk result (λ keyed.
        All (λ k. length k.row ≡ suc rows.now.dims) keyed.items) }
{
    let mut keyed = Vec::new(alloc);
    for place in 0..rows.len() {
        let (row, kind) = rows.at(place);
        let key = key_of(order, row, kind);
        let row = row.copy()?;
        keyed.push(Keyed { key, row, kind })?;
    }
    Ok(keyed)
}

/// The rows, without what decided their places.
fn unkey_rows(alloc: Global, dims: usize, keyed: &[Keyed]) -> Result<ConSys, AllocError>
    requires small { dims < too_many_dimensions }
    requires widths { All (λ k. length k.row ≡ suc dims) keyed.now }
    ensures dims { IfOk result (λ s. s.dims ≡ dims) }
    ensures rows { IfOk result (λ s. constraints s ≡ map row_of_keyed keyed.now) }
{
    let mut rows = ConSys::new(alloc, dims);
    for item in keyed {
        rows.push_copy(&item.row, item.kind)?;
    }
    Ok(rows)
}

/// The rows of the list in this order.
pub fn reorder(alloc: Global, rows: &ConSys, order: Order) -> Result<ConSys, AllocError>
    requires small { rows.now.dims < too_many_dimensions }
    ensures dims { IfOk result (λ s. s.dims ≡ rows.now.dims) }
    ensures same { IfOk result (λ s. IsPermutation (constraints rows.now) (constraints s)) }
{
    let mut keyed = key_rows(alloc, rows, order)?;
    keyed.sort_by_key(|item| item.key)?;
    unkey_rows(alloc, rows.dims(), keyed.as_slice())
}
