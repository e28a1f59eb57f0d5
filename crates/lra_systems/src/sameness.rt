//! Lists that are the same.

ghost use Rattle.std.specs.Prelude.{◌≡◌, ◌↔◌, IsTrue};
ghost use Rattle.lra_systems.specs.LinearSystems.{constraints};

use crate::system::ConSys;
use lra_linear_spec::ConKind;
use lra_row::Row;

// Whether they have the same rows in the same order.
fn are_same_rows(rows: &[Row], others: &[Row]) -> bool
    ensures { IsTrue result ↔ (rows.now ≡ others.now) }
{
    if rows.len() != others.len() {
        return false;
    }
    for place in 0..rows.len() {
        if !rows[place].same(&others[place]) {
            return false;
        }
    }
    true
}

// Whether they have the same kinds in the same order.
fn are_same_kinds(kinds: &[ConKind], others: &[ConKind]) -> bool
    ensures { IsTrue result ↔ (kinds.now ≡ others.now) }
{
    if kinds.len() != others.len() {
        return false;
    }
    for place in 0..kinds.len() {
        if kinds[place] != others[place] {
            return false;
        }
    }
    true
}

/// Whether they have the same constraints in the same order.
pub fn are_same(one: &ConSys, two: &ConSys) -> bool
    ensures { IsTrue result ↔ (constraints one.now ≡ constraints two.now) }
{
    let (kinds, others) = (one.kinds(), two.kinds());
    are_same_rows(one.rows(), two.rows()) && are_same_kinds(kinds, others)
}
