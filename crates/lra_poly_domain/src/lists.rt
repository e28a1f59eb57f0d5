//! Lists of constraints.

ghost use Rattle.std.specs.{List.All, List.list_any, Prelude.◌≡◌, Prelude.suc, Prelude.length};
ghost use Rattle.lra_poly_domain.specs.Crates.lra_systems.LinearSystems.{constraints, generators};
ghost use Rattle.lra_poly_domain.specs.Growth.{product_passes, row_passes, some_passes};

use lra_domain::ConSys;
use lra_duality::GenSys;
use lra_row::Row;

// Whether the product of two rows passes the range.
fn passes(row: &Row, generator: &Row) -> bool
    requires { length row.now ≡ length generator.now }
    ensures { result ≡ product_passes row.now generator.now }
{
    row.dot(generator).is_err()
}

// Whether the product of the row with one of the others does.
fn passes_with_some(row: &Row, rows: &[Row]) -> bool
    requires { All (λ r. length row.now ≡ length r) rows.now }
    ensures { result ≡ list_any (product_passes row.now) rows.now }
{
    for other in rows {
        if passes(row, other) {
            return true;
        }
    }
    false
}

// Whether the product of the row with one of the generators does.
fn row_passes(row: &Row, list: &GenSys) -> bool
    requires { length row.now ≡ suc list.now.dims }
    ensures { result ≡ row_passes (generators list.now) row.now }
{
    let _kinds = list.kinds(); // fact: as many kinds as rows
    passes_with_some(row, list.rows())
}

// Whether the product of one of the rows with one of the generators does.
fn some_row_passes(rows: &[Row], list: &GenSys) -> bool
    requires { All (λ r. length r ≡ suc list.now.dims) rows.now }
    ensures { result ≡ list_any (row_passes (generators list.now)) rows.now }
{
    for row in rows {
        if row_passes(row, list) {
            return true;
        }
    }
    false
}

/// Whether the product of one of the constraints with one of the generators does.
pub fn some_passes(given: &ConSys, list: &GenSys) -> bool
    requires { list.now.dims ≡ given.now.dims }
    ensures { result ≡ some_passes (generators list.now) (constraints given.now) }
{
    let _kinds = given.kinds(); // fact: as many kinds as rows
    some_row_passes(given.rows(), list)
}
