//! Lists of constraints and of generators, as they are added and reported.

ghost use Rattle.std.specs.List.{All, Contains};
ghost use Rattle.std.specs.Prelude.{◌≡◌, ◌↔◌, ◌∷◌, [], ℤ, List, suc, length, map, ◌<◌, IsTrue, IsFalse, IfOk};
ghost use Rattle.lra_descriptions.specs.Crates.lra_linear_spec.Kinds.{is_equality};
ghost use Rattle.lra_descriptions.specs.Crates.lra_linear_spec.OperationStrain.{unit_row};
ghost use Rattle.lra_descriptions.specs.Crates.lra_linear_spec.Vectors.{negated};
ghost use Rattle.lra_descriptions.specs.Crates.lra_linear_spec.declared.ConKind.TheVariants.{Ge};
ghost use Rattle.lra_descriptions.specs.Crates.lra_linear_spec.declared.GenKind.TheVariants.{Point};
ghost use Rattle.lra_systems.specs.{Dimensions.too_many_dimensions, LinearSystems.constraints};
ghost use Rattle.lra_descriptions.specs.ShownLists.{dual_kind, IsSeenValid};

use lra_systems::{ConKind, ConSys, GenKind, GenSys, Row, unit};
use std::alloc::{AllocError, Global};

// What is asked of the product of a constraint with such a generator.
fn dual_kind(kind: GenKind) -> ConKind
    ensures { result ≡ dual_kind kind }
{
    match kind {
        GenKind::Point => ConKind::Ge,
        GenKind::Ray => ConKind::Ge,
        GenKind::Line => ConKind::Eq,
    }
}

/// The generators as rows of the cone of what is valid on them.
pub fn dual_rows(alloc: Global, given: &GenSys) -> Result<ConSys, AllocError>
    requires { given.now.dims < too_many_dimensions }
    ensures dims { IfOk result (λ rows. rows.dims ≡ given.now.dims) }
    ensures rows { IfOk result (λ rows. rows.rows ≡ given.now.rows) }
    ensures kinds { IfOk result (λ rows. rows.kinds ≡ map dual_kind given.now.kinds) }
{
    let mut rows = ConSys::new(alloc, given.dims());
    let (listed, kinds) = (given.rows(), given.kinds());
    for place in 0..listed.len() {
        rows.push_copy(&listed[place], dual_kind(kinds[place]))?;
    }
    Ok(rows)
}

// Whether the product of the row with each of these is in the range and as both kinds ask.
fn is_valid(row: &Row, kind: ConKind, list: &ConSys) -> bool
    requires { length row.now ≡ suc list.now.dims }
    ensures { IsTrue result ↔ IsSeenValid (is_equality kind) row.now (constraints list.now) }
{
    let (listed, kinds) = (list.rows(), list.kinds());
    for place in 0..listed.len() {
        match row.dot(&listed[place]) {
            Ok(product) => {
                if !kind.accepts(product) || !kinds[place].accepts(product) {
                    return false;
                }
            }
            Err(_) => return false,
        }
    }
    true
}

/// The rows that are seen to be valid on each constraint or generator of the list: with each product in the range.
pub fn valid_rows(
    alloc: Global,
    rows: &[Row],
    kind: ConKind,
    list: &ConSys,
) -> Result<Vec<Row>, AllocError>
    requires { All (λ r. length r ≡ suc list.now.dims) rows.now }
    ensures widths { IfOk result (λ valid. All (λ r. length r ≡ suc list.now.dims) valid.items) }
    ensures valid { IfOk result (λ valid. (r : List ℤ) → (Contains valid.items r ↔
        (Contains rows.now r × IsSeenValid (is_equality kind) r (constraints list.now)))) }
{
    let mut valid = Vec::new(alloc);
    for row in rows {
        if is_valid(row, kind, list) {
            valid.push(row.copy()?)?;
        }
    }
    Ok(valid)
}

fn is_point(kind: GenKind) -> bool
    ensures { IsTrue result ↔ (kind ≡ Point) }
{
    match kind {
        GenKind::Point => true,
        GenKind::Ray => false,
        GenKind::Line => false,
    }
}

/// Whether there is a point among the kinds.
pub fn has_point(kinds: &[GenKind]) -> bool
    ensures yes { IsTrue result → Contains kinds.now Point }
    ensures no { IsFalse result → ¬ (Contains kinds.now Point) }
{
    for place in 0..kinds.len() {
        if is_point(kinds[place]) {
            return true;
        }
    }
    false
}

/// The one row -1 >= 0, which holds at no point.
pub fn nothing(alloc: Global, n: usize) -> Result<ConSys, AllocError>
    requires { n < too_many_dimensions }
    ensures dims { IfOk result (λ list. list.dims ≡ n) }
    ensures rows { IfOk result (λ list. list.rows ≡ negated (unit_row n 0) ∷ []) }
    ensures kinds { IfOk result (λ list. list.kinds ≡ Ge ∷ []) }
{
    let mut list = ConSys::new(alloc, n);
    let positivity = unit(alloc, n, 0)?;
    list.push(positivity.negate()?, ConKind::Ge)?;
    Ok(list)
}
