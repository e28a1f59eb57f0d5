//! Generators as the operations take them in.

ghost use Rattle.std.specs.Prelude.{◌≡◌, ◌++◌, ◌∷◌, [], ◌<◌, ◌≤◌, ◌+◌, suc, take, length, map, List, ℤ, pos, true};
ghost use Rattle.std.specs.Prelude.{IfOk};
ghost use Rattle.lra_mapped_systems.specs.Crates.lra_linear_spec.Descriptions.{rows_as, line};
ghost use Rattle.lra_mapped_systems.specs.Crates.lra_linear_spec.Kinds.{is_line};
ghost use Rattle.lra_mapped_systems.specs.Crates.lra_linear_spec.OperationStrain.{as_directions, shortened, unit_row};
ghost use Rattle.lra_mapped_systems.specs.Crates.lra_linear_spec.Vectors.{cleared, entry, units, zeros};
ghost use Rattle.lra_systems.specs.Dimensions.{too_many_dimensions};
ghost use Rattle.lra_systems.specs.LinearSystems.{generators, FitKinds, FitsKind};

use lra_systems::{GenKind, GenSys, Row, TOO_MANY_DIMENSIONS, unit};
use std::alloc::{AllocError, Global};

/// The generators, then a line along a dimension.
pub fn with_line(alloc: Global, list: &GenSys, x: usize) -> Result<GenSys, AllocError>
    requires dimension { x < list.now.dims }
    requires kinds { FitKinds list.now.rows list.now.kinds }
    ensures dims { IfOk result (λ all. all.dims ≡ list.now.dims) }
    ensures generators { IfOk result (λ all. generators all ≡
        generators list.now ++ line (unit_row list.now.dims (suc x)) ∷ []) }
    ensures kinds { IfOk result (λ all. FitKinds all.rows all.kinds) }
{
    let _kinds = list.kinds(); // fact: as many kinds as rows
    if list.dims() >= TOO_MANY_DIMENSIONS {
        return Err(AllocError);
    }
    let mut all = list.copy()?;
    let row = unit(alloc, list.dims(), x + 1)?;
    all.push(row, GenKind::Line)?;
    Ok(all)
}

/// A line along a dimension, alone.
pub fn line_along(alloc: Global, n: usize, x: usize) -> Result<GenSys, AllocError>
    requires { x < n }
    ensures dims { IfOk result (λ all. all.dims ≡ n) }
    ensures generators { IfOk result (λ all. generators all ≡ line (unit_row n (suc x)) ∷ []) }
    ensures kinds { IfOk result (λ all. FitKinds all.rows all.kinds) }
{
    if n >= TOO_MANY_DIMENSIONS {
        return Err(AllocError);
    }
    let mut all = GenSys::new(alloc, n);
    let along = unit(alloc, n, x + 1)?;
    all.push(along, GenKind::Line)?;
    Ok(all)
}

// The first columns of the row.
fn first_columns(alloc: Global, row: &Row, width: usize) -> Result<Row, AllocError>
    requires { width ≤ length row.now }
    ensures { IfOk result (λ short. short ≡ take width row.now) }
{
    let short = Row::from_slice(alloc, &row.entries()[..width])?;
    Ok(short)
}

/// The generators with n dimensions, the first ones.
pub fn shorten(alloc: Global, list: &GenSys, n: usize) -> Result<GenSys, AllocError>
    requires dims { n ≤ list.now.dims }
    requires kinds { FitKinds list.now.rows list.now.kinds }
    ensures dims { IfOk result (λ all. all.dims ≡ n) }
    ensures generators { IfOk result (λ all. generators all ≡ shortened n (generators list.now)) }
    ensures kinds { IfOk result (λ all. FitKinds all.rows all.kinds) }
{
    if n >= TOO_MANY_DIMENSIONS {
        return Err(AllocError);
    }
    let mut all = GenSys::new(alloc, n);
    let (rows, kinds) = (list.rows(), list.kinds());
    for place in 0..rows.len() {
        all.push(first_columns(alloc, &rows[place], n + 1)?, kinds[place])?;
    }
    Ok(all)
}

// The row with 0 in column 0.
fn direction(alloc: Global, row: &Row) -> Result<Row, AllocError>
    requires { 0 < length row.now }
    ensures { IfOk result (λ r. r ≡ cleared 0 row.now) }
{
    let mut numbers = Vec::from_slice(alloc, row.entries())?;
    numbers[0] = 0;
    let row = Row::from_slice(alloc, numbers.as_slice())?;
    Ok(row)
}

// What a generator is as a direction.
fn direction_kind(kind: GenKind) -> GenKind
    ensures line { is_line result ≡ is_line kind }
    ensures fits { (r : List ℤ) → entry r 0 ≡ pos 0 → FitsKind result r }
{
    match kind {
        GenKind::Point => GenKind::Ray,
        GenKind::Ray => GenKind::Ray,
        GenKind::Line => GenKind::Line,
    }
}

// The generators of the first, then those of the second as directions.
fn push_directions(alloc: Global, first: GenSys, second: &GenSys) -> Result<GenSys, AllocError>
    requires dims { second.now.dims ≡ first.dims }
    requires kinds { FitKinds first.rows first.kinds }
    ensures dims { IfOk result (λ all. all.dims ≡ first.dims) }
    ensures generators { IfOk result (λ all. generators all ≡
        generators first ++ as_directions (generators second.now)) }
    ensures kinds { IfOk result (λ all. FitKinds all.rows all.kinds) }
{
    let mut all = first;
    let _kinds = all.kinds(); // fact: as many kinds as rows
    let (rows, kinds) = (second.rows(), second.kinds());
    for place in 0..rows.len() {
        let row = direction(alloc, &rows[place])?;
        all.push(row, direction_kind(kinds[place]))?;
    }
    Ok(all)
}

/// The generators of the first, then those of the second as directions.
pub fn with_directions(alloc: Global, first: &GenSys, second: &GenSys) -> Result<GenSys, AllocError>
    requires dims { second.now.dims ≡ first.now.dims }
    requires kinds { FitKinds first.now.rows first.now.kinds }
    ensures dims { IfOk result (λ all. all.dims ≡ first.now.dims) }
    ensures generators { IfOk result (λ all. generators all ≡
        generators first.now ++ as_directions (generators second.now)) }
    ensures kinds { IfOk result (λ all. FitKinds all.rows all.kinds) }
{
    let base = first.copy()?;
    let all = push_directions(alloc, base, second)?;
    Ok(all)
}

/// The generators as directions.
pub fn directions_of(alloc: Global, list: &GenSys) -> Result<GenSys, AllocError>
    ensures dims { IfOk result (λ all. all.dims ≡ list.now.dims) }
    ensures generators { IfOk result (λ all. generators all ≡ as_directions (generators list.now)) }
    ensures kinds { IfOk result (λ all. FitKinds all.rows all.kinds) }
{
    let n = list.dims();
    if n >= TOO_MANY_DIMENSIONS {
        return Err(AllocError);
    }
    let all = push_directions(alloc, GenSys::new(alloc, n), list)?;
    Ok(all)
}

// The row with k zeros after it.
fn lengthen(alloc: Global, row: &Row, k: usize) -> Result<Row, AllocError>
    ensures { IfOk result (λ r. r ≡ row.now ++ zeros k) }
{
    let mut numbers = Vec::from_slice(alloc, row.entries())?;
    for _ in 0..k {
        numbers.push(0)?;
    }
    let row = Row::from_slice(alloc, numbers.as_slice())?;
    Ok(row)
}

// The generators with k more columns of zeros.
fn lengthen_list(alloc: Global, list: &GenSys, k: usize) -> Result<GenSys, AllocError>
    requires small { list.now.dims + k < too_many_dimensions }
    requires kinds { FitKinds list.now.rows list.now.kinds }
    ensures dims { IfOk result (λ all. all.dims ≡ list.now.dims + k) }
    ensures generators { IfOk result (λ all. generators all ≡
        map (λ g. record { row = g.row ++ zeros k; equal = g.equal }) (generators list.now)) }
    ensures kinds { IfOk result (λ all. FitKinds all.rows all.kinds) }
{
    let mut all = GenSys::new(alloc, list.dims() + k);
    let (rows, kinds) = (list.rows(), list.kinds());
    for place in 0..rows.len() {
        all.push(lengthen(alloc, &rows[place], k)?, kinds[place])?;
    }
    Ok(all)
}

// The generators, then a line along each of the dimensions after the first n.
fn with_new_lines(alloc: Global, list: GenSys, n: usize, k: usize) -> Result<GenSys, AllocError>
    requires dims { list.dims ≡ n + k }
    requires small { n + k < too_many_dimensions }
    requires kinds { FitKinds list.rows list.kinds }
    ensures dims { IfOk result (λ all. all.dims ≡ n + k) }
    ensures generators { IfOk result (λ all. generators all ≡
        generators list ++ rows_as true (map (λ u. zeros (suc n) ++ u) (units k))) }
    ensures kinds { IfOk result (λ all. FitKinds all.rows all.kinds) }
{
    let mut all = list;
    let _kinds = all.kinds(); // fact: as many kinds as rows
    for i in 0..k {
        all.push(unit(alloc, n + k, n + 1 + i)?, GenKind::Line)?;
    }
    Ok(all)
}

/// The generators with k more dimensions, in which the coordinates may be anything.
pub fn embed_list(alloc: Global, list: &GenSys, k: usize) -> Result<GenSys, AllocError>
    requires small { list.now.dims + k < too_many_dimensions }
    requires kinds { FitKinds list.now.rows list.now.kinds }
    ensures dims { IfOk result (λ all. all.dims ≡ list.now.dims + k) }
    ensures generators { IfOk result (λ all. generators all ≡
        map (λ g. record { row = g.row ++ zeros k; equal = g.equal }) (generators list.now)
        ++ rows_as true (map (λ u. zeros (suc list.now.dims) ++ u) (units k))) }
    ensures kinds { IfOk result (λ all. FitKinds all.rows all.kinds) }
{
    let longer = lengthen_list(alloc, list, k)?;
    let all = with_new_lines(alloc, longer, list.dims(), k)?;
    Ok(all)
}
