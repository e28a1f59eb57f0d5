//! Constraints rounded to whole points.

ghost use Rattle.std.specs.Prelude.{◌≡◌, ◌≢◌, ◌↔◌, ◌∷◌, ◌<◌, ◌<ℤ◌, ◌≤ℤ◌, List, ℤ, suc, pos, length, map, int_div, true};
ghost use Rattle.std.specs.{Int.int_rem_euclid, List.All, Prelude.unsigned_abs, Prelude.IfOk, Prelude.IsTrue};
ghost use Rattle.lra_poly_queries.specs.Crates.{lra_linear_spec.Descriptions.Con, lra_linear_spec.Kinds.is_equality};
ghost use Rattle.lra_poly_queries.specs.Crates.{lra_linear_spec.Points.IsWithin, lra_linear_spec.Polyhedra.falsity};
ghost use Rattle.lra_poly_queries.specs.Crates.{lra_linear_spec.Range.InRange, lra_row.Rows.IsRowGcd};
ghost use Rattle.lra_systems.specs.{Dimensions.too_many_dimensions, LinearSystems.constraints};
ghost use Rattle.lra_poly_queries.specs.Tightened.{AreTightened, IsTightened};

use lra_systems::{ConKind, ConSys, Row, TOO_MANY_DIMENSIONS, gcd, unit};
use std::alloc::{AllocError, Global};

// The greatest number that divides each of them, 0 if all are 0.
fn divisor_of(xs: &[i128]) -> i128
    requires { All InRange xs.now }
    ensures divisor { IsRowGcd xs.now (unsigned_abs result) }
    ensures nonnegative { pos 0 ≤ℤ result }
{
    let mut divisor = 0;
    for number in xs {
        divisor = gcd(divisor, *number);
    }
    divisor
}

// The first number, and the others divided.
fn divide_behind(
    alloc: Global,
    first: i128,
    others: &[i128],
    divisor: i128,
) -> Result<Row, AllocError>
    requires above { pos 1 <ℤ divisor }
    requires first { InRange first }
    requires others { All InRange others.now }
    ensures { IfOk result (λ row. row ≡ first ∷ map (λ z. int_div z divisor) others.now) }
{
    let mut numbers = Vec::new(alloc);
    numbers.push(first)?;
    let mut left = others;
    while let Some((number, behind)) = left.split_first() {
        numbers.push(*number / divisor)?;
        left = behind;
    }
    let row = Row::from_slice(alloc, numbers.as_slice())?;
    Ok(row)
}

// The row of -1 >= 0.
#[tactic(auto, using(crate::proofs::TightenedExits::opposite_unit))]
fn nowhere(alloc: Global, dims: usize) -> Result<Row, AllocError>
    requires { dims < too_many_dimensions }
    ensures { IfOk result (λ row. row ≡ falsity dims) }
{
    let one = unit(alloc, dims, 0)?;
    let row = one.negate()?;
    Ok(row)
}

// Whether no store meets the equality: if the coefficients' divisor doesn't divide the constant.
fn has_no_store(kind: ConKind, constant: i128, divisor: i128) -> bool
    requires { pos 1 <ℤ divisor }
    ensures { IsTrue result ↔ ((is_equality kind ≡ true) × (int_rem_euclid constant divisor ≢ pos 0)) }
{
    kind == ConKind::Eq && constant.rem_euclid(divisor) != 0
}

// The constraint of the same stores whose coefficients no number but 1 divides, and whose constant is rounded
// downwards; -1 >= 0 for an equality that no store meets by its coefficients' divisor.
fn tighten_row(
    alloc: Global,
    dims: usize,
    row: &Row,
    kind: ConKind,
) -> Result<(Row, ConKind), AllocError>
    requires small { dims < too_many_dimensions }
    requires width { length row.now ≡ suc dims }
    ensures width { IfOk result (λ r. length r.0 ≡ suc dims) }
    ensures tightened { IfOk result (λ r. IsTightened dims (record { row = row.now; equal = is_equality kind })
        (record { row = r.0; equal = is_equality r.1 })) }
{
    let numbers = row.entries();
    let (constant, coefficients) = (numbers[0], &numbers[1..]);
    let divisor = divisor_of(coefficients);
    if divisor <= 1 {
        let same = row.copy()?;
        return Ok((same, kind));
    }
    if has_no_store(kind, constant, divisor) {
        let none = nowhere(alloc, dims)?;
        return Ok((none, ConKind::Ge));
    }
    let made = divide_behind(alloc, constant.div_euclid(divisor), coefficients, divisor)?;
    Ok((made, kind))
}

/// The constraints, each rounded to whole points: its coefficients in lowest terms, and its constant rounded
/// downwards; in place of an equality whose coefficients' divisor doesn't divide the constant, as `2*x = 1`, one that
/// no store meets. The stores stay the same. Memory runs out from 2^62 dimensions on.
pub fn tighten(alloc: Global, list: &ConSys) -> Result<ConSys, AllocError>
    ensures dims { IfOk result (λ made. made.dims ≡ list.now.dims) }
    ensures each { IfOk result (λ made.
        AreTightened list.now.dims (constraints list.now) (constraints made)) }
    ensures stores { IfOk result (λ made. (s : List ℤ) → length s ≡ list.now.dims →
        (Con (constraints list.now) (pos 1 ∷ s) ↔ Con (constraints made) (pos 1 ∷ s))) }
    ensures within { IfOk result (λ made.
        IsWithin list.now.dims (Con (constraints made)) (Con (constraints list.now))) }
{
    let n = list.dims();
    if n >= TOO_MANY_DIMENSIONS {
        return Err(AllocError);
    }
    let mut all = ConSys::new(alloc, n);
    let (rows, kinds) = (list.rows(), list.kinds());
    for place in 0..rows.len() {
        let (row, kind) = tighten_row(alloc, n, &rows[place], kinds[place])?;
        all.push(row, kind)?;
    }
    Ok(all)
}
