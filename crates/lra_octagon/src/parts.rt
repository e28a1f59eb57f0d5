//! The rows that mean an octagon.

ghost use Rattle.std.specs.Prelude.{◌≡◌, ◌≤◌, ◌<◌, ◌*◌, ◌^◌, ◌/◌, ◌-◌, ◌++◌, ◌+ℤ◌, ℕ, suc, length, IfOk, IfSome, OnOk};
ghost use Rattle.lra_linear_spec.specs.Range.{InRange};
ghost use Rattle.lra_linear_spec.specs.declared.ConKind.TheVariants.{Ge, Eq};
ghost use Rattle.lra_dbm.specs.Cells.{IsMatrix, entries, entry_at};
ghost use Rattle.lra_octagon.specs.Parts.{sign_of, pair_row, implied_by, unless_implied, printed, makes_equality};
ghost use Rattle.lra_octagon.specs.Parts.{is_equality_pair, kind_row, rising, falling, rows_with, octagon_equalities};
ghost use Rattle.lra_octagon.specs.Parts.{octagon_inequalities, octagon_system, octagon_parts, Pushed};
ghost use Rattle.lra_octagon.specs.{Content.matrix_view, Content.DimsFit, Tables.IsHalf};

use crate::bounds::Bounds;
use crate::unary::most;
use lra_dbm::{Dbm, opposite};
use lra_domain::{ConSys, Row};
use lra_linear_spec::ConKind;
use std::alloc::{AllocError, Global};

/// The coefficient of a signed variable.
fn sign_of(i: usize) -> i128
    ensures { result ≡ sign_of i }
{
    if i % 2 == 0 { 1 } else { -1 }
}

/// The row `q + v_i + v_j` in `n` dimensions, and with `j` the same as `i` the row `q + v_i`.
fn pair_row(alloc: Global, n: usize, i: usize, j: usize, q: i128) -> Result<Row, AllocError>
    requires few { n ≤ 2 ^ 30 }
    requires row { i < 2 * n }
    requires column { j < 2 * n }
    requires range { InRange q }
    ensures { IfOk result (λ row. row ≡ pair_row n i j q) }
{
    let mut factors = vec![in alloc; 0i128; n]?;
    factors[i / 2] = sign_of(i);
    factors[j / 2] = sign_of(j);
    let mut numbers = Vec::new(alloc);
    numbers.push(q)?;
    numbers.extend_from_slice(factors.as_slice())?;
    Row::from_slice(alloc, numbers.as_slice())
}

/// The sum of two halves of numbers in the range.
fn sum_of_halves(a: i128, b: i128) -> i128
    requires one { IsHalf a }
    requires two { IsHalf b }
    ensures { result ≡ a +ℤ b }
{
    a + b
}

/// Whether both bounds are there, and their sum is at most `q`.
fn is_implied(a: Option<i128>, b: Option<i128>, q: i128) -> bool
    requires one { IfSome a IsHalf }
    requires two { IfSome b IsHalf }
    ensures { result ≡ implied_by a b q }
{
    match (a, b) {
        (Some(a), Some(b)) => sum_of_halves(a, b) <= q,
        _ => false,
    }
}

/// The bound, unless the two others imply it.
fn unless_implied(a: Option<i128>, b: Option<i128>, bound: Option<i128>) -> Option<i128>
    requires one { IfSome a IsHalf }
    requires two { IfSome b IsHalf }
    ensures { result ≡ unless_implied a b bound }
{
    match bound {
        None => None,
        Some(q) => { if is_implied(a, b, q) { None } else { Some(q) } }
    }
}

/// The `q` of the row `q + v_i + v_j >= 0`, if it is printed.
fn find_printed(n: usize, matrix: &Dbm, i: usize, j: usize) -> Option<i128>
    requires few { n ≤ 2 ^ 30 }
    requires row { i < 2 * n }
    requires column { j < 2 * n }
    requires dims { matrix.now.dims ≡ n }
    requires is { IsMatrix n matrix.now.cells }
    ensures { result ≡ printed (entries n matrix.now.cells) i j }
{
    let own = most(n, matrix, opposite(n, i));
    if i == j {
        return own;
    }
    let other = most(n, matrix, opposite(n, j));
    unless_implied(own, other, matrix.bound(i, opposite(n, j)))
}

/// Whether the two bounds make an equality: they are there and opposite.
fn makes_equality(a: Option<i128>, b: Option<i128>) -> bool
    requires { IfSome b InRange }
    ensures { result ≡ makes_equality a b }
{
    match (a, b) {
        (Some(a), Some(b)) => a == -b,
        _ => false,
    }
}

#[tactic(auto, using(crate::proofs::PartLemmas::printed_fits))]
/// Whether the row of `v_i + v_j` makes an equality with that of the opposites.
fn is_equality_pair(n: usize, matrix: &Dbm, i: usize, j: usize) -> bool
    requires few { n ≤ 2 ^ 30 }
    requires row { i < 2 * n }
    requires column { j < 2 * n }
    requires dims { matrix.now.dims ≡ n }
    requires is { IsMatrix n matrix.now.cells }
    ensures { result ≡ is_equality_pair (entries n matrix.now.cells) i j }
{
    let one = find_printed(n, matrix, i, j);
    let two = find_printed(n, matrix, opposite(n, i), opposite(n, j));
    makes_equality(one, two)
}

#[tactic(auto, using(crate::proofs::PartLemmas::printed_fits, crate::proofs::PartLemmas::pushed_none))]
/// Adds the row of `v_i + v_j`, if it is printed and of this kind.
fn push_row(
    alloc: Global,
    system: &mut ConSys,
    matrix: &Dbm,
    i: usize,
    j: usize,
    kind: ConKind,
) -> Result<(), AllocError>
    requires row { i < 2 * matrix.now.dims }
    requires column { j < 2 * matrix.now.dims }
    requires dims { system.old.dims ≡ matrix.now.dims }
    ensures pushed { OnOk result (Pushed kind (kind_row kind matrix.now.dims (entry_at matrix.now) i j)
        system.old system.new) }
{
    let n = matrix.dims();
    if is_equality_pair(n, matrix, i, j) != (kind == ConKind::Eq) {
        return Ok(());
    }
    match find_printed(n, matrix, i, j) {
        None => Ok(()),
        Some(q) => system.push(pair_row(alloc, n, i, j, q)?, kind),
    }
}

#[tactic(auto, using(crate::proofs::PartLemmas::pushing_start))]
/// Adds the rows of `v_i` with `+x_b`, for each later variable.
fn push_rising(
    alloc: Global,
    system: &mut ConSys,
    matrix: &Dbm,
    i: usize,
    kind: ConKind,
) -> Result<(), AllocError>
    requires row { i < 2 * matrix.now.dims }
    requires dims { system.old.dims ≡ matrix.now.dims }
    ensures pushed { OnOk result (Pushed kind (rising (kind_row kind matrix.now.dims (entry_at matrix.now) i)
        (suc (i / 2))
        (matrix.now.dims - suc (i / 2))) system.old system.new) }
{
    let n = matrix.dims();
    for b in i / 2 + 1..n {
        push_row(alloc, system, matrix, i, 2 * b, kind)?;
    }
    Ok(())
}

#[tactic(auto, using(crate::proofs::PartLemmas::pushing_start))]
/// Adds the rows of `v_i` with `-x_b`, for each later variable from the last down.
fn push_falling(
    alloc: Global,
    system: &mut ConSys,
    matrix: &Dbm,
    i: usize,
    kind: ConKind,
) -> Result<(), AllocError>
    requires row { i < 2 * matrix.now.dims }
    requires dims { system.old.dims ≡ matrix.now.dims }
    ensures pushed { OnOk result (Pushed kind (falling (kind_row kind matrix.now.dims (entry_at matrix.now) i)
        (suc (i / 2))
        (matrix.now.dims - suc (i / 2))) system.old system.new) }
{
    let first = i / 2 + 1;
    let mut left = matrix.dims() - first;
    while left > 0 {
        left -= 1;
        push_row(alloc, system, matrix, i, 2 * (first + left) + 1, kind)?;
    }
    Ok(())
}

#[tactic(auto, using(crate::proofs::PartLemmas::pushed_three))]
/// Adds the rows that begin with `v_i`.
fn push_with(
    alloc: Global,
    system: &mut ConSys,
    matrix: &Dbm,
    i: usize,
    kind: ConKind,
) -> Result<(), AllocError>
    requires row { i < 2 * matrix.now.dims }
    requires dims { system.old.dims ≡ matrix.now.dims }
    ensures pushed { OnOk result (Pushed kind (rows_with matrix.now.dims
        (kind_row kind matrix.now.dims (entry_at matrix.now)) i) system.old system.new) }
{
    push_rising(alloc, system, matrix, i, kind)?;
    push_row(alloc, system, matrix, i, i, kind)?;
    push_falling(alloc, system, matrix, i, kind)?;
    Ok(())
}

/// Adds the equalities.
fn push_equals(alloc: Global, system: &mut ConSys, matrix: &Dbm) -> Result<(), AllocError>
    requires dims { system.old.dims ≡ matrix.now.dims }
    ensures pushed { OnOk result (Pushed Eq (octagon_equalities matrix.now.dims (entry_at matrix.now) 0 matrix.now.dims)
        system.old system.new) }
{
    for a in 0..matrix.dims() {
        push_with(alloc, system, matrix, 2 * a, ConKind::Eq)?;
    }
    Ok(())
}

/// Adds the inequalities.
fn push_unequals(alloc: Global, system: &mut ConSys, matrix: &Dbm) -> Result<(), AllocError>
    requires dims { system.old.dims ≡ matrix.now.dims }
    ensures pushed { OnOk result
        (Pushed Ge (octagon_inequalities matrix.now.dims (entry_at matrix.now) 0 matrix.now.dims)
        system.old system.new) }
{
    for a in 0..matrix.dims() {
        push_with(alloc, system, matrix, 2 * a, ConKind::Ge)?;
        push_with(alloc, system, matrix, 2 * a + 1, ConKind::Ge)?;
    }
    Ok(())
}

#[tactic(auto, using(crate::proofs::PartLemmas::pushed_system))]
/// The rows that mean the matrix: its equalities, then its inequalities.
pub fn system_of(alloc: Global, matrix: &Dbm) -> Result<ConSys, AllocError>
    ensures { IfOk result (λ s. s ≡ octagon_system matrix.now.dims (entry_at matrix.now)) }
{
    let mut system = ConSys::new(alloc, matrix.dims());
    push_equals(alloc, &mut system, matrix)?;
    push_unequals(alloc, &mut system, matrix)?;
    Ok(system)
}

/// The rows that mean the octagon: no part if it is empty, else one.
pub fn parts_of(alloc: Global, n: usize, bounds: &Bounds) -> Result<Vec<ConSys>, AllocError>
    requires { DimsFit n bounds.now }
    ensures { IfOk result (λ ps. ps.items ≡ octagon_parts n (matrix_view bounds.now)) }
{
    let mut parts = Vec::new(alloc);
    if let Some(matrix) = bounds {
        parts.push(system_of(alloc, matrix)?)?;
    }
    Ok(parts)
}
