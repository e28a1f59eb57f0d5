//! Worked rows.

ghost use Rattle.std.specs.List.{All};
ghost use Rattle.std.specs.Prelude.{◌≡◌, ◌+◌, ◌∷◌, [], length, IfOk, OnOk};
ghost use Rattle.lra_tests_cones.specs.Crates.lra_linear_spec.Range.{InRange};
ghost use Rattle.lra_canonical.specs.{Echelons.HaveOneWidth, Reduced.IsEchelonForm};

use lra_canonical::{BitRow, Order, SatMatrix, canonical_order, drop_redundant, echelon, reduce};
use lra_row::{Excess, Operation, Row, RowError};
use std::alloc::{AllocError, Global};

const MAX: i128 = i128::MAX;

// Three rows as a list.
#[tactic(auto, using(lra_canonical::proofs::CanonExamples::three_wide))]
fn three(
    alloc: Global,
    first: &[i128],
    second: &[i128],
    third: &[i128],
) -> Result<Vec<Row>, AllocError>
    requires first { All InRange first.now }
    requires second { All InRange second.now }
    requires third { All InRange third.now }
    requires widths { (length first.now ≡ 3) × (length second.now ≡ 3) × (length third.now ≡ 3) }
    ensures width { IfOk result (λ rows. HaveOneWidth rows.items) }
    ensures height { IfOk result (λ rows. length rows.items ≡ 3) }
{
    let mut rows = Vec::new(alloc);
    rows.push(Row::from_slice(alloc, first)?)?;
    rows.push(Row::from_slice(alloc, second)?)?;
    rows.push(Row::from_slice(alloc, third)?)?;
    Ok(rows)
}

fn has_rows(rows: &[Row], want: &[[i128; 3]]) -> bool {
    for (row, numbers) in rows.iter().zip(want) {
        if row.entries() != numbers.as_slice() {
            return false;
        }
    }
    rows.len() == want.len()
}

// Whether the order puts the rows so.
fn is_order(
    alloc: Global,
    first: &[i128],
    second: &[i128],
    third: &[i128],
    order: Order,
    want: &[[i128; 3]],
) -> Result<bool, AllocError>
    requires first { All InRange first.now }
    requires second { All InRange second.now }
    requires third { All InRange third.now }
    requires widths { (length first.now ≡ 3) × (length second.now ≡ 3) × (length third.now ≡ 3) }
{
    let mut rows = three(alloc, first, second, third)?;
    canonical_order(&mut rows, order)?;
    Ok(has_rows(&rows, want))
}

/// Inequalities with rows that another order would leave as they stand; likewise generators, whose column 0 decides
/// last; and lines, of which one has no other column.
#[test]
fn orders(rt: HostRuntime) {
    let want = [[0, 1, 0], [1, -1, 0], [0, 0, 1]];
    let (order, alloc) = (Order::Inequalities, rt.alloc());
    assert!(rt; is_order(alloc, &[0, 0, 1], &[1, -1, 0], &[0, 1, 0], order, &want) == Ok(true));
    let want = [[2, -1, 0], [1, 0, 0], [1, 0, 2]];
    let order = Order::Generators;
    assert!(rt; is_order(alloc, &[1, 0, 2], &[1, 0, 0], &[2, -1, 0], order, &want) == Ok(true));
    let want = [[0, 3, 1], [0, 0, 1], [1, 0, 0]];
    let order = Order::Pivots;
    assert!(rt; is_order(alloc, &[1, 0, 0], &[0, 0, 1], &[0, 3, 1], order, &want) == Ok(true));
}

// What passes, if it isn't memory.
fn excess_of(answer: Result<(), RowError>) -> Option<Excess> {
    match answer {
        Err(RowError::Excess(excess)) => Some(excess),
        _ => None,
    }
}

// Whether this is the echelon form.
fn is_form(
    alloc: Global,
    first: &[i128],
    second: &[i128],
    third: &[i128],
    want: &[[i128; 3]],
) -> Result<bool, AllocError>
    requires first { All InRange first.now }
    requires second { All InRange second.now }
    requires third { All InRange third.now }
    requires widths { (length first.now ≡ 3) × (length second.now ≡ 3) × (length third.now ≡ 3) }
{
    let mut lines = three(alloc, first, second, third)?;
    Ok(echelon(&mut lines).is_ok() && has_rows(&lines, want))
}

/// All columns, column 0 last; and x1 = 2 x2 twice: the second row goes, the first is turned and cleared.
#[test]
fn forms(rt: HostRuntime) {
    let alloc = rt.alloc();
    let want = [[0, 1, 0], [0, 0, 1], [1, 0, 0]];
    assert!(rt; is_form(alloc, &[0, 2, 1], &[0, 1, 2], &[1, 1, 1], &want) == Ok(true));
    let want = [[1, 1, 0], [1, 0, 2]];
    assert!(rt; is_form(alloc, &[0, -2, 4], &[0, 1, -2], &[3, 0, 6], &want) == Ok(true));
}

// The first number that passes, if one does.
fn form_passes(
    alloc: Global,
    first: &[i128],
    second: &[i128],
    third: &[i128],
) -> Result<Option<Excess>, AllocError>
    requires first { All InRange first.now }
    requires second { All InRange second.now }
    requires third { All InRange third.now }
    requires widths { (length first.now ≡ 3) × (length second.now ≡ 3) × (length third.now ≡ 3) }
{
    let mut lines = three(alloc, first, second, third)?;
    Ok(excess_of(echelon(&mut lines)))
}

fn excess(op: Operation, left: i128, right: i128) -> Result<Option<Excess>, AllocError> {
    Ok(Some(Excess { op, left, right }))
}

/// 2 times the greatest number passes as the second row is reduced by the first; the greatest number and 1 pass as the
/// first row is cleared at the pivot of the second.
#[test]
fn excesses_of_forms(rt: HostRuntime) {
    let row = form_passes(rt.alloc(), &[0, 2, 1], &[MAX, 1, 0], &[0, 0, 1]);
    assert!(rt; row == excess(Operation::Product, 2, MAX));
    let form = form_passes(rt.alloc(), &[MAX, 1, 1], &[-1, 0, 1], &[0, 0, 0]);
    assert!(rt; form == excess(Operation::Sum, MAX, 1));
}

// The form of the equality 2 x1 + x2 = 0.
#[tactic(auto, using(lra_canonical::proofs::CanonExamples::sloped_is_form))]
fn sloped(alloc: Global) -> Result<Vec<Row>, AllocError>
    ensures form { IfOk result (λ form. IsEchelonForm form.items) }
    ensures widths { IfOk result (λ form. All (λ line. length line ≡ 3) form.items) }
{
    let mut form = Vec::new(alloc);
    form.push(Row::from_slice(alloc, &[0, 2, 1])?)?;
    Ok(form)
}

// Whether the row is reduced to this one.
fn is_reduced(alloc: Global, numbers: &[i128], want: &[i128]) -> Result<bool, AllocError>
    requires numbers { All InRange numbers.now }
    requires width { length numbers.now ≡ 3 }
{
    let form = sloped(alloc)?;
    let mut row = Row::from_slice(alloc, numbers)?;
    Ok(reduce(&mut row, &form).is_ok() && row.entries() == want)
}

// The first number that passes, if one does.
fn reduction_passes(alloc: Global, numbers: &[i128]) -> Result<Option<Excess>, AllocError>
    requires numbers { All InRange numbers.now }
    requires width { length numbers.now ≡ 3 }
{
    let form = sloped(alloc)?;
    let mut row = Row::from_slice(alloc, numbers)?;
    Ok(excess_of(reduce(&mut row, &form)))
}

/// Rows by 2 x1 + x2 = 0: their entry of column 1 is cleared by the factors 2 and minus that entry; one that is 0 there
/// takes no step, but lowest terms.
#[test]
fn reductions(rt: HostRuntime) {
    let alloc = rt.alloc();
    let answers = [
        is_reduced(alloc, &[4, 0, 6], &[2, 0, 3]),
        is_reduced(alloc, &[1, 3, 4], &[2, 0, 5]),
        is_reduced(alloc, &[-1, -2, 0], &[-1, 0, 1]),
        is_reduced(alloc, &[0, 4, 2], &[0, 0, 0]),
    ];
    assert!(rt; answers == [Ok(true), Ok(true), Ok(true), Ok(true)]);
}

/// A number passes in column 0, and one in column 1.
#[test]
fn excesses_of_reductions(rt: HostRuntime) {
    let want = excess(Operation::Product, 2, MAX);
    assert!(rt; reduction_passes(rt.alloc(), &[MAX, 1, 0]) == want);
    assert!(rt; reduction_passes(rt.alloc(), &[0, MAX, 1]) == want);
}

// Truth values, packed.
fn bits_of(alloc: Global, values: &[bool]) -> Result<BitRow, AllocError>
    ensures { IfOk result (λ row. length row ≡ length values.now) }
{
    let mut row = BitRow::new(alloc, values.len())?;
    for k in 0..values.len() {
        row.set(k, values[k]);
    }
    Ok(row)
}

fn add_bits(alloc: Global, matrix: &mut SatMatrix, values: &[bool]) -> Result<(), AllocError>
    requires { length values.now ≡ matrix.old.width }
    ensures width { matrix.new.width ≡ matrix.old.width }
    ensures height { OnOk result (length matrix.new.rows ≡ length matrix.old.rows + 1) }
{
    let row = bits_of(alloc, values)?;
    matrix.add_row(row)?;
    Ok(())
}

// A matrix of three rows.
fn matrix_of(
    alloc: Global,
    first: &[bool],
    second: &[bool],
    third: &[bool],
) -> Result<SatMatrix, AllocError>
    requires second { length second.now ≡ length first.now }
    requires third { length third.now ≡ length first.now }
    ensures { IfOk result (λ matrix. length matrix.rows ≡ 3) }
{
    let mut matrix = SatMatrix::new(alloc, first.len());
    add_bits(alloc, &mut matrix, first)?;
    add_bits(alloc, &mut matrix, second)?;
    add_bits(alloc, &mut matrix, third)?;
    Ok(matrix)
}

fn has_bits(row: &BitRow, want: &[bool]) -> bool {
    if row.width() != want.len() {
        return false;
    }
    for k in 0..want.len() {
        if row.get(k) != want[k] {
            return false;
        }
    }
    true
}

// Whether these rows are left, the last of the matrix among them.
fn leaves(
    mut rows: Vec<Row>,
    mut matrix: SatMatrix,
    want: &[[i128; 3]],
    last: &[bool],
) -> Result<bool, AllocError>
    requires { length matrix.rows ≡ length rows.items }
{
    drop_redundant(&mut rows, &mut matrix)?;
    let height = matrix.height();
    if height != want.len() || height == 0 {
        return Ok(false);
    }
    Ok(has_rows(&rows, want) && has_bits(matrix.row(height - 1), last))
}

const FIRST: [bool; 3] = [true, true, false];

const SECOND: [bool; 3] = [true, false, true];

const THIRD: [bool; 3] = [false, true, true];

// In the triangle with the corners (0, 0), (0, 2), (2, 0) the sides stay.
fn sides_stay(alloc: Global) -> Result<bool, AllocError> {
    let rows = three(alloc, &[0, 1, 0], &[0, 0, 1], &[2, -1, -1])?;
    let matrix = matrix_of(alloc, &FIRST, &SECOND, &THIRD)?;
    leaves(rows, matrix, &[[0, 1, 0], [0, 0, 1], [2, -1, -1]], &THIRD)
}

// x1 <= 3 is tight nowhere there, and goes.
fn loose_row_goes(alloc: Global) -> Result<bool, AllocError> {
    let rows = three(alloc, &[3, -1, 0], &[0, 1, 0], &[0, 0, 1])?;
    let matrix = matrix_of(alloc, &[false, false, false], &FIRST, &SECOND)?;
    leaves(rows, matrix, &[[0, 1, 0], [0, 0, 1]], &SECOND)
}

// Of x1 >= 0 twice one stays.
fn one_of_two_stays(alloc: Global) -> Result<bool, AllocError> {
    let rows = three(alloc, &[0, 0, 1], &[0, 1, 0], &[0, 1, 0])?;
    let matrix = matrix_of(alloc, &SECOND, &FIRST, &FIRST)?;
    leaves(rows, matrix, &[[0, 0, 1], [0, 1, 0]], &FIRST)
}

#[test]
fn rows_that_say_nothing_new_go(rt: HostRuntime) {
    assert!(rt; sides_stay(rt.alloc()) == Ok(true));
    assert!(rt; loose_row_goes(rt.alloc()) == Ok(true));
    assert!(rt; one_of_two_stays(rt.alloc()) == Ok(true));
}
