//! Rows with numbers round 2^63 and 2^126, against calculations in which each product and each sum is checked.

ghost use Rattle.std.specs.{List.All, Prelude.◌≡◌, Prelude.length, Prelude.IfOk};
ghost use Rattle.lra_tests_rows.specs.Crates.lra_linear_spec.Range.{InRange};

use lra_row::{Operation, Row, RowError, gcd};
use lra_systems::Excess;
use std::alloc::{AllocError, Global};

const MAX: i128 = i128::MAX;

const WORD: i128 = 1 << 63;

const ROOM: i128 = 1 << 126;

const ROWS: [[i128; 3]; 13] = [
    [0, 0, 1],
    [-1, 1, 2],
    [WORD - 1, WORD - 1, WORD - 1],
    [1 - WORD, WORD - 1, 1 - WORD],
    [WORD, -WORD, WORD - 1],
    [-WORD, -WORD, -WORD],
    [2 * WORD, 1 - 2 * WORD, 3],
    [ROOM - 1, 1, WORD],
    [ROOM, -1, WORD - 1],
    [1 - ROOM, ROOM - 1, ROOM + 1],
    [-ROOM, -ROOM, 1],
    [MAX, 1, -1],
    [-MAX, -1, 1 - WORD],
];

// The number, if it is in the range, or the excess that names it.
fn in_range(number: Option<i128>, op: Operation, left: i128, right: i128) -> Result<i128, Excess> {
    match number {
        Some(number) if number != i128::MIN => Ok(number),
        _ => Err(Excess { op, left, right }),
    }
}

fn product_of(left: i128, right: i128) -> Result<i128, Excess> {
    in_range(left.checked_mul(right), Operation::Product, left, right)
}

fn sum_of(left: i128, right: i128) -> Result<i128, Excess> {
    in_range(left.checked_add(right), Operation::Sum, left, right)
}

/// The product of two rows by checked steps.
pub fn product_by_steps(xs: &[i128], ys: &[i128]) -> Result<i128, Excess> {
    let mut sum = 0;
    for (x, y) in xs.iter().zip(ys) {
        sum = sum_of(sum, product_of(*x, *y)?)?;
    }
    Ok(sum)
}

// a u + b v of one column by checked steps.
fn entry_by_steps(a: i128, b: i128, u: i128, v: i128) -> Result<i128, Excess> {
    let left = product_of(a, u)?;
    let right = product_of(b, v)?;
    sum_of(left, right)
}

// a u + b v of three columns by checked steps.
fn blend_by_steps(a: i128, b: i128, us: &[i128], vs: &[i128]) -> Result<[i128; 3], Excess>
    requires us_width { length us.now ≡ 3 }
    requires vs_width { length vs.now ≡ 3 }
{
    let mut entries = [0; 3];
    for k in 0..3 {
        entries[k] = entry_by_steps(a, b, us[k], vs[k])?;
    }
    Ok(entries)
}

// Whether both calculations of a row end alike.
fn are_alike(made: &Result<Row, RowError>, by_steps: &Result<[i128; 3], Excess>) -> bool {
    match (made, by_steps) {
        (Ok(row), Ok(entries)) => row.entries() == entries.as_slice(),
        (Err(RowError::Excess(excess)), Err(passing)) => excess == passing,
        _ => false,
    }
}

// Euclid's algorithm, with more steps than are wanted for 128 bits.
fn divisor_by_steps(a: u128, b: u128) -> u128 {
    let (mut x, mut y) = (a, b);
    for _ in 0..200 {
        if y == 0 {
            return x;
        }
        (x, y) = (y, x % y);
    }
    0
}

// Whether the row times its entries' greatest common divisor is this one.
fn is_lowered(row: &[i128], entries: &[i128; 3]) -> bool {
    let first = divisor_by_steps(entries[0].unsigned_abs(), entries[1].unsigned_abs());
    let divisor = divisor_by_steps(first, entries[2].unsigned_abs());
    for (x, entry) in row.iter().zip(entries) {
        let size = x.unsigned_abs().checked_mul(divisor);
        if size != Some(entry.unsigned_abs()) || x.signum() != entry.signum() {
            return false;
        }
    }
    true
}

// Whether the combination of two rows on either side of a third is made as by checked steps.
fn combine_alike(c: &Row, u: &Row, v: &Row) -> bool
    requires c_width { length c.now ≡ 3 }
    requires u_width { length u.now ≡ 3 }
    requires v_width { length v.now ≡ 3 }
{
    match (c.dot(u), c.dot(v)) {
        (Ok(above), Ok(below)) if above > 0 && below < 0 => {
            let by_steps = blend_by_steps(-below, above, u.entries(), v.entries());
            match (Row::combine(u, v, c), by_steps) {
                (Ok(row), Ok(entries)) => is_lowered(row.entries(), &entries),
                (Err(RowError::Excess(excess)), Err(passing)) => excess == passing,
                _ => false,
            }
        }
        _ => true,
    }
}

// Whether products, divisors, sums of two multiples and combinations of two rows come out as by checked steps.
fn agree(factors: &Row, u: &Row, v: &Row) -> bool
    requires widths { length factors.now ≡ 3 }
    requires u_width { length u.now ≡ 3 }
    requires v_width { length v.now ≡ 3 }
{
    let (a, b) = (factors.get(0), factors.get(1));
    let (us, vs) = (u.entries(), v.entries());
    let divisor = divisor_by_steps(us[0].unsigned_abs(), vs[1].unsigned_abs());
    u.dot(v) == product_by_steps(us, vs)
        && gcd(u.get(0), v.get(1)).unsigned_abs() == divisor
        && are_alike(&u.blend(a, b, v), &blend_by_steps(a, b, us, vs))
        && combine_alike(factors, u, v)
}

// Whether they do so for these factors and this row, with each row.
fn agree_on_row(factors: &Row, u: &Row, rows: &[Row]) -> bool
    requires widths { length factors.now ≡ 3 }
    requires u_width { length u.now ≡ 3 }
    requires rows_widths { All (λ row. length row ≡ 3) rows.now }
{
    for v in rows {
        if !agree(factors, u, v) {
            return false;
        }
    }
    true
}

// Whether they do so for these factors, with each two rows.
fn agree_on_rows(factors: &Row, rows: &[Row]) -> bool
    requires widths { length factors.now ≡ 3 }
    requires rows_widths { All (λ row. length row ≡ 3) rows.now }
{
    for u in rows {
        if !agree_on_row(factors, u, rows) {
            return false;
        }
    }
    true
}

/// Rows of these numbers.
pub fn make_rows(alloc: Global, table: &[[i128; 3]]) -> Result<Vec<Row>, AllocError>
    requires { All (λ row. All InRange row) table.now }
    ensures { IfOk result (λ rows. All (λ row. length row ≡ 3) rows.items) }
{
    let mut rows = Vec::new(alloc);
    for numbers in table {
        rows.push(Row::from_slice(alloc, numbers)?)?;
    }
    Ok(rows)
}

// Whether they do so for the first two numbers of each row as factors.
fn agree_on_all(alloc: Global, table: &[[i128; 3]]) -> Result<bool, AllocError>
    requires { All (λ row. All InRange row) table.now }
{
    let rows = make_rows(alloc, table)?;
    for factors in &rows {
        if !agree_on_rows(factors, &rows) {
            return Ok(false);
        }
    }
    Ok(true)
}

/// Each two rows, with the first two numbers of each as factors.
#[test]
fn words(rt: HostRuntime) {
    assert!(rt; agree_on_all(rt.alloc(), &ROWS) == Ok(true));
}

// The numbers in lowest terms.
fn lowered(alloc: Global, numbers: &[i128]) -> Result<Row, AllocError>
    requires { All InRange numbers.now }
{
    let mut row = Row::from_slice(alloc, numbers)?;
    row.lowest_terms();
    Ok(row)
}

// Whether the first numbers in lowest terms are the second.
fn lowers(alloc: Global, numbers: &[i128], lowest: &[i128]) -> Result<bool, AllocError>
    requires { All InRange numbers.now }
{
    let row = lowered(alloc, numbers)?;
    Ok(row.entries() == lowest)
}

/// Divisors of one word and of two, entries of both.
#[test]
fn lowest_terms(rt: HostRuntime) {
    let answers = [
        lowers(rt.alloc(), &[WORD, -WORD, WORD], &[1, -1, 1]),
        lowers(rt.alloc(), &[2 * WORD, -4 * WORD, 0], &[1, -2, 0]),
        lowers(
            rt.alloc(),
            &[3 * WORD, 3 - 3 * WORD, 0],
            &[WORD, 1 - WORD, 0],
        ),
        lowers(rt.alloc(), &[-6, 4, ROOM], &[-3, 2, 2 * WORD * (WORD / 4)]),
        lowers(rt.alloc(), &[0, -MAX, 0], &[0, -1, 0]),
        lowers(rt.alloc(), &[MAX, MAX - 1, ROOM], &[MAX, MAX - 1, ROOM]),
    ];
    assert!(rt; answers == [Ok(true); 6]);
}
