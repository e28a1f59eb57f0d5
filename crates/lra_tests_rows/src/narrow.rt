//! Rows with numbers round 2^31, which are reported to be narrow or not, against products of which each step is
//! checked; rows of 8 columns, the most that stay inline, and of 9; and the order of rows.

ghost use Rattle.std.specs.{List.All, Prelude.◌≡◌, Prelude.length};
ghost use Rattle.lra_tests_rows.specs.Crates.lra_linear_spec.Range.{InRange};

use crate::words::{make_rows, product_by_steps};
use lra_row::{Row, RowError};
use std::alloc::{AllocError, Global};
use std::cmp::Ordering;

const NARROW: i128 = 1 << 31;

const MAX: i128 = i128::MAX;

const ROWS: [[i128; 3]; 9] = [
    [0, 0, 0],
    [1, -1, 2],
    [NARROW - 1, NARROW - 1, NARROW - 1],
    [1 - NARROW, NARROW - 1, 1 - NARROW],
    [0, 0, NARROW],
    [-NARROW, 1, 0],
    [NARROW, -NARROW, NARROW - 1],
    [0, MAX, 0],
    [-MAX, 1 - NARROW, 0],
];

// Whether the size of each number is below 2^31.
fn are_small(numbers: &[i128]) -> bool {
    for number in numbers {
        if number.unsigned_abs() >= 1 << 31 {
            return false;
        }
    }
    true
}

// Whether the product of two rows is that by steps, and is reported without a test of any if all numbers are small.
fn multiply_alike(u: &Row, v: &Row) -> bool
    requires { length u.now ≡ length v.now }
{
    let (us, vs) = (u.entries(), v.entries());
    let by_steps = product_by_steps(us, vs);
    let narrow = if are_small(us) && are_small(vs) {
        by_steps.ok()
    } else {
        None
    };
    u.dot(v) == by_steps && u.narrow_dot(v) == narrow
}

// Whether the products of the row with its copy, with its negation and with each row are.
fn multiplies_alike(u: &Row, rows: &[Row]) -> Result<bool, AllocError>
    requires u_width { length u.now ≡ 3 }
    requires rows_widths { All (λ row. length row ≡ 3) rows.now }
{
    let mut alike = multiply_alike(u, &u.copy()?) && multiply_alike(u, &u.negate()?);
    for v in rows {
        alike &= multiply_alike(u, v);
    }
    Ok(alike)
}

// Whether those of each two rows of the table are.
fn all_multiply_alike(alloc: Global, table: &[[i128; 3]]) -> Result<bool, AllocError>
    requires { All (λ row. All InRange row) table.now }
{
    let rows = make_rows(alloc, table)?;
    for u in &rows {
        if !multiplies_alike(u, &rows)? {
            return Ok(false);
        }
    }
    Ok(true)
}

#[test]
fn products(rt: HostRuntime) {
    assert!(rt; all_multiply_alike(rt.alloc(), &ROWS) == Ok(true));
}

// Whether the product of the row with itself is this one, and the row is reported to be narrow or not as it should.
fn has_square(row: &Row, square: i128, narrow: bool) -> bool {
    row.dot(row) == Ok(square) && row.narrow_dot(row).is_some() == narrow
}

// Two rows, with what they are multiplied by: the sum's product with itself, and whether the sum is narrow.
struct Blend {
    factors: [i128; 2],
    u: [i128; 3],
    v: [i128; 3],
    square: i128,
    is_narrow: bool,
}

const BLENDS: [Blend; 6] = [
    // out by one in two columns, and back
    Blend {
        factors: [1, 1],
        u: [NARROW - 1, 1, 1 - NARROW],
        v: [1, 0, -1],
        square: 9_223_372_036_854_775_809,
        is_narrow: false,
    },
    Blend {
        factors: [1, -1],
        u: [NARROW, 1, -NARROW],
        v: [1, 0, -1],
        square: 9_223_372_028_264_841_219,
        is_narrow: true,
    },
    // the greatest narrow number and the next, by factors
    Blend {
        factors: [1 << 16, (1 << 16) - 1],
        u: [(1 << 15) - 1, 0, 0],
        v: [1, 0, 0],
        square: 4_611_686_014_132_420_609,
        is_narrow: true,
    },
    Blend {
        factors: [1 << 16, 1],
        u: [1 << 15, 0, 0],
        v: [0, 0, 3],
        square: 4_611_686_018_427_387_913,
        is_narrow: false,
    },
    // by way of the greatest number of the range
    Blend {
        factors: [MAX, 3 - MAX],
        u: [1, 0, -1],
        v: [1, 0, -1],
        square: 18,
        is_narrow: true,
    },
    Blend {
        factors: [1, -1],
        u: [MAX, -MAX, 0],
        v: [MAX - 2, 2 - MAX, 1],
        square: 9,
        is_narrow: true,
    },
];

// Whether the sum is as the case says.
fn blends(alloc: Global, case: &Blend) -> Result<bool, RowError>
    requires u_numbers { All InRange case.now.u }
    requires v_numbers { All InRange case.now.v }
{
    let u = Row::from_slice(alloc, &case.u)?;
    let v = Row::from_slice(alloc, &case.v)?;
    let row = u.blend(case.factors[0], case.factors[1], &v)?;
    Ok(has_square(&row, case.square, case.is_narrow))
}

// Whether each case's sum is.
fn all_blend(alloc: Global, cases: &[Blend]) -> Result<bool, RowError>
    requires u_numbers { All (λ case. All InRange case.u) cases.now }
    requires v_numbers { All (λ case. All InRange case.v) cases.now }
{
    for case in cases {
        if !blends(alloc, case)? {
            return Ok(false);
        }
    }
    Ok(true)
}

#[test]
fn sums(rt: HostRuntime) {
    assert!(rt; all_blend(rt.alloc(), &BLENDS) == Ok(true));
}

// Whether the row in lowest terms has this product with itself, and is narrow or not.
fn lowers(
    alloc: Global,
    numbers: &[i128],
    square: i128,
    is_narrow: bool,
) -> Result<bool, AllocError>
    requires { All InRange numbers.now }
{
    let mut row = Row::from_slice(alloc, numbers)?;
    row.lowest_terms();
    Ok(has_square(&row, square, is_narrow))
}

// Whether the row of these numbers of 64 bits has this product with itself as it is, and is narrow or not.
fn is_made_of(
    alloc: Global,
    numbers: &[i64],
    square: i128,
    is_narrow: bool,
) -> Result<bool, AllocError> {
    let row = Row::of(alloc, numbers)?;
    Ok(has_square(&row, square, is_narrow))
}

/// Rows that become narrow as they are divided, and rows that don't.
#[test]
fn lowest_terms(rt: HostRuntime) {
    let (wide, narrow) = (false, true);
    let answers = [
        lowers(rt.alloc(), &[2 * NARROW, -2 * NARROW, NARROW], 9, narrow),
        lowers(
            rt.alloc(),
            &[3 * NARROW - 3, 0, 3],
            4_611_686_014_132_420_610,
            narrow,
        ),
        lowers(
            rt.alloc(),
            &[2 * NARROW, 0, -2],
            4_611_686_018_427_387_905,
            wide,
        ),
        lowers(
            rt.alloc(),
            &[-NARROW, 1, 0],
            4_611_686_018_427_387_905,
            wide,
        ),
    ];
    assert!(rt; answers == [Ok(true); 4]);
}

/// Rows of numbers of 64 bits, at the borders of narrow numbers and of words.
#[test]
fn made_of_words(rt: HostRuntime) {
    let (wide, narrow) = (false, true);
    let answers = [
        is_made_of(
            rt.alloc(),
            &[(1 << 31) - 1, 1],
            4_611_686_014_132_420_610,
            narrow,
        ),
        is_made_of(rt.alloc(), &[1 << 31, 0], 4_611_686_018_427_387_904, wide),
        is_made_of(rt.alloc(), &[i64::MIN, 0], 1 << 126, wide),
    ];
    assert!(rt; answers == [Ok(true); 3]);
}

// Whether the row and its copy have these numbers, and this product.
fn copies(alloc: Global, numbers: &[i128], square: i128) -> Result<bool, AllocError>
    requires { All InRange numbers.now }
{
    let row = Row::from_slice(alloc, numbers)?;
    let copy = row.copy()?;
    let same = row.same(&copy) && copy.entries() == numbers;
    Ok(same && row.dot(&copy) == Ok(square))
}

/// Rows that stay inline and that don't, narrow and not.
#[test]
fn widths(rt: HostRuntime) {
    let answers = [
        copies(rt.alloc(), &[], 0),
        copies(rt.alloc(), &[-7], 49),
        copies(rt.alloc(), &[1, 2, 3, 4, 5, 6, 7, 8], 204),
        copies(rt.alloc(), &[1, 2, 3, 4, 5, 6, 7, 8, 9], 285),
        copies(rt.alloc(), &[0, 0, 0, 0, 0, 0, 0, 1 << 62], 1 << 124),
        copies(
            rt.alloc(),
            &[2, 0, 0, 0, 0, 0, 0, 0, -(1 << 62)],
            (1 << 124) + 4,
        ),
    ];
    assert!(rt; answers == [Ok(true); 6]);
}

// How the first row stands to the second.
fn order_of(alloc: Global, xs: &[i128], ys: &[i128]) -> Result<Ordering, AllocError>
    requires xs_numbers { All InRange xs.now }
    requires ys_numbers { All InRange ys.now }
{
    let row = Row::from_slice(alloc, xs)?;
    let other = Row::from_slice(alloc, ys)?;
    Ok(row.compare(&other))
}

/// Columns 1, 2 and on decide, and column 0 last.
#[test]
fn orders_of_one_width(rt: HostRuntime) {
    let orders = [
        order_of(rt.alloc(), &[], &[]),
        order_of(rt.alloc(), &[-1], &[MAX]),
        order_of(rt.alloc(), &[1, 2, 3], &[1, 2, 3]),
        order_of(rt.alloc(), &[1, 2, 3], &[5, 2, 3]),
        order_of(rt.alloc(), &[0, 2, 3], &[-5, 2, 3]),
        order_of(rt.alloc(), &[9, 1, 3], &[0, 2, 0]),
        order_of(rt.alloc(), &[0, 2, 4], &[9, 2, -4]),
    ];
    let (less, equal, greater) = (
        Ok(Ordering::Less),
        Ok(Ordering::Equal),
        Ok(Ordering::Greater),
    );
    assert!(rt; orders == [equal, less, equal, less, greater, less, greater]);
}

/// Column 0 of the narrower row stands beside a further column of the wider, and a row before those that go on so.
#[test]
fn orders_of_two_widths(rt: HostRuntime) {
    let orders = [
        order_of(rt.alloc(), &[], &[-1]),
        order_of(rt.alloc(), &[0, 1], &[0, 1, 2]),
        order_of(rt.alloc(), &[5, 1], &[0, 1, 2]),
        order_of(rt.alloc(), &[2, 1], &[-7, 1, 2]),
        order_of(rt.alloc(), &[-7, 1, 2], &[2, 1]),
        order_of(rt.alloc(), &[9, 0, 0], &[0, 1]),
    ];
    let (less, greater) = (Ok(Ordering::Less), Ok(Ordering::Greater));
    assert!(rt; orders == [less, less, greater, less, greater, less]);
}
