//! Worked rows.

ghost use Rattle.std.specs.{List.All, Prelude.◌≡◌, Prelude.◌<ℤ◌, Prelude.pos, Prelude.length};
ghost use Rattle.lra_tests_rows.specs.Crates.{lra_linear_spec.Range.InRange, lra_linear_spec.Vectors.product};

use lra_row::{Operation, Row, RowError, add, floor_div, gcd, mul, ratio_cmp};
use lra_systems::Excess;
use std::alloc::{AllocError, Global};
use std::cmp::Ordering;
use std::hash::{DefaultHasher, Hash, Hasher};

const MAX: i128 = i128::MAX;

/// -2^127 passes the range, as 2^127 does.
#[test]
fn products_and_sums(rt: HostRuntime) {
    let products = [mul(MAX, -1), mul(i128::MIN, 1)];
    let sums = [add(MAX, 1), add(-MAX, -1)];
    assert_eq!(rt; (products, sums), ([Some(-MAX), None], [None, None]));
}

#[test]
fn floors(rt: HostRuntime) {
    let floors = [
        floor_div(7, 2),
        floor_div(-7, 2),
        floor_div(7, -2),
        floor_div(-7, -2),
        floor_div(6, -2),
    ];
    let none = [floor_div(1, 0), floor_div(i128::MIN, -1)];
    let want = [Some(3), Some(-4), Some(-4), Some(3), Some(-3)];
    assert_eq!(rt; (floors, none), (want, [None, None]));
}

#[test]
fn divisors_and_ratios(rt: HostRuntime) {
    let divisors = [gcd(12, -18), gcd(0, 0)];
    let ratios = [
        ratio_cmp(1, 2, 2, 4),
        ratio_cmp(MAX - 1, MAX, MAX - 2, MAX - 1),
        ratio_cmp(-1, 3, 1, MAX),
    ];
    let want = [Ordering::Equal, Ordering::Greater, Ordering::Less];
    assert_eq!(rt; (divisors, ratios), ([6, 0], want));
}

// Whether 1 -2 3 and 5 1 -1 have the product 0.
fn have_no_product(alloc: Global) -> Result<bool, AllocError> {
    let c = Row::from_slice(alloc, &[1, -2, 3])?;
    let form = Row::from_slice(alloc, &[5, 1, -1])?;
    Ok(c.dot(&form) == Ok(0))
}

// Whether 2 3 1 stands after 1 -1 5.
fn are_ordered(alloc: Global) -> Result<bool, AllocError> {
    let row = Row::from_slice(alloc, &[1, 2, 3])?;
    let form = Row::from_slice(alloc, &[5, 1, -1])?;
    Ok(row.compare(&form) == Ordering::Greater)
}

fn hash_of(row: &Row) -> u64 {
    let mut state = DefaultHasher::new();
    row.hash(&mut state);
    state.finish()
}

// Whether one row that is made in two ways is one key, which stands before another.
fn are_keys(alloc: Global) -> Result<bool, AllocError> {
    let row = Row::from_slice(alloc, &[1, -2, 3])?;
    let same = Row::of(alloc, &[-1, 2, -3])?.negate()?;
    let later = Row::of(alloc, &[0, -1, 3])?;
    let is_one = row == same && hash_of(&row) == hash_of(&same);
    Ok(is_one && row != later && row < later && hash_of(&row) != hash_of(&later))
}

fn is_row(row: &Row, pivot: usize, entries: &[i128]) -> bool {
    row.entries() == entries && row.width() == entries.len() && row.pivot() == pivot
}

// Whether the row is made, with this pivot and these entries.
fn makes(made: Result<Row, RowError>, pivot: usize, entries: &[i128]) -> bool {
    match made {
        Ok(row) => is_row(&row, pivot, entries),
        Err(_) => false,
    }
}

// Whether a form that is put in for a coordinate makes its row.
fn substitutes(alloc: Global) -> Result<bool, AllocError> {
    let row = Row::from_slice(alloc, &[1, 2, 3])?;
    let form = Row::from_slice(alloc, &[5, 1, -1])?;
    Ok(makes(row.substitute(1, &form), 1, &[11, 2, 1]))
}

// Whether two rows on either side of a third make theirs.
fn combines(alloc: Global) -> Result<bool, AllocError> {
    let u = Row::from_slice(alloc, &[1, 1])?;
    let v = Row::from_slice(alloc, &[6, -1])?;
    let c = Row::from_slice(alloc, &[0, 2])?;
    Ok(makes(Row::combine(&u, &v, &c), 0, &[1, 0]))
}

// Whether a negated row in lowest terms is as it should be.
fn lowers(alloc: Global) -> Result<bool, AllocError> {
    let mut even = Row::from_slice(alloc, &[4, 0, -6])?.negate()?;
    even.lowest_terms();
    Ok(is_row(&even, 2, &[-2, 0, 3]))
}

// Whether a row and its negative sum to nothing.
fn blends(alloc: Global) -> Result<bool, AllocError> {
    let nine = Row::from_slice(alloc, &[1, 2, 3, 4, 5, 6, 7, 8, 9])?;
    let other = nine.copy()?;
    let zero = nine.negate()?.blend(1, 1, &other);
    Ok(makes(zero, 0, &[0, 0, 0, 0, 0, 0, 0, 0, 0]))
}

/// Rows that are made and compared.
#[test]
fn rows(rt: HostRuntime) {
    let answers = [
        have_no_product(rt.alloc()),
        are_ordered(rt.alloc()),
        are_keys(rt.alloc()),
        substitutes(rt.alloc()),
        combines(rt.alloc()),
        lowers(rt.alloc()),
        blends(rt.alloc()),
    ];
    assert!(rt; answers == [Ok(true); 7]);
}

// What passes the range, if no row is made for it.
fn passing(made: Result<Row, RowError>) -> Option<Excess> {
    match made {
        Ok(_) => None,
        Err(RowError::Memory) => None,
        Err(RowError::Excess(excess)) => Some(excess),
    }
}

// What passes in the combination of two rows on either side of a third.
fn combining(
    alloc: Global,
    u: &[i128],
    v: &[i128],
    c: &[i128],
) -> Result<Option<Excess>, AllocError>
    requires u_numbers { All InRange u.now }
    requires v_numbers { All InRange v.now }
    requires c_numbers { All InRange c.now }
    requires u_width { length u.now ≡ length c.now }
    requires v_width { length v.now ≡ length c.now }
    requires above { pos 0 <ℤ product c.now u.now }
    requires below { product c.now v.now <ℤ pos 0 }
{
    let u = Row::from_slice(alloc, u)?;
    let v = Row::from_slice(alloc, v)?;
    let c = Row::from_slice(alloc, c)?;
    Ok(passing(Row::combine(&u, &v, &c)))
}

fn excess(op: Operation, left: i128, right: i128) -> Option<Excess> {
    Some(Excess { op, left, right })
}

// A product that passes.
fn product_of(left: i128, right: i128) -> Result<Option<Excess>, AllocError> {
    Ok(excess(Operation::Product, left, right))
}

// A sum that passes.
fn sum_of(left: i128, right: i128) -> Result<Option<Excess>, AllocError> {
    Ok(excess(Operation::Sum, left, right))
}

/// A product that passes: in `c.u`, and in `c.v`.
#[test]
fn products_in_combinations(rt: HostRuntime) {
    let above = combining(rt.alloc(), &[MAX, 1], &[-1, 0], &[2, 0]);
    let below = combining(rt.alloc(), &[1, 0], &[-MAX, 0], &[2, 0]);
    assert!(rt; above == product_of(2, MAX) && below == product_of(2, -MAX));
}

/// In each of the two multiples.
#[test]
fn products_of_combinations(rt: HostRuntime) {
    let first = combining(rt.alloc(), &[MAX, 1], &[0, -2], &[0, 1]);
    let second = combining(rt.alloc(), &[0, 2], &[-MAX, -1], &[0, 1]);
    assert!(rt; first == product_of(2, MAX) && second == product_of(2, -MAX));
}

/// A sum that passes: in `c.u`, in `c.v`, and of the two multiples.
#[test]
fn sums_in_combinations(rt: HostRuntime) {
    let above = combining(rt.alloc(), &[MAX, 1], &[-MAX, -1], &[1, 1]);
    let below = combining(rt.alloc(), &[1, 0], &[-MAX, -1], &[1, 1]);
    assert!(rt; above == sum_of(MAX, 1) && below == sum_of(-MAX, -1));
    let multiples = combining(rt.alloc(), &[MAX, 1], &[3, -1], &[0, 1]);
    assert!(rt; multiples == sum_of(MAX, 3));
}

// What passes in two values of a row.
fn passing_values(alloc: Global) -> Result<[Option<Excess>; 2], AllocError> {
    let large = Row::from_slice(alloc, &[MAX, 2])?;
    Ok([large.value_at(2, &[0]).err(), large.value_at(1, &[1]).err()])
}

// What passes in two substitutions.
fn passing_substitutions(alloc: Global) -> Result<[Option<Excess>; 2], AllocError> {
    let large = Row::from_slice(alloc, &[MAX, 2])?;
    let form = Row::from_slice(alloc, &[1, MAX])?;
    let sum = passing(large.substitute(1, &form));
    let product = passing(form.substitute(1, &large));
    Ok([sum, product])
}

#[test]
fn excesses(rt: HostRuntime) {
    let (product, sum) = (Operation::Product, Operation::Sum);
    let values = [excess(product, MAX, 2), excess(sum, MAX, 2)];
    assert!(rt; passing_values(rt.alloc()) == Ok(values));
    let substitutions = [excess(sum, MAX, 2), excess(product, MAX, MAX)];
    assert!(rt; passing_substitutions(rt.alloc()) == Ok(substitutions));
}
