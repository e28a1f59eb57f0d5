//! Arithmetic on the entries of rows.

ghost use Rattle.std.specs.Prelude.{◌≡◌, ◌≤◌, ◌<◌, ◌≤ℤ◌, ◌+◌, [], ◌∷◌, ℕ, pos, ◌*ℤ◌, ◌<ℤ◌, length, IfOk, IfErr};
ghost use Rattle.std.specs.Prelude.{unsigned_abs, map, int_div, slice_index_or, IsTrue};
ghost use Rattle.std.specs.{Int.◌∣◌, List.All};
ghost use Rattle.lra_linear_spec.specs.CheckedArithmetic.{checked_product_from, checked_product, checked_entry};
ghost use Rattle.lra_linear_spec.specs.{CheckedArithmetic.checked_blend, Echelon.pivot, Range.InRange};
ghost use Rattle.lra_linear_spec.specs.{RowOrder.constant_last, RowOrder.row_cmp, Vectors.entry, Vectors.negated};
ghost use Rattle.lra_row.specs.{Rows.IsExcessOf, Rows.IsRowGcd, Words.IsNarrow};

use crate::error::RowError;
use crate::number::{
    gcd, has_room, is_narrow, is_word, multiply_words, product_of, quotient, sum_of,
};
use lra_linear_spec::Excess;
use smallvec::SmallVec;
use std::alloc::{AllocError, Global};
use std::cmp::Ordering;

// Rows of at most so many columns stay inline.
const INLINE: usize = 8;

/// The entries of a row.
pub type Entries = SmallVec<i128, INLINE>;

// The sum with the product of one column, of numbers of any size.
#[cold]
#[inline(never)]
fn wide_column(sum: i128, x: i128, y: i128) -> Result<i128, Excess>
    ensures { result ≡ checked_product_from sum (x ∷ []) (y ∷ []) }
{
    sum_of(sum, product_of(x, y)?)
}

/// The sum of `start` and the product of two rows.
pub fn product_from(start: i128, xs: &[i128], ys: &[i128]) -> Result<i128, Excess>
    requires { length xs.now ≡ length ys.now }
    ensures { result ≡ checked_product_from start xs.now ys.now }
{
    let mut sum = start;
    for (x, y) in xs.iter().zip(ys) {
        if has_room(sum) && is_word(*x) && is_word(*y) {
            sum += multiply_words(*x, *y);
        } else {
            sum = wide_column(sum, *x, *y)?;
        }
    }
    Ok(sum)
}

/// The entries with these numbers.
pub fn copy_entries(alloc: Global, numbers: &[i128]) -> Result<Entries, AllocError>
    ensures { IfOk result (λ r. r.items ≡ numbers.now) }
{
    if numbers.len() <= INLINE {
        let mut places = [0i128; INLINE];
        for place in 0..numbers.len() {
            places[place] = numbers[place];
        }
        return Ok(SmallVec::from_buf_and_len(alloc, places, numbers.len()));
    }
    Ok(SmallVec::from_vec(Vec::from_slice(alloc, numbers)?))
}

/// Whether each number is narrow.
pub fn are_narrow(xs: &[i128]) -> bool
    ensures { IsTrue result → All IsNarrow xs.now }
{
    for x in xs {
        if !is_narrow(*x) {
            return false;
        }
    }
    true
}

/// The product of two rows of narrow numbers: no product and no sum passes the range.
pub fn narrow_product(xs: &[i128], ys: &[i128]) -> i128
    requires widths { length xs.now ≡ length ys.now }
    requires xs_narrow { All IsNarrow xs.now }
    requires ys_narrow { All IsNarrow ys.now }
    ensures { checked_product xs.now ys.now ≡ Ok result }
{
    let mut sum = 0;
    for (x, y) in xs.iter().zip(ys) {
        sum += multiply_words(*x, *y);
    }
    sum
}

/// The product of a row with the vector of a divisor and numerators.
pub fn product_at(xs: &[i128], divisor: i128, numerators: &[i128]) -> Result<i128, Excess>
    requires { length xs.now ≡ length numerators.now + 1 }
    ensures { result ≡ checked_product xs.now (divisor ∷ numerators.now) }
{
    let constant = product_of(xs[0], divisor)?;
    product_from(constant, &xs[1..], numerators)
}

// a u + b v in one column.
#[inline(always)]
fn blend_entry(a: i128, b: i128, u: i128, v: i128) -> Result<i128, Excess>
    ensures { result ≡ checked_entry a b u v }
{
    if is_word(a) && is_word(u) && is_word(b) && is_word(v) {
        let left = multiply_words(a, u);
        if has_room(left) {
            return Ok(left + multiply_words(b, v));
        }
    }
    wide_entry(a, b, u, v)
}

// a u + b v in one column, of numbers of any size.
#[cold]
#[inline(never)]
fn wide_entry(a: i128, b: i128, u: i128, v: i128) -> Result<i128, Excess>
    ensures { result ≡ checked_entry a b u v }
{
    let left = product_of(a, u)?;
    let right = product_of(b, v)?;
    sum_of(left, right)
}

/// a u + b v of two rows.
pub fn blend(alloc: Global, a: i128, b: i128, us: &[i128], vs: &[i128]) -> Result<Entries, RowError>
    requires { length us.now ≡ length vs.now }
    ensures ok { IfOk result (λ r. checked_blend a b us.now vs.now ≡ Ok r.items) }
    ensures err { IfErr result (IsExcessOf (checked_blend a b us.now vs.now)) }
{
    let mut entries = SmallVec::with_capacity(alloc, us.len())?;
    for (u, v) in us.iter().zip(vs) {
        entries.push_reserved(blend_entry(a, b, *u, *v)?);
    }
    Ok(entries)
}

/// The numbers, as entries.
pub fn entries_of(alloc: Global, numbers: &[i64]) -> Result<Entries, AllocError>
    ensures items { IfOk result (λ r. r.items ≡ numbers.now) }
    ensures in_range { IfOk result (λ r. All InRange r.items) }
{
    let mut entries = SmallVec::new(alloc);
    for number in numbers {
        entries.push(*number as i128)?;
    }
    Ok(entries)
}

/// The row times -1.
pub fn negate_entries(alloc: Global, xs: &[i128]) -> Result<Entries, AllocError>
    requires { All InRange xs.now }
    ensures { IfOk result (λ r. r.items ≡ negated xs.now) }
{
    let mut entries = SmallVec::new(alloc);
    for x in xs {
        entries.push(-*x)?;
    }
    Ok(entries)
}

/// The greatest number that divides each entry, 0 if all are 0.
pub fn divisor_of(xs: &[i128]) -> i128
    requires { All InRange xs.now }
    ensures divisor { IsRowGcd xs.now (unsigned_abs result) }
    ensures nonnegative { pos 0 ≤ℤ result }
{
    let mut divisor = 0;
    for number in xs {
        divisor = gcd(divisor, *number);
        if divisor == 1 {
            return 1;
        }
    }
    divisor
}

/// Divides each entry, all of which the positive divisor divides.
pub fn divide(xs: &mut [i128], divisor: i128)
    requires { pos 0 <ℤ divisor }
    ensures { xs.new ≡ map (λ x. int_div x divisor) xs.old }
{
    for x in xs.iter_mut() {
        *x = quotient(*x, divisor);
    }
}

/// The first column other than 0 in the order 1, 2, 3 and on; 0 if there is none.
pub fn pivot_of(xs: &[i128]) -> usize
    ensures pivot { result ≡ pivot xs.now }
    ensures inside { 0 < length xs.now → result < length xs.now }
{
    for j in 1..xs.len() {
        if xs[j] != 0 {
            return j;
        }
    }
    0
}

// The entry at a place of columns 1, 2, 3 and on, with column 0 last.
fn constant_last_entry(xs: &[i128], place: usize) -> i128
    requires { place < length xs.now }
    ensures { result ≡ slice_index_or (constant_last xs.now) place (pos 0) }
{
    if place + 1 < xs.len() {
        xs[place + 1]
    } else {
        xs[0]
    }
}

// Compares two rows of any widths by columns 1, 2, 3 and on, and by column 0 last.
fn compare_widths(xs: &[i128], ys: &[i128]) -> Ordering
    ensures { result ≡ row_cmp xs.now ys.now }
{
    for place in 0..xs.len().min(ys.len()) {
        let order = constant_last_entry(xs, place).cmp(&constant_last_entry(ys, place));
        if order != Ordering::Equal {
            return order;
        }
    }
    xs.len().cmp(&ys.len())
}

/// Compares two rows by columns 1, 2, 3 and on, and by column 0 last.
pub fn compare(xs: &[i128], ys: &[i128]) -> Ordering
    ensures { result ≡ row_cmp xs.now ys.now }
{
    if xs.is_empty() || xs.len() != ys.len() {
        return compare_widths(xs, ys);
    }
    for place in 1..xs.len() {
        if xs[place] != ys[place] {
            return xs[place].cmp(&ys[place]);
        }
    }
    xs[0].cmp(&ys[0])
}
