//! Sums, products and quotients of single numbers.

ghost use Rattle.std.specs.Prelude.{◌≡◌, ◌≢◌, ◌<◌, ◌^◌, pos, ◌+ℤ◌, ◌*ℤ◌, ◌≤ℤ◌, ◌<ℤ◌, unsigned_abs, MatchResult, neg_ℤ};
ghost use Rattle.std.specs.{Int.IsGcd, Option.SomeIff, Ordering.int_cmp, Prelude.int_div, Prelude.IsTrue};
ghost use Rattle.lra_linear_spec.specs.Range.{InRange};
ghost use Rattle.lra_linear_spec.specs.declared.Operation.TheVariants.{Product, Sum};
ghost use Rattle.lra_row.specs.Division.{floor_quotient, IsFloor};
ghost use Rattle.lra_row.specs.Words.{HasRoom, IsNarrow, IsWord, IsWordProduct};

use lra_linear_spec::{Excess, Operation};
use std::cmp::Ordering;

// Words end before this number.
const WORD: i128 = 1 << 63;

// Sums that can take the product of two words end before this number.
const ROOM: i128 = 1 << 126;

// Narrow numbers are smaller in size.
const NARROW: i128 = 1 << 31;

/// Whether the size of the number is below 2^31: so many products of two of them as memory holds have a sum that stays
/// in the range.
#[inline(always)]
pub fn is_narrow(x: i128) -> bool
    ensures { IsTrue result → IsNarrow x }
{
    -NARROW < x && x < NARROW
}

/// Whether the number has 64 bits.
#[inline(always)]
pub fn is_word(x: i128) -> bool
    ensures { IsTrue result → IsWord x }
{
    -WORD <= x && x < WORD
}

/// Whether the sum stays in the range with the product of two words.
#[inline(always)]
pub fn has_room(sum: i128) -> bool
    ensures { IsTrue result → HasRoom sum }
{
    -ROOM <= sum && sum < ROOM
}

/// The product of two words.
#[inline(always)]
pub fn multiply_words(x: i128, y: i128) -> i128
    requires x_word { IsWord x }
    requires y_word { IsWord y }
    ensures product { result ≡ x *ℤ y }
    ensures bounds { IsWordProduct result }
{
    (x as i64) as i128 * (y as i64) as i128
}

/// `a * b`, or `None` exactly if it passes the range.
pub fn mul(a: i128, b: i128) -> Option<i128>
    ensures { SomeIff result (InRange (a *ℤ b)) (a *ℤ b) }
{
    if is_word(a) && is_word(b) {
        return Some(multiply_words(a, b));
    }
    match a.checked_mul(b) {
        Some(product) if product != i128::MIN => Some(product),
        _ => None,
    }
}

/// `a + b`, or `None` exactly if it passes the range.
pub fn add(a: i128, b: i128) -> Option<i128>
    ensures { SomeIff result (InRange (a +ℤ b)) (a +ℤ b) }
{
    match a.checked_add(b) {
        Some(sum) if sum != i128::MIN => Some(sum),
        _ => None,
    }
}

/// `a / b` rounded down, or `None` exactly if `b` is 0 or the quotient passes the range.
pub fn floor_div(a: i128, b: i128) -> Option<i128>
    ensures exact { SomeIff result ((b ≢ pos 0) × InRange (floor_quotient a b)) (floor_quotient a b) }
    ensures floor { b ≢ pos 0 → IsFloor a b (floor_quotient a b) }
{
    let quotient = a.checked_div_euclid(b)?;
    let floor = if b < 0 && a.rem_euclid(b) != 0 {
        quotient - 1
    } else {
        quotient
    };
    if floor == i128::MIN {
        None
    } else {
        Some(floor)
    }
}

/// The greatest common divisor, never negative; that of 0 and 0 is 0.
pub fn gcd(a: i128, b: i128) -> i128
    requires a_in { InRange a }
    requires b_in { InRange b }
    ensures divides { IsGcd (unsigned_abs a) (unsigned_abs b) (unsigned_abs result) }
    ensures nonnegative { pos 0 ≤ℤ result }
    ensures in_range { InRange result }
{
    gcd_of(a.unsigned_abs(), b.unsigned_abs()) as i128
}

// Euclid's algorithm.
fn gcd_of(a: u128, b: u128) -> u128
    requires a_in { a < 2 ^ 127 }
    requires b_in { b < 2 ^ 127 }
    ensures divides { IsGcd a b result }
    ensures small { result < 2 ^ 127 }
{
    let mut x = a;
    let mut y = b;
    while y != 0 {
        if x <= u64::MAX as u128 && y <= u64::MAX as u128 {
            return gcd_of_words(x as u64, y as u64) as u128;
        }
        let rest = x % y;
        x = y;
        y = rest;
    }
    x
}

// Euclid's algorithm on words.
fn gcd_of_words(a: u64, b: u64) -> u64
    ensures { IsGcd a b result }
{
    let mut x = a;
    let mut y = b;
    while y > 1 {
        let rest = x % y;
        x = y;
        y = rest;
    }
    if y == 1 { 1 } else { x }
}

/// The quotient by a positive divisor, rounded towards 0.
pub fn quotient(x: i128, divisor: i128) -> i128
    requires { pos 0 <ℤ divisor }
    ensures { result ≡ int_div x divisor }
{
    if is_word(x) && is_word(divisor) {
        (x as i64 / divisor as i64) as i128
    } else {
        x / divisor
    }
}

/// Compares `n1 / d1` with `n2 / d2`, whose divisors are positive, by repeated division and without products.
pub fn ratio_cmp(n1: i128, d1: i128, n2: i128, d2: i128) -> Ordering
    requires d1_positive { pos 0 <ℤ d1 }
    requires d2_positive { pos 0 <ℤ d2 }
    ensures { result ≡ int_cmp (n1 *ℤ d2) (n2 *ℤ d1) }
{
    let p = n1.div_euclid(d1);
    let q = n2.div_euclid(d2);
    if p != q {
        return p.cmp(&q);
    }
    let r = n1.rem_euclid(d1);
    let s = n2.rem_euclid(d2);
    if r == 0 || s == 0 {
        return r.cmp(&s);
    }
    ratio_cmp(d2, s, d1, r)
}

#[cold]
fn excess(op: Operation, left: i128, right: i128) -> Excess
    ensures { result ≡ record { op = op; left = left; right = right } }
{
    Excess { op, left, right }
}

/// The product, or the excess that names it.
pub fn product_of(left: i128, right: i128) -> Result<i128, Excess>
    ensures { MatchResult result
        (λ x. InRange (left *ℤ right) × (x ≡ left *ℤ right))
        (λ e. ¬ (InRange (left *ℤ right)) × (e ≡ record { op = Product; left = left; right = right })) }
{
    match mul(left, right) {
        Some(product) => Ok(product),
        None => Err(excess(Operation::Product, left, right)),
    }
}

/// The sum, or the excess that names it.
pub fn sum_of(left: i128, right: i128) -> Result<i128, Excess>
    ensures { MatchResult result
        (λ x. InRange (left +ℤ right) × (x ≡ left +ℤ right))
        (λ e. ¬ (InRange (left +ℤ right)) × (e ≡ record { op = Sum; left = left; right = right })) }
{
    match add(left, right) {
        Some(sum) => Ok(sum),
        None => Err(excess(Operation::Sum, left, right)),
    }
}

/// The number times -1.
pub fn opposite(a: i128) -> i128
    requires { InRange a }
    ensures value { result ≡ neg_ℤ a }
    ensures in_range { InRange result }
{
    -a
}
