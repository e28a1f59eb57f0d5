//! Whether a product of rows is 0, also if it passes the range as it is computed.

ghost use Rattle.std.specs.Prelude.{◌≡◌, ◌↔◌, pos, ◌<ℤ◌, ◌≤ℤ◌, ◌^◌, IsTrue, length};
ghost use Rattle.std.specs.{Int.int_rem_euclid, List.All, Ordering.int_eq};
ghost use Rattle.lra_duality.specs.Crates.{lra_linear_spec.Range.InRange, lra_linear_spec.Vectors.product};
ghost use Rattle.lra_duality.specs.Residues.{IsMultiple, IsResidue};

use lra_row::Row;

// Primes below 2 ^ 63. The size of a product of rows stays below their product.
const FIRST: i128 = 9_223_372_036_854_775_783;

const SECOND: i128 = 9_223_372_036_854_775_643;

const THIRD: i128 = 9_223_372_036_854_775_549;

const FOURTH: i128 = 9_223_372_036_854_775_507;

const FIFTH: i128 = 9_223_372_036_854_775_433;

// What is left of the product of two rows when it is divided by the modulus.
fn residue(xs: &[i128], ys: &[i128], modulus: i128) -> i128
    requires widths { length xs.now ≡ length ys.now }
    requires positive { pos 0 <ℤ modulus }
    requires small { modulus <ℤ pos (2 ^ 63) }
    ensures { IsResidue modulus (product xs.now ys.now) result }
{
    let mut sum = 0;
    for place in 0..xs.len() {
        let (x, y) = (&xs[place], &ys[place]);
        let (a, b) = (x.rem_euclid(modulus), y.rem_euclid(modulus));
        sum = (sum + a * b).rem_euclid(modulus);
    }
    sum
}

// Whether the modulus divides the product of two rows.
fn divides(modulus: i128, xs: &[i128], ys: &[i128]) -> bool
    requires widths { length xs.now ≡ length ys.now }
    requires positive { pos 0 <ℤ modulus }
    requires small { modulus <ℤ pos (2 ^ 63) }
    ensures { IsTrue result ↔ IsMultiple modulus (product xs.now ys.now) }
{
    residue(xs, ys, modulus) == 0
}

// Whether the product of two rows is 0: if all the primes divide it, so does their product.
fn vanishes(xs: &[i128], ys: &[i128]) -> bool
    requires widths { length xs.now ≡ length ys.now }
    requires xs_in { All InRange xs.now }
    requires ys_in { All InRange ys.now }
    ensures { IsTrue result ↔ (product xs.now ys.now ≡ pos 0) }
{
    if !divides(FIRST, xs, ys) {
        return false;
    }
    if !divides(SECOND, xs, ys) {
        return false;
    }
    if !divides(THIRD, xs, ys) {
        return false;
    }
    if !divides(FOURTH, xs, ys) {
        return false;
    }
    divides(FIFTH, xs, ys)
}

// The number modulo 2 ^ 64.
#[inline(always)]
fn low_word(x: i128) -> u64
    ensures { pos result ≡ int_rem_euclid x (pos (2 ^ 64)) }
{
    (x.cast_unsigned() & u64::MAX as u128) as u64
}

// The product of two rows modulo 2 ^ 64.
fn low_product(xs: &[i128], ys: &[i128]) -> u64
    requires { length xs.now ≡ length ys.now }
    ensures { IsResidue (pos (2 ^ 64)) (product xs.now ys.now) (pos result) }
{
    let mut sum = 0u64;
    for place in 0..xs.len() {
        let (a, b) = (low_word(xs[place]), low_word(ys[place]));
        sum = sum.wrapping_add(a.wrapping_mul(b));
    }
    sum
}

/// Whether the product of the row with the generator is 0: it is given by the product itself if both are narrow, and
/// isn't 0 if its lowest 64 bits aren't.
pub fn saturates(row: &Row, generator: &Row) -> bool
    requires { length row.now ≡ length generator.now }
    ensures { result ≡ int_eq (product row.now generator.now) (pos 0) }
{
    if let Some(product) = row.narrow_dot(generator) {
        return product == 0;
    }
    if low_product(row.entries(), generator.entries()) != 0 {
        return false;
    }
    match row.dot(generator) {
        Ok(product) => product == 0,
        Err(_) => vanishes(row.entries(), generator.entries()),
    }
}
