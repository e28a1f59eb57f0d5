//! Two lists of words, word by word.

ghost use Rattle.std.specs.Prelude.{◌≡◌, ◌≢◌, ℕ, ◌<◌, ◌≤◌, ◌+◌, ◌-◌, ◌*◌, ◌^◌, ◌↔◌, length, IfOk, IsTrue, slice_index};
ghost use Rattle.std.specs.{Int.bit_at, Int.Bits.bit_and, List.All, Prelude.count_ones};
ghost use Rattle.lra_bits.specs.Words.{common_words, common_bits, AreWithin, AreCommonWithin};

use std::alloc::{AllocError, Global};

/// The bits of a word.
pub const WORD: usize = 64;

/// The bits that are set in both.
pub fn common(alloc: Global, xs: &[u64], ys: &[u64]) -> Result<Vec<u64>, AllocError>
    requires { length xs.now ≡ length ys.now }
    ensures { IfOk result (λ words. words.items ≡ common_words xs.now ys.now) }
{
    let mut words = Vec::with_capacity(alloc, xs.len())?;
    for (x, y) in xs.iter().zip(ys) {
        words.push(x & y)?;
    }
    Ok(words)
}

/// Each bit that is set in the first is set in the second.
pub fn are_within(xs: &[u64], ys: &[u64]) -> bool
    requires { length xs.now ≡ length ys.now }
    ensures within { IsTrue result ↔ AreWithin xs.now ys.now }
    ensures fit { All (λ x. x < 2 ^ 64) xs.now }
{
    xs.iter().zip(ys).all(|(x, y)| x & y == *x)
}

/// Each bit that is set in the first two is set in the third.
pub fn are_common_within(xs: &[u64], ys: &[u64], zs: &[u64]) -> bool
    requires second { length xs.now ≡ length ys.now }
    requires third { length xs.now ≡ length zs.now }
    ensures within { IsTrue result ↔ AreCommonWithin xs.now ys.now zs.now }
    ensures fit { All (λ x. x < 2 ^ 64) xs.now }
{
    are_common_within_from(xs, ys, zs, 0)
}

/// The word at `at` without the bit of this place, which may stand in another word.
pub fn without(word: u64, at: usize, place: usize) -> u64
    ensures { (j : ℕ) → j < 64 → (bit_at result j ≡ 1) ↔ ((bit_at word j ≡ 1) × (at * 64 + j ≢ place)) }
{
    if place / WORD == at {
        word & !(1u64 << (place % WORD))
    } else {
        word
    }
}

/// The word without this bit.
pub fn clear(word: u64, bit: usize) -> u64
    requires { bit < 64 }
    ensures cleared { bit_at result bit ≡ 0 }
    ensures others { (j : ℕ) → j < 64 → j ≢ bit → bit_at result j ≡ bit_at word j }
    ensures smaller { bit_at word bit ≡ 1 → result < word }
{
    word & !(1u64 << bit)
}

/// How many words at the start have no bit in common.
pub fn count_apart(xs: &[u64], ys: &[u64]) -> usize
    requires { length xs.now ≡ length ys.now }
    ensures { (i : ℕ) → i < result → bit_and (slice_index xs.now i) (slice_index ys.now i) ≡ 0 }
{
    for i in 0..xs.len() {
        if xs[i] & ys[i] != 0 {
            return i;
        }
    }
    xs.len()
}

/// As `are_common_within`, if so many words at the start have no bit in common: these aren't looked at.
pub fn are_common_within_from(xs: &[u64], ys: &[u64], zs: &[u64], from: usize) -> bool
    requires second { length xs.now ≡ length ys.now }
    requires third { length xs.now ≡ length zs.now }
    requires apart { (i : ℕ) → i < from → bit_and (slice_index xs.now i) (slice_index ys.now i) ≡ 0 }
    ensures within { IsTrue result ↔ AreCommonWithin xs.now ys.now zs.now }
    ensures fit { All (λ x. x < 2 ^ 64) xs.now }
{
    for i in from..xs.len() {
        if (xs[i] & ys[i]) & zs[i] != xs[i] & ys[i] {
            return false;
        }
    }
    true
}

// What is left of the number after one for each bit that is set, down to 0. Takes a step for each bit, as few are set
// where it matters, and there may be no instruction that counts them.
#[inline(always)]
fn take_ones(word: u64, number: usize) -> usize
    ensures { result ≡ number - count_ones word }
{
    let mut bits = word;
    let mut left = number;
    while bits != 0 {
        if left == 0 {
            return 0;
        }
        left -= 1;
        bits &= bits - 1;
    }
    left
}

/// Whether at least so many bits are set in both.
pub fn share_bits(xs: &[u64], ys: &[u64], least: usize) -> bool
    requires { length xs.now ≡ length ys.now }
    ensures enough { IsTrue result ↔ (least ≤ common_bits xs.now ys.now (length xs.now)) }
    ensures fit { All (λ x. x < 2 ^ 64) xs.now }
{
    let mut left = least;
    for i in 0..xs.len() {
        left = take_ones(xs[i] & ys[i], left);
        if left == 0 {
            return true;
        }
    }
    left == 0
}
