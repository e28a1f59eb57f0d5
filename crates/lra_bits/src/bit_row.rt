//! Lists of truth values as words.

ghost use Rattle.std.specs.Int.{bit_at};
ghost use Rattle.std.specs.Prelude.{◌≡◌, ◌≢◌, ℕ, ◌<◌, ◌≤◌, ◌↔◌, ◌++◌, ◌∷◌, Bool, true, false, List, [], length};
ghost use Rattle.std.specs.Prelude.{replicate, slice_set, IfOk, OnOk, OnErr, IsTrue, ◌+◌, ◌*◌, ◌%◌, ◌^◌, ◌==◌, min};
ghost use Rattle.lra_bits.specs.TruthValues.{value_at, are_true, true_count, ArePlaces, IsSubset, both};
ghost use Rattle.lra_bits.specs.Words.{bit_of, unpacked, words_needed, ArePacked};

use crate::words::{self, WORD, clear};
use std::alloc::{AllocError, Global};
use std::marker::Model;

/// A list of truth values, packed into words of 64 bits.
#[derive(Drop)]
pub struct BitRow {
    width: usize,
    words: Vec<u64>,
}

impl Model for BitRow {
    ghost Value = { List Bool };

    ghost view = { λ r. unpacked r.width r.words.items };

    ghost invariant = { λ r. (length r.words.items ≡ words_needed r.width) ×
        ((k : ℕ) → r.width ≤ k → bit_of r.words.items k ≡ false) };
}

impl BitRow {
    /// A row of `width` truth values, all false.
    pub fn new(alloc: Global, width: usize) -> Result<BitRow, AllocError>
        ensures { IfOk result (λ row. row ≡ replicate width false) }
    {
        let words = vec![in alloc; 0u64; width.div_ceil(WORD)]?;
        Ok(BitRow { width, words })
    }

    /// A row of `width` truth values, all true.
    pub fn all_true(alloc: Global, width: usize) -> Result<BitRow, AllocError>
        ensures { IfOk result (λ row. row ≡ replicate width true) }
    {
        let mut row = BitRow::new(alloc, width)?;
        for k in 0..width {
            row.set(k, true);
        }
        Ok(row)
    }

    /// A copy of the row.
    pub fn copy(&self) -> Result<BitRow, AllocError>
        ensures { IfOk result (λ row. row ≡ self.now) }
    {
        let alloc = *self.words.allocator();
        Ok(BitRow {
            width: self.width,
            words: Vec::from_slice(alloc, self.words.as_slice())?,
        })
    }

    /// The number of truth values.
    pub fn width(&self) -> usize
        ensures { result ≡ length self.now }
    {
        self.width
    }

    /// The words: truth value `k` is bit `k % 64` of word `k / 64`, and the bits that are not used are 0.
    pub fn words(&self) -> &[u64]
        ensures { ArePacked self.now result.now }
    {
        self.words.as_slice()
    }

    /// The truth value at a place.
    pub fn get(&self, k: usize) -> bool
        requires { k < length self.now }
        ensures { result ≡ value_at self.now k }
    {
        (self.words[k / WORD] >> (k % WORD)) & 1 == 1
    }

    /// Whether all values are true.
    pub fn are_true(&self) -> bool
        ensures { result ≡ are_true self.now }
    {
        for k in 0..self.width() {
            if !self.get(k) {
                return false;
            }
        }
        true
    }

    /// Of the first so many places those with a value that is true.
    pub fn places(&self, alloc: Global, count: usize) -> Result<Vec<usize>, AllocError>
        requires { count ≤ length self.now }
        ensures { IfOk result (λ places. ArePlaces self.now count places.items) }
    {
        let words = self.words();
        let mut places = Vec::with_capacity(alloc, count)?;
        for at in 0..count.div_ceil(WORD) {
            push_places(&mut places, words[at], at, count)?;
        }
        Ok(places)
    }

    /// Puts a truth value at a place.
    pub fn set(&mut self, k: usize, v: bool)
        requires { k < length self.old }
        ensures { self.new ≡ slice_set self.old k v }
    {
        let bit = 1u64 << (k % WORD);
        if v {
            self.words[k / WORD] |= bit;
        } else {
            self.words[k / WORD] &= !bit;
        }
    }

    // One more value, false, after the others.
    fn widen(&mut self) -> Result<(), AllocError>
        ensures widened { OnOk result (self.new ≡ self.old ++ false ∷ []) }
        ensures unchanged { OnErr result (self.new ≡ self.old) }
    {
        let wider = match self.width.checked_add(1) {
            Some(wider) => wider,
            None => return Err(AllocError),
        };
        if self.width % WORD == 0 {
            self.words.push(0)?;
        }
        self.width = wider;
        Ok(())
    }

    /// Puts a truth value after the others.
    pub fn push(&mut self, v: bool) -> Result<(), AllocError>
        ensures pushed { OnOk result (self.new ≡ self.old ++ v ∷ []) }
        ensures unchanged { OnErr result (self.new ≡ self.old) }
    {
        let last = self.width;
        self.widen()?;
        if v {
            self.set(last, true);
        }
        Ok(())
    }

    // One more value, false, in a word that is there.
    fn widen_within(&mut self)
        requires room { length self.old % 64 ≢ 0 }
        requires few { length self.old + 1 < 2 ^ 64 }
        ensures { self.new ≡ self.old ++ false ∷ [] }
    {
        self.width += 1;
    }

    /// Puts a truth value after the others, in a word that is there. Takes no memory.
    pub fn push_within(&mut self, v: bool)
        requires room { length self.old % 64 ≢ 0 }
        requires few { length self.old + 1 < 2 ^ 64 }
        ensures { self.new ≡ self.old ++ v ∷ [] }
    {
        let last = self.width;
        self.widen_within();
        self.set(last, v);
    }

    /// Each value that is true is true in the other list too.
    pub fn subset(&self, other: &BitRow) -> bool
        requires { length self.now ≡ length other.now }
        ensures { IsTrue result ↔ IsSubset self.now other.now }
    {
        words::are_within(&self.words, &other.words)
    }

    /// The list that is true where both are.
    pub fn common(&self, other: &BitRow) -> Result<BitRow, AllocError>
        requires { length self.now ≡ length other.now }
        ensures { IfOk result (λ row. row ≡ both self.now other.now) }
    {
        let words = words::common(*self.words.allocator(), &self.words, &other.words)?;
        Ok(BitRow {
            width: self.width,
            words,
        })
    }

    /// Whether at least so many values are true in both. Takes no memory.
    pub fn shares(&self, other: &BitRow, least: usize) -> bool
        requires { length self.now ≡ length other.now }
        ensures { IsTrue result ↔ (least ≤ true_count (both self.now other.now)) }
    {
        words::share_bits(&self.words, &other.words, least)
    }

    /// Each value that is true here and in the second list is true in the third too. Takes no memory.
    pub fn common_within(&self, second: &BitRow, third: &BitRow) -> bool
        requires second { length self.now ≡ length second.now }
        requires third { length self.now ≡ length third.now }
        ensures { IsTrue result ↔ IsSubset (both self.now second.now) third.now }
    {
        words::are_common_within(&self.words, &second.words, &third.words)
    }
}

// Puts the places below `count` of the bits of the word at `at` after what is there.
fn push_places(
    places: &mut Vec<usize>,
    word: u64,
    at: usize,
    count: usize,
) -> Result<(), AllocError>
    requires { at * 64 < count }
    ensures { OnOk result ((values : List Bool) →
        ((j : ℕ) → j < 64 → value_at values (at * 64 + j) ≡ (bit_at word j == 1)) →
        ArePlaces values (min count (at * 64)) places.old.items →
        ArePlaces values (min count (at * 64 + 64)) places.new.items) }
{
    let mut left = word;
    while left != 0 {
        let bit = left.trailing_zeros() as usize;
        let place = at * WORD + bit;
        if place >= count {
            return Ok(());
        }
        places.push(place)?;
        left = clear(left, bit);
    }
    Ok(())
}
