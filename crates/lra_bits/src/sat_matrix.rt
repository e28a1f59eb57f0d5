//! Matrices of truth values, which say which rows are tight at which vectors.

ghost use Rattle.std.specs.Prelude.{◌≡◌, ◌≢◌, ◌<◌, ◌++◌, ◌∷◌, [], length, IfOk, OnOk, OnErr, slice_index_or, ℕ, ◌↔◌};
ghost use Rattle.std.specs.Prelude.{◌+◌, ◌*◌, ◌%◌, ◌^◌, suc, take, Bool, false, replicate, IsTrue};
ghost use Rattle.std.specs.{Int.bit_at, List.All};
ghost use Rattle.lra_bits.specs.Matrix.{Matrix, lengthened_rows, unmarked, IsCommon, TellsCommon, TellsWithin};
ghost use Rattle.lra_bits.specs.Transposed.{AreColumns, AreWider, IsMarked, is_in_word};
ghost use Rattle.lra_bits.specs.{TruthValues.value_at, TruthValues.ArePlaces, Words.words_needed};

use crate::bit_row::BitRow;
use crate::words::{WORD, are_common_within_from, clear, count_apart, without};
use std::alloc::{AllocError, Global};
use std::marker::Model;

/// Rows of truth values, all of one width.
#[derive(Drop)]
pub struct SatMatrix {
    width: usize,
    rows: Vec<BitRow>,
}

impl Model for SatMatrix {
    ghost Value = { Matrix };

    ghost view = { λ m. record { width = m.width; rows = m.rows.items } };

    ghost invariant = { λ m. All (λ r. length r ≡ m.width) m.rows.items };
}

impl SatMatrix {
    /// A matrix of no rows.
    pub fn new(alloc: Global, width: usize) -> SatMatrix
        ensures { result ≡ record { width = width; rows = [] } }
    {
        SatMatrix {
            width,
            rows: Vec::new(alloc),
        }
    }

    /// A copy of the matrix.
    pub fn copy(&self) -> Result<SatMatrix, AllocError>
        ensures { IfOk result (λ m. m ≡ self.now) }
    {
        let alloc = *self.rows.allocator();
        Ok(SatMatrix {
            width: self.width,
            rows: copies(alloc, self.rows.as_slice())?,
        })
    }

    /// The number of columns.
    pub fn width(&self) -> usize
        ensures width { result ≡ self.now.width }
        ensures equal { All (λ r. length r ≡ self.now.width) self.now.rows }
    {
        self.width
    }

    /// The number of rows.
    pub fn height(&self) -> usize
        ensures { result ≡ length self.now.rows }
    {
        self.rows.len()
    }

    /// The row at a place.
    pub fn row(&self, i: usize) -> &BitRow
        requires { i < length self.now.rows }
        ensures row { result.now ≡ slice_index_or self.now.rows i [] }
        ensures width { length result.now ≡ self.now.width }
    {
        &self.rows[i]
    }

    /// The rows, handed on.
    pub fn into_rows(self) -> Vec<BitRow>
        ensures rows { result.items ≡ self.rows }
        ensures width { All (λ r. length r ≡ self.width) result.items }
    {
        let SatMatrix { width: _, rows } = self;
        rows
    }

    /// Puts a row after the others.
    pub fn add_row(&mut self, row: BitRow) -> Result<(), AllocError>
        requires { length row ≡ self.old.width }
        ensures added { OnOk result (self.new ≡ record self.old { rows = self.old.rows ++ row ∷ [] }) }
        ensures unchanged { OnErr result (self.new ≡ self.old) }
    {
        self.rows.push(row)?;
        Ok(())
    }

    /// Takes out the rows that are marked as gone; the others keep their order.
    pub fn remove_rows(&mut self, gone: &BitRow)
        requires { length gone.now ≡ length self.old.rows }
        ensures { self.new ≡ record self.old { rows = unmarked gone.now self.old.rows } }
    {
        let mut kept = 0;
        for k in 0..self.rows.len() {
            if !gone.get(k) {
                self.rows.swap(kept, k);
                kept += 1;
            }
        }
        self.rows.truncate(kept);
    }

    // The rows with a value after each.
    fn lengthened(&self, last: &BitRow) -> Result<Vec<BitRow>, AllocError>
        requires { length last.now ≡ length self.now.rows }
        ensures { IfOk result (λ rows. rows.items ≡ lengthened_rows self.now.rows last.now) }
    {
        let mut rows = Vec::with_capacity(*self.rows.allocator(), self.rows.len())?;
        for k in 0..self.rows.len() {
            let mut row = self.rows[k].copy()?;
            row.push(last.get(k))?;
            rows.push(row)?;
        }
        Ok(rows)
    }

    // A further column, in words that are there.
    fn push_in_place(&mut self, last: &BitRow)
        requires each { length last.now ≡ length self.old.rows }
        requires room { self.old.width % 64 ≢ 0 }
        requires few { self.old.width + 1 < 2 ^ 64 }
        ensures { self.new ≡ record {
          width = suc self.old.width;
          rows = lengthened_rows self.old.rows last.now;
        } }
    {
        push_values(self.rows.as_mut_slice(), last);
        self.width += 1;
    }

    // A further column, by rows that are made again.
    fn push_anew(&mut self, last: &BitRow) -> Result<(), AllocError>
        requires each { length last.now ≡ length self.old.rows }
        requires few { self.old.width + 1 < 2 ^ 64 }
        ensures pushed { OnOk result (self.new ≡ record {
          width = suc self.old.width;
          rows = lengthened_rows self.old.rows last.now;
        }) }
        ensures unchanged { OnErr result (self.new ≡ self.old) }
    {
        let rows = self.lengthened(last)?;
        self.rows = rows;
        self.width += 1;
        Ok(())
    }

    /// Puts a value after each row: a further column. Memory is taken for each 64th column alone; if there is none,
    /// the matrix stays as it was.
    pub fn push_column(&mut self, last: &BitRow) -> Result<(), AllocError>
        requires { length last.now ≡ length self.old.rows }
        ensures pushed { OnOk result (self.new ≡ record {
          width = suc self.old.width;
          rows = lengthened_rows self.old.rows last.now;
        }) }
        ensures unchanged { OnErr result (self.new ≡ self.old) }
    {
        let width = self.width();
        if width == usize::MAX {
            return Err(AllocError);
        }
        if width % WORD == 0 {
            return self.push_anew(last);
        }
        self.push_in_place(last);
        Ok(())
    }

    /// Puts the rows of another matrix after its own. Running out of memory leaves it as it was.
    pub fn append(&mut self, more: SatMatrix) -> Result<(), AllocError>
        requires { more.width ≡ self.old.width }
        ensures appended { OnOk result
            (self.new ≡ record self.old { rows = self.old.rows ++ more.rows }) }
        ensures unchanged { OnErr result (self.new ≡ self.old) }
    {
        let mut rows = more.into_rows();
        self.rows.reserve(rows.len())?;
        let _ = self.rows.append(&mut rows);
        Ok(())
    }

    // Keeps so many rows at the start.
    fn truncate(&mut self, count: usize)
        ensures { self.new ≡ record self.old { rows = take count self.old.rows } }
    {
        self.rows.truncate(count);
    }

    /// Puts further rows after its own and a value after each, and takes out those that are marked as gone. Running out
    /// of memory leaves the matrix as it was.
    pub fn exchange(
        &mut self,
        more: SatMatrix,
        last: &BitRow,
        gone: &BitRow,
    ) -> Result<(), AllocError>
        requires width { more.width ≡ self.old.width }
        requires each { length last.now ≡ length (self.old.rows ++ more.rows) }
        requires marks { length gone.now ≡ length (self.old.rows ++ more.rows) }
        ensures exchanged { OnOk result (self.new ≡ record {
          width = suc self.old.width;
          rows = unmarked gone.now (lengthened_rows (self.old.rows ++ more.rows) last.now);
        }) }
        ensures unchanged { OnErr result (self.new ≡ self.old) }
    {
        let height = self.rows.len();
        self.append(more)?;
        match self.push_column(last) {
            Ok(()) => {
                self.remove_rows(gone);
                Ok(())
            }
            Err(_) => {
                self.truncate(height);
                Err(AllocError)
            }
        }
    }

    /// A row but these two that is true wherever both are, if there is one. Takes no memory.
    pub fn find_within(&self, first: usize, second: usize) -> Option<usize>
        requires first { first < length self.now.rows }
        requires second { second < length self.now.rows }
        ensures { TellsWithin self.now first second result }
    {
        let (xs, ys) = (self.rows[first].words(), self.rows[second].words());
        let from = count_apart(xs, ys);
        for place in 0..self.rows.len() {
            if place != first && place != second {
                if are_common_within_from(xs, ys, self.rows[place].words(), from) {
                    return Some(place);
                }
            }
        }
        None
    }

    /// As `find_within`, by the columns, if they are at hand, and the places where the first row is true.
    pub fn find_within_by(
        &self,
        columns: &SatMatrix,
        places: &[usize],
        first: usize,
        second: usize,
    ) -> Option<usize>
        requires first { first < length self.now.rows }
        requires second { second < length self.now.rows }
        requires columns { AreColumns self.now (length columns.now.rows) columns.now }
        requires places { ArePlaces (slice_index_or self.now.rows first []) (length columns.now.rows) places.now }
        ensures { TellsWithin self.now first second result }
    {
        if columns.height() == self.width() {
            columns.find_common(places, self.row(second), first, second)
        } else {
            self.find_within(first, second)
        }
    }

    /// The matrix with rows and columns exchanged. It takes a step for each word and each value that is true.
    pub fn transposed(&self, alloc: Global) -> Result<SatMatrix, AllocError>
        ensures { IfOk result (λ columns. AreColumns self.now self.now.width columns) }
    {
        let mut columns = blank_rows(alloc, self.width, self.rows.len())?;
        for k in 0..self.rows.len() {
            set_places(columns.as_mut_slice(), &self.rows[k], k);
        }
        Ok(SatMatrix {
            width: self.rows.len(),
            rows: columns,
        })
    }

    // The word at `at` with the bits that are set in each of these rows that is marked.
    fn common_word(&self, rows: &[usize], marked: &BitRow, at: usize) -> u64
        requires rows { All (λ r. r < length self.now.rows) rows.now }
        requires marked { All (λ r. r < length marked.now) rows.now }
        requires at { at < words_needed self.now.width }
        ensures { (j : ℕ) → j < 64 →
            (bit_at result j ≡ 1) ↔ IsCommon self.now rows.now marked.now (length rows.now) (at * 64 + j) }
    {
        let mut word = u64::MAX;
        for i in 0..rows.len() {
            if marked.get(rows[i]) {
                word &= self.rows[rows[i]].words()[at];
                if word == 0 {
                    return 0;
                }
            }
        }
        word
    }

    /// A place but these two where each of these rows is true that is marked. Takes no memory.
    pub fn find_common(
        &self,
        rows: &[usize],
        marked: &BitRow,
        first: usize,
        second: usize,
    ) -> Option<usize>
        requires rows { All (λ r. r < length self.now.rows) rows.now }
        requires marked { All (λ r. r < length marked.now) rows.now }
        ensures { TellsCommon self.now rows.now marked.now first second result }
    {
        for at in 0..self.width.div_ceil(WORD) {
            let word = self.common_word(rows, marked, at);
            let others = without(without(word, at, first), at, second);
            if others != 0 {
                let bit = others.trailing_zeros() as usize;
                if bit < self.width - at * WORD {
                    return Some(at * WORD + bit);
                }
            }
        }
        None
    }
}

// Puts a value after each row, in words that are there.
fn push_values(rows: &mut [BitRow], last: &BitRow)
    requires each { length last.now ≡ length rows.old }
    requires room { All (λ r. length r % 64 ≢ 0) rows.old }
    requires few { All (λ r. length r + 1 < 2 ^ 64) rows.old }
    ensures { rows.new ≡ lengthened_rows rows.old last.now }
{
    for k in 0..rows.len() {
        rows[k].push_within(last.get(k));
    }
}

fn copies(alloc: Global, rows: &[BitRow]) -> Result<Vec<BitRow>, AllocError>
    ensures { IfOk result (λ copied. copied.items ≡ rows.now) }
{
    let mut copied = Vec::with_capacity(alloc, rows.len())?;
    for row in rows {
        copied.push(row.copy()?)?;
    }
    Ok(copied)
}

// So many rows of so many values, all false.
fn blank_rows(alloc: Global, count: usize, width: usize) -> Result<Vec<BitRow>, AllocError>
    ensures count { IfOk result (λ rows. length rows.items ≡ count) }
    ensures blank { IfOk result (λ rows. All (λ row. row ≡ replicate width false) rows.items) }
{
    let mut rows = Vec::with_capacity(alloc, count)?;
    for _ in 0..count {
        rows.push(BitRow::new(alloc, width)?)?;
    }
    Ok(rows)
}

// Puts place `k` in the rows at the places of the bits of the word at `at`.
fn set_word(columns: &mut [BitRow], word: u64, at: usize, k: usize)
    requires wide { AreWider k columns.old }
    requires inside { (c : ℕ) → IsTrue (is_in_word word at c) → c < length columns.old }
    ensures { IsMarked columns.old columns.new k (is_in_word word at) }
{
    let mut left = word;
    while left != 0 {
        let bit = left.trailing_zeros() as usize;
        columns[at * WORD + bit].set(k, true);
        left = clear(left, bit);
    }
}

// Puts place `k` in the rows at the places where this row is true.
fn set_places(columns: &mut [BitRow], row: &BitRow, k: usize)
    requires wide { AreWider k columns.old }
    requires width { length row.now ≡ length columns.old }
    ensures { IsMarked columns.old columns.new k (value_at row.now) }
{
    let words = row.words();
    for at in 0..words.len() {
        set_word(columns, words[at], at, k);
    }
}
