//! Rows of exact numbers.

ghost use Rattle.std.specs.Prelude.{◌≡◌, ◌≤◌, ◌<◌, ℕ, ℤ, pos, neg_ℤ, ◌+ℤ◌, ◌*ℤ◌, ◌<ℤ◌, length, List, ◌∷◌, ◌+◌, IfOk};
ghost use Rattle.std.specs.Prelude.{◌++◌, ◌^◌, ◌↔◌, IfErr, IfSome, IsTrue, OnOk, slice_set, suc};
ghost use Rattle.std.specs.{Cmp.IsTotalOrder, FinMap.IsAntisymmetric, List.All};
ghost use Rattle.lra_linear_spec.specs.CheckedArithmetic.{checked_product, checked_blend, checked_combination};
ghost use Rattle.lra_linear_spec.specs.Vectors.{entry, dot, product, negated, blend, combined, cleared, substituted};
ghost use Rattle.lra_linear_spec.specs.{CheckedArithmetic.checked_substitution, Echelon.pivot, LowestTerms.IsLowest};
ghost use Rattle.lra_linear_spec.specs.{Range.InRange, RowOrder.row_cmp, SetOperations.assigned, Vectors.zeros};
ghost use Rattle.lra_row.specs.Operations.{NamesFirst, NamesFirstOrMemory, product_operations, blend_operations};
ghost use Rattle.lra_row.specs.Rows.{IsExcessOf, combination_operations, IsPositiveSum, substitution_operations};
ghost use Rattle.lra_row.specs.Words.{IsNarrow};

use crate::entries;
use crate::entries::Entries;
use crate::error::RowError;
use crate::number::opposite;
use lra_linear_spec::Excess;
use std::alloc::{AllocError, Global};
use std::cmp::Ordering;
use std::marker::Model;

/// A row of numbers of the range: the coefficients of a linear constraint, or the coordinates of a generator. Column 0
/// has the constant or the divisor.
pub struct Row {
    entries: Entries,
    // each entry is below 2^31 in size; if they are, this may yet be false
    narrow: bool,
}

impl Drop for Row {
    fn drop(self) {
        let Row {
            entries: _,
            narrow: _,
        } = self;
    }
}

impl Model for Row {
    ghost Value = { List ℤ };

    ghost view = { λ r. r.entries.items };

    ghost invariant = { λ r. All InRange r.entries.items × (IsTrue r.narrow → All IsNarrow r.entries.items) };
}

impl Row {
    /// The row of these numbers, column 0 first.
    pub fn from_slice(alloc: Global, numbers: &[i128]) -> Result<Row, AllocError>
        requires { All InRange numbers.now }
        ensures { IfOk result (λ row. row ≡ numbers.now) }
    {
        let entries = entries::copy_entries(alloc, numbers)?;
        let narrow = entries::are_narrow(numbers);
        Ok(Row { entries, narrow })
    }

    /// The row of these numbers of 64 bits, column 0 first.
    pub fn of(alloc: Global, numbers: &[i64]) -> Result<Row, AllocError>
        ensures { IfOk result (λ row. row ≡ numbers.now) }
    {
        let entries = entries::entries_of(alloc, numbers)?;
        let narrow = entries::are_narrow(entries.as_slice());
        Ok(Row { entries, narrow })
    }

    /// The row of n + 1 columns with the factor in this column and 0 elsewhere.
    pub fn unit(alloc: Global, n: usize, column: usize, factor: i128) -> Result<Row, AllocError>
        requires small { n < 2 ^ 62 }
        requires column { column ≤ n }
        requires factor { InRange factor }
        ensures { IfOk result (λ row. row ≡ slice_set (zeros (suc n)) column factor) }
    {
        let mut numbers = vec![in alloc; 0i128; n + 1]?;
        numbers[column] = factor;
        let row = Row::from_slice(alloc, &numbers)?;
        Ok(row)
    }

    /// A copy of the row.
    pub fn copy(&self) -> Result<Row, AllocError>
        ensures { IfOk result (λ row. row ≡ self.now) }
    {
        let entries = entries::copy_entries(*self.entries.allocator(), self.entries.as_slice())?;
        Ok(Row {
            entries,
            narrow: self.narrow,
        })
    }

    /// The number of columns.
    pub fn width(&self) -> usize
        ensures { result ≡ length self.now }
    {
        self.entries.len()
    }

    /// The entries, column 0 first.
    pub fn entries(&self) -> &[i128]
        ensures entries { result.now ≡ self.now }
        ensures in_range { All InRange result.now }
    {
        self.entries.as_slice()
    }

    /// The entry of a column.
    #[tactic(auto, using(crate::proofs::RowLemmas::entry_at))]
    pub fn get(&self, column: usize) -> i128
        requires { column < length self.now }
        ensures entry { result ≡ entry self.now column }
        ensures in_range { InRange result }
    {
        self.entries.as_slice()[column]
    }

    /// The first column other than 0 in the order 1, 2, 3 and on; 0 if there is none.
    pub fn pivot(&self) -> usize
        ensures pivot { result ≡ pivot self.now }
        ensures inside { 0 < length self.now → result < length self.now }
    {
        entries::pivot_of(self.entries.as_slice())
    }

    /// The product with a row of the same width if both are seen to be narrow: then no product and no sum passes.
    #[inline(always)]
    pub fn narrow_dot(&self, other: &Row) -> Option<i128>
        requires { length self.now ≡ length other.now }
        ensures exact { IfSome result (λ p. checked_product self.now other.now ≡ Ok p) }
        ensures value { IfSome result (λ p. p ≡ product self.now other.now) }
    {
        if self.narrow && other.narrow {
            let (xs, ys) = (self.entries.as_slice(), other.entries.as_slice());
            Some(entries::narrow_product(xs, ys))
        } else {
            None
        }
    }

    /// The product with a row of the same width, or the first product or partial sum that passes, columns from 0 up.
    #[tactic(auto, using(crate::proofs::FirstPassing::product_rules))]
    pub fn dot(&self, other: &Row) -> Result<i128, Excess>
        requires { length self.now ≡ length other.now }
        ensures exact { result ≡ checked_product self.now other.now }
        ensures value { IfOk result (λ p. p ≡ product self.now other.now) }
        ensures in_range { IfOk result InRange }
        ensures first { NamesFirst (product_operations self.now other.now) result }
    {
        match self.narrow_dot(other) {
            Some(product) => Ok(product),
            None => entries::product_from(0, self.entries.as_slice(), other.entries.as_slice()),
        }
    }

    /// The product with the vector whose column 0 is `divisor` and whose further columns are `numerators`.
    #[tactic(auto, using(crate::proofs::FirstPassing::product_rules))]
    pub fn value_at(&self, divisor: i128, numerators: &[i128]) -> Result<i128, Excess>
        requires { length self.now ≡ length numerators.now + 1 }
        ensures exact { result ≡ checked_product self.now (divisor ∷ numerators.now) }
        ensures value { IfOk result (λ p. p ≡ product self.now (divisor ∷ numerators.now)) }
        ensures in_range { IfOk result InRange }
        ensures first { NamesFirst (product_operations self.now (divisor ∷ numerators.now)) result }
    {
        entries::product_at(self.entries.as_slice(), divisor, numerators)
    }

    /// `a` times this row and `b` times the other, or the first product or sum that passes: columns from 0 up, in each
    /// the product with this row, that with the other, and their sum.
    #[tactic(auto, using(crate::proofs::FirstPassing::blend_rules))]
    pub fn blend(&self, a: i128, b: i128, other: &Row) -> Result<Row, RowError>
        requires { length self.now ≡ length other.now }
        ensures made { IfOk result (λ row. checked_blend a b self.now other.now ≡ Ok row) }
        ensures value { IfOk result (λ row. row ≡ blend a b self.now other.now) }
        ensures excess { IfErr result (IsExcessOf (checked_blend a b self.now other.now)) }
        ensures first { NamesFirstOrMemory (blend_operations a b self.now other.now) result }
    {
        let (us, vs) = (self.entries.as_slice(), other.entries.as_slice());
        let entries = entries::blend(*self.entries.allocator(), a, b, us, vs)?;
        let narrow = entries::are_narrow(entries.as_slice());
        Ok(Row { entries, narrow })
    }

    /// `(-c.v) u + (c.u) v` in lowest terms, for `c.u` above 0 and `c.v` below: its product with `c` is 0. Or the first
    /// product or sum that passes: those of `c.u`, of `c.v`, then those of the sum, columns from 0 up.
    pub fn combine(u: &Row, v: &Row, c: &Row) -> Result<Row, RowError>
        requires u_width { length u.now ≡ length c.now }
        requires v_width { length v.now ≡ length c.now }
        requires above { pos 0 <ℤ product c.now u.now }
        requires below { product c.now v.now <ℤ pos 0 }
        ensures lowest { IfOk result (IsLowest (combined u.now v.now c.now)) }
        ensures flat { IfOk result (λ row. product c.now row ≡ pos 0) }
        ensures positive { IfOk result (IsPositiveSum u.now v.now) }
        ensures excess { IfErr result (IsExcessOf (checked_combination u.now v.now c.now)) }
        ensures first { NamesFirstOrMemory (combination_operations u.now v.now c.now) result }
    {
        let above = c.dot(u)?;
        let below = c.dot(v)?;
        let mut row = u.blend(opposite(below), above, v)?;
        row.lowest_terms();
        Ok(row)
    }

    /// Whether both have the same numbers.
    pub fn same(&self, other: &Row) -> bool
        ensures { IsTrue result ↔ (self.now ≡ other.now) }
    {
        self.entries.as_slice() == other.entries.as_slice()
    }

    // Puts 0 into a column.
    fn clear(&mut self, column: usize)
        requires { column < length self.old }
        ensures cleared { self.new ≡ cleared column self.old }
        ensures in_range { All InRange self.new }
    {
        self.entries.as_mut_slice()[column] = 0;
    }

    /// The row with the entry of column `x` times the form in place of `x`: its product with a point is that of this
    /// row with the point whose coordinate `x` is the form's value. Or the first product or sum that passes, columns
    /// from 0 up.
    pub fn substitute(&self, x: usize, form: &Row) -> Result<Row, RowError>
        requires column { x < length self.now }
        requires width { length form.now ≡ length self.now }
        ensures value { IfOk result (λ row. row ≡ substituted x form.now self.now) }
        ensures assigns { IfOk result (λ row. (u : List ℤ) → length u ≡ length self.now →
            product row u ≡ product self.now (assigned x form.now u)) }
        ensures excess { IfErr result (IsExcessOf (checked_substitution x form.now self.now)) }
        ensures first { NamesFirstOrMemory (substitution_operations x form.now self.now) result }
    {
        let mut rest = self.copy()?;
        rest.clear(x);
        rest.blend(1, self.get(x), form)
    }

    /// The row times -1.
    #[tactic(auto, using(crate::proofs::RowLemmas::negated_in_range))]
    pub fn negate(&self) -> Result<Row, AllocError>
        ensures { IfOk result (λ row. row ≡ negated self.now) }
    {
        let entries = entries::negate_entries(*self.entries.allocator(), self.entries.as_slice())?;
        Ok(Row {
            entries,
            narrow: self.narrow,
        })
    }

    /// Divides the row by the greatest number that divides each entry, that of column 0 among them.
    #[tactic(auto, using(crate::proofs::RowLemmas::lowest_rules))]
    pub fn lowest_terms(&mut self)
        ensures { IsLowest self.old self.new }
    {
        let divisor = entries::divisor_of(self.entries.as_slice());
        if divisor > 1 {
            entries::divide(self.entries.as_mut_slice(), divisor);
            self.narrow = entries::are_narrow(self.entries.as_slice());
        }
    }

    /// Compares two rows by the entries of columns 1, 2, 3 and on, and by that of column 0 last.
    #[tactic(auto, using(lra_linear_spec::proofs::RowOrder::row_cmp_total, crate::specs::RowTies::row_cmp_ties))]
    pub fn compare(&self, other: &Row) -> Ordering
        ensures order { result ≡ row_cmp self.now other.now }
        ensures total { IsTotalOrder row_cmp }
        ensures ties { IsAntisymmetric row_cmp }
    {
        entries::compare(self.entries.as_slice(), other.entries.as_slice())
    }
}

/// Puts copies of the rows after what is there.
pub fn push_copies(rows: &mut Vec<Row>, more: &[Row]) -> Result<(), AllocError>
    ensures { OnOk result (rows.new.items ≡ rows.old.items ++ more.now) }
{
    for row in more {
        rows.push(row.copy()?)?;
    }
    Ok(())
}
