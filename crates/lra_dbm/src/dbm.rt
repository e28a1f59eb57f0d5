//! Matrices of bounds on differences.

ghost use Rattle.std.specs.Prelude.{◌≡◌, ◌≤◌, ◌<◌, ◌+◌, ◌-◌, ◌^◌, ◌*◌, ◌↔◌, pos, Some, ℕ, IsTrue, IfOk, OnOk, OnErr};
ghost use Rattle.std.specs.Prelude.{unsigned_abs};
ghost use Rattle.lra_dbm.specs.Crates.lra_linear_spec.Range.{InRange};
ghost use Rattle.lra_dbm.specs.Answers.{is_empty, is_flagged};
ghost use Rattle.lra_dbm.specs.Cells.{IsMatrix, entered, entry_at, outside, forgotten, first_entries, size};
ghost use Rattle.lra_dbm.specs.Pointwise.{AreSmall, CellsWithin, greater_cells, stable_cells, finite_cells};
ghost use Rattle.lra_dbm.specs.{Closing.Closes, Closing.closing, Closure.LeastJoin, Shifting.ShiftedTo, Steps.progress};

use crate::cells::{enter, entry};
use crate::clearing::{clear, grow, shrink};
use crate::pointwise::{all_within, are_small, count_cells, join_cells, widen_cells};
use crate::shifting::{Shift, shift_cells};
use crate::steps::close;
use lra_domain::Exactness;
use std::alloc::{AllocError, Global};
use std::marker::Model;

/// Upper bounds on the differences of the 2n signed variables of n variables: signed variable 2k is `+x_k`, and 2k + 1
/// is `-x_k`. The entry at `i` and `j` bounds `v_j - v_i`. Half of the entries are kept: the others are their coherent
/// twins.
pub struct Dbm {
    dims: usize,
    cells: Vec<Option<i128>>,
}

impl Drop for Dbm {
    fn drop(self) {
        let Dbm { dims: _, cells: _ } = self;
    }
}

impl Model for Dbm {
    ghost use Rattle.std.specs.Prelude.{◌≤◌, ◌^◌};
    ghost use Rattle.lra_dbm.specs.Cells.{DbmContent, IsMatrix};

    ghost Value = { DbmContent };

    ghost view = { λ m. record { dims = m.dims; cells = m.cells.items } };

    ghost invariant = { λ m. (m.dims ≤ 2 ^ 30) × IsMatrix m.dims m.cells.items };
}

/// What closing found: whether the matrix has a store.
#[derive(Clone, Copy, Debug, PartialEq, Eq)]
pub enum Closing {
    Closed,
    Empty,
}

impl Dbm {
    /// All entries of `n` variables infinite, those of the diagonal 0.
    pub fn new(alloc: Global, n: usize) -> Result<Dbm, AllocError>
        requires { n ≤ 2 ^ 30 }
        ensures dims { IfOk result (λ m. m.dims ≡ n) }
        ensures entries { IfOk result (λ m. (i j : ℕ) → entry_at m i j ≡ outside i j) }
        ensures is { IfOk result (λ m. IsMatrix m.dims m.cells) }
    {
        let mut cells = Vec::new(alloc);
        grow(&mut cells, 0, n)?;
        Ok(Dbm { dims: n, cells })
    }

    /// The number of variables.
    pub fn dims(&self) -> usize
        ensures dims { result ≡ self.now.dims }
        ensures few { result ≤ 2 ^ 30 }
        ensures is { IsMatrix self.now.dims self.now.cells }
    {
        self.dims
    }

    /// The entry at `i` and `j`, none exactly if it is infinite.
    pub fn bound(&self, i: usize, j: usize) -> Option<i128>
        requires row { i < 2 * self.now.dims }
        requires column { j < 2 * self.now.dims }
        ensures { result ≡ entry_at self.now i j }
    {
        entry(self.dims, &self.cells, i, j)
    }

    /// Whether each finite entry is within half of the range, so that no sum of two passes it.
    pub fn is_small(&self) -> bool
        ensures { IsTrue result ↔ AreSmall self.now.cells }
    {
        are_small(&self.cells)
    }

    /// The entry at `i` and `j` and its coherent twin become the lesser of themselves and `k`.
    pub fn enter(&mut self, i: usize, j: usize, k: i128)
        requires row { i < 2 * self.old.dims }
        requires column { j < 2 * self.old.dims }
        requires range { InRange k }
        ensures entered { self.new ≡ record self.old { cells = entered i j (Some k) self.old.cells } }
        ensures is { IsMatrix self.new.dims self.new.cells }
    {
        enter(self.dims, &mut self.cells, i, j, k);
    }

    /// Closes the matrix in place by numbered steps: shortest paths, rounding of the unary entries, strengthening
    /// (Bagnara, Hill and Zaffanella, 2008). Empty comes only if there is no store, and is exact. Otherwise the
    /// stores stay, and the matrix is tight if no number of the steps passes the range. A number that passes counts
    /// as infinite and flags.
    pub fn close(&mut self) -> (Closing, Exactness)
        ensures dims { self.new.dims ≡ self.old.dims }
        ensures steps { closing self.old.dims self.old.cells
            ≡ record { empty = is_empty result.0; progress = progress self.new.cells (is_flagged result.1) } }
        ensures closes { Closes self.old.dims self.old.cells self.new.cells (is_empty result.0) (is_flagged result.1) }
        ensures is { IsMatrix self.new.dims self.new.cells }
    {
        let found = close(self.dims, &mut self.cells);
        let closing = if found.is_empty {
            Closing::Empty
        } else {
            Closing::Closed
        };
        let exactness = if found.is_flagged {
            Exactness::Flagged
        } else {
            Exactness::Exact
        };
        (closing, exactness)
    }

    /// All entries of variable `x` become infinite, those of the diagonal apart.
    pub fn forget(&mut self, x: usize)
        requires { x < self.old.dims }
        ensures dims { self.new.dims ≡ self.old.dims }
        ensures entries { (i j : ℕ) → entry_at self.new i j ≡ forgotten x (entry_at self.old) i j }
        ensures is { IsMatrix self.new.dims self.new.cells }
    {
        clear(self.dims, &mut self.cells, x);
    }

    /// Shifts the entries; whether a number of them passes the range. `old` is the matrix before.
    fn shift_by(&mut self, old: &Dbm, shift: Shift) -> bool
        requires same { self.old ≡ old.now }
        requires place { shift.x < old.now.dims }
        requires range { unsigned_abs shift.c ≤ 2 ^ 63 }
        ensures dims { self.new.dims ≡ old.now.dims }
        ensures shifted { ShiftedTo old.now.dims shift.flips shift.x shift.c old.now.cells self.new.cells result }
    {
        shift_cells(self.dims, &mut self.cells, &old.cells, shift)
    }

    /// The matrix when `x` becomes `x + c`, or if it flips `-x + c`: the entries of `x` are exchanged for the sign
    /// and shifted. A number that passes the range counts as infinite and flags.
    pub fn shift(
        &self,
        alloc: Global,
        x: usize,
        flips: bool,
        c: i128,
    ) -> Result<(Dbm, Exactness), AllocError>
        requires place { x < self.now.dims }
        requires range { unsigned_abs c ≤ 2 ^ 63 }
        ensures dims { IfOk result (λ r. r.0.dims ≡ self.now.dims) }
        ensures shifted { IfOk result (λ r.
            ShiftedTo self.now.dims flips x c self.now.cells r.0.cells (is_flagged r.1)) }
    {
        let mut shifted = self.copy(alloc)?;
        let passes = shifted.shift_by(self, Shift { flips, x, c });
        let exactness = if passes {
            Exactness::Flagged
        } else {
            Exactness::Exact
        };
        Ok((shifted, exactness))
    }

    /// `k` variables without bounds come last.
    pub fn embed(&mut self, k: usize) -> Result<(), AllocError>
        requires { self.old.dims + k ≤ 2 ^ 30 }
        ensures dims { OnOk result (self.new.dims ≡ self.old.dims + k) }
        ensures entries { OnOk result ((i j : ℕ) → entry_at self.new i j ≡ entry_at self.old i j) }
        ensures is { OnOk result (IsMatrix self.new.dims self.new.cells) }
        ensures err { OnErr result (self.new ≡ self.old) }
    {
        grow(&mut self.cells, self.dims, k)?;
        self.dims += k;
        Ok(())
    }

    /// The last `k` variables go with their entries.
    pub fn remove_last(&mut self, k: usize)
        requires { k ≤ self.old.dims }
        ensures dims { self.new.dims ≡ self.old.dims - k }
        ensures entries { (i j : ℕ) → entry_at self.new i j ≡ first_entries self.new.dims (entry_at self.old) i j }
        ensures is { IsMatrix self.new.dims self.new.cells }
    {
        let dims = self.dims - k;
        shrink(&mut self.cells, self.dims, dims);
        self.dims = dims;
    }

    /// A copy of the matrix.
    pub fn copy(&self, alloc: Global) -> Result<Dbm, AllocError>
        ensures { IfOk result (λ m. m ≡ self.now) }
    {
        Ok(Dbm {
            dims: self.dims,
            cells: Vec::from_slice(alloc, self.cells.as_slice())?,
        })
    }

    /// Whether each entry is at most that of the other.
    pub fn is_within(&self, other: &Dbm) -> bool
        requires { self.now.dims ≡ other.now.dims }
        ensures { IsTrue result ↔ CellsWithin self.now.cells other.now.cells }
    {
        all_within(&self.cells, &other.cells)
    }

    /// The entries that are the greater of both. If both matrices are tight, they are the least that have the stores
    /// of both.
    pub fn join(&self, other: &Dbm, alloc: Global) -> Result<Dbm, AllocError>
        requires { self.now.dims ≡ other.now.dims }
        ensures joined { IfOk result (λ m.
            m ≡ record self.now { cells = greater_cells self.now.cells other.now.cells }) }
        ensures least { IfOk result (λ m.
            LeastJoin self.now.dims (entry_at self.now) (entry_at other.now) (entry_at m)) }
    {
        let cells = join_cells(alloc, self.dims, &self.cells, &other.cells)?;
        Ok(Dbm {
            dims: self.dims,
            cells,
        })
    }

    /// The entries at which the other's is at most this one's; the others are infinite.
    pub fn widen(&self, other: &Dbm, alloc: Global) -> Result<Dbm, AllocError>
        requires dims { self.now.dims ≡ other.now.dims }
        requires diagonal { (i : ℕ) → entry_at self.now i i ≡ Some (pos 0) }
        ensures { IfOk result (λ m. m ≡ record self.now { cells = stable_cells self.now.cells other.now.cells }) }
    {
        Ok(Dbm {
            dims: self.dims,
            cells: widen_cells(alloc, self.dims, &self.cells, &other.cells)?,
        })
    }

    /// How many of the kept entries are finite.
    pub fn count(&self) -> u64
        ensures count { result ≡ finite_cells self.now.cells }
        ensures most { result ≤ size self.now.dims }
    {
        count_cells(self.dims, &self.cells)
    }
}
