//! Rows of one width, each with a kind.

ghost use Rattle.std.specs.Prelude.{◌≡◌, ◌++◌, ◌∷◌, [], suc, ◌<◌, ◌-◌, length, take, IfOk, OnOk, OnErr, Some};
ghost use Rattle.std.specs.{List.All, Prelude.slice_get};
ghost use Rattle.lra_linear_spec.specs.Range.{InRange};
ghost use Rattle.lra_systems.specs.{Dimensions.too_many_dimensions, LinearSystems.FitsKind, LinearSystems.FitKinds};

use lra_linear_spec::{ConKind, GenKind};
use lra_row::Row;
use std::alloc::{AllocError, Global};
use std::marker::Model;

/// No memory holds a row of so many columns.
pub const TOO_MANY_DIMENSIONS: usize = 1 << 62;

/// Constraints.
pub type ConSys = System<ConKind>;

/// Generators.
pub type GenSys = System<GenKind>;

/// Rows of n + 1 columns, in order, each with a kind.
pub struct System<K: Copy> {
    dims: usize,
    rows: Vec<Row>,
    kinds: Vec<K>,
}

impl<K: Copy> Drop for System<K> {
    fn drop(self) {
        let System {
            dims: _,
            rows: _,
            kinds: _,
        } = self;
    }
}

impl<K: Copy> Model for System<K> {
    ghost use Rattle.std.specs.{List.All, Prelude.◌≡◌, Prelude.suc, Prelude.length};
    ghost use Rattle.lra_linear_spec.specs.Range.{InRange};
    ghost use Rattle.lra_systems.specs.LinearSystems.{LinearSystem};

    ghost Value = { LinearSystem K };

    ghost view = { λ s. record { dims = s.dims; rows = s.rows.items; kinds = s.kinds.items } };

    ghost invariant = { λ s. (length s.rows.items ≡ length s.kinds.items)
        × All (λ r. length r ≡ suc s.dims) s.rows.items × All (All InRange) s.rows.items };
}

impl<K: Copy> System<K> {
    /// No row, for n dimensions.
    pub fn new(alloc: Global, n: usize) -> Self
        requires { n < too_many_dimensions }
        ensures dims { result.dims ≡ n }
        ensures rows { result.rows ≡ [] }
        ensures kinds { result.kinds ≡ [] }
    {
        System {
            dims: n,
            rows: Vec::new(alloc),
            kinds: Vec::new(alloc),
        }
    }

    /// The number of dimensions.
    pub fn dims(&self) -> usize
        ensures { result ≡ self.now.dims }
    {
        self.dims
    }

    /// The number of rows.
    pub fn len(&self) -> usize
        ensures rows { result ≡ length self.now.rows }
        ensures kinds { result ≡ length self.now.kinds }
    {
        self.rows.len()
    }

    /// The row at a place, and its kind.
    pub fn at(&self, place: usize) -> (&Row, K)
        requires { place < length self.now.rows }
        ensures row { slice_get self.now.rows place ≡ Some result.0.now }
        ensures kind { slice_get self.now.kinds place ≡ Some result.1 }
        ensures width { length result.0.now ≡ suc self.now.dims }
        ensures in_range { All InRange result.0.now }
    {
        (&self.rows[place], self.kinds[place])
    }

    /// Adds a row, the last.
    pub fn push(&mut self, row: Row, kind: K) -> Result<(), AllocError>
        requires { length row ≡ suc self.old.dims }
        ensures dims { self.new.dims ≡ self.old.dims }
        ensures rows { OnOk result (self.new.rows ≡ self.old.rows ++ row ∷ []) }
        ensures kinds { OnOk result (self.new.kinds ≡ self.old.kinds ++ kind ∷ []) }
        ensures unchanged { OnErr result (self.new ≡ self.old) }
    {
        self.rows.reserve(1)?;
        self.kinds.reserve(1)?;
        let _entries = row.entries(); // fact: the row's entries are in the range
        let _ = self.rows.push(row);
        let _ = self.kinds.push(kind);
        Ok(())
    }

    /// Adds the same row again, the last.
    pub fn push_copy(&mut self, row: &Row, kind: K) -> Result<(), AllocError>
        requires { length row.now ≡ suc self.old.dims }
        ensures dims { self.new.dims ≡ self.old.dims }
        ensures rows { OnOk result (self.new.rows ≡ self.old.rows ++ row.now ∷ []) }
        ensures kinds { OnOk result (self.new.kinds ≡ self.old.kinds ++ kind ∷ []) }
        ensures unchanged { OnErr result (self.new ≡ self.old) }
    {
        let copied = row.copy()?;
        self.push(copied, kind)
    }

    /// Takes the last row out, if there is one.
    pub fn pop(&mut self)
        ensures dims { self.new.dims ≡ self.old.dims }
        ensures rows { self.new.rows ≡ take (length self.old.rows - 1) self.old.rows }
        ensures kinds { self.new.kinds ≡ take (length self.old.kinds - 1) self.old.kinds }
    {
        let _row = self.rows.pop();
        let _kind = self.kinds.pop();
    }

    /// The rows, in order.
    pub fn rows(&self) -> &[Row]
        ensures rows { result.now ≡ self.now.rows }
        ensures widths { All (λ r. length r ≡ suc self.now.dims) result.now }
        ensures in_range { All (All InRange) result.now }
    {
        self.rows.as_slice()
    }

    /// The kinds of the rows.
    pub fn kinds(&self) -> &[K]
        ensures kinds { result.now ≡ self.now.kinds }
        ensures len { length result.now ≡ length self.now.rows }
    {
        self.kinds.as_slice()
    }

    /// A copy of the list.
    pub fn copy(&self) -> Result<Self, AllocError>
        ensures { IfOk result (λ s. s ≡ self.now) }
    {
        let alloc = *self.rows.allocator();
        Ok(System {
            dims: self.dims,
            rows: copies(alloc, self.rows.as_slice())?,
            kinds: Vec::from_slice(alloc, self.kinds.as_slice())?,
        })
    }
}

impl GenSys {
    /// The generator at a place, and its kind, which its column 0 fits.
    #[tactic(auto, using(crate::proofs::Generators::fits_at))]
    pub fn generator(&self, place: usize) -> (&Row, GenKind)
        requires place { place < length self.now.rows }
        requires fit { FitKinds self.now.rows self.now.kinds }
        ensures row { slice_get self.now.rows place ≡ Some result.0.now }
        ensures kind { slice_get self.now.kinds place ≡ Some result.1 }
        ensures fits { FitsKind result.1 result.0.now }
    {
        self.at(place)
    }
}

fn copies(alloc: Global, rows: &[Row]) -> Result<Vec<Row>, AllocError>
    ensures { IfOk result (λ copied. copied.items ≡ rows.now) }
{
    let mut copied = Vec::with_capacity(alloc, rows.len())?;
    for row in rows {
        copied.push(row.copy()?)?;
    }
    Ok(copied)
}
