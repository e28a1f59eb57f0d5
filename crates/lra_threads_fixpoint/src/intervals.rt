//! For each global an interval, or none.

ghost use Rattle.std.specs.Prelude.{◌≡◌, ◌↔◌, IfOk, IsTrue};
ghost use Rattle.lra_box.specs.{Content.WellFormedBox, Tables.bound_at};
ghost use Rattle.lra_threads_fixpoint.specs.Interference.{admitting_option, row_interference};
ghost use Rattle.lra_threads_fixpoint.specs.Intervals.{grown_option, grown_row, no_values, updated, OptionFits};
ghost use Rattle.lra_threads_fixpoint.specs.{Intervals.RowWithin, declared.growth.Growth.TheVariants.Join};

use crate::growth::Growth;
use crate::rows::{all_within, grow_all, grow_at, nothing};
use lra_box::{Boxes, Interval};
use lra_domain::{Domain, Exactness, Interfere};
use std::alloc::{AllocError, Global};
use std::marker::Model;

/// For each global an interval, or none: what a thread gives to it, or what other threads may.
pub struct Intervals {
    all: Vec<Option<Interval>>,
}

impl Drop for Intervals {
    fn drop(self) {
        let Intervals { all: _ } = self;
    }
}

impl Model for Intervals {
    ghost use Rattle.lra_threads_fixpoint.specs.Intervals.{IntervalRow, RowFits};

    ghost Value = { IntervalRow };

    ghost view = { λ i. i.all.items };

    ghost invariant = { λ i. RowFits i.all.items };
}

/// The bounds of a place; a place that the value hasn't says nothing.
fn bound_of(value: &Boxes, x: usize) -> Option<Interval>
    ensures bound { result ≡ bound_at x value.now.bounds }
    ensures fits { OptionFits result }
{
    // a value that is held is formed
    if value.is_empty() {
        None
    } else if x < value.dims() {
        value.bound(x)
    } else {
        Some(Interval {
            low: None,
            high: None,
        })
    }
}

impl Intervals {
    /// No interval for each of so many globals.
    pub fn none(alloc: Global, globals: usize) -> Result<Intervals, AllocError>
        ensures { IfOk result (λ i. i ≡ no_values globals) }
    {
        Ok(Intervals {
            all: nothing(alloc, globals)?,
        })
    }

    /// Joins or widens each global's interval with the other's.
    pub fn grow(&mut self, growth: Growth, other: &Intervals)
        ensures { self.new ≡ grown_row growth self.old other.now }
    {
        grow_all(&mut self.all, growth, &other.all);
    }

    /// The global has got the value that stands at its place.
    pub fn take(&mut self, x: usize, value: &Boxes)
        ensures { self.new ≡ updated x (λ i. grown_option Join i (bound_at x value.now.bounds)) self.old }
    {
        grow_at(&mut self.all, x, Growth::Join, bound_of(value, x));
    }

    /// The intervals, global by global.
    pub fn as_slice(&self) -> &[Option<Interval>]
        ensures { result.now ≡ self.now }
    {
        self.all.as_slice()
    }

    /// Whether each lies in the other's interval of its global.
    pub fn within(&self, other: &Intervals) -> bool
        ensures { IsTrue result ↔ RowWithin self.now other.now }
    {
        all_within(&self.all, &other.all)
    }
}

/// The place may have each value of the interval; a value without the place stays.
fn admit_at(value: &mut Boxes, x: usize, interval: Option<Interval>)
    requires formed { WellFormedBox value.old }
    requires fits { OptionFits interval }
    ensures { value.new ≡ admitting_option x interval value.old }
{
    if let Some(interval) = interval {
        if x < value.dims() {
            value.admit(x, &interval);
        }
    }
}

impl Interfere<Boxes> for Intervals {
    ghost interference = { row_interference };

    fn apply(&self, value: &mut Boxes) -> Result<Exactness, AllocError> {
        // a value that is held is formed
        let _ = value.is_empty();
        'globals: for (x, interval) in self.all.iter().enumerate() {
            admit_at(value, x, *interval);
        }
        Ok(Exactness::Exact)
    }
}
