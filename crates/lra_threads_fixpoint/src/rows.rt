//! Lists of intervals, global by global.

ghost use Rattle.std.specs.Prelude.{◌≡◌, ◌↔◌, None, replicate, IfOk, IsTrue};
ghost use Rattle.lra_threads_fixpoint.specs.Intervals.{grown_option, grown_row, no_values, updated, RowWithin};

use crate::growth::{Growth, grow, is_within};
use lra_box::Interval;
use std::alloc::{AllocError, Global};

/// A list that has none for each of so many globals.
pub fn nothing(alloc: Global, globals: usize) -> Result<Vec<Option<Interval>>, AllocError>
    ensures { IfOk result (λ row. row.items ≡ no_values globals) }
{
    let mut row = Vec::new(alloc);
    'places: for _place in 0..globals {
        row.push(None)?;
    }
    Ok(row)
}

/// The interval comes in at a place, if there is that.
pub fn grow_at(row: &mut Vec<Option<Interval>>, x: usize, growth: Growth, other: Option<Interval>)
    ensures { row.new.items ≡ updated x (λ i. grown_option growth i other) row.old.items }
{
    if x < row.len() {
        row[x] = grow(growth, row[x], other);
    }
}

/// Joins or widens each interval with the other list's at its place.
pub fn grow_all(row: &mut Vec<Option<Interval>>, growth: Growth, other: &[Option<Interval>])
    ensures { row.new.items ≡ grown_row growth row.old.items other.now }
{
    'places: for (x, interval) in other.iter().enumerate() {
        grow_at(row, x, growth, *interval);
    }
}

/// Whether each of the first list lies in its own of the second.
pub fn all_within(row: &[Option<Interval>], other: &[Option<Interval>]) -> bool
    ensures { IsTrue result ↔ RowWithin row.now other.now }
{
    let mut ours = row;
    let mut theirs = other;
    while let Some((one, ours_left)) = ours.split_first() {
        let Some((two, theirs_left)) = theirs.split_first() else {
            return false;
        };
        if !is_within(*one, *two) {
            return false;
        }
        ours = ours_left;
        theirs = theirs_left;
    }
    true
}
