//! Pairs of adjacent rays on both sides of the row.

ghost use Rattle.std.specs.Prelude.{◌≡◌, ◌≢◌, ◌<◌, ◌≤◌, ◌+◌, ◌<ℤ◌, ℤ, List, [], pos, length, IfOk, OnOk, IsTrue};
ghost use Rattle.std.specs.{List.All, Prelude.IsFalse, Prelude.slice_index_or};
ghost use Rattle.lra_bits.specs.{Transposed.AreColumns, TruthValues.ArePlaces, TruthValues.IsSubset};
ghost use Rattle.lra_double_description.specs.Pairs.{TellsAdjacent, HasThird, ArePairs, both_tight};
ghost use Rattle.lra_double_description.specs.{Below.AreBelow, Thirds.TellsThird, Thirds.FewHaveThird};

use crate::columns::find_columns;
use crate::sides::{count_above, places_below};
use lra_bits::{BitRow, SatMatrix};
use std::alloc::{AllocError, Global};

/// Two rays, the product of the first above 0 and of the second below, and the rows that are tight at both.
#[derive(Drop)]
pub struct Pair {
    pub up: usize,
    pub down: usize,
    pub tight: BitRow,
}

// Whether a third ray, at this place, is tight wherever both are. Takes no memory, since most pairs aren't adjacent.
fn keeps_apart(saturation: &SatMatrix, up: usize, down: usize, third: usize) -> bool
    requires up { up < length saturation.now.rows }
    requires down { down < length saturation.now.rows }
    ensures yes { IsTrue result → HasThird saturation.now.rows up down (both_tight saturation.now.rows up down) }
    ensures no { IsFalse result → third < length saturation.now.rows → third ≢ up → third ≢ down →
        ¬ (IsSubset (both_tight saturation.now.rows up down) (slice_index_or saturation.now.rows third [])) }
{
    if third >= saturation.height() || third == up || third == down {
        return false;
    }
    let (first, second) = (saturation.row(up), saturation.row(down));
    first.common_within(second, saturation.row(third))
}

// Whether a third ray is tight wherever both are, and which may be tried first next time: by the columns if they are at
// hand, else ray by ray.
fn find_third(
    saturation: &SatMatrix,
    columns: &SatMatrix,
    places: &[usize],
    up: usize,
    down: usize,
) -> Option<usize>
    requires up { up < length saturation.now.rows }
    requires down { down < length saturation.now.rows }
    requires columns { AreColumns saturation.now (length columns.now.rows) columns.now }
    requires places { ArePlaces (slice_index_or saturation.now.rows up []) (length columns.now.rows) places.now }
    ensures { TellsThird saturation.now.rows up down (both_tight saturation.now.rows up down) result }
{
    saturation.find_within_by(columns, places, up, down)
}

// No third ray is tight wherever both are. The one that kept the last two rays apart is tried first; the one that is
// found becomes it.
fn are_adjacent(
    saturation: &SatMatrix,
    columns: &SatMatrix,
    places: &[usize],
    up: usize,
    down: usize,
    known: &mut usize,
) -> bool
    requires up { up < length saturation.now.rows }
    requires down { down < length saturation.now.rows }
    requires columns { AreColumns saturation.now (length columns.now.rows) columns.now }
    requires places { ArePlaces (slice_index_or saturation.now.rows up []) (length columns.now.rows) places.now }
    ensures { TellsAdjacent saturation.now.rows up down (both_tight saturation.now.rows up down) result }
{
    if keeps_apart(saturation, up, down, *known) {
        return false;
    }
    match find_third(saturation, columns, places, up, down) {
        Some(third) => {
            *known = third;
            false
        }
        None => true,
    }
}

// The adjacent pairs with the first ray at `up` and the second at one of these places, after what is there. Two rays
// that share fewer tight rows than `least` are passed at once.
fn push_pairs_of(
    pairs: &mut Vec<Pair>,
    up: usize,
    downs: &[usize],
    saturation: &SatMatrix,
    columns: &SatMatrix,
    least: usize,
) -> Result<(), AllocError>
    requires inside { up < length saturation.now.rows }
    requires each { All (λ down. down < length saturation.now.rows) downs.now }
    requires columns { AreColumns saturation.now (length columns.now.rows) columns.now }
    requires most { length columns.now.rows ≤ saturation.now.width }
    requires few { FewHaveThird saturation.now.rows least }
    ensures { OnOk result ((products : List ℤ) →
        pos 0 <ℤ slice_index_or products up (pos 0) → AreBelow products 0 (length products) downs.now →
        ArePairs products saturation.now.rows up 0 pairs.old.items →
        ArePairs products saturation.now.rows (up + 1) 0 pairs.new.items) }
{
    let first = saturation.row(up);
    let mut places = first.places(*pairs.allocator(), columns.height())?;
    // the rows added last first, since they leave the fewest rays
    places.reverse();
    let mut known = up;
    for i in 0..downs.len() {
        let down = downs[i];
        let second = saturation.row(down);
        if first.shares(second, least)
            && are_adjacent(saturation, columns, &places, up, down, &mut known)
        {
            let tight = first.common(second)?;
            pairs.push(Pair { up, down, tight })?;
        }
    }
    Ok(())
}

/// The adjacent pairs of rays on both sides. Two rays that share fewer tight rows than `least` are known not to be
/// adjacent.
pub fn adjacent_pairs(
    alloc: Global,
    products: &[i128],
    saturation: &SatMatrix,
    least: usize,
) -> Result<Vec<Pair>, AllocError>
    requires each { length products.now ≡ length saturation.now.rows }
    requires few { FewHaveThird saturation.now.rows least }
    ensures { IfOk result (λ pairs. ArePairs products.now saturation.now.rows (length products.now) 0 pairs.items) }
{
    let downs = places_below(alloc, products)?;
    let columns = find_columns(alloc, count_above(products), downs.len(), saturation)?;
    let mut pairs = Vec::new(alloc);
    for up in 0..products.len() {
        if products[up] > 0 {
            push_pairs_of(&mut pairs, up, &downs, saturation, &columns, least)?;
        }
    }
    Ok(pairs)
}
