//! The step where the product of each line with the row is 0: rays on the wrong side go, and adjacent pairs are
//! combined.

ghost use Rattle.std.specs.List.{All};
ghost use Rattle.std.specs.Prelude.{◌≡◌, ◌<◌, ◌≤◌, ◌^◌, ◌+◌, ◌++◌, length, map, replicate, false, IfOk, IfErr};
ghost use Rattle.lra_double_description.specs.Crates.lra_linear_spec.ConeStrain.{row_limit};
ghost use Rattle.lra_double_description.specs.Crates.lra_linear_spec.Kinds.{is_equality};
ghost use Rattle.lra_double_description.specs.Crates.lra_linear_spec.LowestTerms.{IsLowest};
ghost use Rattle.lra_double_description.specs.Crates.lra_linear_spec.Range.{InRange};
ghost use Rattle.lra_double_description.specs.Pairs.{HaveOneWidth, pair_sum, AreCombined, IsCut};
ghost use Rattle.lra_double_description.specs.Steps.{outside_marks, inside_count};
ghost use Rattle.lra_double_description.specs.Strains.{IsPairError, ArePairsError, IsCutError};
ghost use Rattle.lra_double_description.specs.{Thirds.FewHaveThird, declared.strained.Family.TheVariants.Rays};

use crate::pairs::{Pair, adjacent_pairs};
use crate::saturation::mark_tight;
use crate::strained::{ConeError, Family, Member, Strained};
use lra_bits::{BitRow, SatMatrix};
use lra_row::{ConKind, Row, RowError, opposite};
use std::alloc::{AllocError, Global};

/// The most rays of a cone, and the most inequalities of a description.
pub const RAY_LIMIT: usize = 4096;

/// Marks the rays whose product isn't as the kind asks; so many further places after them are not marked.
pub fn mark_outside(
    alloc: Global,
    products: &[i128],
    kind: ConKind,
    further: usize,
) -> Result<BitRow, AllocError>
    requires { length products.now + further < 2 ^ 64 }
    ensures { IfOk result (λ gone. gone ≡ outside_marks (is_equality kind) products.now ++ replicate further false) }
{
    let mut gone = BitRow::new(alloc, products.len() + further)?;
    for k in 0..products.len() {
        gone.set(k, !kind.accepts(products[k]));
    }
    Ok(gone)
}

/// How many products are as the kind asks.
pub fn count_inside(products: &[i128], kind: ConKind) -> usize
    ensures count { result ≡ inside_count (is_equality kind) products.now }
    ensures most { result ≤ length products.now }
{
    let mut count = 0;
    for k in 0..products.len() {
        if kind.accepts(products[k]) {
            count += 1;
        }
    }
    count
}

fn ray(place: usize) -> Member
    ensures { result ≡ record { family = Rays; place = place } }
{
    Member {
        family: Family::Rays,
        place,
    }
}

// The two rays combined so that the product is 0, in lowest terms.
fn combine_pair(pair: &Pair, rays: &[Row], products: &[i128]) -> Result<Row, ConeError>
    requires up { pair.now.up < length rays.now }
    requires down { pair.now.down < length rays.now }
    requires each { length products.now ≡ length rays.now }
    requires in_range { All InRange products.now }
    requires widths { HaveOneWidth rays.now }
    ensures ok { IfOk result (λ row. IsLowest (pair_sum products.now rays.now pair.now) row) }
    ensures strained { IfErr result (IsPairError products.now rays.now pair.now) }
{
    let below = opposite(products[pair.down]);
    match rays[pair.up].blend(below, products[pair.up], &rays[pair.down]) {
        Ok(mut row) => {
            row.lowest_terms();
            Ok(row)
        }
        Err(RowError::Memory) => Err(ConeError::Memory),
        Err(RowError::Excess(excess)) => {
            let strained = Strained::Pair(ray(pair.up), ray(pair.down), excess);
            Err(ConeError::Strained(strained))
        }
    }
}

/// A ray for each pair.
pub fn combine_pairs(
    alloc: Global,
    pairs: &[Pair],
    rays: &[Row],
    products: &[i128],
) -> Result<Vec<Row>, ConeError>
    requires up { All (λ p. p.up < length rays.now) pairs.now }
    requires down { All (λ p. p.down < length rays.now) pairs.now }
    requires each { length products.now ≡ length rays.now }
    requires in_range { All InRange products.now }
    requires widths { HaveOneWidth rays.now }
    ensures ok { IfOk result (λ rows. AreCombined products.now rays.now pairs.now rows.items) }
    ensures strained { IfErr result (ArePairsError products.now rays.now pairs.now) }
{
    let mut rows = Vec::with_capacity(alloc, pairs.len())?;
    for pair in pairs {
        match combine_pair(pair, rays, products) {
            Ok(row) => rows.push(row)?,
            Err(error) => return Err(error),
        }
    }
    Ok(rows)
}

// For each pair the rows that are tight at both.
fn rows_of_pairs(alloc: Global, width: usize, pairs: Vec<Pair>) -> Result<SatMatrix, AllocError>
    requires { All (λ p. length p.tight ≡ width) pairs.items }
    ensures { IfOk result (λ more.
        more ≡ record { width = width; rows = map (λ p. p.tight) pairs.items }) }
{
    let mut more = SatMatrix::new(alloc, width);
    'each: for pair in pairs {
        let Pair {
            up: _,
            down: _,
            tight,
        } = pair;
        more.add_row(tight)?;
    }
    Ok(more)
}

/// What a row makes of the rays: those marked as gone go, and these come after the others. If the row is tight at
/// the rays and at these, and for each of these the rows of the matrix that are tight at it.
#[derive(Drop)]
pub struct Cut {
    pub gone: BitRow,
    pub rays: Vec<Row>,
    pub tight: BitRow,
    pub more: SatMatrix,
}

/// Takes the row with these products in. Two rays that share fewer tight rows than `least` are known not to be
/// adjacent.
pub fn cut_rays(
    alloc: Global,
    rays: &[Row],
    saturation: &SatMatrix,
    products: &[i128],
    kind: ConKind,
    least: usize,
) -> Result<Cut, ConeError>
    requires each { length products.now ≡ length rays.now }
    requires matrix { length products.now ≡ length saturation.now.rows }
    requires equal { All (λ r. length r ≡ saturation.now.width) saturation.now.rows }
    requires in_range { All InRange products.now }
    requires widths { HaveOneWidth rays.now }
    requires few { length rays.now ≤ row_limit }
    requires thirds { FewHaveThird saturation.now.rows least }
    ensures ok { IfOk result (IsCut (is_equality kind) products.now rays.now saturation.now) }
    ensures strained { IfErr result (IsCutError (is_equality kind) products.now rays.now saturation.now) }
{
    let pairs = adjacent_pairs(alloc, products, saturation, least)?;
    let count = count_inside(products, kind) + pairs.len();
    if count > RAY_LIMIT {
        return Err(ConeError::Strained(Strained::TooMany(count)));
    }
    let new_rays = match combine_pairs(alloc, &pairs, rays, products) {
        Ok(new_rays) => new_rays,
        Err(error) => return Err(error),
    };
    let gone = mark_outside(alloc, products, kind, pairs.len())?;
    let tight = mark_tight(alloc, products, pairs.len())?;
    let more = rows_of_pairs(alloc, saturation.width(), pairs)?;
    Ok(Cut {
        gone,
        rays: new_rays,
        tight,
        more,
    })
}
