//! The rank of a polyhedron over given constraints.

ghost use Rattle.std.specs.List.{filter, list_any};
ghost use Rattle.std.specs.Prelude.{◌≡◌, ◌&&◌, cond, length, map, not, suc};
ghost use Rattle.lra_poly_widening.specs.Crates.lra_duality.Saturations.{saturated, saturation_of};
ghost use Rattle.lra_poly_widening.specs.Crates.lra_linear_spec.Descriptions.{LinearRow};
ghost use Rattle.lra_poly_widening.specs.Crates.lra_linear_spec.Kinds.{is_equality};
ghost use Rattle.lra_systems.specs.LinearSystems.{constraints, generators};
ghost use Rattle.lra_poly_widening.specs.Rank.{equalities_from, free, held_thresholds, holds_in_range, rank_of};
ghost use Rattle.lra_poly_widening.specs.Saturated.{same_values, vanishes};

use crate::validity::holds_in_range;
use lra_poly::{BitRow, Poly, SatMatrix};
use lra_systems::{ConKind, ConSys, GenSys, Row};

// 1 for true, 0 for false.
fn one_if(wanted: bool) -> usize
    ensures { result ≡ cond wanted 1 0 }
{
    if wanted { 1 } else { 0 }
}

// How many equalities are among the constraints.
fn count_equalities(list: &ConSys) -> usize
    ensures { result ≡ length (filter (λ g. g.equal) (constraints list.now)) }
{
    let (rows, kinds) = (list.rows(), list.kinds());
    let mut count = 0;
    for place in 0..rows.len() {
        count += one_if(kinds[place].is_equality());
    }
    count
}

// The equalities, one more than the dimensions if there is no point: there the one constraint has so many columns.
fn equalities(p: &Poly) -> u64
    ensures { result ≡ equalities_from p.now.generators p.now }
{
    let list = p.rows();
    if p.is_empty() {
        list.rows()[0].entries().len() as u64
    } else {
        count_equalities(list) as u64
    }
}

// How many of the given constraints hold on it with each product in the range.
fn count_held(p: &Poly, given: &ConSys) -> usize
    requires { given.now.dims ≡ p.now.dims }
    ensures { result ≡ length (held_thresholds p.now (constraints given.now)) }
{
    let (rows, kinds) = (given.rows(), given.kinds());
    let mut count = 0;
    for place in 0..rows.len() {
        count += one_if(holds_in_range(&rows[place], kinds[place], p));
    }
    count
}

// Which of its constraints are tight at which of its generators.
fn saturation(p: &Poly) -> &SatMatrix
    ensures { result.now ≡ saturation_of p.now.rows p.now.generators }
{
    match p.saturation() {
        Some(matrix) => matrix,
        None => unreachable!(),
    }
}

// Whether the product of the two is 0 and stays in the range.
fn vanishes(row: &Row, generator: &Row) -> bool
    requires { length row.now ≡ length generator.now }
    ensures { result ≡ vanishes row.now generator.now }
{
    match row.dot(generator) {
        Ok(product) => product == 0,
        Err(_) => false,
    }
}

// Whether the products of the row with the generators vanish exactly where the bits say so.
fn vanishes_where(bits: &BitRow, row: &Row, list: &GenSys) -> bool
    requires width { length row.now ≡ suc list.now.dims }
    requires bits { length bits.now ≡ length (generators list.now) }
    ensures { result ≡ same_values bits.now (map (λ g. vanishes row.now g.row) (generators list.now)) }
{
    let (rows, _kinds) = (list.rows(), list.kinds());
    for place in 0..rows.len() {
        if vanishes(row, &rows[place]) != bits.get(place) {
            return false;
        }
    }
    true
}

// Whether the constraint holds in the range, and saturates the generators where the bits say so and no others.
fn holds_where(bits: &BitRow, row: &Row, kind: ConKind, p: &Poly) -> bool
    requires width { length row.now ≡ suc p.now.dims }
    requires bits { length bits.now ≡ length p.now.generators }
    ensures { result ≡ (holds_in_range p.now (record { row = row.now; equal = is_equality kind })
        && same_values bits.now (saturated p.now.generators row.now)) }
{
    vanishes_where(bits, row, p.generators()) && holds_in_range(row, kind, p)
}

// Whether one of the given constraints does.
fn one_holds_where(bits: &BitRow, p: &Poly, given: &ConSys) -> bool
    requires given { given.now.dims ≡ p.now.dims }
    requires bits { length bits.now ≡ length p.now.generators }
    ensures { result ≡ list_any (λ g. holds_in_range p.now g && same_values bits.now (saturated p.now.generators g.row))
        (constraints given.now) }
{
    let (rows, kinds) = (given.rows(), given.kinds());
    for place in 0..rows.len() {
        if holds_where(bits, &rows[place], kinds[place], p) {
            return true;
        }
    }
    false
}

// Whether a constraint is an inequality that saturates what none of the given do that hold.
fn is_free(kind: ConKind, bits: &BitRow, p: &Poly, given: &ConSys) -> bool
    requires given { given.now.dims ≡ p.now.dims }
    requires bits { length bits.now ≡ length p.now.generators }
    ensures { result ≡ (not (is_equality kind) && not (list_any (λ g. holds_in_range p.now g
        && same_values bits.now (saturated p.now.generators g.row)) (constraints given.now))) }
{
    kind == ConKind::Ge && !one_holds_where(bits, p, given)
}

// How many inequalities saturate what none of the given do that hold.
fn count_free(p: &Poly, given: &ConSys) -> usize
    requires { given.now.dims ≡ p.now.dims }
    ensures { result ≡ length (free p.now (held_thresholds p.now (constraints given.now))) }
{
    let (list, matrix) = (p.rows(), saturation(p));
    let (rows, kinds) = (list.rows(), list.kinds());
    let mut count = 0;
    for place in 0..rows.len() {
        count += one_if(is_free(kinds[place], matrix.row(place), p, given));
    }
    count
}

/// The rank of a polyhedron over given constraints: how many equalities it has (one more than its dimensions if it
/// has no point); how many given constraints hold on it with each product in the range; and how many of its
/// inequalities saturate other generators than each of these. It takes no memory.
pub fn rank(p: &Poly, given: &ConSys) -> (u64, u64, u64)
    requires { given.now.dims ≡ p.now.dims }
    ensures equalities { result.0 ≡ (rank_of p.now (constraints given.now)).equalities }
    ensures held { result.1 ≡ (rank_of p.now (constraints given.now)).held }
    ensures free { result.2 ≡ (rank_of p.now (constraints given.now)).free }
{
    let equalities = equalities(p);
    let held = count_held(p, given);
    let free = count_free(p, given);
    (equalities, held as u64, free as u64)
}
