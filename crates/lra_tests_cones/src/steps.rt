//! Each step beside all pairs of rays, distinguished by the definition of adjacency.

use crate::cone::{Unfit, powers, row_of};
use lra_canonical::{BitRow, SatMatrix};
use lra_cone::{Cone, ConeError};
use lra_row::{ConKind, Row, RowError};
use std::alloc::Global;

// Whether the third list is true wherever the first two are.
fn is_common_within(first: &BitRow, second: &BitRow, third: &BitRow) -> bool {
    if second.width() != first.width() || third.width() != first.width() {
        return false;
    }
    for k in 0..first.width() {
        if first.get(k) && second.get(k) && !third.get(k) {
            return false;
        }
    }
    true
}

// Whether no third ray is tight wherever both are.
fn are_adjacent(tight: &SatMatrix, up: usize, down: usize) -> bool {
    if up >= tight.height() || down >= tight.height() {
        return false;
    }
    for third in 0..tight.height() {
        if third != up
            && third != down
            && is_common_within(tight.row(up), tight.row(down), tight.row(third))
        {
            return false;
        }
    }
    true
}

// The product of the row with a line or ray.
fn product_with(row: &Row, vector: &Row) -> Result<i128, Unfit> {
    if vector.width() != row.width() {
        return Err(Unfit::Row);
    }
    match row.dot(vector) {
        Ok(product) => Ok(product),
        Err(_) => Err(Unfit::Strained),
    }
}

// The two rays combined so that the product is 0, if they stand on both sides of the row.
fn combination(row: &Row, up: &Row, down: &Row) -> Result<Option<Row>, Unfit> {
    if up.width() != row.width() || down.width() != row.width() {
        return Err(Unfit::Row);
    }
    match (row.dot(up), row.dot(down)) {
        (Ok(above), Ok(below)) => {
            if above <= 0 || below >= 0 {
                return Ok(None);
            }
            match Row::combine(up, down, row) {
                Ok(made) => Ok(Some(made)),
                Err(RowError::Memory) => Err(Unfit::Memory),
                Err(RowError::Excess(_)) => Err(Unfit::Strained),
            }
        }
        _ => Err(Unfit::Strained),
    }
}

// Puts the ray of a pair after the others, if the two are adjacent and on both sides of the row.
fn push_pair(
    made: &mut Vec<Row>,
    cone: &Cone,
    row: &Row,
    up: usize,
    down: usize,
) -> Result<(), Unfit> {
    let rays = cone.rays();
    if up >= rays.len() || down >= rays.len() {
        return Err(Unfit::Row);
    }
    match combination(row, &rays[up], &rays[down])? {
        Some(ray) => {
            if are_adjacent(cone.saturation(), up, down) {
                made.push(ray)?;
            }
        }
        None => {}
    }
    Ok(())
}

// Puts the rays of all pairs with the first at `up` after the others, and before them that ray itself if the row
// holds.
fn push_pairs(made: &mut Vec<Row>, cone: &Cone, row: &Row, up: usize) -> Result<(), Unfit> {
    let rays = cone.rays();
    if up >= rays.len() {
        return Err(Unfit::Row);
    }
    if product_with(row, &rays[up])? >= 0 {
        made.push(rays[up].copy()?)?;
    }
    for down in 0..rays.len() {
        push_pair(made, cone, row, up, down)?;
    }
    Ok(())
}

// The rays at which the row holds, and the combinations of all pairs that are adjacent.
fn by_all_pairs(alloc: Global, cone: &Cone, row: &Row) -> Result<Vec<Row>, Unfit> {
    let mut made = Vec::new(alloc);
    for up in 0..cone.rays().len() {
        push_pairs(&mut made, cone, row, up)?;
    }
    Ok(made)
}

// Whether the product with each line is 0.
fn is_flat(cone: &Cone, row: &Row) -> Result<bool, Unfit> {
    for line in cone.lines() {
        if product_with(row, line)? != 0 {
            return Ok(false);
        }
    }
    Ok(true)
}

fn has_ray(rays: &[Row], ray: &Row) -> bool {
    for other in rays {
        if other.same(ray) {
            return true;
        }
    }
    false
}

// The rays are these, each once, in any order.
fn are_rays(rays: &[Row], want: &[Row]) -> bool {
    for ray in want {
        if !has_ray(rays, ray) {
            return false;
        }
    }
    rays.len() == want.len()
}

// Takes the row in, and says whether the rays are those of all pairs; if a line is across, pairs say nothing.
fn agrees_with_pairs(alloc: Global, cone: &mut Cone, row: &Row) -> Result<bool, Unfit> {
    if row.width() == 0 || row.width() - 1 != cone.dims() {
        return Err(Unfit::Row);
    }
    let flat = is_flat(cone, row)?;
    let want = by_all_pairs(alloc, cone, row)?;
    match cone.add_row(row, ConKind::Ge) {
        Ok(()) => Ok(!flat || are_rays(cone.rays(), &want)),
        Err(ConeError::Strained(_)) => Err(Unfit::Strained),
        Err(ConeError::Memory) => Err(Unfit::Memory),
    }
}

// Whether each step agrees, and there are so many rays at last.
fn steps_agree(alloc: Global, n: usize, rows: &[Row], rays: usize) -> Result<bool, Unfit> {
    if n > 9 {
        return Err(Unfit::Dimensions);
    }
    let mut cone = Cone::whole(alloc, n)?;
    for row in rows {
        if !agrees_with_pairs(alloc, &mut cone, row)? {
            return Ok(false);
        }
    }
    Ok(cone.rays().len() == rays)
}

// The points of the moment curve at 1, 2, and so on, so many of them.
fn cyclic(alloc: Global, n: usize, points: usize) -> Result<Vec<Row>, Unfit> {
    if points > 1000 {
        return Err(Unfit::Row);
    }
    let mut rows = Vec::new(alloc);
    for t in 1..points + 1 {
        let numbers = powers(alloc, n, t as i128)?;
        rows.push(row_of(alloc, &numbers)?)?;
    }
    Ok(rows)
}

// The numbers with one at the start, 0 but at one place.
fn numbers_at(
    alloc: Global,
    n: usize,
    first: i128,
    place: usize,
    number: i128,
) -> Result<Row, Unfit> {
    let mut numbers = Vec::new(alloc);
    numbers.push(first)?;
    for k in 0..n {
        numbers.push(if k == place { number } else { 0 })?;
    }
    row_of(alloc, &numbers)
}

// The two rows with these numbers at each place, after the positivity row.
fn sides(
    alloc: Global,
    n: usize,
    low: (i128, i128),
    high: (i128, i128),
) -> Result<Vec<Row>, Unfit> {
    let mut rows = Vec::new(alloc);
    rows.push(numbers_at(alloc, n, 1, n, 0)?)?;
    for place in 0..n {
        rows.push(numbers_at(alloc, n, low.0, place, low.1)?)?;
        rows.push(numbers_at(alloc, n, high.0, place, high.1)?)?;
    }
    Ok(rows)
}

// Numbers from -4 to 4 but for the first, which is from 1 to 9, and the next seed.
fn drawn_row(alloc: Global, n: usize, from: u64) -> Result<(Row, u64), Unfit> {
    let mut seed = from;
    let mut numbers = Vec::new(alloc);
    numbers.push((seed % 9) as i128 + 1)?;
    for _ in 0..n {
        seed = seed.wrapping_mul(16807) % 2147483647;
        numbers.push((seed % 9) as i128 - 4)?;
    }
    let row = row_of(alloc, &numbers)?;
    Ok((row, seed))
}

// So many rows that are drawn, after the positivity row.
fn drawn(alloc: Global, n: usize, count: usize, from: u64) -> Result<Vec<Row>, Unfit> {
    let mut seed = from;
    let mut rows = Vec::new(alloc);
    rows.push(numbers_at(alloc, n, 1, n, 0)?)?;
    for _ in 0..count {
        let (row, next) = drawn_row(alloc, n, seed)?;
        rows.push(row)?;
        seed = next;
    }
    Ok(rows)
}

fn cyclic_agrees(alloc: Global, n: usize, points: usize, rays: usize) -> Result<bool, Unfit> {
    let rows = cyclic(alloc, n, points)?;
    steps_agree(alloc, n, &rows, rays)
}

// The cube between 0 and 1.
fn cube_agrees(alloc: Global, n: usize, rays: usize) -> Result<bool, Unfit> {
    let rows = sides(alloc, n, (0, 1), (1, -1))?;
    steps_agree(alloc, n, &rows, rays)
}

// The rows that aren't negative at the points of a cross-polytope: its facets.
fn cross_agrees(alloc: Global, n: usize, rays: usize) -> Result<bool, Unfit> {
    let rows = sides(alloc, n, (1, 1), (1, -1))?;
    steps_agree(alloc, n, &rows, rays)
}

fn drawn_agrees(
    alloc: Global,
    n: usize,
    count: usize,
    seed: u64,
    rays: usize,
) -> Result<bool, Unfit> {
    let rows = drawn(alloc, n, count, seed)?;
    steps_agree(alloc, n, &rows, rays)
}

/// What a step makes is what all pairs make, whichever way the pairs that are adjacent are found.
#[test]
fn steps_are_those_of_all_pairs(rt: HostRuntime) {
    assert!(rt; cyclic_agrees(rt.alloc(), 4, 12, 54) == Ok(true));
    assert!(rt; cyclic_agrees(rt.alloc(), 5, 10, 42) == Ok(true));
    assert!(rt; cube_agrees(rt.alloc(), 5, 32) == Ok(true));
    assert!(rt; cross_agrees(rt.alloc(), 5, 32) == Ok(true));
    assert!(rt; drawn_agrees(rt.alloc(), 4, 16, 1, 27) == Ok(true));
    assert!(rt; drawn_agrees(rt.alloc(), 5, 14, 2, 58) == Ok(true));
}
