//! Worked cones.

use lra_canonical::BitRow;
use lra_cone::{Cone, ConeError, Family, Member, Strained};
use lra_conversions::nothing;
use lra_row::{ConKind, Excess, Operation, Row};
use std::alloc::{AllocError, AllocFailed, Global};
use std::process::Abort;

const MAX: i128 = i128::MAX;

// Why a cone or a list isn't made.
#[derive(Clone, Copy, PartialEq, Eq)]
pub enum Unfit {
    Memory,
    // A row has another width, or a number that passes the range.
    Row,
    // There are too many dimensions.
    Dimensions,
    // A row exceeds a limit.
    Strained,
}

impl From<AllocError> for Unfit {
    fn from(_: AllocError) -> Unfit {
        Unfit::Memory
    }
}

impl From<AllocFailed<i128>> for Unfit {
    fn from(_: AllocFailed<i128>) -> Unfit {
        Unfit::Memory
    }
}

impl From<AllocFailed<Row>> for Unfit {
    fn from(_: AllocFailed<Row>) -> Unfit {
        Unfit::Memory
    }
}

// The row with these numbers, if they are of the range.
pub fn row_of(alloc: Global, numbers: &[i128]) -> Result<Row, Unfit> {
    let mut entries = Vec::with_capacity(alloc, numbers.len())?;
    for &number in numbers {
        if number == i128::MIN {
            return Err(Unfit::Row);
        }
        entries.push(number)?;
    }
    let row = Row::from_slice(alloc, &entries)?;
    Ok(row)
}

// What is reported about a row that is not added.
fn told(
    alloc: Global,
    cone: &mut Cone,
    kind: ConKind,
    numbers: &[i128],
) -> Result<Option<Strained>, Unfit> {
    let row = row_of(alloc, numbers)?;
    if row.width() == 0 || row.width() - 1 != cone.dims() {
        return Err(Unfit::Row);
    }
    match cone.add_row(&row, kind) {
        Ok(()) => Ok(None),
        Err(ConeError::Strained(strained)) => Ok(Some(strained)),
        Err(ConeError::Memory) => Err(Unfit::Memory),
    }
}

fn take_all(alloc: Global, cone: &mut Cone, kind: ConKind, rows: &[&[i128]]) -> Result<(), Unfit> {
    for numbers in rows {
        if told(alloc, cone, kind, numbers)?.is_some() {
            return Err(Unfit::Strained);
        }
    }
    Ok(())
}

// The cone of these inequalities, after those of a list of equalities.
fn cone_of(
    alloc: Global,
    n: usize,
    equalities: &[&[i128]],
    inequalities: &[&[i128]],
) -> Result<Cone, Unfit> {
    if n > 9 {
        return Err(Unfit::Dimensions);
    }
    let mut cone = Cone::whole(alloc, n)?;
    take_all(alloc, &mut cone, ConKind::Eq, equalities)?;
    take_all(alloc, &mut cone, ConKind::Ge, inequalities)?;
    Ok(cone)
}

fn find_ray(rows: &[Row], numbers: &[i128]) -> Option<usize> {
    for place in 0..rows.len() {
        if rows[place].entries() == numbers {
            return Some(place);
        }
    }
    None
}

fn are(rows: &[Row], list: &[&[i128]]) -> bool {
    for numbers in list {
        if find_ray(rows, numbers).is_none() {
            return false;
        }
    }
    rows.len() == list.len()
}

// The values say at which of the rows added the ray is tight.
fn row_agrees(values: &BitRow, taken: &[Row], ray: &Row) -> bool {
    if values.width() != taken.len() {
        return false;
    }
    for k in 0..taken.len() {
        if taken[k].width() != ray.width() {
            return false;
        }
        let is_tight = match taken[k].dot(ray) {
            Ok(product) => product == 0,
            Err(_) => false,
        };
        if values.get(k) != is_tight {
            return false;
        }
    }
    true
}

// The matrix agrees with the products.
fn agrees(cone: &Cone) -> bool {
    let matrix = cone.saturation();
    let rays = cone.rays();
    if matrix.height() != rays.len() {
        return false;
    }
    for i in 0..rays.len() {
        if !row_agrees(matrix.row(i), cone.taken().rows(), &rays[i]) {
            return false;
        }
    }
    true
}

// The rows of a cone, equalities first, and its lines and rays.
struct Worked {
    name: &'static str,
    dims: usize,
    equalities: &'static [&'static [i128]],
    inequalities: &'static [&'static [i128]],
    lines: &'static [&'static [i128]],
    rays: &'static [&'static [i128]],
}

// Whether the cone has these lines and rays, and a matrix that agrees.
fn is_worked(alloc: Global, worked: &Worked) -> Result<bool, Unfit> {
    let cone = cone_of(alloc, worked.dims, worked.equalities, worked.inequalities)?;
    Ok(are(cone.lines(), worked.lines) && are(cone.rays(), worked.rays) && agrees(&cone))
}

fn are_worked(rt: &impl Abort, alloc: Global, cones: &[Worked]) {
    for worked in cones {
        let same = is_worked(alloc, worked);
        let name = worked.name;
        assert!(rt; same == Ok(true), "{name}");
    }
}

static SOLIDS: [Worked; 4] = [
    Worked {
        name: "square",
        dims: 2,
        equalities: &[],
        inequalities: &[&[1, 0, 0], &[0, 1, 0], &[0, 0, 1], &[1, -1, 0], &[1, 0, -1]],
        lines: &[],
        rays: &[&[1, 0, 0], &[1, 1, 0], &[1, 0, 1], &[1, 1, 1]],
    },
    Worked {
        name: "cube",
        dims: 3,
        equalities: &[],
        inequalities: &[
            &[1, 0, 0, 0],
            &[0, 1, 0, 0],
            &[0, 0, 1, 0],
            &[0, 0, 0, 1],
            &[1, -1, 0, 0],
            &[1, 0, -1, 0],
            &[1, 0, 0, -1],
        ],
        lines: &[],
        rays: &[
            &[1, 0, 0, 0],
            &[1, 1, 0, 0],
            &[1, 0, 1, 0],
            &[1, 1, 1, 0],
            &[1, 0, 0, 1],
            &[1, 1, 0, 1],
            &[1, 0, 1, 1],
            &[1, 1, 1, 1],
        ],
    },
    Worked {
        name: "diamond",
        dims: 2,
        equalities: &[],
        inequalities: &[
            &[1, 0, 0],
            &[1, 1, 1],
            &[1, 1, -1],
            &[1, -1, 1],
            &[1, -1, -1],
        ],
        lines: &[],
        rays: &[&[1, 1, 0], &[1, -1, 0], &[1, 0, 1], &[1, 0, -1]],
    },
    Worked {
        name: "octahedron",
        dims: 3,
        equalities: &[],
        inequalities: &[
            &[1, 0, 0, 0],
            &[1, 1, 1, 1],
            &[1, 1, 1, -1],
            &[1, 1, -1, 1],
            &[1, 1, -1, -1],
            &[1, -1, 1, 1],
            &[1, -1, 1, -1],
            &[1, -1, -1, 1],
            &[1, -1, -1, -1],
        ],
        lines: &[],
        rays: &[
            &[1, 1, 0, 0],
            &[1, -1, 0, 0],
            &[1, 0, 1, 0],
            &[1, 0, -1, 0],
            &[1, 0, 0, 1],
            &[1, 0, 0, -1],
        ],
    },
];

// Of half of the diagonal the last row says nothing new.
static LINES_AND_POINTS: [Worked; 5] = [
    Worked {
        name: "whole plane",
        dims: 2,
        equalities: &[],
        inequalities: &[],
        lines: &[&[0, 1, 0], &[0, 0, 1], &[1, 0, 0]],
        rays: &[],
    },
    Worked {
        name: "diagonal",
        dims: 2,
        equalities: &[&[0, 1, -1]],
        inequalities: &[],
        lines: &[&[0, 1, 1], &[1, 0, 0]],
        rays: &[],
    },
    Worked {
        name: "half of the diagonal",
        dims: 2,
        equalities: &[&[0, 1, -1]],
        inequalities: &[&[1, 0, 0], &[-2, 1, 0], &[-1, 1, 0]],
        lines: &[],
        rays: &[&[1, 2, 2], &[0, 1, 1]],
    },
    Worked {
        name: "origin",
        dims: 1,
        equalities: &[],
        inequalities: &[&[1, 0], &[0, 1], &[0, -1]],
        lines: &[],
        rays: &[&[1, 0]],
    },
    Worked {
        name: "nothing but zero",
        dims: 1,
        equalities: &[],
        inequalities: &[&[1, 0], &[-1, 0], &[0, 1], &[0, -1]],
        lines: &[],
        rays: &[],
    },
];

#[test]
fn worked_cones(rt: HostRuntime) {
    are_worked(&rt, rt.alloc(), &SOLIDS);
    are_worked(&rt, rt.alloc(), &LINES_AND_POINTS);
}

fn member(family: Family, place: usize) -> Member {
    Member { family, place }
}

// A product that passes the range.
fn product(left: i128, right: i128) -> Excess {
    Excess {
        op: Operation::Product,
        left,
        right,
    }
}

// Whether the row is not added for this reason, and the cone has the same rays as before.
fn tells(
    alloc: Global,
    cone: &mut Cone,
    kind: ConKind,
    numbers: &[i128],
    want: Strained,
    rays: &[&[i128]],
) -> Result<bool, Unfit> {
    let strained = told(alloc, cone, kind, numbers)?;
    Ok(strained == Some(want) && are(cone.rays(), rays) && agrees(cone))
}

// The row exceeds a limit in a product.
fn strains_in_product(alloc: Global) -> Result<bool, Unfit> {
    let rays: &[&[i128]] = &[&[1, MAX], &[0, 1]];
    let mut cone = cone_of(alloc, 1, &[], &[&[1, 0], &[-MAX, 1]])?;
    let Some(place) = find_ray(cone.rays(), &[1, MAX]) else {
        return Ok(false);
    };
    let want = Strained::Product(member(Family::Rays, place), product(2, MAX));
    tells(alloc, &mut cone, ConKind::Ge, &[0, 2], want, rays)
}

// The row exceeds a limit in a pair of rays: the products are 1 and 2 - MAX.
fn strains_in_rays(alloc: Global) -> Result<bool, Unfit> {
    let rays: &[&[i128]] = &[&[2, 1], &[0, 1]];
    let mut cone = cone_of(alloc, 1, &[], &[&[1, 0], &[-1, 2]])?;
    let Some(up) = find_ray(cone.rays(), &[2, 1]) else {
        return Ok(false);
    };
    let above = member(Family::Rays, up);
    let below = member(Family::Rays, if up == 0 { 1 } else { 0 });
    let want = Strained::Pair(above, below, product(MAX - 2, 2));
    let row = &[MAX / 2, 2 - MAX];
    tells(alloc, &mut cone, ConKind::Ge, row, want, rays)
}

// The row exceeds a limit in a pair of lines: the products are 1 and MAX.
fn strains_in_lines(alloc: Global) -> Result<bool, Unfit> {
    let mut cone = cone_of(alloc, 2, &[&[0, 2, -1]], &[])?;
    let above = member(Family::Lines, 0);
    let below = member(Family::Lines, 1);
    let want = Strained::Pair(above, below, product(MAX, 2));
    tells(alloc, &mut cone, ConKind::Eq, &[MAX, 1, 0], want, &[])
}

#[test]
fn strains(rt: HostRuntime) {
    assert!(rt; strains_in_product(rt.alloc()) == Ok(true));
    assert!(rt; strains_in_rays(rt.alloc()) == Ok(true));
    assert!(rt; strains_in_lines(rt.alloc()) == Ok(true));
}

// The numbers 1, t, and so on to t^n.
pub fn powers(alloc: Global, n: usize, t: i128) -> Result<Vec<i128>, Unfit> {
    let mut numbers = Vec::with_capacity(alloc, n)?;
    let mut power = 1i128;
    numbers.push(power)?;
    for _ in 0..n {
        power = match power.checked_mul(t) {
            Some(next) => next,
            None => return Err(Unfit::Row),
        };
        numbers.push(power)?;
    }
    Ok(numbers)
}

// The cone of the rows that are not negative on the points of the moment curve at 1, 2, and so on, so many of them.
fn cyclic_cone(alloc: Global, n: usize, points: usize) -> Result<Cone, Unfit> {
    if n > 12 || points > 1000 {
        return Err(Unfit::Dimensions);
    }
    let mut cone = Cone::whole(alloc, n)?;
    for t in 1..points + 1 {
        let numbers = powers(alloc, n, t as i128)?;
        if told(alloc, &mut cone, ConKind::Ge, &numbers)?.is_some() {
            return Err(Unfit::Strained);
        }
    }
    Ok(cone)
}

// How many rays it has.
fn count_facets(alloc: Global, n: usize, points: usize) -> Result<usize, Unfit> {
    let cone = cyclic_cone(alloc, n, points)?;
    Ok(cone.rays().len())
}

/// A cyclic polytope has as many facets as its dimensions and points say: most pairs of rays share too few rows.
#[test]
fn cyclic_polytopes(rt: HostRuntime) {
    assert!(rt; count_facets(rt.alloc(), 3, 10) == Ok(16));
    assert!(rt; count_facets(rt.alloc(), 4, 8) == Ok(20));
    assert!(rt; count_facets(rt.alloc(), 6, 9) == Ok(30));
}

// Whether the cone of so many points in three dimensions has so many rays, and a matrix that agrees.
fn has_facets(alloc: Global, points: usize, facets: usize) -> Result<bool, Unfit> {
    let cone = cyclic_cone(alloc, 3, points)?;
    Ok(cone.rays().len() == facets && agrees(&cone))
}

/// A matrix takes columns in place but at each word's end: there, and beside it, a cone has the rays that it has by
/// their definition.
#[test]
fn rows_at_a_words_end(rt: HostRuntime) {
    for (points, facets) in [(63, 122), (64, 124), (65, 126), (128, 252), (129, 254)] {
        assert!(rt;
            has_facets(rt.alloc(), points, facets) == Ok(true),
            "{points}"
        );
    }
}
