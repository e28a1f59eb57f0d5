//! Lists of constraints and the generators of their points.

use crate::cone::{Unfit, row_of};
use lra_cone::{ConSys, Loss};
use lra_conversions::{GenSys, generate, nothing};
use lra_row::{Cause, ConKind, Excess, GenKind, Operation};
use std::alloc::{AllocError, Global};
use std::process::Abort;

const MAX: i128 = i128::MAX;

// A list of equalities, then inequalities.
fn list_of(
    alloc: Global,
    n: usize,
    equalities: &[&[i128]],
    inequalities: &[&[i128]],
) -> Result<ConSys, Unfit> {
    if n > 13 {
        return Err(Unfit::Dimensions);
    }
    let mut list = ConSys::new(alloc, n);
    push_all(alloc, &mut list, ConKind::Eq, equalities)?;
    push_all(alloc, &mut list, ConKind::Ge, inequalities)?;
    Ok(list)
}

fn push_all(
    alloc: Global,
    list: &mut ConSys,
    kind: ConKind,
    rows: &[&[i128]],
) -> Result<(), Unfit> {
    for numbers in rows {
        let row = row_of(alloc, numbers)?;
        if row.width() == 0 || row.width() - 1 != list.dims() {
            return Err(Unfit::Row);
        }
        list.push(row, kind)?;
    }
    Ok(())
}

// Whether these are the generators in their order: so many points first.
fn are_generators(shown: &GenSys, points: usize, want: &[&[i128]]) -> bool {
    let (rows, kinds) = (shown.rows(), shown.kinds());
    if rows.len() != want.len() {
        return false;
    }
    for k in 0..rows.len() {
        if rows[k].entries() != want[k] || (kinds[k] == GenKind::Point) != (k < points) {
            return false;
        }
    }
    true
}

// A list, equalities first, and its generators, so many points first.
struct Worked {
    name: &'static str,
    dims: usize,
    equalities: &'static [&'static [i128]],
    inequalities: &'static [&'static [i128]],
    points: usize,
    generators: &'static [&'static [i128]],
}

// Whether nothing is lost, and the list has these generators.
fn is_worked(alloc: Global, worked: &Worked) -> Result<bool, Unfit> {
    let list = list_of(alloc, worked.dims, worked.equalities, worked.inequalities)?;
    let (kept, shown, losses) = generate(alloc, &list)?;
    let whole = losses.is_empty() && kept.rows().len() == list.rows().len();
    Ok(whole && are_generators(&shown, worked.points, worked.generators))
}

// A triangle, from rows of which one says nothing new; a point in thirds, a ray and a line; no point at all; and the
// greatest coefficients of the range, but the rows that stand before make the cone small.
static LISTS: [Worked; 4] = [
    Worked {
        name: "triangle",
        dims: 2,
        equalities: &[],
        inequalities: &[&[0, 1, 0], &[2, -1, -1], &[0, 0, 2], &[3, -1, 0]],
        points: 3,
        generators: &[&[1, 0, 0], &[1, 0, 2], &[1, 2, 0]],
    },
    Worked {
        name: "half strip",
        dims: 3,
        equalities: &[&[0, 2, -2, 0]],
        inequalities: &[&[-1, 3, 0, 0]],
        points: 1,
        generators: &[&[3, 1, 1, 0], &[0, 1, 1, 0], &[0, 0, 0, 1]],
    },
    Worked {
        name: "no point",
        dims: 2,
        equalities: &[],
        inequalities: &[&[-1, 0, 0]],
        points: 0,
        generators: &[],
    },
    Worked {
        name: "great coefficients",
        dims: 2,
        equalities: &[&[0, 1, 0], &[0, 0, 1]],
        inequalities: &[&[1, MAX, 1], &[1, 1, MAX]],
        points: 1,
        generators: &[&[1, 0, 0]],
    },
];

fn are_worked(rt: &impl Abort, alloc: Global, lists: &[Worked]) {
    for worked in lists {
        let same = is_worked(alloc, worked);
        let name = worked.name;
        assert!(rt; same == Ok(true), "{name}");
    }
}

#[test]
fn worked_lists(rt: HostRuntime) {
    are_worked(&rt, rt.alloc(), &LISTS);
}

// Adds the row of 1 and this entry of column k.
fn push_side(
    alloc: Global,
    list: &mut ConSys,
    n: usize,
    k: usize,
    entry: i128,
) -> Result<(), Unfit> {
    let mut numbers = [0i128; 13];
    numbers[0] = 1;
    numbers[k.min(12)] = entry;
    push_all(alloc, list, ConKind::Ge, &[&numbers[..n.min(12) + 1]])
}

// The cube of n dimensions with the side 2.
fn cube(alloc: Global, n: usize) -> Result<ConSys, Unfit> {
    if n > 12 {
        return Err(Unfit::Dimensions);
    }
    let mut list = ConSys::new(alloc, n);
    for k in 1..n + 1 {
        push_side(alloc, &mut list, n, k, 1)?;
        push_side(alloc, &mut list, n, k, -1)?;
    }
    Ok(list)
}

// How many generators the cube has, and how many losses there are.
fn vertices(alloc: Global, n: usize) -> Result<(usize, usize), Unfit> {
    let cube = cube(alloc, n)?;
    let (_, shown, losses) = generate(alloc, &cube)?;
    Ok((shown.rows().len(), losses.len()))
}

/// A cube of n dimensions has 2^n vertices.
#[test]
fn cubes(rt: HostRuntime) {
    for n in [0usize, 1, 5, 12] {
        assert!(rt; vertices(rt.alloc(), n) == Ok((1 << n, 0)), "{n}");
    }
}

// Whether the loss is of the product of 2 and the greatest number in the row 0 2, by two further rows.
fn is_product(loss: &Loss) -> bool {
    let cause = Cause::Excess(Excess {
        op: Operation::Product,
        left: 2,
        right: MAX,
    });
    let further = loss.further().row().entries() == [0, 2].as_slice();
    further && loss.cause() == cause && loss.chosen().len() == 2
}

// The vertex is the greatest number, and the third row takes it twice.
fn loses_product(alloc: Global) -> Result<bool, Unfit> {
    let list = list_of(alloc, 1, &[], &[&[-MAX, 1], &[0, 2], &[0, 1]])?;
    let (kept, _, losses) = generate(alloc, &list)?;
    let Some(loss) = losses.first() else {
        return Ok(false);
    };
    Ok(kept.rows().len() == 2 && losses.len() == 1 && is_product(loss))
}

#[test]
fn loss_of_a_product(rt: HostRuntime) {
    assert!(rt; loses_product(rt.alloc()) == Ok(true));
}
