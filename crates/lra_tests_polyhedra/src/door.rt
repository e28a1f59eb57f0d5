//! Lists that are added, polyhedra that are the same, under their other type, and changes that are kept as values.

ghost use Rattle.std.specs.Prelude.{◌≡◌, IfOk};
ghost use Rattle.lra_systems.specs.LinearSystems.{FitKinds};

use lra_box::Boxes;
use lra_domain::{Change, Domain, LinExpr, change_all};
use lra_poly_domain::{Polyhedron, Row};
use lra_poly_widening::Poly;
use lra_systems::{ConKind, ConSys, GenKind, GenSys};
use std::alloc::{AllocError, Global};

/// The square 0 <= x <= 2, 0 <= y <= 2.
const SQUARE: [[i64; 3]; 4] = [[0, 1, 0], [2, -1, 0], [0, 0, 1], [2, 0, -1]];

fn list_of(alloc: Global, rows: &[[i64; 3]]) -> Result<ConSys, AllocError>
    ensures { IfOk result (λ list. list.dims ≡ 2) }
{
    let mut list = ConSys::new(alloc, 2);
    for numbers in rows {
        list.push(Row::of(alloc, numbers)?, ConKind::Ge)?;
    }
    Ok(list)
}

/// Four rows added to the universe give the polyhedron of the rows.
fn takes_rows_in(alloc: Global) -> Result<bool, AllocError> {
    let list = list_of(alloc, &SQUARE)?;
    let (made, one) = Poly::from_rows(alloc, &list)?;
    let mut taken = Poly::universe(alloc, 2)?;
    let two = taken.add_rows(&list)?;
    Ok(one.and(two).is_exact() && taken.same(&made))
}

/// x >= 1 and 2*x >= 2 are the same, x >= 0 is another.
fn tells_the_same(alloc: Global) -> Result<bool, AllocError> {
    let (one, _) = Poly::from_rows(alloc, &list_of(alloc, &[[-1, 1, 0]])?)?;
    let (two, _) = Poly::from_rows(alloc, &list_of(alloc, &[[-2, 2, 0]])?)?;
    let (three, _) = Poly::from_rows(alloc, &list_of(alloc, &[[0, 1, 0]])?)?;
    Ok(one.same(&two) && !one.same(&three))
}

/// The corners of the square other than (0, 0).
fn corners(alloc: Global) -> Result<GenSys, AllocError>
    ensures dims { IfOk result (λ list. list.dims ≡ 2) }
    ensures kinds { IfOk result (λ list. FitKinds list.rows list.kinds) }
{
    let mut list = GenSys::new(alloc, 2);
    list.push(Row::of(alloc, &[1, 2, 0])?, GenKind::Point)?;
    list.push(Row::of(alloc, &[1, 0, 2])?, GenKind::Point)?;
    list.push(Row::of(alloc, &[1, 2, 2])?, GenKind::Point)?;
    Ok(list)
}

/// Three corners added to the polyhedron of the fourth give the square.
fn takes_generators_in(alloc: Global) -> Result<bool, AllocError> {
    let (square, _) = Poly::from_rows(alloc, &list_of(alloc, &SQUARE)?)?;
    let rows = list_of(alloc, &[[0, 1, 0], [0, -1, 0], [0, 0, 1], [0, 0, -1]])?;
    let (mut taken, _) = Poly::from_rows(alloc, &rows)?;
    let outcome = taken.add_generators(&corners(alloc)?)?;
    Ok(outcome.is_exact() && taken.same(&square))
}

/// A polyhedron is the same under its other type and back.
fn converts(alloc: Global) -> Result<bool, AllocError> {
    let (square, _) = Poly::from_rows(alloc, &list_of(alloc, &SQUARE)?)?;
    let copied = square.copy()?;
    let value = Polyhedron::of(square);
    let lent = value.as_poly().same(&copied);
    Ok(lent && value.into_poly().same(&copied))
}

/// x = 3, then a new y, then y = x + 1, then x of any value.
fn changes(alloc: Global) -> Result<bool, AllocError> {
    let mut value = Boxes::universe(alloc, 1, 1)?;
    let mut list = Vec::new(alloc);
    list.push(Change::Assign(0, LinExpr::new(alloc, 3, &[0])?))?;
    list.push(Change::Embed(1))?;
    list.push(Change::Assign(1, LinExpr::new(alloc, 1, &[1, 0])?))?;
    list.push(Change::Forget(0))?;
    change_all(&mut value, list.as_slice())?;
    if value.dims() != 2 {
        return Ok(false);
    }
    let bounds = value.bounds(&LinExpr::new(alloc, 0, &[0, 1])?);
    let none = value.empty_like(alloc)?;
    let all = value.universe_like(alloc)?;
    Ok(
        bounds == (Some(4), Some(4))
            && none.is_empty()
            && all.bounds(&LinExpr::new(alloc, 0, &[0, 1])?) == (None, None),
    )
}

#[test]
fn calls_of_the_door(rt: HostRuntime) {
    assert!(rt; takes_rows_in(rt.alloc()) == Ok(true));
    assert!(rt; tells_the_same(rt.alloc()) == Ok(true));
    assert!(rt; takes_generators_in(rt.alloc()) == Ok(true));
    assert!(rt; converts(rt.alloc()) == Ok(true));
    assert!(rt; changes(rt.alloc()) == Ok(true));
}
