//! The worked set of a half line.

ghost use Rattle.std.specs.Prelude.{◌≡◌, IfOk};

use crate::shapes::{Unfit, row_of, set_of, shows};
use lra_poly_images::{embed, forget, remove_last, time_elapse};
use lra_poly_widening::Poly;
use lra_systems::{ConKind, ConSys};
use std::alloc::Global;

// The point of two equalities.
fn point_of(alloc: Global, first: &[i128; 3], second: &[i128; 3]) -> Result<Poly, Unfit>
    ensures { IfOk result (λ p. p.dims ≡ 2) }
{
    let mut list = ConSys::new(alloc, 2);
    list.push(row_of(alloc, first)?, ConKind::Eq)?;
    list.push(row_of(alloc, second)?, ConKind::Eq)?;
    let (point, _) = Poly::from_rows(alloc, &list)?;
    Ok(point)
}

// The origin moved by steps of (1, 2).
fn way_of(alloc: Global) -> Result<Poly, Unfit>
    ensures { IfOk result (λ p. p.dims ≡ 2) }
{
    let step = point_of(alloc, &[-1, 1, 0], &[-2, 0, 1])?;
    let mut way = point_of(alloc, &[0, 1, 0], &[0, 0, 1])?;
    let outcome = time_elapse(&mut way, &step)?;
    if !outcome.is_exact() {
        return Err(Unfit::Lost);
    }
    Ok(way)
}

// It is a half line.
fn is_half_line(alloc: Global) -> Result<bool, Unfit> {
    let way = way_of(alloc)?;
    Ok(shows(&way, &[[0, 2, -1], [0, 0, 1]], &[[1, 0, 0], [0, 1, 2]]))
}

fn is_half_plane(p: &Poly) -> bool {
    shows(p, &[[0, 1, 0]], &[[1, 0, 0], [0, 1, 0], [0, 0, 1]])
}

// Without its x2, and with a new one, it is a half plane.
fn has_new_coordinate(alloc: Global) -> Result<bool, Unfit> {
    let mut way = way_of(alloc)?;
    let removed = remove_last(&mut way, 1)?;
    let added = embed(&mut way, 1)?;
    Ok(removed.is_exact() && added.is_exact() && is_half_plane(&way))
}

// As it is if its x2 may be anything.
fn forgets_coordinate(alloc: Global) -> Result<bool, Unfit> {
    let mut way = way_of(alloc)?;
    let outcome = forget(&mut way, 1)?;
    Ok(outcome.is_exact() && is_half_plane(&way))
}

// With the generators of the axis along x2 it is one too; nothing goes on from no point.
fn is_extended(alloc: Global) -> Result<bool, Unfit> {
    let way = way_of(alloc)?;
    let axis = set_of(alloc, &[([0, 1, 0], ConKind::Eq)])?;
    let nothing = Poly::empty(alloc, 2)?;
    if nothing.extend(axis.generators())?.is_some() {
        return Ok(false);
    }
    match way.extend(axis.generators())? {
        Some(made) => Ok(is_half_plane(&made)),
        None => Ok(false),
    }
}

#[test]
fn half_line(rt: HostRuntime) {
    assert!(rt; is_half_line(rt.alloc()) == Ok(true));
    assert!(rt; has_new_coordinate(rt.alloc()) == Ok(true));
    assert!(rt; forgets_coordinate(rt.alloc()) == Ok(true));
    assert!(rt; is_extended(rt.alloc()) == Ok(true));
}
