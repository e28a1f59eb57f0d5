//! Worked sets in two dimensions.

ghost use Rattle.std.specs.Prelude.{◌≡◌, IfOk};

use crate::shapes::{Unfit, row_of, shows};
use lra_domain::{LinExpr, Test};
use lra_poly_domain::{Inclusion, Maximum};
use lra_poly_widening::Poly;
use lra_systems::{ConKind, ConSys};
use std::alloc::Global;

const MAX: i128 = i128::MAX;

fn push_all(
    alloc: Global,
    list: &mut ConSys,
    kind: ConKind,
    rows: &[[i128; 3]],
) -> Result<(), Unfit> {
    for numbers in rows {
        let row = row_of(alloc, numbers)?;
        if row.width() == 0 || row.width() - 1 != list.dims() {
            return Err(Unfit::Width);
        }
        list.push(row, kind)?;
    }
    Ok(())
}

// The polyhedron of equalities and inequalities.
fn poly_of(
    alloc: Global,
    equalities: &[[i128; 3]],
    inequalities: &[[i128; 3]],
) -> Result<Poly, Unfit>
    ensures { IfOk result (λ p. p.dims ≡ 2) }
{
    let mut list = ConSys::new(alloc, 2);
    push_all(alloc, &mut list, ConKind::Eq, equalities)?;
    push_all(alloc, &mut list, ConKind::Ge, inequalities)?;
    let (made, outcome) = Poly::from_rows(alloc, &list)?;
    if !outcome.is_exact() || made.dims() != 2 {
        return Err(Unfit::Lost);
    }
    Ok(made)
}

const STRIP: [[i128; 3]; 2] = [[0, 0, 1], [1, 0, -1]];

const STRIP_GENERATORS: [[i128; 3]; 3] = [[1, 0, 0], [1, 0, 1], [0, 1, 0]];

// The hull of a point and a line.
fn strip_of(alloc: Global, line: &Poly) -> Result<Poly, Unfit>
    requires { line.now.dims ≡ 2 }
    ensures { IfOk result (λ p. p.dims ≡ 2) }
{
    let mut strip = poly_of(alloc, &[[0, 1, 0], [-1, 0, 1]], &[])?;
    let outcome = strip.hull(line)?;
    if !outcome.is_exact() {
        return Err(Unfit::Lost);
    }
    Ok(strip)
}

// The hull of a point and a line is a strip, which isn't in the line.
fn is_strip(alloc: Global) -> Result<bool, Unfit> {
    let line = poly_of(alloc, &[[0, 0, 1]], &[])?;
    let strip = strip_of(alloc, &line)?;
    let both = (line.included(&strip), strip.included(&line));
    let told = both == (Inclusion::Yes, Inclusion::No(1));
    Ok(told && shows(&strip, &STRIP, &STRIP_GENERATORS))
}

// The polyhedron again, from its generators.
fn again_of(alloc: Global, p: &Poly) -> Result<Poly, Unfit>
    ensures { IfOk result (λ q. q.dims ≡ p.now.dims) }
{
    let (again, outcome) = Poly::from_generators(alloc, p.generators())?;
    if !outcome.is_exact() {
        return Err(Unfit::Lost);
    }
    Ok(again)
}

// The meet of the strip, from its generators, with the line.
fn is_met(alloc: Global) -> Result<bool, Unfit> {
    let line = poly_of(alloc, &[[0, 0, 1]], &[])?;
    let strip = poly_of(alloc, &[], &STRIP)?;
    let mut again = again_of(alloc, &strip)?;
    let outcome = again.meet(&line)?;
    Ok(outcome.is_exact() && shows(&again, &[[0, 0, 1]], &[[1, 0, 0], [0, 1, 0]]))
}

#[test]
fn strip(rt: HostRuntime) {
    assert!(rt; is_strip(rt.alloc()) == Ok(true));
    assert!(rt; is_met(rt.alloc()) == Ok(true));
}

// The least values on a half plane of a form that rises into it, and of one that falls.
fn are_least(alloc: Global) -> Result<bool, Unfit> {
    let side = poly_of(alloc, &[], &[[-3, 1, 0]])?;
    let rising = LinExpr::new(alloc, -1, &[2, 0])?;
    let falling = LinExpr::new(alloc, 0, &[-1, 0])?;
    let least = Maximum::At {
        num: -5,
        den: 1,
        place: 0,
    };
    let told = side.maximise_opposite(&rising) == least;
    Ok(told && side.maximise_opposite(&falling) == Maximum::Unbounded { place: 1 })
}

#[test]
fn least_values(rt: HostRuntime) {
    assert!(rt; are_least(rt.alloc()) == Ok(true));
}

// The half plane of the points with x1 at least 3.
fn half_plane(alloc: Global) -> Result<Poly, Unfit> {
    let test = Test {
        expr: LinExpr::new(alloc, -3, &[1, 0])?,
        kind: ConKind::Ge,
    };
    let mut side = Poly::universe(alloc, 2)?;
    let outcome = side.add_test(&test)?;
    if !outcome.is_exact() {
        return Err(Unfit::Lost);
    }
    let same = side.copy()?;
    Ok(same)
}

// A test keeps a half plane; no point.
fn is_half_plane(alloc: Global) -> Result<bool, Unfit> {
    let side = half_plane(alloc)?;
    let nothing = Poly::empty(alloc, 2)?;
    let told = (side.is_empty(), nothing.is_empty(), side.dims()) == (false, true, 2);
    Ok(told && shows(&side, &[[-3, 1, 0]], &[[1, 3, 0], [0, 1, 0], [0, 0, 1]]))
}

// The product of 2 with the greatest number passes the range.
fn is_wide(alloc: Global) -> Result<bool, Unfit> {
    let point = poly_of(alloc, &[[-MAX, 1, 0], [0, 0, 1]], &[])?;
    let side = poly_of(alloc, &[], &[[0, 2, 1]])?;
    Ok(point.included(&side) == Inclusion::Wide(0, 0))
}

#[test]
fn half_planes(rt: HostRuntime) {
    assert!(rt; is_half_plane(rt.alloc()) == Ok(true));
    assert!(rt; is_wide(rt.alloc()) == Ok(true));
}
