//! The hull of two systems of constraints.

ghost use Rattle.std.specs.Prelude.{◌≡◌, IsTrue, IfOk};
ghost use Rattle.guzhtarel.specs.Linear.SetOperations.{Hull, Union};
ghost use Rattle.guzhtarel.specs.Polyhedra.Polyhedra.{IsPolyhedronOf};
ghost use Rattle.guzhtarel.specs.{Linear.Descriptions.Con, Linear.Points.IsWithin, Lists.LinearSystems.constraints};

use guzhtarel::{ConSys, Poly};
use std::alloc::{AllocError, Global};

/// A polyhedron with all points of both systems, and whether it is the least closed one.
pub fn hull(alloc: Global, first: &ConSys, second: &ConSys) -> Result<(Poly, bool), AllocError>
    requires { second.now.dims ≡ first.now.dims }
    ensures dims { IfOk result (λ r. r.0.dims ≡ first.now.dims) }
    ensures holds { IfOk result (λ r. IsWithin first.now.dims
        (Union (Con (constraints first.now)) (Con (constraints second.now))) (Con r.0.rows)) }
    ensures least { IfOk result (λ r. IsTrue r.1 → IsPolyhedronOf first.now.dims
        (Hull first.now.dims (Union (Con (constraints first.now)) (Con (constraints second.now))))
        r.0) }
{
    let (mut all, of_first) = Poly::from_rows(alloc, first)?;
    let (other, of_second) = Poly::from_rows(alloc, second)?;
    let joined = all.hull(&other)?;
    let given = of_first.and(of_second);
    let outcome = given.and(joined);
    Ok((all, outcome.is_exact()))
}
