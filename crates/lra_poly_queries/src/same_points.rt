//! Whether two polyhedra have the same points.

ghost use Rattle.std.specs.Prelude.{◌≡◌, ◌↔◌, IsTrue};
ghost use Rattle.lra_poly_queries.specs.Crates.{lra_linear_spec.Descriptions.Con, lra_linear_spec.Points.SameSet};

use lra_poly::Poly;

/// Whether they have the same points. Their lists are compared, so no number is computed.
pub fn same(p: &Poly, q: &Poly) -> bool
    requires { q.now.dims ≡ p.now.dims }
    ensures { IsTrue result ↔ SameSet p.now.dims (Con p.now.rows) (Con q.now.rows) }
{
    p.same(q)
}
