//! What a polyhedron is as a whole.

ghost use Rattle.std.specs.List.{All, prefix_len};
ghost use Rattle.std.specs.Prelude.{◌≡◌, ◌↔◌, IsNone, IsTrue, IfSome};
ghost use Rattle.lra_poly_queries.specs.Crates.lra_linear_spec.Kinds.{is_equality};
ghost use Rattle.lra_poly_queries.specs.Crates.{lra_linear_spec.Descriptions.Con, lra_linear_spec.Points.IsEmptySet};
ghost use Rattle.lra_poly_queries.specs.Shapes.{AffineDimension, IsBounded, IsUniverse};

use lra_poly::Poly;
use lra_systems::{ConKind, GenKind};

/// Whether it has all points.
pub fn is_universe(p: &Poly) -> bool
    ensures { IsTrue result ↔ IsUniverse p.now }
{
    let list = p.rows();
    list.kinds().is_empty()
}

// Whether each of them is a point.
fn are_points(kinds: &[GenKind]) -> bool
    ensures { IsTrue result ↔ All (λ kind. kind ≡ GenKind.Point) kinds.now }
{
    kinds.iter().all(|kind| *kind == GenKind::Point)
}

/// Whether each form has a greatest value, or there is no point: neither a ray nor a line is in it.
pub fn is_bounded(p: &Poly) -> bool
    ensures { IsTrue result ↔ IsBounded p.now }
{
    let list = p.generators();
    are_points(list.kinds())
}

// How many of them stand before the first inequality.
fn equalities_before(kinds: &[ConKind]) -> usize
    ensures { result ≡ prefix_len is_equality kinds.now }
{
    kinds
        .iter()
        .take_while(|kind| **kind == ConKind::Eq)
        .count()
}

/// How many dimensions it has: those of the space less its equalities; none if there is no point.
pub fn dimension(p: &Poly) -> Option<usize>
    ensures some { IfSome result (AffineDimension p.now) }
    ensures none { IsNone result ↔ IsEmptySet p.now.dims (Con p.now.rows) }
{
    if p.is_empty() {
        return None;
    }
    let list = p.rows();
    Some(p.dims() - equalities_before(list.kinds()))
}
