//! Dimensions moved, dropped and folded.

ghost use Rattle.std.specs.Prelude.{◌≡◌, ◌<◌, suc, length, IfOk};
ghost use Rattle.lra_poly_queries.specs.Crates.lra_linear_spec.Range.{InRange};
ghost use Rattle.lra_poly_queries.specs.Crates.{lra_linear_spec.Descriptions.Con, lra_linear_spec.Vectors.entry};
ghost use Rattle.lra_poly.specs.Outcomes.{Becomes};
ghost use Rattle.lra_systems.specs.LinearSystems.{generators, FitKinds};
ghost use Rattle.lra_poly_queries.specs.Folded.{FoldStrains, Folded};
ghost use Rattle.lra_poly_queries.specs.Moved.{MapDimsStrains, Moved, chosen, moved};

use lra_poly::{Outcome, Poly};
use lra_systems::{GenSys, Row, TOO_MANY_DIMENSIONS};
use std::alloc::{AllocError, Global};

// The row's number along a dimension, 0 past the last one.
#[tactic(auto, using(crate::proofs::Crates::entry_past))]
fn coordinate(row: &Row, dim: usize) -> i128
    ensures entry { result ≡ entry row.now (suc dim) }
    ensures in_range { InRange result }
{
    let width = row.width();
    if dim >= width {
        return 0;
    }
    if dim + 1 >= width {
        return 0;
    }
    row.get(dim + 1)
}

/// The row with its column 0, then the columns of these dimensions.
pub fn choose(alloc: Global, row: &Row, dims: &[usize]) -> Result<Row, AllocError>
    requires { 0 < length row.now }
    ensures { IfOk result (λ r. r ≡ chosen dims.now row.now) }
{
    let mut numbers = Vec::new(alloc);
    numbers.push(row.get(0))?;
    for dim in dims {
        numbers.push(coordinate(row, *dim))?;
    }
    let made = Row::from_slice(alloc, numbers.as_slice())?;
    Ok(made)
}

// The generators with these dimensions.
fn choose_list(alloc: Global, list: &GenSys, dims: &[usize]) -> Result<GenSys, AllocError>
    requires { FitKinds list.now.rows list.now.kinds }
    ensures dims { IfOk result (λ all. all.dims ≡ length dims.now) }
    ensures generators { IfOk result (λ all. generators all ≡ moved dims.now (generators list.now)) }
    ensures kinds { IfOk result (λ all. FitKinds all.rows all.kinds) }
{
    let n = dims.len();
    if n >= TOO_MANY_DIMENSIONS {
        return Err(AllocError);
    }
    let mut all = GenSys::new(alloc, n);
    let (rows, kinds) = (list.rows(), list.kinds());
    for place in 0..rows.len() {
        all.push(choose(alloc, &rows[place], dims)?, kinds[place])?;
    }
    Ok(all)
}

/// The polyhedron whose dimensions are, in turn, these of the given one: in a new order, without some, or with one
/// that stands twice: `dims` has the old dimension of each new one. Along one that it hasn't the coordinate is 0. If it
/// is flagged, it has at least those points. Memory runs out from 2^62 dimensions on.
pub fn map_dims(p: &Poly, dims: &[usize]) -> Result<(Poly, Outcome), AllocError>
    ensures { IfOk result (λ r. Becomes (length dims.now)
        (Moved p.now.dims dims.now (Con p.now.rows)) (MapDimsStrains dims.now p.now) r.0 r.1) }
{
    let list = choose_list(p.allocator(), p.generators(), dims)?;
    let (made, outcome) = Poly::from_generators(p.allocator(), &list)?;
    Ok((made, outcome))
}

/// The least closed polyhedron that has the points along the dimensions kept and those along the dimensions folded into
/// them, each in turn. If it is flagged, it has at least those points.
pub fn fold_dims(p: &Poly, kept: &[usize], folded: &[usize]) -> Result<(Poly, Outcome), AllocError>
    requires { length folded.now ≡ length kept.now }
    ensures { IfOk result (λ r. Becomes (length kept.now) (Folded p.now kept.now folded.now)
        (FoldStrains kept.now folded.now p.now) r.0 r.1) }
{
    let (mut made, first) = map_dims(p, kept)?;
    let (other, second) = map_dims(p, folded)?;
    let third = made.hull(&other)?;
    let later = second.and(third);
    let outcome = first.and(later);
    Ok((made, outcome))
}
