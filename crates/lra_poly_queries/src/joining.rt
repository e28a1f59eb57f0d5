//! Polyhedra side by side.

ghost use Rattle.std.specs.Prelude.{◌≡◌, ◌<◌, ◌+◌, ◌++◌, length, replicate, IfOk};
ghost use Rattle.lra_poly_queries.specs.Crates.{lra_linear_spec.Descriptions.Con, lra_linear_spec.Kinds.is_equality};
ghost use Rattle.lra_poly.specs.Outcomes.{Becomes};
ghost use Rattle.lra_systems.specs.{Dimensions.too_many_dimensions, LinearSystems.constraints};
ghost use Rattle.lra_poly_queries.specs.Joined.{ConcatenateStrains, Concatenated, counted};
ghost use Rattle.lra_poly_queries.specs.Related.{ExtendStrains, Extended, ImageRelationStrains, Related, replaced};
ghost use Rattle.lra_poly_queries.specs.{Expanded.ExpandStrains, Expanded.Expanded, Moved.moved};

use crate::moving::{choose, map_dims};
use lra_poly::{Outcome, Poly};
use lra_systems::{ConKind, ConSys, Row};
use std::alloc::{AllocError, Global};

// One dimension as often as is asked, then the first ones in turn.
fn dims_behind(
    alloc: Global,
    often: usize,
    dim: usize,
    count: usize,
) -> Result<Vec<usize>, AllocError>
    ensures dims { IfOk result (λ dims. dims.items ≡ replicate often dim ++ counted count 0) }
    ensures len { IfOk result (λ dims. length dims.items ≡ often + count) }
{
    let mut dims = vec![in alloc; dim; often]?;
    for next in 0..count {
        dims.push(next)?;
    }
    Ok(dims)
}

// The constraints, then those of the list along these dimensions.
fn push_moved(
    alloc: Global,
    own: ConSys,
    list: &ConSys,
    dims: &[usize],
) -> Result<ConSys, AllocError>
    requires { length dims.now ≡ own.dims }
    ensures dims { IfOk result (λ all. all.dims ≡ own.dims) }
    ensures rows { IfOk result (λ all.
        constraints all ≡ constraints own ++ moved dims.now (constraints list.now)) }
    ensures count { IfOk result (λ all. length all.kinds ≡ length all.rows) }
{
    let mut all = own;
    let _kinds = all.kinds(); // fact: as many kinds as rows
    let (rows, kinds) = (list.rows(), list.kinds());
    for place in 0..rows.len() {
        let row = choose(alloc, &rows[place], dims)?;
        all.push(row, kinds[place])?;
    }
    Ok(all)
}

/// The polyhedron whose first coordinates are those of a point of the first, and whose others are those of a point of
/// the second. If it is flagged, it has at least those points.
pub fn concatenate(p: &Poly, q: &Poly) -> Result<(Poly, Outcome), AllocError>
    requires { p.now.dims + q.now.dims < too_many_dimensions }
    ensures { IfOk result (λ r. Becomes (p.now.dims + q.now.dims)
        (Concatenated p.now.dims (Con p.now.rows) (Con q.now.rows)) (ConcatenateStrains p.now q.now) r.0 r.1) }
{
    let alloc = p.allocator();
    let (n, m) = (p.dims(), q.dims());
    let none = ConSys::new(alloc, n + m);
    let first = dims_behind(alloc, 0, 0, n + m)?;
    let own = push_moved(alloc, none, p.rows(), first.as_slice())?;
    let last = dims_behind(alloc, n, m, m)?;
    let all = push_moved(alloc, own, q.rows(), last.as_slice())?;
    let (made, outcome) = Poly::from_rows(alloc, &all)?;
    Ok((made, outcome))
}

/// The points with one further coordinate, the last, that meet the constraint, whose row has the constant, a column for
/// each old coordinate, and one for the new. If it is flagged, it has at least those points.
pub fn extend_with(p: &Poly, row: &Row, kind: ConKind) -> Result<(Poly, Outcome), AllocError>
    requires small { p.now.dims + 1 < too_many_dimensions }
    requires width { length row.now ≡ p.now.dims + 2 }
    ensures { IfOk result (λ r. Becomes (p.now.dims + 1)
        (Extended p.now.dims (record { row = row.now; equal = is_equality kind }) (Con p.now.rows))
        (ExtendStrains (record { row = row.now; equal = is_equality kind }) p.now) r.0 r.1) }
{
    let alloc = p.allocator();
    let n = p.dims();
    let none = ConSys::new(alloc, n + 1);
    let first = dims_behind(alloc, 0, 0, n + 1)?;
    let mut own = push_moved(alloc, none, p.rows(), first.as_slice())?;
    own.push_copy(row, kind)?;
    let (made, outcome) = Poly::from_rows(alloc, &own)?;
    Ok((made, outcome))
}

// The first dimensions in turn, with the next one in place of one of them.
fn dims_replaced(alloc: Global, count: usize, dim: usize) -> Result<Vec<usize>, AllocError>
    requires { dim < count }
    ensures { IfOk result (λ dims. dims.items ≡ replaced count dim) }
{
    let mut dims = dims_behind(alloc, 0, 0, count)?;
    dims[dim] = count;
    Ok(dims)
}

/// The points whose coordinate along the dimension is any value that meets the constraint with the old point; all other
/// coordinates stay. The row has the constant, a column for each old coordinate, and one for the new value. If it is
/// flagged, it has at least those points.
pub fn image_relation(
    p: &Poly,
    dim: usize,
    row: &Row,
    kind: ConKind,
) -> Result<(Poly, Outcome), AllocError>
    requires small { p.now.dims + 1 < too_many_dimensions }
    requires dim { dim < p.now.dims }
    requires width { length row.now ≡ p.now.dims + 2 }
    ensures { IfOk result (λ r. Becomes p.now.dims
        (Related p.now.dims dim (record { row = row.now; equal = is_equality kind }) (Con p.now.rows))
        (ImageRelationStrains dim (record { row = row.now; equal = is_equality kind }) p.now) r.0 r.1) }
{
    let kept = dims_replaced(p.allocator(), p.dims(), dim)?;
    let (longer, first) = extend_with(p, row, kind)?;
    let (made, second) = map_dims(&longer, kept.as_slice())?;
    let outcome = first.and(second);
    Ok((made, outcome))
}

/// The points with one further coordinate, the last: a twin of the one along the dimension, which may be whatever that
/// one may be beside the others. If it is flagged, it has at least those points.
pub fn expand(p: &Poly, dim: usize) -> Result<(Poly, Outcome), AllocError>
    requires small { p.now.dims + 1 < too_many_dimensions }
    requires dim { dim < p.now.dims }
    ensures { IfOk result (λ r. Becomes (p.now.dims + 1)
        (Expanded p.now.dims dim (Con p.now.rows)) (ExpandStrains dim p.now) r.0 r.1) }
{
    let alloc = p.allocator();
    let n = p.dims();
    let none = ConSys::new(alloc, n + 1);
    let first = dims_behind(alloc, 0, 0, n + 1)?;
    let own = push_moved(alloc, none, p.rows(), first.as_slice())?;
    let mut twin = dims_replaced(alloc, n, dim)?;
    twin.push(dim)?;
    let all = push_moved(alloc, own, p.rows(), twin.as_slice())?;
    let (made, outcome) = Poly::from_rows(alloc, &all)?;
    Ok((made, outcome))
}
