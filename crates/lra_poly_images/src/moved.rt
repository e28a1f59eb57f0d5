//! Images and preimages by a form that can be inverted: both lists of a polyhedron are moved, with no conversion.

ghost use Rattle.std.specs.Prelude.{◌≡◌, ◌<◌, ◌⊎◌, suc, length, IfErr, IfOk, IfSome, IfNone};
ghost use Rattle.lra_poly_images.specs.Crates.lra_linear_spec.Polyhedra.{IsPolyhedronOf};
ghost use Rattle.lra_poly_images.specs.Crates.lra_linear_spec.SetOperations.{Image, Preimage};
ghost use Rattle.lra_poly_images.specs.Crates.{lra_linear_spec.Descriptions.Con, lra_linear_spec.Points.IsEmptySet};
ghost use Rattle.lra_mapped_systems.specs.Moving.{AssignmentPasses, MovePasses, OnExcess, StaysBackFor, StaysFor};
ghost use Rattle.lra_mapped_systems.specs.Moving.{SubstitutionPasses, IsInverse};

use lra_mapped_systems::{
    Row, RowError, TOO_MANY_DIMENSIONS, assign_canonically, invert, substitute_canonically,
};
use lra_poly::Poly;
use std::alloc::AllocError;

// The image under the assignment of the form to the column, which the other form takes back. Or names a number that
// passes the range.
fn move_lists(p: &Poly, column: usize, form: &Row, back: &Row) -> Result<Poly, RowError>
    requires back { IsInverse column (suc p.now.dims) form.now back.now }
    requires above { 0 < column }
    requires some { ¬ (IsEmptySet p.now.dims (Con p.now.rows)) }
    ensures image { IfOk result (IsPolyhedronOf p.now.dims (Image p.now.dims column form.now (Con p.now.rows))) }
    ensures excess { IfErr result (OnExcess (λ e.
        SubstitutionPasses column back.now p.now.rows e ⊎ AssignmentPasses column form.now p.now.generators e)) }
{
    let alloc = p.allocator();
    if p.dims() >= TOO_MANY_DIMENSIONS {
        return Err(RowError::Memory);
    }
    let rows = substitute_canonically(alloc, p.rows(), column, back)?;
    let by_generators = assign_canonically(alloc, p.generators(), column, form)?;
    Ok(Poly::from_canonical(alloc, rows, by_generators)?)
}

// The image by both lists, moved; none if a number passes the range.
fn move_lists_in_range(
    p: &Poly,
    column: usize,
    form: &Row,
    back: &Row,
) -> Result<Option<Poly>, AllocError>
    requires back { IsInverse column (suc p.now.dims) form.now back.now }
    requires above { 0 < column }
    requires some { ¬ (IsEmptySet p.now.dims (Con p.now.rows)) }
    ensures image { IfOk result (λ image. IfSome image
        (IsPolyhedronOf p.now.dims (Image p.now.dims column form.now (Con p.now.rows)))) }
    ensures none { IfOk result (λ image. IfNone image (MovePasses column form.now back.now p.now)) }
{
    match move_lists(p, column, form, back) {
        Ok(image) => Ok(Some(image)),
        Err(RowError::Memory) => Err(AllocError),
        Err(RowError::Excess(_)) => Ok(None),
    }
}

/// The image under the assignment of the form to the column, by both lists. None if the form hasn't 1 or -1 at the
/// column, if there is no point, or if a number passes the range.
pub fn move_forward(p: &Poly, column: usize, form: &Row) -> Result<Option<Poly>, AllocError>
    requires above { 0 < column }
    requires column { column < suc p.now.dims }
    requires width { length form.now ≡ suc p.now.dims }
    ensures image { IfOk result (λ image. IfSome image
        (IsPolyhedronOf p.now.dims (Image p.now.dims column form.now (Con p.now.rows)))) }
    ensures none { IfOk result (λ image. IfNone image (StaysFor column form.now p.now)) }
{
    if p.is_empty() {
        return Ok(None);
    }
    match invert(p.allocator(), form, column)? {
        Some(back) => move_lists_in_range(p, column, form, &back),
        None => Ok(None),
    }
}

/// The preimage under the assignment of the form to the column, by both lists; none as with the image.
pub fn move_back(p: &Poly, column: usize, form: &Row) -> Result<Option<Poly>, AllocError>
    requires above { 0 < column }
    requires column { column < suc p.now.dims }
    requires width { length form.now ≡ suc p.now.dims }
    ensures preimage { IfOk result (λ preimage. IfSome preimage
        (IsPolyhedronOf p.now.dims (Preimage column form.now (Con p.now.rows)))) }
    ensures none { IfOk result (λ preimage. IfNone preimage (StaysBackFor column form.now p.now)) }
{
    let _canonical = p.rows(); // fact: p's lists are canonical
    if p.is_empty() {
        return Ok(None);
    }
    match invert(p.allocator(), form, column)? {
        Some(back) => move_lists_in_range(p, column, &back, form),
        None => Ok(None),
    }
}
