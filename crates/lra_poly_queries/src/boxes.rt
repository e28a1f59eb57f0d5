//! The least box around a polyhedron.

ghost use Rattle.std.specs.Prelude.{◌≡◌, ◌↔◌, ◌<◌, length, IfOk, IfSome, IsNone};
ghost use Rattle.lra_poly_queries.specs.Crates.lra_linear_spec.OperationStrain.{MaximiseStrains};
ghost use Rattle.lra_poly_queries.specs.Crates.{lra_linear_forms.Form.form_row, lra_linear_spec.Descriptions.Con};
ghost use Rattle.lra_poly_queries.specs.Crates.{lra_linear_spec.Points.IsEmptySet, lra_linear_spec.Vectors.negated};
ghost use Rattle.lra_poly_queries.specs.Crates.{lra_linear_spec.declared.Excess.Excess};
ghost use Rattle.lra_poly_queries.specs.Boxed.{FractionInRange, IsExtent, IsGreatestEnd, IsLeastBox, IsLeastEnd};
ghost use Rattle.lra_poly_queries.specs.Boxed.{coordinate_form};

use crate::minimum::{Minimum, minimise};
use lra_domain::LinExpr;
use lra_poly::{Maximum, Poly};
use std::alloc::{AllocError, Global};

/// A fraction in lowest terms, its denominator above 0.
#[derive(Clone, Copy, Debug, PartialEq, Eq)]
pub struct Fraction {
    pub num: i128,
    pub den: i128,
}

/// The values of a coordinate, from the least to the greatest; `None` if they fall, or rise, without end.
#[derive(Clone, Copy, Debug, PartialEq, Eq)]
pub struct Extent {
    pub least: Option<Fraction>,
    pub greatest: Option<Fraction>,
}

// The form whose value is the coordinate.
fn coordinate(alloc: Global, n: usize, dim: usize) -> Result<LinExpr, AllocError>
    requires { dim < n }
    ensures width { IfOk result (λ form. length form.coefficients ≡ n) }
    ensures form { IfOk result (λ form. form_row form ≡ coordinate_form n dim) }
{
    let mut factors = vec![in alloc; 0; n]?;
    factors[dim] = 1;
    let form = LinExpr::new(alloc, 0, factors.as_slice())?;
    Ok(form)
}

// The form's least value, if there is one, of a form no product of which passes.
fn least_end(p: &Poly, form: &LinExpr) -> Option<Fraction>
    requires width { length form.now.coefficients ≡ p.now.dims }
    requires some { ¬ IsEmptySet p.now.dims (Con p.now.rows) }
    requires fits { (e : Excess) → ¬ MaximiseStrains p.now (negated (form_row form.now)) e }
    ensures end { IsLeastEnd p.now (form_row form.now) result }
    ensures range { IfSome result FractionInRange }
{
    match minimise(p, form) {
        Minimum::Empty => None,
        Minimum::Wide { place: _ } => None,
        Minimum::Unbounded { place: _ } => None,
        Minimum::At { num, den, place: _ } => Some(Fraction { num, den }),
    }
}

// The form's greatest value likewise.
fn greatest_end(p: &Poly, form: &LinExpr) -> Option<Fraction>
    requires width { length form.now.coefficients ≡ p.now.dims }
    requires some { ¬ IsEmptySet p.now.dims (Con p.now.rows) }
    requires fits { (e : Excess) → ¬ MaximiseStrains p.now (form_row form.now) e }
    ensures end { IsGreatestEnd p.now (form_row form.now) result }
    ensures range { IfSome result FractionInRange }
{
    match p.maximise(form) {
        Maximum::Empty => None,
        Maximum::Wide { place: _ } => None,
        Maximum::Unbounded { place: _ } => None,
        Maximum::At { num, den, place: _ } => Some(Fraction { num, den }),
    }
}

// The values of the coordinate.
fn extent_of(p: &Poly, dim: usize) -> Result<Extent, AllocError>
    requires dim { dim < p.now.dims }
    requires some { ¬ IsEmptySet p.now.dims (Con p.now.rows) }
    ensures { IfOk result (IsExtent p.now dim) }
{
    let _formed = p.generators(); // fact: p is representable
    let form = coordinate(p.allocator(), p.dims(), dim)?;
    let least = least_end(p, &form);
    let greatest = greatest_end(p, &form);
    Ok(Extent { least, greatest })
}

/// The least box around the polyhedron: the values of each coordinate, in the order of the dimensions; `None` if there
/// is no point.
pub fn least_box(p: &Poly) -> Result<Option<Vec<Extent>>, AllocError>
    ensures some { IfOk result (λ found. IfSome found (λ extents. IsLeastBox p.now extents.items)) }
    ensures none { IfOk result (λ found. IsNone found ↔ IsEmptySet p.now.dims (Con p.now.rows)) }
{
    if p.is_empty() {
        return Ok(None);
    }
    let mut extents = Vec::new(p.allocator());
    for dim in 0..p.dims() {
        let extent = extent_of(p, dim)?;
        extents.push(extent)?;
    }
    Ok(Some(extents))
}
