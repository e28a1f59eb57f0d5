//! Images and preimages under a form, and coordinates that are forgotten.

ghost use Rattle.std.specs.Prelude.{◌≡◌, ◌<◌, ◌∷◌, ◌++◌, [], suc, length, None, Some, IfOk, OnErr, OnOk, pos, negsuc};
ghost use Rattle.std.specs.Prelude.{slice_set, true, IfNone, IfSome};
ghost use Rattle.lra_poly_images.specs.Crates.lra_linear_spec.Descriptions.{Con, Gen, Holds, line};
ghost use Rattle.lra_poly_images.specs.Crates.lra_linear_spec.OperationStrain.{ForgetStrains, ImageStrains};
ghost use Rattle.lra_poly_images.specs.Crates.lra_linear_spec.OperationStrain.{PreimageStrains, unit_row};
ghost use Rattle.lra_poly_images.specs.Crates.lra_linear_spec.Polyhedra.{IsPolyhedronOf};
ghost use Rattle.lra_poly_images.specs.Crates.lra_linear_spec.SetOperations.{Forget, Image, Meet, Preimage};
ghost use Rattle.lra_poly_images.specs.Crates.{lra_linear_spec.Points.IsWithin, lra_linear_spec.Vectors.entry};
ghost use Rattle.lra_poly_images.specs.Crates.lra_linear_spec.Strain as strain;
ghost use Rattle.lra_poly_images.specs.{Forgetting.IsForgetResult, FormedPreimages.IsOfFormed};
ghost use Rattle.lra_mapped_systems.specs.Moving.{StaysBackFor, StaysFor};
ghost use Rattle.lra_poly.specs.{Outcomes.Becomes, Outcomes.IfFlagged, Outcomes.IsOfGenerators, United.AreTriedPoints};
ghost use Rattle.lra_poly_images.specs.Crates.lra_systems.LinearSystems.{generators, FitKinds};
ghost use Rattle.lra_poly_images.specs.Crates.{lra_duality.Rows.test_row, lra_linear_forms.Form.form_row};

use crate::moved::{move_back, move_forward};
use lra_mapped_systems::{
    ConKind, GenSys, Row, assign_list, line_along, substitute_list, with_line,
};
use lra_poly::{LinExpr, Loss, Outcome, Poly, Test};
use std::alloc::{AllocError, Global};

// Lets the coordinate x be anything, if the generators are converted from nothing.
fn forget_anew(p: &mut Poly, x: usize) -> Result<Outcome, AllocError>
    requires { x < p.old.dims }
    ensures dims { p.new.dims ≡ p.old.dims }
    ensures becomes { IfOk result (Becomes p.old.dims
        (Forget p.old.dims (suc x) (Con p.old.rows)) (ForgetStrains (suc x) p.old) p.new) }
    ensures tried { IfOk result (λ o. IfFlagged (λ _. AreTriedPoints p.old.dims
        (p.old.generators ++ line (unit_row p.old.dims (suc x)) ∷ []) p.new o) o) }
    ensures unchanged { OnErr result (p.new ≡ p.old) }
{
    let list = with_line(p.allocator(), p.generators(), x)?;
    let (made, outcome) = Poly::from_generators(p.allocator(), &list)?;
    *p = made;
    Ok(outcome)
}

// The polyhedron with anything as coordinate x, by the lists at hand; none if these can't be gone on from.
fn extend_along(p: &Poly, x: usize) -> Result<Option<Poly>, AllocError>
    requires { x < p.now.dims }
    ensures { IfOk result (λ made. IfSome made
        (IsPolyhedronOf p.now.dims (Forget p.now.dims (suc x) (Con p.now.rows)))) }
{
    let _canonical = p.rows(); // fact: p's lists are canonical
    let along = line_along(p.allocator(), p.dims(), x)?;
    p.extend(&along)
}

/// Lets the coordinate x be anything: becomes the set of the points that some value of x brings into it. If it is
/// flagged, it has at least those.
pub fn forget(p: &mut Poly, x: usize) -> Result<Outcome, AllocError>
    requires { x < p.old.dims }
    ensures dims { p.new.dims ≡ p.old.dims }
    ensures becomes { IfOk result (Becomes p.old.dims
        (Forget p.old.dims (suc x) (Con p.old.rows)) (ForgetStrains (suc x) p.old) p.new) }
    ensures tried { IfOk result (λ o. IfFlagged (λ _. AreTriedPoints p.old.dims
        (p.old.generators ++ line (unit_row p.old.dims (suc x)) ∷ []) p.new o) o) }
    ensures unchanged { OnErr result (p.new ≡ p.old) }
{
    match extend_along(p, x)? {
        Some(made) => {
            *p = made;
            Ok(Outcome::Exact)
        }
        None => forget_anew(p, x),
    }
}

// Lets the coordinate x be anything, or gives at least those points.
fn give_up(p: &mut Poly, x: usize) -> Result<(), AllocError>
    requires { x < p.old.dims }
    ensures dims { p.new.dims ≡ p.old.dims }
    ensures forgotten { OnOk result (IsForgetResult (suc x) p.old p.new) }
    ensures unchanged { OnErr result (p.new ≡ p.old) }
{
    let _outcome = forget(p, x)?;
    Ok(())
}

// Becomes the polyhedron of generators that give no more than what some value of the coordinate x brings into it; if
// that is flagged, the coordinate x is forgotten.
fn replace_or_forget(p: &mut Poly, x: usize, list: &GenSys) -> Result<Outcome, AllocError>
    requires column { x < p.old.dims }
    requires dims { list.now.dims ≡ p.old.dims }
    requires kinds { FitKinds list.now.rows list.now.kinds }
    requires within { IsWithin p.old.dims (Gen (generators list.now)) (Forget p.old.dims (suc x) (Con p.old.rows)) }
    ensures dims { p.new.dims ≡ p.old.dims }
    ensures becomes { IfOk result (IsOfGenerators list.now.dims (generators list.now) p.new) }
    ensures forgotten { IfOk result (IfFlagged (λ _. IsForgetResult (suc x) p.old p.new)) }
    ensures unchanged { OnErr result (p.new ≡ p.old) }
{
    let (made, outcome) = Poly::from_generators(p.allocator(), list)?;
    if outcome.is_exact() {
        *p = made;
    } else {
        give_up(p, x)?;
    }
    Ok(outcome)
}

// The test that the coordinate x is the form, which is without it.
fn is_form(alloc: Global, x: usize, form: &LinExpr) -> Result<Test, AllocError>
    requires { x < length form.now.coefficients }
    ensures { IfOk result (λ t. test_row t.kind t.expr ≡
        record { row = slice_set (form_row form.now) (suc x) (negsuc 0); equal = true }) }
{
    let mut coefficients = Vec::from_slice(alloc, form.coefficients())?;
    coefficients[x] = -1;
    let expr = LinExpr::new(alloc, form.constant(), coefficients.as_slice())?;
    Ok(Test {
        expr,
        kind: ConKind::Eq,
    })
}

// The points with the form's value as coordinate x, which the form is without; none if that is flagged.
fn meet_form(free: Poly, x: usize, form: &LinExpr) -> Result<Option<Poly>, AllocError>
    requires column { x < free.dims }
    requires form { length form.now.coefficients ≡ free.dims }
    ensures { IfOk result (λ made. IfSome made (IsPolyhedronOf free.dims (Meet (Con free.rows)
        (Holds (record { row = slice_set (form_row form.now) (suc x) (negsuc 0); equal = true }))))) }
{
    let mut made = free;
    let test = is_form(made.allocator(), x, form)?;
    let outcome = made.add_test(&test)?;
    if outcome.is_exact() {
        Ok(Some(made))
    } else {
        Ok(None)
    }
}

// The image by a form without the coordinate x: that coordinate is anything, and then it is the form. None if that
// is flagged, or if it can't be gone on from the lists at hand.
fn forget_and_set(p: &Poly, x: usize, form: &LinExpr) -> Result<Option<Poly>, AllocError>
    requires column { x < p.now.dims }
    requires form { length form.now.coefficients ≡ p.now.dims }
    requires without { entry (form_row form.now) (suc x) ≡ pos 0 }
    ensures { IfOk result (λ made. IfSome made
        (IsPolyhedronOf p.now.dims (Image p.now.dims (suc x) (form_row form.now) (Con p.now.rows)))) }
{
    match extend_along(p, x)? {
        Some(free) => meet_form(free, x, form),
        None => Ok(None),
    }
}

// The image by what is at hand: by both lists, or by a coordinate that is forgotten and set. None only if both lists
// don't move.
fn find_image(p: &Poly, x: usize, form: &LinExpr, row: &Row) -> Result<Option<Poly>, AllocError>
    requires column { x < p.now.dims }
    requires form { length form.now.coefficients ≡ p.now.dims }
    requires row { row.now ≡ form_row form.now }
    ensures image { IfOk result (λ image. IfSome image
        (IsPolyhedronOf p.now.dims (Image p.now.dims (suc x) (form_row form.now) (Con p.now.rows)))) }
    ensures none { IfOk result (λ image. IfNone image (StaysFor (suc x) (form_row form.now) p.now)) }
{
    let _dims = p.dims(); // fact: the number of dimensions is a usize
    match move_forward(p, x + 1, row)? {
        Some(made) => Ok(Some(made)),
        None => {
            if row.get(x + 1) == 0 {
                forget_and_set(p, x, form)
            } else {
                Ok(None)
            }
        }
    }
}

// The image, if the generators are converted.
fn convert_image(p: &mut Poly, x: usize, form: &Row) -> Result<Outcome, AllocError>
    requires column { x < p.old.dims }
    requires form { length form.now ≡ suc p.old.dims }
    ensures dims { p.new.dims ≡ p.old.dims }
    ensures becomes { IfOk result (Becomes p.old.dims
        (Image p.old.dims (suc x) form.now (Con p.old.rows)) (ImageStrains (suc x) form.now p.old) p.new) }
    ensures forgotten { IfOk result (IfFlagged (λ _. IsForgetResult (suc x) p.old p.new)) }
    ensures unchanged { OnErr result (p.new ≡ p.old) }
{
    match assign_list(p.allocator(), p.generators(), x, form)? {
        Ok(list) => replace_or_forget(p, x, &list),
        Err(loss) => {
            give_up(p, x)?;
            Ok(Outcome::Flagged(loss))
        }
    }
}

/// Gives the coordinate x the form's value: becomes the set of its points, each with that value as coordinate x. If it
/// is flagged, the coordinate may be anything: it has at least those points. If the form has 1 or -1 at x nothing
/// is converted, unless a number passes the range or there is no point.
pub fn image(p: &mut Poly, x: usize, form: &LinExpr) -> Result<Outcome, AllocError>
    requires column { x < p.old.dims }
    requires form { length form.now.coefficients ≡ p.old.dims }
    ensures dims { p.new.dims ≡ p.old.dims }
    ensures becomes { IfOk result (Becomes p.old.dims
        (Image p.old.dims (suc x) (form_row form.now) (Con p.old.rows))
        (ImageStrains (suc x) (form_row form.now) p.old) p.new) }
    ensures forgotten { IfOk result (IfFlagged (λ _. IsForgetResult (suc x) p.old p.new)) }
    ensures stays { IfOk result (IfFlagged (λ _. StaysFor (suc x) (form_row form.now) p.old)) }
    ensures unchanged { OnErr result (p.new ≡ p.old) }
{
    let row = form.to_row(p.allocator())?;
    match find_image(p, x, form, &row)? {
        Some(made) => {
            *p = made;
            Ok(Outcome::Exact)
        }
        None => convert_image(p, x, &row),
    }
}

// The loss, or if there is none the outcome.
fn first_told(lost: Option<Loss>, outcome: Outcome) -> Outcome
    ensures none { lost ≡ None → result ≡ outcome }
    ensures some { (loss : strain.Loss) → lost ≡ Some loss → result ≡ Outcome.Flagged loss }
{
    match lost {
        None => outcome,
        Some(loss) => Outcome::Flagged(loss),
    }
}

// The preimage, if the constraints are converted.
fn convert_preimage(p: &mut Poly, x: usize, form: &Row) -> Result<Outcome, AllocError>
    requires column { x < p.old.dims }
    requires form { length form.now ≡ suc p.old.dims }
    ensures becomes { IfOk result (Becomes p.old.dims
        (Preimage (suc x) form.now (Con p.old.rows)) (PreimageStrains (suc x) form.now p.old) p.new) }
    ensures formed { IfOk result (λ _. IsOfFormed (suc x) form.now p.old p.new) }
    ensures unchanged { OnErr result (p.new ≡ p.old) }
{
    let formed = substitute_list(p.allocator(), p.rows(), x, form)?;
    let (made, outcome) = Poly::from_rows(p.allocator(), &formed.list)?;
    *p = made;
    Ok(first_told(formed.lost, outcome))
}

/// Becomes the set of the points that are brought into it when the coordinate x is given the form's value. If it is
/// flagged, it has at least those: constraints with which a number passes are left out. If the form has 1 or -1 at x
/// nothing is converted, unless a number passes the range or there is no point.
pub fn preimage(p: &mut Poly, x: usize, form: &LinExpr) -> Result<Outcome, AllocError>
    requires column { x < p.old.dims }
    requires form { length form.now.coefficients ≡ p.old.dims }
    ensures becomes { IfOk result (Becomes p.old.dims
        (Preimage (suc x) (form_row form.now) (Con p.old.rows))
        (PreimageStrains (suc x) (form_row form.now) p.old) p.new) }
    ensures stays { IfOk result (IfFlagged (λ _. StaysBackFor (suc x) (form_row form.now) p.old)) }
    ensures formed { IfOk result (IfFlagged (λ _. IsOfFormed (suc x) (form_row form.now) p.old p.new)) }
    ensures unchanged { OnErr result (p.new ≡ p.old) }
{
    let row = form.to_row(p.allocator())?;
    match move_back(p, x + 1, &row)? {
        Some(made) => {
            *p = made;
            Ok(Outcome::Exact)
        }
        None => convert_preimage(p, x, &row),
    }
}
