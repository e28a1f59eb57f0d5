//! Both lists of a polyhedron under a form that can be inverted, each made canonical again.

ghost use Rattle.std.specs.List.{Contains};
ghost use Rattle.std.specs.Prelude.{◌≡◌, ◌↔◌, ◌<◌, ◌++◌, ◌∷◌, [], IsTrue, cond, suc, pos, negsuc, map, length};
ghost use Rattle.std.specs.Prelude.{slice_set, Err, IfErr, IfOk, IfSome, IfNone, OnOk};
ghost use Rattle.lra_mapped_systems.specs.Crates.lra_canonical.Echelons.{HaveWidth};
ghost use Rattle.lra_mapped_systems.specs.Crates.lra_linear_spec.CheckedArithmetic.{checked_product};
ghost use Rattle.lra_mapped_systems.specs.Crates.lra_linear_spec.CheckedArithmetic.{checked_substitution};
ghost use Rattle.lra_mapped_systems.specs.Crates.lra_linear_spec.Descriptions.{LinearRow, lines_of, rays_of};
ghost use Rattle.lra_mapped_systems.specs.Crates.lra_linear_spec.Echelon.{IsEchelonOf};
ghost use Rattle.lra_mapped_systems.specs.Crates.lra_linear_spec.SetOperations.{assigned};
ghost use Rattle.lra_mapped_systems.specs.Crates.lra_linear_spec.Vectors.{entry, negated, substituted};
ghost use Rattle.lra_mapped_systems.specs.Moving.{IsInverse, IsSubstitutedList, IsAssignedList, AssignmentPasses};
ghost use Rattle.lra_mapped_systems.specs.Moving.{CanonicalPasses, HasUnit, OnExcess, SubstitutionPasses};
ghost use Rattle.lra_description_pair.specs.OwnLists.{AreReducedBy};
ghost use Rattle.lra_systems.specs.Dimensions.{too_many_dimensions};
ghost use Rattle.lra_systems.specs.LinearSystems.{constraints, generators};

use crate::forming::assign_row;
use lra_description_pair::{Own, all_reduced, constraint_list, echelon, generator_list};
use lra_systems::{ConSys, GenSys, Row, RowError, unit};
use std::alloc::{AllocError, Global};

fn is_one(row: &Row, column: usize) -> bool
    requires { column < length row.now }
    ensures { IsTrue result ↔ (entry row.now column ≡ pos 1) }
{
    row.get(column) == 1
}

fn is_minus_one(row: &Row, column: usize) -> bool
    requires { column < length row.now }
    ensures { IsTrue result ↔ (entry row.now column ≡ negsuc 0) }
{
    row.get(column) == -1
}

// The opposite form, with 1 at the column again.
fn opposite_but(alloc: Global, form: &Row, column: usize) -> Result<Row, AllocError>
    requires { column < length form.now }
    ensures { IfOk result (λ row. row ≡ slice_set (negated form.now) column (pos 1)) }
{
    let opposite = form.negate()?;
    let mut numbers = Vec::from_slice(alloc, opposite.entries())?;
    numbers[column] = 1;
    let row = Row::from_slice(alloc, numbers.as_slice())?;
    Ok(row)
}

/// The form that takes the form back; none if that has neither 1 nor -1 at the column.
pub fn invert(alloc: Global, form: &Row, column: usize) -> Result<Option<Row>, AllocError>
    requires { column < length form.now }
    ensures back { IfOk result (λ back. IfSome back (IsInverse column (length form.now) form.now)) }
    ensures none { IfOk result (λ back. IfNone back (¬ (HasUnit column form.now))) }
{
    if is_minus_one(form, column) {
        let same = form.copy()?;
        return Ok(Some(same));
    }
    if is_one(form, column) {
        let opposite = opposite_but(alloc, form, column)?;
        return Ok(Some(opposite));
    }
    Ok(None)
}

// Takes the row in after the lines, or after the rays.
fn push_part(parts: &mut Own, row: Row, is_line: bool) -> Result<(), AllocError>
    ensures lines { OnOk result (parts.new.lines.items ≡ parts.old.lines.items ++ cond is_line (row ∷ []) []) }
    ensures rays { OnOk result (parts.new.rays.items ≡ parts.old.rays.items ++ cond is_line [] (row ∷ [])) }
{
    if is_line {
        parts.lines.push(row)?;
    } else {
        parts.rays.push(row)?;
    }
    Ok(())
}

// The constraints with the form put in for the column, equalities apart.
fn substitute_parts(
    alloc: Global,
    list: &ConSys,
    column: usize,
    form: &Row,
) -> Result<Own, RowError>
    requires column { column < suc list.now.dims }
    requires width { length form.now ≡ suc list.now.dims }
    ensures lines { IfOk result (λ parts. parts.lines.items ≡
        map (substituted column form.now) (lines_of (constraints list.now))) }
    ensures rays { IfOk result (λ parts. parts.rays.items ≡
        map (substituted column form.now) (rays_of (constraints list.now))) }
    ensures excess { IfErr result
        (OnExcess (λ e. (g : LinearRow) × Contains (constraints list.now) g ×
        (checked_substitution column form.now g.row ≡ Err e))) }
{
    let mut parts = Own {
        lines: Vec::new(alloc),
        rays: Vec::new(alloc),
    };
    let (rows, kinds) = (list.rows(), list.kinds());
    for place in 0..rows.len() {
        let row = rows[place].substitute(column, form)?;
        push_part(&mut parts, row, kinds[place].is_equality())?;
    }
    Ok(parts)
}

// The generators with the form's value in the column, lines apart.
fn assign_parts(alloc: Global, list: &GenSys, column: usize, form: &Row) -> Result<Own, RowError>
    requires column { column < suc list.now.dims }
    requires width { length form.now ≡ suc list.now.dims }
    ensures lines { IfOk result (λ parts. parts.lines.items ≡
        map (assigned column form.now) (lines_of (generators list.now))) }
    ensures rays { IfOk result (λ parts. parts.rays.items ≡
        map (assigned column form.now) (rays_of (generators list.now))) }
    ensures excess { IfErr result
        (OnExcess (λ e. (g : LinearRow) × Contains (generators list.now) g ×
        (checked_product form.now g.row ≡ Err e))) }
{
    let mut parts = Own {
        lines: Vec::new(alloc),
        rays: Vec::new(alloc),
    };
    let (rows, kinds) = (list.rows(), list.kinds());
    for place in 0..rows.len() {
        let row = assign_row(alloc, &rows[place], column, form)?;
        push_part(&mut parts, row, kinds[place].goes_both_ways())?;
    }
    Ok(parts)
}

// The lines in echelon form, and the rays reduced by it.
fn remake(alloc: Global, parts: Own, width: usize) -> Result<Own, RowError>
    requires wide { 0 < width }
    requires lines { HaveWidth width parts.lines.items }
    requires rays { HaveWidth width parts.rays.items }
    ensures form { IfOk result (λ made. IsEchelonOf made.lines.items parts.lines.items) }
    ensures reduced { IfOk result (λ made. AreReducedBy made.lines.items parts.rays.items made.rays.items) }
    ensures line_widths { IfOk result (λ made. HaveWidth width made.lines.items) }
    ensures ray_widths { IfOk result (λ made. HaveWidth width made.rays.items) }
    ensures excess { IfErr result (OnExcess (CanonicalPasses parts.lines.items parts.rays.items)) }
{
    let Own { mut lines, rays } = parts;
    echelon(&mut lines)?;
    let rays = all_reduced(alloc, &rays, &lines, width)?;
    Ok(Own { lines, rays })
}

/// The constraints with the form put in for the column, as a canonical list. Or names a number that passes the range.
pub fn substitute_canonically(
    alloc: Global,
    list: &ConSys,
    column: usize,
    form: &Row,
) -> Result<ConSys, RowError>
    requires small { list.now.dims < too_many_dimensions }
    requires column { column < suc list.now.dims }
    requires width { length form.now ≡ suc list.now.dims }
    ensures dims { IfOk result (λ made. made.dims ≡ list.now.dims) }
    ensures made { IfOk result (IsSubstitutedList list.now.dims column form.now (constraints list.now)) }
    ensures excess { IfErr result (OnExcess (SubstitutionPasses column form.now (constraints list.now))) }
{
    let (n, _rows) = (list.dims(), list.rows());
    let parts = substitute_parts(alloc, list, column, form)?;
    let own = remake(alloc, parts, n + 1)?;
    let positivity = unit(alloc, n, 0)?;
    let made = constraint_list(alloc, &own.lines, &own.rays, &positivity, n)?;
    Ok(made)
}

/// The generators with the form's value in the column, as a canonical list. Or names a number that passes the range.
pub fn assign_canonically(
    alloc: Global,
    list: &GenSys,
    column: usize,
    form: &Row,
) -> Result<GenSys, RowError>
    requires small { list.now.dims < too_many_dimensions }
    requires column { column < suc list.now.dims }
    requires width { length form.now ≡ suc list.now.dims }
    ensures dims { IfOk result (λ made. made.dims ≡ list.now.dims) }
    ensures made { IfOk result (IsAssignedList list.now.dims column form.now (generators list.now)) }
    ensures excess { IfErr result (OnExcess (AssignmentPasses column form.now (generators list.now))) }
{
    let (n, _rows) = (list.dims(), list.rows());
    let parts = assign_parts(alloc, list, column, form)?;
    let own = remake(alloc, parts, n + 1)?;
    let made = generator_list(alloc, n, &own.lines, &own.rays)?;
    Ok(made)
}
