//! The cone of what is valid on a polyhedron's generators, from its two lists, with no conversion.

ghost use Rattle.std.specs.Prelude.{◌≡◌, ◌≢◌, ◌↔◌, ◌+◌, ◌<◌, ◌≤◌, ◌∷◌, ◌++◌, [], length, List, IsTrue, IfOk, IfSome};
ghost use Rattle.std.specs.Prelude.{IfNone};
ghost use Rattle.lra_duality.specs.Crates.lra_linear_spec.ConeStrain.{row_limit};
ghost use Rattle.lra_duality.specs.Crates.lra_linear_spec.Descriptions.{LinearRow, lines_of, rays_of};
ghost use Rattle.lra_duality.specs.Crates.lra_linear_spec.Polyhedra.{IsPolyhedron};
ghost use Rattle.lra_duality.specs.Crates.lra_systems.Dimensions.{too_many_dimensions};
ghost use Rattle.lra_duality.specs.Crates.lra_systems.LinearSystems.{constraints, generators};
ghost use Rattle.lra_cone.specs.Cones.{IsCone, cone_saturation as by_rays};
ghost use Rattle.lra_duality.specs.Incremental.{MayTurn};
ghost use Rattle.lra_duality.specs.Saturations.{saturation_of, IsCovered, IsCoveredAt};

use crate::saturation::mark_saturated;
use crate::start::{fits, leaves_room};
use lra_cone::{ConKind, ConSys, Cone};
use lra_descriptions::{BitRow, GenSys, SatMatrix, dual_rows, unit};
use lra_row::Row;
use std::alloc::{AllocError, Global};

// The equalities among the constraints.
fn equalities_among(alloc: Global, list: &ConSys) -> Result<Vec<Row>, AllocError>
    ensures { IfOk result (λ lines. lines.items ≡ lines_of (constraints list.now)) }
{
    let (rows, kinds) = (list.rows(), list.kinds());
    let mut lines = Vec::new(alloc);
    for place in 0..rows.len() {
        let row = &rows[place];
        if kinds[place].is_equality() {
            lines.push(row.copy()?)?;
        }
    }
    Ok(lines)
}

// The inequalities among them.
fn inequalities_among(alloc: Global, list: &ConSys) -> Result<Vec<Row>, AllocError>
    ensures { IfOk result (λ rays. rays.items ≡ rays_of (constraints list.now)) }
{
    let (rows, kinds) = (list.rows(), list.kinds());
    let mut rays = Vec::new(alloc);
    for place in 0..rows.len() {
        let row = &rows[place];
        if !kinds[place].is_equality() {
            rays.push(row.copy()?)?;
        }
    }
    Ok(rays)
}

// Which generators the inequalities are tight at.
fn inequality_saturation(
    alloc: Global,
    list: &ConSys,
    saturation: &SatMatrix,
) -> Result<SatMatrix, AllocError>
    requires { length saturation.now.rows ≡ length list.now.rows }
    ensures { IfOk result (λ matrix. (generators : List LinearRow) →
        saturation.now ≡ saturation_of (constraints list.now) generators →
        matrix ≡ by_rays generators (rays_of (constraints list.now))) }
{
    let kinds = list.kinds();
    let mut matrix = SatMatrix::new(alloc, saturation.width());
    for place in 0..kinds.len() {
        if !kinds[place].is_equality() {
            matrix.add_row(saturation.row(place).copy()?)?;
        }
    }
    Ok(matrix)
}

// Whether the constraint at the place is an inequality that is tight wherever the values say.
#[tactic(auto, using(crate::proofs::FacetLemmas::covered_no, crate::proofs::FacetLemmas::covered_yes))]
fn covers(kinds: &[ConKind], saturation: &SatMatrix, values: &BitRow, place: usize) -> bool
    requires place { place < length kinds.now }
    requires rows { length saturation.now.rows ≡ length kinds.now }
    requires width { length values.now ≡ saturation.now.width }
    ensures { IsTrue result ↔ IsCoveredAt kinds.now saturation.now.rows values.now place }
{
    if kinds[place].is_equality() {
        return false;
    }
    values.subset(saturation.row(place))
}

// Whether some inequality is.
fn is_covered(kinds: &[ConKind], saturation: &SatMatrix, values: &BitRow) -> bool
    requires rows { length saturation.now.rows ≡ length kinds.now }
    requires width { length values.now ≡ saturation.now.width }
    ensures { IsTrue result ↔ IsCovered kinds.now saturation.now.rows values.now }
{
    for place in 0..kinds.len() {
        if covers(kinds, saturation, values, place) {
            return true;
        }
    }
    false
}

// The rays with a further one, and the matrix with its values.
fn with_row(
    mut rays: Vec<Row>,
    mut matrix: SatMatrix,
    row: Row,
    values: BitRow,
) -> Result<(Vec<Row>, SatMatrix), AllocError>
    requires { length values ≡ matrix.width }
    ensures rays { IfOk result (λ r. r.0.items ≡ rays.items ++ row ∷ []) }
    ensures matrix { IfOk result (λ r. r.1 ≡ record matrix { rows = matrix.rows ++ values ∷ [] }) }
{
    rays.push(row)?;
    matrix.add_row(values)?;
    Ok((rays, matrix))
}

// The rays of the cone of what is valid on the generators, and which generators they are tight at: the inequalities,
// and the positivity row if none of them is tight wherever it is.
fn facets(
    alloc: Global,
    list: &ConSys,
    by_generators: &GenSys,
    saturation: &SatMatrix,
) -> Result<(Vec<Row>, SatMatrix), AllocError>
    requires small { list.now.dims < too_many_dimensions }
    requires dims { by_generators.now.dims ≡ list.now.dims }
    requires polyhedron { IsPolyhedron (record {
      dims = list.now.dims;
      rows = constraints list.now;
      generators = generators by_generators.now;
    }) }
    requires some { generators by_generators.now ≢ [] }
    requires few { length list.now.rows + 1 ≤ row_limit }
    requires saturation { saturation.now ≡ saturation_of (constraints list.now) (generators by_generators.now) }
    ensures cone { IfOk result (λ r. IsCone (record {
      dims = list.now.dims;
      taken = generators by_generators.now;
      lines = lines_of (constraints list.now);
      rays = r.0.items;
    })) }
    ensures saturation { IfOk result (λ r. r.1 ≡ by_rays (generators by_generators.now) r.0.items) }
{
    let n = list.dims();
    let (_rows, kinds) = (list.rows(), list.kinds()); // fact: the rows are in the range, each as wide as the list
    let positivity = unit(alloc, n, 0)?;
    let directions = mark_saturated(alloc, &positivity, by_generators)?;
    let rays = inequalities_among(alloc, list)?;
    let matrix = inequality_saturation(alloc, list, saturation)?;
    if is_covered(kinds, saturation, &directions) {
        return Ok((rays, matrix));
    }
    let whole = with_row(rays, matrix, positivity, directions)?;
    Ok(whole)
}

/// The cone of what is valid on the generators, by the constraints; none if `cone_of` gives none, or there are as
/// many constraints, equalities counted with them, as a cone may have rays. The positivity row is one of its rays if
/// no inequality is tight wherever it is.
pub fn facet_cone(
    alloc: Global,
    list: &ConSys,
    by_generators: &GenSys,
    saturation: &SatMatrix,
) -> Result<Option<Cone>, AllocError>
    requires dims { by_generators.now.dims ≡ list.now.dims }
    requires polyhedron { IsPolyhedron (record {
      dims = list.now.dims;
      rows = constraints list.now;
      generators = generators by_generators.now;
    }) }
    requires saturation { saturation.now ≡ saturation_of (constraints list.now) (generators by_generators.now) }
    ensures small { IfOk result (λ cone. IfSome cone (λ _. list.now.dims < too_many_dimensions)) }
    ensures dims { IfOk result (λ cone. IfSome cone (λ c. c.dims ≡ list.now.dims)) }
    ensures taken { IfOk result (λ cone. IfSome cone (λ c. c.taken ≡ generators by_generators.now)) }
    ensures some { IfOk result (λ cone. IfSome cone (λ _. generators by_generators.now ≢ [])) }
    ensures none { IfOk result (λ cone. IfNone cone
        (¬ (MayTurn list.now.dims (constraints list.now) (generators by_generators.now)))) }
{
    let (columns, _column_kinds) = (by_generators.rows(), by_generators.kinds());
    let (rows, _kinds) = (list.rows(), list.kinds());
    if !fits(list.dims(), columns.len()) {
        return Ok(None);
    }
    if !leaves_room(rows.len()) {
        return Ok(None);
    }
    let taken = dual_rows(alloc, by_generators)?;
    let lines = equalities_among(alloc, list)?;
    let (rays, matrix) = facets(alloc, list, by_generators, saturation)?;
    let cone = Cone::of_lists(taken, lines, rays, matrix);
    Ok(Some(cone))
}
