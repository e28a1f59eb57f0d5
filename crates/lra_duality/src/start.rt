//! The cone of a polyhedron from its two lists, with no conversion.

ghost use Rattle.std.specs.Ordering.{int_eq};
ghost use Rattle.std.specs.Prelude.{◌≡◌, ◌∷◌, ◌+◌, ◌<◌, ◌≤◌, suc, pos, length, List, IsTrue, IfOk, IfSome, IfNone};
ghost use Rattle.lra_duality.specs.Crates.lra_linear_spec.Descriptions.{LinearRow, inequality, lines_of, rays_of};
ghost use Rattle.lra_duality.specs.Crates.lra_linear_spec.Polyhedra.{IsPolyhedron, positivity};
ghost use Rattle.lra_duality.specs.Crates.lra_systems.LinearSystems.{constraints, generators};
ghost use Rattle.lra_duality.specs.Crates.{lra_bits.TruthValues.value_at, lra_linear_spec.ConeStrain.row_limit};
ghost use Rattle.lra_duality.specs.Crates.{lra_linear_spec.Vectors.entry, lra_systems.Dimensions.too_many_dimensions};
ghost use Rattle.lra_cone.specs.Cones.{cone_saturation as by_rays};
ghost use Rattle.lra_duality.specs.{Incremental.MayGoOn, Saturations.column, Saturations.saturation_of};

use crate::lists::join_rows;
use lra_cone::{ConKind, ConSys, Cone, RAY_LIMIT};
use lra_descriptions::{BitRow, GenSys, SatMatrix, TOO_MANY_DIMENSIONS, unit};
use lra_row::Row;
use std::alloc::{AllocError, Global};

// The lines among the generators.
fn lines_among(alloc: Global, list: &GenSys) -> Result<Vec<Row>, AllocError>
    ensures { IfOk result (λ lines. lines.items ≡ lines_of (generators list.now)) }
{
    let (rows, kinds) = (list.rows(), list.kinds());
    let mut lines = Vec::with_capacity(alloc, rows.len())?;
    for place in 0..rows.len() {
        let row = &rows[place];
        if kinds[place].goes_both_ways() {
            lines.push(row.copy()?)?;
        }
    }
    Ok(lines)
}

// The points and rays among them.
fn rays_among(alloc: Global, list: &GenSys) -> Result<Vec<Row>, AllocError>
    ensures { IfOk result (λ rays. rays.items ≡ rays_of (generators list.now)) }
{
    let (rows, kinds) = (list.rows(), list.kinds());
    let mut rays = Vec::with_capacity(alloc, rows.len())?;
    for place in 0..rows.len() {
        let row = &rows[place];
        if !kinds[place].goes_both_ways() {
            rays.push(row.copy()?)?;
        }
    }
    Ok(rays)
}

// At the generator at the place: the value of the positivity row first, then those of the constraints.
fn value_of(saturation: &SatMatrix, place: usize, first: bool, k: usize) -> bool
    requires inside { place < saturation.now.width }
    requires row { k ≤ length saturation.now.rows }
    ensures { result ≡ value_at (first ∷ column saturation.now place) k }
{
    if k == 0 {
        first
    } else {
        saturation.row(k - 1).get(place)
    }
}

// All of them.
fn values_of(
    alloc: Global,
    saturation: &SatMatrix,
    place: usize,
    first: bool,
    width: usize,
) -> Result<BitRow, AllocError>
    requires inside { place < saturation.now.width }
    requires width { width ≡ suc (length saturation.now.rows) }
    ensures { IfOk result (λ bits. bits ≡ first ∷ column saturation.now place) }
{
    let mut bits = BitRow::new(alloc, width)?;
    for k in 0..width {
        bits.set(k, value_of(saturation, place, first, k));
    }
    Ok(bits)
}

// Whether the positivity row is tight at the generator, as it is at rays and lines.
fn is_direction(generator: &Row) -> bool
    requires { 0 < length generator.now }
    ensures { result ≡ int_eq (entry generator.now 0) (pos 0) }
{
    generator.get(0) == 0
}

// Which of the positivity row and the constraints are tight at which points and rays.
fn ray_saturation(
    alloc: Global,
    list: &GenSys,
    saturation: &SatMatrix,
) -> Result<SatMatrix, AllocError>
    requires { saturation.now.width ≡ length list.now.rows }
    ensures { IfOk result
        (λ matrix. (rows : List LinearRow) → saturation.now ≡ saturation_of rows (generators list.now) →
        matrix ≡ by_rays (inequality (positivity list.now.dims) ∷ rows) (rays_of (generators list.now))) }
{
    let Some(width) = saturation.height().checked_add(1) else {
        return Err(AllocError);
    };
    let (rows, kinds) = (list.rows(), list.kinds());
    let mut matrix = SatMatrix::new(alloc, width);
    for place in 0..rows.len() {
        let first = is_direction(&rows[place]);
        if !kinds[place].goes_both_ways() {
            matrix.add_row(values_of(alloc, saturation, place, first, width)?)?;
        }
    }
    Ok(matrix)
}

// The constraints, after the positivity row.
fn behind_positivity(alloc: Global, list: &ConSys) -> Result<ConSys, AllocError>
    requires { list.now.dims < too_many_dimensions }
    ensures dims { IfOk result (λ taken. taken.dims ≡ list.now.dims) }
    ensures taken { IfOk result (λ taken. constraints taken ≡
        inequality (positivity list.now.dims) ∷ constraints list.now) }
{
    let n = list.dims();
    let mut first = ConSys::new(alloc, n);
    let positivity = unit(alloc, n, 0)?;
    first.push(positivity, ConKind::Ge)?;
    join_rows(&first, list)
}

/// Whether a cone of n dimensions may be made of so many generators, lines counted with them.
pub fn fits(n: usize, count: usize) -> bool
    ensures small { IsTrue result → n < too_many_dimensions }
    ensures some { IsTrue result → 0 < count }
    ensures few { IsTrue result → count ≤ row_limit }
    ensures fits { n < too_many_dimensions → 0 < count → count ≤ row_limit → IsTrue result }
{
    n < TOO_MANY_DIMENSIONS && count > 0 && count <= RAY_LIMIT
}

/// Whether a cone may be made of so many constraints, equalities counted with them, and one more.
pub fn leaves_room(count: usize) -> bool
    ensures room { IsTrue result → count + 1 ≤ row_limit }
    ensures leaves { count + 1 ≤ row_limit → IsTrue result }
{
    count < RAY_LIMIT
}

/// The cone of the constraints, by these generators; none if there is no generator, or are more, lines counted with
/// them, than a cone may have rays, or too many dimensions.
pub fn cone_of(
    alloc: Global,
    list: &ConSys,
    by_generators: &GenSys,
    saturation: &SatMatrix,
) -> Result<Option<Cone>, AllocError>
    requires dims { by_generators.now.dims ≡ list.now.dims }
    requires polyhedron { IsPolyhedron (record {
      dims = list.now.dims;
      rows = constraints list.now;
      generators = generators by_generators.now;
    }) }
    requires saturation { saturation.now ≡ saturation_of (constraints list.now) (generators by_generators.now) }
    ensures small { IfOk result (λ cone. IfSome cone (λ _. list.now.dims < too_many_dimensions)) }
    ensures dims { IfOk result (λ cone. IfSome cone (λ c. c.dims ≡ list.now.dims)) }
    ensures taken { IfOk result (λ cone. IfSome cone (λ c. c.taken ≡
        inequality (positivity list.now.dims) ∷ constraints list.now)) }
    ensures some { IfOk result (λ cone. IfSome cone (λ _. MayGoOn list.now.dims (generators by_generators.now))) }
    ensures none { IfOk result (λ cone. IfNone cone (¬ (MayGoOn list.now.dims (generators by_generators.now)))) }
{
    let (columns, _kinds) = (by_generators.rows(), by_generators.kinds());
    if !fits(list.dims(), columns.len()) {
        return Ok(None);
    }
    let taken = behind_positivity(alloc, list)?;
    let lines = lines_among(alloc, by_generators)?;
    let rays = rays_among(alloc, by_generators)?;
    let matrix = ray_saturation(alloc, by_generators, saturation)?;
    let cone = Cone::of_lists(taken, lines, rays, matrix);
    Ok(Some(cone))
}
