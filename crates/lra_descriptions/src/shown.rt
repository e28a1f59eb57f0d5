//! The lists that are shown of a cone.

ghost use Rattle.std.specs.Prelude.{◌≡◌, ◌++◌, ◌<◌, suc, pos, int_lt, length, replicate, IfOk, OnOk};
ghost use Rattle.std.specs.{List.All, List.Sorted.IsPermutation, List.Sorted.IsSorted, Ordering.is_eq};
ghost use Rattle.lra_descriptions.specs.Crates.lra_linear_spec.Polyhedra.{positivity};
ghost use Rattle.lra_descriptions.specs.Crates.lra_linear_spec.declared.GenKind.TheVariants.{Point, Ray, Line};
ghost use Rattle.lra_descriptions.specs.Crates.{lra_linear_spec.RowOrder.row_cmp, lra_linear_spec.Vectors.entry};
ghost use Rattle.lra_descriptions.specs.ShownLists.{points_of, directions_of, without, ShowsGenerators};
ghost use Rattle.lra_descriptions.specs.ShownLists.{ShowsConstraints};
ghost use Rattle.lra_systems.specs.Dimensions.{too_many_dimensions};

use lra_canonical::{Order, canonical_order};
use lra_systems::{ConKind, ConSys, GenKind, GenSys, Row};
use std::alloc::{AllocError, Global};

// Whether column 0 is above 0.
pub(crate) fn is_point(ray: &Row) -> bool
    requires { 0 < length ray.now }
    ensures { result ≡ int_lt (pos 0) (entry ray.now 0) }
{
    ray.get(0) > 0
}

// Whether the rows are equal.
pub(crate) fn are_same(row: &Row, other: &Row) -> bool
    ensures { result ≡ is_eq (row_cmp row.now other.now) }
{
    row.compare(other).is_eq()
}

// The rays above 0 in column 0.
fn points_among(alloc: Global, rays: &[Row]) -> Result<Vec<Row>, AllocError>
    requires { All (λ r. 0 < length r) rays.now }
    ensures { IfOk result (λ points. points.items ≡ points_of rays.now) }
{
    let mut points = Vec::new(alloc);
    for ray in rays {
        if is_point(ray) {
            points.push(ray.copy()?)?;
        }
    }
    Ok(points)
}

// The other rays.
fn directions_among(alloc: Global, rays: &[Row]) -> Result<Vec<Row>, AllocError>
    requires { All (λ r. 0 < length r) rays.now }
    ensures { IfOk result (λ directions. directions.items ≡ directions_of rays.now) }
{
    let mut directions = Vec::new(alloc);
    for ray in rays {
        if !is_point(ray) {
            directions.push(ray.copy()?)?;
        }
    }
    Ok(directions)
}

// The rows other than this one.
fn others(alloc: Global, rows: &[Row], row: &Row) -> Result<Vec<Row>, AllocError>
    ensures { IfOk result (λ others. others.items ≡ without row.now rows.now) }
{
    let mut others = Vec::new(alloc);
    for other in rows {
        if !are_same(other, row) {
            others.push(other.copy()?)?;
        }
    }
    Ok(others)
}

// The rows after what is there.
pub(crate) fn push_generators(
    list: &mut GenSys,
    rows: &[Row],
    kind: GenKind,
) -> Result<(), AllocError>
    requires { All (λ r. length r ≡ suc list.old.dims) rows.now }
    ensures dims { list.new.dims ≡ list.old.dims }
    ensures rows { OnOk result (list.new.rows ≡ list.old.rows ++ rows.now) }
    ensures kinds { OnOk result (list.new.kinds ≡ list.old.kinds ++ replicate (length rows.now) kind) }
{
    for row in rows {
        list.push_copy(row, kind)?;
    }
    Ok(())
}

// The same, of rows that are handed over.
fn move_generators(list: &mut GenSys, rows: Vec<Row>, kind: GenKind) -> Result<(), AllocError>
    requires { All (λ r. length r ≡ suc list.old.dims) rows.items }
    ensures dims { list.new.dims ≡ list.old.dims }
    ensures rows { OnOk result (list.new.rows ≡ list.old.rows ++ rows.items) }
    ensures kinds { OnOk result (list.new.kinds ≡ list.old.kinds ++ replicate (length rows.items) kind) }
{
    for row in rows {
        list.push(row, kind)?;
    }
    Ok(())
}

pub(crate) fn push_constraints(
    list: &mut ConSys,
    rows: &[Row],
    kind: ConKind,
) -> Result<(), AllocError>
    requires { All (λ r. length r ≡ suc list.old.dims) rows.now }
    ensures dims { list.new.dims ≡ list.old.dims }
    ensures rows { OnOk result (list.new.rows ≡ list.old.rows ++ rows.now) }
    ensures kinds { OnOk result (list.new.kinds ≡ list.old.kinds ++ replicate (length rows.now) kind) }
{
    for row in rows {
        list.push_copy(row, kind)?;
    }
    Ok(())
}

// The same, of rows that are handed over.
fn move_constraints(list: &mut ConSys, rows: Vec<Row>, kind: ConKind) -> Result<(), AllocError>
    requires { All (λ r. length r ≡ suc list.old.dims) rows.items }
    ensures dims { list.new.dims ≡ list.old.dims }
    ensures rows { OnOk result (list.new.rows ≡ list.old.rows ++ rows.items) }
    ensures kinds { OnOk result (list.new.kinds ≡ list.old.kinds ++ replicate (length rows.items) kind) }
{
    for row in rows {
        list.push(row, kind)?;
    }
    Ok(())
}

// The rays above 0 in column 0, in order.
fn ordered_points(alloc: Global, rays: &[Row]) -> Result<Vec<Row>, AllocError>
    requires { All (λ r. 0 < length r) rays.now }
    ensures same { IfOk result (λ points. IsPermutation (points_of rays.now) points.items) }
    ensures sorted { IfOk result (λ points. IsSorted row_cmp points.items) }
{
    let mut points = points_among(alloc, rays)?;
    canonical_order(&mut points, Order::Generators)?;
    Ok(points)
}

// The other rays, in order.
fn ordered_directions(alloc: Global, rays: &[Row]) -> Result<Vec<Row>, AllocError>
    requires { All (λ r. 0 < length r) rays.now }
    ensures same { IfOk result (λ directions. IsPermutation (directions_of rays.now) directions.items) }
    ensures sorted { IfOk result (λ directions. IsSorted row_cmp directions.items) }
{
    let mut directions = directions_among(alloc, rays)?;
    canonical_order(&mut directions, Order::Generators)?;
    Ok(directions)
}

// These points, then these rays, then these lines.
fn listed_generators(
    alloc: Global,
    n: usize,
    points: Vec<Row>,
    directions: Vec<Row>,
    lines: &[Row],
) -> Result<GenSys, AllocError>
    requires small { n < too_many_dimensions }
    requires points { All (λ r. length r ≡ suc n) points.items }
    requires directions { All (λ r. length r ≡ suc n) directions.items }
    requires lines { All (λ r. length r ≡ suc n) lines.now }
    ensures dims { IfOk result (λ list. list.dims ≡ n) }
    ensures rows { IfOk result (λ list. list.rows ≡ (points.items ++ directions.items) ++ lines.now) }
    ensures kinds { IfOk result (λ list. list.kinds ≡ (replicate (length points.items) Point
        ++ replicate (length directions.items) Ray) ++ replicate (length lines.now) Line) }
{
    let mut list = GenSys::new(alloc, n);
    move_generators(&mut list, points, GenKind::Point)?;
    move_generators(&mut list, directions, GenKind::Ray)?;
    push_generators(&mut list, lines, GenKind::Line)?;
    Ok(list)
}

/// The points, rays and lines, each in order, of a cone of n + 1 columns with these lines and rays; none if no ray
/// is above 0 in column 0.
pub fn generator_list(
    alloc: Global,
    n: usize,
    lines: &[Row],
    rays: &[Row],
) -> Result<GenSys, AllocError>
    requires small { n < too_many_dimensions }
    requires lines { All (λ r. length r ≡ suc n) lines.now }
    requires rays { All (λ r. length r ≡ suc n) rays.now }
    ensures dims { IfOk result (λ list. list.dims ≡ n) }
    ensures shown { IfOk result (ShowsGenerators lines.now rays.now) }
{
    let points = ordered_points(alloc, rays)?;
    if points.is_empty() {
        return Ok(GenSys::new(alloc, n));
    }
    let directions = ordered_directions(alloc, rays)?;
    listed_generators(alloc, n, points, directions, lines)
}

/// The lines as equalities, then the rays but this one, in order, as inequalities.
pub fn constraint_list(
    alloc: Global,
    lines: &[Row],
    rays: &[Row],
    left_out: &Row,
    n: usize,
) -> Result<ConSys, AllocError>
    requires small { n < too_many_dimensions }
    requires lines { All (λ r. length r ≡ suc n) lines.now }
    requires rays { All (λ r. length r ≡ suc n) rays.now }
    requires left_out { left_out.now ≡ positivity n }
    ensures dims { IfOk result (λ list. list.dims ≡ n) }
    ensures shown { IfOk result (ShowsConstraints n lines.now rays.now) }
{
    let mut list = ConSys::new(alloc, n);
    let mut inequalities = others(alloc, rays, left_out)?;
    canonical_order(&mut inequalities, Order::Inequalities)?;
    push_constraints(&mut list, lines, ConKind::Eq)?;
    move_constraints(&mut list, inequalities, ConKind::Ge)?;
    Ok(list)
}
