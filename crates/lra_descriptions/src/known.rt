//! The lists that are shown of a cone, and the rows of a matrix that go with their rows.

ghost use Rattle.std.specs.Prelude.{◌≡◌, ◌++◌, ◌∷◌, [], ◌<◌, ◌≤◌, suc, length, replicate, IfOk, OnOk, ℕ, ℤ, Bool, true};
ghost use Rattle.std.specs.{List.All, Prelude.cond, Prelude.List};
ghost use Rattle.lra_descriptions.specs.Crates.lra_linear_spec.Polyhedra.{positivity};
ghost use Rattle.lra_descriptions.specs.Crates.lra_linear_spec.declared.GenKind.TheVariants.{Point, Ray, Line};
ghost use Rattle.lra_systems.specs.Dimensions.{too_many_dimensions};
ghost use Rattle.lra_canonical.specs.MarkedRows.{bits_in, rows_in, AreToldBy};
ghost use Rattle.lra_descriptions.specs.ShownLists.{points_of, directions_of, without, ShowsConstraints};
ghost use Rattle.lra_descriptions.specs.{ShownLists.ShowsGenerators, Tightness.GoesWith, Tightness.TellsFirst};

use crate::shown::{are_same, is_point, push_constraints, push_generators};
use lra_canonical::{BitRow, Marked, Order, SatMatrix, order_marked};
use lra_systems::{ConKind, ConSys, GenKind, GenSys, Row};
use std::alloc::{AllocError, Global};

/// Constraints, and a row of the matrix for each.
#[derive(Drop)]
pub struct KnownConstraints {
    pub list: ConSys,
    pub matrix: SatMatrix,
}

/// Generators, and a row of the matrix for each.
#[derive(Drop)]
pub struct KnownGenerators {
    pub list: GenSys,
    pub matrix: SatMatrix,
}

// The rows, each with its row of the matrix.
fn mark_rows(alloc: Global, rows: &[Row], matrix: SatMatrix) -> Result<Vec<Marked>, AllocError>
    requires { length rows.now ≤ length matrix.rows }
    ensures rows { IfOk result (λ marked. rows_in marked.items ≡ rows.now) }
    ensures told { IfOk result (λ marked. (told : List ℤ → List Bool) →
        TellsFirst told rows.now matrix → AreToldBy told marked.items) }
    ensures widths { IfOk result (λ marked. All (λ m. length m.bits ≡ matrix.width) marked.items) }
{
    let mut values = matrix.into_rows();
    values.truncate(rows.len());
    let mut marked = Vec::with_capacity(alloc, rows.len())?;
    'each: for bits in values {
        let place = marked.len();
        let row = rows[place].copy()?;
        marked.push(Marked { row, bits })?;
    }
    Ok(marked)
}

// The rows other than this one.
fn mark_others(
    alloc: Global,
    marked: Vec<Marked>,
    left_out: &Row,
) -> Result<Vec<Marked>, AllocError>
    ensures rows { IfOk result (λ others.
        rows_in others.items ≡ without left_out.now (rows_in marked.items)) }
    ensures told { IfOk result (λ others. (told : List ℤ → List Bool) →
        AreToldBy told marked.items → AreToldBy told others.items) }
    ensures widths { IfOk result (λ others. (w : ℕ) → All (λ m. length m.bits ≡ w) marked.items →
        All (λ m. length m.bits ≡ w) others.items) }
{
    let mut others = Vec::with_capacity(alloc, marked.len())?;
    'each: for ray in marked {
        if !are_same(&ray.row, left_out) {
            others.push(ray)?;
        }
    }
    Ok(others)
}

// The rays above 0 in column 0, and the others.
#[derive(Drop)]
struct Parted {
    points: Vec<Marked>,
    directions: Vec<Marked>,
}

// Takes the ray in after the points, or after the directions.
fn push_part(parts: &mut Parted, ray: Marked, above: bool) -> Result<(), AllocError>
    ensures points { OnOk result (parts.new.points.items ≡
        parts.old.points.items ++ cond above (ray ∷ []) []) }
    ensures directions { OnOk result (parts.new.directions.items ≡
        parts.old.directions.items ++ cond above [] (ray ∷ [])) }
{
    if above {
        parts.points.push(ray)?;
    } else {
        parts.directions.push(ray)?;
    }
    Ok(())
}

// The rays in their parts.
fn part_rays(alloc: Global, marked: Vec<Marked>) -> Result<Parted, AllocError>
    requires { All (λ m. 0 < length m.row) marked.items }
    ensures points { IfOk result (λ parts.
        rows_in parts.points.items ≡ points_of (rows_in marked.items)) }
    ensures directions { IfOk result (λ parts.
        rows_in parts.directions.items ≡ directions_of (rows_in marked.items)) }
    ensures told { IfOk result (λ parts. (told : List ℤ → List Bool) → AreToldBy told marked.items →
        AreToldBy told parts.points.items × AreToldBy told parts.directions.items) }
    ensures widths { IfOk result (λ parts. (w : ℕ) → All (λ m. length m.bits ≡ w) marked.items →
        All (λ m. length m.bits ≡ w) parts.points.items ×
        All (λ m. length m.bits ≡ w) parts.directions.items) }
{
    let mut parts = Parted {
        points: Vec::new(alloc),
        directions: Vec::new(alloc),
    };
    'each: for ray in marked {
        let above = is_point(&ray.row);
        push_part(&mut parts, ray, above)?;
    }
    Ok(parts)
}

// So many rows that are all true, after what is there.
fn push_true_rows(matrix: &mut SatMatrix, alloc: Global, count: usize) -> Result<(), AllocError>
    ensures width { OnOk result (matrix.new.width ≡ matrix.old.width) }
    ensures matrix { OnOk result (matrix.new ≡ record matrix.old
        { rows = matrix.old.rows ++ replicate count (replicate matrix.old.width true) }) }
{
    let width = matrix.width();
    for _ in 0..count {
        matrix.add_row(BitRow::all_true(alloc, width)?)?;
    }
    Ok(())
}

// Marked rows after what is there: the rows after those of the list, what goes with them after those of the matrix.
fn append_generators(
    list: &mut GenSys,
    matrix: &mut SatMatrix,
    marked: Vec<Marked>,
    kind: GenKind,
) -> Result<(), AllocError>
    requires rows { All (λ m. length m.row ≡ suc list.old.dims) marked.items }
    requires bits { All (λ m. length m.bits ≡ matrix.old.width) marked.items }
    ensures dims { list.new.dims ≡ list.old.dims }
    ensures width { OnOk result (matrix.new.width ≡ matrix.old.width) }
    ensures rows { OnOk result (list.new.rows ≡ list.old.rows ++ rows_in marked.items) }
    ensures kinds { OnOk result
        (list.new.kinds ≡ list.old.kinds ++ replicate (length marked.items) kind) }
    ensures matrix { OnOk result (matrix.new ≡ record matrix.old
        { rows = matrix.old.rows ++ bits_in marked.items }) }
{
    'each: for ray in marked {
        let Marked { row, bits } = ray;
        list.push(row, kind)?;
        matrix.add_row(bits)?;
    }
    Ok(())
}

// Appends marked constraints, as `append_generators` does generators.
fn append_constraints(
    list: &mut ConSys,
    matrix: &mut SatMatrix,
    marked: Vec<Marked>,
    kind: ConKind,
) -> Result<(), AllocError>
    requires rows { All (λ m. length m.row ≡ suc list.old.dims) marked.items }
    requires bits { All (λ m. length m.bits ≡ matrix.old.width) marked.items }
    ensures dims { list.new.dims ≡ list.old.dims }
    ensures width { OnOk result (matrix.new.width ≡ matrix.old.width) }
    ensures rows { OnOk result (list.new.rows ≡ list.old.rows ++ rows_in marked.items) }
    ensures kinds { OnOk result
        (list.new.kinds ≡ list.old.kinds ++ replicate (length marked.items) kind) }
    ensures matrix { OnOk result (matrix.new ≡ record matrix.old
        { rows = matrix.old.rows ++ bits_in marked.items }) }
{
    'each: for ray in marked {
        let Marked { row, bits } = ray;
        list.push(row, kind)?;
        matrix.add_row(bits)?;
    }
    Ok(())
}

// These points, then these rays, then these lines, for which the matrix is true everywhere.
fn list_parts(
    alloc: Global,
    n: usize,
    points: Vec<Marked>,
    directions: Vec<Marked>,
    lines: &[Row],
    width: usize,
) -> Result<KnownGenerators, AllocError>
    requires small { n < too_many_dimensions }
    requires points { All (λ m. length m.row ≡ suc n) points.items }
    requires directions { All (λ m. length m.row ≡ suc n) directions.items }
    requires lines { All (λ r. length r ≡ suc n) lines.now }
    requires point_bits { All (λ m. length m.bits ≡ width) points.items }
    requires direction_bits { All (λ m. length m.bits ≡ width) directions.items }
    ensures dims { IfOk result (λ known. known.list.dims ≡ n) }
    ensures rows { IfOk result (λ known. known.list.rows ≡
        (rows_in points.items ++ rows_in directions.items) ++ lines.now) }
    ensures kinds { IfOk result (λ known. known.list.kinds ≡ (replicate (length points.items) Point
        ++ replicate (length directions.items) Ray) ++ replicate (length lines.now) Line) }
    ensures matrix { IfOk result (λ known. known.matrix ≡ record {
      width = width;
      rows = (bits_in points.items ++ bits_in directions.items)
          ++ replicate (length lines.now) (replicate width true);
    }) }
{
    let mut list = GenSys::new(alloc, n);
    let mut matrix = SatMatrix::new(alloc, width);
    append_generators(&mut list, &mut matrix, points, GenKind::Point)?;
    append_generators(&mut list, &mut matrix, directions, GenKind::Ray)?;
    push_generators(&mut list, lines, GenKind::Line)?;
    push_true_rows(&mut matrix, alloc, lines.len())?;
    Ok(KnownGenerators { list, matrix })
}

/// The points, rays and lines as `generator_list` has them, with the rows of the matrix in the same order. Its first
/// rows go with the rays; for the lines all is true.
pub fn known_generators(
    alloc: Global,
    n: usize,
    lines: &[Row],
    rays: &[Row],
    matrix: SatMatrix,
) -> Result<KnownGenerators, AllocError>
    requires small { n < too_many_dimensions }
    requires lines { All (λ r. length r ≡ suc n) lines.now }
    requires rays { All (λ r. length r ≡ suc n) rays.now }
    requires rows { length rays.now ≤ length matrix.rows }
    ensures dims { IfOk result (λ known. known.list.dims ≡ n) }
    ensures shown { IfOk result (λ known. ShowsGenerators lines.now rays.now known.list) }
    ensures matrix { IfOk result (λ known.
        GoesWith lines.now rays.now matrix known.list.rows known.matrix) }
{
    let width = matrix.width();
    let marked = mark_rows(alloc, rays, matrix)?;
    let Parted {
        mut points,
        mut directions,
    } = part_rays(alloc, marked)?;
    if points.is_empty() {
        return Ok(KnownGenerators {
            list: GenSys::new(alloc, n),
            matrix: SatMatrix::new(alloc, width),
        });
    }
    order_marked(&mut points, Order::Generators)?;
    order_marked(&mut directions, Order::Generators)?;
    list_parts(alloc, n, points, directions, lines, width)
}

/// The constraints as `constraint_list` has them, with the rows of the matrix in the same order. Its first rows go with
/// the rays; for the lines all is true.
pub fn known_constraints(
    alloc: Global,
    lines: &[Row],
    rays: &[Row],
    matrix: SatMatrix,
    left_out: &Row,
    n: usize,
) -> Result<KnownConstraints, AllocError>
    requires small { n < too_many_dimensions }
    requires lines { All (λ r. length r ≡ suc n) lines.now }
    requires rays { All (λ r. length r ≡ suc n) rays.now }
    requires rows { length rays.now ≤ length matrix.rows }
    requires left_out { left_out.now ≡ positivity n }
    ensures dims { IfOk result (λ known. known.list.dims ≡ n) }
    ensures shown { IfOk result (λ known. ShowsConstraints n lines.now rays.now known.list) }
    ensures matrix { IfOk result (λ known.
        GoesWith lines.now rays.now matrix known.list.rows known.matrix) }
{
    let mut list = ConSys::new(alloc, n);
    let mut made = SatMatrix::new(alloc, matrix.width());
    let marked = mark_rows(alloc, rays, matrix)?;
    let mut inequalities = mark_others(alloc, marked, left_out)?;
    order_marked(&mut inequalities, Order::Inequalities)?;
    push_constraints(&mut list, lines, ConKind::Eq)?;
    push_true_rows(&mut made, alloc, lines.len())?;
    append_constraints(&mut list, &mut made, inequalities, ConKind::Ge)?;
    Ok(KnownConstraints { list, matrix: made })
}
