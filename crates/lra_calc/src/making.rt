//! What recipes make: polyhedra, of constraints, of generators or of other polyhedra.

ghost use Rattle.std.specs.List.{All};
ghost use Rattle.std.specs.Prelude.{◌≡◌, ◌≤◌, ◌<◌, ◌∷◌, suc, length, pos, map, None, IfOk, option_map};
ghost use Rattle.lra_calc.specs.Crates.lra_systems.LinearSystems.{constraints as constraints_of};
ghost use Rattle.lra_calc.specs.Crates.lra_systems.LinearSystems.{generators as generators_of, FitKinds};
ghost use Rattle.lra_calc.specs.Crates.{lra_linear_forms.Form.form_row, lra_linear_spec.Kinds.is_line};
ghost use Rattle.lra_calc.specs.Crates.{lra_linear_spec.Representable.IsRepresentable, lra_poly.Outcomes.Becomes};
ghost use Rattle.lra_script.specs.LineForms.{greatest_dims, row_of_generator};
ghost use Rattle.lra_script.specs.Views.{constraint_of, generator_view, IsDivided};
ghost use Rattle.lra_calc.specs.MadeSets as sets;
ghost use Rattle.lra_calc.specs.Script as script;
ghost use Rattle.lra_calc.specs.Views.{fault_of, is_flagged};

use crate::refusal::Fault;
use lra_poly_images::{LinExpr, forget, image, preimage, time_elapse};
use lra_poly_widening::{Outcome, Poly};
use lra_row_text::{ConSys, GenKind, GenSys};
use lra_script::{Combination, Constraint, Generator, Mapping, Row};
use std::alloc::{AllocError, Global};

/// A polyhedron, and whether it is flagged: it may then be larger than what it was made of.
#[derive(Drop)]
pub struct Made {
    pub polyhedron: Poly,
    pub is_flagged: bool,
}

/// The fault of a vector that has another count of numbers than is needed.
pub fn wrong_width(count: usize, needed: usize) -> Option<Fault>
    ensures { option_map fault_of result ≡ script.wrong_width count needed }
{
    if count == needed {
        None
    } else {
        Some(Fault::WrongDimension { count, needed })
    }
}

/// The fault of the first row that has not as many numbers as n dimensions need.
pub fn wrong_row(n: usize, rows: &[Constraint]) -> Option<Fault>
    requires { n ≤ greatest_dims }
    ensures { option_map fault_of result ≡ script.wrong_row n (map constraint_of rows.now) }
{
    for constraint in rows {
        let count = constraint.row.width();
        let needed = n + 1;
        if count != needed {
            return Some(Fault::WrongDimension { count, needed });
        }
    }
    None
}

/// How many numbers a generator has in n dimensions.
fn numbers_needed(n: usize, kind: GenKind) -> usize
    requires { n ≤ greatest_dims }
    ensures { result ≡ script.numbers_needed n kind }
{
    match kind {
        GenKind::Point => n + 1,
        GenKind::Ray | GenKind::Line => n,
    }
}

/// The fault of the first generator that has not as many numbers as its kind needs in n dimensions.
pub fn wrong_generator(n: usize, generators: &[Generator]) -> Option<Fault>
    requires { n ≤ greatest_dims }
    ensures { option_map fault_of result ≡ script.wrong_generator n (map generator_view generators.now) }
{
    for generator in generators {
        let count = generator.numbers.width();
        let needed = numbers_needed(n, generator.kind);
        if count != needed {
            return Some(Fault::WrongDimension { count, needed });
        }
    }
    None
}

/// The fault of a coordinate that is none of n dimensions, which are numbered from 1.
pub fn wrong_coordinate(n: usize, coordinate: usize) -> Option<Fault>
    ensures { option_map fault_of result ≡ script.wrong_coordinate n coordinate }
{
    if 1 <= coordinate && coordinate <= n {
        None
    } else {
        Some(Fault::BadLine)
    }
}

/// The constraints, each of n + 1 numbers.
pub fn constraints_of_rows(
    alloc: Global,
    n: usize,
    rows: &[Constraint],
) -> Result<ConSys, AllocError>
    requires few { n ≤ greatest_dims }
    requires widths { script.wrong_row n (map constraint_of rows.now) ≡ None }
    ensures dims { IfOk result (λ s. s.dims ≡ n) }
    ensures made { IfOk result (λ s. constraints_of s ≡ map constraint_of rows.now) }
{
    let mut system = ConSys::new(alloc, n);
    for constraint in rows {
        let row = constraint.row.copy()?;
        system.push(row, constraint.kind)?;
    }
    Ok(system)
}

/// The numbers with a 0 before them.
fn put_behind_zero(alloc: Global, numbers: &Row) -> Result<Row, AllocError>
    ensures { IfOk result (λ row. row ≡ pos 0 ∷ numbers.now) }
{
    let mut entries = Vec::new(alloc);
    entries.push(0)?;
    entries.extend_from_slice(numbers.entries())?;
    Row::from_slice(alloc, &entries)
}

/// The row of a generator, column 0 first.
fn row_of(alloc: Global, generator: &Generator) -> Result<Row, AllocError>
    ensures { IfOk result (λ row.
        row_of_generator (generator_view generator.now) ≡ record { row = row; equal = is_line generator.now.kind }) }
{
    match generator.kind {
        GenKind::Point => generator.numbers.copy(),
        GenKind::Ray | GenKind::Line => put_behind_zero(alloc, &generator.numbers),
    }
}

/// The generators, each with as many numbers as it needs.
fn generators_of_written(
    alloc: Global,
    n: usize,
    generators: &[Generator],
) -> Result<GenSys, AllocError>
    requires few { n ≤ greatest_dims }
    requires widths { script.wrong_generator n (map generator_view generators.now) ≡ None }
    requires divided { All (λ g. IsDivided g.kind g.numbers) generators.now }
    ensures dims { IfOk result (λ s. s.dims ≡ n) }
    ensures made { IfOk result (λ s. generators_of s ≡ map (λ g. row_of_generator (generator_view g)) generators.now) }
    ensures fit { IfOk result (λ s. FitKinds s.rows s.kinds) }
{
    let mut system = GenSys::new(alloc, n);
    for generator in generators {
        let row = row_of(alloc, generator)?;
        system.push(row, generator.kind)?;
    }
    Ok(system)
}

/// The form with these numbers, its constant first.
pub fn form_of(alloc: Global, numbers: &[i64]) -> Result<LinExpr, AllocError>
    requires { 0 < length numbers.now }
    ensures row { IfOk result (λ form. form_row form ≡ numbers.now) }
    ensures width { IfOk result (λ form. suc (length form.coefficients) ≡ length numbers.now) }
{
    LinExpr::new(alloc, numbers[0], &numbers[1..])
}

/// What an operation made that had this outcome.
pub fn make_with(polyhedron: Poly, outcome: Outcome) -> Made
    ensures polyhedron { result.polyhedron ≡ polyhedron }
    ensures flagged { result.is_flagged ≡ is_flagged outcome }
    ensures formed { IsRepresentable polyhedron }
{
    let _formed = polyhedron.rows(); // fact: the polyhedron is representable
    Made {
        is_flagged: !outcome.is_exact(),
        polyhedron,
    }
}

/// The polyhedron of the points at which the constraints hold.
pub fn make_of_rows(alloc: Global, n: usize, rows: &[Constraint]) -> Result<Made, AllocError>
    requires few { n ≤ greatest_dims }
    requires widths { script.wrong_row n (map constraint_of rows.now) ≡ None }
    ensures dims { IfOk result (λ m. m.polyhedron.dims ≡ n) }
    ensures made { IfOk result (λ m. sets.IsMadeOfRows n (map constraint_of rows.now) m.is_flagged m.polyhedron) }
{
    let constraints = constraints_of_rows(alloc, n, rows)?;
    let (polyhedron, outcome) = Poly::from_rows(alloc, &constraints)?;
    Ok(make_with(polyhedron, outcome))
}

/// The polyhedron of the points that the generators generate.
pub fn make_of_generators(
    alloc: Global,
    n: usize,
    generators: &[Generator],
) -> Result<Made, AllocError>
    requires few { n ≤ greatest_dims }
    requires widths { script.wrong_generator n (map generator_view generators.now) ≡ None }
    requires divided { All (λ g. IsDivided g.kind g.numbers) generators.now }
    ensures dims { IfOk result (λ m. m.polyhedron.dims ≡ n) }
    ensures made { IfOk result (λ m.
        sets.IsMadeOfGenerators n (map row_of_generator (map generator_view generators.now)) m.is_flagged
        m.polyhedron) }
{
    let generators = generators_of_written(alloc, n, generators)?;
    let (polyhedron, outcome) = Poly::from_generators(alloc, &generators)?;
    Ok(make_with(polyhedron, outcome))
}

/// The first set becomes what is made of both.
fn combine_into(how: Combination, set: &mut Poly, other: &Poly) -> Result<Outcome, AllocError>
    requires { other.now.dims ≡ set.old.dims }
    ensures { IfOk result (Becomes set.old.dims
        (sets.combined_sets how set.old.dims set.old other.now)
        (sets.CombiningStrains how set.old other.now) set.new) }
{
    match how {
        Combination::Meet => set.meet(other),
        Combination::Hull => set.hull(other),
        Combination::Elapse => time_elapse(set, other),
    }
}

/// What is made of two sets.
pub fn combine(how: Combination, first: &Poly, second: &Poly) -> Result<Made, AllocError>
    requires { second.now.dims ≡ first.now.dims }
    ensures dims { IfOk result (λ m. m.polyhedron.dims ≡ first.now.dims) }
    ensures made { IfOk result (λ m.
        sets.IsCombined how first.now.dims first.now second.now m.is_flagged m.polyhedron) }
{
    let mut set = first.copy()?;
    let outcome = combine_into(how, &mut set, second)?;
    Ok(make_with(set, outcome))
}

/// The set becomes what the form in place of the coordinate x, from 0, makes of it.
fn map_into(how: Mapping, set: &mut Poly, x: usize, form: &LinExpr) -> Result<Outcome, AllocError>
    requires column { x < set.old.dims }
    requires form { length form.now.coefficients ≡ set.old.dims }
    ensures { IfOk result (Becomes set.old.dims
        (sets.mapped_set how set.old.dims (suc x) (form_row form.now) set.old)
        (sets.MappingStrains how (suc x) (form_row form.now) set.old) set.new) }
{
    match how {
        Mapping::Image => image(set, x, form),
        Mapping::Preimage => preimage(set, x, form),
    }
}

/// The set mapped by the form, its constant first, in place of the coordinate of this number, from 1.
pub fn map_set(
    how: Mapping,
    from: &Poly,
    coordinate: usize,
    form: &LinExpr,
) -> Result<Made, AllocError>
    requires least { 1 ≤ coordinate }
    requires most { coordinate ≤ from.now.dims }
    requires form { length form.now.coefficients ≡ from.now.dims }
    ensures dims { IfOk result (λ m. m.polyhedron.dims ≡ from.now.dims) }
    ensures made { IfOk result (λ m. sets.IsMapped how from.now.dims coordinate (form_row form.now) from.now
        m.is_flagged m.polyhedron) }
{
    let mut set = from.copy()?;
    let outcome = map_into(how, &mut set, coordinate - 1, form)?;
    Ok(make_with(set, outcome))
}

/// The set with any value of the coordinate of this number, from 1.
pub fn without_coordinate(from: &Poly, coordinate: usize) -> Result<Made, AllocError>
    requires least { 1 ≤ coordinate }
    requires most { coordinate ≤ from.now.dims }
    ensures dims { IfOk result (λ m. m.polyhedron.dims ≡ from.now.dims) }
    ensures made { IfOk result (λ m.
        sets.IsForgotten from.now.dims coordinate from.now m.is_flagged m.polyhedron) }
{
    let mut set = from.copy()?;
    let outcome = forget(&mut set, coordinate - 1)?;
    Ok(make_with(set, outcome))
}
