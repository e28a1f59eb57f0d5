//! How polyhedra, their generators and values are printed.

ghost use Rattle.std.specs.Prelude.{◌≡◌, ◌≤◌, ◌<◌, ◌<ℤ◌, ◌++◌, IfOk, OnOk, string_bytes, length, nat_abs, pos};
ghost use Rattle.lra_row_text.specs.Texts.{fraction_text};
ghost use Rattle.lra_script.specs.LineForms.{greatest_dims};
ghost use Rattle.lra_calc.specs.ShownSets as shown;

use lra_poly_widening::Poly;
use lra_row_text::{Names, generator_text, push_fraction, push_generators, push_rows};
use std::alloc::{AllocError, Global};
use std::fmt::Write;

/// The names `x1`, `x2` and on, n of them.
fn variables(alloc: Global, n: usize) -> Result<Names, AllocError>
    requires { n ≤ greatest_dims }
    ensures { IfOk result (λ names. names ≡ shown.variables n) }
{
    let mut names = Names::new(alloc);
    for index in 0..n {
        let number = index + 1;
        let name = format!(in alloc; "x{number}")?;
        names.push(name.as_str())?;
    }
    Ok(names)
}

/// Appends the lines of the constraints and of the generators, in their orders; or one that says that there is no
/// point.
pub fn push_polyhedron(text: &mut String, alloc: Global, set: &Poly) -> Result<(), AllocError>
    requires { set.now.dims ≤ greatest_dims }
    ensures { OnOk result (string_bytes text.new ≡ string_bytes text.old ++ shown.polyhedron_text set.now) }
{
    let generators = set.generators();
    if generators.rows().is_empty() {
        return writeln!(text, "  empty");
    }
    let names = variables(alloc, set.dims())?;
    push_rows(text, alloc, set.rows(), &names)?;
    push_generators(text, alloc, generators.rows(), generators.kinds(), &names)?;
    Ok(())
}

/// The text of the generator at a place, from 0.
pub fn generator_at(alloc: Global, set: &Poly, place: usize) -> Result<String, AllocError>
    requires few { set.now.dims ≤ greatest_dims }
    requires inside { place < length set.now.generators }
    ensures { IfOk result (λ text. string_bytes text ≡ shown.generator_at set.now place) }
{
    let names = variables(alloc, set.dims())?;
    let generators = set.generators();
    let text = generator_text(
        alloc,
        &generators.rows()[place],
        generators.kinds()[place],
        &names,
    )?;
    Ok(text)
}

/// The text of a fraction in lowest terms.
pub fn fraction(alloc: Global, numerator: i128, divisor: i128) -> Result<String, AllocError>
    requires { pos 0 <ℤ divisor }
    ensures { IfOk result (λ text. string_bytes text ≡ fraction_text numerator (nat_abs divisor)) }
{
    let mut text = String::new(alloc);
    push_fraction(&mut text, numerator, divisor)?;
    Ok(text)
}
