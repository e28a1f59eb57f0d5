//! What is answered to questions about polyhedra.

ghost use Rattle.std.specs.Prelude.{◌≡◌, ◌≤◌, ◌<◌, ◌<ℤ◌, ◌++◌, suc, length, codes, string_bytes, Ok, IfOk, OnOk, pos};
ghost use Rattle.std.specs.Prelude.{ℕ, ℤ};
ghost use Rattle.lra_row_text.specs.Texts.{text_line};
ghost use Rattle.lra_calc.specs.Crates.lra_systems.LinearSystems.{constraints as constraints_of};
ghost use Rattle.lra_calc.specs.Crates.{lra_duality.Inclusions.IsInclusion, lra_duality.Maxima.IsMaximum};
ghost use Rattle.lra_script.specs.{LineForms.greatest_dims, Views.HasDivisor};
ghost use Rattle.lra_calc.specs.ShownSets as shown;
ghost use Rattle.lra_calc.specs.Script as script;
ghost use Rattle.lra_calc.specs.Views.{answer_of, answered, IsPlacedInclusion, IsPlacedMaximum};

use crate::making::form_of;
use crate::showing::{fraction, generator_at, push_polyhedron};
use lra_poly_widening::{Inclusion, Maximum, Poly};
use lra_row_text::ConSys;
use lra_script::MembershipAnswer;
use std::alloc::{AllocError, Global};
use std::fmt::Write;

/// The text of an answer, and whether it flags its line.
#[derive(Drop)]
pub struct Answer {
    pub text: String,
    pub is_wide: bool,
}

/// The polyhedron under its name.
pub fn show(alloc: Global, name: &str, set: &Poly) -> Result<Answer, AllocError>
    requires { set.now.dims ≤ greatest_dims }
    ensures { IfOk result (λ a. answer_of a ≡ script.shown name.now set.now) }
{
    let mut text = String::new(alloc);
    writeln!(&mut text, "show {name}")?;
    push_polyhedron(&mut text, alloc, set)?;
    Ok(Answer {
        text,
        is_wide: false,
    })
}

/// What is printed of a membership.
fn membership_text(answer: MembershipAnswer) -> &'static str
    ensures { result.now ≡ shown.answer_text (answered answer) }
{
    match answer {
        MembershipAnswer::Yes => "yes",
        MembershipAnswer::No(_) => "no",
        MembershipAnswer::Wide(_) => "wide",
    }
}

/// Whether the point is in the set that the constraints describe, tried in order; the divisor stands first.
fn membership(constraints: &ConSys, point: &[i128]) -> MembershipAnswer
    requires width { length point.now ≡ suc constraints.now.dims }
    requires divisor { HasDivisor point.now }
    ensures { script.membership (constraints_of constraints.now) point.now ≡ answered result }
{
    constraints.holds_at(&point[1..], point[0])
}

/// Appends the line of a membership.
fn push_membership(text: &mut String, name: &str, said: &str) -> Result<(), AllocError>
    ensures { OnOk result (string_bytes text.new ≡ string_bytes text.old
        ++ text_line (codes "holds " ++ name.now ++ codes " " ++ said.now)) }
{
    writeln!(text, "holds {name} {said}")
}

/// Whether the point is in the polyhedron; its divisor stands first.
pub fn hold(alloc: Global, name: &str, set: &Poly, point: &[i128]) -> Result<Answer, AllocError>
    requires width { length point.now ≡ suc set.now.dims }
    requires divisor { HasDivisor point.now }
    ensures { IfOk result (λ a. answer_of a ≡ script.held name.now point.now set.now) }
{
    let answer = membership(set.rows(), point);
    let mut text = String::new(alloc);
    push_membership(&mut text, name, membership_text(answer))?;
    Ok(Answer {
        text,
        is_wide: matches!(answer, MembershipAnswer::Wide(_)),
    })
}

/// What is printed of an inclusion.
fn inclusion_text(alloc: Global, set: &Poly, answer: Inclusion) -> Result<String, AllocError>
    requires few { set.now.dims ≤ greatest_dims }
    requires placed { IsPlacedInclusion (length set.now.generators) answer }
    ensures { IfOk result (λ text. string_bytes text ≡ shown.inclusion_text set.now answer) }
{
    match answer {
        Inclusion::Yes => String::from_str(alloc, "yes"),
        Inclusion::No(place) => {
            let generator = generator_at(alloc, set, place)?;
            let generator = generator.as_str();
            format!(in alloc; "no {generator}")
        }
        Inclusion::Wide(_, _) => String::from_str(alloc, "wide"),
    }
}

/// Appends the line of an inclusion.
fn push_inclusion(
    text: &mut String,
    first: &str,
    second: &str,
    said: &str,
) -> Result<(), AllocError>
    ensures { OnOk result (string_bytes text.new ≡ string_bytes text.old
        ++ text_line (codes "include " ++ first.now ++ codes " " ++ second.now ++ codes " " ++ said.now)) }
{
    writeln!(text, "include {first} {second} {said}")
}

/// Whether each point of the first polyhedron is in the second.
pub fn include(
    alloc: Global,
    first: &str,
    second: &str,
    set: &Poly,
    other: &Poly,
) -> Result<Answer, AllocError>
    requires few { set.now.dims ≤ greatest_dims }
    requires dims { other.now.dims ≡ set.now.dims }
    ensures { IfOk result (λ a. script.Answers (IsInclusion other.now.rows set.now.generators)
        (shown.include_text first.now second.now set.now) shown.is_wide_inclusion (Ok (answer_of a))) }
{
    let answer = set.included(other);
    let said = inclusion_text(alloc, set, answer)?;
    let mut text = String::new(alloc);
    push_inclusion(&mut text, first, second, said.as_str())?;
    Ok(Answer {
        text,
        is_wide: matches!(answer, Inclusion::Wide(_, _)),
    })
}

/// Appends what is printed of a greatest value, and of the point that has it.
fn push_greatest(text: &mut String, value: &str, point: &str) -> Result<(), AllocError>
    ensures { OnOk result (string_bytes text.new ≡ string_bytes text.old
        ++ (codes "at " ++ value.now ++ codes " " ++ point.now)) }
{
    write!(text, "at {value} {point}")
}

/// What is printed of a greatest value, and of the point that has it.
fn greatest_text(
    alloc: Global,
    set: &Poly,
    num: i128,
    den: i128,
    place: usize,
) -> Result<String, AllocError>
    requires few { set.now.dims ≤ greatest_dims }
    requires inside { place < length set.now.generators }
    requires positive { pos 0 <ℤ den }
    ensures { IfOk result (λ text. string_bytes text ≡ shown.greatest_text set.now num den place) }
{
    let value = fraction(alloc, num, den)?;
    let point = generator_at(alloc, set, place)?;
    let mut text = String::new(alloc);
    push_greatest(&mut text, value.as_str(), point.as_str())?;
    Ok(text)
}

/// What is printed of a greatest value, or of why there is none.
fn maximum_text(alloc: Global, set: &Poly, answer: Maximum) -> Result<String, AllocError>
    requires few { set.now.dims ≤ greatest_dims }
    requires placed { IsPlacedMaximum (length set.now.generators) answer }
    ensures { IfOk result (λ text. string_bytes text ≡ shown.maximum_text set.now answer) }
{
    match answer {
        Maximum::Empty => String::from_str(alloc, "empty"),
        Maximum::Wide { place: _ } => String::from_str(alloc, "wide"),
        Maximum::Unbounded { place } => {
            let generator = generator_at(alloc, set, place)?;
            let generator = generator.as_str();
            format!(in alloc; "unbounded {generator}")
        }
        Maximum::At { num, den, place } => greatest_text(alloc, set, num, den, place),
    }
}

/// Appends the line of a greatest value.
fn push_maximum(text: &mut String, name: &str, said: &str) -> Result<(), AllocError>
    ensures { OnOk result (string_bytes text.new ≡ string_bytes text.old
        ++ text_line (codes "maximise " ++ name.now ++ codes " " ++ said.now)) }
{
    writeln!(text, "maximise {name} {said}")
}

/// The greatest value of the form on the polyhedron.
fn maximum_of(alloc: Global, set: &Poly, form: &[i64]) -> Result<Maximum, AllocError>
    requires { length form.now ≡ suc set.now.dims }
    ensures maximum { IfOk result (IsMaximum form.now set.now.generators) }
    ensures placed { IfOk result (IsPlacedMaximum (length set.now.generators)) }
{
    let form = form_of(alloc, form)?;
    Ok(set.maximise(&form))
}

/// The greatest value of the form, its constant first, on the polyhedron.
pub fn maximise(alloc: Global, name: &str, set: &Poly, form: &[i64]) -> Result<Answer, AllocError>
    requires few { set.now.dims ≤ greatest_dims }
    requires width { length form.now ≡ suc set.now.dims }
    ensures { IfOk result (λ a. script.Answers (IsMaximum form.now set.now.generators)
        (shown.maximise_text name.now set.now) shown.is_wide_maximum (Ok (answer_of a))) }
{
    let answer = maximum_of(alloc, set, form)?;
    let said = maximum_text(alloc, set, answer)?;
    let mut text = String::new(alloc);
    push_maximum(&mut text, name, said.as_str())?;
    Ok(Answer {
        text,
        is_wide: matches!(answer, Maximum::Wide { place: _ }),
    })
}
