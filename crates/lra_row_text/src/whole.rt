//! Texts of whole lists and of values.

ghost use Rattle.std.specs.List.{flat_map};
ghost use Rattle.std.specs.Prelude.{◌≡◌, ◌++◌, All, IfOk, OnOk, length, string_bytes};
ghost use Rattle.lra_systems.specs.LinearSystems.{FitsKind, FitKinds};
ghost use Rattle.lra_row_text.specs.Lists.{shown_rows, shown_generators};
ghost use Rattle.lra_row_text.specs.Shown.{report_row, report_generator};
ghost use Rattle.lra_row_text.specs.Whole.{further_lines, lines_of_generators, lines_of_part, lines_of_parts};
ghost use Rattle.lra_row_text.specs.Whole.{lines_of_rows, plain_generator, plain_row};

use crate::generator::generator_text;
use crate::names::Names;
use crate::row::row_text;
use lra_systems::{ConKind, ConSys, GenKind, GenSys, Row};
use std::alloc::{AllocError, Global};
use std::fmt::Write;

/// Appends the line of a row.
fn push_plain_row(
    text: &mut String,
    alloc: Global,
    row: &Row,
    kind: ConKind,
    names: &Names,
) -> Result<(), AllocError>
    ensures { OnOk result (string_bytes text.new ≡ string_bytes text.old ++
        plain_row names.now (report_row row.now kind)) }
{
    let shown = row_text(alloc, row, kind, names)?;
    let shown = shown.as_str();
    writeln!(text, "{shown}")
}

/// Appends the rows, each on a line.
fn push_plain_rows(
    text: &mut String,
    alloc: Global,
    rows: &[Row],
    kinds: &[ConKind],
    names: &Names,
) -> Result<(), AllocError>
    requires { length kinds.now ≡ length rows.now }
    ensures { OnOk result (string_bytes text.new ≡ string_bytes text.old ++
        flat_map (plain_row names.now) (shown_rows rows.now kinds.now)) }
{
    for (index, row) in rows.iter().enumerate() {
        push_plain_row(text, alloc, row, kinds[index], names)?;
    }
    Ok(())
}

/// Appends the line of a generator.
fn push_plain_generator(
    text: &mut String,
    alloc: Global,
    row: &Row,
    kind: GenKind,
    names: &Names,
) -> Result<(), AllocError>
    requires { FitsKind kind row.now }
    ensures { OnOk result (string_bytes text.new ≡ string_bytes text.old ++
        plain_generator names.now (report_generator row.now kind)) }
{
    let shown = generator_text(alloc, row, kind, names)?;
    let shown = shown.as_str();
    writeln!(text, "{shown}")
}

/// Appends the generators, each on a line.
fn push_plain_generators(
    text: &mut String,
    alloc: Global,
    rows: &[Row],
    kinds: &[GenKind],
    names: &Names,
) -> Result<(), AllocError>
    requires length { length kinds.now ≡ length rows.now }
    requires fit { FitKinds rows.now kinds.now }
    ensures { OnOk result (string_bytes text.new ≡ string_bytes text.old ++
        flat_map (plain_generator names.now) (shown_generators rows.now kinds.now)) }
{
    for (index, row) in rows.iter().enumerate() {
        push_plain_generator(text, alloc, row, kinds[index], names)?;
    }
    Ok(())
}

/// Appends the constraints, each on a line, or `true`.
fn push_system(
    text: &mut String,
    alloc: Global,
    list: &ConSys,
    names: &Names,
) -> Result<(), AllocError>
    ensures { OnOk result (string_bytes text.new ≡ string_bytes text.old ++
        lines_of_part names.now list.now) }
{
    if list.rows().is_empty() {
        writeln!(text, "true")
    } else {
        push_plain_rows(text, alloc, list.rows(), list.kinds(), names)
    }
}

/// Appends further parts, each after a line `or`.
fn push_others(
    text: &mut String,
    alloc: Global,
    parts: &[ConSys],
    names: &Names,
) -> Result<(), AllocError>
    ensures { OnOk result (string_bytes text.new ≡ string_bytes text.old ++
        further_lines names.now parts.now) }
{
    let Some((first, later)) = parts.split_first() else {
        return Ok(());
    };
    writeln!(text, "or")?;
    push_system(text, alloc, first, names)?;
    push_others(text, alloc, later, names)?;
    Ok(())
}

/// The constraints, each on a line; `true` if there is none.
pub fn system_text(alloc: Global, list: &ConSys, names: &Names) -> Result<String, AllocError>
    requires { length names.now ≡ list.now.dims }
    ensures { IfOk result (λ text. string_bytes text ≡
        lines_of_rows names.now (shown_rows list.now.rows list.now.kinds)) }
{
    let mut text = String::new(alloc);
    push_system(&mut text, alloc, list, names)?;
    Ok(text)
}

/// The generators, each on a line; nothing if there is none.
pub fn generators_text(alloc: Global, list: &GenSys, names: &Names) -> Result<String, AllocError>
    requires names { length names.now ≡ list.now.dims }
    requires fit { FitKinds list.now.rows list.now.kinds }
    ensures { IfOk result (λ text. string_bytes text ≡
        lines_of_generators names.now (shown_generators list.now.rows list.now.kinds)) }
{
    let mut text = String::new(alloc);
    push_plain_generators(&mut text, alloc, list.rows(), list.kinds(), names)?;
    Ok(text)
}

/// The parts of a value, with a line `or` between each two; `false` if there is none.
pub fn value_text(alloc: Global, parts: &[ConSys], names: &Names) -> Result<String, AllocError>
    requires { All (λ p. p.dims ≡ length names.now) parts.now }
    ensures { IfOk result (λ text. string_bytes text ≡ lines_of_parts names.now parts.now) }
{
    let mut text = String::new(alloc);
    let Some((first, later)) = parts.split_first() else {
        writeln!(&mut text, "false")?;
        return Ok(text);
    };
    push_system(&mut text, alloc, first, names)?;
    push_others(&mut text, alloc, later, names)?;
    Ok(text)
}
