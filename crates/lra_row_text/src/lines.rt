//! Lines of constraints and of generators.

ghost use Rattle.std.specs.List.{flat_map};
ghost use Rattle.std.specs.Prelude.{◌≡◌, ◌++◌, OnOk, string_bytes, length};
ghost use Rattle.lra_systems.specs.LinearSystems.{FitsKind, FitKinds};
ghost use Rattle.lra_row_text.specs.{Lines.row_line, Lines.generator_line, Lists.shown_rows, Lists.shown_generators};
ghost use Rattle.lra_row_text.specs.{Shown.report_row, Shown.report_generator, Texts.rows_text};

use crate::generator::generator_text;
use crate::names::Names;
use crate::row::row_text;
use lra_systems::{ConKind, ConSys, GenKind, Row};
use std::alloc::{AllocError, Global};
use std::fmt::Write;

/// Appends the line of a row.
fn push_row(
    text: &mut String,
    alloc: Global,
    row: &Row,
    kind: ConKind,
    names: &Names,
) -> Result<(), AllocError>
    ensures { OnOk result (string_bytes text.new ≡ string_bytes text.old ++
        row_line names.now (report_row row.now kind)) }
{
    let shown = row_text(alloc, row, kind, names)?;
    let shown = shown.as_str();
    writeln!(text, "  row {shown}")
}

/// Appends the lines of all rows.
fn push_each_row(
    text: &mut String,
    alloc: Global,
    rows: &[Row],
    kinds: &[ConKind],
    names: &Names,
) -> Result<(), AllocError>
    requires { length kinds.now ≡ length rows.now }
    ensures { OnOk result (string_bytes text.new ≡ string_bytes text.old ++
        flat_map (row_line names.now) (shown_rows rows.now kinds.now)) }
{
    for (index, row) in rows.iter().enumerate() {
        push_row(text, alloc, row, kinds[index], names)?;
    }
    Ok(())
}

/// Appends the lines of the rows, or one that says that there is none.
pub fn push_rows(
    text: &mut String,
    alloc: Global,
    rows: &ConSys,
    names: &Names,
) -> Result<(), AllocError>
    ensures { OnOk result (string_bytes text.new ≡ string_bytes text.old ++
        rows_text names.now (shown_rows rows.now.rows rows.now.kinds)) }
{
    if rows.rows().is_empty() {
        writeln!(text, "  row true")
    } else {
        push_each_row(text, alloc, rows.rows(), rows.kinds(), names)
    }
}

/// Appends the line of a generator.
fn push_generator(
    text: &mut String,
    alloc: Global,
    row: &Row,
    kind: GenKind,
    names: &Names,
) -> Result<(), AllocError>
    requires { FitsKind kind row.now }
    ensures { OnOk result (string_bytes text.new ≡ string_bytes text.old ++
        generator_line names.now (report_generator row.now kind)) }
{
    let shown = generator_text(alloc, row, kind, names)?;
    let shown = shown.as_str();
    writeln!(text, "  gen {shown}")
}

/// Appends the lines of the generators.
pub fn push_generators(
    text: &mut String,
    alloc: Global,
    rows: &[Row],
    kinds: &[GenKind],
    names: &Names,
) -> Result<(), AllocError>
    requires length { length kinds.now ≡ length rows.now }
    requires fit { FitKinds rows.now kinds.now }
    ensures { OnOk result (string_bytes text.new ≡ string_bytes text.old ++
        flat_map (generator_line names.now) (shown_generators rows.now kinds.now)) }
{
    for (index, row) in rows.iter().enumerate() {
        push_generator(text, alloc, row, kinds[index], names)?;
    }
    Ok(())
}
