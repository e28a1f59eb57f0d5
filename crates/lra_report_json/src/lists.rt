//! The texts of rows and of generators, as JSON strings.

ghost use Rattle.std.specs.Prelude.{◌≡◌, IfOk, length, map};
ghost use Rattle.serde_json.specs.{Data.string, View.view};
ghost use Rattle.lra_report_json.specs.Crates.lra_systems.LinearSystems.{FitKinds};
ghost use Rattle.lra_row_text.specs.Texts as written;
ghost use Rattle.lra_row_text.specs.Lists.{shown_rows, shown_generators};

use lra_report::Row;
use lra_row_text::{ConKind, GenKind, Names, generator_text, row_text};
use serde_json::Value;
use std::alloc::{AllocError, Global};

/// The texts of the rows.
pub(crate) fn row_values(
    alloc: Global,
    rows: &[Row],
    kinds: &[ConKind],
    names: &Names,
) -> Result<Vec<Value>, AllocError>
    requires { length kinds.now ≡ length rows.now }
    ensures { IfOk result (λ texts. map view texts.items ≡
        map (λ r. string (written.row_text names.now r)) (shown_rows rows.now kinds.now)) }
{
    let mut texts = Vec::new(alloc);
    for (index, row) in rows.iter().enumerate() {
        let text = row_text(alloc, row, kinds[index], names)?;
        texts.push(Value::from(text))?;
    }
    Ok(texts)
}

/// The texts of the generators.
pub(crate) fn generator_values(
    alloc: Global,
    rows: &[Row],
    kinds: &[GenKind],
    names: &Names,
) -> Result<Vec<Value>, AllocError>
    requires length { length kinds.now ≡ length rows.now }
    requires fit { FitKinds rows.now kinds.now }
    ensures { IfOk result (λ texts. map view texts.items ≡
        map (λ g. string (written.generator_text names.now g)) (shown_generators rows.now kinds.now)) }
{
    let mut texts = Vec::new(alloc);
    for (index, row) in rows.iter().enumerate() {
        let text = generator_text(alloc, row, kinds[index], names)?;
        texts.push(Value::from(text))?;
    }
    Ok(texts)
}
