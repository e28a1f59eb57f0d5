//! The lines of a certificate.

ghost use Rattle.std.specs.List.{All};
ghost use Rattle.std.specs.Prelude.{◌≡◌, ◌<◌, ◌^◌, ◌++◌, [], OnOk, string_bytes, map, IfSome};
ghost use Rattle.lra_certify.specs.Crates.lra_certificate_spec.CertificateText.{numbers_text, row_text};
ghost use Rattle.lra_certify.specs.Crates.lra_certificate_spec.CertificateText.{multipliers_text, state_text};
ghost use Rattle.lra_certify.specs.Crates.lra_certificate_spec.CertificateText.{states_text, relation_text, edge_text};
ghost use Rattle.lra_certify.specs.Crates.lra_certificate_spec.CertificateText.{assert_text, end_text};
ghost use Rattle.lra_certify.specs.Crates.lra_multipliers.MultiplierViews.{multipliers_view};
ghost use Rattle.lra_certify.specs.Crates.lra_systems.LinearSystems.{constraints};
ghost use Rattle.lra_certify.specs.Crates.{lra_certificate_lines.PathCheckViews.target_rows};
ghost use Rattle.lra_certify.specs.Crates.{lra_linear_spec.Kinds.is_equality, lra_path_segments.Segments.comes_to};
ghost use Rattle.lra_certify.specs.Crates.{lra_paths.Paths.path_by, lra_row_text.Texts.text_line};
ghost use Rattle.lra_certify.specs.Lines.{rows_text, ArePointRows, HasPointRows};
ghost use Rattle.lra_verify.specs.PointViews.{state_view};

use lra_farkas::{ConKind, ConSys, Row};
use lra_verify::Multipliers;
use std::alloc::AllocError;
use std::fmt::Write;

/// Appends the numbers, each after a space.
fn push_numbers(text: &mut String, numbers: &[i128]) -> Result<(), AllocError>
    ensures { OnOk result (string_bytes text.new ≡ string_bytes text.old ++
        numbers_text numbers.now) }
{
    for number in numbers {
        write!(text, " {number}")?;
    }
    Ok(())
}

/// What the line of a row begins with.
fn relation(kind: ConKind) -> &'static str
    ensures { result.now ≡ relation_text (is_equality kind) }
{
    match kind {
        ConKind::Ge => "  >=",
        ConKind::Eq => "  =",
    }
}

/// Appends the line of a row.
fn push_row(text: &mut String, row: &Row, kind: ConKind) -> Result<(), AllocError>
    ensures { OnOk result (string_bytes text.new ≡ string_bytes text.old ++
        text_line (row_text (record { row = row.now; equal = is_equality kind }))) }
{
    text.push_str(relation(kind))?;
    push_numbers(text, row.entries())?;
    text.push_str("\n")
}

/// Appends the lines of the rows.
fn push_rows(text: &mut String, rows: &ConSys) -> Result<(), AllocError>
    ensures text { OnOk result (string_bytes text.new ≡ string_bytes text.old ++
        rows_text (constraints rows.now)) }
    ensures fit { ArePointRows rows.now }
{
    let _rows = rows.rows(); // fact: the rows are in the range, each as wide as the list
    for place in 0..rows.len() {
        let (row, kind) = rows.at(place);
        push_row(text, row, kind)?;
    }
    Ok(())
}

/// Appends the lines of the point of this number; if nothing comes it has no rows.
fn push_state(text: &mut String, number: usize, state: Option<&ConSys>) -> Result<(), AllocError>
    ensures text { OnOk result (string_bytes text.new ≡ string_bytes text.old ++
        state_text number (target_rows state.entry)) }
    ensures fit { OnOk result (IfSome state.entry (λ r. ArePointRows r.now)) }
{
    match state {
        None => writeln!(text, "point {number} empty"),
        Some(rows) => {
            writeln!(text, "point {number}")?;
            push_rows(text, rows)
        }
    }
}

/// Appends the lines of the points.
pub fn push_states(text: &mut String, states: &[Option<ConSys>]) -> Result<(), AllocError>
    ensures text { OnOk result (string_bytes text.new ≡ string_bytes text.old ++
        states_text 1 (map state_view states.now)) }
    ensures fit { OnOk result (All HasPointRows states.now) }
{
    for (index, state) in states.iter().enumerate() {
        push_state(text, index + 1, state.as_ref())?;
    }
    Ok(())
}

/// Appends the line of this word with the multipliers.
pub fn push_multipliers(text: &mut String, word: &str, m: &Multipliers) -> Result<(), AllocError>
    ensures { OnOk result (string_bytes text.new ≡ string_bytes text.old ++
        text_line (multipliers_text word.now (multipliers_view m.now))) }
{
    let divisor = m.divisor;
    let constant = m.constant;
    write!(text, "{word} {divisor} {constant}")?;
    push_numbers(text, m.factors.as_slice())?;
    text.push_str("\n")?;
    Ok(())
}

/// Appends the line that begins a path.
pub fn push_edge(text: &mut String, source: usize, point: usize) -> Result<(), AllocError>
    requires { point < 2 ^ 31 }
    ensures { OnOk result (string_bytes text.new ≡ string_bytes text.old ++
        text_line (edge_text (path_by source (comes_to point) []))) }
{
    let number = point + 1;
    writeln!(text, "edge {source} {number}")
}

/// Appends the line that lists an assertion.
pub fn push_assertion(text: &mut String, point: usize) -> Result<(), AllocError>
    requires { point < 2 ^ 31 }
    ensures { OnOk result (string_bytes text.new ≡ string_bytes text.old ++
        text_line (assert_text point)) }
{
    let number = point + 1;
    writeln!(text, "assert {number}")
}

/// Appends the last line.
pub fn push_end(text: &mut String) -> Result<(), AllocError>
    ensures { OnOk result (string_bytes text.new ≡ string_bytes text.old ++ end_text) }
{
    text.push_str("end\n")
}
