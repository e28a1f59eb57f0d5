//! Points with their parts, and verdicts, as JSON values.

ghost use Rattle.std.specs.Prelude.{◌≡◌, IfOk, map};
ghost use Rattle.serde_json.specs.{Data.string, View.view};
ghost use Rattle.lra_report_json.specs.ReportJson.{generators_data, rows_data, part_data, point_data, verdict_data};
ghost use Rattle.lra_report_json.specs.ReportJson.{under};
ghost use Rattle.lra_report.specs.ReportText as written;
ghost use Rattle.lra_report.specs.View.{point_report_of, verdict_of};

use crate::lists::{generator_values, row_values};
use crate::object::Object;
use lra_options::Domain;
use lra_report::{Part, Place, PointReport, Verdict};
use lra_row_text::Names;
use serde_json::Value;
use std::alloc::{AllocError, Global};

/// The list of a part's rows.
fn rows_value(alloc: Global, part: &Part, names: &Names) -> Result<Value, AllocError>
    ensures { IfOk result (λ value. view value ≡ rows_data names.now part.now.rows) }
{
    let rows = part.rows();
    let texts = row_values(alloc, rows.rows(), rows.kinds(), names)?;
    Ok(Value::from(texts))
}

/// The list of a part's generators, empty if there is none.
fn generators_value(alloc: Global, part: &Part, names: &Names) -> Result<Value, AllocError>
    ensures { IfOk result (λ value. view value ≡ generators_data names.now part.now.generators) }
{
    match part.generators() {
        None => {
            let texts: Vec<Value> = Vec::new(alloc);
            Ok(Value::from(texts))
        }
        Some(generators) => {
            let texts = generator_values(alloc, generators.rows(), generators.kinds(), names)?;
            Ok(Value::from(texts))
        }
    }
}

/// A part: its rows, and its generators if the domain shows them.
fn part_value(
    alloc: Global,
    domain: Domain,
    part: &Part,
    names: &Names,
) -> Result<Value, AllocError>
    ensures { IfOk result (λ value. view value ≡ part_data domain names.now part.now) }
{
    let rows = rows_value(alloc, part, names)?;
    let object = Object::new(alloc).with("rows", rows)?;
    if !domain.shows_generators() {
        return Ok(object.into_value());
    }
    let generators = generators_value(alloc, part, names)?;
    Ok(object.with("generators", generators)?.into_value())
}

/// The parts of a state.
fn part_values(
    alloc: Global,
    domain: Domain,
    parts: &[Part],
    names: &Names,
) -> Result<Vec<Value>, AllocError>
    ensures { IfOk result (λ values. map view values.items ≡ map (part_data domain names.now) parts.now) }
{
    let mut values = Vec::new(alloc);
    for part in parts {
        let value = part_value(alloc, domain, part, names)?;
        values.push(value)?;
    }
    Ok(values)
}

/// A place as it is printed, `LINE:COLUMN`.
fn place_value(alloc: Global, place: Place) -> Result<Value, AllocError>
    ensures { IfOk result (λ value. view value ≡ string (written.place_text place)) }
{
    let line = place.line;
    let column = place.column;
    let text = format!(in alloc; "{line}:{column}")?;
    Ok(Value::from(text))
}

/// A point.
fn point_value(alloc: Global, domain: Domain, point: &PointReport) -> Result<Value, AllocError>
    ensures { IfOk result (λ value. view value ≡ point_data domain (point_report_of point.now)) }
{
    let parts = part_values(alloc, domain, point.state.as_slice(), &point.names)?;
    let object = Object::new(alloc).with("parts", Value::from(parts))?;
    let object = object.with("number", Value::from(point.number))?;
    let object = object.with_text("path", point.path.as_str())?;
    let place = place_value(alloc, point.place)?;
    let object = object.with("place", place)?;
    Ok(object.into_value())
}

/// The points.
pub(crate) fn point_values(
    alloc: Global,
    domain: Domain,
    points: &[PointReport],
) -> Result<Vec<Value>, AllocError>
    ensures { IfOk result (λ values. map view values.items ≡
        map (point_data domain) (map point_report_of points.now)) }
{
    let mut values = Vec::new(alloc);
    for point in points {
        let value = point_value(alloc, domain, point)?;
        values.push(value)?;
    }
    Ok(values)
}

/// A verdict, with its place if it has one of its own.
fn verdict_value(alloc: Global, verdict: &Verdict) -> Result<Value, AllocError>
    ensures { IfOk result (λ value. view value ≡ verdict_data (verdict_of verdict.now)) }
{
    let outcome = verdict.kind.outcome(verdict.holds);
    let object = Object::new(alloc).with("point", Value::from(verdict.number))?;
    let object = object.with_text("verdict", outcome)?;
    if !verdict.kind.has_own_place() {
        return Ok(object.into_value());
    }
    let place = place_value(alloc, verdict.place)?;
    Ok(object.with("place", place)?.into_value())
}

/// The verdicts that stand under this key.
pub(crate) fn verdict_values(
    alloc: Global,
    key: &str,
    verdicts: &[Verdict],
) -> Result<Vec<Value>, AllocError>
    ensures { IfOk result (λ values. map view values.items ≡
        map verdict_data (under key.now (map verdict_of verdicts.now))) }
{
    let mut values = Vec::new(alloc);
    for verdict in verdicts {
        if verdict.kind.key() == key {
            let value = verdict_value(alloc, verdict)?;
            values.push(value)?;
        }
    }
    Ok(values)
}
